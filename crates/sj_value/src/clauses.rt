// What the clauses of a query function say.

use crate::types::SqlType;
use crate::value::SqlValue;

/// What JSON_VALUE gives in place of an item: the action of ON EMPTY or ON ERROR (ISO/IEC 9075-2, JSON value function).
#[derive(Debug, Drop)]
pub enum ValueAction {
    /// ERROR: the state is raised.
    Error,
    /// NULL.
    Null,
    /// DEFAULT: this value, which was cast to the type of RETURNING.
    Default(SqlValue),
}

/// The clauses of JSON_VALUE.
#[derive(Debug, Drop)]
pub struct ValueSpec {
    /// The type of RETURNING.
    pub ty: SqlType,
    /// What is given where the path gives no item.
    pub on_empty: ValueAction,
    /// What is given where an error comes.
    pub on_error: ValueAction,
}

/// When JSON_QUERY puts the items into an array (ISO/IEC 9075-2, JSON query).
#[derive(Clone, Copy, Debug, PartialEq, Eq)]
pub enum Wrapper {
    /// WITHOUT WRAPPER: never.
    Without,
    /// WITH CONDITIONAL WRAPPER: unless there is exactly one item, and it is an array or an object.
    Conditional,
    /// WITH UNCONDITIONAL WRAPPER: always.
    Unconditional,
}

/// What JSON_QUERY gives in place of items: the action of ON EMPTY or ON ERROR.
#[derive(Clone, Copy, Debug, PartialEq, Eq)]
pub enum QueryAction {
    /// ERROR: the state is raised.
    Error,
    /// NULL.
    Null,
    /// EMPTY ARRAY: the JSON value `[]`.
    EmptyArray,
    /// EMPTY OBJECT: the JSON value `{}`.
    EmptyObject,
}

/// The clauses of JSON_QUERY.
#[derive(Clone, Copy, Debug, PartialEq, Eq)]
pub struct QuerySpec {
    /// When the items are put into an array.
    pub wrapper: Wrapper,
    /// OMIT QUOTES: a result that is one string is given as its text.
    pub omit_quotes: bool,
    /// What is given where the path gives no item.
    pub on_empty: QueryAction,
    /// What is given where an error comes.
    pub on_error: QueryAction,
}

/// What JSON_EXISTS gives where an error comes (ISO/IEC 9075-2, JSON exists predicate).
#[derive(Clone, Copy, Debug, PartialEq, Eq)]
pub enum ExistsAction {
    /// TRUE.
    True,
    /// FALSE.
    False,
    /// UNKNOWN, which is NULL.
    Unknown,
    /// ERROR: the state is raised.
    Error,
}

/// What the row path of a JSON_TABLE gives where an error comes (ISO/IEC 9075-2, JSON table).
#[derive(Clone, Copy, Debug, PartialEq, Eq)]
pub enum TableAction {
    /// EMPTY: no row.
    Empty,
    /// ERROR: the state is raised.
    Error,
}

/// What a constructor makes of a NULL (ISO/IEC 9075-2, JSON object and array constructors).
#[derive(Clone, Copy, Debug, PartialEq, Eq)]
pub enum Nulls {
    /// NULL ON NULL: a JSON null.
    Null,
    /// ABSENT ON NULL: nothing.
    Absent,
}

/// The kind of JSON that IS JSON asks for (ISO/IEC 9075-2, JSON predicate).
#[derive(Clone, Copy, Debug, PartialEq, Eq)]
pub enum JsonKind {
    /// Any JSON value.
    Value,
    /// An array.
    Array,
    /// An object.
    Object,
    /// Neither of these two.
    Scalar,
}
