//! The parts of a statement's tree that hold no path.

use sj_base::Text;
use sj_path_tree::Literal;
use sj_value::{JsonKind, QueryAction, SqlType, Wrapper};

/// The encoding of a document, as FORMAT JSON names it. A line is UTF-8.
#[derive(Clone, Copy, Debug, PartialEq, Eq)]
pub enum Encoding {
    /// UTF8, or none.
    Read,
    /// UTF16 or UTF32, which this implementation lacks.
    Refused,
}

/// A type, as a statement names it.
#[derive(Clone, Copy, Debug, PartialEq, Eq)]
pub enum TypeName {
    /// A type to which items can be cast.
    Known(SqlType),
    /// FLOAT, REAL or DOUBLE PRECISION, which this implementation lacks.
    Approximate,
    /// DATE, TIME or TIMESTAMP, which this implementation lacks.
    Datetime,
}

/// A variable of a PASSING clause.
#[derive(Drop)]
pub struct Passed {
    pub name: Text,
    pub value: Literal,
}

/// What JSON_VALUE gives in place of an item, as ON EMPTY or ON ERROR names it.
#[derive(Drop)]
pub enum ValueDo {
    /// ERROR: the state is raised.
    Error,
    /// NULL.
    Null,
    /// DEFAULT: this literal, cast to the type.
    Default(Literal),
}

/// The QUOTES clause of JSON_QUERY.
#[derive(Clone, Copy, Debug, PartialEq, Eq)]
pub enum Quotes {
    /// There is none.
    Absent,
    /// KEEP QUOTES.
    Keep,
    /// OMIT QUOTES.
    Omit,
}

/// The clauses of JSON_QUERY, and of a column that is JSON_QUERY, in the order of the grammar.
#[derive(Clone, Copy, Debug, PartialEq, Eq)]
pub struct QueryClauses {
    pub wrapper: Wrapper,
    pub quotes: Quotes,
    pub on_empty: QueryAction,
    pub on_error: QueryAction,
}

/// An IS JSON predicate on the document.
#[derive(Clone, Copy, Debug, PartialEq, Eq)]
pub struct IsJsonCall {
    /// IS NOT JSON.
    pub negated: bool,
    pub kind: JsonKind,
    /// WITH UNIQUE KEYS.
    pub unique: bool,
}

/// How the rows of a path are joined with those of the paths below it.
#[derive(Clone, Copy, Debug, PartialEq, Eq)]
pub enum InOut {
    Outer,
    Inner,
}

/// How the rows of paths beside one another are joined.
#[derive(Clone, Copy, Debug, PartialEq, Eq)]
pub enum Siblings {
    Union,
    Cross,
}
