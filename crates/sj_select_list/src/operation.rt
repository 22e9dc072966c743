// The operations by which values are found.

use sj_cursor::{Cursor, Inquiry};
use sj_path_tree::Literal;
use sj_sql_grammar::IsJsonCall;
use sj_value::{ExistsAction, Nulls, QuerySpec, ValueSpec};

/// How one value is found, or made of those that were found before it.
///
/// Its `drop` is written out, so that whoever holds one gives it up by one call, with the inquiry or the cells of its path.
pub enum Operation<'d> {
    /// This literal.
    Literal(&'d Literal),
    /// The column of this number.
    Column(u32),
    /// JSON_EXISTS of the line.
    Exists(ExistsCall<'d>),
    /// JSON_VALUE of the line.
    Value(ValueCall<'d>),
    /// JSON_QUERY of the line.
    Query(QueryCall<'d>),
    /// IS JSON or IS NOT JSON of the line.
    IsJson(IsJsonCall),
    /// The last two values, a key and its value, become the last member.
    Member,
    /// JSON_OBJECT of so many of the last members. The truth value is that of WITH UNIQUE KEYS.
    Object(usize, Nulls, bool),
    /// JSON_ARRAY of so many of the last values.
    Array(usize, Nulls),
}

impl<'d> Drop for Operation<'d> {
    fn drop(self) {
        match self {
            Operation::Exists(_call) => {}
            Operation::Value(_call) => {}
            Operation::Query(_call) => {}
            Operation::Literal(_)
            | Operation::Column(_)
            | Operation::IsJson(_)
            | Operation::Member
            | Operation::Object(_, _, _)
            | Operation::Array(_, _) => {}
        }
    }
}

/// JSON_EXISTS. Its inquiry takes its memory once and is asked on one context item after another, as that of JSON_VALUE.
#[derive(Drop)]
pub struct ExistsCall<'d> {
    /// The inquiry of its path.
    pub inquiry: Inquiry<'d>,
    /// What it gives where an error comes.
    pub on_error: ExistsAction,
}

/// JSON_VALUE.
#[derive(Drop)]
pub struct ValueCall<'d> {
    /// The inquiry of its path.
    pub inquiry: Inquiry<'d>,
    /// The type that it returns, and what it gives where there is no item or an error comes.
    pub clauses: &'d ValueSpec,
}

/// JSON_QUERY. The cursor of its path takes its memory once and is moved from one context item to the next. It is in a place of its own,
/// so that an operation is small.
#[derive(Drop)]
pub struct QueryCall<'d> {
    /// The cursor of its path.
    pub cursor: Box<Cursor<'d>>,
    /// Its wrapper and its quotes, and what it gives where there is no item or an error comes.
    pub clauses: QuerySpec,
}
