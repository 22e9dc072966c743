//! The trees of statements. A repeated part of a value and the columns of a table are vectors, since a recursive type holds
//! no sequence. Any other repeated part is a sequence.

use crate::seq::Seq;
use sj_base::Text;
use sj_path_tree::{Literal, Path};
use sj_sql_grammar::{
    Encoding, InOut, IsJsonCall, Passed, QueryClauses, Siblings, TypeName, ValueDo,
};
use sj_value::{ExistsAction, Nulls, TableAction};

/// A statement.
#[derive(Drop)]
pub enum Statement {
    /// `SELECT` and values, with no table.
    Plain(Seq<Value>),
    /// `SELECT * FROM` a table.
    All(Table),
    /// `SELECT` and items, `FROM` a table.
    Listed(Seq<Item>, Table),
}

/// The document, the path and the variables of a function or a table.
#[derive(Drop)]
pub struct Common {
    pub encoding: Encoding,
    pub path: Path,
    pub passing: Seq<Passed>,
}

/// JSON_EXISTS (ISO/IEC 9075-2, 8.22).
#[derive(Drop)]
pub struct ExistsCall {
    pub common: Common,
    pub on_error: ExistsAction,
}

/// JSON_VALUE (ISO/IEC 9075-2, 6.27).
#[derive(Drop)]
pub struct ValueCall {
    pub common: Common,
    pub ty: TypeName,
    pub on_empty: ValueDo,
    pub on_error: ValueDo,
}

/// JSON_QUERY (ISO/IEC 9075-2, 6.28).
#[derive(Drop)]
pub struct QueryCall {
    pub common: Common,
    pub clauses: QueryClauses,
}

/// An item of a SELECT list with a table.
#[derive(Drop)]
pub enum Item {
    Single(Value),
    /// JSON_ARRAYAGG.
    ArrayAgg(Value, Nulls),
    /// JSON_OBJECTAGG: its key, its value, and whether WITH UNIQUE KEYS stands there.
    ObjectAgg(Value, Value, Nulls, bool),
}

/// A value of a SELECT list. The parser puts a column only beside a table, and a function on the document only where there
/// is none. A function stands in a box, so that the calls that recur over values take little stack.
#[cycle(values)]
#[derive(Drop)]
pub enum Value {
    Lit(Literal),
    /// A column of the table.
    Column(Text),
    Exists(Box<ExistsCall>),
    /// JSON_VALUE.
    ValueOf(Box<ValueCall>),
    Query(Box<QueryCall>),
    IsJson(IsJsonCall),
    /// JSON_OBJECT: its members, and whether WITH UNIQUE KEYS stands there.
    Object(Vec<Member>, Nulls, bool),
    /// JSON_ARRAY.
    Array(Vec<Value>, Nulls),
}

/// A member of JSON_OBJECT or of JSON_OBJECTAGG.
#[cycle(values)]
#[derive(Drop)]
pub struct Member {
    pub key: Value,
    pub value: Value,
}

/// JSON_TABLE (ISO/IEC 9075-2, 7.11). Its name is that of its row path.
#[derive(Drop)]
pub struct Table {
    pub common: Common,
    pub name: Option<Text>,
    pub columns: Columns,
    pub plan: PlanTree,
    pub on_error: TableAction,
}

/// The columns of a table or of a nested path, which are never none.
#[cycle(columns)]
#[derive(Drop)]
pub struct Columns {
    /// The columns but the last, in the order of the text.
    pub before: Vec<Column>,
    pub last: Column,
}

/// A column, or a nested path with its columns.
#[cycle(columns)]
#[derive(Drop)]
pub enum Column {
    /// FOR ORDINALITY.
    Ordinality(Text),
    Regular(RegularColumn),
    /// FORMAT JSON.
    Formatted(FormattedColumn),
    /// EXISTS: whether the path has an item; the column's name, the path, what an error gives.
    Exists(Text, Path, ExistsAction),
    /// NESTED: the path, its name and its columns.
    Nested(Path, Option<Text>, Box<Columns>),
}

/// A column that is JSON_VALUE on the row's item.
#[derive(Drop)]
pub struct RegularColumn {
    pub name: Text,
    pub ty: TypeName,
    pub path: Path,
    pub on_empty: ValueDo,
    pub on_error: ValueDo,
}

/// A column that is JSON_QUERY on the row's item.
#[derive(Drop)]
pub struct FormattedColumn {
    pub name: Text,
    pub encoding: Encoding,
    pub path: Path,
    pub clauses: QueryClauses,
}

/// The plan of a table.
pub enum PlanTree {
    /// PLAN DEFAULT, or no plan, which is OUTER and UNION.
    Default(InOut, Siblings),
    /// A plan that names paths.
    Named(NamedPlan),
}

impl Drop for PlanTree {
    fn drop(self) {
        match self {
            PlanTree::Default(_, _) => {}
            PlanTree::Named(_plan) => {}
        }
    }
}

/// A plan that names paths. While it is read it may have any number of operators, which group to the left, so it is given up by a
/// loop.
pub enum NamedPlan {
    Path(Text),
    Outer(Text, Box<NamedPlan>),
    Inner(Text, Box<NamedPlan>),
    Union(Box<NamedPlan>, Box<NamedPlan>),
    Cross(Box<NamedPlan>, Box<NamedPlan>),
}

impl Drop for NamedPlan {
    fn drop(mut self) {
        loop {
            match self {
                NamedPlan::Path(_) => return,
                NamedPlan::Outer(_, below) => self = Box::into_inner(below),
                NamedPlan::Inner(_, below) => self = Box::into_inner(below),
                NamedPlan::Union(first, _) => self = Box::into_inner(first),
                NamedPlan::Cross(first, _) => self = Box::into_inner(first),
            }
        }
    }
}
