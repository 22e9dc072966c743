//! Statements as trees (ISO/IEC 9075-2, SQL/JSON).
//!
//! It stands on the definitions of sj_sql_grammar and the paths of sj_path_tree. Contracts see a statement as a tree of
//! sj_sql_grammar, by `statement_of` in `specs/View.antt`, with lists in place of sequences and vectors, and without
//! pointers. The parser is sj_sql; what binds statements needs their trees alone.
#![tactic(auto)]

mod seq;
mod tree;

pub use seq::Seq;
pub use sj_sql_grammar::{
    BindKind, Encoding, FileKind, InOut, IsJsonCall, Passed, QueryClauses, Siblings, TypeName,
    ValueDo,
};
pub use tree::{
    Column, Columns, Common, ExistsCall, FormattedColumn, Item, Member, NamedPlan, PlanTree,
    QueryCall, RegularColumn, Statement, Table, Value, ValueCall,
};
