//! The parser of statements (ISO/IEC 9075-2, SQL/JSON), and the reading of a file of them.
//!
//! It stands on the definitions of sj_sql_grammar, the phrases of sj_sql_phrase, the parser of sj_path and the trees of sj_sql_tree,
//! whose public names it passes on. Contracts see a statement as a tree of sj_sql_grammar, by `statement_of` of sj_sql_tree.
#![tactic(auto)]

mod answer;
mod asking;
mod call;
mod column;
mod common;
mod faults;
mod file;
mod item;
mod path;
mod script;
mod select;
mod table;
mod value;

pub use answer::Refused;
pub use file::{NextStatement, next_statement};
pub use script::{FileFault, Script, Statements, parse_file};
pub use sj_sql_tree::{
    BindKind, Column, Columns, Common, Encoding, ExistsCall, FileKind, FormattedColumn, InOut,
    IsJsonCall, Item, Member, NamedPlan, Passed, PlanTree, QueryCall, QueryClauses, RegularColumn,
    Seq, Siblings, Statement, Table, TypeName, Value, ValueCall, ValueDo,
};
