//! The parser of paths of the SQL/JSON path language (ISO/IEC 9075-2, 9.46).
//!
//! It stands on the definitions of sj_path_grammar, the tokens of sj_path_token and the trees of sj_path_tree, whose public names it
//! passes on. `parse_path` accepts exactly the texts that `Accepts` in `specs/Answers.antt` of sj_path_grammar describes, gives the
//! one tree of each, and refuses every other text with the first reason in the order of `PathRefusal`.
#![tactic(auto)]

mod check;
mod depth;
mod found;
mod level;
mod make;
mod parse;
mod predicate;
mod single;
mod step;
mod unsupported;

pub use parse::parse_path;
pub use sj_path_grammar::{Name, PathRefusal};
pub use sj_path_tree::{
    Arith, Compare, Expr, Initial, Literal, Method, Mode, Path, Pred, Step, Sub, Vars, member_path,
    nodes,
};
