//! The grammar of paths of the SQL/JSON path language (ISO/IEC 9075-2, 9.46), as definitions below the parser: the rules
//! as relations, the tests on trees and the order of refusals, the functional reading of a list of tokens, and the laws
//! that a text has at most one tree and at most one answer.
//!
//! It stands on the tokens of a path and on its trees. The parser, which is proved against these definitions, is a crate
//! of its own.
#![tactic(auto)]

mod law;
mod refusal;

pub use law::{one_answer, one_list_of_tokens, one_path, one_tree};
pub use refusal::{Name, PathRefusal};
