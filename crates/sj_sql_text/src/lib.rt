//! The canonical text of a statement (ISO/IEC 9075-2, SQL/JSON): one text for each tree.
//!
//! [`statement_text`] prints a statement: keywords in upper case, names between double quotation marks, every clause that
//! has a default written out, and each path as its own canonical text. A tree becomes a list of pieces, words and strings
//! and signs, and one rule says which blanks stand between them. `specs/Statements.antt` says which pieces a statement has,
//! and `specs/Pieces.antt` how they are printed.
//!
//! The laws promise that the canonical text of the statements that a file has is a file of these very statements, within the
//! same limits ([`read_back`]), and that two statements that files have are equal exactly where their canonical texts are
//! ([`same_text_same_tree`]).
//!
//! It stands on the trees of sj_sql_tree and on the texts of paths of sj_path_text.
#![tactic(auto)]

mod call;
mod law;
mod phrase;
mod piece;
mod pieces;
mod plan;
mod print;
mod quoted;
mod statement;
mod table;
mod value;

pub use law::{read_back, same_text_same_tree, text_breaks, tokens_accepted, tokens_spell};
pub use statement::statement_text;
