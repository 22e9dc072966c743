//! The statement that a scan is: the items of a forward path, a row for each.
//!
//! `scan PATH` gives what `run` gives for
//! `SELECT * FROM JSON_TABLE(doc, 'PATH' COLUMNS (v VARCHAR FORMAT JSON PATH '$') ERROR ON ERROR);`.
//! [`scan_statement`] makes this statement as it is bound, from the text of the path, and refuses a text that is no path
//! and a path that is not forward. `specs/Statement.antt` says which statement it is, and which texts are refused.
//!
//! The crate stands on `sj_path` for the text of paths, on `sj_forward` for forward paths, and on `sj_bound` for bound
//! statements.
#![tactic(auto)]

mod refusal;
mod statement;

pub use refusal::ScanRefusal;
pub use statement::scan_statement;
