//! Bound statements: each column by its number, each default cast to its type, and the plan of a table over the numbers
//! of its paths.
//!
//! It stands on the paths of sj_path_tree and the sequences of sj_sql_tree. Contracts see a bound statement as its `bound_of` in
//! `specs/View.antt`, in which there are no pointers, and lists in place of sequences and vectors. What each of them
//! meets is `IsSound` in `specs/Sound.antt`: sj_bind makes it so, and sj_select needs it.
#![tactic(auto)]

mod bound;
mod key;

pub use bound::{Bound, BoundColumn, BoundItem, BoundMember, BoundPath, BoundTable, BoundValue};
pub use key::is_text_type;
