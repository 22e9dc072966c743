//! Paths that cannot have a fault, by their form alone.
//!
//! `specs/FaultFree.antt` says which forms these are. They tell nothing of a path that the law [`fault_free_paths_end_well`] does not say: each
//! of them ends well on every item.
//!
//! The crate stands on `sj_path_tree` for paths, and on `sj_cursor` for what they mean.
#![tactic(auto)]

mod fault_free;
mod law;

pub use fault_free::is_fault_free;
pub use law::fault_free_paths_end_well;
