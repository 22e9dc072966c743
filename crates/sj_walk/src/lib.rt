//! One accessor on one item, resumable.
//!
//! `sj_step` says which trace an accessor has on an item. `specs/Walk.antt` says which trace a [`Walk`] has left.
//!
//! The crate stands on `sj_step` for traces, on `sj_doc` for the children of a node, and on `sj_item` for items. It promises that a
//! [`Walk`] gives exactly the items and the end of its trace, and raises the counter by exactly the visits. [`part_under`] gives the member of
//! a made pair without a walk. It takes no memory.
#![tactic(auto)]

mod elements;
mod members;
mod parts;
mod start;
mod walk;

pub use parts::part_under;
pub use walk::Walk;
