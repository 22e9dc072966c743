//! What forward paths have, found in one pass: the laws that make a scan of a JSON text right.
//!
//! A forward path (`sj_forward`) has exactly the items of a walk down the tree that keeps one place for each node, in the order of the
//! walk, and it has no fault. No item is part of another. So its items can be found and printed while the text is read, with one place for
//! each array or object that is open. `specs/Reached.antt` says what accessors reach by whole lists, one accessor after the other, and
//! `specs/Apart.antt` what it is for items to lie apart.
//!
//! The crate stands on `sj_forward` for forward paths and their walk, and on `sj_cursor` for what paths mean.
#![tactic(auto)]

mod law;

pub use law::{
    forward_items_are_walked, forward_items_lie_apart, forward_paths_end_well, walk_is_all_reached,
};
