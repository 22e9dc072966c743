//! Accessors on one item, as definitions, and what traces are.
//!
//! A trace is what evaluating a path hands out and gives, in order, and how that ends. `specs/Trace.antt` has the
//! traces, with their items, visits and ends, and the combinations of which the meaning of a path is made: `join`,
//! `each` and `after_visits`. `specs/Reach.antt` says which trace each accessor has on one item (ISO/IEC 9075-2, SQL/JSON path
//! language, accessors), with the unwrapping of lax mode, and the last index of an array. `specs/Takes.antt` says what
//! one call takes from a trace.
//!
//! The crate stands on `sj_item` for items, and on `sj_path_tree` for the modes. Of the code it has what several crates above share:
//! the accessors and the answers of sequences, the last index of an array, and whole numbers. It takes no memory. `sj_walk` finds the
//! items of an accessor one by one.
#![tactic(auto)]

mod answer;
mod parts;
mod reach;
mod whole;

pub use answer::Answer;
pub use parts::PairPart;
pub use reach::{Reach, last_index};
pub use whole::whole_number;
