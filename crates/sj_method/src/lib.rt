//! Methods, signs, arithmetic and subscripts on one item.
//!
//! `specs/Methods.antt` says which trace each item method and each sign has on one item (ISO/IEC 9075-2, SQL/JSON path
//! language, item methods), `specs/Pairs.antt` which pairs `keyvalue` gives, and `specs/Numbers.antt` what an operand,
//! a subscript and a binary operation are. Nothing is unwrapped here: in lax mode whoever evaluates a path does that
//! before.
//!
//! The crate stands on `sj_item` for items and their casts, on `sj_decimal` for arithmetic, on `sj_path_tree` for the
//! names of methods and operators, and on `sj_step` for traces. It promises that each call gives exactly what these
//! definitions say, and that a [`PairWalk`] raises the counter by exactly the visits of its trace. It takes no memory.
#![tactic(auto)]

mod keyvalue;
mod method;
mod number;

pub use keyvalue::{PairWalk, pairs};
pub use method::{apply, sign};
pub use number::{binary, operand, subscript};
