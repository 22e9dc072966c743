//! Plain paths, whose items on a node are found without cells, and what is taken of the items of any path.
//!
//! A plain path is in lax mode, and is `$` and behind it accessors of members, `[*]` and subscripts such as `[0]`. A [`Chain`] has its
//! accessors, and goes down the document from one to the next. `specs/Chains.antt` says what it finds so.
//!
//! Items are taken one by one, until enough is known of them. [`Look`] has what was found where one or none is asked for, [`FoundNodes`]
//! has the same where all items are nodes, and [`Pairing`] what was seen of their pairs with what stands beside them, as with the other
//! operand of a comparison. `specs/Looks.antt` and `specs/Pairings.antt` say what is found and seen of a whole trace.
//!
//! The crate stands on `sj_path_tree` for paths, on `sj_doc` for the children of a node, and on `sj_step` for traces. It promises that each
//! call finds exactly what these definitions say, and raises the counter by no more than the visits before. It takes no memory but for
//! a [`Chain`]. Which trace a path means is for `sj_cursor` to say.
#![tactic(auto)]

mod chain;
mod look;
mod opening;
mod pairing;
mod take;

pub use chain::{Chain, Link, look_below, see_below};
pub use look::{Found, FoundNodes, Limit, Look};
pub use opening::Opening;
pub use pairing::{Beside, Pairing};
