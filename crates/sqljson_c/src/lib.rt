//! The engine for programs in C: what `sqljson.h` declares.
//!
//! It stands on `sj_host`, whose functions the exports call and whose clauses they state again. No call keeps anything, and
//! what memory a call takes it gives back before it returns. That C keeps what a reference promises, as that the buffers of a
//! call are there and do not overlap, is not proved: `sqljson.h` says it.
#![tactic(auto)]

mod ended;
mod exports;

pub use ended::Ended;
