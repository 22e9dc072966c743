//! The outside, which the engine reaches through three traits. A [`Source`] gives the bytes of the input, a [`Sink`]
//! takes the bytes of the output, and a [`Shelf`] holds the statement file.
//!
//! Each counts its faults in a number that contracts see: a call fails only where that number rose, and a call that
//! succeeds leaves it as it was. So whoever is told of a failure can see its cause. The objects in memory tell their
//! bytes too, and fail at chosen calls and at no other. The adapters over files and the standard streams are proved
//! against the same traits, and tell no content.
//!
//! This crate stands on `sj_base` and on `thiserror`. It promises what the clauses of its calls say; that the adapters
//! move the bytes of real files is tested and not proved.
#![tactic(auto)]

mod adapters;
mod copies;
mod outside;
mod shelf;
mod sink;
mod source;

pub use adapters::{FileShelf, StderrSink, StdinSource, StdoutSink, WriterSink};
pub use outside::{Failed, Shelf, Sink, Source};
pub use shelf::{MemShelf, QuietShelf};
pub use sink::{CountSink, MemSink};
pub use source::{MemSource, QuietSource};
