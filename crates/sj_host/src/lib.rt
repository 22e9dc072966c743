//! The engine for other programs: the statements of a file in memory, and the rows that they give for bytes in memory.
//!
//! It stands on `sj_file` for statements, on `sj_run` for runs, on `sj_outside` for objects in memory, and on `memchr` for
//! line feeds. [`check`] counts the statements of a file, [`widths`] says how many fields their rows have, and [`show`]
//! writes their canonical text. [`line_rows`] writes the rows of whole lines into a buffer of the caller and says how many of
//! the lines it took, and [`document_rows`] those of one document that may hold line feeds. Or a call says why it gives
//! nothing ([`Unanswered`]), and [`message`] is what is told of that.
//!
//! No call keeps anything. Contracts say that what is written is what `run` and `show` write, by the same definitions, and
//! that a file is refused as the command refuses it.
#![tactic(auto)]

mod document;
mod ends;
mod file;
mod in_memory;
mod lines;
mod telling;
mod unanswered;

pub use document::document_rows;
pub use file::{check, show, widths};
pub use lines::{Part, Rows, line_rows};
pub use telling::message;
pub use unanswered::Unanswered;
