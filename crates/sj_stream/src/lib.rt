//! The loop over the pieces of an input, whatever is printed for a line.
//!
//! It stands on `sj_outside` for sources and sinks, on `sj_rows` for lines, on `sj_page` for rows on their way to the output,
//! and on `sj_file` for the statuses with which a run ends. [`take_turns`] reads a piece, has a [`TakesPieces`] print what
//! the lines give that end in it, writes that, and reads the next. A taker need not hold a line. [`LinesOf`] is the one that
//! does: it splits pieces into lines for a [`PrintsLines`], which sees each line whole.
//!
//! A line job says what each line prints and how many steps that may take. For every one that a taker does, and every cut of the
//! input, the contract of [`take_turns`] says what was written when the run is over, why it is over, and how many steps it
//! took. A line job may also have a text that comes behind all lines; whoever prints that says so with `specs/Then.antt`.
#![tactic(auto)]

mod lines_of;
mod out;
mod prints_lines;
mod takes_pieces;
mod turns;

pub use lines_of::LinesOf;
pub use out::Out;
pub use prints_lines::PrintsLines;
pub use takes_pieces::TakesPieces;
pub use turns::{MAX_INPUT, Progress, status_of, take_turns};
