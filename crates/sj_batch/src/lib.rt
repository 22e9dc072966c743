//! Lines that are read together: the lines of a piece of the input become documents, some at a time.
//!
//! It stands on `sj_rows` for lines, on `sj_read` and `sj_doc` for documents, on `sj_file` for whether the keys of an
//! object may be equal, and on `sj_select_list` and `sj_select` for how statements see a line. [`Batches::of_piece`] gives the
//! [`Batch`] for a piece, and [`Batch::read_on`] reads the next of the lines that wait. The documents of lines that are done with give their memory to the next ones, so that a long input takes
//! no more of it than its largest lines. Contracts say that the lines that are read are the first of those that waited,
//! without the blank ones, each with its number and as the document that its bytes spell, or as no JSON.
#![tactic(auto)]

mod batch;

pub use batch::{Batch, Batches, Behind, LINES_TOGETHER, Lengths, ReadLine, Reading};
