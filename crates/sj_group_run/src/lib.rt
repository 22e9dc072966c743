//! The groups of the rows of an input's lines: a run that prints only error rows, and at its end the groups.
//!
//! It stands on `sj_file` for the statement of a file, on `sj_stream` and `sj_batch` for the lines of an input, on
//! `sj_select` for the rows of a line, on `sj_group` for groups, and on `sj_page` for rows on their way to the output.
//! [`group_lines`] takes the lines of an input, gathers their rows, and writes the groups once the input has ended. Its
//! contract says that it writes the error rows of all lines, and then the groups of all rows; where it ends otherwise than
//! with Done, it says what was written and why, and that no group was unless the input was read to its end.
#![tactic(auto)]

mod gather;
mod group;
mod printer;
mod write;

pub use group::group_lines;
