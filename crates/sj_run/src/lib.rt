//! What the command does: the statements of a file over the lines of an input (ISO/IEC 9075-2, SQL/JSON functions).
//!
//! It stands on `sj_file` for what the words ask for and for the statements of a file, on `sj_read` for the documents of
//! lines, on `sj_select` for the rows that a statement gives, on `sj_rows` for lines, on `sj_page` for rows on their way
//! to the output, on `sj_stream` for the loop over the pieces of the input, on `sj_group_run` for groups, on `sj_scan_statement` for the statement that a scan is, and on `sj_generated` for
//! lines that are not read. [`run`] is the top call. It knows files and streams only by the traits of `sj_outside`. Its contract says what a
//! run has written when it ends, for every cut of the input, why it ended, and how many steps it took.
#![tactic(auto)]

mod check;
mod command;
mod generate;
mod group;
mod kept;
mod notes;
mod round;
mod rows;
mod scan;
mod show;
mod stream;

pub use command::run;
