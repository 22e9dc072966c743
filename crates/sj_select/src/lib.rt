//! The rows that a statement gives for a line (ISO/IEC 9075-2, query specification).
//!
//! The definitions are whole lists: `specs/Columns.antt` says what the columns of a table are in a row of its plan, and `specs/Rows.antt` which
//! rows a statement has.
//!
//! [`RowsOf`] prints one row after another, or gives its values, and keeps no list of them. Without a table the values of the SELECT list are the only row. Over a
//! table each column of a row is found by an inquiry or a cursor of its own, which is moved to the item of the row. Where the SELECT list is
//! the columns and nothing else, each is printed as it is found. Else all are found first; then the values of the SELECT list are found beside
//! them, or the aggregates take them.
//!
//! The crate stands on `sj_bound` for statements, on `sj_select_list` for the values and the aggregates of a SELECT list, on `sj_table` for the
//! rows of plans, on `sj_func` for the outcomes of the query functions, and on `sj_rows` for the texts of rows. It promises that the rows, their
//! texts and the state behind them are exactly those of the definitions, where memory suffices, and that the counter rises by no more than they
//! allow.
#![tactic(auto)]

mod columns;
mod print;
mod rows;
mod source;
mod table;

pub use rows::{RowsOf, Turn};
pub use sj_select_list::LineDoc;
