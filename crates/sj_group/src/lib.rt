//! Rows gathered by their first value, over the whole input.
//!
//! [`Groups`] takes rows one after another. It gathers those whose first values have the same field, and makes of each
//! group an array of its rows' second values, or an object of their second and third ones. The groups stand in the order
//! in which their first rows came.
//!
//! It stands on `sj_build` for the arrays and objects, on `sj_rows` for the texts of fields, on `sj_value` for SQL values,
//! on `sj_base` for bytes and the answer "out of memory", on `itoa` for whole numbers, and on `indexmap` for a map whose
//! keys keep their order. It promises that after each row the groups are exactly those of the definition
//! (`specs/Grouping.antt`) over the whole list of the rows that were added, and that a row that is refused for want of
//! memory changes nothing. Where keys have different hashes, a row takes time linear in its own texts, however many rows came
//! before it.
#![tactic(auto)]

mod aggregate;
mod gathered;
mod group;
mod groups;
mod text;

pub use aggregate::Aggregate;
pub use groups::Groups;
