//! The tests of what goes in and of rows: the outside (`sj_outside`), lines and the texts of rows (`sj_rows`), constructors and aggregates
//! (`sj_build`), and the rows that a statement gives for a line (`sj_select`).
//!
//! The crate has no code but tests, which call those crates as any caller does. They stand apart since a crate with tests is proved twice.
#![tactic(auto)]

#[cfg(test)]
mod building;
#[cfg(test)]
mod cases;
#[cfg(test)]
mod examples;
#[cfg(test)]
mod outside;
#[cfg(test)]
mod rows;
#[cfg(test)]
mod selects;
