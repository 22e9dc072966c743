//! The tests of numbers and documents, as far as the program does not show it: documents that are built and gone through by hand (`sj_doc`), lines
//! that are cut at each place (`sj_read`), texts in pieces (`sj_scan`), and the parts of decimals (`sj_decimal`).
//!
//! Which texts are JSON and what they are read and printed as, comparisons and casts are in the tables of `checks/rows/`, and arithmetic is in
//! `checks/decimals.py`. The crate has no code but tests, which call those crates as any caller does.
#![tactic(auto)]

#[cfg(test)]
mod cases;
#[cfg(test)]
mod decimals;
#[cfg(test)]
mod documents;
#[cfg(test)]
mod examples;
#[cfg(test)]
mod pieces;
#[cfg(test)]
mod reading;
#[cfg(test)]
mod stored;
