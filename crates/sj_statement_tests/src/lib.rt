//! The tests of statement files, as far as the program does not show it: the trees that the parser makes of statements and their paths
//! (`sj_sql`, `sj_path`), the lists that hold them, and the plan of a bound statement (`sj_bind`).
//!
//! Which files are refused, and why, is in the tables of `checks/rows/`, which need no proof. The crate has no code but tests, which call those
//! crates as any caller does.
#![tactic(auto)]

#[cfg(test)]
mod binding;
#[cfg(test)]
mod cases;
#[cfg(test)]
mod statements;
