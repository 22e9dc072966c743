//! The tests of paths and of what is found by them, as far as the program does not show it: how many steps a cursor (`sj_cursor`) takes and how
//! many items it holds, the calls for one or two items (`sj_item`, `sj_walk`) that the program makes in another form, paths at their limits, the nodes of a path and its variables (`sj_path`), and the canonical texts of paths (`sj_path_text`). The documents are read by `sj_read`.
//!
//! What paths, casts, functions and tables give is in the tables of `checks/rows/`, which need no proof. The crate has no code but tests, which
//! call those crates as any caller does.
#![tactic(auto)]

#[cfg(test)]
mod cases;
#[cfg(test)]
mod cursors;
#[cfg(test)]
mod items;
#[cfg(test)]
mod paths;
#[cfg(test)]
mod texts;
