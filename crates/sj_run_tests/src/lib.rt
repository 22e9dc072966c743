//! The tests of runs (`sj_run`) over the objects in memory of `sj_outside`, and of generated lines (`sj_generated`).
//!
//! The crate has no code but tests, which call those crates as any caller does. They stand apart since a crate with tests is proved twice.
#![tactic(auto)]

#[cfg(test)]
mod cases;
#[cfg(test)]
mod faults;
#[cfg(test)]
mod generated;
#[cfg(test)]
mod runs;
#[cfg(test)]
mod steps;
