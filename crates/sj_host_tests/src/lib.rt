//! The tests of the calls for other programs (`sj_host`): rows with buffers of every size, parts of an input, documents with
//! line feeds, and what is told where a call gives nothing.
//!
//! The crate has no code but tests, which call that crate as any caller does. They stand apart since a crate with tests is proved twice.
#![tactic(auto)]

#[cfg(test)]
mod calls;
#[cfg(test)]
mod cases;
