//! Lines that are made and not read: a source of JSON lines for runs without an input.
//!
//! It stands on `sj_outside` for the trait of inputs, on `arrayvec` for the room of one line and on `itoa` for its numbers. A [`GeneratedSource`]
//! gives the bytes of its lines in pieces of any size, makes a line when its first byte is asked for, and holds no more
//! than that line. Which lines they are is a definition that contracts cite, and one in ten of them is no JSON.
#![tactic(auto)]

mod line;
mod source;

pub use source::GeneratedSource;
