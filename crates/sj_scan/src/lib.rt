//! Tells whether bytes that come in pieces are a JSON text, without keeping them and without a document.
//!
//! A [`Recognizer`] takes the bytes of a text in any cut, and answers at the end whether they are JSON: exactly if `IsJson`
//! of `sj_json` says so, with its limits of length and depth. After each piece it also answers whether any bytes that follow
//! can make a text of those so far ([`Recognizer::begins`]), and how many containers are open ([`Recognizer::held`]).
//!
//! It keeps what may come next (`mode.rt`, `turn.rt`), how far a number, an escape and a character have come (`numeral.rt`,
//! `escape.rt`, `utf8.rt`), and which containers are open. So its memory grows with the depth of a text alone. It takes the
//! bytes one by one, but for the plain ASCII text of strings, which it passes over 16 bytes at a step (`run.rt`).
//!
//! Its definitions (`specs/`) are the same step by step: `Numerals`, `Escapes`, `Utf8`, `Modes` and `Runs`, and in `Scanning`
//! what is known behind each byte, and for which bytes a recognizer stands. They say nothing of JSON that is to be believed:
//! the clauses of the calls tie them to `IsJson`, and to `BeginsText` of `Beginnings`.
//!
//! The crate stands on `sj_json` for what JSON is, on `sj_decimal` for what a number is, and on `sj_base` for classes of
//! bytes.
#![tactic(auto)]

mod escape;
mod mode;
mod numeral;
mod recognizer;
mod run;
mod turn;
mod utf8;

pub use recognizer::Recognizer;
