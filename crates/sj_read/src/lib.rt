//! Reads a JSON text into a document, and accepts exactly what `IsJson` of `sj_json` says: UTF-8 of a
//! limited length and depth that spells a tree (RFC 8259).
//!
//! It stands on `sj_doc` for the document that it builds, on `sj_json` for what a text is read as, on `sj_decimal` for
//! numbers, and on `simdutf8` for UTF-8. It promises that [`read`] gives the one tree that the line spells, and refuses
//! the line exactly if it spells none within the limits.
//!
//! # How a line is read
//!
//! A line that is not too long is copied once into the memory of the document, which keeps it as its text (`line.rt`).
//! Then it is looked at as a whole: it is UTF-8 (`utf8.rt`). The copy is what is read, and the look at the line gives it
//! time to be there. Behind it stand 16 line feeds. They are white space, and no token of a line goes on into them. So
//! behind a byte of a token 16 bytes can be looked at together, and one byte at least, without asking for the end.
//!
//! Keys, strings and numbers are places in that text, so a node is made without a copy. Only a string with an escape is
//! written out, into a buffer that all of them share, and from there behind the line's text (`unescape.rt`, `escape.rt`).
//!
//! The rest is a loop without recursion (`reader.rt`). Its state is the place in the text, the mode, which says what may
//! come next, and a `DocBuilder`, which knows the containers that are open. So depth costs no stack. One turn of the loop
//! looks at one byte that is not white space, and does what that byte asks for in that mode:
//!
//! - a bracket opens a container, or closes the innermost one;
//! - a quotation mark begins a key or a string, whose end is looked for sixteen bytes at a step (`plain.rt`);
//! - a digit or a minus sign begins a number: its end is found and its grammar is checked (`numeral.rt`), but its value
//!   is worked out only when somebody asks for it;
//! - `n`, `t` and `f` begin `null`, `true` and `false`.
//!
//! A turn goes on as long as what follows stands right behind: a key takes its colon and a scalar with it, a scalar its
//! comma or closing bracket, and members and elements are taken one after another. White space ends the turn, and the
//! next one passes over it. So most lines take few turns, and each turn means the same as several turns of one token.
//!
//! In `{"a": [1,"x"]}` the first turn opens the object; the second takes the key `a` and its colon, and stops at the
//! space; the third opens the array; the fourth takes `1`, the comma, `"x"`, `]` and `}`. Then the text is at its end, no
//! container is open, and the document is finished. At any other byte, at an end with an open container, or past a limit
//! of length or depth the line is refused, and the memory of the document goes back.
#![tactic(auto)]

mod escape;
mod line;
mod numeral;
mod plain;
mod reader;
mod scan;
mod unescape;
mod utf8;

pub use line::{LineRead, MOST_BUFFERED, read, read_over};
pub use reader::{MAX_DEPTH, MAX_LENGTH, ReadRefusal};
