//! The tokens of a statement file.
//!
//! A file breaks into tokens from left to right, each the longest that fits. `lexed` in `specs/Tokens.antt` says which
//! tokens a file has, up to its end or to the first piece that is no token, and `next_token` gives exactly these, one
//! by one. It copies nothing: words, strings and quoted names are lent by the file. The law `longest_pieces` says of the
//! forms in `specs/Forms.antt` that each piece is the longest front that has one.
//!
//! It stands on the texts of sj_base and the numbers of sj_decimal.
#![tactic(auto)]

mod bytes;
mod keyword;
mod law;
mod lex;
mod number;
mod piece;
mod quoted;
mod token;
mod utf8;
mod word;

pub use keyword::Keyword;
pub use law::longest_pieces;
pub use lex::next_token;
pub use piece::Next;
pub use quoted::Quoted;
pub use token::{Token, Word};
