//! The tokens of a path of the SQL/JSON path language (ISO/IEC 9075-2, 9.46).
//!
//! A text breaks into tokens from left to right, each the longest that fits. Strings have the form
//! of RFC 8259, section 7, without a lone surrogate; numbers that of its section 6, without a minus
//! sign, and their values are exact decimals. `HasTokens` in `specs/Tokens.antt` says which tokens a
//! text has, and `tokens_of` gives exactly these.
//!
//! It stands on the texts of sj_base and the numbers of sj_decimal.
#![tactic(auto)]

mod bytes;
mod keyword;
mod lex;
mod number;
mod sign;
mod string;
mod token;
mod word;

pub use keyword::Keyword;
pub use lex::tokens_of;
pub use token::Token;
