//! What stands at the front of a file.

use crate::token::Token;

/// What stands at the front, and how many of the bytes behind its first one are part of it.
#[derive(Drop)]
pub enum Piece<'a> {
    Token(Token<'a>, usize),
    /// A blank or a comment, which is passed over.
    Passed(usize),
    /// No piece of a file.
    Broken,
}

/// What stands first in a file when blanks and comments are passed over.
#[derive(Drop)]
pub enum Next<'a> {
    /// A token, and what is behind it.
    Token(Token<'a>, &'a [u8]),
    /// Nothing: the file ends.
    End,
    /// A piece that is no token: a byte that begins none, a number that is not exact, a string or a quoted name that is
    /// not closed or a quoted name that is empty, or bytes inside a string, a quoted name or a comment that are not
    /// UTF-8.
    Fault,
}
