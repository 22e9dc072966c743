//! What a path is made of.

use crate::keyword::Keyword;
use sj_base::Text;
use sj_decimal::{Compare, Decimal};

/// A token of a path.
#[derive(Drop)]
pub enum Token {
    /// `.`
    Dot,
    /// `*`
    Star,
    /// `[`
    OpenBracket,
    /// `]`
    CloseBracket,
    /// `(`
    Open,
    /// `)`
    Close,
    /// `,`
    Comma,
    /// `?`
    Question,
    /// `+`
    Plus,
    /// `-`
    Minus,
    /// `/`
    Slash,
    /// `%`
    Percent,
    /// `==`, `!=` and `<>`, `<`, `<=`, `>`, `>=`
    Compare(Compare),
    /// `&&`
    And,
    /// `||`
    Or,
    /// `!`
    Not,
    /// `@`
    At,
    /// `$`
    Root,
    /// `$` and a word, without the `$`
    Variable(Text),
    /// A word, with the part it may play in the grammar.
    Word(Keyword, Text),
    /// What a string stands for.
    Quoted(Text),
    /// A number.
    Number(Decimal),
}
