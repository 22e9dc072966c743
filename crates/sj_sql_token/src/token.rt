//! What a statement file is made of.

ghost use Rattle.std.specs.Prelude.{◌≡◌, IfOk, IsUtf8};

use crate::keyword::Keyword;
use crate::quoted::Quoted;
use sj_base::{Memory, Text};
use sj_decimal::Decimal;
use std::alloc::Global;
use std::marker::Model;

/// A word as it is spelt, lent by the file, and seen as its bytes.
#[derive(Drop)]
pub struct Word<'a> {
    pub(crate) text: &'a str,
}

impl<'a> Model for Word<'a> {
    ghost use Rattle.std.specs.Prelude.{List, ℕ};

    ghost Value = { List ℕ };

    ghost view = { λ w. w.text.now };
}

impl Word<'_> {
    /// Lends the word.
    pub fn as_str(&self) -> &str
        ensures { result.now ≡ self.now }
    {
        self.text
    }

    /// A copy of the word.
    pub fn to_text(&self, alloc: Global) -> Result<Text, Memory>
        ensures { IfOk result (λ t. t ≡ self.now) }
    {
        Text::from_str(alloc, self.text)
    }
}

/// A token of a statement file. What it stands for is seen by contracts; the bytes are those of the file.
#[derive(Drop)]
pub enum Token<'a> {
    /// `(`
    Open,
    /// `)`
    Close,
    /// `,`
    Comma,
    /// `;`
    Semicolon,
    /// `:`
    Colon,
    /// `*`
    Star,
    /// `+`
    Plus,
    /// `-`
    Minus,
    /// A word, with the part that it may play in a statement.
    Word(Keyword, Word<'a>),
    /// A name between double quotation marks.
    Quoted(Quoted<'a>),
    /// A string between single quotation marks.
    String(Quoted<'a>),
    /// A number written without a point.
    Whole(Decimal),
    /// A number written with a point.
    Fraction(Decimal),
}
