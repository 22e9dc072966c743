//! What a canonical text is made of.

ghost use Rattle.std.specs.Prelude.{◌≡◌};
ghost use Rattle.sj_sql_text.specs.Pieces as spec;
ghost use Rattle.sj_sql_text.specs.View.{piece_of};

use sj_decimal::Decimal;
use sj_path_tree::Path;

/// A piece of a canonical text, whose texts are lent by the tree.
#[derive(Drop)]
pub(crate) enum Piece<'a> {
    Word(&'a str),
    /// The name of a function or of a type, and the parenthesis that it opens.
    Call(&'a str),
    /// A name, which stands between double quotation marks.
    Name(&'a str),
    /// A string, which stands between single quotation marks.
    Text(&'a str),
    /// The canonical text of a path, as a string.
    Path(&'a Path),
    Number(Decimal),
    Count(u32),
    Open,
    Close,
    Comma,
    Star,
    Semicolon,
}

impl Piece<'_> {
    /// Whether it ends in an opening parenthesis, behind which no blank stands.
    pub(crate) fn opens(&self) -> bool
        ensures { result ≡ spec.opens (piece_of self.now) }
    {
        matches!(self, Piece::Call(_) | Piece::Open)
    }

    /// Whether no blank stands before it.
    pub(crate) fn leans(&self) -> bool
        ensures { result ≡ spec.leans (piece_of self.now) }
    {
        matches!(self, Piece::Close | Piece::Comma | Piece::Semicolon)
    }
}
