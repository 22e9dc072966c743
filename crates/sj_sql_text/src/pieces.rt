//! The pieces of a text, in their order.

ghost use Rattle.std.specs.Prelude.{◌≡◌, ◌++◌, ◌∷◌, [], OnOk};
ghost use Rattle.sj_sql_text.specs.Pieces as spec;
ghost use Rattle.sj_path_tree.specs.View.{path_of};
ghost use Rattle.sj_path_text.specs.Text.{path_text};
ghost use Rattle.sj_sql_text.specs.View.{pieces_of};

use crate::piece::Piece;
use sj_base::{Memory, push};
use sj_decimal::Decimal;
use sj_path_tree::Path;
use std::alloc::Global;
use std::marker::Model;

/// The pieces of a text, seen as a list.
#[derive(Drop)]
pub(crate) struct Pieces<'a> {
    items: Vec<Piece<'a>>,
}

impl<'a> Model for Pieces<'a> {
    ghost use Rattle.sj_sql_text.specs.Pieces as spec;
    ghost use Rattle.sj_sql_text.specs.View.{pieces_of};

    ghost Value = { spec.Pieces };

    ghost view = { λ p. pieces_of p.items.items };
}

impl<'a> Pieces<'a> {
    /// No pieces.
    pub(crate) fn new(alloc: Global) -> Pieces<'a>
        ensures { result ≡ [] }
    {
        Pieces {
            items: Vec::new(alloc),
        }
    }

    /// Lends the pieces.
    pub(crate) fn as_slice(&self) -> &[Piece<'a>]
        ensures { pieces_of result.now ≡ self.now }
    {
        self.items.as_slice()
    }

    pub(crate) fn word(&mut self, text: &'a str) -> Result<(), Memory>
        ensures { OnOk result (self.new ≡ self.old ++ spec.Word text.now ∷ []) }
    {
        push(&mut self.items, Piece::Word(text))
    }

    /// The name of a function or of a type, and the parenthesis that it opens.
    pub(crate) fn call(&mut self, name: &'a str) -> Result<(), Memory>
        ensures { OnOk result (self.new ≡ self.old ++ spec.Call name.now ∷ []) }
    {
        push(&mut self.items, Piece::Call(name))
    }

    pub(crate) fn name(&mut self, text: &'a str) -> Result<(), Memory>
        ensures { OnOk result (self.new ≡ self.old ++ spec.Name text.now ∷ []) }
    {
        push(&mut self.items, Piece::Name(text))
    }

    /// A string.
    pub(crate) fn text(&mut self, text: &'a str) -> Result<(), Memory>
        ensures { OnOk result (self.new ≡ self.old ++ spec.String text.now ∷ []) }
    {
        push(&mut self.items, Piece::Text(text))
    }

    /// The canonical text of a path, as a string.
    pub(crate) fn path(&mut self, path: &'a Path) -> Result<(), Memory>
        ensures { OnOk result (self.new ≡ self.old ++ spec.String (path_text (path_of path.now)) ∷ []) }
    {
        push(&mut self.items, Piece::Path(path))
    }

    pub(crate) fn number(&mut self, number: Decimal) -> Result<(), Memory>
        ensures { OnOk result (self.new ≡ self.old ++ spec.Number number ∷ []) }
    {
        push(&mut self.items, Piece::Number(number))
    }

    pub(crate) fn count(&mut self, count: u32) -> Result<(), Memory>
        ensures { OnOk result (self.new ≡ self.old ++ spec.Count count ∷ []) }
    {
        push(&mut self.items, Piece::Count(count))
    }

    pub(crate) fn open(&mut self) -> Result<(), Memory>
        ensures { OnOk result (self.new ≡ self.old ++ spec.Open ∷ []) }
    {
        push(&mut self.items, Piece::Open)
    }

    pub(crate) fn close(&mut self) -> Result<(), Memory>
        ensures { OnOk result (self.new ≡ self.old ++ spec.Close ∷ []) }
    {
        push(&mut self.items, Piece::Close)
    }

    pub(crate) fn comma(&mut self) -> Result<(), Memory>
        ensures { OnOk result (self.new ≡ self.old ++ spec.Comma ∷ []) }
    {
        push(&mut self.items, Piece::Comma)
    }

    pub(crate) fn star(&mut self) -> Result<(), Memory>
        ensures { OnOk result (self.new ≡ self.old ++ spec.Star ∷ []) }
    {
        push(&mut self.items, Piece::Star)
    }

    pub(crate) fn semicolon(&mut self) -> Result<(), Memory>
        ensures { OnOk result (self.new ≡ self.old ++ spec.Semicolon ∷ []) }
    {
        push(&mut self.items, Piece::Semicolon)
    }
}
