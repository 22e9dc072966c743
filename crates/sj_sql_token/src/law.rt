// A law about the pieces of a file.
ghost use Rattle.std.specs.Prelude.{◌≡◌, ℕ, ◌+◌, ◌∷◌, ◌⊎◌, List};
ghost use Rattle.sj_sql_token.specs.declared.token.Token.{Token};
ghost use Rattle.sj_sql_token.specs.declared.piece.Piece.TheVariants as p;
ghost use Rattle.sj_sql_token.specs.Tokens.{piece_at};
ghost use Rattle.sj_sql_token.specs.Forms as form;
ghost use Rattle.sj_sql_token.specs.Forms.{BeginsWith, BeginsWithNone};

/// Each piece is the longest: where `piece_at` gives a token, or passes over a blank or a comment, the bytes of the
/// piece have its form, and no longer front has any form. Where it gives neither, the longest front that has a form is
/// broken, or no front has one.
///
/// Broken is a string or a quoted name that is not closed, a quoted name that is empty, a number that is not exact, and
/// a string, a quoted name or a comment that is not UTF-8. Such a front is no token, and is not passed over, although a
/// shorter one may have the form of a token: `'a''b` is broken, and `'a'` has the form of a string.
pub fn longest_pieces()
    ensures token { (b : ℕ) (bs : List ℕ) (t : Token) (n : ℕ) → piece_at b bs ≡ p.Token t n → BeginsWith (b ∷ bs) (n + 1) (form.token t) }
    ensures passed { (b : ℕ) (bs : List ℕ) (n : ℕ) → piece_at b bs ≡ p.Passed n → BeginsWith (b ∷ bs) (n + 1) form.passed }
    ensures broken { (b : ℕ) (bs : List ℕ) → piece_at b bs ≡ p.Broken → ((n : ℕ) × BeginsWith (b ∷ bs) n form.broken) ⊎ BeginsWithNone (b ∷ bs) }
{}
