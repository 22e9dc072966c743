// A law about the fields of rows.
ghost use Rattle.std.specs.Prelude.{◌≡◌, ◌≢◌, ℕ, List, All, codes};
ghost use Rattle.sj_rows.specs.RowText.{IsNoEnd, escaped};

/// A field can be read back. No byte of an escaped text ends the field, so a row can be cut at its TABs; no two texts
/// have one escaped text; and none has the text of NULL.
pub fn one_field()
    ensures ends { (text : List ℕ) → All IsNoEnd (escaped text) }
    ensures distinct { (text other : List ℕ) → escaped text ≡ escaped other → text ≡ other }
    ensures null { (text : List ℕ) → escaped text ≢ codes "\\N" }
{}
