// A law about the definitions.
ghost use Rattle.std.specs.Prelude.{◌≡◌, ℕ, List, Some};
ghost use Rattle.sj_json.specs.Tree.{Number};
ghost use Rattle.sj_json.specs.Spelling.{SpellsNumber};
ghost use Rattle.sj_json.specs.Numbers.{number_of};

/// `number_of`, by which the table of casts reads a string, gives the number that the string spells by RFC 8259,
/// section 6, and gives one exactly where the whole string spells one.
pub fn one_number()
    ensures sound { (b : List ℕ) (v : Number) → number_of b ≡ Some v → SpellsNumber v b }
    ensures complete { (b : List ℕ) (v : Number) → SpellsNumber v b → number_of b ≡ Some v }
{}
