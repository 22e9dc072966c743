//! The laws of the grammar, over its definitions alone.

ghost use Rattle.std.specs.Prelude.{◌≡◌, ◌↔◌, ℕ, List, Some};
ghost use Rattle.sj_path_token.specs.Tokens.{HasTokens};
ghost use Rattle.sj_path_token.specs.declared.token.Token.{Token};
ghost use Rattle.sj_path_tree.specs.Tree.{Path};
ghost use Rattle.sj_path_grammar.specs.Answers.{HasTree, Accepts, Refuses};
ghost use Rattle.sj_path_grammar.specs.Accepted.{accepted_path};
ghost use Rattle.sj_path_grammar.specs.declared.refusal.PathRefusal.{PathRefusal};
ghost use Rattle.sj_path_grammar.specs.declared.refusal.PathRefusal.TheVariants.{Memory};

/// A text has at most one list of tokens.
pub fn one_list_of_tokens()
    ensures { (text : List ℕ) (ts us : List Token) → HasTokens text ts → HasTokens text us → ts ≡ us }
{}

/// A text has at most one tree.
pub fn one_tree()
    ensures { (text : List ℕ) (p q : Path) → HasTree text p → HasTree text q → p ≡ q }
{}

/// An accepted text is refused only if memory runs out. A refused one has one reason beside that.
pub fn one_answer()
    ensures accepted { (text : List ℕ) (p : Path) (e : PathRefusal) → Accepts text p → Refuses text e → e ≡ Memory }
    ensures refused { (text : List ℕ) (d e : PathRefusal) → Refuses text d → Refuses text e → (d ≡ Memory → ⊥) → (e ≡ Memory → ⊥) → d ≡ e }
{}

/// `accepted_path` gives a path exactly where the text is accepted as this path.
pub fn one_path()
    ensures { (text : List ℕ) (p : Path) → (accepted_path text ≡ Some p) ↔ Accepts text p }
{}
