//! The laws of the canonical text, over its definitions alone.

ghost use Rattle.std.specs.Prelude.{◌≡◌, ◌↔◌, ℕ, List, IsUtf8};
ghost use Rattle.sj_path_token.specs.Tokens.{HasTokens};
ghost use Rattle.sj_path_tree.specs.Tree.{Path};
ghost use Rattle.sj_path_grammar.specs.Grammar.{IsPath};
ghost use Rattle.sj_path_grammar.specs.Answers.{HasTree, Accepts};
ghost use Rattle.sj_path_text.specs.Text.{path_text};
ghost use Rattle.sj_path_text.specs.Tokens.{path_tokens};

/// The canonical text of a tree that some text has breaks into the canonical tokens, and these spell this very tree.
///
/// Where that text is accepted, so is the canonical one, as the same path: it keeps the limits of parentheses and of
/// tokens too. Where it is in UTF-8, so is the canonical one.
pub fn read_back()
    ensures tokens { (text : List ℕ) (p : Path) → HasTree text p → HasTokens (path_text p) (path_tokens p) }
    ensures tree { (text : List ℕ) (p : Path) → HasTree text p → IsPath (path_tokens p) p }
    ensures accepted { (text : List ℕ) (p : Path) → Accepts text p → Accepts (path_text p) p }
    ensures utf8 { (text : List ℕ) (p : Path) → HasTree text p → IsUtf8 text → IsUtf8 (path_text p) }
{}

/// Two trees that texts have are equal exactly where their canonical texts are.
pub fn same_text_same_tree()
    ensures { (a b : List ℕ) (p q : Path) → HasTree a p → HasTree b q → (p ≡ q) ↔ (path_text p ≡ path_text q) }
{}
