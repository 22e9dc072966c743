//! What JSON is here: trees, the texts that spell them (RFC 8259), printed texts, and repeated keys.
//!
//! The crate has definitions, in `specs/`, and laws about them, each the contract of a function that
//! does nothing. The crates that hold, read and print documents cite the definitions, and those that
//! read take the greatest length of a text from here.
//!
//! - `Tree`: the JSON tree, its nodes numbered in preorder (`numbered`, `subtree`, `below`, `node_count`).
//! - `Strings`: which texts spell a string, with its escapes.
//! - `Spelling`: which texts spell a tree, and `IsJson`, with the limits of length and depth. Which texts spell
//!   a number is said by `Number` of `sj_decimal`.
//! - `Printing`: the printed text of a tree, and `IsTree`: its numbers are well made.
//! - `Keys`: the keys of an object, and whether a tree repeats one. `UniqueKeys` answers that by a truth value.
//! - `Cells`, `Layouts`, `Links`, `Building`, `Coding`: a tree as the list of its nodes, whole or while it
//!   is being built. A vector of nodes is seen as a tree by these.
//! - `Document`: the tree of a text, as a function.
//! - `Machine`, with `Numbers`: a reader of one byte at a time. It defines nothing: it is proved to accept
//!   what `Spelling` spells, and a reader is proved against it.
#![tactic(auto)]

ghost use Rattle.std.specs.Prelude.{◌≡◌, ◌↔◌, ℕ, List, Some, None, IsTrue};
ghost use Rattle.sj_json.specs.Tree.{Tree};
ghost use Rattle.sj_json.specs.Spelling.{SpellsText, IsJson};
ghost use Rattle.sj_json.specs.Document.{document};
ghost use Rattle.sj_json.specs.Printing.{printed, IsTree};
ghost use Rattle.sj_json.specs.Keys.{HasUniqueKeys};
ghost use Rattle.sj_json.specs.UniqueKeys.{has_unique_keys};

/// The greatest length of a JSON text, in bytes.
pub const MAX_LENGTH: usize = 16_777_216;

/// A text spells at most one tree.
pub fn one_tree()
    ensures { (t u : Tree) (b : List ℕ) → SpellsText t b → SpellsText u b → t ≡ u }
{}

/// The printed text of a tree spells it, and what a text spells is a tree in that sense: its exact numbers are
/// in normal form and within the limits, and its wide numbers have spellings of numbers that are not exact.
pub fn printed_text()
    ensures spells { (t : Tree) → IsTree t → SpellsText t (printed t) }
    ensures made { (t : Tree) (b : List ℕ) → SpellsText t b → IsTree t }
{}

/// `document` gives the tree that a text spells, exactly where the text is JSON.
pub fn one_document()
    ensures tree { (b : List ℕ) (t : Tree) → document b ≡ Some t → IsJson b × SpellsText t b }
    ensures none { (b : List ℕ) → document b ≡ None → IsJson b → ⊥ }
{}

/// `has_unique_keys` is true exactly if no object of the tree has two equal keys.
pub fn unique_keys()
    ensures { (t : Tree) → IsTrue (has_unique_keys t) ↔ HasUniqueKeys t }
{}
