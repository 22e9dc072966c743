//! The laws of the grammar, over its definitions alone.

ghost use Rattle.std.specs.Prelude.{◌≡◌, ◌↔◌, ℕ, List, Option, Some, None, Result, Ok, Err, option_map};
ghost use Rattle.sj_path_tree.specs.Tree.{Path};
ghost use Rattle.sj_path_grammar.specs.Answers.{Accepts, Refuses};
ghost use Rattle.sj_path_grammar.specs.declared.refusal.Name.{Name};
ghost use Rattle.sj_path_grammar.specs.declared.refusal.PathRefusal.{PathRefusal};
ghost use Rattle.sj_path_grammar.specs.declared.refusal.PathRefusal.TheVariants.{Memory};
ghost use Rattle.sj_sql_token.specs.Tokens.{Lexed};
ghost use Rattle.sj_sql_grammar.specs.declared.refusal.FileKind.{FileKind};
ghost use Rattle.sj_sql_grammar.specs.declared.refusal.FileKind.TheVariants.{Syntax, Unsupported};
ghost use Rattle.sj_sql_grammar.specs.Tree.{PathText, Statement};
ghost use Rattle.sj_sql_grammar.specs.Phrases.{Tokens};
ghost use Rattle.sj_sql_grammar.specs.Grammar.{IsTooDeep, IsSelect, IsStatement};
ghost use Rattle.sj_sql_grammar.specs.Notes.{Notes, written, statement_with, note_statement};
ghost use Rattle.sj_sql_grammar.specs.Reading.{select_at};
ghost use Rattle.sj_sql_grammar.specs.Answers.{marks, IsFault, IsUnsupported, Free, First, Accepted, Forbids, IsAnswer, IsFile};
ghost use Rattle.sj_sql_grammar.specs.PathAnswers.{path_answer};
ghost use Rattle.sj_sql_grammar.specs.Faults.{Faults, nothing_noted, parsing};

/// A list of tokens has at most one tree.
pub fn one_tree()
    ensures { (ts : Tokens) (x y : Statement PathText) → IsStatement ts x → IsStatement ts y → x ≡ y }
{}

/// Reading tokens from left to right finds a tree exactly where the rules have it.
pub fn one_reading()
    ensures { (ts : Tokens) (x : Statement PathText) → (select_at written tt ts ≡ Some (x, tt)) ↔ IsSelect ts x }
{}

/// A path text is answered with the path that it is accepted as, or with the reason for which it is refused.
pub fn path_answers()
    ensures accepted { (text : List ℕ) (p : Path) → (path_answer text ≡ Ok p) ↔ Accepts text p }
    ensures refused { (text : List ℕ) (e : PathRefusal) → (path_answer text ≡ Err e) ↔ (Refuses text e × (e ≡ Memory → ⊥)) }
{}

/// Reading with notes finds the tree that reading finds without them, and notes what the tree has, in the order of the text.
pub fn noted_reading()
    ensures { (n : Notes Path Faults) (f : Faults) (ts : Tokens)
        → select_at n f ts ≡ option_map (λ x. (statement_with n x.0, note_statement n x.0 f)) (select_at written tt ts) }
{}

/// What the parser notes of a tree is the first fault of a path text in it, and the first part in it that is lacking.
pub fn noted_faults()
    ensures fault { (x : Statement PathText) (k : FileKind) → ((note_statement parsing x nothing_noted).path ≡ Some k) ↔ First IsFault (marks x) k }
    ensures faultless { (x : Statement PathText) → ((note_statement parsing x nothing_noted).path ≡ None) ↔ Free IsFault (marks x) }
    ensures unsupported { (x : Statement PathText) (name : Name) → ((note_statement parsing x nothing_noted).unsupported ≡ Some name) ↔ First IsUnsupported (marks x) name }
    ensures supported { (x : Statement PathText) → ((note_statement parsing x nothing_noted).unsupported ≡ None) ↔ Free IsUnsupported (marks x) }
{}

/// What the parser reads and notes decides the answer of a statement: a fault of a path text comes before a part that is lacking.
pub fn noted_answer()
    ensures too_deep { (ts : Tokens) → IsTooDeep ts → Forbids ts Syntax }
    ensures no_tree { (ts : Tokens) → select_at parsing nothing_noted ts ≡ None → Forbids ts Syntax }
    ensures fault { (ts : Tokens) (s : Statement Path) (f : Faults) (k : FileKind) → (IsTooDeep ts → ⊥)
        → select_at parsing nothing_noted ts ≡ Some (s, f) → f.path ≡ Some k → Forbids ts k }
    ensures unsupported { (ts : Tokens) (s : Statement Path) (f : Faults) (name : Name) → (IsTooDeep ts → ⊥)
        → select_at parsing nothing_noted ts ≡ Some (s, f) → f.path ≡ None → f.unsupported ≡ Some name → Forbids ts (Unsupported name) }
    ensures accepted { (ts : Tokens) (s : Statement Path) (f : Faults) → (IsTooDeep ts → ⊥)
        → select_at parsing nothing_noted ts ≡ Some (s, f) → f.path ≡ None → f.unsupported ≡ None → Accepted ts s }
{}

/// A statement has at most one answer.
pub fn one_answer()
    ensures { (ts : Tokens) (a b : Result (Statement Path) FileKind) → IsAnswer ts a → IsAnswer ts b → a ≡ b }
{}

/// Every statement has an answer.
pub fn some_answer()
    ensures { (ts : Tokens) → (a : Result (Statement Path) FileKind) × IsAnswer ts a }
{}

/// A file has at most one list of statements with at most one refusal behind it.
pub fn one_file()
    ensures { (file : Lexed) (ss us : List (Statement Path)) (x y : Option (ℕ × FileKind))
        → IsFile file ss x → IsFile file us y → (ss ≡ us) × (x ≡ y) }
{}

/// Every file is read as some statements, and at most one refusal behind them.
pub fn some_file()
    ensures { (file : Lexed) → (ss : List (Statement Path)) × (refusal : Option (ℕ × FileKind)) × IsFile file ss refusal }
{}
