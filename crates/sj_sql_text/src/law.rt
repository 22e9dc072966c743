//! The laws of the canonical text, over its definitions alone.

ghost use Rattle.std.specs.Prelude.{◌≡◌, ◌↔◌, ◌++◌, ℕ, true, List, [], ◌∷◌, Option, None, IsUtf8};
ghost use Rattle.std.specs.List.{AllByRecursion};
ghost use Rattle.sj_path_tree.specs.Tree.{Path};
ghost use Rattle.sj_sql_token.specs.Tokens.{lexed};
ghost use Rattle.sj_sql_grammar.specs.declared.refusal.FileKind.{FileKind};
ghost use Rattle.sj_sql_grammar.specs.Tree.{PathText, Statement};
ghost use Rattle.sj_sql_grammar.specs.Phrases.{Tokens};
ghost use Rattle.sj_sql_grammar.specs.Grammar.{IsSelect};
ghost use Rattle.sj_sql_grammar.specs.Notes.{statement_with};
ghost use Rattle.sj_sql_grammar.specs.Answers.{finishing, Accepted, IsFile};
ghost use Rattle.sj_sql_text.specs.Pieces.{Pieces, text_of};
ghost use Rattle.sj_sql_text.specs.Statements.{body_on, statement_text, lines_text};
ghost use Rattle.sj_sql_text.specs.Tokens.{tokens_of};
ghost use Rattle.sj_sql_text.specs.Law.{canonical, IsStatementOf};
ghost use Rattle.sj_sql_text.specs.Printable.{IsPrintable, starts_apart, followed_by};

/// The canonical tokens of a statement that some tokens spell, spell the same statement, with each path in its canonical text.
pub fn tokens_spell()
    ensures { (ts : Tokens) (x : Statement PathText) → IsSelect ts x → IsSelect (tokens_of (body_on (statement_with finishing x) [])) (statement_with canonical x) }
{}

/// The canonical tokens of an accepted statement are accepted as this statement.
pub fn tokens_accepted()
    ensures { (ts : Tokens) (s : Statement Path) → Accepted ts s → Accepted (tokens_of (body_on s [])) s }
{}

/// The text of printable pieces breaks into the tokens that they stand for, and then into what the text behind it breaks
/// into, where that one is empty or begins with a blank.
pub fn text_breaks()
    ensures { (ps : Pieces) (rest : List ℕ) → AllByRecursion IsPrintable ps → starts_apart rest ≡ true → lexed (text_of ps ++ rest) ≡ followed_by (tokens_of ps) (lexed rest) }
{}

/// The canonical text of a statement that a file has is read back as this very statement, and that of all the statements of
/// a file as these very statements. It is an accepted file, so it keeps the limits of parentheses and of operators too, and
/// it is in UTF-8.
///
/// A file has the statements before the first one that is refused: `select 1 as one; select` has one statement, whose
/// canonical text `SELECT 1;` is accepted. A canonical text may be longer than the file, and so than a file may be.
pub fn read_back()
    ensures statement { (file : List ℕ) (s : Statement Path) → IsStatementOf file s → IsFile (lexed (statement_text s)) (s ∷ []) None }
    ensures file { (file : List ℕ) (ss : List (Statement Path)) (refusal : Option (ℕ × FileKind))
        → IsFile (lexed file) ss refusal → IsFile (lexed (lines_text ss)) ss None }
    ensures utf8 { (file : List ℕ) (ss : List (Statement Path)) (refusal : Option (ℕ × FileKind)) → IsFile (lexed file) ss refusal → IsUtf8 (lines_text ss) }
{}

/// Two statements that files have are equal exactly where their canonical texts are. So are the statements of two files.
///
/// `select 1 as one` and `SELECT 1.0 -- one` are the same statement: both have the canonical text `SELECT 1;`. `SELECT '1'`
/// is another one, and has another text.
pub fn same_text_same_tree()
    ensures statement { (f g : List ℕ) (s t : Statement Path) → IsStatementOf f s → IsStatementOf g t → (s ≡ t) ↔ (statement_text s ≡ statement_text t) }
    ensures file { (f g : List ℕ) (ss ts : List (Statement Path)) (x y : Option (ℕ × FileKind))
        → IsFile (lexed f) ss x → IsFile (lexed g) ts y → (ss ≡ ts) ↔ (lines_text ss ≡ lines_text ts) }
{}
