//! A law of canonical texts, over the definitions alone.

ghost use Rattle.std.specs.Prelude.{ℕ, List};
ghost use Rattle.sj_bound.specs.Bound.{Bound};
ghost use Rattle.sj_sql_text.specs.Statements.{lines_text};
ghost use Rattle.sj_file.specs.Verdict.{Accepts, IsCanonicalOf};

/// The canonical text of an accepted file is a file that is accepted with the same statements, and its own canonical text.
/// So each command does the same with both, if neither is too long: `run` writes the same rows, and `show` writes the
/// same bytes.
pub fn canonical_file()
    ensures { (file : List ℕ) (statements : List Bound) (a : Accepts file statements) → IsCanonicalOf statements (lines_text a.statements) }
{}
