//! The paths of a statement. Reading goes on behind a path text that is refused: the path `lax $` stands there, and the refusal is
//! noted.

ghost use Rattle.std.specs.Prelude.{◌≡◌, IfOk, option_map};
ghost use Rattle.sj_path_tree.specs.View.{path_of};
ghost use Rattle.sj_sql_grammar.specs.Answers as answers;
ghost use Rattle.sj_sql_grammar.specs.Faults.{parsing};
ghost use Rattle.sj_sql_grammar.specs.Phrases as phrase;
ghost use Rattle.sj_sql_grammar.specs.Reading as reading;
ghost use Rattle.sj_sql_grammar.specs.Tree.{Written, OfName};
ghost use Rattle.sj_sql.specs.Noted.{faults_of, IsNoted, ReadsPath};

use crate::faults::Faults;
use sj_base::{Memory, ParseRefusal, Text};
use sj_path::{Expr, Mode, Path, member_path, parse_path};
use sj_sql_phrase::single::{Tokens, skip_word, string, word};
use sj_sql_token::{Keyword, Quoted};
use std::alloc::Global;

/// The path of a text.
fn path_of_text(alloc: Global, faults: Faults, text: &str) -> Result<(Path, Faults), Memory>
    ensures { IfOk result (λ x. IsNoted (Written text.now) (faults_of faults) (path_of x.0) (faults_of x.1)) }
{
    match parse_path(alloc, text) {
        Ok(path) => Ok((path, faults)),
        Err(refusal) => {
            let faults = faults.with_refusal(refusal)?;
            let root = Path {
                mode: Mode::Lax,
                expr: Expr::Root,
            };
            Ok((root, faults))
        }
    }
}

/// The path of a string.
pub fn path(alloc: Global, faults: Faults, text: &Quoted<'_>) -> Result<(Path, Faults), Memory>
    ensures { IfOk result (λ x. IsNoted (Written text.now) (faults_of faults) (path_of x.0) (faults_of x.1)) }
{
    let text = text.to_text(alloc)?;
    path_of_text(alloc, faults, text.as_str())
}

/// The path of a column without PATH.
fn name_path(alloc: Global, name: &Text) -> Result<Path, Memory>
    ensures { IfOk result (λ p. path_of p ≡ answers.path_of (OfName name.now)) }
{
    member_path(alloc, name.as_str())
}

/// The text of a PATH clause, and what follows it.
#[tactic(auto, unfolding(sj_sql_grammar::specs::Phrases::path_at))]
fn path_clause(tokens: Tokens<'_>) -> Option<(&Quoted<'_>, Tokens<'_>)>
    ensures { option_map (λ x. (Written x.0.now, x.1.now)) result ≡ phrase.path_at tokens.now }
{
    string(word(Keyword::Path, tokens)?)
}

/// The path of a column, by its PATH clause or else its name.
pub fn column_path<'a>(
    alloc: Global,
    name: &Text,
    faults: Faults,
    tokens: Tokens<'a>,
) -> Result<(Path, Faults, Tokens<'a>), ParseRefusal>
    ensures { ReadsPath (reading.column_path_at parsing name.now tokens.now) (faults_of faults) result }
{
    let Some((text, rest)) = path_clause(tokens) else {
        let path = name_path(alloc, name)?;
        return Ok((path, faults, tokens));
    };
    let (path, faults) = path(alloc, faults, text)?;
    Ok((path, faults, rest))
}

/// The path text of nested columns, and what follows it.
#[tactic(auto, unfolding(sj_sql_grammar::specs::Phrases::nested_path_at))]
pub fn nested_path(tokens: Tokens<'_>) -> Option<(&Quoted<'_>, Tokens<'_>)>
    ensures { option_map (λ x. (Written x.0.now, x.1.now)) result ≡ phrase.nested_path_at tokens.now }
{
    string(skip_word(Keyword::Path, tokens))
}
