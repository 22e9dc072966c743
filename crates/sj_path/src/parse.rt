//! Whole paths.

ghost use Rattle.std.specs.Prelude.{◌≡◌, IfOk, IfErr, MatchResult};
ghost use Rattle.sj_base.specs.Gives.{Gives};
ghost use Rattle.sj_path_grammar.specs.Reading as reading;
ghost use Rattle.sj_path_grammar.specs.Answers.{Allows, Forbids, Accepts, Refuses};
ghost use Rattle.sj_path_tree.specs.View.{path_of};

use crate::check::misplaced_expr;
use crate::depth::is_too_deep;
use crate::level::{Level, expr_or_pred};
use crate::single;
use crate::unsupported::unsupported;
use sj_base::ParseRefusal;
use sj_path_grammar::PathRefusal;
use sj_path_token::{Token, tokens_of};
use sj_path_tree::{Mode, Path};
use std::alloc::Global;

/// A path, behind its mode.
#[tactic(auto, unfolding(sj_path_grammar::specs::Reading::whole_at))]
fn in_mode(alloc: Global, mode: Mode, tokens: &[Token]) -> Result<Path, ParseRefusal>
    ensures { Gives path_of result (reading.in_mode mode tokens.now) }
{
    let level = Level {
        alloc,
        depth: tokens.len() + 1,
        inner: expr_or_pred,
    };
    let (expr, rest) = level.inner_expr(tokens)?;
    match rest {
        [] => Ok(Path {
            mode,
            expr: Box::into_inner(expr),
        }),
        _ => Err(ParseRefusal::Syntax),
    }
}

#[tactic(auto, unfolding(sj_path_grammar::specs::Reading::path_at))]
fn path(alloc: Global, tokens: &[Token]) -> Result<Path, ParseRefusal>
    ensures { Gives path_of result (reading.path_at tokens.now) }
{
    if let Some(rest) = single::lax(tokens) {
        return in_mode(alloc, Mode::Lax, rest);
    }
    if let Some(rest) = single::strict(tokens) {
        return in_mode(alloc, Mode::Strict, rest);
    }
    in_mode(alloc, Mode::Lax, tokens)
}

/// The path that the tokens spell, or the first refusal in the order of `PathRefusal`.
fn parse_tokens(alloc: Global, tokens: &[Token]) -> Result<Path, PathRefusal>
    ensures { MatchResult result (λ p. Allows tokens.now (path_of p)) (λ e. Forbids tokens.now e) }
{
    if is_too_deep(tokens) {
        return Err(PathRefusal::TooDeep);
    }
    let path = match path(alloc, tokens) {
        Ok(path) => path,
        Err(ParseRefusal::Syntax) => return Err(PathRefusal::Syntax),
        Err(ParseRefusal::Memory) => return Err(PathRefusal::Memory),
    };
    if misplaced_expr(&path.expr, false, false) {
        return Err(PathRefusal::Misplaced);
    }
    match unsupported(tokens) {
        Some(name) => Err(PathRefusal::Unsupported(name)),
        None => Ok(path),
    }
}

/// The path that the text spells (ISO/IEC 9075-2, 9.46), or the first refusal in the order of
/// `PathRefusal`. It takes time linear in the text, and recurs only over what the limits of `TooDeep`
/// bound.
///
/// Example: `$.a[*]` is a path, `$.a[` is refused as `Syntax`, and `$.a.double()` as `Unsupported`
/// (`sj_row_tests::examples::query_functions` and `sj_row_tests::examples::refused_paths`).
pub fn parse_path(alloc: Global, text: &str) -> Result<Path, PathRefusal>
    ensures path { IfOk result (λ p. Accepts text.now (path_of p)) }
    ensures refusal { IfErr result (λ e. Refuses text.now e) }
{
    match tokens_of(alloc, text) {
        Ok(tokens) => parse_tokens(alloc, tokens.as_slice()),
        Err(ParseRefusal::Syntax) => Err(PathRefusal::Lex),
        Err(ParseRefusal::Memory) => Err(PathRefusal::Memory),
    }
}
