//! The ends of predicates.

ghost use Rattle.std.specs.Prelude.{◌≡◌};
ghost use Rattle.sj_base.specs.Gives.{Gives};
ghost use Rattle.sj_path_grammar.specs.Reading as reading;
ghost use Rattle.sj_path_tree.specs.View.{expr_of, pred_of};
ghost use Rattle.sj_path.specs.Found.{expr_or_pred_of};

use crate::found::ExprOrPred;
use crate::single;
use sj_base::{ParseRefusal, boxed};
use sj_path_token::Token;
use sj_path_tree::{Expr, Initial, Pred};
use std::alloc::Global;

/// Behind `starts with`.
#[tactic(auto, unfolding(sj_path_grammar::specs::Reading::initial_at))]
pub fn initial(
    alloc: Global,
    e: Box<Expr>,
    tokens: &[Token],
) -> Result<(ExprOrPred, &[Token]), ParseRefusal>
    ensures { Gives (λ x. (expr_or_pred_of x.0, x.1.now)) result (reading.initial_at (expr_of e.value) tokens.now) }
{
    match tokens {
        [Token::Quoted(text), rest @ ..] => {
            let initial = Initial::Lit(single::copy(alloc, text)?);
            let p = boxed(alloc, Pred::StartsWith(Box::into_inner(e), initial))?;
            Ok((ExprOrPred::Test(p), rest))
        }
        [Token::Variable(name), rest @ ..] => {
            let initial = Initial::Var(single::copy(alloc, name)?);
            let p = boxed(alloc, Pred::StartsWith(Box::into_inner(e), initial))?;
            Ok((ExprOrPred::Test(p), rest))
        }
        _ => Err(ParseRefusal::Syntax),
    }
}

/// Behind `like_regex` and its pattern. `exists` stands in for it, since the path is refused (`unsupported`).
#[tactic(auto, unfolding(sj_path_grammar::specs::Reading::flags_at))]
pub fn flags(
    alloc: Global,
    e: Box<Expr>,
    tokens: &[Token],
) -> Result<(ExprOrPred, &[Token]), ParseRefusal>
    ensures { Gives (λ x. (expr_or_pred_of x.0, x.1.now)) result (reading.flags_at (expr_of e.value) tokens.now) }
{
    let Some(rest) = single::flag(tokens) else {
        let p = boxed(alloc, Pred::Exists(Box::into_inner(e)))?;
        return Ok((ExprOrPred::Test(p), tokens));
    };
    let (_flags, rest) = single::quoted(alloc, rest)?;
    let p = boxed(alloc, Pred::Exists(Box::into_inner(e)))?;
    Ok((ExprOrPred::Test(p), rest))
}

/// Behind a predicate in parentheses.
#[tactic(auto, unfolding(sj_path_grammar::specs::Reading::unknown_from))]
pub fn unknown(
    alloc: Global,
    p: Box<Pred>,
    tokens: &[Token],
) -> Result<(ExprOrPred, &[Token]), ParseRefusal>
    ensures { Gives (λ x. (expr_or_pred_of x.0, x.1.now)) result (reading.unknown_from (pred_of p.value) tokens.now) }
{
    let Some(rest) = single::is(tokens) else {
        return Ok((ExprOrPred::Test(p), tokens));
    };
    let Some(rest) = single::unknown(rest) else {
        return Err(ParseRefusal::Syntax);
    };
    let p = boxed(alloc, Pred::IsUnknown(p))?;
    Ok((ExprOrPred::Test(p), rest))
}
