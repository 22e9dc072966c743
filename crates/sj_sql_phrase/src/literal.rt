//! Literals, names and the phrases that hold them. What the tree needs of a text is copied here.

ghost use Rattle.std.specs.Prelude.{◌≡◌, option_map};
ghost use Rattle.sj_base.specs.Gives.{Gives};
ghost use Rattle.sj_sql_grammar.specs.Phrases as phrase;

use crate::meaning::meant;
use crate::single::{Tokens, name, number_of, word};
use sj_base::ParseRefusal;
use sj_path_tree::Literal;
use sj_sql_grammar::{Passed, ValueDo};
use sj_sql_token::{Keyword, Token};
use std::alloc::Global;

/// The literal that a word is.
fn constant_of(keyword: Keyword) -> Option<Literal>
    ensures { result ≡ phrase.constant_of keyword }
{
    match keyword {
        Keyword::True => Some(Literal::Bool(true)),
        Keyword::False => Some(Literal::Bool(false)),
        Keyword::Null => Some(Literal::Null),
        _ => None,
    }
}

/// A literal, and what follows it.
#[tactic(auto, unfolding(sj_sql_grammar::specs::Phrases::literal_at))]
pub fn literal(alloc: Global, tokens: Tokens<'_>) -> Result<(Literal, Tokens<'_>), ParseRefusal>
    ensures { Gives (λ x. (x.0, x.1.now)) result (phrase.literal_at tokens.now) }
{
    let Some((token, rest)) = tokens.split_first() else {
        return Err(ParseRefusal::Syntax);
    };
    match token {
        Token::String(text) => Ok((Literal::Text(text.to_text(alloc)?), rest)),
        Token::Plus => {
            let Some((token, rest)) = rest.split_first() else {
                return Err(ParseRefusal::Syntax);
            };
            let value = number_of(token).ok_or(ParseRefusal::Syntax)?;
            Ok((Literal::Num(value), rest))
        }
        Token::Minus => {
            let Some((token, rest)) = rest.split_first() else {
                return Err(ParseRefusal::Syntax);
            };
            let value = number_of(token).ok_or(ParseRefusal::Syntax)?;
            Ok((Literal::Num(value.neg()), rest))
        }
        Token::Whole(value) => Ok((Literal::Num(*value), rest)),
        Token::Fraction(value) => Ok((Literal::Num(*value), rest)),
        Token::Word(keyword, _) => {
            let literal = constant_of(*keyword).ok_or(ParseRefusal::Syntax)?;
            Ok((literal, rest))
        }
        _ => Err(ParseRefusal::Syntax),
    }
}

/// A variable of a PASSING clause.
#[tactic(auto, unfolding(sj_sql_grammar::specs::Phrases::passed_at))]
pub(crate) fn passed(
    alloc: Global,
    tokens: Tokens<'_>,
) -> Result<(Passed, Tokens<'_>), ParseRefusal>
    ensures { Gives (λ x. (x.0, x.1.now)) result (phrase.passed_at tokens.now) }
{
    let (value, rest) = literal(alloc, tokens)?;
    let Some(rest) = word(Keyword::As, rest) else {
        return Err(ParseRefusal::Syntax);
    };
    let (name, rest) = name(alloc, rest)?;
    Ok((Passed { name, value }, rest))
}

/// The action of JSON_VALUE, without its cause.
pub(crate) fn value_action_phrase(
    alloc: Global,
    tokens: Tokens<'_>,
) -> Result<(ValueDo, Tokens<'_>), ParseRefusal>
    ensures { Gives (λ x. (x.0, x.1.now)) result (phrase.value_action_at tokens.now) }
{
    if let Some(rest) = word(Keyword::Default, tokens) {
        let (value, rest) = literal(alloc, rest)?;
        return Ok((ValueDo::Default(value), rest));
    }
    meant::<ValueDo>(tokens).ok_or(ParseRefusal::Syntax)
}
