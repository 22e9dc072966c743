//! Accessors with no tree inside.

ghost use Rattle.std.specs.Prelude.{◌≡◌, option_map};
ghost use Rattle.sj_base.specs.Gives.{Gives};
ghost use Rattle.sj_path_grammar.specs.Reading as reading;
ghost use Rattle.sj_path_grammar.specs.Signs as sign;
ghost use Rattle.sj_path_tree.specs.View.{step_of};

use crate::single;
use sj_base::{ParseRefusal, Text};
use sj_path_token::{Keyword, Token};
use sj_path_tree::{Method, Step};
use std::alloc::Global;

/// What stands in for a method that is not supported, since the path is refused (`unsupported`).
fn stand_in() -> Step
    ensures { step_of result ≡ sign.stand_in }
{
    Step::Method(Method::TypeOf)
}

/// The method without an argument that the word names.
fn method(keyword: Keyword) -> Option<Step>
    ensures { option_map step_of result ≡ sign.method_of keyword }
{
    match keyword {
        Keyword::Type => Some(Step::Method(Method::TypeOf)),
        Keyword::Size => Some(Step::Method(Method::Size)),
        Keyword::Ceiling => Some(Step::Method(Method::Ceiling)),
        Keyword::Floor => Some(Step::Method(Method::Floor)),
        Keyword::Abs => Some(Step::Method(Method::Abs)),
        Keyword::KeyValue => Some(Step::Method(Method::KeyValue)),
        Keyword::Bigint => Some(Step::Method(Method::Bigint)),
        Keyword::Boolean => Some(Step::Method(Method::Boolean)),
        Keyword::Decimal => Some(Step::Method(Method::Decimal)),
        Keyword::Integer => Some(Step::Method(Method::Integer)),
        Keyword::Number => Some(Step::Method(Method::Number)),
        Keyword::String => Some(Step::Method(Method::Text)),
        Keyword::Double => Some(stand_in()),
        _ => None,
    }
}

#[tactic(auto, unfolding(sj_path_grammar::specs::Reading::datetime_at))]
fn datetime(tokens: &[Token]) -> Result<(Step, &[Token]), ParseRefusal>
    ensures { Gives (λ x. (step_of x.0, x.1.now)) result (reading.datetime_at tokens.now) }
{
    match tokens {
        [Token::Quoted(_), rest @ ..] => {
            let Some(rest) = single::close(rest) else {
                return Err(ParseRefusal::Syntax);
            };
            Ok((stand_in(), rest))
        }
        _ => {
            let Some(rest) = single::close(tokens) else {
                return Err(ParseRefusal::Syntax);
            };
            Ok((stand_in(), rest))
        }
    }
}

/// Behind a name and a parenthesis.
#[tactic(auto, unfolding(sj_path_grammar::specs::Reading::called))]
fn called(
    alloc: Global,
    keyword: Keyword,
    tokens: &[Token],
) -> Result<(Step, &[Token]), ParseRefusal>
    ensures { Gives (λ x. (step_of x.0, x.1.now)) result (reading.called keyword tokens.now) }
{
    match keyword {
        Keyword::Datetime => datetime(tokens),
        _ => {
            let Some(rest) = single::close(tokens) else {
                return Err(ParseRefusal::Syntax);
            };
            let Some(method) = method(keyword) else {
                return Err(ParseRefusal::Syntax);
            };
            Ok((method, rest))
        }
    }
}

/// Behind a point and a name.
#[tactic(auto, unfolding(sj_path_grammar::specs::Reading::named))]
fn named<'a>(
    alloc: Global,
    keyword: Keyword,
    text: &Text,
    tokens: &'a [Token],
) -> Result<(Step, &'a [Token]), ParseRefusal>
    ensures { Gives (λ x. (step_of x.0, x.1.now)) result (reading.named keyword text.now tokens.now) }
{
    match tokens {
        [Token::Open, rest @ ..] => called(alloc, keyword, rest),
        _ => Ok((Step::Member(single::copy(alloc, text)?), tokens)),
    }
}

/// Behind a point.
#[tactic(auto, unfolding(sj_path_grammar::specs::Reading::after_dot))]
pub fn after_dot(alloc: Global, tokens: &[Token]) -> Result<(Step, &[Token]), ParseRefusal>
    ensures { Gives (λ x. (step_of x.0, x.1.now)) result (reading.after_dot tokens.now) }
{
    match tokens {
        [Token::Star, rest @ ..] => Ok((Step::AllMembers, rest)),
        [Token::Quoted(text), rest @ ..] => Ok((Step::Member(single::copy(alloc, text)?), rest)),
        [Token::Word(keyword, text), rest @ ..] => named(alloc, *keyword, text, rest),
        _ => Err(ParseRefusal::Syntax),
    }
}
