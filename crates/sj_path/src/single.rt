//! Single tokens: what follows one that stands first, or nothing where another stands there.

ghost use Rattle.std.specs.Prelude.{◌≡◌, option_map, IfOk};
ghost use Rattle.std.specs.Option.{option_copied};
ghost use Rattle.sj_base.specs.Gives.{Gives};
ghost use Rattle.sj_path_grammar.specs.Signs as sign;
ghost use Rattle.sj_path_tree.specs.View.{expr_of};
ghost use Rattle.sj_path_grammar.specs.Reading as reading;

use sj_base::{Memory, ParseRefusal, Text};
use sj_path_token::{Keyword, Token};
use sj_path_tree::{Arith, Expr, Literal};
use std::alloc::Global;

pub fn add_sign(tokens: &[Token]) -> Option<(Arith, &[Token])>
    ensures { option_map (λ s. (s.0, s.1.now)) result ≡ reading.sign_at sign.add_sign tokens.now }
{
    match tokens {
        [Token::Plus, rest @ ..] => Some((Arith::Add, rest)),
        [Token::Minus, rest @ ..] => Some((Arith::Sub, rest)),
        _ => None,
    }
}

pub fn mul_sign(tokens: &[Token]) -> Option<(Arith, &[Token])>
    ensures { option_map (λ s. (s.0, s.1.now)) result ≡ reading.sign_at sign.mul_sign tokens.now }
{
    let (token, rest) = tokens.split_first()?;
    match token {
        Token::Star => Some((Arith::Mul, rest)),
        Token::Slash => Some((Arith::Div, rest)),
        Token::Percent => Some((Arith::Rem, rest)),
        _ => None,
    }
}

pub fn close(tokens: &[Token]) -> Option<&[Token]>
    ensures { option_copied result ≡ reading.close_at tokens.now }
{
    match tokens {
        [Token::Close, rest @ ..] => Some(rest),
        _ => None,
    }
}

pub fn to(tokens: &[Token]) -> Option<&[Token]>
    ensures { option_copied result ≡ reading.to_at tokens.now }
{
    match tokens {
        [Token::Word(Keyword::To, _), rest @ ..] => Some(rest),
        _ => None,
    }
}

pub fn is(tokens: &[Token]) -> Option<&[Token]>
    ensures { option_copied result ≡ reading.is_at tokens.now }
{
    match tokens {
        [Token::Word(Keyword::Is, _), rest @ ..] => Some(rest),
        _ => None,
    }
}

pub fn unknown(tokens: &[Token]) -> Option<&[Token]>
    ensures { option_copied result ≡ reading.unknown_at tokens.now }
{
    match tokens {
        [Token::Word(Keyword::Unknown, _), rest @ ..] => Some(rest),
        _ => None,
    }
}

pub fn with(tokens: &[Token]) -> Option<&[Token]>
    ensures { option_copied result ≡ reading.with_at tokens.now }
{
    match tokens {
        [Token::Word(Keyword::With, _), rest @ ..] => Some(rest),
        _ => None,
    }
}

pub fn flag(tokens: &[Token]) -> Option<&[Token]>
    ensures { option_copied result ≡ reading.flag_at tokens.now }
{
    match tokens {
        [Token::Word(Keyword::Flag, _), rest @ ..] => Some(rest),
        _ => None,
    }
}

pub fn lax(tokens: &[Token]) -> Option<&[Token]>
    ensures { option_copied result ≡ reading.lax_at tokens.now }
{
    match tokens {
        [Token::Word(Keyword::Lax, _), rest @ ..] => Some(rest),
        _ => None,
    }
}

pub fn strict(tokens: &[Token]) -> Option<&[Token]>
    ensures { option_copied result ≡ reading.strict_at tokens.now }
{
    match tokens {
        [Token::Word(Keyword::Strict, _), rest @ ..] => Some(rest),
        _ => None,
    }
}

pub fn begins_step(tokens: &[Token]) -> bool
    ensures { result ≡ reading.begins_step tokens.now }
{
    matches!(
        tokens,
        [Token::Dot | Token::OpenBracket | Token::Question, ..]
    )
}

pub fn copy(alloc: Global, text: &Text) -> Result<Text, Memory>
    ensures { IfOk result (λ t. t ≡ text.now) }
{
    Text::from_str(alloc, text.as_str())
}

fn word_expr(keyword: Keyword) -> Option<Expr>
    ensures { option_map expr_of result ≡ sign.word_expr keyword }
{
    match keyword {
        Keyword::Last => Some(Expr::Last),
        Keyword::True => Some(Expr::Lit(Literal::Bool(true))),
        Keyword::False => Some(Expr::Lit(Literal::Bool(false))),
        Keyword::Null => Some(Expr::Lit(Literal::Null)),
        _ => None,
    }
}

/// A token that is an expression by itself.
pub fn expr(alloc: Global, token: &Token) -> Result<Expr, ParseRefusal>
    ensures { Gives expr_of result (sign.token_expr token.now) }
{
    match token {
        Token::Root => Ok(Expr::Root),
        Token::Variable(name) => Ok(Expr::Var(copy(alloc, name)?)),
        Token::At => Ok(Expr::Context),
        Token::Quoted(text) => Ok(Expr::Lit(Literal::Text(copy(alloc, text)?))),
        Token::Number(n) => Ok(Expr::Lit(Literal::Num(*n))),
        Token::Word(keyword, _) => word_expr(*keyword).ok_or(ParseRefusal::Syntax),
        _ => Err(ParseRefusal::Syntax),
    }
}

pub fn open(tokens: &[Token]) -> Option<&[Token]>
    ensures { option_copied result ≡ reading.open_at tokens.now }
{
    match tokens {
        [Token::Open, rest @ ..] => Some(rest),
        _ => None,
    }
}

pub fn bracket(tokens: &[Token]) -> Option<&[Token]>
    ensures { option_copied result ≡ reading.bracket_at tokens.now }
{
    match tokens {
        [Token::CloseBracket, rest @ ..] => Some(rest),
        _ => None,
    }
}

pub fn comma(tokens: &[Token]) -> Option<&[Token]>
    ensures { option_copied result ≡ reading.comma_at tokens.now }
{
    match tokens {
        [Token::Comma, rest @ ..] => Some(rest),
        _ => None,
    }
}

pub fn star(tokens: &[Token]) -> Option<&[Token]>
    ensures { option_copied result ≡ reading.star_at tokens.now }
{
    match tokens {
        [Token::Star, rest @ ..] => Some(rest),
        _ => None,
    }
}

pub fn and(tokens: &[Token]) -> Option<&[Token]>
    ensures { option_copied result ≡ reading.and_at tokens.now }
{
    match tokens {
        [Token::And, rest @ ..] => Some(rest),
        _ => None,
    }
}

pub fn or(tokens: &[Token]) -> Option<&[Token]>
    ensures { option_copied result ≡ reading.or_at tokens.now }
{
    match tokens {
        [Token::Or, rest @ ..] => Some(rest),
        _ => None,
    }
}

pub fn quoted(alloc: Global, tokens: &[Token]) -> Result<(Text, &[Token]), ParseRefusal>
    ensures { Gives (λ x. (x.0, x.1.now)) result (reading.quoted_at tokens.now) }
{
    match tokens {
        [Token::Quoted(text), rest @ ..] => Ok((copy(alloc, text)?, rest)),
        _ => Err(ParseRefusal::Syntax),
    }
}
