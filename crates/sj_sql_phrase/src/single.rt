//! Single tokens.

ghost use Rattle.std.specs.Prelude.{◌≡◌, ◌∷◌, option_map};
ghost use Rattle.std.specs.Option.{option_copied};
ghost use Rattle.sj_base.specs.Gives.{Gives};
ghost use Rattle.sj_sql_token.specs.Keywords as keywords;
ghost use Rattle.sj_sql_token.specs.Same as keyword;
ghost use Rattle.sj_sql_grammar.specs.Phrases as phrase;

use sj_base::{ParseRefusal, Text};
use sj_decimal::Decimal;
use sj_sql_token::{Keyword, Quoted, Token};
use std::alloc::Global;

/// The tokens that are left of a statement.
pub type Tokens<'a> = &'a [Token<'a>];

/// The tokens that are left in a loop.
#[derive(Clone, Copy)]
pub struct Rest<'a> {
    /// What the next turn begins with.
    pub tokens: Tokens<'a>,
}

/// Whether a keyword is the one that is wanted.
pub fn same(found: Keyword, wanted: Keyword) -> bool
    ensures { result ≡ keyword.same found wanted }
{
    if found == wanted { true } else { false }
}

/// What follows the keyword, if it stands first.
pub fn word(wanted: Keyword, tokens: Tokens<'_>) -> Option<Tokens<'_>>
    ensures { option_copied result ≡ phrase.word wanted tokens.now }
{
    let (token, rest) = tokens.split_first()?;
    match token {
        Token::Word(found, _) if same(*found, wanted) => Some(rest),
        _ => None,
    }
}

/// What follows `(`, if it stands first.
pub fn open(tokens: Tokens<'_>) -> Option<Tokens<'_>>
    ensures { option_copied result ≡ phrase.open_at tokens.now }
{
    match tokens {
        [Token::Open, rest @ ..] => Some(rest),
        _ => None,
    }
}

/// What follows `)`, if it stands first.
pub fn close(tokens: Tokens<'_>) -> Option<Tokens<'_>>
    ensures { option_copied result ≡ phrase.close_at tokens.now }
{
    match tokens {
        [Token::Close, rest @ ..] => Some(rest),
        _ => None,
    }
}

/// What follows `,`, if it stands first.
pub fn comma(tokens: Tokens<'_>) -> Option<Tokens<'_>>
    ensures { option_copied result ≡ phrase.comma_at tokens.now }
{
    match tokens {
        [Token::Comma, rest @ ..] => Some(rest),
        _ => None,
    }
}

/// What follows `:`, if it stands first.
pub fn colon(tokens: Tokens<'_>) -> Option<Tokens<'_>>
    ensures { option_copied result ≡ phrase.colon_at tokens.now }
{
    match tokens {
        [Token::Colon, rest @ ..] => Some(rest),
        _ => None,
    }
}

/// What follows `*`, if it stands first.
pub fn star(tokens: Tokens<'_>) -> Option<Tokens<'_>>
    ensures { option_copied result ≡ phrase.star_at tokens.now }
{
    match tokens {
        [Token::Star, rest @ ..] => Some(rest),
        _ => None,
    }
}

/// A string, and what follows it.
pub fn string(tokens: Tokens<'_>) -> Option<(&Quoted<'_>, Tokens<'_>)>
    ensures { option_map (λ x. (x.0.now, x.1.now)) result ≡ phrase.string_at tokens.now }
{
    let (token, rest) = tokens.split_first()?;
    match token {
        Token::String(text) => Some((text, rest)),
        _ => None,
    }
}

/// A whole number that is written without a point, and what follows it.
pub(crate) fn count(tokens: Tokens<'_>) -> Option<(u128, Tokens<'_>)>
    ensures { option_map (λ x. (x.0, x.1.now)) result ≡ phrase.count_at tokens.now }
{
    let (token, rest) = tokens.split_first()?;
    match token {
        Token::Whole(number) => Some((number.parts().0.unsigned_abs(), rest)),
        _ => None,
    }
}

/// The number that a token is.
pub(crate) fn number_of(token: &Token<'_>) -> Option<Decimal>
    ensures { (rest : phrase.Tokens) → option_map (λ d. (d, rest)) result ≡ phrase.number_at (token.now ∷ rest) }
{
    match token {
        Token::Whole(number) => Some(*number),
        Token::Fraction(number) => Some(*number),
        _ => None,
    }
}

/// Whether a keyword is no name.
fn is_reserved(keyword: Keyword) -> bool
    ensures { result ≡ keywords.is_reserved keyword }
{
    matches!(
        keyword,
        Keyword::Select
            | Keyword::From
            | Keyword::As
            | Keyword::Key
            | Keyword::True
            | Keyword::False
            | Keyword::Null
            | Keyword::Nested
            | Keyword::JsonExists
            | Keyword::JsonValue
            | Keyword::JsonQuery
            | Keyword::JsonTable
            | Keyword::JsonObject
            | Keyword::JsonArray
            | Keyword::JsonObjectAgg
            | Keyword::JsonArrayAgg
    )
}

/// A copy of a name, and what follows it.
pub fn name(alloc: Global, tokens: Tokens<'_>) -> Result<(Text, Tokens<'_>), ParseRefusal>
    ensures { Gives (λ x. (x.0, x.1.now)) result (phrase.name_at tokens.now) }
{
    let Some((token, rest)) = tokens.split_first() else {
        return Err(ParseRefusal::Syntax);
    };
    match token {
        Token::Quoted(name) => Ok((name.to_text(alloc)?, rest)),
        Token::Word(keyword, word) if !is_reserved(*keyword) => Ok((word.to_text(alloc)?, rest)),
        _ => Err(ParseRefusal::Syntax),
    }
}

/// What follows a name, if one stands first.
pub(crate) fn skip_name(tokens: Tokens<'_>) -> Option<Tokens<'_>>
    ensures { option_copied result ≡ option_map (λ x. x.1) (phrase.name_at tokens.now) }
{
    let (token, rest) = tokens.split_first()?;
    match token {
        Token::Quoted(_) => Some(rest),
        Token::Word(keyword, _) if !is_reserved(*keyword) => Some(rest),
        _ => None,
    }
}

/// What follows a keyword, if it stands first, and else all.
pub fn skip_word(wanted: Keyword, tokens: Tokens<'_>) -> Tokens<'_>
    ensures { result.now ≡ phrase.skip_word wanted tokens.now }
{
    word(wanted, tokens).unwrap_or(tokens)
}
