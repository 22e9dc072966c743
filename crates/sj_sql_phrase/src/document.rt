//! The document, and IS JSON on it.

ghost use Rattle.std.specs.Prelude.{◌≡◌, Some, option_map};
ghost use Rattle.std.specs.Option.{option_copied};
ghost use Rattle.sj_sql_grammar.specs.Phrases as phrase;
ghost use Rattle.sj_sql_grammar.specs.Reading as reading;

use crate::meaning::meant;
use crate::phrase::{format, unique_clause};
use crate::single::{Tokens, word};
use sj_sql_grammar::{Encoding, IsJsonCall};
use sj_sql_token::{Keyword, Token};
use sj_value::JsonKind;

/// What follows the document, if it stands first.
fn doc(tokens: Tokens<'_>) -> Option<Tokens<'_>>
    ensures { option_copied result ≡ phrase.doc_at tokens.now }
{
    let (token, rest) = tokens.split_first()?;
    match token {
        Token::Quoted(name) if name.is_doc() => Some(rest),
        Token::Word(Keyword::Other, word) if word.as_str() == "doc" => Some(rest),
        _ => None,
    }
}

/// The encoding of a document, and what follows it.
#[tactic(auto, unfolding(sj_sql_grammar::specs::Reading::document_at))]
pub fn document(tokens: Tokens<'_>) -> Option<(Encoding, Tokens<'_>)>
    ensures { option_map (λ x. (x.0, x.1.now)) result ≡ reading.document_at tokens.now }
{
    let rest = doc(tokens)?;
    match format(rest) {
        Some((encoding, rest)) => Some((encoding, rest)),
        None => Some((Encoding::Read, rest)),
    }
}

fn begins_word(keyword: Keyword, rest: Tokens<'_>) -> bool
    ensures { result ≡ reading.begins_word keyword rest.now }
{
    match keyword {
        Keyword::Null => word(Keyword::On, rest).is_none(),
        Keyword::True
        | Keyword::False
        | Keyword::JsonExists
        | Keyword::JsonValue
        | Keyword::JsonQuery
        | Keyword::JsonObject
        | Keyword::JsonArray
        | Keyword::Other => true,
        _ => false,
    }
}

/// Whether a value begins there.
fn begins_value(tokens: Tokens<'_>) -> bool
    ensures { result ≡ reading.begins_value tokens.now }
{
    let Some((token, rest)) = tokens.split_first() else {
        return false;
    };
    match token {
        Token::String(_)
        | Token::Whole(_)
        | Token::Fraction(_)
        | Token::Plus
        | Token::Minus
        | Token::Quoted(_) => true,
        Token::Word(keyword, _) => begins_word(*keyword, rest),
        _ => false,
    }
}

/// The kind of an IS JSON, and what follows it.
#[tactic(auto, unfolding(sj_sql_grammar::specs::Reading::kind_at))]
fn json_kind(tokens: Tokens<'_>) -> (JsonKind, Tokens<'_>)
    ensures { reading.kind_at tokens.now ≡ Some (result.0, result.1.now) }
{
    if let Some(rest) = word(Keyword::Value, tokens) {
        if begins_value(rest) {
            return (JsonKind::Value, tokens);
        }
        return (JsonKind::Value, rest);
    }
    meant::<JsonKind>(tokens).unwrap_or((JsonKind::Value, tokens))
}

/// An IS JSON, and what follows it.
#[tactic(auto, unfolding(sj_sql_grammar::specs::Reading::is_json_at, sj_sql_grammar::specs::Phrases::not_at))]
pub fn is_json(tokens: Tokens<'_>) -> Option<(IsJsonCall, Tokens<'_>)>
    ensures { option_map (λ x. (x.0, x.1.now)) result ≡ reading.is_json_at tokens.now }
{
    let rest = word(Keyword::Is, doc(tokens)?)?;
    let (negated, rest) = match word(Keyword::Not, rest) {
        Some(rest) => (true, rest),
        None => (false, rest),
    };
    let (kind, rest) = json_kind(word(Keyword::Json, rest)?);
    let (unique, rest) = unique_clause(rest).unwrap_or((false, rest));
    Some((
        IsJsonCall {
            negated,
            kind,
            unique,
        },
        rest,
    ))
}
