//! Phrases: what a few tokens at the front say. A phrase that may be left out has a function that gives what it stands for then.

ghost use Rattle.std.specs.Prelude.{◌≡◌, option_map};
ghost use Rattle.std.specs.Option.{option_copied};
ghost use Rattle.sj_sql_grammar.specs.Phrases as phrase;
ghost use Rattle.sj_sql_grammar.specs.Reading as reading;

use crate::meaning::{emptied, meant};
use crate::single::{Tokens, close, comma, count, open, skip_word, word};
use sj_decimal::MAX_DIGITS;
use sj_sql_grammar::{Encoding, QueryClauses, Quotes, TypeName};
use sj_sql_token::{Keyword, Token};
use sj_value::{ExistsAction, Nulls, QueryAction, SqlType, TableAction, Wrapper};

/// The greatest n of VARCHAR(n).
const MAX_VARCHAR: u128 = 1_000_000;

/// What ON and the cause behind an action are followed by.
pub(crate) fn cause(cause: Keyword, tokens: Tokens<'_>) -> Option<Tokens<'_>>
    ensures { option_copied result ≡ phrase.cause_at cause tokens.now }
{
    word(cause, word(Keyword::On, tokens)?)
}

/// The action of JSON_EXISTS on an error.
#[tactic(auto, unfolding(sj_sql_grammar::specs::Phrases::exists_clause_at))]
pub fn exists_clause(tokens: Tokens<'_>) -> Option<(ExistsAction, Tokens<'_>)>
    ensures { option_map (λ x. (x.0, x.1.now)) result ≡ phrase.exists_clause_at tokens.now }
{
    let (action, rest) = meant::<ExistsAction>(tokens)?;
    let rest = cause(Keyword::Error, rest)?;
    Some((action, rest))
}

/// The action of JSON_TABLE on an error.
#[tactic(auto, unfolding(sj_sql_grammar::specs::Phrases::table_clause_at))]
pub fn table_clause(tokens: Tokens<'_>) -> Option<(TableAction, Tokens<'_>)>
    ensures { option_map (λ x. (x.0, x.1.now)) result ≡ phrase.table_clause_at tokens.now }
{
    let (action, rest) = meant::<TableAction>(tokens)?;
    let rest = cause(Keyword::Error, rest)?;
    Some((action, rest))
}

/// What a constructor makes of NULL.
#[tactic(auto, unfolding(sj_sql_grammar::specs::Phrases::nulls_at))]
pub fn nulls_clause(tokens: Tokens<'_>) -> Option<(Nulls, Tokens<'_>)>
    ensures { option_map (λ x. (x.0, x.1.now)) result ≡ phrase.nulls_at tokens.now }
{
    let (nulls, rest) = meant::<Nulls>(tokens)?;
    let rest = cause(Keyword::Null, rest)?;
    Some((nulls, rest))
}

/// Whether keys are to be unique.
#[tactic(auto, unfolding(sj_sql_grammar::specs::Phrases::unique_at))]
pub fn unique_clause(tokens: Tokens<'_>) -> Option<(bool, Tokens<'_>)>
    ensures { option_map (λ x. (x.0, x.1.now)) result ≡ phrase.unique_at tokens.now }
{
    let (unique, rest) = meant::<bool>(tokens)?;
    let rest = word(Keyword::Unique, rest)?;
    Some((unique, skip_word(Keyword::Keys, rest)))
}

fn query_action_phrase(tokens: Tokens<'_>) -> Option<(QueryAction, Tokens<'_>)>
    ensures { option_map (λ x. (x.0, x.1.now)) result ≡ phrase.query_action_at tokens.now }
{
    if let Some(rest) = word(Keyword::Empty, tokens) {
        return emptied(rest);
    }
    meant::<QueryAction>(tokens)
}

/// The action of JSON_QUERY for a cause.
#[tactic(auto, unfolding(sj_sql_grammar::specs::Phrases::query_clause_at))]
fn query_clause(on: Keyword, tokens: Tokens<'_>) -> Option<(QueryAction, Tokens<'_>)>
    ensures { option_map (λ x. (x.0, x.1.now)) result ≡ phrase.query_clause_at on tokens.now }
{
    let (action, rest) = query_action_phrase(tokens)?;
    let rest = cause(on, rest)?;
    Some((action, rest))
}

fn wrapped(wrapper: Wrapper, tokens: Tokens<'_>) -> Option<(Wrapper, Tokens<'_>)>
    ensures { option_map (λ x. (x.0, x.1.now)) result ≡ phrase.wrapped wrapper tokens.now }
{
    let rest = word(Keyword::Wrapper, skip_word(Keyword::Array, tokens))?;
    Some((wrapper, rest))
}

/// Whether JSON_QUERY wraps.
#[tactic(auto, unfolding(sj_sql_grammar::specs::Phrases::wrapper_at))]
fn wrapper(tokens: Tokens<'_>) -> Option<(Wrapper, Tokens<'_>)>
    ensures { option_map (λ x. (x.0, x.1.now)) result ≡ phrase.wrapper_at tokens.now }
{
    if let Some(rest) = word(Keyword::Without, tokens) {
        return wrapped(Wrapper::Without, rest);
    }
    let rest = word(Keyword::With, tokens)?;
    if let Some((wrapper, rest)) = meant::<Wrapper>(rest) {
        return wrapped(wrapper, rest);
    }
    wrapped(Wrapper::Unconditional, rest)
}

/// Whether JSON_QUERY keeps the quotation marks of a string.
#[tactic(auto, unfolding(sj_sql_grammar::specs::Phrases::quotes_at))]
fn quotes_clause(tokens: Tokens<'_>) -> Option<(Quotes, Tokens<'_>)>
    ensures { option_map (λ x. (x.0, x.1.now)) result ≡ phrase.quotes_at tokens.now }
{
    let (quotes, rest) = meant::<Quotes>(tokens)?;
    let rest = word(Keyword::Quotes, rest)?;
    Some((quotes, on_scalar_string(rest).unwrap_or(rest)))
}

/// The clauses of JSON_QUERY behind its path. Each has a default.
#[tactic(auto, unfolding(sj_sql_grammar::specs::Reading::query_clauses_at))]
pub fn query_clauses(tokens: Tokens<'_>) -> (QueryClauses, Tokens<'_>)
    ensures { Some (result.0, result.1.now) ≡ reading.query_clauses_at tokens.now }
{
    let (wrapper, rest) = wrapper(tokens).unwrap_or((Wrapper::Without, tokens));
    let (quotes, rest) = quotes_clause(rest).unwrap_or((Quotes::Absent, rest));
    let (on_empty, rest) = query_clause(Keyword::Empty, rest).unwrap_or((QueryAction::Null, rest));
    let (on_error, rest) = query_clause(Keyword::Error, rest).unwrap_or((QueryAction::Null, rest));
    let clauses = QueryClauses {
        wrapper,
        quotes,
        on_empty,
        on_error,
    };
    (clauses, rest)
}

fn on_scalar_string(tokens: Tokens<'_>) -> Option<Tokens<'_>>
    ensures { option_copied result ≡ phrase.on_scalar_string tokens.now }
{
    let rest = word(Keyword::On, tokens)?;
    let rest = word(Keyword::Scalar, rest)?;
    word(Keyword::String, rest)
}

/// The format of the document.
#[tactic(auto, unfolding(sj_sql_grammar::specs::Phrases::format_at))]
pub(crate) fn format(tokens: Tokens<'_>) -> Option<(Encoding, Tokens<'_>)>
    ensures { option_map (λ x. (x.0, x.1.now)) result ≡ phrase.format_at tokens.now }
{
    let rest = word(Keyword::Format, tokens)?;
    let rest = word(Keyword::Json, rest)?;
    match word(Keyword::Encoding, rest) {
        Some(rest) => meant::<Encoding>(rest),
        None => Some((Encoding::Read, rest)),
    }
}

/// The encoding of a column.
#[tactic(auto, unfolding(sj_sql_grammar::specs::Phrases::encoding_at))]
pub fn encoding_clause(tokens: Tokens<'_>) -> Option<(Encoding, Tokens<'_>)>
    ensures { option_map (λ x. (x.0, x.1.now)) result ≡ phrase.encoding_at tokens.now }
{
    meant::<Encoding>(word(Keyword::Encoding, tokens)?)
}

/// A type with a number that leaves no trace.
fn sized(ty: TypeName, tokens: Tokens<'_>) -> Option<(TypeName, Tokens<'_>)>
    ensures { option_map (λ x. (x.0, x.1.now)) result ≡ phrase.sized ty tokens.now }
{
    let Some(rest) = open(tokens) else {
        return Some((ty, tokens));
    };
    let (_, rest) = count(rest)?;
    let rest = close(rest)?;
    Some((ty, rest))
}

/// VARCHAR, behind its word.
fn varchar(tokens: Tokens<'_>) -> Option<(TypeName, Tokens<'_>)>
    ensures { option_map (λ x. (x.0, x.1.now)) result ≡ phrase.varchar_at tokens.now }
{
    let Some(rest) = open(tokens) else {
        return Some((TypeName::Known(SqlType::Varchar), tokens));
    };
    let (n, rest) = count(rest)?;
    let rest = close(rest)?;
    if 1 <= n && n <= MAX_VARCHAR {
        Some((TypeName::Known(SqlType::VarcharMax(n as u32)), rest))
    } else {
        None
    }
}

fn fixed(p: u128, s: u128, tokens: Tokens<'_>) -> Option<(TypeName, Tokens<'_>)>
    ensures { option_map (λ x. (x.0, x.1.now)) result ≡ phrase.fixed_at p s tokens.now }
{
    if 1 <= p && p <= MAX_DIGITS as u128 && s <= p {
        let rest = close(tokens)?;
        Some((
            TypeName::Known(SqlType::NumericFixed(p as u32, s as u32)),
            rest,
        ))
    } else {
        None
    }
}

/// NUMERIC, behind its word.
fn numeric(tokens: Tokens<'_>) -> Option<(TypeName, Tokens<'_>)>
    ensures { option_map (λ x. (x.0, x.1.now)) result ≡ phrase.numeric_at tokens.now }
{
    let Some(rest) = open(tokens) else {
        return Some((TypeName::Known(SqlType::Numeric), tokens));
    };
    let (p, rest) = count(rest)?;
    let Some(scale) = comma(rest) else {
        return fixed(p, 0, rest);
    };
    let (s, rest) = count(scale)?;
    fixed(p, s, rest)
}

/// A type, behind its first word.
#[tactic(auto, unfolding(sj_sql_grammar::specs::Phrases::type_from))]
fn type_from(first: Keyword, tokens: Tokens<'_>) -> Option<(TypeName, Tokens<'_>)>
    ensures { option_map (λ x. (x.0, x.1.now)) result ≡ phrase.type_from first tokens.now }
{
    match first {
        Keyword::Varchar => varchar(tokens),
        Keyword::Numeric | Keyword::Decimal => numeric(tokens),
        Keyword::Integer | Keyword::Int => Some((TypeName::Known(SqlType::Integer), tokens)),
        Keyword::Bigint => Some((TypeName::Known(SqlType::Bigint), tokens)),
        Keyword::Boolean => Some((TypeName::Known(SqlType::Boolean), tokens)),
        Keyword::Float => sized(TypeName::Approximate, tokens),
        Keyword::Real => Some((TypeName::Approximate, tokens)),
        Keyword::Double => {
            let rest = word(Keyword::Precision, tokens)?;
            Some((TypeName::Approximate, rest))
        }
        Keyword::Date => Some((TypeName::Datetime, tokens)),
        Keyword::Time | Keyword::Timestamp => sized(TypeName::Datetime, tokens),
        _ => None,
    }
}

/// A type.
#[tactic(auto, unfolding(sj_sql_grammar::specs::Phrases::type_at))]
pub fn type_name(tokens: Tokens<'_>) -> Option<(TypeName, Tokens<'_>)>
    ensures { option_map (λ x. (x.0, x.1.now)) result ≡ phrase.type_at tokens.now }
{
    let (token, rest) = tokens.split_first()?;
    match token {
        Token::Word(keyword, _) => type_from(*keyword, rest),
        _ => None,
    }
}

/// The type of RETURNING.
#[tactic(auto, unfolding(sj_sql_grammar::specs::Phrases::returning_at))]
pub fn returning(tokens: Tokens<'_>) -> Option<(TypeName, Tokens<'_>)>
    ensures { option_map (λ x. (x.0, x.1.now)) result ≡ phrase.returning_at tokens.now }
{
    type_name(word(Keyword::Returning, tokens)?)
}

/// What follows VARCHAR FORMAT JSON, if it stands first.
#[tactic(auto, unfolding(sj_sql_grammar::specs::Phrases::formatted_at))]
pub fn formatted_type(tokens: Tokens<'_>) -> Option<Tokens<'_>>
    ensures { option_copied result ≡ phrase.formatted_at tokens.now }
{
    let rest = word(Keyword::Varchar, tokens)?;
    let rest = word(Keyword::Format, rest)?;
    word(Keyword::Json, rest)
}

/// What follows BOOLEAN EXISTS, if it stands first.
#[tactic(auto, unfolding(sj_sql_grammar::specs::Phrases::existence_at))]
pub fn existence_type(tokens: Tokens<'_>) -> Option<Tokens<'_>>
    ensures { option_copied result ≡ phrase.existence_at tokens.now }
{
    let rest = word(Keyword::Boolean, tokens)?;
    word(Keyword::Exists, rest)
}
