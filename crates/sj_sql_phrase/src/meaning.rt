//! Words with a meaning of their own.

ghost use Rattle.std.specs.Prelude.{◌≡◌, Option, option_map};
ghost use Rattle.sj_sql_token.specs.declared.keyword.Keyword.{Keyword};
ghost use Rattle.sj_sql_grammar.specs.Phrases as phrase;

use crate::single::Tokens;
use sj_sql_grammar::{Encoding, InOut, Quotes, Siblings, ValueDo};
use sj_sql_token::{Keyword, Token};
use sj_value::{ExistsAction, JsonKind, Nulls, QueryAction, TableAction, Wrapper};

/// What one of some words says.
pub trait Meaning: Drop {
    ghost meaning: { Keyword → Option Self };

    /// What this word says, or nothing if it is none of these words.
    fn of(keyword: Keyword) -> Option<Self>
        ensures { result ≡ meaning keyword };
}

/// What the word says that stands first, and what follows it.
pub fn meant<M: Meaning>(tokens: Tokens<'_>) -> Option<(M, Tokens<'_>)>
    ensures { option_map (λ x. (x.0, x.1.now)) result ≡ phrase.meant M.meaning tokens.now }
{
    let (token, rest) = tokens.split_first()?;
    match token {
        Token::Word(keyword, _) => Some((M::of(*keyword)?, rest)),
        _ => None,
    }
}

/// The action of JSON_EXISTS that a word names.
impl Meaning for ExistsAction {
    ghost meaning = { phrase.exists_action_of };

    fn of(keyword: Keyword) -> Option<ExistsAction> {
        match keyword {
            Keyword::True => Some(ExistsAction::True),
            Keyword::False => Some(ExistsAction::False),
            Keyword::Unknown => Some(ExistsAction::Unknown),
            Keyword::Error => Some(ExistsAction::Error),
            _ => None,
        }
    }
}

/// The action of JSON_QUERY that a word names.
impl Meaning for QueryAction {
    ghost meaning = { phrase.query_action_of };

    fn of(keyword: Keyword) -> Option<QueryAction> {
        match keyword {
            Keyword::Error => Some(QueryAction::Error),
            Keyword::Null => Some(QueryAction::Null),
            _ => None,
        }
    }
}

/// The wrapper that a word behind WITH names.
impl Meaning for Wrapper {
    ghost meaning = { phrase.condition_of };

    fn of(keyword: Keyword) -> Option<Wrapper> {
        match keyword {
            Keyword::Conditional => Some(Wrapper::Conditional),
            Keyword::Unconditional => Some(Wrapper::Unconditional),
            _ => None,
        }
    }
}

/// What a word says of quotes.
impl Meaning for Quotes {
    ghost meaning = { phrase.quotes_of };

    fn of(keyword: Keyword) -> Option<Quotes> {
        match keyword {
            Keyword::Keep => Some(Quotes::Keep),
            Keyword::Omit => Some(Quotes::Omit),
            _ => None,
        }
    }
}

/// The kind of JSON that a word names, but VALUE.
impl Meaning for JsonKind {
    ghost meaning = { phrase.kind_of };

    fn of(keyword: Keyword) -> Option<JsonKind> {
        match keyword {
            Keyword::Array => Some(JsonKind::Array),
            Keyword::Object => Some(JsonKind::Object),
            Keyword::Scalar => Some(JsonKind::Scalar),
            _ => None,
        }
    }
}

/// What a word before UNIQUE says.
impl Meaning for bool {
    ghost meaning = { phrase.unique_of };

    fn of(keyword: Keyword) -> Option<bool> {
        match keyword {
            Keyword::With => Some(true),
            Keyword::Without => Some(false),
            _ => None,
        }
    }
}

/// What a word before ON NULL says.
impl Meaning for Nulls {
    ghost meaning = { phrase.nulls_of };

    fn of(keyword: Keyword) -> Option<Nulls> {
        match keyword {
            Keyword::Null => Some(Nulls::Null),
            Keyword::Absent => Some(Nulls::Absent),
            _ => None,
        }
    }
}

/// The encoding that a word names.
impl Meaning for Encoding {
    ghost meaning = { phrase.encoding_of };

    fn of(keyword: Keyword) -> Option<Encoding> {
        match keyword {
            Keyword::Utf8 => Some(Encoding::Read),
            Keyword::Utf16 | Keyword::Utf32 => Some(Encoding::Refused),
            _ => None,
        }
    }
}

/// The action of JSON_TABLE that a word names.
impl Meaning for TableAction {
    ghost meaning = { phrase.table_action_of };

    fn of(keyword: Keyword) -> Option<TableAction> {
        match keyword {
            Keyword::Empty => Some(TableAction::Empty),
            Keyword::Error => Some(TableAction::Error),
            _ => None,
        }
    }
}

/// How a word joins a path with those below it.
impl Meaning for InOut {
    ghost meaning = { phrase.in_out_of };

    fn of(keyword: Keyword) -> Option<InOut> {
        match keyword {
            Keyword::Outer => Some(InOut::Outer),
            Keyword::Inner => Some(InOut::Inner),
            _ => None,
        }
    }
}

/// How a word joins paths beside one another.
impl Meaning for Siblings {
    ghost meaning = { phrase.siblings_of };

    fn of(keyword: Keyword) -> Option<Siblings> {
        match keyword {
            Keyword::Union => Some(Siblings::Union),
            Keyword::Cross => Some(Siblings::Cross),
            _ => None,
        }
    }
}

/// The action of JSON_VALUE that a word names.
impl Meaning for ValueDo {
    ghost meaning = { phrase.value_action_of };

    fn of(keyword: Keyword) -> Option<ValueDo> {
        match keyword {
            Keyword::Error => Some(ValueDo::Error),
            Keyword::Null => Some(ValueDo::Null),
            _ => None,
        }
    }
}

/// The action of JSON_QUERY that a word behind EMPTY names.
fn emptied_of(keyword: Keyword) -> Option<QueryAction>
    ensures { result ≡ phrase.emptied_of keyword }
{
    match keyword {
        Keyword::Array => Some(QueryAction::EmptyArray),
        Keyword::Object => Some(QueryAction::EmptyObject),
        _ => None,
    }
}

/// The action of JSON_QUERY that a word behind EMPTY names. It stands first, and this is what follows it.
pub fn emptied(tokens: Tokens<'_>) -> Option<(QueryAction, Tokens<'_>)>
    ensures { option_map (λ x. (x.0, x.1.now)) result ≡ phrase.meant phrase.emptied_of tokens.now }
{
    let (token, rest) = tokens.split_first()?;
    match token {
        Token::Word(keyword, _) => Some((emptied_of(*keyword)?, rest)),
        _ => None,
    }
}
