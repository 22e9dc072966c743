//! The values of a SELECT list that are no literals and no constructors.

ghost use Rattle.std.specs.Prelude.{◌≡◌};
ghost use Rattle.sj_base.specs.Gives.{Gives};
ghost use Rattle.sj_sql_grammar.specs.Faults.{parsing};
ghost use Rattle.sj_sql_grammar.specs.Grammar as grammar;
ghost use Rattle.sj_sql_grammar.specs.Reading as reading;
ghost use Rattle.sj_sql.specs.Noted.{faults_of};
ghost use Rattle.sj_sql.specs.Sources.{source_of};
ghost use Rattle.sj_sql_tree.specs.View.{value_of};

use crate::call::{exists, query, value};
use crate::faults::Faults;
use sj_base::ParseRefusal;
use sj_sql_phrase::document::is_json;
use sj_sql_phrase::single::{Tokens, name, word};
use sj_sql_token::Keyword;
use sj_sql_tree::Value;
use std::alloc::Global;

/// What values ask: the document, in a list without a table, or else a row of the table.
#[derive(Clone, Copy)]
pub enum Source {
    Document,
    Row,
}

/// A value that asks the document.
#[tactic(auto, unfolding(sj_sql_grammar::specs::Reading::asking_at))]
fn asking_document(
    alloc: Global,
    faults: Faults,
    tokens: Tokens<'_>,
) -> Result<(Value, Faults, Tokens<'_>), ParseRefusal>
    ensures { Gives (λ x. (value_of x.0, faults_of x.1, x.2.now)) result (reading.asking_at parsing grammar.document (faults_of faults) tokens.now) }
{
    if let Some(rest) = word(Keyword::JsonExists, tokens) {
        return exists(alloc, faults, rest);
    }
    if let Some(rest) = word(Keyword::JsonValue, tokens) {
        return value(alloc, faults, rest);
    }
    if let Some(rest) = word(Keyword::JsonQuery, tokens) {
        return query(alloc, faults, rest);
    }
    let Some((call, rest)) = is_json(tokens) else {
        return Err(ParseRefusal::Syntax);
    };
    Ok((Value::IsJson(call), faults, rest))
}

/// A column.
#[tactic(auto, unfolding(sj_sql_grammar::specs::Reading::asking_at))]
fn column(
    alloc: Global,
    faults: Faults,
    tokens: Tokens<'_>,
) -> Result<(Value, Faults, Tokens<'_>), ParseRefusal>
    ensures { Gives (λ x. (value_of x.0, faults_of x.1, x.2.now)) result (reading.asking_at parsing grammar.row (faults_of faults) tokens.now) }
{
    let (name, rest) = name(alloc, tokens)?;
    Ok((Value::Column(name), faults, rest))
}

/// A value that asks the source.
pub fn asking(
    alloc: Global,
    source: Source,
    faults: Faults,
    tokens: Tokens<'_>,
) -> Result<(Value, Faults, Tokens<'_>), ParseRefusal>
    ensures { Gives (λ x. (value_of x.0, faults_of x.1, x.2.now)) result (reading.asking_at parsing (source_of source) (faults_of faults) tokens.now) }
{
    match source {
        Source::Document => asking_document(alloc, faults, tokens),
        Source::Row => column(alloc, faults, tokens),
    }
}
