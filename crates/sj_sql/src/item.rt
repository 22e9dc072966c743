//! The items of a SELECT list.

ghost use Rattle.std.specs.Prelude.{◌≡◌, length};
ghost use Rattle.sj_base.specs.Gives.{Gives};
ghost use Rattle.sj_sql_grammar.specs.Faults.{parsing};
ghost use Rattle.sj_sql_grammar.specs.Reading as reading;
ghost use Rattle.sj_sql.specs.Noted.{faults_of};
ghost use Rattle.sj_sql_tree.specs.View.{value_of, item_of, plain_of, items_of};

use crate::asking::Source;
use crate::faults::Faults;
use crate::value::{Level, list_value};
use sj_base::ParseRefusal;
use sj_sql_phrase::optional::skip_alias;
use sj_sql_phrase::passing::put;
use sj_sql_phrase::phrase::{nulls_clause, unique_clause};
use sj_sql_phrase::single::{Rest, Tokens, close, comma, open, word};
use sj_sql_token::Keyword;
use sj_sql_tree::{Item, Member, Seq, Value};
use sj_value::Nulls;
use std::alloc::Global;

/// A value without a table, and the name that leaves no trace.
#[tactic(auto, unfolding(sj_sql_grammar::specs::Reading::plain_item_at))]
fn plain_item(
    alloc: Global,
    faults: Faults,
    tokens: Tokens<'_>,
) -> Result<(Value, Faults, Tokens<'_>), ParseRefusal>
    ensures { Gives (λ x. (value_of x.0, faults_of x.1, x.2.now)) result (reading.plain_item_at parsing (faults_of faults) tokens.now) }
{
    let (value, faults, rest) = list_value(
        alloc,
        Source::Document,
        tokens.len() + 1,
        faults,
        tokens,
    )?;
    Ok((value, faults, skip_alias(rest)))
}

/// JSON_ARRAYAGG, behind its word.
#[tactic(auto, unfolding(sj_sql_grammar::specs::Reading::array_agg_from))]
fn array_agg(
    alloc: Global,
    faults: Faults,
    tokens: Tokens<'_>,
) -> Result<(Item, Faults, Tokens<'_>), ParseRefusal>
    ensures { Gives (λ x. (item_of x.0, faults_of x.1, x.2.now)) result (reading.array_agg_from parsing (faults_of faults) tokens.now) }
{
    let Some(rest) = open(tokens) else {
        return Err(ParseRefusal::Syntax);
    };
    let (value, faults, rest) = list_value(alloc, Source::Row, rest.len() + 1, faults, rest)?;
    let (nulls, rest) = nulls_clause(rest).unwrap_or((Nulls::Absent, rest));
    let Some(rest) = close(rest) else {
        return Err(ParseRefusal::Syntax);
    };
    Ok((Item::ArrayAgg(value, nulls), faults, rest))
}

/// JSON_OBJECTAGG, behind its word.
#[tactic(auto, unfolding(sj_sql_grammar::specs::Reading::object_agg_from))]
fn object_agg(
    alloc: Global,
    faults: Faults,
    tokens: Tokens<'_>,
) -> Result<(Item, Faults, Tokens<'_>), ParseRefusal>
    ensures { Gives (λ x. (item_of x.0, faults_of x.1, x.2.now)) result (reading.object_agg_from parsing (faults_of faults) tokens.now) }
{
    let Some(rest) = open(tokens) else {
        return Err(ParseRefusal::Syntax);
    };
    let level = Level {
        alloc,
        source: Source::Row,
        depth: rest.len() + 1,
        inner: list_value,
    };
    let (member, faults, rest) = level.member(faults, rest)?;
    let (nulls, rest) = nulls_clause(rest).unwrap_or((Nulls::Null, rest));
    let (unique, rest) = unique_clause(rest).unwrap_or((false, rest));
    let Some(rest) = close(rest) else {
        return Err(ParseRefusal::Syntax);
    };
    let Member { key, value } = member;
    Ok((Item::ObjectAgg(key, value, nulls, unique), faults, rest))
}

/// A value of a row, or an aggregate.
#[tactic(auto, unfolding(sj_sql_grammar::specs::Reading::row_item_at))]
fn row_item(
    alloc: Global,
    faults: Faults,
    tokens: Tokens<'_>,
) -> Result<(Item, Faults, Tokens<'_>), ParseRefusal>
    ensures { Gives (λ x. (item_of x.0, faults_of x.1, x.2.now)) result (reading.row_item_at parsing (faults_of faults) tokens.now) }
{
    if let Some(rest) = word(Keyword::JsonArrayAgg, tokens) {
        return array_agg(alloc, faults, rest);
    }
    if let Some(rest) = word(Keyword::JsonObjectAgg, tokens) {
        return object_agg(alloc, faults, rest);
    }
    let (value, faults, rest) = list_value(alloc, Source::Row, tokens.len() + 1, faults, tokens)?;
    Ok((Item::Single(value), faults, rest))
}

/// An item with a table, and the name that leaves no trace.
#[tactic(auto, unfolding(sj_sql_grammar::specs::Reading::listed_item_at))]
fn listed_item(
    alloc: Global,
    faults: Faults,
    tokens: Tokens<'_>,
) -> Result<(Item, Faults, Tokens<'_>), ParseRefusal>
    ensures { Gives (λ x. (item_of x.0, faults_of x.1, x.2.now)) result (reading.listed_item_at parsing (faults_of faults) tokens.now) }
{
    let (item, faults, rest) = row_item(alloc, faults, tokens)?;
    Ok((item, faults, skip_alias(rest)))
}

/// Values without a table, with commas between them.
#[tactic(auto, unfolding(sj_sql_grammar::specs::Reading::items_from))]
pub fn plain_items(
    alloc: Global,
    faults: Faults,
    tokens: Tokens<'_>,
) -> Result<(Seq<Value>, Faults, Tokens<'_>), ParseRefusal>
    ensures { Gives (λ x. (plain_of x.0, faults_of x.1, x.2.now)) result
        (reading.items_from parsing (reading.plain_item_at parsing) (length tokens.now) (faults_of faults) tokens.now) }
{
    let mut items = Seq::new(alloc);
    let mut so_far = faults;
    let mut left = Rest { tokens };
    for _turn in 0..tokens.len() {
        let (item, noted, after) = plain_item(alloc, so_far, left.tokens)?;
        put(&mut items, item)?;
        let Some(next) = comma(after) else {
            return Ok((items, noted, after));
        };
        so_far = noted;
        left = Rest { tokens: next };
    }
    Err(ParseRefusal::Syntax)
}

/// Items with a table, with commas between them.
#[tactic(auto, unfolding(sj_sql_grammar::specs::Reading::items_from))]
pub fn listed_items(
    alloc: Global,
    faults: Faults,
    tokens: Tokens<'_>,
) -> Result<(Seq<Item>, Faults, Tokens<'_>), ParseRefusal>
    ensures { Gives (λ x. (items_of x.0, faults_of x.1, x.2.now)) result
        (reading.items_from parsing (reading.listed_item_at parsing) (length tokens.now) (faults_of faults) tokens.now) }
{
    let mut items = Seq::new(alloc);
    let mut so_far = faults;
    let mut left = Rest { tokens };
    for _turn in 0..tokens.len() {
        let (item, noted, after) = listed_item(alloc, so_far, left.tokens)?;
        put(&mut items, item)?;
        let Some(next) = comma(after) else {
            return Ok((items, noted, after));
        };
        so_far = noted;
        left = Rest { tokens: next };
    }
    Err(ParseRefusal::Syntax)
}
