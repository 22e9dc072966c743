//! The functions JSON_EXISTS, JSON_VALUE and JSON_QUERY, behind their words.

ghost use Rattle.std.specs.Prelude.{◌≡◌};
ghost use Rattle.sj_base.specs.Gives.{Gives};
ghost use Rattle.sj_sql_grammar.specs.Faults.{parsing};
ghost use Rattle.sj_sql_grammar.specs.Reading as reading;
ghost use Rattle.sj_sql.specs.Noted.{faults_of};
ghost use Rattle.sj_sql_tree.specs.View.{value_of};

use crate::common::common;
use crate::faults::Faults;
use sj_base::{ParseRefusal, boxed};
use sj_sql_grammar::TypeName;
use sj_sql_phrase::optional::value_action;
use sj_sql_phrase::phrase::{exists_clause, query_clauses, returning};
use sj_sql_phrase::single::{Tokens, close, open};
use sj_sql_token::Keyword;
use sj_sql_tree::{ExistsCall, QueryCall, Value, ValueCall};
use sj_value::{ExistsAction, SqlType};
use std::alloc::Global;

/// JSON_EXISTS.
#[tactic(auto, unfolding(sj_sql_grammar::specs::Reading::exists_from))]
pub fn exists(
    alloc: Global,
    faults: Faults,
    tokens: Tokens<'_>,
) -> Result<(Value, Faults, Tokens<'_>), ParseRefusal>
    ensures { Gives (λ x. (value_of x.0, faults_of x.1, x.2.now)) result (reading.exists_from parsing (faults_of faults) tokens.now) }
{
    let Some(rest) = open(tokens) else {
        return Err(ParseRefusal::Syntax);
    };
    let (common, faults, rest) = common(alloc, faults, rest)?;
    let (on_error, rest) = exists_clause(rest).unwrap_or((ExistsAction::False, rest));
    let Some(rest) = close(rest) else {
        return Err(ParseRefusal::Syntax);
    };
    let call = boxed(alloc, ExistsCall { common, on_error })?;
    Ok((Value::Exists(call), faults, rest))
}

/// JSON_VALUE.
#[tactic(auto, unfolding(sj_sql_grammar::specs::Reading::value_from))]
pub fn value(
    alloc: Global,
    faults: Faults,
    tokens: Tokens<'_>,
) -> Result<(Value, Faults, Tokens<'_>), ParseRefusal>
    ensures { Gives (λ x. (value_of x.0, faults_of x.1, x.2.now)) result (reading.value_from parsing (faults_of faults) tokens.now) }
{
    let Some(rest) = open(tokens) else {
        return Err(ParseRefusal::Syntax);
    };
    let (common, faults, rest) = common(alloc, faults, rest)?;
    let (ty, rest) = returning(rest).unwrap_or((TypeName::Known(SqlType::Varchar), rest));
    let (on_empty, rest) = value_action(alloc, Keyword::Empty, rest)?;
    let (on_error, rest) = value_action(alloc, Keyword::Error, rest)?;
    let Some(rest) = close(rest) else {
        return Err(ParseRefusal::Syntax);
    };
    let call = ValueCall {
        common,
        ty,
        on_empty,
        on_error,
    };
    let call = boxed(alloc, call)?;
    Ok((Value::ValueOf(call), faults.with_type(ty), rest))
}

/// JSON_QUERY.
#[tactic(auto, unfolding(sj_sql_grammar::specs::Reading::query_from))]
pub fn query(
    alloc: Global,
    faults: Faults,
    tokens: Tokens<'_>,
) -> Result<(Value, Faults, Tokens<'_>), ParseRefusal>
    ensures { Gives (λ x. (value_of x.0, faults_of x.1, x.2.now)) result (reading.query_from parsing (faults_of faults) tokens.now) }
{
    let Some(rest) = open(tokens) else {
        return Err(ParseRefusal::Syntax);
    };
    let (common, faults, rest) = common(alloc, faults, rest)?;
    let (clauses, rest) = query_clauses(rest);
    let Some(rest) = close(rest) else {
        return Err(ParseRefusal::Syntax);
    };
    let call = boxed(alloc, QueryCall { common, clauses })?;
    Ok((Value::Query(call), faults, rest))
}
