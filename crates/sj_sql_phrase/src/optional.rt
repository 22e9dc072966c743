//! Clauses that may be left out, with what they stand for then.

ghost use Rattle.std.specs.Prelude.{◌≡◌, None, option_map};
ghost use Rattle.std.specs.Option.{option_copied};
ghost use Rattle.sj_base.specs.Gives.{Gives};
ghost use Rattle.sj_sql_grammar.specs.Phrases as phrase;
ghost use Rattle.sj_sql_grammar.specs.Reading as reading;
ghost use Rattle.sj_sql_grammar.specs.declared.clauses.ValueDo.TheVariants as on_value;

use crate::literal::value_action_phrase;
use crate::phrase::cause;
use crate::single::{Tokens, name, skip_name, skip_word, word};
use sj_base::{ParseRefusal, Text};
use sj_sql_grammar::ValueDo;
use sj_sql_token::Keyword;
use std::alloc::Global;

/// The action of JSON_VALUE for a cause: NULL, unless a clause says another.
#[tactic(auto, unfolding(sj_sql_grammar::specs::Phrases::value_clause_at))]
pub fn value_action(
    alloc: Global,
    on: Keyword,
    tokens: Tokens<'_>,
) -> Result<(ValueDo, Tokens<'_>), ParseRefusal>
    ensures { Gives (λ x. (x.0, x.1.now)) result (reading.optional (phrase.value_clause_at on) on_value.Null tokens.now) }
{
    match value_action_phrase(alloc, tokens) {
        Ok(read) => {
            let (action, rest) = read;
            match cause(on, rest) {
                Some(rest) => Ok((action, rest)),
                None => Ok((ValueDo::Null, tokens)),
            }
        }
        Err(ParseRefusal::Syntax) => Ok((ValueDo::Null, tokens)),
        Err(ParseRefusal::Memory) => Err(ParseRefusal::Memory),
    }
}

/// The name of a path, if it has one.
#[tactic(auto, unfolding(sj_sql_grammar::specs::Phrases::path_name_at, sj_sql_grammar::specs::Phrases::alias_at))]
pub fn name_of_path(
    alloc: Global,
    tokens: Tokens<'_>,
) -> Result<(Option<Text>, Tokens<'_>), ParseRefusal>
    ensures { Gives (λ x. (x.0, x.1.now)) result (reading.optional phrase.path_name_at None tokens.now) }
{
    let Some(rest) = word(Keyword::As, tokens) else {
        return Ok((None, tokens));
    };
    match name(alloc, rest) {
        Ok(read) => {
            let (name, rest) = read;
            Ok((Some(name), rest))
        }
        Err(ParseRefusal::Syntax) => Ok((None, tokens)),
        Err(ParseRefusal::Memory) => Err(ParseRefusal::Memory),
    }
}

/// What follows a name behind AS, which leaves no trace.
#[tactic(auto, unfolding(sj_sql_grammar::specs::Phrases::alias_at))]
pub fn skip_alias(tokens: Tokens<'_>) -> Tokens<'_>
    ensures { result.now ≡ reading.passed_over phrase.alias_at tokens.now }
{
    let Some(rest) = word(Keyword::As, tokens) else {
        return tokens;
    };
    skip_name(rest).unwrap_or(tokens)
}

/// What follows a name of a table, behind AS or not, which leaves no trace.
#[tactic(auto, unfolding(sj_sql_grammar::specs::Phrases::table_alias_at))]
pub fn skip_table_alias(tokens: Tokens<'_>) -> Tokens<'_>
    ensures { result.now ≡ reading.passed_over phrase.table_alias_at tokens.now }
{
    skip_name(skip_word(Keyword::As, tokens)).unwrap_or(tokens)
}
