//! The variables of a PASSING clause.

ghost use Rattle.std.specs.Prelude.{◌≡◌, ◌++◌, ◌∷◌, [], length, OnOk, OnErr};
ghost use Rattle.sj_base.specs.Gives.{Gives};
ghost use Rattle.sj_sql_grammar.specs.Phrases as phrase;
ghost use Rattle.sj_sql_grammar.specs.Reading as reading;

use crate::literal::passed;
use crate::single::{Rest, Tokens, comma, word};
use sj_base::{Memory, ParseRefusal};
use sj_sql_grammar::Passed;
use sj_sql_token::Keyword;
use sj_sql_tree::Seq;
use std::alloc::Global;

/// Puts a value at the end of a sequence. Where memory runs out, or the sequence has 2^32 - 1 values, which is as many as one may
/// have, the sequence stays as it is and the value is given up.
pub fn put<T: Drop>(values: &mut Seq<T>, value: T) -> Result<(), Memory>
    ensures ok { OnOk result (values.new ≡ values.old ++ value ∷ []) }
    ensures err { OnErr result (values.new ≡ values.old) }
{
    if values.len() == u32::MAX {
        return Err(Memory);
    }
    values.push(value)
}

/// Variables with commas between them.
#[tactic(auto, unfolding(sj_sql_grammar::specs::Reading::list_from))]
fn variables(alloc: Global, tokens: Tokens<'_>) -> Result<(Seq<Passed>, Tokens<'_>), ParseRefusal>
    ensures { Gives (λ x. (x.0, x.1.now)) result (reading.list_from phrase.passed_at (length tokens.now) tokens.now) }
{
    let mut variables = Seq::new(alloc);
    let mut left = Rest { tokens };
    for _turn in 0..tokens.len() {
        let (variable, after) = passed(alloc, left.tokens)?;
        put(&mut variables, variable)?;
        let Some(next) = comma(after) else {
            return Ok((variables, after));
        };
        left = Rest { tokens: next };
    }
    Err(ParseRefusal::Syntax)
}

/// The variables of a PASSING clause, or none where there is no clause.
#[tactic(auto, unfolding(sj_sql_grammar::specs::Reading::passing_at))]
pub fn passing(alloc: Global, tokens: Tokens<'_>) -> Result<(Seq<Passed>, Tokens<'_>), ParseRefusal>
    ensures { Gives (λ x. (x.0, x.1.now)) result (reading.passing_at tokens.now) }
{
    match word(Keyword::Passing, tokens) {
        Some(rest) => variables(alloc, rest),
        None => Ok((Seq::new(alloc), tokens)),
    }
}
