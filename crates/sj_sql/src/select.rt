//! Statements.

ghost use Rattle.std.specs.Prelude.{◌≡◌};
ghost use Rattle.sj_base.specs.Gives.{Gives};
ghost use Rattle.sj_sql_grammar.specs.Faults.{parsing, nothing_noted};
ghost use Rattle.sj_sql_grammar.specs.Reading as reading;
ghost use Rattle.sj_sql.specs.Noted.{faults_of};
ghost use Rattle.sj_sql_tree.specs.View.{statement_of};
ghost use Rattle.sj_sql.specs.Words as words;

use crate::faults::Faults;
use crate::item::{listed_items, plain_items};
use crate::table::table;
use sj_base::ParseRefusal;
use sj_sql_phrase::single::{Tokens, same, star, word};
use sj_sql_token::{Keyword, Token};
use sj_sql_tree::Statement;
use std::alloc::Global;

/// Whether a token is the word FROM.
fn is_from(token: &Token<'_>) -> bool
    ensures { result ≡ words.is_from token.now }
{
    match token {
        Token::Word(found, _) => same(*found, Keyword::From),
        _ => false,
    }
}

/// Whether the word FROM stands somewhere.
fn has_from(tokens: Tokens<'_>) -> bool
    ensures { result ≡ reading.has_from tokens.now }
{
    for token in tokens {
        if is_from(token) {
            return true;
        }
    }
    false
}

/// A statement, if no tokens are left behind it.
fn ended(
    statement: Statement,
    faults: Faults,
    rest: Tokens<'_>,
) -> Result<(Statement, Faults), ParseRefusal>
    ensures { Gives (λ x. (statement_of x.0, faults_of x.1)) result (reading.ended parsing (statement_of statement) (faults_of faults) rest.now) }
{
    match rest {
        [] => Ok((statement, faults)),
        _ => Err(ParseRefusal::Syntax),
    }
}

/// The table of a statement that selects all of its columns, behind the star.
#[tactic(auto, unfolding(sj_sql_grammar::specs::Reading::all_at))]
fn all(
    alloc: Global,
    faults: Faults,
    tokens: Tokens<'_>,
) -> Result<(Statement, Faults), ParseRefusal>
    ensures { Gives (λ x. (statement_of x.0, faults_of x.1)) result (reading.all_at parsing (faults_of faults) tokens.now) }
{
    let Some(rest) = word(Keyword::From, tokens) else {
        return Err(ParseRefusal::Syntax);
    };
    let (table, faults, rest) = table(alloc, faults, rest)?;
    ended(Statement::All(table), faults, rest)
}

/// The items and the table of a statement.
#[tactic(auto, unfolding(sj_sql_grammar::specs::Reading::listed_at))]
fn listed(
    alloc: Global,
    faults: Faults,
    tokens: Tokens<'_>,
) -> Result<(Statement, Faults), ParseRefusal>
    ensures { Gives (λ x. (statement_of x.0, faults_of x.1)) result (reading.listed_at parsing (faults_of faults) tokens.now) }
{
    let (items, faults, rest) = listed_items(alloc, faults, tokens)?;
    let Some(rest) = word(Keyword::From, rest) else {
        return Err(ParseRefusal::Syntax);
    };
    let (table, faults, rest) = table(alloc, faults, rest)?;
    ended(Statement::Listed(items, table), faults, rest)
}

/// The values of a statement without a table.
#[tactic(auto, unfolding(sj_sql_grammar::specs::Reading::plain_at))]
fn plain(
    alloc: Global,
    faults: Faults,
    tokens: Tokens<'_>,
) -> Result<(Statement, Faults), ParseRefusal>
    ensures { Gives (λ x. (statement_of x.0, faults_of x.1)) result (reading.plain_at parsing (faults_of faults) tokens.now) }
{
    let (items, faults, rest) = plain_items(alloc, faults, tokens)?;
    ended(Statement::Plain(items), faults, rest)
}

/// The tree of a statement's tokens, without its semicolon, and what is noted of it.
///
/// It takes time linear in the tokens, and recurs only over parentheses, which the caller has to bound.
#[tactic(auto, unfolding(sj_sql_grammar::specs::Reading::select_at))]
pub fn select(alloc: Global, tokens: Tokens<'_>) -> Result<(Statement, Faults), ParseRefusal>
    ensures { Gives (λ x. (statement_of x.0, faults_of x.1)) result (reading.select_at parsing nothing_noted tokens.now) }
{
    let Some(rest) = word(Keyword::Select, tokens) else {
        return Err(ParseRefusal::Syntax);
    };
    if let Some(rest) = star(rest) {
        return all(alloc, Faults::none(), rest);
    }
    if has_from(rest) {
        listed(alloc, Faults::none(), rest)
    } else {
        plain(alloc, Faults::none(), rest)
    }
}
