//! JSON_TABLE.

ghost use Rattle.std.specs.Prelude.{◌≡◌};
ghost use Rattle.sj_base.specs.Gives.{Gives};
ghost use Rattle.sj_sql_grammar.specs.Faults.{parsing};
ghost use Rattle.sj_sql_grammar.specs.Reading as reading;
ghost use Rattle.sj_sql.specs.Noted.{faults_of};
ghost use Rattle.sj_sql_tree.specs.View.{table_of};

use crate::column::columns;
use crate::common::row_path;
use crate::faults::Faults;
use sj_base::ParseRefusal;
use sj_sql_phrase::optional::skip_table_alias;
use sj_sql_phrase::phrase::table_clause;
use sj_sql_phrase::plan::plan;
use sj_sql_phrase::single::{Tokens, close, open, word};
use sj_sql_token::Keyword;
use sj_sql_tree::Table;
use sj_value::TableAction;
use std::alloc::Global;

/// A table, and the name that leaves no trace.
#[tactic(auto, unfolding(sj_sql_grammar::specs::Reading::table_at))]
pub fn table(
    alloc: Global,
    faults: Faults,
    tokens: Tokens<'_>,
) -> Result<(Table, Faults, Tokens<'_>), ParseRefusal>
    ensures { Gives (λ x. (table_of x.0, faults_of x.1, x.2.now)) result (reading.table_at parsing (faults_of faults) tokens.now) }
{
    let Some(rest) = word(Keyword::JsonTable, tokens) else {
        return Err(ParseRefusal::Syntax);
    };
    let Some(rest) = open(rest) else {
        return Err(ParseRefusal::Syntax);
    };
    let ((common, name), faults, rest) = row_path(alloc, faults, rest)?;
    let (columns, faults, rest) = columns(alloc, rest.len() + 1, faults, rest)?;
    let (plan, rest) = plan(alloc, rest)?;
    let (on_error, rest) = table_clause(rest).unwrap_or((TableAction::Empty, rest));
    let Some(rest) = close(rest) else {
        return Err(ParseRefusal::Syntax);
    };
    let table = Table {
        common,
        name,
        columns,
        plan,
        on_error,
    };
    Ok((table, faults, skip_table_alias(rest)))
}
