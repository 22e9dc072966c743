//! The document, the path and the variables of a function or a table.

ghost use Rattle.std.specs.Prelude.{◌≡◌};
ghost use Rattle.sj_base.specs.Gives.{Gives};
ghost use Rattle.sj_sql_grammar.specs.Faults.{parsing};
ghost use Rattle.sj_sql_grammar.specs.Reading as reading;
ghost use Rattle.sj_sql.specs.Noted.{faults_of};
ghost use Rattle.sj_sql_tree.specs.View.{common_of};

use crate::faults::Faults;
use crate::path::path;
use sj_base::{ParseRefusal, Text};
use sj_sql_phrase::document::document;
use sj_sql_phrase::optional::name_of_path;
use sj_sql_phrase::passing::passing;
use sj_sql_phrase::single::{Tokens, comma, string};
use sj_sql_tree::Common;
use std::alloc::Global;

/// Those of a function.
#[tactic(auto, unfolding(sj_sql_grammar::specs::Reading::common_at))]
pub fn common(
    alloc: Global,
    faults: Faults,
    tokens: Tokens<'_>,
) -> Result<(Common, Faults, Tokens<'_>), ParseRefusal>
    ensures { Gives (λ x. (common_of x.0, faults_of x.1, x.2.now)) result (reading.common_at parsing (faults_of faults) tokens.now) }
{
    let Some((encoding, rest)) = document(tokens) else {
        return Err(ParseRefusal::Syntax);
    };
    let Some(rest) = comma(rest) else {
        return Err(ParseRefusal::Syntax);
    };
    let Some((text, rest)) = string(rest) else {
        return Err(ParseRefusal::Syntax);
    };
    let (path, faults) = path(alloc, faults.with_encoding(encoding), text)?;
    let (passing, rest) = passing(alloc, rest)?;
    let common = Common {
        encoding,
        path,
        passing,
    };
    Ok((common, faults, rest))
}

/// Those of a table, and the name of its row path.
#[tactic(auto, unfolding(sj_sql_grammar::specs::Reading::row_path_at))]
pub fn row_path(
    alloc: Global,
    faults: Faults,
    tokens: Tokens<'_>,
) -> Result<((Common, Option<Text>), Faults, Tokens<'_>), ParseRefusal>
    ensures { Gives (λ x. ((common_of x.0.0, x.0.1), faults_of x.1, x.2.now)) result (reading.row_path_at parsing (faults_of faults) tokens.now) }
{
    let Some((encoding, rest)) = document(tokens) else {
        return Err(ParseRefusal::Syntax);
    };
    let Some(rest) = comma(rest) else {
        return Err(ParseRefusal::Syntax);
    };
    let Some((text, rest)) = string(rest) else {
        return Err(ParseRefusal::Syntax);
    };
    let (path, faults) = path(alloc, faults.with_encoding(encoding), text)?;
    let (name, rest) = name_of_path(alloc, rest)?;
    let (passing, rest) = passing(alloc, rest)?;
    let common = Common {
        encoding,
        path,
        passing,
    };
    Ok(((common, name), faults, rest))
}
