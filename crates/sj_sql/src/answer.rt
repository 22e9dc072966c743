//! The answer of one statement.

ghost use Rattle.sj_sql.specs.File.{IsAnswered};

use crate::select::select;
use sj_base::ParseRefusal;
use sj_sql_grammar::FileKind;
use sj_sql_phrase::depth::too_deep;
use sj_sql_phrase::single::Tokens;
use sj_sql_tree::Statement;
use std::alloc::Global;

/// Why a statement is not taken.
#[derive(Drop)]
pub enum Refused {
    /// The statement is refused.
    For(FileKind),
    /// Memory ran out.
    Memory,
}

/// The statement that the tokens spell, or the first reason to refuse it: they have no tree, a path text has a fault, or a part is
/// lacking.
pub fn answer(alloc: Global, tokens: Tokens<'_>) -> Result<Statement, Refused>
    ensures { IsAnswered tokens.now result }
{
    if too_deep(tokens) {
        return Err(Refused::For(FileKind::Syntax));
    }
    match select(alloc, tokens) {
        Ok((statement, faults)) => match faults.path {
            Some(fault) => Err(Refused::For(fault)),
            None => match faults.unsupported {
                Some(name) => Err(Refused::For(FileKind::Unsupported(name))),
                None => Ok(statement),
            },
        },
        Err(ParseRefusal::Syntax) => Err(Refused::For(FileKind::Syntax)),
        Err(ParseRefusal::Memory) => Err(Refused::Memory),
    }
}
