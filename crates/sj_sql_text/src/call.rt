//! The pieces of the functions on the document.

ghost use Rattle.std.specs.Prelude.{OnOk};
ghost use Rattle.sj_sql_tree.specs.View.{exists_of, value_call_of, query_of};
ghost use Rattle.sj_sql_text.specs.Adds.{Adds};
ghost use Rattle.sj_sql_text.specs.Statements as spec;

use crate::phrase::{common, exists_clause, query_clauses, returning, value_clauses};
use crate::pieces::Pieces;
use sj_base::Memory;
use sj_sql_tree::{ExistsCall, QueryCall, ValueCall};

pub(crate) fn exists<'a>(call: &'a ExistsCall, out: &mut Pieces<'a>) -> Result<(), Memory>
    ensures { OnOk result (Adds out.old out.new (spec.exists_on (exists_of call.now))) }
{
    out.call("JSON_EXISTS")?;
    common(&call.common, out)?;
    exists_clause(call.on_error, out)?;
    out.close()
}

pub(crate) fn value<'a>(call: &'a ValueCall, out: &mut Pieces<'a>) -> Result<(), Memory>
    ensures { OnOk result (Adds out.old out.new (spec.value_call_on (value_call_of call.now))) }
{
    out.call("JSON_VALUE")?;
    common(&call.common, out)?;
    returning(call.ty, out)?;
    value_clauses(&call.on_empty, &call.on_error, out)?;
    out.close()
}

pub(crate) fn query<'a>(call: &'a QueryCall, out: &mut Pieces<'a>) -> Result<(), Memory>
    ensures { OnOk result (Adds out.old out.new (spec.query_on (query_of call.now))) }
{
    out.call("JSON_QUERY")?;
    common(&call.common, out)?;
    query_clauses(call.clauses, out)?;
    out.close()
}
