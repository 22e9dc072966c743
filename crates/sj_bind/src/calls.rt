//! The rules on functions that have a path.

ghost use Rattle.std.specs.Prelude.{◌≡◌, IfOk, All};
ghost use Rattle.std.specs.List.{list_any};
ghost use Rattle.sj_sql_tree.specs.View.{common_of, value_call_of};
ghost use Rattle.sj_bind.specs.Parts.{call_common};
ghost use Rattle.sj_bind.specs.PartsView.{call_of, calls_of};
ghost use Rattle.sj_bind.specs.Clauses.{IsBindableType};
ghost use Rattle.sj_bind.specs.Rules as spec;
ghost use Rattle.sj_bind.specs.Bindable.{IsBindableCall};

use crate::clauses::{default_fails, quotes_clash, sql_type};
use crate::parts::Call;
use crate::variables::{lacks_variable, passes_twice};
use sj_base::Memory;
use sj_sql_grammar::{TypeName, ValueDo};
use sj_sql_tree::Common;
use std::alloc::Global;

fn common_of_call<'s>(call: Call<'s>) -> &'s Common
    ensures { common_of result.now ≡ call_common (call_of call.entry) }
{
    match call {
        Call::Exists(call) => &call.common,
        Call::Value(call) => &call.common,
        Call::Query(call) => &call.common,
    }
}

/// Whether a PASSING clause names a variable twice.
pub fn some_passes_twice(alloc: Global, calls: &[Call<'_>]) -> Result<bool, Memory>
    ensures { IfOk result (λ b. b ≡ list_any spec.call_passes_twice (calls_of calls.now)) }
{
    for call in calls {
        if passes_twice(alloc, common_of_call(*call))? {
            return Ok(true);
        }
    }
    Ok(false)
}

/// Whether a path has a variable that its PASSING clause does not name.
pub fn some_lacks_variable(alloc: Global, calls: &[Call<'_>]) -> Result<bool, Memory>
    ensures { IfOk result (λ b. b ≡ list_any spec.call_lacks_variable (calls_of calls.now)) }
{
    for call in calls {
        if lacks_variable(alloc, common_of_call(*call))? {
            return Ok(true);
        }
    }
    Ok(false)
}

fn call_quotes_clash(call: Call<'_>) -> bool
    ensures { result ≡ spec.call_quotes_clash (call_of call.entry) }
{
    match call {
        Call::Exists(_) | Call::Value(_) => false,
        Call::Query(call) => quotes_clash(call.clauses),
    }
}

/// Whether a QUOTES clause stands beside WITH WRAPPER.
pub fn some_quotes_clash(calls: &[Call<'_>]) -> bool
    ensures { result ≡ list_any spec.call_quotes_clash (calls_of calls.now) }
{
    for call in calls {
        if call_quotes_clash(*call) {
            return true;
        }
    }
    false
}

/// Whether a DEFAULT literal, of ON EMPTY or of ON ERROR, cannot be cast to the type.
pub fn defaults_fail(
    alloc: Global,
    ty: TypeName,
    on_empty: &ValueDo,
    on_error: &ValueDo,
) -> Result<bool, Memory>
    requires { IsBindableType ty }
    ensures { IfOk result (λ b. b ≡ spec.defaults_fail ty on_empty.now on_error.now) }
{
    let ty = sql_type(ty);
    if default_fails(alloc, ty, on_empty)? {
        return Ok(true);
    }
    default_fails(alloc, ty, on_error)
}

fn call_default_fails(alloc: Global, call: Call<'_>) -> Result<bool, Memory>
    requires { IsBindableCall (call_of call) }
    ensures { IfOk result (λ b. b ≡ spec.call_default_fails (call_of call.entry)) }
{
    match call {
        Call::Exists(_) | Call::Query(_) => Ok(false),
        Call::Value(call) => defaults_fail(alloc, call.ty, &call.on_empty, &call.on_error),
    }
}

/// Whether a DEFAULT literal cannot be cast to the type of its function.
pub fn some_default_fails(alloc: Global, calls: &[Call<'_>]) -> Result<bool, Memory>
    requires { All IsBindableCall (calls_of calls.now) }
    ensures { IfOk result (λ b. b ≡ list_any spec.call_default_fails (calls_of calls.now)) }
{
    for call in calls {
        if call_default_fails(alloc, *call)? {
            return Ok(true);
        }
    }
    Ok(false)
}
