// JSON_QUERY as a field of a row.
ghost use Rattle.std.specs.Prelude.{◌≡◌, ◌≤◌, ◌+◌, ◌∷◌};
ghost use Rattle.sj_base.specs.Count.{raised};
ghost use Rattle.sj_item.specs.Items.{item_value, nodes_below};
ghost use Rattle.sj_step.specs.Trace.{items, visits, fault_of};
ghost use Rattle.sj_func.specs.Fields.{AppendsOutcome};
ghost use Rattle.sj_func.specs.Functions.{context_value, trace_on, query_error, query_outcome, query_cost, query_items as items_of, query_all as query_all_of, query_all_cost, all_below};

use crate::context::Context;
use crate::field::outcome_field;
use crate::query::{given, json_query};
use crate::texts::rest_text;
use sj_base::{Bytes, Memory, State, Steps};
use sj_cursor::Cursor;
use sj_item::{Item, Pull};
use sj_rows::escape_from;
use sj_text::item_text;
use sj_value::{QueryAction, QuerySpec, Wrapper};
use std::alloc::Global;

/// JSON_QUERY as a field: appends a TAB and the field of the value that [`json_query`](crate::json_query) gives, or gives
/// the state that it raises. The array of an unconditional wrapper is printed where the field stands.
///
/// What is said there of the cursor and of the counter holds here too.
///
/// # Errors
/// [`Memory`] where memory runs out. What stood in `out` stays, and something may stand behind it.
#[inline(always)]
#[tactic(auto, unfolding(crate::specs::Functions::query_outcome, crate::specs::Functions::query_cost))]
pub fn json_query_field<'d>(
    alloc: Global,
    cursor: &mut Cursor<'d>,
    context: Context<'d>,
    spec: &QuerySpec,
    out: &mut Bytes,
    steps: &mut Steps,
) -> Result<Option<State>, Memory>
    ensures appends { AppendsOutcome (query_outcome spec.now cursor.old.path.mode (context_value context.entry) (trace_on cursor.old)) result out.old out.new }
    ensures costs { steps.new ≤ raised steps.old (query_cost spec.now.wrapper cursor.old.path.mode (context_value context.entry) (trace_on cursor.old)) }
    ensures path { cursor.new.path ≡ cursor.old.path }
    ensures vars { cursor.new.vars ≡ cursor.old.vars }
{
    match spec.wrapper {
        Wrapper::Unconditional => all_field(alloc, cursor, context, spec, out, steps),
        Wrapper::Without | Wrapper::Conditional => {
            any_field(alloc, cursor, context, spec, out, steps)
        }
    }
}

// The field of the value, which is made first.
#[inline(always)]
fn any_field<'d>(
    alloc: Global,
    cursor: &mut Cursor<'d>,
    context: Context<'d>,
    spec: &QuerySpec,
    out: &mut Bytes,
    steps: &mut Steps,
) -> Result<Option<State>, Memory>
    ensures appends { AppendsOutcome (query_outcome spec.now cursor.old.path.mode (context_value context.entry) (trace_on cursor.old)) result out.old out.new }
    ensures costs { steps.new ≤ raised steps.old (query_cost spec.now.wrapper cursor.old.path.mode (context_value context.entry) (trace_on cursor.old)) }
    ensures path { cursor.new.path ≡ cursor.old.path }
    ensures vars { cursor.new.vars ≡ cursor.old.vars }
{
    let outcome = json_query(alloc, cursor, context, spec, steps)?;
    outcome_field(out, &outcome)
}

// With an unconditional wrapper.
#[inline(always)]
fn all_field<'d>(
    alloc: Global,
    cursor: &mut Cursor<'d>,
    context: Context<'d>,
    spec: &QuerySpec,
    out: &mut Bytes,
    steps: &mut Steps,
) -> Result<Option<State>, Memory>
    requires { spec.now.wrapper ≡ Wrapper.Unconditional }
    ensures appends { AppendsOutcome (query_all_of spec.now (context_value context.entry) (trace_on cursor.old)) result out.old out.new }
    ensures costs { steps.new ≤ raised steps.old (query_all_cost (context_value context.entry) (trace_on cursor.old)) }
    ensures path { cursor.new.path ≡ cursor.old.path }
    ensures vars { cursor.new.vars ≡ cursor.old.vars }
{
    match context {
        Context::Item(item) => {
            cursor.rewind(item);
            items_field(alloc, cursor, spec, out, steps)
        }
        Context::Bad(state) => given_field(alloc, out, spec.on_error, state),
    }
}

// The array of all items that the cursor has left.
#[inline(always)]
fn items_field<'d>(
    alloc: Global,
    cursor: &mut Cursor<'d>,
    spec: &QuerySpec,
    out: &mut Bytes,
    steps: &mut Steps,
) -> Result<Option<State>, Memory>
    requires { spec.now.wrapper ≡ Wrapper.Unconditional }
    ensures appends { AppendsOutcome (items_of spec.now (fault_of cursor.old.left) (items cursor.old.left)) result out.old out.new }
    ensures costs { steps.new ≤ raised steps.old (visits cursor.old.left + all_below (items cursor.old.left)) }
    ensures path { cursor.new.path ≡ cursor.old.path }
    ensures vars { cursor.new.vars ≡ cursor.old.vars }
{
    match cursor.next(steps) {
        Pull::Item(first) => some_field(alloc, first, cursor, spec, out, steps),
        Pull::End => given_field(alloc, out, spec.on_empty, State::S22035),
        Pull::Fault(state) => given_field(alloc, out, spec.on_error, state),
    }
}

// The array of the first item and all that the cursor has left. It is printed where the field stands.
#[inline(always)]
fn some_field<'d>(
    alloc: Global,
    first: Item<'d>,
    cursor: &mut Cursor<'d>,
    spec: &QuerySpec,
    out: &mut Bytes,
    steps: &mut Steps,
) -> Result<Option<State>, Memory>
    requires { spec.now.wrapper ≡ Wrapper.Unconditional }
    ensures appends { AppendsOutcome (items_of spec.now (fault_of cursor.old.left) (item_value first.entry ∷ items cursor.old.left)) result out.old out.new }
    ensures costs { steps.new ≤ raised steps.old (nodes_below (item_value first.entry) + (visits cursor.old.left + all_below (items cursor.old.left))) }
    ensures path { cursor.new.path ≡ cursor.old.path }
    ensures vars { cursor.new.vars ≡ cursor.old.vars }
{
    let start = out.len();
    out.push(b"\t[")?;
    let field = out.len() - 1;
    item_text(first, out, steps)?;
    let rest = rest_text(cursor, out, steps)?;
    if let Some(state) = rest.fault {
        out.truncate(start);
        return given_field(alloc, out, spec.on_error, state);
    }
    out.push(b"]")?;
    escape_from(alloc, out, field)?;
    Ok(None)
}

// The field of what ON EMPTY or ON ERROR gives, where ERROR raises this state.
#[inline(never)]
fn given_field(
    alloc: Global,
    out: &mut Bytes,
    action: QueryAction,
    state: State,
) -> Result<Option<State>, Memory>
    ensures { AppendsOutcome (query_error action state) result out.old out.new }
{
    let outcome = given(alloc, action, state)?;
    outcome_field(out, &outcome)
}
