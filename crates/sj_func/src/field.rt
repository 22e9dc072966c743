// What a query function gives, as a field of a row.
ghost use Rattle.std.specs.Prelude.{◌≡◌, ◌≤◌};
ghost use Rattle.sj_base.specs.Count.{raised};
ghost use Rattle.sj_value.specs.Clauses.{GivesPrintable, IsValueSpec};
ghost use Rattle.sj_func.specs.Fields.{AppendsOutcome};
ghost use Rattle.sj_func.specs.Functions.{context_value, trace_asked, value_error, value_cost, value_outcome, IsPrinted};

use crate::context::{Context, Outcome};
use crate::single::asked_item;
use sj_base::{Bytes, Memory, State, Steps};
use sj_cursor::Inquiry;
use sj_rows::{tabbed_cast, tabbed_text};
use sj_value::{CastRefusal, SqlValue, ValueAction, ValueSpec};
use std::alloc::Global;

/// Appends a TAB and the field of the value of an outcome, or gives the state that it raises.
///
/// # Errors
/// [`Memory`] where memory runs out. What stood in `out` stays, and something may stand behind it.
#[inline(always)]
pub fn outcome_field(out: &mut Bytes, outcome: &Outcome) -> Result<Option<State>, Memory>
    requires { IsPrinted outcome.now }
    ensures { AppendsOutcome outcome.now result out.old out.new }
{
    match outcome {
        Outcome::Value(value) => {
            tabbed_text(out, value)?;
            Ok(None)
        }
        Outcome::Raised(state) => Ok(Some(*state)),
    }
}

/// JSON_VALUE as a field: appends a TAB and the field of the value that [`json_value`](crate::json_value) gives, or
/// gives the state that it raises. No value is made on the way where the bytes of the field stand in the document.
///
/// What is said there of the inquiry and of the counter holds here too.
///
/// # Errors
/// [`Memory`] where memory runs out. What stood in `out` stays, and something may stand behind it.
#[inline(always)]
pub fn json_value_field<'d>(
    alloc: Global,
    inquiry: &mut Inquiry<'d>,
    context: Context<'d>,
    spec: &ValueSpec,
    out: &mut Bytes,
    steps: &mut Steps,
) -> Result<Option<State>, Memory>
    requires { IsValueSpec spec.now }
    ensures appends { AppendsOutcome (value_outcome spec.now inquiry.old.path.mode (context_value context.entry) (trace_asked inquiry.old)) result out.old out.new }
    ensures costs { steps.new ≤ raised steps.old (value_cost inquiry.old.path.mode (context_value context.entry) (trace_asked inquiry.old)) }
    ensures path { inquiry.new.path ≡ inquiry.old.path }
    ensures vars { inquiry.new.vars ≡ inquiry.old.vars }
{
    match asked_item(inquiry, context, steps) {
        Ok(Some(item)) => match tabbed_cast(alloc, out, item, spec.ty) {
            Ok(()) => Ok(None),
            Err(CastRefusal::State(state)) => rare_field(out, &spec.on_error, state),
            Err(CastRefusal::Memory) => Err(Memory),
        },
        Ok(None) => rare_field(out, &spec.on_empty, State::S22035),
        Err(state) => rare_field(out, &spec.on_error, state),
    }
}

// `action_field`, from where it is rarely called. The place in memory for its answer is cleared here, and not on the other ways.
// Put together anew, the answer leaves those of the other ways in registers.
#[inline(always)]
fn rare_field(out: &mut Bytes, action: &ValueAction, state: State) -> Result<Option<State>, Memory>
    requires { GivesPrintable action.now }
    ensures { AppendsOutcome (value_error action.now state) result out.old out.new }
{
    match action_field(out, action, state) {
        Ok(None) => Ok(None),
        Ok(Some(raised)) => Ok(Some(raised)),
        Err(memory) => Err(memory),
    }
}

// The field of what ON EMPTY or ON ERROR gives, where ERROR raises this state.
#[inline(never)]
fn action_field(
    out: &mut Bytes,
    action: &ValueAction,
    state: State,
) -> Result<Option<State>, Memory>
    requires { GivesPrintable action.now }
    ensures { AppendsOutcome (value_error action.now state) result out.old out.new }
{
    match action {
        ValueAction::Error => return Ok(Some(state)),
        ValueAction::Null => tabbed_text(out, &SqlValue::Null)?,
        ValueAction::Default(value) => tabbed_text(out, value)?,
    }
    Ok(None)
}
