// JSON_VALUE.
ghost use Rattle.std.specs.Prelude.{◌≡◌, ◌≤◌, IfOk};
ghost use Rattle.sj_base.specs.Count.{raised};
ghost use Rattle.sj_item.specs.Items.{item_value};
ghost use Rattle.sj_value.specs.Casts.{cast_of};
ghost use Rattle.sj_value.specs.Clauses.{GivesPrintable, IsValueSpec};
ghost use Rattle.sj_func.specs.Functions.{context_value, trace_asked, value_error, value_empty, value_cast, value_outcome, value_cost, IsPrinted};

use crate::context::{Context, Outcome};
use crate::single::asked_item;
use sj_base::{Memory, State, Steps};
use sj_cursor::Inquiry;
use sj_item::Item;
use sj_value::{CastRefusal, SqlValue, ValueAction, ValueSpec, cast, copy};
use std::alloc::Global;

/// JSON_VALUE: the only item that the path gives on the context item, as a value of the type of RETURNING (ISO/IEC
/// 9075-2, JSON value function).
///
/// No item is ON EMPTY. Several items are the error 22034, a fault of the path is an error, and so is an item that the
/// cast refuses. In lax mode the second item decides before a later fault, and nothing is asked behind it; in strict
/// mode a fault anywhere decides first. An error is ON ERROR. Each of the two gives NULL or a copy of its DEFAULT, or
/// with ERROR raises a state: ON EMPTY raises 22035, which ON ERROR does not see, and ON ERROR that of the error.
///
/// The path and the variables of the inquiry stay. The counter rises by no more than the children of nodes that are
/// handed out before the second item, in strict mode by no more than all of them, and not at all on a bad context. A
/// value that is given can be printed.
///
/// Example: on `{"a":[1,2],"b":"x"}` the path `$.b` gives `x`, `$.c` is ON EMPTY, and `$.a[*]` is the error 22034
/// (`sj_row_tests::examples::query_functions`).
///
/// # Errors
/// [`Memory`] where memory runs out. What is said of the inquiry and of the counter holds then too.
#[inline(always)]
pub fn json_value<'d>(
    alloc: Global,
    inquiry: &mut Inquiry<'d>,
    context: Context<'d>,
    spec: &ValueSpec,
    steps: &mut Steps,
) -> Result<Outcome, Memory>
    requires { IsValueSpec spec.now }
    ensures outcome { IfOk result (λ o. o ≡ value_outcome spec.now inquiry.old.path.mode (context_value context.entry) (trace_asked inquiry.old)) }
    ensures printable { IfOk result IsPrinted }
    ensures costs { steps.new ≤ raised steps.old (value_cost inquiry.old.path.mode (context_value context.entry) (trace_asked inquiry.old)) }
    ensures path { inquiry.new.path ≡ inquiry.old.path }
    ensures vars { inquiry.new.vars ≡ inquiry.old.vars }
{
    match asked_item(inquiry, context, steps) {
        Ok(Some(item)) => cast_item(alloc, item, spec),
        Ok(None) => given(alloc, &spec.on_empty, State::S22035),
        Err(state) => given(alloc, &spec.on_error, state),
    }
}

// The item as a value of the type.
#[inline(always)]
fn cast_item<'d>(alloc: Global, item: Item<'d>, spec: &ValueSpec) -> Result<Outcome, Memory>
    requires { IsValueSpec spec.now }
    ensures outcome { IfOk result (λ o. o ≡ value_cast spec.now.on_error (cast_of (item_value item.entry) spec.now.ty)) }
    ensures printable { IfOk result IsPrinted }
{
    match cast(alloc, item, spec.ty) {
        Ok(value) => Ok(Outcome::Value(value)),
        Err(CastRefusal::State(state)) => given(alloc, &spec.on_error, state),
        Err(CastRefusal::Memory) => Err(Memory),
    }
}

// What ON EMPTY or ON ERROR gives, where ERROR raises this state.
fn given(alloc: Global, action: &ValueAction, state: State) -> Result<Outcome, Memory>
    requires { GivesPrintable action.now }
    ensures outcome { IfOk result (λ o. o ≡ value_error action.now state) }
    ensures printable { IfOk result IsPrinted }
{
    Ok(match action {
        ValueAction::Error => Outcome::Raised(state),
        ValueAction::Null => Outcome::Value(SqlValue::Null),
        ValueAction::Default(value) => Outcome::Value(copy(alloc, value)?),
    })
}
