// The only item of a path on a context.
ghost use Rattle.std.specs.Prelude.{◌≡◌, ◌≤◌};
ghost use Rattle.sj_base.specs.Count.{raised};
ghost use Rattle.sj_cursor.specs.Answers.{single_value};
ghost use Rattle.sj_func.specs.Functions.{context_value, trace_on, trace_asked, single_on, value_cost};

use crate::context::Context;
use sj_base::{State, Steps};
use sj_cursor::{Cursor, Inquiry};
use sj_item::Item;

// The only item, and `None` where there is none. Several items are 22034, and an error is its state.
#[inline(always)]
pub(crate) fn single_item<'d>(
    cursor: &mut Cursor<'d>,
    context: Context<'d>,
    steps: &mut Steps,
) -> Result<Option<Item<'d>>, State>
    ensures answers { single_value result ≡ single_on cursor.old.path.mode (context_value context.entry) (trace_on cursor.old) }
    ensures costs { steps.new ≤ raised steps.old (value_cost cursor.old.path.mode (context_value context.entry) (trace_on cursor.old)) }
    ensures path { cursor.new.path ≡ cursor.old.path }
    ensures vars { cursor.new.vars ≡ cursor.old.vars }
{
    match context {
        Context::Item(item) => {
            cursor.rewind(item);
            cursor.single(State::S22034, steps)
        }
        Context::Bad(state) => Err(state),
    }
}

// The same by an inquiry.
#[inline(always)]
pub(crate) fn asked_item<'d>(
    inquiry: &mut Inquiry<'d>,
    context: Context<'d>,
    steps: &mut Steps,
) -> Result<Option<Item<'d>>, State>
    ensures answers { single_value result ≡ single_on inquiry.old.path.mode (context_value context.entry) (trace_asked inquiry.old) }
    ensures costs { steps.new ≤ raised steps.old (value_cost inquiry.old.path.mode (context_value context.entry) (trace_asked inquiry.old)) }
    ensures path { inquiry.new.path ≡ inquiry.old.path }
    ensures vars { inquiry.new.vars ≡ inquiry.old.vars }
{
    match context {
        Context::Item(item) => inquiry.single(item, State::S22034, steps),
        Context::Bad(state) => Err(state),
    }
}
