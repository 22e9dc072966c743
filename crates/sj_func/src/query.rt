// JSON_QUERY.
ghost use Rattle.std.specs.Prelude.{◌≡◌, ◌≤◌, ◌+◌, ◌∷◌, IfOk};
ghost use Rattle.sj_base.specs.Count.{raised};
ghost use Rattle.sj_item.specs.Items.{item_value, item_tree, nodes_below};
ghost use Rattle.sj_step.specs.Trace.{items, visits, fault_of};
ghost use Rattle.sj_func.specs.Functions.{context_value, trace_on, single_on, query_error, query_given, query_items as items_of, query_all as query_all_of, query_outcome, query_cost, query_one_cost, query_all_cost, all_below, IsPrinted};

use crate::context::{Context, Outcome};
use crate::single::single_item;
use crate::texts::{closed, empty_text, rest_text, single_value, stays};
use sj_base::{Bytes, Memory, State, Steps};
use sj_cursor::Cursor;
use sj_item::{Item, Pull, kind};
use sj_text::item_text;
use sj_value::{QueryAction, QuerySpec, SqlValue, Wrapper};
use std::alloc::Global;

/// JSON_QUERY: what the path gives on the context item, as a JSON value (ISO/IEC 9075-2, JSON query).
///
/// Without a wrapper it is the printed text of the only item: several items are the error 22034, and which of several
/// items and a fault decides is as in [`json_value`](crate::json_value). OMIT QUOTES gives the text of a string in
/// place of its JSON text. With a wrapper all items are asked, a fault anywhere is an error, and the value is the array
/// of the items; a conditional wrapper leaves a single array or object as it is.
///
/// No item is ON EMPTY, and an error is ON ERROR. Each of the two gives NULL, an empty array or an empty object, or
/// with ERROR raises a state: ON EMPTY raises 22035, which ON ERROR does not see, and ON ERROR that of the error.
///
/// The cursor is rewound, wherever it stood, and then stands anywhere; its path and its variables stay. The counter
/// rises by no more than the children of nodes that are handed out on the way, as in `json_value` or with a wrapper all
/// of them, and the nodes below each item that is printed; and not at all on a bad context.
///
/// Example: on `{"a":[1,2],"b":"x"}` the path `$.a[*]` gives `[1,2]` with a wrapper
/// (`sj_row_tests::examples::query_functions`).
///
/// # Errors
/// [`Memory`] where memory runs out. What is said of the cursor and of the counter holds then too.
#[tactic(auto, unfolding(crate::specs::Functions::query_outcome, crate::specs::Functions::query_cost))]
pub fn json_query<'d>(
    alloc: Global,
    cursor: &mut Cursor<'d>,
    context: Context<'d>,
    spec: &QuerySpec,
    steps: &mut Steps,
) -> Result<Outcome, Memory>
    ensures outcome { IfOk result (λ o. o ≡ query_outcome spec.now cursor.old.path.mode (context_value context.entry) (trace_on cursor.old)) }
    ensures printable { IfOk result IsPrinted }
    ensures costs { steps.new ≤ raised steps.old (query_cost spec.now.wrapper cursor.old.path.mode (context_value context.entry) (trace_on cursor.old)) }
    ensures path { cursor.new.path ≡ cursor.old.path }
    ensures vars { cursor.new.vars ≡ cursor.old.vars }
{
    match spec.wrapper {
        Wrapper::Without => query_one(alloc, cursor, context, spec, steps),
        Wrapper::Conditional | Wrapper::Unconditional => {
            query_all(alloc, cursor, context, spec, steps)
        }
    }
}

// Without a wrapper.
fn query_one<'d>(
    alloc: Global,
    cursor: &mut Cursor<'d>,
    context: Context<'d>,
    spec: &QuerySpec,
    steps: &mut Steps,
) -> Result<Outcome, Memory>
    ensures outcome { IfOk result (λ o. o ≡ query_given spec.now (single_on cursor.old.path.mode (context_value context.entry) (trace_on cursor.old))) }
    ensures printable { IfOk result IsPrinted }
    ensures costs { steps.new ≤ raised steps.old (query_one_cost cursor.old.path.mode (context_value context.entry) (trace_on cursor.old)) }
    ensures path { cursor.new.path ≡ cursor.old.path }
    ensures vars { cursor.new.vars ≡ cursor.old.vars }
{
    match single_item(cursor, context, steps) {
        Ok(Some(item)) => Ok(Outcome::Value(single_value(alloc, item, spec.omit_quotes, steps)?)),
        Ok(None) => given(alloc, spec.on_empty, State::S22035),
        Err(state) => given(alloc, spec.on_error, state),
    }
}

// With a wrapper.
fn query_all<'d>(
    alloc: Global,
    cursor: &mut Cursor<'d>,
    context: Context<'d>,
    spec: &QuerySpec,
    steps: &mut Steps,
) -> Result<Outcome, Memory>
    ensures outcome { IfOk result (λ o. o ≡ query_all_of spec.now (context_value context.entry) (trace_on cursor.old)) }
    ensures printable { IfOk result IsPrinted }
    ensures costs { steps.new ≤ raised steps.old (query_all_cost (context_value context.entry) (trace_on cursor.old)) }
    ensures path { cursor.new.path ≡ cursor.old.path }
    ensures vars { cursor.new.vars ≡ cursor.old.vars }
{
    match context {
        Context::Item(item) => {
            cursor.rewind(item);
            query_items(alloc, cursor, spec, steps)
        }
        Context::Bad(state) => given(alloc, spec.on_error, state),
    }
}

// All items that the cursor has left.
fn query_items<'d>(
    alloc: Global,
    cursor: &mut Cursor<'d>,
    spec: &QuerySpec,
    steps: &mut Steps,
) -> Result<Outcome, Memory>
    ensures outcome { IfOk result (λ o. o ≡ items_of spec.now (fault_of cursor.old.left) (items cursor.old.left)) }
    ensures printable { IfOk result IsPrinted }
    ensures costs { steps.new ≤ raised steps.old (visits cursor.old.left + all_below (items cursor.old.left)) }
    ensures path { cursor.new.path ≡ cursor.old.path }
    ensures vars { cursor.new.vars ≡ cursor.old.vars }
{
    match cursor.next(steps) {
        Pull::Item(first) => query_some(alloc, first, cursor, spec, steps),
        Pull::End => given(alloc, spec.on_empty, State::S22035),
        Pull::Fault(state) => given(alloc, spec.on_error, state),
    }
}

// The first item, and all that the cursor has left.
fn query_some<'d>(
    alloc: Global,
    first: Item<'d>,
    cursor: &mut Cursor<'d>,
    spec: &QuerySpec,
    steps: &mut Steps,
) -> Result<Outcome, Memory>
    ensures outcome { IfOk result (λ o. o ≡ items_of spec.now (fault_of cursor.old.left) (item_value first.entry ∷ items cursor.old.left)) }
    ensures printable { IfOk result IsPrinted }
    ensures costs { steps.new ≤ raised steps.old (nodes_below (item_value first.entry) + (visits cursor.old.left + all_below (items cursor.old.left))) }
    ensures path { cursor.new.path ≡ cursor.old.path }
    ensures vars { cursor.new.vars ≡ cursor.old.vars }
{
    let mut text = empty_text(alloc)?;
    text.push(b"[")?;
    item_text(first, &mut text, steps)?;
    let rest = rest_text(cursor, &mut text, steps)?;
    match rest.fault {
        Some(state) => given(alloc, spec.on_error, state),
        None => {
            let alone = stays(spec.wrapper, kind(first), rest.some);
            Ok(Outcome::Value(SqlValue::Json(closed(text, alone)?)))
        }
    }
}

// What ON EMPTY or ON ERROR gives, where ERROR raises this state.
pub(crate) fn given(alloc: Global, action: QueryAction, state: State) -> Result<Outcome, Memory>
    ensures outcome { IfOk result (λ o. o ≡ query_error action state) }
    ensures printable { IfOk result IsPrinted }
{
    Ok(match action {
        QueryAction::Error => Outcome::Raised(state),
        QueryAction::Null => Outcome::Value(SqlValue::Null),
        QueryAction::EmptyArray => Outcome::Value(json(alloc, b"[]")?),
        QueryAction::EmptyObject => Outcome::Value(json(alloc, b"{}")?),
    })
}

fn json(alloc: Global, text: &[u8]) -> Result<SqlValue, Memory>
    ensures { IfOk result (λ v. v ≡ SqlValue.Json text.now) }
{
    let mut bytes = Bytes::new(alloc);
    bytes.push(text)?;
    Ok(SqlValue::Json(bytes))
}
