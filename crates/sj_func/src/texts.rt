// The texts of items.
ghost use Rattle.std.specs.Prelude.{◌≡◌, ◌≤◌, ◌<◌, ◌+◌, ◌++◌, ◌∷◌, [], length, Some, remove, IfOk, OnOk, OnErr, if◌then◌else◌};
ghost use Rattle.sj_base.specs.Count.{raised};
ghost use Rattle.sj_json.specs.Printing.{printed, printed_more_items};
ghost use Rattle.sj_item.specs.Items.{item_value, item_tree, nodes_below};
ghost use Rattle.sj_step.specs.Trace.{items, visits, fault_of};
ghost use Rattle.sj_rows.specs.RowText.{Extends};
ghost use Rattle.sj_func.specs.Functions.{string_of, query_value, elements, all_below};
ghost use Rattle.sj_func.specs.Gathering.{has_some, stays as stays_of};

use sj_base::{Bytes, Memory, State, Steps, Text};
use sj_cursor::Cursor;
use sj_doc::Kind;
use sj_item::{Item, Pull};
use sj_text::item_text;
use sj_value::{SqlValue, Wrapper};
use std::alloc::Global;

// The room of a text when it begins, in bytes. Most texts are no longer, and take memory once.
const FIRST_ROOM: usize = 128;

// A text of nothing yet, with room for what most have.
pub(crate) fn empty_text(alloc: Global) -> Result<Bytes, Memory>
    ensures { IfOk result (λ text. text ≡ []) }
{
    Ok(Bytes::from_vec(Vec::with_capacity(alloc, FIRST_ROOM)?))
}

// A single item as a JSON value; with OMIT QUOTES a string as its text.
pub(crate) fn single_value<'d>(
    alloc: Global,
    item: Item<'d>,
    omit_quotes: bool,
    steps: &mut Steps,
) -> Result<SqlValue, Memory>
    ensures value { IfOk result (λ v. v ≡ query_value omit_quotes (item_tree (item_value item.entry))) }
    ensures costs { steps.new ≤ raised steps.old (nodes_below (item_value item.entry)) }
{
    if omit_quotes {
        if let Some(string) = unquoted(alloc, item)? {
            return Ok(SqlValue::Text(string));
        }
    }
    let mut text = empty_text(alloc)?;
    item_text(item, &mut text, steps)?;
    Ok(SqlValue::Json(text))
}

// The text of an item that is a string.
fn unquoted(alloc: Global, item: Item<'_>) -> Result<Option<Text>, Memory>
    ensures { IfOk result (λ t. t ≡ string_of (item_tree (item_value item.entry))) }
{
    match item {
        Item::Node(node) => match node.kind() {
            Kind::String => some_text(alloc, node.text()),
            _ => Ok(None),
        },
        Item::Text(text) => some_text(alloc, text),
        Item::NumberText(number) => some_text(alloc, number.value().text().as_str()),
        Item::Num(_) | Item::Bool(_) | Item::Null | Item::Pair(_) => Ok(None),
    }
}

fn some_text(alloc: Global, text: &str) -> Result<Option<Text>, Memory>
    ensures { IfOk result (λ t. t ≡ Some text.now) }
{
    Ok(Some(Text::from_str(alloc, text)?))
}

// What came behind the first item.
#[derive(Clone, Copy)]
pub(crate) struct Rest {
    // an item
    pub(crate) some: bool,
    // the fault in which the sequence ends
    pub(crate) fault: Option<State>,
}

// Appends the texts of all items that the cursor has left, each behind a comma.
pub(crate) fn rest_text<'d>(
    cursor: &mut Cursor<'d>,
    text: &mut Bytes,
    steps: &mut Steps,
) -> Result<Rest, Memory>
    ensures text { OnOk result (text.new ≡ text.old ++ printed_more_items (elements (items cursor.old.left))) }
    ensures extends { OnErr result (Extends text.old text.new) }
    ensures some { IfOk result (λ r. r.some ≡ has_some (items cursor.old.left)) }
    ensures fault { IfOk result (λ r. r.fault ≡ fault_of cursor.old.left) }
    ensures costs { steps.new ≤ raised steps.old (visits cursor.old.left + all_below (items cursor.old.left)) }
    ensures path { cursor.new.path ≡ cursor.old.path }
    ensures vars { cursor.new.vars ≡ cursor.old.vars }
{
    let mut some = false;
    'texts: loop {
        match cursor.next(steps) {
            Pull::Item(item) => {
                some = true;
                text.push(b",")?;
                item_text(item, text, steps)?;
            }
            Pull::End => return Ok(Rest { some, fault: None }),
            Pull::Fault(state) => {
                return Ok(Rest {
                    some,
                    fault: Some(state),
                });
            }
        }
    }
}

// Whether the first item stays without brackets, where there are others or not: a conditional wrapper leaves a single
// array or object as it is.
pub(crate) fn stays(wrapper: Wrapper, first: Kind, others: bool) -> bool
    ensures { result ≡ stays_of wrapper first others }
{
    match (wrapper, first) {
        (Wrapper::Conditional, Kind::Array | Kind::Object) => !others,
        _ => false,
    }
}

// The text with its closing bracket, or without its opening one where the item in it stays alone.
pub(crate) fn closed(text: Bytes, alone: bool) -> Result<Bytes, Memory>
    requires { 0 < length text }
    ensures { IfOk result (λ b. b ≡ (if alone then remove text 0 else text ++ 93 ∷ [])) }
{
    let mut text = text;
    if alone {
        text.remove(0);
    } else {
        text.push(b"]")?;
    }
    Ok(text)
}
