// The fields of items that are cast.
ghost use Rattle.std.specs.Prelude.{◌≡◌, ◌<◌, length, IfSome};
ghost use Rattle.sj_json.specs.Tree.{string, number};
ghost use Rattle.sj_doc.specs.Nodes.{spelled};
ghost use Rattle.sj_doc.specs.Listed.{node_tree};
ghost use Rattle.sj_item.specs.Items.{item_value};
ghost use Rattle.sj_value.specs.Casts.{cast_of, fixed, tree_cast};
ghost use Rattle.sj_decimal.specs.Rounding.{rounded_within};
ghost use Rattle.sj_value.specs.Types.{AreDigits, IsCastType};
ghost use Rattle.sj_value.specs.declared.value.SqlValue.TheVariants.{Text};
ghost use Rattle.sj_rows.specs.RowText.{AppendsCast};
ghost use Rattle.sj_rows.specs.Numerals.{room, HasDigits, GivesField, IsFieldOf, StandsAsField};

use crate::field::{tabbed_bytes, tabbed_number, tabbed_text};
use crate::numeral::{
    MOST_DIGITS, ROOM, fixed_point, has_digits, plain_point, tabbed_digits, whole_end,
};
use crate::plain::is_plain;
use sj_base::{Bytes, State};
use sj_decimal::Decimal;
use sj_doc::{Kind, NodeRef, StoredText, WINDOW};
use sj_item::Item;
use sj_text::{led, push_front};
use sj_value::{CastRefusal, SqlType, cast};
use std::alloc::Global;

/// Appends a TAB and the field of an item as a value of a type, by the table of casts (`sj_value::cast`).
///
/// # Errors
/// `State` exactly where the table refuses the item, with its state: `out` stays as it was. `Memory` where memory ran
/// out: what stood in `out` stays, and something may stand behind it.
#[inline(always)]
pub fn tabbed_cast<'d>(
    alloc: Global,
    out: &mut Bytes,
    item: Item<'d>,
    ty: SqlType,
) -> Result<(), CastRefusal>
    requires { IsCastType ty }
    ensures { AppendsCast (cast_of (item_value item.entry) ty) result out.old out.new }
{
    // Most fields are short, and stand in the document as they are printed.
    if let Item::Node(node) = item {
        if let Some(field) = short_field(node, ty) {
            return match push_front(out, &led(b'\t', field.window), field.len + 1) {
                Ok(()) => Ok(()),
                Err(_) => Err(CastRefusal::Memory),
            };
        }
    }
    anew(tabbed_longer(alloc, out, item, ty))
}

// The same for every item. A longer text is copied too.
#[inline(never)]
fn tabbed_longer<'d>(
    alloc: Global,
    out: &mut Bytes,
    item: Item<'d>,
    ty: SqlType,
) -> Result<(), CastRefusal>
    requires { IsCastType ty }
    ensures { AppendsCast (cast_of (item_value item.entry) ty) result out.old out.new }
{
    if let (Item::Num(made), SqlType::NumericFixed(digits, places)) = (&item, ty) {
        return tabbed_fixed(out, made.value(), digits, places);
    }
    if let Item::Node(node) = item {
        match node.kind() {
            Kind::String => {
                if let Some(bytes) = whole_text(node.text(), ty) {
                    tabbed_bytes(out, bytes)?;
                    return Ok(());
                }
            }
            Kind::Number => {
                let numeral = node.numeral().as_bytes();
                if let Some(window) = numeral_field(numeral, ty) {
                    push_front(out, &window, numeral.len() + 1)?;
                    return Ok(());
                }
            }
            _ => {}
        }
    }
    tabbed_value(alloc, out, item, ty)
}

// A number that arithmetic made, with so many digits and decimals. It goes to its field without a value in between.
#[inline(always)]
fn tabbed_fixed(
    out: &mut Bytes,
    number: Decimal,
    digits: u32,
    places: u32,
) -> Result<(), CastRefusal>
    requires { AreDigits digits places }
    ensures { AppendsCast (fixed places (rounded_within digits places number)) result out.old out.new }
{
    match number.round_to(digits, places) {
        Ok(rounded) => {
            tabbed_number(out, rounded, places)?;
            Ok(())
        }
        Err(_) => Err(CastRefusal::State(State::S22003)),
    }
}

// What a call answers that is not inlined lies in memory. Put together anew, it leaves the answers of the other ways in registers.
#[inline(always)]
fn anew(done: Result<(), CastRefusal>) -> Result<(), CastRefusal>
    ensures { result ≡ done }
{
    match done {
        Ok(()) => Ok(()),
        Err(CastRefusal::State(state)) => Err(CastRefusal::State(state)),
        Err(CastRefusal::Memory) => Err(CastRefusal::Memory),
    }
}

// The same, over the value that the cast makes.
#[inline(never)]
fn tabbed_value<'d>(
    alloc: Global,
    out: &mut Bytes,
    item: Item<'d>,
    ty: SqlType,
) -> Result<(), CastRefusal>
    requires { IsCastType ty }
    ensures { AppendsCast (cast_of (item_value item.entry) ty) result out.old out.new }
{
    let value = cast(alloc, item, ty)?;
    tabbed_text(out, &value)?;
    Ok(())
}

// The bytes of a string, where the type takes its text as it stands.
#[inline(always)]
fn whole_text(text: &str, ty: SqlType) -> Option<&[u8]>
    ensures cast { IfSome result (λ bytes. tree_cast (string text.now) ty ≡ Ok (Text bytes.now)) }
    ensures same { IfSome result (λ bytes. bytes.now ≡ text.now) }
{
    let bytes = text.as_bytes();
    match ty {
        SqlType::Varchar => Some(bytes),
        // It has no more characters than bytes.
        SqlType::VarcharMax(n) if bytes.len() <= n as usize => Some(bytes),
        _ => None,
    }
}

// A TAB and a numeral behind it, where the type prints its number with the same bytes.
#[inline(always)]
fn numeral_field(numeral: &[u8], ty: SqlType) -> Option<[u8; ROOM]>
    requires { IsCastType ty }
    ensures { IfSome result (λ window. IsFieldOf (tree_cast (number (spelled numeral.now)) ty) numeral.now window) }
{
    let point = numeral_point(numeral, ty)?;
    tabbed_digits(numeral, point)
}

// Where such a numeral has its point, or ends without one. That its other bytes are digits is still to be seen.
#[inline(always)]
fn numeral_point(numeral: &[u8], ty: SqlType) -> Option<usize>
    requires { IsCastType ty }
    ensures short { IfSome result (λ point. length numeral.now < room) }
    ensures field { IfSome result (λ point. HasDigits point numeral.now → GivesField (tree_cast (number (spelled numeral.now)) ty) numeral.now) }
{
    match ty {
        // A number of so few digits is in the bounds of the type.
        SqlType::Integer => whole_end(numeral, 9),
        SqlType::Bigint => whole_end(numeral, MOST_DIGITS),
        // What the call gives is put together anew, so that the others do not go through memory.
        SqlType::Numeric | SqlType::Varchar => Some(plain_point(numeral)?),
        SqlType::VarcharMax(n) if numeral.len() <= n as usize => Some(plain_point(numeral)?),
        SqlType::NumericFixed(digits, places) => fixed_point(numeral, digits, places),
        _ => None,
    }
}

// A field that stands at the front of a window.
#[derive(Clone, Copy, Drop)]
struct ShortField<'d> {
    window: &'d [u8],
    len: usize,
}

// The field of a node as a value of a type, where it stands in the document and a TAB fits into a window before it.
#[inline(always)]
fn short_field<'d>(node: NodeRef<'d>, ty: SqlType) -> Option<ShortField<'d>>
    requires { IsCastType ty }
    ensures { IfSome result (λ f. StandsAsField (tree_cast (node_tree node.entry) ty) f.len f.window.now) }
{
    match node.kind() {
        Kind::String => short_text(node.stored_text(), ty),
        Kind::Number => short_numeral(node.stored_numeral(), ty),
        _ => None,
    }
}

#[inline(always)]
fn short_text<'d>(stored: StoredText<'d>, ty: SqlType) -> Option<ShortField<'d>>
    ensures { IfSome result (λ f. StandsAsField (tree_cast (string stored.entry.text.now) ty) f.len f.window.now) }
{
    let window = stored.window?;
    let len = whole_text(stored.text, ty)?.len();
    if len < WINDOW && is_plain(stored.text, window) {
        Some(ShortField { window, len })
    } else {
        None
    }
}

#[inline(always)]
fn short_numeral<'d>(stored: StoredText<'d>, ty: SqlType) -> Option<ShortField<'d>>
    requires { IsCastType ty }
    ensures { IfSome result (λ f. StandsAsField (tree_cast (number (spelled stored.entry.text.now)) ty) f.len f.window.now) }
{
    let window = stored.window?;
    let point = numeral_point(stored.text.as_bytes(), ty)?;
    let len = stored.text.len();
    if len < WINDOW && has_digits(stored.text, window, point) {
        Some(ShortField { window, len })
    } else {
        None
    }
}
