// The casts of an item to a number, a whole number, a truth value and a text.
ghost use Rattle.std.specs.Prelude.{◌≡◌, ◌≤ℤ◌, IfOk};
ghost use Rattle.sj_decimal.specs.Rounding.{rounded};
ghost use Rattle.sj_decimal.specs.Text.{decimal_text};
ghost use Rattle.sj_json.specs.Numbers.{number_of};
ghost use Rattle.sj_json.specs.Printing.{truth_text};
ghost use Rattle.sj_doc.specs.Listed.{node_tree};
ghost use Rattle.sj_item.specs.Items.{item_value, item_tree, made_text};
ghost use Rattle.sj_item.specs.Scalars.{spelled_number, number_cast, whole_within, whole_cast, word_truth, truth_cast, text_cast};
ghost use Rattle.sj_item.specs.Operands.{CastsAs};
ghost use Rattle.sj_item.specs.Answers.{IsText, values, made_texts};

use crate::item::Item;
use crate::made::Exact;
use sj_base::State;
use sj_decimal::{Decimal, MAX_DIGITS, Parsed};
use sj_doc::{Kind, NodeRef, Num};

/// An item as an exact number: a number, or a string that is a number by RFC 8259, with no white space round it.
///
/// This call and the next three are a table of casts of this project's own, which is not the CAST of ISO/IEC 9075-2.
/// The item methods of SQL:2023 and the types of RETURNING read it.
///
/// # Errors
/// 22003 where the number is not exact, in a string too. 2203G on a null, on a truth value, and on a string that is no
/// number. 2203F on an array or an object.
#[tactic(auto, unfolding(crate::specs::Scalars::number_cast))]
#[inline(always)]
pub fn to_number<'d>(item: Item<'d>) -> Result<Decimal, State>
    ensures { result ≡ number_cast (item_tree (item_value item.entry)) }
{
    // What the calls give is taken apart, so that the number of a node need not be kept in memory.
    match as_operand(item) {
        Operand::Null => Err(State::S2203G),
        Operand::Bool(_) => Err(State::S2203G),
        Operand::Num(number) => Ok(number),
        Operand::Wide(_) => Err(State::S22003),
        Operand::Text(text) => Ok(spelled(text)?),
        Operand::NumberText(number) => Ok(read_back(number)?),
        Operand::Structured => Err(State::S2203F),
    }
}

/// An item as a whole number from `low` to `high`: the number of [`to_number`], rounded half away from zero.
///
/// # Errors
/// 22003 where the whole number is out of this range, and the state of [`to_number`] where that refuses the item.
#[tactic(auto, unfolding(crate::specs::Scalars::whole_cast))]
#[inline(always)]
pub fn to_whole<'d>(item: Item<'d>, low: i128, high: i128) -> Result<Decimal, State>
    requires { low ≤ℤ high }
    ensures { result ≡ whole_cast low high (item_tree (item_value item.entry)) }
{
    let number = to_number(item)?;
    within(whole(number), low, high)
}

/// An item as a truth value: a truth value, or one of the strings `true` and `false`.
///
/// # Errors
/// 2203G on a null, a number and any other string. 2203F on an array or an object.
#[tactic(auto, unfolding(crate::specs::Scalars::truth_cast))]
pub fn to_truth<'d>(item: Item<'d>) -> Result<bool, State>
    ensures { result ≡ truth_cast (item_tree (item_value item.entry)) }
{
    match as_operand(item) {
        Operand::Null => Err(State::S2203G),
        Operand::Bool(truth) => Ok(truth),
        Operand::Num(_) => Err(State::S2203G),
        Operand::Wide(_) => Err(State::S2203G),
        Operand::Text(text) => word_truth(text),
        Operand::NumberText(number) => word_truth(number.text().as_str()),
        Operand::Structured => Err(State::S2203F),
    }
}

/// An item as a text: a string as it is, an exact number by its text, another number by its spelling, and a truth value
/// as `true` or `false`. The text is lent where it lies, and that of an exact number is
/// written where it is read, so no memory is taken.
///
/// # Errors
/// 2203G on a null. 2203F on an array or an object.
#[tactic(auto, unfolding(crate::specs::Scalars::text_cast))]
#[inline(always)]
pub fn to_text<'d>(item: Item<'d>) -> Result<Item<'d>, State>
    ensures value { values result ≡ made_texts (text_cast (item_tree (item_value item.entry))) }
    ensures text { IfOk result IsText }
{
    match as_operand(item) {
        Operand::Null => Err(State::S2203G),
        Operand::Bool(truth) => Ok(Item::Text(word(truth))),
        Operand::Num(number) => Ok(number_text(number)),
        Operand::Wide(spelling) => Ok(Item::Text(spelling)),
        Operand::Text(text) => Ok(Item::Text(text)),
        Operand::NumberText(number) => Ok(number_text(number)),
        Operand::Structured => Err(State::S2203F),
    }
}

// What a cast looks at of an item.
#[derive(Clone, Copy)]
enum Operand<'d> {
    Null,
    Bool(bool),
    Num(Decimal),
    // a number that is not exact, by its spelling
    Wide(&'d str),
    Text(&'d str),
    // the text of an exact number
    NumberText(Decimal),
    // an array or an object
    Structured,
}

#[inline(always)]
fn as_operand<'d>(item: Item<'d>) -> Operand<'d>
    ensures { CastsAs (item_tree (item_value item.entry)) result }
{
    match item {
        Item::Node(node) => node_operand(node),
        Item::Num(number) => Operand::Num(number.value()),
        Item::Text(text) => Operand::Text(text),
        Item::NumberText(number) => Operand::NumberText(number.value()),
        Item::Bool(truth) => Operand::Bool(truth),
        Item::Null => Operand::Null,
        Item::Pair(_) => Operand::Structured,
    }
}

#[inline(always)]
fn node_operand<'d>(node: NodeRef<'d>) -> Operand<'d>
    ensures { CastsAs (node_tree node.entry) result }
{
    match node.kind() {
        Kind::Null => Operand::Null,
        Kind::Truth => Operand::Bool(node.truth()),
        Kind::Number => match node.number() {
            Num::Exact(number) => Operand::Num(number),
            Num::Wide(spelling) => Operand::Wide(spelling),
        },
        Kind::String => Operand::Text(node.text()),
        Kind::Array | Kind::Object => Operand::Structured,
    }
}

// The number that the whole of a string spells.
#[inline(never)]
fn spelled(string: &str) -> Result<Decimal, State>
    ensures { result ≡ spelled_number (number_of string.now) }
{
    match Decimal::parse(string.as_bytes()) {
        Parsed::Exact(number) => Ok(number),
        Parsed::Wide => Err(State::S22003),
        Parsed::NotNumber => Err(State::S2203G),
    }
}

// The number that the text of an exact number spells.
#[inline(never)]
fn read_back(number: Decimal) -> Result<Decimal, State>
    ensures { result ≡ spelled_number (number_of (decimal_text number)) }
{
    spelled(number.text().as_str())
}

// The number rounded to a whole one.
#[inline(always)]
fn whole(number: Decimal) -> Decimal
    ensures { result ≡ (rounded 0 number, 0) }
{
    // shows the proof that it has no more digits than may be, which rounding keeps
    let _ = number.parts();
    match number.round_to(MAX_DIGITS, 0) {
        Ok(whole) => whole,
        Err(_) => unreachable!(),
    }
}

// A whole number, where it is from low to high.
#[inline(always)]
fn within(whole: Decimal, low: i128, high: i128) -> Result<Decimal, State>
    requires { whole.1 ≡ 0 }
    ensures { result ≡ whole_within low high whole.0 }
{
    let (value, _) = whole.parts();
    if value < low || high < value {
        return Err(State::S22003);
    }
    Ok(whole)
}

fn word_truth(string: &str) -> Result<bool, State>
    ensures { result ≡ word_truth string.now }
{
    match string {
        "true" => Ok(true),
        "false" => Ok(false),
        _ => Err(State::S2203G),
    }
}

fn word(truth: bool) -> &'static str
    ensures { result.now ≡ truth_text truth }
{
    if truth { "true" } else { "false" }
}

// The text of an exact number, as an item.
fn number_text<'d>(number: Decimal) -> Item<'d>
    ensures value { item_value result ≡ made_text (decimal_text number) }
    ensures text { IsText result }
{
    Item::NumberText(Exact::new(number))
}
