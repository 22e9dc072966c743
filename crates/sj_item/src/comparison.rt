// The comparison of two items.
ghost use Rattle.std.specs.Prelude.{◌≡◌, IfSome, pos};
ghost use Rattle.sj_json.specs.Tree.{number, exact};
ghost use Rattle.sj_decimal.specs.Compare.{decimal_cmp};
ghost use Rattle.sj_decimal.specs.Normal.{IsDecimal};
ghost use Rattle.sj_doc.specs.Listed.{node_tree};
ghost use Rattle.sj_item.specs.Truths.{truth_of};
ghost use Rattle.sj_item.specs.Orders.{holds};
ghost use Rattle.sj_item.specs.Items.{item_value, item_tree};
ghost use Rattle.sj_item.specs.Pairs.{null_and_other, items_compare, item_starts_with};
ghost use Rattle.sj_item.specs.Comparands.{ComparesAs, text_compares, comparands_compare, text_starts_with, comparand_starts_with};

use crate::item::Item;
use crate::made::Exact;
use crate::numeral::numeral_whole;
use crate::texts::{order_of_texts, text_begins_with};
use crate::truth::Truth;
use sj_decimal::{Compare, Decimal};
use sj_doc::{Kind, NodeRef, Num};
use std::cmp::Ordering;

/// Compares two items (ISO/IEC 9075-2, the comparison predicate of the path language).
///
/// Null equals null, and is not equal to anything else. Two exact numbers compare by value, and two strings by
/// their code points. Of the truth values false is below true. Any other pair is Unknown: each of two kinds,
/// and each with a number that is not exact, an array or an object.
///
/// The program compares items that are lent, by [`Item::compare`]; this is for tests and for hosts.
pub fn compare<'d>(op: Compare, a: Item<'d>, b: Item<'d>) -> Truth
    ensures { result ≡ items_compare op (item_value a.entry) (item_value b.entry) }
{
    a.compare(op, &b)
}

/// Whether the string `a` starts with the string `b`, by code points. Any other pair is Unknown.
///
/// The program asks this of items that are lent, by [`Item::starts_with`]; this is for tests and for hosts.
pub fn starts_with<'d>(a: Item<'d>, b: Item<'d>) -> Truth
    ensures { result ≡ item_starts_with (item_value a.entry) (item_value b.entry) }
{
    a.starts_with(&b)
}

impl<'d> Item<'d> {
    /// The same as [`compare`], of items that are lent.
    pub fn compare(&self, op: Compare, other: &Item<'_>) -> Truth
        ensures { result ≡ items_compare op (item_value self.now) (item_value other.now) }
    {
        // Most comparisons are of two whole numbers of few digits. They need no decimals, and little room.
        if let Some(left) = short_whole(self) {
            if let Some(right) = short_whole(other) {
                return decided(op, left.cmp(&right));
            }
        }
        compare_exact(op, self, other)
    }

    /// The same as [`starts_with`], of items that are lent.
    pub fn starts_with(&self, start: &Item<'_>) -> Truth
        ensures { result ≡ item_starts_with (item_value self.now) (item_value start.now) }
    {
        starts_with_as(as_comparand(self), as_comparand(start))
    }
}

// The same of any two items. Most are exact numbers with decimals, which need no more than their values.
#[inline(never)]
fn compare_exact(op: Compare, left: &Item<'_>, right: &Item<'_>) -> Truth
    ensures { result ≡ items_compare op (item_value left.now) (item_value right.now) }
{
    if let Some((left, left_scale)) = exact_parts(left) {
        if let Some((right, right_scale)) = exact_parts(right) {
            return decided(op, order_of_parts(left, left_scale, right, right_scale));
        }
    }
    compare_any(op, left, right)
}

// The same of items that may be of any kind.
#[inline(never)]
fn compare_any(op: Compare, left: &Item<'_>, right: &Item<'_>) -> Truth
    ensures { result ≡ items_compare op (item_value left.now) (item_value right.now) }
{
    compare_as(op, as_comparand(left), as_comparand(right))
}

// The number that an item is, where it is a whole one of few digits and without a sign.
#[inline(always)]
fn short_whole(item: &Item<'_>) -> Option<u64>
    ensures { IfSome result (λ n. item_tree (item_value item.now) ≡ number (exact (pos n, 0))) }
{
    match item {
        Item::Node(node) => node_whole(*node),
        Item::Num(number) => number.short_whole(),
        _ => None,
    }
}

#[tactic(auto, using(sj_doc::proofs::Numerals::spelled_exact))]
#[inline(always)]
fn node_whole(node: NodeRef<'_>) -> Option<u64>
    ensures { IfSome result (λ n. node_tree node.entry ≡ number (exact (pos n, 0))) }
{
    match node.kind() {
        Kind::Number => numeral_whole(node.numeral().as_bytes()),
        _ => None,
    }
}

// The coefficient and the scale of an item that is an exact number.
#[inline(always)]
fn exact_parts(item: &Item<'_>) -> Option<(i128, u32)>
    ensures value { IfSome result (λ d. item_tree (item_value item.now) ≡ number (exact d)) }
    ensures decimal { IfSome result IsDecimal }
{
    match item {
        Item::Node(node) => node_parts(*node),
        Item::Num(number) => Some(number.parts()),
        _ => None,
    }
}

#[inline(always)]
fn node_parts(node: NodeRef<'_>) -> Option<(i128, u32)>
    ensures value { IfSome result (λ d. node_tree node.entry ≡ number (exact d)) }
    ensures decimal { IfSome result IsDecimal }
{
    match node.kind() {
        Kind::Number => match node.number() {
            Num::Exact(number) => Some(number.parts()),
            Num::Wide(_) => None,
        },
        _ => None,
    }
}

// The order of two numbers in normal form. Most have as many decimals, and stand as their coefficients do.
#[tactic(auto, using(crate::proofs::Coefficients::same_scale))]
#[inline(always)]
fn order_of_parts(left: i128, left_scale: u32, right: i128, right_scale: u32) -> Ordering
    requires left { IsDecimal (left, left_scale) }
    requires right { IsDecimal (right, right_scale) }
    ensures { result ≡ decimal_cmp (left, left_scale) (right, right_scale) }
{
    if left_scale == right_scale {
        return left.cmp(&right);
    }
    order_of_decimals(left, left_scale, right, right_scale)
}

// The same of any scales. A decimal that was passed here would have to lie in memory in every comparison.
#[inline(never)]
fn order_of_decimals(left: i128, left_scale: u32, right: i128, right_scale: u32) -> Ordering
    requires left { IsDecimal (left, left_scale) }
    requires right { IsDecimal (right, right_scale) }
    ensures { result ≡ decimal_cmp (left, left_scale) (right, right_scale) }
{
    let left = Decimal::from_normal(left, left_scale);
    left.cmp(Decimal::from_normal(right, right_scale))
}

// What a comparison looks at of an item.
#[derive(Clone, Copy)]
enum Comparand<'a> {
    Null,
    Num(Exact),
    Text(&'a str),
    // the text of an exact number
    NumberText(Exact),
    Bool(bool),
    // a number that is not exact, an array or an object
    Other,
}

fn as_comparand<'a>(item: &'a Item<'_>) -> Comparand<'a>
    ensures { ComparesAs (item_tree (item_value item.now)) result }
{
    match item {
        Item::Node(node) => node_comparand(*node),
        Item::Num(number) => Comparand::Num(*number),
        Item::Text(text) => Comparand::Text(text),
        Item::NumberText(number) => Comparand::NumberText(*number),
        Item::Bool(truth) => Comparand::Bool(*truth),
        Item::Null => Comparand::Null,
        Item::Pair(_) => Comparand::Other,
    }
}

fn node_comparand(node: NodeRef<'_>) -> Comparand<'_>
    ensures { ComparesAs (node_tree node.entry) result }
{
    match node.kind() {
        Kind::Null => Comparand::Null,
        Kind::Truth => Comparand::Bool(node.truth()),
        Kind::String => Comparand::Text(node.text()),
        Kind::Number => match node.number() {
            Num::Exact(number) => Comparand::Num(Exact::new(number)),
            Num::Wide(_spelling) => Comparand::Other,
        },
        Kind::Array | Kind::Object => Comparand::Other,
    }
}

fn compare_as(op: Compare, left: Comparand<'_>, right: Comparand<'_>) -> Truth
    ensures { result ≡ comparands_compare op left.entry right.entry }
{
    match left {
        Comparand::Null => match right {
            Comparand::Null => decided(op, Ordering::Equal),
            _ => against_null(op),
        },
        Comparand::Num(x) => match right {
            Comparand::Null => against_null(op),
            Comparand::Num(y) => decided(op, x.value().cmp(y.value())),
            _ => Truth::Unknown,
        },
        Comparand::Text(x) => text_compares(op, x, right),
        Comparand::NumberText(x) => text_compares(op, x.value().text().as_str(), right),
        Comparand::Bool(x) => match right {
            Comparand::Null => against_null(op),
            Comparand::Bool(y) => decided(op, x.cmp(&y)),
            _ => Truth::Unknown,
        },
        Comparand::Other => match right {
            Comparand::Null => against_null(op),
            _ => Truth::Unknown,
        },
    }
}

// The comparison of a text with what stands at its right.
fn text_compares(op: Compare, left: &str, right: Comparand<'_>) -> Truth
    ensures { result ≡ text_compares op left.now right.entry }
{
    match right {
        Comparand::Null => against_null(op),
        Comparand::Text(right) => decided(op, order_of_texts(left, right)),
        Comparand::NumberText(right) => {
            decided(op, order_of_texts(left, right.value().text().as_str()))
        }
        _ => Truth::Unknown,
    }
}

fn starts_with_as(text: Comparand<'_>, start: Comparand<'_>) -> Truth
    ensures { result ≡ comparand_starts_with text.entry start.entry }
{
    match text {
        Comparand::Text(text) => text_starts_with(text, start),
        Comparand::NumberText(number) => text_starts_with(number.value().text().as_str(), start),
        _ => Truth::Unknown,
    }
}

fn text_starts_with(text: &str, start: Comparand<'_>) -> Truth
    ensures { result ≡ text_starts_with text.now start.entry }
{
    match start {
        Comparand::Text(start) => Truth::from_bool(text_begins_with(text, start)),
        Comparand::NumberText(number) => {
            Truth::from_bool(text_begins_with(text, number.value().text().as_str()))
        }
        _ => Truth::Unknown,
    }
}

// The comparison of two values that stand in this order.
#[inline(always)]
fn decided(op: Compare, order: Ordering) -> Truth
    ensures { result ≡ truth_of (holds op order) }
{
    let holds = match op {
        Compare::Eq => order.is_eq(),
        Compare::Ne => order.is_ne(),
        Compare::Lt => order.is_lt(),
        Compare::Le => order.is_le(),
        Compare::Gt => order.is_gt(),
        Compare::Ge => order.is_ge(),
    };
    Truth::from_bool(holds)
}

// The comparison of null with something else.
fn against_null(op: Compare) -> Truth
    ensures { result ≡ null_and_other op }
{
    match op {
        Compare::Ne => Truth::True,
        _ => Truth::False,
    }
}
