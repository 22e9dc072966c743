// The cast of an item to a type.
ghost use Rattle.std.specs.Prelude.{◌≡◌, nat_le, min, length, Ok, IfOk};
ghost use Rattle.std.specs.Str.{chars};
ghost use Rattle.sj_decimal.specs.Rounding.{rounded_within};
ghost use Rattle.sj_item.specs.Items.{item_value, item_tree};
ghost use Rattle.sj_item.specs.Scalars.{text_cast};
ghost use Rattle.sj_value.specs.Types.{AreDigits, IsCastType};
ghost use Rattle.sj_value.specs.Values.{IsPrintable};
ghost use Rattle.sj_value.specs.Casts.{given, text_within, fixed, scalar_cast, cast_of, GivesCast};

use crate::refusal::CastRefusal;
use crate::types::SqlType;
use crate::value::SqlValue;
use sj_base::{State, Text};
use sj_decimal::Decimal;
use sj_doc::Kind;
use sj_item::{
    BIGINT_HIGH, BIGINT_LOW, INTEGER_HIGH, INTEGER_LOW, Item, kind, to_number, to_text, to_truth,
    to_whole,
};
use std::alloc::Global;

/// An item as a value of a type, by this project's own table of casts, which is not the CAST of ISO/IEC 9075-2.
///
/// A JSON null is NULL for every type, and an array or an object is refused with 2203F. Of the others:
///
/// - VARCHAR is a string as it is, a number by its text, or by its spelling where it is not exact, and a truth value as
///   `true` or `false`. VARCHAR(n) refuses a text of more than n code points with 22001; none is cut.
/// - NUMERIC is an exact number, or a string that is a number by RFC 8259, with no white space round it. A number that
///   is not exact is refused with 22003, in a string too; what is no number with 2203G.
/// - NUMERIC(p, s) rounds such a number to s decimals, half away from zero, and prints s decimals. INTEGER and BIGINT
///   round it to a whole number in the same way. More than p digits, or a whole number out of range, is refused with
///   22003.
/// - BOOLEAN is a truth value, or one of the strings `true` and `false`. Anything else is refused with 2203G.
///
/// The value is printable. A text takes its memory once, and nothing else takes any.
///
/// # Errors
/// `State` exactly where the table refuses the item, with its state, and `Memory` where memory ran out.
pub fn cast<'d>(alloc: Global, item: Item<'d>, ty: SqlType) -> Result<SqlValue, CastRefusal>
    requires { IsCastType ty }
    ensures value { GivesCast (cast_of (item_value item.entry) ty) result }
    ensures printable { IfOk result IsPrintable }
{
    match kind(item) {
        Kind::Null => Ok(SqlValue::Null),
        _ => cast_scalar(alloc, item, ty),
    }
}

#[tactic(auto, unfolding(crate::specs::Casts::scalar_cast))]
fn cast_scalar(alloc: Global, item: Item<'_>, ty: SqlType) -> Result<SqlValue, CastRefusal>
    requires { IsCastType ty }
    ensures value { GivesCast (scalar_cast (item_tree (item_value item.entry)) ty) result }
    ensures printable { IfOk result IsPrintable }
{
    match ty {
        SqlType::Varchar => any_text(alloc, item),
        SqlType::VarcharMax(n) => limited_text(alloc, item, n),
        SqlType::Numeric => plain_number(to_number(item)),
        SqlType::NumericFixed(p, s) => fixed_number(to_number(item), p, s),
        SqlType::Integer => plain_number(to_whole(item, INTEGER_LOW, INTEGER_HIGH)),
        SqlType::Bigint => plain_number(to_whole(item, BIGINT_LOW, BIGINT_HIGH)),
        SqlType::Boolean => truth_value(to_truth(item)),
    }
}

fn any_text(alloc: Global, item: Item<'_>) -> Result<SqlValue, CastRefusal>
    ensures value { GivesCast (given (λ s. Ok (SqlValue.Text s)) (text_cast (item_tree (item_value item.entry)))) result }
    ensures printable { IfOk result IsPrintable }
{
    match to_text(item) {
        Ok(Item::Text(text)) => text_value(alloc, text),
        Ok(Item::NumberText(number)) => text_value(alloc, number.value().text().as_str()),
        Ok(_) => unreachable!(),
        Err(state) => refused(state),
    }
}

// A text of at most n characters.
fn limited_text(alloc: Global, item: Item<'_>, n: u32) -> Result<SqlValue, CastRefusal>
    ensures value { GivesCast (given (text_within n) (text_cast (item_tree (item_value item.entry)))) result }
    ensures printable { IfOk result IsPrintable }
{
    match to_text(item) {
        Ok(Item::Text(text)) => short_text(alloc, text, n),
        Ok(Item::NumberText(number)) => short_text(alloc, number.value().text().as_str(), n),
        Ok(_) => unreachable!(),
        Err(state) => refused(state),
    }
}

// A number that prints its plain text.
fn plain_number(cell: Result<Decimal, State>) -> Result<SqlValue, CastRefusal>
    ensures value { GivesCast (given (λ d. Ok (SqlValue.Num d 0)) cell) result }
    ensures printable { IfOk result IsPrintable }
{
    match cell {
        Ok(number) => Ok(SqlValue::Num(number, 0)),
        Err(state) => refused(state),
    }
}

// A number rounded to s decimals, which it prints.
fn fixed_number(cell: Result<Decimal, State>, p: u32, s: u32) -> Result<SqlValue, CastRefusal>
    requires { AreDigits p s }
    ensures value { GivesCast (given (λ d. fixed s (rounded_within p s d)) cell) result }
    ensures printable { IfOk result IsPrintable }
{
    match cell {
        Ok(number) => rounded_number(number, p, s),
        Err(state) => refused(state),
    }
}

fn rounded_number(number: Decimal, p: u32, s: u32) -> Result<SqlValue, CastRefusal>
    requires { AreDigits p s }
    ensures value { GivesCast (fixed s (rounded_within p s number)) result }
    ensures printable { IfOk result IsPrintable }
{
    match number.round_to(p, s) {
        Ok(rounded) => Ok(SqlValue::Num(rounded, s)),
        Err(_) => refused(State::S22003),
    }
}

fn truth_value(cell: Result<bool, State>) -> Result<SqlValue, CastRefusal>
    ensures value { GivesCast (given (λ b. Ok (SqlValue.Bool b)) cell) result }
    ensures printable { IfOk result IsPrintable }
{
    match cell {
        Ok(truth) => Ok(SqlValue::Bool(truth)),
        Err(state) => refused(state),
    }
}

fn text_value(alloc: Global, text: &str) -> Result<SqlValue, CastRefusal>
    ensures value { GivesCast (Ok (SqlValue.Text text.now)) result }
    ensures printable { IfOk result IsPrintable }
{
    Ok(SqlValue::Text(Text::from_str(alloc, text)?))
}

fn short_text(alloc: Global, text: &str, n: u32) -> Result<SqlValue, CastRefusal>
    ensures value { GivesCast (text_within n text.now) result }
    ensures printable { IfOk result IsPrintable }
{
    if !has_at_most(text, n) {
        return refused(State::S22001);
    }
    text_value(alloc, text)
}

// Whether the text has at most n characters. No more than n + 1 are counted, and none of a text of at most n bytes.
fn has_at_most(text: &str, n: u32) -> bool
    ensures { result ≡ nat_le (length (chars text.now)) n }
{
    let n = n as usize;
    text.len() <= n || char_count(text, n + 1) <= n
}

// How many characters there are, up to a most.
fn char_count(text: &str, most: usize) -> usize
    ensures { result ≡ min most (length (chars text.now)) }
{
    text.chars().take(most).count()
}

fn refused(state: State) -> Result<SqlValue, CastRefusal>
    ensures { result ≡ Err (CastRefusal.State state) }
{
    Err(CastRefusal::State(state))
}
