// The texts of fields.
ghost use Rattle.std.specs.Prelude.{◌≡◌, ◌+◌, ◌++◌, ◌<◌, ◌≤◌, length, take, drop, slice_index, true, false, codes, decimal, IfSome, OnOk, OnErr};
ghost use Rattle.std.specs.List.{flat_map};
ghost use Rattle.sj_decimal.specs.Text.{decimal_text};
ghost use Rattle.sj_text.specs.Prefixes.{AppendsPrefix};
ghost use Rattle.sj_text.specs.Windows.{most_short};
ghost use Rattle.sj_value.specs.Values.{IsPrintable};
ghost use Rattle.sj_rows.specs.RowText.{has_escape, escaped_byte, escaped, number_field, field, tabbed, Extends};

use crate::plain::{escapes_in_16, plain_end};
use itoa::write_digits;
use sj_base::{Bytes, Memory};
use sj_decimal::Decimal;
use sj_text::{MOST_SHORT, push_front, put_short};
use sj_value::SqlValue;
use std::alloc::Global;
use std::simd::prelude::*;

/// Appends a TAB and the field of a value.
///
/// The field of NULL is `\N`, and that of a truth value `TRUE` or `FALSE`. A number has its text, with the decimals
/// that it is to print. A text and a JSON value stand as they are, but for backslash, TAB, LF and CR, which are `\\`,
/// `\t`, `\n` and `\r`. So a field has no TAB and no LF, and the text `\N` is not the field of NULL.
///
/// # Errors
/// `Memory` where memory ran out. `out` has then grown by a first part of both.
#[inline(always)]
pub fn tabbed_text(out: &mut Bytes, value: &SqlValue) -> Result<(), Memory>
    requires { IsPrintable value.now }
    ensures ok { OnOk result (out.new ≡ out.old ++ tabbed value.now) }
    ensures err { OnErr result (AppendsPrefix out.old (tabbed value.now) out.new) }
{
    // A truth value comes in place: where it was just found, it is never put into memory.
    match value {
        SqlValue::Bool(truth) => tabbed_truth(out, *truth),
        _ => tabbed_any(out, value),
    }
}

// The same, out of line. What has few bytes comes with its TAB at once.
#[inline(never)]
fn tabbed_any(out: &mut Bytes, value: &SqlValue) -> Result<(), Memory>
    requires { IsPrintable value.now }
    ensures ok { OnOk result (out.new ≡ out.old ++ tabbed value.now) }
    ensures err { OnErr result (AppendsPrefix out.old (tabbed value.now) out.new) }
{
    match value {
        SqlValue::Null => out.push(b"\t\\N"),
        SqlValue::Text(text) => tabbed_bytes(out, text.as_str().as_bytes()),
        SqlValue::Num(number, places) => tabbed_number(out, *number, *places),
        SqlValue::Bool(truth) => tabbed_truth(out, *truth),
        SqlValue::Json(text) => tabbed_bytes(out, text.as_slice()),
    }
}

#[inline(always)]
fn tabbed_truth(out: &mut Bytes, truth: bool) -> Result<(), Memory>
    ensures ok { OnOk result (out.new ≡ out.old ++ tabbed (SqlValue.Bool truth)) }
    ensures err { OnErr result (out.new ≡ out.old) }
{
    if truth {
        out.push(b"\tTRUE")
    } else {
        out.push(b"\tFALSE")
    }
}

pub(crate) fn tabbed_bytes(out: &mut Bytes, bytes: &[u8]) -> Result<(), Memory>
    ensures ok { OnOk result (out.new ≡ out.old ++ (codes "\t" ++ escaped bytes.now)) }
    ensures err { OnErr result (AppendsPrefix out.old (codes "\t" ++ escaped bytes.now) out.new) }
{
    let mut window = [b' '; 1 + MOST_SHORT];
    if tabbed_short(&mut window, bytes) {
        return push_front(out, &window, 1 + bytes.len());
    }
    tabbed_runs(out, bytes)
}

// Writes a TAB and the bytes at the front of a window, if the bytes are few and stand for themselves. Otherwise anything
// stands there.
#[inline(always)]
fn tabbed_short(window: &mut [u8], bytes: &[u8]) -> bool
    requires { length window.old ≡ 1 + most_short }
    ensures same { length window.new ≡ length window.old }
    ensures short { result ≡ true → length bytes.now ≤ most_short }
    ensures tabbed { result ≡ true → take (1 + length bytes.now) window.new ≡ codes "\t" ++ escaped bytes.now }
{
    if bytes.len() > MOST_SHORT {
        return false;
    }
    put_short(window, 0, b"\t");
    put_short(window, 1, bytes);
    escapes_in_16(u8x16::from_slice(&window[1..])) == 0
}

// A TAB and bytes that are many, or of which some have escapes.
#[inline(never)]
fn tabbed_runs(out: &mut Bytes, bytes: &[u8]) -> Result<(), Memory>
    ensures ok { OnOk result (out.new ≡ out.old ++ (codes "\t" ++ escaped bytes.now)) }
    ensures err { OnErr result (AppendsPrefix out.old (codes "\t" ++ escaped bytes.now) out.new) }
{
    out.push(b"\t")?;
    escaped_text(out, bytes)
}

/// Room for a TAB and the digits of a whole number of 64 bits.
const MAX_WHOLE: usize = 24;

pub(crate) fn tabbed_number(out: &mut Bytes, number: Decimal, places: u32) -> Result<(), Memory>
    requires { IsPrintable (SqlValue.Num number places) }
    ensures ok { OnOk result (out.new ≡ out.old ++ (codes "\t" ++ number_field number places)) }
    ensures err { OnErr result (AppendsPrefix out.old (codes "\t" ++ number_field number places) out.new) }
{
    if places == 0 {
        if let Some(whole) = short_whole(number) {
            return tabbed_whole(out, whole);
        }
    }
    out.push(b"\t")?;
    number_text(out, number, places)
}

// The number, where it is whole, has 64 bits and no sign, as most that print no decimals.
#[inline(always)]
fn short_whole(number: Decimal) -> Option<u64>
    ensures { IfSome result (λ whole. decimal_text number ≡ decimal whole) }
{
    let (coefficient, scale) = number.parts();
    if scale == 0 && 0 <= coefficient && coefficient <= u64::MAX as i128 {
        Some(coefficient as u64)
    } else {
        None
    }
}

// Its digits are written over TABs, of which the one before them stays.
#[inline(always)]
fn tabbed_whole(out: &mut Bytes, whole: u64) -> Result<(), Memory>
    ensures ok { OnOk result (out.new ≡ out.old ++ (codes "\t" ++ decimal whole)) }
    ensures err { OnErr result (out.new ≡ out.old) }
{
    let mut field = [b'\t'; 2 * MAX_WHOLE];
    let tab = write_digits(whole, &mut field, MAX_WHOLE) - 1;
    push_front(out, &field[tab..tab + MAX_WHOLE], MAX_WHOLE - tab)
}

// It comes in place, so that a number of a row takes no call more.
#[inline(always)]
fn number_text(out: &mut Bytes, number: Decimal, places: u32) -> Result<(), Memory>
    requires { IsPrintable (SqlValue.Num number places) }
    ensures ok { OnOk result (out.new ≡ out.old ++ number_field number places) }
    ensures err { OnErr result (out.new ≡ out.old) }
{
    if places == 0 {
        return out.push(number.text().as_str().as_bytes());
    }
    out.push(number.text_places(places).as_str().as_bytes())
}

/// Appends the field of a value, as a row has it behind a TAB ([`tabbed_text`]).
///
/// # Errors
/// `Memory` where memory ran out. `out` has then grown by a first part of it.
pub fn field_text(out: &mut Bytes, value: &SqlValue) -> Result<(), Memory>
    requires { IsPrintable value.now }
    ensures ok { OnOk result (out.new ≡ out.old ++ field value.now) }
    ensures err { OnErr result (AppendsPrefix out.old (field value.now) out.new) }
{
    match value {
        SqlValue::Null => out.push(b"\\N"),
        SqlValue::Text(text) => escaped_text(out, text.as_str().as_bytes()),
        SqlValue::Num(number, places) => number_text(out, *number, *places),
        SqlValue::Bool(true) => out.push(b"TRUE"),
        SqlValue::Bool(false) => out.push(b"FALSE"),
        SqlValue::Json(text) => escaped_text(out, text.as_slice()),
    }
}

/// Appends the bytes of a text or of a JSON value as a field has them, with escapes. Each run of bytes that stand for
/// themselves comes at once.
///
/// # Errors
/// `Memory` where memory ran out. `out` has then grown by a first part of them.
pub fn escaped_text(out: &mut Bytes, bytes: &[u8]) -> Result<(), Memory>
    ensures ok { OnOk result (out.new ≡ out.old ++ escaped bytes.now) }
    ensures err { OnErr result (AppendsPrefix out.old (escaped bytes.now) out.new) }
{
    let mut rest = bytes;
    loop {
        let run = plain_run(rest);
        out.push(&rest[..run])?;
        rest = &rest[run..];
        match rest.split_first() {
            None => return Ok(()),
            Some((byte, after)) => {
                push_escape(out, *byte)?;
                rest = after;
            }
        }
    }
}

/// Escapes the bytes from a place on, as a field has them. Where none needs it, as in most texts, nothing moves.
///
/// # Errors
/// `Memory` where memory ran out. What stands before the place stays, and anything may stand behind it.
#[inline(always)]
pub fn escape_from(alloc: Global, out: &mut Bytes, from: usize) -> Result<(), Memory>
    requires { from ≤ length out.old }
    ensures ok { OnOk result (out.new ≡ take from out.old ++ escaped (drop from out.old)) }
    ensures err { OnErr result (Extends (take from out.old) out.new) }
{
    if plain_end(out.as_slice(), from) == out.len() {
        return Ok(());
    }
    escape_anew(alloc, out, from)
}

// The same, from a copy of the bytes.
#[inline(never)]
fn escape_anew(alloc: Global, out: &mut Bytes, from: usize) -> Result<(), Memory>
    requires { from ≤ length out.old }
    ensures ok { OnOk result (out.new ≡ take from out.old ++ escaped (drop from out.old)) }
    ensures err { OnErr result (Extends (take from out.old) out.new) }
{
    let mut plain = Bytes::new(alloc);
    plain.push(&out.as_slice()[from..])?;
    out.truncate(from);
    escaped_text(out, plain.as_slice())
}

// How many bytes stand for themselves before the first that does not.
fn plain_run(bytes: &[u8]) -> usize
    ensures within { result ≤ length bytes.now }
    ensures plain { flat_map escaped_byte (take result bytes.now) ≡ take result bytes.now }
    ensures stops { result < length bytes.now → has_escape (slice_index bytes.now result) ≡ true }
{
    plain_end(bytes, 0)
}

// Appends the escape of a byte that has one, at once.
fn push_escape(out: &mut Bytes, byte: u8) -> Result<(), Memory>
    requires { has_escape byte ≡ true }
    ensures ok { OnOk result (out.new ≡ out.old ++ escaped_byte byte) }
    ensures err { OnErr result (out.new ≡ out.old) }
{
    match byte {
        b'\\' => out.push(b"\\\\"),
        b'\t' => out.push(b"\\t"),
        b'\n' => out.push(b"\\n"),
        b'\r' => out.push(b"\\r"),
        _ => unreachable!(),
    }
}
