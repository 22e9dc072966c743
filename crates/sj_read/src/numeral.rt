// Numbers without an exponent, which most numbers are. One pass checks them and finds their end. What they spell is not read.
ghost use Rattle.std.specs.Prelude.{◌≡◌, ◌+◌, ◌<◌, ◌≤◌, length, drop, map, slice_index, true, false, IfSome};
ghost use Rattle.std.specs.Char.{is_ascii_digit};
ghost use Rattle.std.specs.List.{prefix_len};
ghost use Rattle.std.specs.Simd.Lanes.{mask_l};
ghost use Rattle.sj_decimal.specs.Number.{is_number_byte as number_byte};
ghost use Rattle.sj_doc.specs.Builders.{feeds_behind, EndsInFeeds};
ghost use Rattle.sj_read.specs.Scans.{is_other};
ghost use Rattle.sj_read.specs.Numerals.{HasDigits, HasWhole, HasPoint, HasFraction, EndsNear, EndsFraction, IsUnsigned, IsPlainNumber, Tells};

use crate::scan::{begins_number, is_number_byte};
use sj_decimal::{Decimal, Parsed, is_number};
use std::simd::prelude::*;

// The value of a longer number is read at once, so that it costs little to ask for it again and again.
const LONGEST_KEPT: usize = 64;

// The same without a minus sign, which may stand before, and one byte less.
const MOST_KEPT: usize = LONGEST_KEPT - 2;

// What becomes of a text that may be a number.
#[derive(Clone, Copy)]
pub(crate) enum Numeral {
    // It is a number that stays text.
    Kept,
    // It is a number that spells this one.
    Exact(Decimal),
    NotNumber,
}

#[inline(always)]
pub(crate) fn judged(bytes: &[u8]) -> Numeral
    ensures { Tells bytes.now result }
{
    if bytes.len() <= LONGEST_KEPT {
        return if is_number(bytes) {
            Numeral::Kept
        } else {
            Numeral::NotNumber
        };
    }
    match Decimal::parse(bytes) {
        Parsed::Exact(n) => Numeral::Exact(n),
        Parsed::Wide => Numeral::Kept,
        Parsed::NotNumber => Numeral::NotNumber,
    }
}

// Which of the bytes are no digits.
#[inline(always)]
fn others_in_16(v: u8x16) -> u64
    ensures { result ≡ mask_l (map is_other v) }
{
    (v.simd_lt(u8x16::splat(b'0')) | v.simd_gt(u8x16::splat(b'9'))).to_bitmask()
}

// The place behind the digits from the place on, if it is among the next 16 bytes, as that of most is.
#[inline(always)]
fn near_digits_end(bytes: &[u8], from: usize) -> Option<usize>
    requires { from + feeds_behind ≤ length bytes.now }
    ensures { IfSome result (EndsNear bytes.now from) }
{
    let found = others_in_16(u8x16::from_slice(&bytes[from..]));
    if found == 0 {
        return None;
    }
    Some(from + found.trailing_zeros() as usize)
}

// The place behind the digits from the place on, one byte at a step.
#[inline(always)]
fn digits_end(bytes: &[u8], from: usize) -> usize
    requires { from ≤ length bytes.now }
    ensures digits { HasDigits bytes.now from result }
    ensures first { from < result → is_ascii_digit (slice_index bytes.now from) ≡ true }
{
    let mut at = from;
    while at < bytes.len() && bytes[at].is_ascii_digit() {
        at += 1;
    }
    at
}

// Whether the digits between the two places may stand before a point: there is one at least, and no zero before others.
#[inline(always)]
fn is_whole(bytes: &[u8], from: usize, end: usize) -> bool
    requires { HasDigits bytes.now from end }
    ensures whole { result ≡ true → HasWhole bytes.now from end }
    ensures some { result ≡ true → from < end }
{
    if end == from || (bytes[from] == b'0' && end - from > 1) {
        return false;
    }
    true
}

// The end of the fraction whose point stands at the place, if it is among the next 16 bytes behind that.
#[inline(always)]
fn near_fraction_end(bytes: &[u8], point: usize) -> Option<usize>
    requires point { HasPoint bytes.now point }
    requires feeds { EndsInFeeds bytes.now }
    ensures { IfSome result (EndsFraction bytes.now point) }
{
    let end = near_digits_end(bytes, point + 1)?;
    if end > point + 1 { Some(end) } else { None }
}

// Whether a number that has come to the place goes on there.
#[inline(always)]
fn goes_on(bytes: &[u8], at: usize) -> bool
    requires { at < length bytes.now }
    ensures { result ≡ false → prefix_len number_byte (drop at bytes.now) ≡ 0 }
{
    is_number_byte(bytes[at])
}

// The same, where the place may be the end.
#[inline(always)]
fn goes_on_before_the_end(bytes: &[u8], at: usize) -> bool
    requires { at ≤ length bytes.now }
    ensures { result ≡ false → prefix_len number_byte (drop at bytes.now) ≡ 0 }
{
    at < bytes.len() && goes_on(bytes, at)
}

// The end of the number at the place, which has no sign, if it has no exponent and its digits end within 16 bytes.
#[inline(always)]
fn near_number_end(bytes: &[u8], from: usize) -> Option<usize>
    requires within { from + feeds_behind ≤ length bytes.now }
    requires feeds { EndsInFeeds bytes.now }
    ensures { IfSome result (IsUnsigned bytes.now from) }
{
    let point = near_digits_end(bytes, from)?;
    if !is_whole(bytes, from, point) {
        return None;
    }
    let end = if bytes[point] == b'.' {
        near_fraction_end(bytes, point)?
    } else {
        point
    };
    if goes_on(bytes, end) { None } else { Some(end) }
}

// The end of the fraction at the place, or the place where none stands there.
#[inline(always)]
fn fraction_end(bytes: &[u8], point: usize) -> Option<usize>
    requires { point ≤ length bytes.now }
    ensures { IfSome result (HasFraction bytes.now point) }
{
    if point == bytes.len() || bytes[point] != b'.' {
        return Some(point);
    }
    let end = digits_end(bytes, point + 1);
    if end == point + 1 { None } else { Some(end) }
}

// The same as `near_number_end`, for numbers of more digits.
#[inline(never)]
fn far_number_end(bytes: &[u8], from: usize) -> Option<usize>
    requires { from ≤ length bytes.now }
    ensures { IfSome result (IsUnsigned bytes.now from) }
{
    let point = digits_end(bytes, from);
    if !is_whole(bytes, from, point) {
        return None;
    }
    let end = fraction_end(bytes, point)?;
    if end - from > MOST_KEPT || goes_on_before_the_end(bytes, end) {
        return None;
    }
    Some(end)
}

// The end of the number that begins with the byte c at the place, if it has no exponent and is not long.
#[inline(always)]
pub(crate) fn plain_number_end(bytes: &[u8], at: usize, c: u8) -> Option<usize>
    requires within { at + feeds_behind < length bytes.now }
    requires feeds { EndsInFeeds bytes.now }
    requires here { slice_index bytes.now at ≡ c }
    ensures { IfSome result (IsPlainNumber bytes.now at c) }
{
    let from = if c == b'-' { at + 1 } else { at };
    match near_number_end(bytes, from) {
        Some(end) => Some(end),
        None => Some(far_number_end(bytes, from)?),
    }
}

// Whether a byte may stand behind a value, and none of a number is it.
#[inline(always)]
fn ends_value(c: u8) -> bool
    ensures { result ≡ true → number_byte c ≡ false }
{
    c == b',' || c == b'}' || c == b']'
}

// Whether the byte c at the place is a number of one digit. The byte behind it tells that.
#[inline(always)]
pub(crate) fn is_one_digit(bytes: &[u8], at: usize, c: u8) -> bool
    requires within { at + feeds_behind < length bytes.now }
    requires here { slice_index bytes.now at ≡ c }
    ensures { result ≡ true → IsPlainNumber bytes.now at c (at + 1) }
{
    c.is_ascii_digit() && ends_value(bytes[at + 1])
}
