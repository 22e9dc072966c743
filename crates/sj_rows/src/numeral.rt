// Numerals that are the fields of their numbers.
ghost use Rattle.std.specs.Prelude.{◌≡◌, ◌+◌, ◌<◌, ◌≤◌, length, map, not, true, slice_index, IfSome};
ghost use Rattle.std.specs.Char.{is_ascii_digit};
ghost use Rattle.std.specs.Simd.Lanes.{mask_l};
ghost use Rattle.sj_doc.specs.StoredTexts.{IsWindow};
ghost use Rattle.sj_text.specs.Numerals.{IsDecimalText};
ghost use Rattle.sj_value.specs.Types.{AreDigits};
ghost use Rattle.sj_rows.specs.Numerals.{room, most_digits, HasFront, HasDigits, IsTextOf};

use std::simd::prelude::*;

/// Room for a TAB and a numeral that is copied.
pub(crate) const ROOM: usize = 24;

/// The most digits of a number that is copied.
pub(crate) const MOST_DIGITS: usize = 18;

/// Where a numeral ends, if it is a whole number without a sign, of at most so many digits. That its bytes are digits is
/// still to be seen.
#[inline(always)]
pub(crate) fn whole_end(numeral: &[u8], most: usize) -> Option<usize>
    requires { most ≤ most_digits }
    ensures short { IfSome result (λ end. length numeral.now < room) }
    ensures text { IfSome result (λ end. HasDigits end numeral.now → IsTextOf most 0 numeral.now) }
{
    let len = numeral.len();
    if len == 0 || most < len || (numeral[0] == b'0' && len != 1) {
        return None;
    }
    Some(len)
}

/// Where a numeral has its point, or ends if it is to have none, if it is a number without a sign, of at most so many
/// digits and exactly so many decimals. That its other bytes are digits is still to be seen.
#[inline(always)]
pub(crate) fn fixed_point(numeral: &[u8], digits: u32, places: u32) -> Option<usize>
    requires { AreDigits digits places }
    ensures short { IfSome result (λ point. length numeral.now < room) }
    ensures text { IfSome result (λ point. HasDigits point numeral.now → IsTextOf digits places numeral.now) }
{
    if places == 0 {
        return whole_end(numeral, MOST_DIGITS.min(digits as usize));
    }
    let len = numeral.len();
    let places = places as usize;
    // Besides its digits it has a point.
    if len < places + 2 || MOST_DIGITS + 1 < len || digits as usize + 1 < len {
        return None;
    }
    let point = len - places - 1;
    if numeral[point] != b'.' || (numeral[0] == b'0' && point != 1) {
        return None;
    }
    Some(point)
}

/// Where a numeral has its point, or ends if it has none, if it is the text of its number: a number without a sign, whose
/// decimals do not end in a zero. That its other bytes are digits is still to be seen. Few columns ask for it, so it stands
/// apart from the code for the others.
#[inline(never)]
pub(crate) fn plain_point(numeral: &[u8]) -> Option<usize>
    ensures short { IfSome result (λ point. length numeral.now < room) }
    ensures text { IfSome result (λ point. HasDigits point numeral.now → IsDecimalText numeral.now) }
{
    let len = numeral.len();
    if MOST_DIGITS < len {
        return None;
    }
    let point = first_point(numeral);
    if point == len {
        return whole_end(numeral, MOST_DIGITS);
    }
    if point == 0 || (numeral[0] == b'0' && point != 1) {
        return None;
    }
    if point + 1 == len || numeral[len - 1] == b'0' {
        return None;
    }
    Some(point)
}

// Where the first point stands, or the end where there is none.
#[inline(always)]
fn first_point(numeral: &[u8]) -> usize
    ensures within { result ≤ length numeral.now }
    ensures point { result < length numeral.now → slice_index numeral.now result ≡ 46 }
{
    let mut at = 0;
    while at < numeral.len() && numeral[at] != b'.' {
        at += 1;
    }
    at
}

/// A TAB and the bytes behind it, if each of them is a digit, but for the one at the point. They are checked and copied in
/// one pass, since to copy them again with a length that is known only then costs more than the rest.
#[inline(always)]
pub(crate) fn tabbed_digits(bytes: &[u8], point: usize) -> Option<[u8; ROOM]>
    requires { length bytes.now < room }
    ensures front { IfSome result (λ window. HasFront bytes.now window) }
    ensures digits { IfSome result (λ window. HasDigits point bytes.now) }
{
    let mut window = [b'\t'; ROOM];
    for (at, byte) in bytes.iter().enumerate() {
        if !byte.is_ascii_digit() && at != point {
            return None;
        }
        window[at + 1] = *byte;
    }
    Some(window)
}

/// Whether each byte of a numeral is a digit, but for the one at the point. The numeral stands at the front of the window.
#[inline(always)]
pub(crate) fn has_digits(numeral: &str, window: &[u8], point: usize) -> bool
    requires { IsWindow numeral.now window.now }
    ensures { result ≡ true → HasDigits point numeral.now }
{
    let len = numeral.len();
    let others = others_in_16(u8x16::from_slice(window));
    let first = others.trailing_zeros();
    if len <= first as usize {
        return true;
    }
    if first as usize != point {
        return false;
    }
    let between = (others >> (first + 1)).trailing_zeros() as usize;
    len <= point + 1 + between
}

// The bytes that are no digits.
#[inline(always)]
fn others_in_16(v: u8x16) -> u64
    ensures { result ≡ mask_l (map (λ x. not (is_ascii_digit x)) v) }
{
    (v.simd_lt(u8x16::splat(b'0')) | v.simd_gt(u8x16::splat(b'9'))).to_bitmask()
}
