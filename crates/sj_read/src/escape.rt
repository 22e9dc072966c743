// Escapes of a string (RFC 8259, section 7).
ghost use Rattle.std.specs.Prelude.{◌≡◌, ◌≤◌, ◌<◌, ◌^◌, length, None, MatchOption};
ghost use Rattle.sj_json.specs.Machine.{begun, unit, high as high_came};
ghost use Rattle.sj_read.specs.Strings.{letter_or_none, digit_or_none, IsHighUnit, HasUnit, NoUnit, FindsFrom, FailsFrom, FindsEscape, NoEscape};

use sj_base::{is_high_surrogate, is_low_surrogate, surrogate_pair_char};

// What each byte stands for behind a backslash, if it is an escape of one letter, and 0 if it is none.
const LETTERS: [u8; 256] = [
    0, 0, 0, 0, 0, 0, 0, 0, 0, 0, 0, 0, 0, 0, 0, 0, 0, 0, 0, 0, 0, 0, 0, 0, 0, 0, 0, 0, 0, 0, 0, 0,
    0, 0, 34, 0, 0, 0, 0, 0, 0, 0, 0, 0, 0, 0, 0, 47, 0, 0, 0, 0, 0, 0, 0, 0, 0, 0, 0, 0, 0, 0, 0,
    0, 0, 0, 0, 0, 0, 0, 0, 0, 0, 0, 0, 0, 0, 0, 0, 0, 0, 0, 0, 0, 0, 0, 0, 0, 0, 0, 0, 0, 92, 0,
    0, 0, 0, 0, 8, 0, 0, 0, 12, 0, 0, 0, 0, 0, 0, 0, 10, 0, 0, 0, 13, 0, 9, 0, 0, 0, 0, 0, 0, 0, 0,
    0, 0, 0, 0, 0, 0, 0, 0, 0, 0, 0, 0, 0, 0, 0, 0, 0, 0, 0, 0, 0, 0, 0, 0, 0, 0, 0, 0, 0, 0, 0, 0,
    0, 0, 0, 0, 0, 0, 0, 0, 0, 0, 0, 0, 0, 0, 0, 0, 0, 0, 0, 0, 0, 0, 0, 0, 0, 0, 0, 0, 0, 0, 0, 0,
    0, 0, 0, 0, 0, 0, 0, 0, 0, 0, 0, 0, 0, 0, 0, 0, 0, 0, 0, 0, 0, 0, 0, 0, 0, 0, 0, 0, 0, 0, 0, 0,
    0, 0, 0, 0, 0, 0, 0, 0, 0, 0, 0, 0, 0, 0, 0, 0, 0, 0, 0, 0, 0, 0, 0, 0, 0, 0, 0, 0, 0, 0, 0, 0,
    0, 0, 0,
];

// What each byte is as a hexadecimal digit, in either case, and 16 if it is none.
const DIGITS: [u8; 256] = [
    16, 16, 16, 16, 16, 16, 16, 16, 16, 16, 16, 16, 16, 16, 16, 16, 16, 16, 16, 16, 16, 16, 16, 16,
    16, 16, 16, 16, 16, 16, 16, 16, 16, 16, 16, 16, 16, 16, 16, 16, 16, 16, 16, 16, 16, 16, 16, 16,
    0, 1, 2, 3, 4, 5, 6, 7, 8, 9, 16, 16, 16, 16, 16, 16, 16, 10, 11, 12, 13, 14, 15, 16, 16, 16,
    16, 16, 16, 16, 16, 16, 16, 16, 16, 16, 16, 16, 16, 16, 16, 16, 16, 16, 16, 16, 16, 16, 16, 10,
    11, 12, 13, 14, 15, 16, 16, 16, 16, 16, 16, 16, 16, 16, 16, 16, 16, 16, 16, 16, 16, 16, 16, 16,
    16, 16, 16, 16, 16, 16, 16, 16, 16, 16, 16, 16, 16, 16, 16, 16, 16, 16, 16, 16, 16, 16, 16, 16,
    16, 16, 16, 16, 16, 16, 16, 16, 16, 16, 16, 16, 16, 16, 16, 16, 16, 16, 16, 16, 16, 16, 16, 16,
    16, 16, 16, 16, 16, 16, 16, 16, 16, 16, 16, 16, 16, 16, 16, 16, 16, 16, 16, 16, 16, 16, 16, 16,
    16, 16, 16, 16, 16, 16, 16, 16, 16, 16, 16, 16, 16, 16, 16, 16, 16, 16, 16, 16, 16, 16, 16, 16,
    16, 16, 16, 16, 16, 16, 16, 16, 16, 16, 16, 16, 16, 16, 16, 16, 16, 16, 16, 16, 16, 16, 16, 16,
    16, 16, 16, 16, 16, 16, 16, 16, 16, 16, 16, 16, 16, 16,
];

#[inline(always)]
fn letter(byte: u8) -> u8
    ensures { result ≡ letter_or_none byte }
{
    LETTERS[byte as usize]
}

#[inline(always)]
fn digit(byte: u8) -> u32
    ensures { result ≡ digit_or_none byte }
{
    u32::from(DIGITS[byte as usize])
}

// The unit of UTF-16 that the four digits at the place write.
#[inline(always)]
fn unit_at(bytes: &[u8], from: usize) -> Option<u32>
    requires { from ≤ length bytes.now }
    ensures { MatchOption result (NoUnit bytes.now from) (HasUnit bytes.now from) }
{
    if bytes.len() - from < 4 {
        return None;
    }
    let first = digit(bytes[from]);
    let second = digit(bytes[from + 1]);
    let third = digit(bytes[from + 2]);
    let fourth = digit(bytes[from + 3]);
    if (first > 15) | (second > 15) | (third > 15) | (fourth > 15) {
        return None;
    }
    Some(((first * 16 + second) * 16 + third) * 16 + fourth)
}

// The character of a pair whose first unit is `high`, and whose second one is to be written at the place.
#[inline(always)]
fn pair_at(bytes: &[u8], from: usize, high: u32) -> Option<(char, usize)>
    requires within { from ≤ length bytes.now }
    requires high { IsHighUnit high }
    ensures { MatchOption result (FailsFrom (high_came high) bytes.now from) (λ r. FindsFrom (high_came high) bytes.now from r.0 r.1) }
{
    if bytes.len() - from < 2 {
        return None;
    }
    if bytes[from] != b'\\' {
        return None;
    }
    if bytes[from + 1] != b'u' {
        return None;
    }
    let low = unit_at(bytes, from + 2)?;
    if !is_low_surrogate(low) {
        return None;
    }
    Some((surrogate_pair_char(high, low), from + 6))
}

// The character whose first unit the digits at the place write, behind a "u".
#[inline(always)]
fn unit_char(bytes: &[u8], from: usize) -> Option<(char, usize)>
    requires { from ≤ length bytes.now }
    ensures { MatchOption result (FailsFrom (unit None 0 0) bytes.now from) (λ r. FindsFrom (unit None 0 0) bytes.now from r.0 r.1) }
{
    let code = unit_at(bytes, from)?;
    if is_high_surrogate(code) {
        return pair_at(bytes, from + 4, code);
    }
    // a low surrogate alone is no character
    match char::from_u32(code) {
        Some(c) => Some((c, from + 4)),
        None => None,
    }
}

// The character of the escape that goes on at `from`, behind its backslash, and the place behind it. Most escapes
// are one letter, which is looked at first.
#[inline(always)]
pub(crate) fn escaped_char(bytes: &[u8], from: usize) -> Option<(char, usize)>
    requires { from ≤ length bytes.now }
    ensures { MatchOption result (NoEscape bytes.now from) (λ r. FindsEscape bytes.now from r.0 r.1) }
{
    if from == bytes.len() {
        return None;
    }
    let c = letter(bytes[from]);
    if c != 0 {
        return Some((c as char, from + 1));
    }
    if bytes[from] != b'u' {
        return None;
    }
    unit_char(bytes, from + 1)
}
