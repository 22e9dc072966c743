//! Strings.

ghost use Rattle.std.specs.Prelude.{◌≡◌, ◌<◌, true, false, Some, IfOk, IfSome, length, option_map};
ghost use Rattle.std.specs.Char.Utf16.{is_high_surrogate as is_high, is_low_surrogate as is_low};
ghost use Rattle.sj_path_token.specs.Strings as spec;
ghost use Rattle.sj_path_token.specs.Reading as reading;

use crate::bytes::plain_len;
use sj_base::{
    Memory, Text, is_high_surrogate, is_low_surrogate, letter_char, surrogate_pair_char,
};
use std::alloc::Global;

fn hex_digit(b: u8) -> Option<u32>
    ensures value { result ≡ spec.hex_digit b }
    ensures bound { IfSome result (λ n. n < 16) }
{
    if b.is_ascii_digit() {
        Some(u32::from(b - b'0'))
    } else if b'A' <= b && b <= b'F' {
        Some(u32::from(b - b'A') + 10)
    } else if b'a' <= b && b <= b'f' {
        Some(u32::from(b - b'a') + 10)
    } else {
        None
    }
}

/// Four hexadecimal digits as a number.
fn unit(a: u8, b: u8, c: u8, d: u8) -> Option<u32>
    ensures value { result ≡ spec.unit_of a b c d }
    ensures bound { IfSome result (λ n. n < 65536) }
{
    let a = hex_digit(a)?;
    let b = hex_digit(b)?;
    let c = hex_digit(c)?;
    let d = hex_digit(d)?;
    Some(4096 * a + 256 * b + 16 * c + d)
}

/// The second half of a pair of surrogates, as an escape of its own.
fn low(bytes: &[u8]) -> Option<u32>
    ensures value { result ≡ reading.low_at bytes.now }
    ensures low { IfSome result (λ low. is_low low ≡ true) }
{
    let [b'\\', b'u', a, b, c, d, ..] = bytes else {
        return None;
    };
    let low = unit(*a, *b, *c, *d)?;
    if is_low_surrogate(low) {
        Some(low)
    } else {
        None
    }
}

/// The character that a unit stands for by itself.
fn unpaired(unit: u32) -> Option<char>
    ensures { is_high unit ≡ false → is_low unit ≡ false → unit < 65536 → result ≡ Some unit }
{
    char::from_u32(unit)
}

/// The character that stands behind a backslash and `u`, and how many bytes it has with the `u`.
fn character(bytes: &[u8]) -> Option<(char, usize)>
    ensures { result ≡ reading.character_at bytes.now }
{
    let [a, b, c, d, after @ ..] = bytes else {
        return None;
    };
    let first = unit(*a, *b, *c, *d)?;
    if is_high_surrogate(first) {
        let second = low(after)?;
        return Some((surrogate_pair_char(first, second), 11));
    }
    if is_low_surrogate(first) {
        return None;
    }
    Some((unpaired(first)?, 5))
}

/// The character that stands behind a backslash, and how many bytes it has there.
#[tactic(auto, unfolding(crate::specs::Reading::escape_at))]
fn escape(bytes: &[u8]) -> Option<(char, usize)>
    ensures { result ≡ reading.escape_at bytes.now }
{
    match bytes {
        [] => None,
        [b'u', after @ ..] => character(after),
        [first, ..] => Some((letter_char(*first)?, 1)),
    }
}

/// What a string stands for, and how many bytes it has behind its first quotation mark. Nothing where no string stands.
pub(crate) fn string(alloc: Global, inside: &str) -> Result<Option<(Text, usize)>, Memory>
    ensures { IfOk result (λ o. reading.inside_from (length inside.now) inside.now ≡ option_map (λ x. (x.0, x.1)) o) }
{
    let mut value = String::new(alloc);
    let mut rest = inside;
    let mut at = 0;
    for _turn in 0..inside.len() {
        let bytes = rest.as_bytes();
        let len = plain_len(bytes);
        let Some((mark, after)) = bytes[len..].split_first() else {
            return Ok(None);
        };
        value.push_str(&rest[..len])?;
        if *mark == b'"' {
            return Ok(Some((Text::from_string(value), at + (len + 1))));
        }
        if *mark != b'\\' {
            return Ok(None);
        }
        let Some((c, escaped)) = escape(after) else {
            return Ok(None);
        };
        value.push(c)?;
        rest = &rest[len + (1 + escaped)..];
        at += len + (1 + escaped);
    }
    Ok(None)
}
