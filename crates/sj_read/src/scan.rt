// Parts of a text.
ghost use Rattle.std.specs.Prelude.{◌≡◌, ℕ, List, ◌++◌, ◌+◌, ◌-◌, ◌<◌, ◌≤◌, length, take, drop, slice_index, false, IfSome};
ghost use Rattle.std.specs.Bool.{MatchBool};
ghost use Rattle.std.specs.List.{prefix_len};
ghost use Rattle.sj_base.specs.ByteClasses.{is_blank as blank_byte};
ghost use Rattle.sj_decimal.specs.Number.{begins_number as beginning_byte, is_number_byte as number_byte};
ghost use Rattle.sj_doc.specs.Builders.{feeds_behind, EndsInFeeds};
ghost use Rattle.sj_read.specs.Scans.{EndsPlain};

use crate::plain::{far_end, near_end};
use sj_base::{is_blank, is_plain};

// The byte at the place, if it is no white space.
#[inline(always)]
pub(crate) fn token_at(bytes: &[u8], at: usize) -> Option<u8>
    requires within { at < length bytes.now }
    requires feeds { EndsInFeeds bytes.now }
    ensures { IfSome result (λ c. (at + feeds_behind < length bytes.now) × (slice_index bytes.now at ≡ c) × (blank_byte c ≡ false)) }
{
    if is_blank(bytes[at]) {
        None
    } else {
        Some(bytes[at])
    }
}

// A byte with which a number may begin.
#[inline(always)]
pub(crate) fn begins_number(c: u8) -> bool
    ensures { result ≡ beginning_byte c }
{
    c.is_ascii_digit() || c == b'-'
}

#[inline(always)]
pub(crate) fn is_number_byte(c: u8) -> bool
    ensures { result ≡ number_byte c }
{
    c.is_ascii_digit() || (c == b'+' || (c == b'-' || (c == b'.' || (c == b'E' || c == b'e'))))
}

// The first byte from the place on that no number has, or the length.
#[inline(always)]
pub(crate) fn number_end(bytes: &[u8], from: usize) -> usize
    requires { from ≤ length bytes.now }
    ensures value { result ≡ from + prefix_len number_byte (drop from bytes.now) }
    ensures bound { result ≤ length bytes.now }
{
    let mut i = from;
    while i < bytes.len() && is_number_byte(bytes[i]) {
        i += 1;
    }
    i
}

// Whether the word stands at the place.
#[inline(always)]
pub(crate) fn follows(bytes: &[u8], at: usize, word: &[u8]) -> bool
    requires { at ≤ length bytes.now }
    ensures { MatchBool result (drop at bytes.now ≡ word.now ++ drop (length word.now) (drop at bytes.now))
        ((rest : List ℕ) → drop at bytes.now ≡ word.now ++ rest → ⊥) }
{
    bytes[at..].starts_with(word)
}

// Where the string ends whose text begins at `from`, if it has no escape: its closing quotation mark.
#[inline(always)]
pub(crate) fn string_end(bytes: &[u8], from: usize) -> Option<usize>
    requires within { from + feeds_behind ≤ length bytes.now }
    requires feeds { EndsInFeeds bytes.now }
    ensures { IfSome result (EndsPlain bytes.now from) }
{
    match near_end(bytes, from) {
        Some(end) => { if bytes[end] == b'"' { Some(end) } else { None } }
        None => far_string_end(bytes, from),
    }
}

// The same of a string that is longer than most.
#[inline(always)]
fn far_string_end(bytes: &[u8], from: usize) -> Option<usize>
    requires within { from + feeds_behind ≤ length bytes.now }
    requires feeds { EndsInFeeds bytes.now }
    ensures { IfSome result (EndsPlain bytes.now from) }
{
    let end = far_end(bytes, from);
    if bytes[end] == b'"' { Some(end) } else { None }
}

// Where a key ends whose text begins at `from`, if it has no escape. One of a single byte is told by the byte behind
// it, so that nothing behind it waits for a search.
#[inline(always)]
pub(crate) fn key_end(bytes: &[u8], from: usize) -> Option<usize>
    requires within { from + feeds_behind ≤ length bytes.now }
    requires feeds { EndsInFeeds bytes.now }
    ensures { IfSome result (EndsPlain bytes.now from) }
{
    if bytes[from + 1] == b'"' && is_plain(bytes[from]) {
        return Some(from + 1);
    }
    string_end(bytes, from)
}
