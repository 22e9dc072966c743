// The text of a line, where it is well-formed UTF-8. Most lines are ASCII but for a few characters, which is told faster
// than by decoding each block.
ghost use Rattle.std.specs.Prelude.{◌≡◌, ◌+◌, ◌<◌, ◌≤◌, length, take, map, IsUtf8, MatchOption};
ghost use Rattle.std.specs.Bool.{MatchBool};
ghost use Rattle.std.specs.Simd.Lanes.{mask_l};
ghost use Rattle.sj_read.specs.Scans.{is_high, AsciiBetween};

use std::simd::prelude::*;

// A line with more characters that are no ASCII, and with more than one among so many bytes, is decoded in blocks.
const FEW: usize = 6;

const APART: usize = 16;

// Which of the bytes are above 127.
#[inline(always)]
fn high_in_32(v: u8x32) -> u64
    ensures { result ≡ mask_l (map is_high v) }
{
    v.simd_gt(u8x32::splat(0x7f)).to_bitmask()
}

#[inline(always)]
fn high_in_8(v: u8x8) -> u64
    ensures { result ≡ mask_l (map is_high v) }
{
    v.simd_gt(u8x8::splat(0x7f)).to_bitmask()
}

#[inline(always)]
fn high_in_4(v: u8x4) -> u64
    ensures { result ≡ mask_l (map is_high v) }
{
    v.simd_gt(u8x4::splat(0x7f)).to_bitmask()
}

// The first byte above 127 from the place on, or the length, one byte at a step.
fn ascii_end_by_one(bytes: &[u8], from: usize) -> usize
    requires { from ≤ length bytes.now }
    ensures later { from ≤ result }
    ensures within { result ≤ length bytes.now }
    ensures ascii { AsciiBetween bytes.now from result }
{
    let mut i = from;
    while i < bytes.len() && bytes[i] <= 0x7f {
        i += 1;
    }
    i
}

// The same, a vector at a step. The last one reaches back over bytes that were seen before.
#[inline(always)]
fn ascii_end(bytes: &[u8], from: usize) -> usize
    requires { from ≤ length bytes.now }
    ensures later { from ≤ result }
    ensures within { result ≤ length bytes.now }
    ensures ascii { AsciiBetween bytes.now from result }
{
    let mut i = from;
    while bytes.len() - i >= 32 {
        let found = high_in_32(u8x32::from_slice(&bytes[i..]));
        if found != 0 {
            return i + found.trailing_zeros() as usize;
        }
        i += 32;
    }
    if bytes.len() >= 32 && high_in_32(u8x32::from_slice(&bytes[bytes.len() - 32..])) == 0 {
        return bytes.len();
    }
    ascii_end_of_31(bytes, i)
}

// The same near the end of the bytes.
#[inline(always)]
fn ascii_end_of_31(bytes: &[u8], from: usize) -> usize
    requires { from ≤ length bytes.now }
    ensures later { from ≤ result }
    ensures within { result ≤ length bytes.now }
    ensures ascii { AsciiBetween bytes.now from result }
{
    let mut i = from;
    while bytes.len() - i >= 8 {
        let found = high_in_8(u8x8::from_slice(&bytes[i..]));
        if found != 0 {
            return i + found.trailing_zeros() as usize;
        }
        i += 8;
    }
    ascii_end_of_7(bytes, i)
}

// The same of the last seven bytes. Where there are four, the second vector reaches back over bytes of the first.
#[inline(always)]
fn ascii_end_of_7(bytes: &[u8], from: usize) -> usize
    requires within { from ≤ length bytes.now }
    requires few { length bytes.now < from + 8 }
    ensures later { from ≤ result }
    ensures within { result ≤ length bytes.now }
    ensures ascii { AsciiBetween bytes.now from result }
{
    let len = bytes.len();
    if len - from >= 4
        && high_in_4(u8x4::from_slice(&bytes[from..])) == 0
        && high_in_4(u8x4::from_slice(&bytes[len - 4..])) == 0
    {
        return len;
    }
    ascii_end_by_one(bytes, from)
}

// How many bytes a character has that begins with this byte, which is no ASCII.
fn char_len(first: u8) -> usize
    ensures { 0 < result }
{
    if first < 0xe0 {
        2
    } else if first < 0xf0 {
        3
    } else {
        4
    }
}

// Whether the line is a text, whatever it has.
fn decodes(line: &[u8]) -> bool
    ensures { MatchBool result (IsUtf8 line.now) (IsUtf8 line.now → ⊥) }
{
    match simdutf8::compat::from_utf8(line) {
        Ok(_) => true,
        Err(_) => false,
    }
}

// Whether the line is a text, which it is up to the place.
#[inline(never)]
fn is_text_from(line: &[u8], from: usize) -> bool
    requires within { from ≤ length line.now }
    requires text { IsUtf8 (take from line.now) }
    ensures { MatchBool result (IsUtf8 line.now) (IsUtf8 line.now → ⊥) }
{
    let mut at = from;
    let mut others = 0;
    while at < line.len() {
        if others >= FEW + at / APART {
            return decodes(line);
        }
        let len = char_len(line[at]);
        if len > line.len() - at {
            return decodes(line);
        }
        match std::str::from_utf8(&line[at..at + len]) {
            Ok(_) => at = ascii_end(line, at + len),
            Err(_) => return decodes(line),
        }
        others += 1;
    }
    true
}

// The text, if the line is one.
#[inline(always)]
pub(crate) fn text_of(line: &[u8]) -> Option<&str>
    ensures { MatchOption result (IsUtf8 line.now → ⊥) (λ text. (text.now ≡ line.now) × IsUtf8 line.now) }
{
    let at = ascii_end(line, 0);
    if at < line.len() && !is_text_from(line, at) {
        return None;
    }
    Some(unsafe { std::str::from_utf8_unchecked(line) })
}
