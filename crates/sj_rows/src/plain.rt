// Passing over the bytes of a field that stand for themselves, many at a step.
ghost use Rattle.std.specs.Prelude.{◌≡◌, ◌+◌, ◌≤◌, length, drop, map, true};
ghost use Rattle.std.specs.List.{prefix_len};
ghost use Rattle.std.specs.Simd.Lanes.{mask_l};
ghost use Rattle.sj_rows.specs.RowText.{has_escape, escaped, stands};
ghost use Rattle.sj_doc.specs.StoredTexts.{IsWindow};

use std::simd::prelude::*;

// The bytes that have escapes.
#[inline(always)]
pub(crate) fn escapes_in_16(v: u8x16) -> u64
    ensures { result ≡ mask_l (map has_escape v) }
{
    (v.simd_eq(u8x16::splat(b'\\'))
        | v.simd_eq(u8x16::splat(b'\t'))
        | v.simd_eq(u8x16::splat(b'\n'))
        | v.simd_eq(u8x16::splat(b'\r'))).to_bitmask()
}

// Whether no byte of a text has an escape. It stands at the front of the window.
#[inline(always)]
pub(crate) fn is_plain(text: &str, window: &[u8]) -> bool
    requires { IsWindow text.now window.now }
    ensures { result ≡ true → escaped text.now ≡ text.now }
{
    text.len() <= escapes_in_16(u8x16::from_slice(window)).trailing_zeros() as usize
}

#[inline(always)]
fn escapes_in_8(v: u8x8) -> u64
    ensures { result ≡ mask_l (map has_escape v) }
{
    (v.simd_eq(u8x8::splat(b'\\'))
        | v.simd_eq(u8x8::splat(b'\t'))
        | v.simd_eq(u8x8::splat(b'\n'))
        | v.simd_eq(u8x8::splat(b'\r'))).to_bitmask()
}

// Whether a byte of a field has an escape.
#[inline(always)]
fn is_escaped(byte: u8) -> bool
    ensures { result ≡ has_escape byte }
{
    byte == b'\\' || byte == b'\t' || byte == b'\n' || byte == b'\r'
}

// How far bytes stand for themselves from the place on: the place of the first that does not, or the length.
#[inline(always)]
pub(crate) fn plain_end(bytes: &[u8], from: usize) -> usize
    requires { from ≤ length bytes.now }
    ensures { result ≡ from + prefix_len stands (drop from bytes.now) }
{
    let mut i = from;
    while bytes.len() - i >= 16 {
        let found = escapes_in_16(u8x16::from_slice(&bytes[i..]));
        if found != 0 {
            return i + found.trailing_zeros() as usize;
        }
        i += 16;
    }
    plain_end_of_15(bytes, i)
}

// Near the end of the bytes.
#[inline(always)]
fn plain_end_of_15(bytes: &[u8], from: usize) -> usize
    requires { from ≤ length bytes.now }
    ensures { result ≡ from + prefix_len stands (drop from bytes.now) }
{
    if bytes.len() - from < 8 {
        return plain_end_by_one(bytes, from);
    }
    let found = escapes_in_8(u8x8::from_slice(&bytes[from..]));
    if found != 0 {
        return from + found.trailing_zeros() as usize;
    }
    plain_end_by_one(bytes, from + 8)
}

#[inline(always)]
fn plain_end_by_one(bytes: &[u8], from: usize) -> usize
    requires { from ≤ length bytes.now }
    ensures { result ≡ from + prefix_len stands (drop from bytes.now) }
{
    let mut i = from;
    while i < bytes.len() && !is_escaped(bytes[i]) {
        i += 1;
    }
    i
}
