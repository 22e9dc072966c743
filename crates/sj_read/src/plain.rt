// Passing over the plain text of a string, many bytes at a step.
ghost use Rattle.std.specs.Prelude.{◌≡◌, ◌+◌, ◌<◌, ◌≤◌, length, drop, map, MatchOption};
ghost use Rattle.std.specs.List.{prefix_len};
ghost use Rattle.std.specs.Simd.Lanes.{mask_l};
ghost use Rattle.sj_base.specs.ByteClasses.{is_plain};
ghost use Rattle.sj_doc.specs.Builders.{feeds_behind, EndsInFeeds};
ghost use Rattle.sj_read.specs.Scans.{is_stop};

use std::simd::prelude::*;

#[inline(always)]
fn stops_in_16(v: u8x16) -> u64
    ensures { result ≡ mask_l (map is_stop v) }
{
    (v.simd_eq(u8x16::splat(b'"'))
        | v.simd_eq(u8x16::splat(b'\\'))
        | v.simd_lt(u8x16::splat(0x20))).to_bitmask()
}

// The first quotation mark, backslash or control character from the place on, if one stands among the next 16 bytes, as
// most do.
#[inline(always)]
pub(crate) fn near_end(text: &[u8], from: usize) -> Option<usize>
    requires { from + feeds_behind ≤ length text.now }
    ensures { MatchOption result (prefix_len is_plain (drop from text.now) ≡ 16 + prefix_len is_plain (drop (from + 16) text.now))
        (λ end. (end ≡ from + prefix_len is_plain (drop from text.now)) × (end < length text.now)) }
{
    let found = stops_in_16(u8x16::from_slice(&text[from..]));
    if found == 0 {
        return None;
    }
    Some(from + found.trailing_zeros() as usize)
}

// The same, wherever it stands: at the latest it is the line feed behind the line.
#[inline(never)]
pub(crate) fn far_end(text: &[u8], from: usize) -> usize
    requires within { from + feeds_behind ≤ length text.now }
    requires feeds { EndsInFeeds text.now }
    ensures value { result ≡ from + prefix_len is_plain (drop from text.now) }
    ensures bound { result < length text.now }
{
    let mut at = from;
    'steps: loop {
        match near_end(text, at) {
            Some(end) => return end,
            None => at += 16,
        }
    }
}

// The same from any place.
#[inline(always)]
pub(crate) fn plain_end(text: &[u8], from: usize) -> usize
    requires within { from ≤ length text.now }
    requires feeds { EndsInFeeds text.now }
    ensures value { result ≡ from + prefix_len is_plain (drop from text.now) }
    ensures bound { result ≤ length text.now }
{
    // Nothing but line feeds stands there.
    if text.len() - from < 16 {
        return from;
    }
    match near_end(text, from) {
        Some(end) => end,
        None => far_end(text, from + 16),
    }
}
