// Short texts, which come by moves of one size and by no call that copies.
ghost use Rattle.std.specs.Prelude.{◌≡◌, ◌≤◌, ◌+◌, ◌++◌, length, take, map, not, true, OnOk, OnErr};
ghost use Rattle.std.specs.Simd.Lanes.{mask_l};
ghost use Rattle.sj_base.specs.ByteClasses.{is_plain};
ghost use Rattle.sj_text.specs.Windows.{most_short, most_quoted, IsQuoted};

use sj_base::{Bytes, Memory};
use std::simd::prelude::*;

/// The most bytes of a text that is short.
pub const MOST_SHORT: usize = 16;

/// The most bytes of a short string between quotation marks.
pub(crate) const MOST_QUOTED: usize = MOST_SHORT + 2;

/// Appends the first bytes of a window. Where its size is known when the program is built, it comes by a few moves, and
/// what is behind the first bytes is cut off again.
///
/// # Errors
/// [`Memory`] where memory runs out. `out` stays as it was.
#[inline(always)]
pub fn push_front(out: &mut Bytes, window: &[u8], count: usize) -> Result<(), Memory>
    requires { count ≤ length window.now }
    ensures ok { OnOk result (out.new ≡ out.old ++ take count window.now) }
    ensures err { OnErr result (out.new ≡ out.old) }
{
    out.push(window)?;
    let behind = window.len() - count;
    out.truncate(out.len() - behind);
    Ok(())
}

// Writes the bytes between quotation marks at the front of a window, if they are few and stand for themselves. Otherwise
// anything stands there.
#[inline(always)]
pub(crate) fn quote(window: &mut [u8], bytes: &[u8]) -> bool
    requires { length window.old ≡ most_quoted }
    ensures same { length window.new ≡ length window.old }
    ensures quoted { result ≡ true → IsQuoted bytes.now window.new }
{
    if bytes.len() > MOST_SHORT {
        return false;
    }
    put_at(window, 0, b"\"");
    put_short(window, 1, bytes);
    if stops_in_16(u8x16::from_slice(&window[1..])) != 0 {
        return false;
    }
    put_at(window, bytes.len() + 1, b"\"");
    true
}

// The bytes that do not stand for themselves.
#[inline(always)]
pub(crate) fn stops_in_16(v: u8x16) -> u64
    ensures { result ≡ mask_l (map (λ x. not (is_plain x)) v) }
{
    (v.simd_eq(u8x16::splat(b'"'))
        | v.simd_eq(u8x16::splat(b'\\'))
        | v.simd_lt(u8x16::splat(0x20))).to_bitmask()
}

/// Writes a few bytes, at most [`MOST_SHORT`], at a place of a window, by a move or two. What stands before the place stays.
#[inline(always)]
pub fn put_short(window: &mut [u8], at: usize, bytes: &[u8])
    requires short { length bytes.now ≤ most_short }
    requires within { at + length bytes.now ≤ length window.old }
    ensures put { take (at + length bytes.now) window.new ≡ take at window.old ++ bytes.now }
    ensures same { length window.new ≡ length window.old }
{
    match bytes.len() {
        0 => {}
        1 => put_at(window, at, &bytes[..1]),
        2..=3 => put_ends(window, at, bytes, 2),
        4..=7 => put_ends(window, at, bytes, 4),
        _ => put_ends(window, at, bytes, 8),
    }
}

// Writes the first and the last bytes, so many of each. They are all the bytes, and some may be in both.
#[inline(always)]
fn put_ends(window: &mut [u8], at: usize, bytes: &[u8], size: usize)
    requires ends { (size ≤ length bytes.now) × (length bytes.now ≤ size + size) }
    requires within { at + length bytes.now ≤ length window.old }
    ensures put { take (at + length bytes.now) window.new ≡ take at window.old ++ bytes.now }
    ensures same { length window.new ≡ length window.old }
{
    let last = bytes.len() - size;
    put_at(window, at, &bytes[..size]);
    put_at(window, at + last, &bytes[last..last + size]);
}

#[inline(always)]
fn put_at(window: &mut [u8], at: usize, bytes: &[u8])
    requires within { at + length bytes.now ≤ length window.old }
    ensures put { take (at + length bytes.now) window.new ≡ take at window.old ++ bytes.now }
    ensures same { length window.new ≡ length window.old }
{
    window[at..at + bytes.len()].copy_from_slice(bytes);
}
