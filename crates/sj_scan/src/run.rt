// Runs of bytes that stand for themselves in a string and are ASCII: most bytes of most strings.
ghost use Rattle.std.specs.Prelude.{◌≡◌, ◌+◌, ◌≤◌, length, drop, map};
ghost use Rattle.std.specs.List.{prefix_len};
ghost use Rattle.std.specs.Simd.Lanes.{mask_l};
ghost use Rattle.sj_scan.specs.Runs.{is_stop, is_run};

use std::simd::prelude::*;

// Which of the bytes end a run.
#[inline(always)]
fn stops_in_16(v: u8x16) -> u64
    ensures { result ≡ mask_l (map is_stop v) }
{
    (v.simd_eq(u8x16::splat(b'"'))
        | v.simd_eq(u8x16::splat(b'\\'))
        | v.simd_lt(u8x16::splat(0x20))
        | v.simd_gt(u8x16::splat(0x7f))).to_bitmask()
}

#[inline(always)]
fn is_in_run(byte: u8) -> bool
    ensures { result ≡ is_run byte }
{
    !(byte == b'"' || (byte == b'\\' || (byte < 0x20 || byte > 0x7f)))
}

// The end of the run that goes on at the place, one byte at a step.
fn near_end(bytes: &[u8], from: usize) -> usize
    requires { from ≤ length bytes.now }
    ensures value { result ≡ from + prefix_len is_run (drop from bytes.now) }
    ensures bound { result ≤ length bytes.now }
{
    let mut at = from;
    while at < bytes.len() && is_in_run(bytes[at]) {
        at += 1;
    }
    at
}

// How many bytes the run at the front has.
pub(crate) fn run_len(bytes: &[u8]) -> usize
    ensures value { result ≡ prefix_len is_run bytes.now }
    ensures bound { result ≤ length bytes.now }
{
    let mut at = 0;
    'steps: while bytes.len() - at >= 16 {
        let found = stops_in_16(u8x16::from_slice(&bytes[at..]));
        if found != 0 {
            return at + found.trailing_zeros() as usize;
        }
        at += 16;
    }
    near_end(bytes, at)
}
