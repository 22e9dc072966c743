//! Numbers of few digits and without an exponent, which most numbers are. They are read in one pass, in 64 bits.
ghost use Rattle.std.specs.Prelude.{◌≡◌, ◌-◌, ◌<◌, ◌≤◌, ◌^◌, length, IfSome};
ghost use Rattle.sj_decimal.specs.Normal.{IsDecimal};
ghost use Rattle.sj_decimal.specs.Number.{SpellsExact};
ghost use Rattle.sj_decimal.specs.Shorts.{ReadsDigits, ReadsWhole, ReadsFraction, HasSign};

use crate::decimal::Decimal;
use crate::magnitude::MAX_SCALE;

/// A digit more makes a number below 10^18 of each number below this one.
const TAKES_A_DIGIT: u64 = 100_000_000_000_000_000;

/// The number that the digits from the place on write behind those of `before`, and where they end, or where the number has
/// become too great to take one more.
#[inline(always)]
fn more_digits(bytes: &[u8], from: usize, before: u64) -> (u64, usize)
    requires within { from ≤ length bytes.now }
    requires small { before < 10 ^ 18 }
    ensures digits { ReadsDigits bytes.now from before result.1 result.0 }
    ensures small { result.0 < 10 ^ 18 }
{
    let mut value = before;
    let mut at = from;
    while at < bytes.len() && bytes[at].is_ascii_digit() && value < TAKES_A_DIGIT {
        value = value * 10 + (bytes[at] - b'0') as u64;
        at += 1;
    }
    (value, at)
}

/// Whether a minus sign stands at the place, and the place behind it.
#[inline(always)]
fn minus_end(bytes: &[u8], at: usize) -> (bool, usize)
    requires { at ≤ length bytes.now }
    ensures sign { HasSign bytes.now at result.1 result.0 }
    ensures within { result.1 ≤ length bytes.now }
{
    if at < bytes.len() && bytes[at] == b'-' {
        return (true, at + 1);
    }
    (false, at)
}

/// The digits before the point, and where they end. There is one at least, and no zero before others.
#[inline(always)]
fn whole_digits(bytes: &[u8], from: usize) -> Option<(u64, usize)>
    requires { from ≤ length bytes.now }
    ensures whole { IfSome result (λ r. ReadsWhole bytes.now from r.1 r.0) }
    ensures small { IfSome result (λ r. r.0 < 10 ^ 18) }
{
    let (value, end) = more_digits(bytes, from, 0);
    if end == from || (bytes[from] == b'0' && end - from > 1) {
        return None;
    }
    Some((value, end))
}

/// The number with the digits of the fraction at the place, if one stands there, behind those of `whole`, and where it ends.
#[inline(always)]
fn fraction_digits(bytes: &[u8], point: usize, whole: u64) -> Option<(u64, usize)>
    requires within { point ≤ length bytes.now }
    requires small { whole < 10 ^ 18 }
    ensures fraction { IfSome result (λ r. ReadsFraction bytes.now point whole r.1 r.0) }
    ensures small { IfSome result (λ r. r.0 < 10 ^ 18) }
{
    if point == bytes.len() || bytes[point] != b'.' {
        return Some((whole, point));
    }
    let (value, end) = more_digits(bytes, point + 1, whole);
    if end == point + 1 {
        None
    } else {
        Some((value, end))
    }
}

impl Decimal {
    /// The number that the bytes spell, if it is such a number.
    #[inline(always)]
    pub(crate) fn parse_short(bytes: &[u8]) -> Option<Decimal>
        ensures value { IfSome result (SpellsExact bytes.now) }
        ensures decimal { IfSome result IsDecimal }
    {
        let (negative, from) = minus_end(bytes, 0);
        let (whole, point) = whole_digits(bytes, from)?;
        let (magnitude, end) = fraction_digits(bytes, point, whole)?;
        if end < bytes.len() {
            return None;
        }
        // the point is no digit
        let scale = (end - point).saturating_sub(1);
        if scale > MAX_SCALE as usize {
            return None;
        }
        Some(Decimal::from_short(negative, magnitude, scale as u32))
    }
}
