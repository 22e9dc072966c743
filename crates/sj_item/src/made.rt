// A number as an item holds it.
ghost use Rattle.std.specs.Prelude.{◌≡◌, ◌+◌, ◌*◌, ◌^◌, ◌<◌, pos, IfSome};
ghost use Rattle.sj_decimal.specs.Limits.{magnitude_limit};
ghost use Rattle.sj_decimal.specs.Signed.{signed};
ghost use Rattle.sj_decimal.specs.Normal.{IsDecimal};

use sj_decimal::Decimal;

/// How much one of the upper half of a magnitude is.
const UPPER: u128 = 1 << 64;

/// An exact decimal, as an item holds it. Contracts see the decimal, `exact_value`.
#[derive(Clone, Copy)]
pub struct Exact {
    // The magnitude in two halves: items with a number of 128 bits in them would be half as large again.
    upper: u64,
    lower: u64,
    scale: u32,
    negative: bool,
    ghost exact: { IsDecimal (signed negative (upper * 2 ^ 64 + lower), scale) },
}

impl Exact {
    ghost use Rattle.sj_item.specs.MadeValues.{exact_value};

    /// Holds the decimal.
    pub fn new(value: Decimal) -> Exact
        ensures { exact_value result ≡ value }
    {
        let (coefficient, scale) = value.parts();
        let magnitude = coefficient.unsigned_abs();
        Exact {
            upper: (magnitude / UPPER) as u64,
            lower: (magnitude % UPPER) as u64,
            scale,
            negative: coefficient < 0,
        }
    }

    /// The decimal.
    pub fn value(self) -> Decimal
        ensures { result ≡ exact_value self }
    {
        let (coefficient, scale) = self.parts();
        Decimal::from_normal(coefficient, scale)
    }

    /// The number, where it is a whole one of 64 bits and without a sign.
    #[inline(always)]
    pub(crate) fn short_whole(self) -> Option<u64>
        ensures { IfSome result (λ n. exact_value self ≡ (pos n, 0)) }
    {
        if self.upper == 0 && self.scale == 0 && !self.negative {
            return Some(self.lower);
        }
        None
    }

    /// Its coefficient and its scale.
    #[inline(always)]
    pub(crate) fn parts(self) -> (i128, u32)
        ensures value { result ≡ exact_value self }
        ensures decimal { IsDecimal (exact_value self) }
    {
        let magnitude = self.upper as u128 * UPPER + self.lower as u128;
        (coefficient(self.negative, magnitude), self.scale)
    }
}

fn coefficient(negative: bool, magnitude: u128) -> i128
    requires { magnitude < magnitude_limit }
    ensures { result ≡ signed negative magnitude }
{
    let magnitude = magnitude as i128;
    if negative { -magnitude } else { magnitude }
}
