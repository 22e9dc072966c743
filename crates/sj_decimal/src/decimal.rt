//! The type of exact decimals.
ghost use Rattle.std.specs.Prelude.{◌≡◌, ◌≤◌, IfSome};
ghost use Rattle.std.specs.Option.{SomeIff};
ghost use Rattle.sj_decimal.specs.Limits.{max_scale};
ghost use Rattle.sj_decimal.specs.Signed.{signed};
ghost use Rattle.sj_decimal.specs.Normal.{normal, IsExact, IsDecimal, IsSameNumber};

use crate::halves::Halves;
use crate::magnitude::{LIMIT, MAX_SCALE, reduce, reduce_short};
use std::marker::Model;

/// An exact decimal: a whole number of at most 38 digits over a power of ten from 1 to 10^38, in normal form.
///
/// It is a number of one of SQL's exact numeric types (ISO/IEC 9075-2, 4.4, numbers). Two decimals are equal exactly
/// where they stand for the same number.
#[derive(Clone, Copy)]
pub struct Decimal {
    // The sign is last, so that no unused bytes are but the three behind it.
    pub(crate) magnitude: Halves,
    pub(crate) scale: u32,
    pub(crate) negative: bool,
}

impl Model for Decimal {
    ghost use Rattle.std.specs.Prelude.{ℤ, ℕ, unsigned_abs};
    ghost use Rattle.sj_decimal.specs.Signed.{signed, is_negative, IsSignOf, is_negative-signed, unsigned_abs-signed};
    ghost use Rattle.sj_decimal.specs.Normal.{IsDecimal};

    ghost Value = { ℤ × ℕ };

    ghost view = { λ d. (signed d.negative d.magnitude, d.scale) };

    ghost invariant = { λ d. IsDecimal (signed d.negative d.magnitude, d.scale) × IsSignOf d.negative d.magnitude };

    ghost inverse = { λ d. record { magnitude = unsigned_abs d.0; scale = d.1; negative = is_negative d.0 } };

    ghost inverse_ok = { λ d h i. record {
      magnitude = unsigned_abs-signed d.negative d.magnitude i;
      scale = d.scale;
      negative = is_negative-signed d.negative d.magnitude h.1 i;
    } };
}

impl Decimal {
    /// The decimal with this sign and magnitude, which are in normal form but for the sign of zero.
    #[inline]
    pub(crate) fn exact(negative: bool, magnitude: u128, scale: u32) -> Decimal
        requires { IsDecimal (signed negative magnitude, scale) }
        ensures { result ≡ (signed negative magnitude, scale) }
    {
        Decimal {
            magnitude: Halves::new(magnitude),
            scale,
            negative: negative && magnitude != 0,
        }
    }

    /// The exact decimal that stands for `magnitude / 10^scale` with this sign, if there is one.
    pub(crate) fn normalized(negative: bool, magnitude: u128, scale: u32) -> Option<Decimal>
        ensures value { SomeIff result (IsExact (signed negative magnitude, scale)) (normal (signed negative magnitude, scale)) }
        ensures decimal { IfSome result IsDecimal }
    {
        let (magnitude, scale) = reduce(magnitude, scale);
        if magnitude >= LIMIT || scale > MAX_SCALE {
            return None;
        }
        Some(Decimal::exact(negative, magnitude, scale))
    }

    /// The decimal `c / 10^s`, or `None` where that number is not exact: its normal form has 10^38 or more as the
    /// magnitude of the coefficient, or more than 38 decimals.
    ///
    /// Example: -1500 and 3 give -1.5; 1 and 39 give `None` (`sj_document_tests::decimals::parts`).
    pub fn from_parts(c: i128, s: u32) -> Option<Decimal>
        ensures value { SomeIff result (IsExact (c, s)) (normal (c, s)) }
        ensures decimal { IfSome result IsDecimal }
        ensures same { IfSome result (λ d. IsSameNumber d (c, s)) }
    {
        Decimal::normalized(c < 0, c.unsigned_abs(), s)
    }

    /// The decimal `magnitude / 10^scale` with this sign. A magnitude of 64 bits is below 10^38, so it is exact.
    ///
    /// Example: a sign, 1500 and 3 give -1.5 (`sj_document_tests::decimals::parts`).
    #[inline(always)]
    pub fn from_short(negative: bool, magnitude: u64, scale: u32) -> Decimal
        requires { scale ≤ max_scale }
        ensures exact { IsExact (signed negative magnitude, scale) }
        ensures value { result ≡ normal (signed negative magnitude, scale) }
        ensures decimal { IsDecimal result }
    {
        let (magnitude, scale) = reduce_short(magnitude, scale);
        Decimal::exact(negative, magnitude as u128, scale)
    }

    /// The decimal with this coefficient and this scale, which are in normal form, as those of `parts` are. It costs
    /// nothing but the sign.
    ///
    /// Example: -15 and 1 give -1.5 (`sj_document_tests::decimals::parts`).
    #[inline]
    pub fn from_normal(coefficient: i128, scale: u32) -> Decimal
        requires { IsDecimal (coefficient, scale) }
        ensures { result ≡ (coefficient, scale) }
    {
        Decimal::exact(coefficient < 0, coefficient.unsigned_abs(), scale)
    }

    /// The coefficient and the scale, in normal form: the number is the first over 10 to the power of the second.
    ///
    /// Example: -1.5 has -15 and 1 (`sj_document_tests::decimals::parts`).
    #[inline]
    pub fn parts(self) -> (i128, u32)
        ensures value { result ≡ self }
        ensures decimal { IsDecimal self }
    {
        let magnitude = self.magnitude.value() as i128;
        let coefficient = if self.negative { -magnitude } else { magnitude };
        (coefficient, self.scale)
    }
}
