//! Sums, differences, products, quotients and remainders.
ghost use Rattle.std.specs.Prelude.{◌≡◌, ◌<◌, ◌≤◌, ◌^◌, ◌+◌, ◌+ℤ◌, max, neg_ℤ, pos, unsigned_abs, IfOk};
ghost use Rattle.sj_decimal.specs.Limits.{magnitude_limit};
ghost use Rattle.sj_decimal.specs.Signed.{signed};
ghost use Rattle.sj_decimal.specs.Normal.{IsDecimal};
ghost use Rattle.sj_decimal.specs.Arithmetic.{sum, difference, product, remainder, limited};
ghost use Rattle.sj_decimal.specs.Magnitudes.{magnitudes_at};

use crate::decimal::Decimal;
use crate::magnitude::{LIMIT, scaled};

/// Why an operation on decimals has no result. Where both faults are there, it is `ZeroDivide`.
#[derive(Clone, Copy, Debug, PartialEq, Eq)]
pub enum NumFault {
    /// The result, or a coefficient on the way to it, is out of the limits (the condition 22003 of SQL).
    Range,
    /// The divisor is zero (the condition 22012 of SQL).
    ZeroDivide,
}

impl Decimal {
    /// The sum (ISO/IEC 9075-2, 6.29, numeric value expression). Both numbers are brought to the larger scale.
    ///
    /// Example: 1.5 and -2.25 give -0.75 (`sj_document_tests::examples::numbers_are_computed`).
    ///
    /// # Errors
    /// `Range` exactly where one of the coefficients at that scale, or their sum before it is reduced, reaches 10^38 in
    /// magnitude.
    pub fn add(self, other: Decimal) -> Result<Decimal, NumFault>
        ensures value { result ≡ sum self other }
        ensures decimal { IfOk result IsDecimal }
    {
        let Some((left, right, scale)) = magnitudes(
            self.magnitude.value(),
            self.scale,
            other.magnitude.value(),
            other.scale,
        ) else {
            return Err(NumFault::Range);
        };
        let (negative, magnitude) = signed_sum(self.negative, left, other.negative, right);
        Decimal::limited(negative, magnitude, scale)
    }

    /// The difference (ISO/IEC 9075-2, 6.29, numeric value expression). Both numbers are brought to the larger scale.
    ///
    /// Example: 1.5 and -2.25 give 3.75 (`sj_document_tests::examples::numbers_are_computed`).
    ///
    /// # Errors
    /// `Range` exactly where one of the coefficients at that scale, or their difference before it is reduced, reaches
    /// 10^38 in magnitude.
    pub fn sub(self, other: Decimal) -> Result<Decimal, NumFault>
        ensures value { result ≡ difference self other }
        ensures decimal { IfOk result IsDecimal }
    {
        let Some((left, right, scale)) = magnitudes(
            self.magnitude.value(),
            self.scale,
            other.magnitude.value(),
            other.scale,
        ) else {
            return Err(NumFault::Range);
        };
        let (negative, magnitude) = signed_sum(self.negative, left, !other.negative, right);
        Decimal::limited(negative, magnitude, scale)
    }

    /// The product (ISO/IEC 9075-2, 6.29, numeric value expression).
    ///
    /// Example: 1.5 and -2.25 give -3.375 (`sj_document_tests::examples::numbers_are_computed`).
    ///
    /// # Errors
    /// `Range` exactly where the product of the coefficients reaches 10^38 in magnitude, or the normal form of the
    /// product has more than 38 decimals.
    pub fn mul(self, other: Decimal) -> Result<Decimal, NumFault>
        ensures value { result ≡ product self other }
        ensures decimal { IfOk result IsDecimal }
    {
        let Some(magnitude) = self.magnitude.value().checked_mul(other.magnitude.value()) else {
            return Err(NumFault::Range);
        };
        Decimal::limited(
            self.negative != other.negative,
            magnitude,
            self.scale + other.scale,
        )
    }

    /// What is left of this number where the divisor is taken from it a whole number of times, which is the quotient
    /// cut toward zero. It has the sign of this number.
    ///
    /// Example: -2.25 and 1.5 give -0.75 (`sj_document_tests::examples::numbers_are_computed`).
    ///
    /// # Errors
    /// `ZeroDivide` exactly where the divisor is zero, and else `Range` exactly where a coefficient at the larger of
    /// the two scales reaches 10^38 in magnitude.
    pub fn rem(self, other: Decimal) -> Result<Decimal, NumFault>
        ensures value { result ≡ remainder self other }
        ensures decimal { IfOk result IsDecimal }
    {
        if other.magnitude.value() == 0 {
            return Err(NumFault::ZeroDivide);
        }
        let Some((left, right, scale)) = magnitudes(
            self.magnitude.value(),
            self.scale,
            other.magnitude.value(),
            other.scale,
        ) else {
            return Err(NumFault::Range);
        };
        Decimal::limited(self.negative, left % right, scale)
    }

    /// The number with the other sign.
    ///
    /// Example: -1.5 gives 1.5 (`sj_document_tests::decimals::signs`).
    pub fn neg(self) -> Decimal
        ensures value { result ≡ (neg_ℤ self.0, self.1) }
        ensures decimal { IsDecimal result }
    {
        Decimal::exact(!self.negative, self.magnitude.value(), self.scale)
    }

    /// The number without its sign.
    ///
    /// Example: -1.5 gives 1.5 (`sj_document_tests::decimals::signs`).
    pub fn abs(self) -> Decimal
        ensures value { result ≡ (pos (unsigned_abs self.0), self.1) }
        ensures decimal { IsDecimal result }
    {
        Decimal::exact(false, self.magnitude.value(), self.scale)
    }

    /// The decimal that stands for `magnitude / 10^scale` with this sign, where `magnitude` is below the limit before
    /// it is reduced.
    pub(crate) fn limited(negative: bool, magnitude: u128, scale: u32) -> Result<Decimal, NumFault>
        ensures value { result ≡ limited (signed negative magnitude) scale }
        ensures decimal { IfOk result IsDecimal }
    {
        if magnitude >= LIMIT {
            return Err(NumFault::Range);
        }
        match Decimal::normalized(negative, magnitude, scale) {
            Some(number) => Ok(number),
            None => Err(NumFault::Range),
        }
    }
}

/// Two magnitudes at the larger of their scales, and that scale, where both are below the limit.
#[tactic(auto, unfolding(crate::specs::Magnitudes::magnitudes_at))]
fn magnitudes(
    left: u128,
    left_scale: u32,
    right: u128,
    right_scale: u32,
) -> Option<(u128, u128, u32)>
    ensures { result ≡ magnitudes_at (max left_scale right_scale) left left_scale right right_scale }
{
    let scale = left_scale.max(right_scale);
    let left = scaled(left, scale - left_scale)?;
    let right = scaled(right, scale - right_scale)?;
    Some((left, right, scale))
}

/// The sign and magnitude of a sum.
fn signed_sum(negative: bool, magnitude: u128, other_negative: bool, other: u128) -> (bool, u128)
    requires left { magnitude < magnitude_limit }
    requires right { other < magnitude_limit }
    ensures { signed result.0 result.1 ≡ signed negative magnitude +ℤ signed other_negative other }
{
    if negative == other_negative {
        (negative, magnitude + other)
    } else if magnitude >= other {
        (negative, magnitude - other)
    } else {
        (other_negative, other - magnitude)
    }
}
