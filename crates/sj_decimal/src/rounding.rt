//! Whole numbers near a decimal, and rounding.
ghost use Rattle.std.specs.Prelude.{◌≡◌, ◌<◌, ◌≤◌, ◌^◌, ◌+◌, ◌*◌, ◌/◌, IfOk};
ghost use Rattle.sj_decimal.specs.Limits.{max_digits, max_scale, magnitude_limit};
ghost use Rattle.sj_decimal.specs.Signed.{signed};
ghost use Rattle.sj_decimal.specs.Normal.{IsDecimal};
ghost use Rattle.sj_decimal.specs.Rounding.{floor_of, ceiling_of, whole_of, rounded_within};
ghost use Rattle.sj_decimal.specs.Magnitudes.{quotient_toward};

use crate::arithmetic::NumFault;
use crate::decimal::Decimal;
use crate::magnitude::{divided, power_of_ten};

impl Decimal {
    /// The greatest whole number that is not above this one (ISO/IEC 9075-2, 6.30, numeric value function).
    ///
    /// Example: -2.25 gives -3 (`sj_document_tests::examples::numbers_are_rounded`).
    pub fn floor(self) -> Decimal
        ensures value { result ≡ (floor_of self, 0) }
        ensures decimal { IsDecimal result }
    {
        Decimal::whole(
            self.negative,
            whole_magnitude(self.magnitude.value(), self.scale, self.negative),
        )
    }

    /// The least whole number that is not below this one (ISO/IEC 9075-2, 6.30, numeric value function).
    ///
    /// Example: -2.25 gives -2 (`sj_document_tests::examples::numbers_are_rounded`).
    pub fn ceiling(self) -> Decimal
        ensures value { result ≡ (ceiling_of self, 0) }
        ensures decimal { IsDecimal result }
    {
        Decimal::whole(
            self.negative,
            whole_magnitude(self.magnitude.value(), self.scale, !self.negative),
        )
    }

    fn whole(negative: bool, magnitude: u128) -> Decimal
        requires { magnitude < magnitude_limit }
        ensures value { result ≡ (signed negative magnitude, 0) }
        ensures decimal { IsDecimal result }
    {
        Decimal::exact(negative, magnitude, 0)
    }

    /// The whole number that is left where the decimals are cut off.
    ///
    /// Example: -1.5 gives -1 (`sj_document_tests::decimals::signs`).
    pub fn to_whole(self) -> i128
        ensures { result ≡ whole_of self }
    {
        let (whole, _) = divided(self.magnitude.value(), power_of_ten(self.scale));
        let magnitude = whole as i128;
        if self.negative { -magnitude } else { magnitude }
    }

    /// This number rounded to `s` decimals, half away from zero, where that has at most `p` digits: the value of a cast
    /// to NUMERIC(p, s) (ISO/IEC 9075-2, 6.13, cast specification).
    ///
    /// Example: -2.25 at 4 digits and 1 decimal gives -2.3 (`sj_document_tests::examples::numbers_are_rounded`).
    ///
    /// # Errors
    /// `Range` exactly where the rounded number times 10^s reaches 10^p in magnitude.
    #[inline(always)]
    pub fn round_to(self, p: u32, s: u32) -> Result<Decimal, NumFault>
        requires some_digits { 1 ≤ p }
        requires digits { p ≤ max_digits }
        requires decimals { s ≤ p }
        ensures value { result ≡ rounded_within p s self }
        ensures decimal { IfOk result IsDecimal }
    {
        if self.scale <= s {
            // Nothing is cut off, so the number stays as it is.
            return if self.magnitude.value() < power_of_ten(p - s + self.scale) {
                Ok(self)
            } else {
                Err(NumFault::Range)
            };
        }
        self.cut_to(p, s)
    }

    // The same, where some decimals are cut off.
    #[inline(never)]
    fn cut_to(self, p: u32, s: u32) -> Result<Decimal, NumFault>
        requires fewer { s < self.1 }
        requires digits { p ≤ max_digits }
        requires decimals { s ≤ p }
        ensures value { result ≡ rounded_within p s self }
        ensures decimal { IfOk result IsDecimal }
    {
        let magnitude = rounded_magnitude(self.magnitude.value(), self.scale, s);
        if magnitude >= power_of_ten(p) {
            return Err(NumFault::Range);
        }
        Decimal::limited(self.negative, magnitude, s)
    }
}

/// `magnitude / 10^scale` with its decimals cut off, or with the next whole number in place of any decimals.
fn whole_magnitude(magnitude: u128, scale: u32, away: bool) -> u128
    requires magnitude { magnitude < magnitude_limit }
    requires scale { scale ≤ max_scale }
    ensures value { result ≡ quotient_toward away magnitude (10 ^ scale) }
    ensures bound { result ≤ magnitude }
{
    let (whole, rest) = divided(magnitude, power_of_ten(scale));
    if away && rest != 0 { whole + 1 } else { whole }
}

/// `magnitude / 10^scale * 10^places` rounded half up, where some decimals are cut off.
fn rounded_magnitude(magnitude: u128, scale: u32, places: u32) -> u128
    requires magnitude { magnitude < magnitude_limit }
    requires scale { scale ≤ max_scale }
    requires fewer { places < scale }
    ensures value { result ≡ (2 * (magnitude * 10 ^ places) + 10 ^ scale) / (2 * 10 ^ scale) }
    ensures bound { result < magnitude_limit }
{
    let power = power_of_ten(scale - places);
    let (whole, rest) = divided(magnitude, power);
    if rest >= power - rest {
        whole + 1
    } else {
        whole
    }
}
