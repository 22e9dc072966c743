//! Quotients by long division, a digit at a time.
ghost use Rattle.std.specs.Prelude.{◌≡◌, ◌<◌, ◌≤◌, ◌^◌, ◌+◌, ◌*◌, ◌/◌, ◌%◌, IfOk};
ghost use Rattle.sj_decimal.specs.Limits.{max_scale, magnitude_limit};
ghost use Rattle.sj_decimal.specs.Signed.{signed};
ghost use Rattle.sj_decimal.specs.Normal.{IsDecimal};
ghost use Rattle.sj_decimal.specs.Arithmetic.{exact_or_range};
ghost use Rattle.sj_decimal.specs.Significant.{Keeps, zeros_of};

use crate::arithmetic::NumFault;
use crate::decimal::Decimal;
use crate::magnitude::{MAX_SCALE, power_of_ten, reduce};
use crate::parsing::Parsed;
use crate::significand::Significand;

/// How many decimals a quotient has.
const QUOTIENT_SCALE: u32 = 16;

impl Decimal {
    ghost use Rattle.sj_decimal.specs.Arithmetic.{quotient};

    /// The quotient (ISO/IEC 9075-2, 6.29, numeric value expression), cut toward zero at 16 decimals.
    ///
    /// Example: 1.5 and -2.25 give -0.6666666666666666 (`sj_document_tests::examples::numbers_are_computed`).
    ///
    /// # Errors
    /// `ZeroDivide` exactly where the divisor is zero, and else `Range` exactly where the quotient that was cut is not
    /// exact.
    pub fn div(self, other: Decimal) -> Result<Decimal, NumFault>
        ensures value { result ≡ quotient self other }
        ensures decimal { IfOk result IsDecimal }
    {
        if other.magnitude.value() == 0 {
            return Err(NumFault::ZeroDivide);
        }
        let negative = self.negative != other.negative;
        let places = other.scale + QUOTIENT_SCALE;
        if self.scale > places {
            let cut = power_of_ten(self.scale - places);
            let magnitude = self.magnitude.value() / other.magnitude.value() / cut;
            return Decimal::limited(negative, magnitude, QUOTIENT_SCALE);
        }
        quotient(
            negative,
            self.magnitude.value(),
            other.magnitude.value(),
            places - self.scale,
        )
    }
}

/// The quotient `left * 10^count / right`, cut to a whole number, of whose digits the last 16 are decimals.
fn quotient(negative: bool, left: u128, right: u128, count: u32) -> Result<Decimal, NumFault>
    requires left { left < magnitude_limit }
    requires right { right < magnitude_limit }
    requires divisor { 0 < right }
    requires count { count ≤ max_scale + QUOTIENT_SCALE }
    ensures value { result ≡ exact_or_range (signed negative (left * 10 ^ count / right), 16) }
    ensures decimal { IfOk result IsDecimal }
{
    let Significand::Fits { magnitude, zeros } = quotient_digits(left, right, count) else {
        return Err(NumFault::Range);
    };
    match Parsed::shifted(negative, magnitude, zeros as i128 - QUOTIENT_SCALE as i128) {
        Parsed::Exact(number) => Ok(number),
        Parsed::Wide | Parsed::NotNumber => Err(NumFault::Range),
    }
}

/// The digits of `left * 10^count / right`, cut to a whole number.
fn quotient_digits(left: u128, right: u128, count: u32) -> Significand
    requires left { left < magnitude_limit }
    requires right { right < magnitude_limit }
    requires divisor { 0 < right }
    ensures value { Keeps (left * 10 ^ count / right) result }
    ensures bound { zeros_of result ≤ max_scale + count }
{
    let mut significand = Significand::of(left / right);
    let mut rest = left % right;
    for _place in 0..count {
        let (digit, next) = next_digit(rest, right);
        significand = significand.with_digit(digit);
        rest = next;
    }
    significand
}

/// The next digit of a quotient, and what is then left. Ten times `rest` may pass 128 bits, so it is made of sums.
fn next_digit(rest: u128, divisor: u128) -> (u8, u128)
    requires rest { rest < divisor }
    requires divisor { divisor < magnitude_limit }
    ensures digit { result.0 ≡ rest * 10 / divisor }
    ensures rest { result.1 ≡ rest * 10 % divisor }
    ensures bound { result.0 < 10 }
    ensures below { result.1 < divisor }
{
    let once = (0, rest);
    let twice = sum_of(once, once, divisor);
    let four_times = sum_of(twice, twice, divisor);
    let five_times = sum_of(four_times, once, divisor);
    sum_of(five_times, five_times, divisor)
}

/// The sum of two numbers, each given as a quotient and a rest of the division by `divisor`.
fn sum_of(left: (u8, u128), right: (u8, u128), divisor: u128) -> (u8, u128)
    requires divisor { divisor < magnitude_limit }
    requires left { left.1 < divisor }
    requires right { right.1 < divisor }
    requires digits { left.0 + right.0 < 255 }
    ensures value { result.0 * divisor + result.1 ≡ (left.0 * divisor + left.1) + (right.0 * divisor + right.1) }
    ensures below { result.1 < divisor }
    ensures digits { result.0 ≤ left.0 + right.0 + 1 }
{
    let digit = left.0 + right.0;
    let rest = left.1 + right.1;
    if rest < divisor {
        (digit, rest)
    } else {
        (digit + 1, rest - divisor)
    }
}

impl Significand {
    ghost use Rattle.sj_decimal.specs.Significant.{Keeps, zeros_of};

    /// The digits of a number below the limit.
    fn of(number: u128) -> Significand
        requires { number < magnitude_limit }
        ensures value { Keeps number result }
        ensures bound { zeros_of result ≤ max_scale }
    {
        let (magnitude, places) = reduce(number, MAX_SCALE);
        Significand::Fits {
            magnitude,
            zeros: (MAX_SCALE - places) as u128,
        }
    }
}
