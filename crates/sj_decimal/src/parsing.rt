//! The number that a text spells.
ghost use Rattle.std.specs.Prelude.{◌≡◌, ◌≢◌, ◌+◌, ◌-◌, ◌*◌, ◌%◌, ◌^◌, ◌<◌, ◌≤◌, length, min};
ghost use Rattle.std.specs.Str.Parse.{AllDigits, digits_value};
ghost use Rattle.sj_decimal.specs.Signed.{signed};
ghost use Rattle.std.specs.Bool.{MatchBool};
ghost use Rattle.sj_decimal.specs.Number.{value_of, shifted, IsNumber};

use crate::decimal::Decimal;
use crate::magnitude::{MAX_SCALE, scaled};
use crate::significand::Significand;
use crate::spelling::Spelling;

/// What a text is as a number of RFC 8259, section 6.
#[derive(Clone, Copy, Debug, PartialEq, Eq)]
pub enum Parsed {
    /// A number whose value is exact.
    Exact(Decimal),
    /// A number whose value is not exact: it has too many digits or decimals.
    Wide,
    /// No number.
    NotNumber,
}

/// An exponent of this size or more moves the point past every digit that a text in memory can have.
const MAX_EXPONENT: u128 = 1_000_000_000_000_000_000_000_000_000_000;

impl Decimal {
    ghost use Rattle.sj_decimal.specs.Parses.{ParsesAs, IsParsedDecimal};

    /// Reads a number as RFC 8259, section 6, writes it. The whole text is the number, with no white space round it.
    ///
    /// The exponent is read as an exact power of ten, so `1.50e1` is 15, and `0e999` is 0. Text of any length is read,
    /// in time linear in it.
    ///
    /// Example: `-1.50e1` is -15, `1e40` is wide, and `01` is no number
    /// (`sj_document_tests::examples::numbers_are_read`).
    #[inline(always)]
    pub fn parse(bytes: &[u8]) -> Parsed
        ensures value { ParsesAs bytes.now result }
        ensures decimal { IsParsedDecimal result }
    {
        match Decimal::parse_short(bytes) {
            Some(number) => Parsed::Exact(number),
            // What the call gives is taken apart. A call that gave the whole answer would keep the answer of the
            // short way in memory too.
            None => match Decimal::parse_any(bytes) {
                Parsed::Exact(number) => Parsed::Exact(number),
                Parsed::Wide => Parsed::Wide,
                Parsed::NotNumber => Parsed::NotNumber,
            },
        }
    }

    // The same, where few numbers need the general way.
    #[inline(never)]
    fn parse_any(bytes: &[u8]) -> Parsed
        ensures value { ParsesAs bytes.now result }
        ensures decimal { IsParsedDecimal result }
    {
        match Spelling::read(bytes) {
            None => Parsed::NotNumber,
            Some(spelling) => spelling.value(),
        }
    }
}

/// Whether the whole text is a number as RFC 8259, section 6, writes it.
///
/// Example: `1e40` is one, and `.5` is none (`sj_document_tests::examples::numbers_are_read`).
pub fn is_number(bytes: &[u8]) -> bool
    ensures { MatchBool result (IsNumber bytes.now) (IsNumber bytes.now → ⊥) }
{
    match Spelling::read(bytes) {
        None => false,
        Some(_) => true,
    }
}

/// The value of digits, or the greatest that matters.
fn capped_value(digits: &[u8]) -> u128
    requires { AllDigits 10 digits.now }
    ensures { result ≡ min (digits_value 10 digits.now) (10 ^ 30) }
{
    let mut value = 0;
    for byte in digits {
        value = (value * 10 + (*byte - b'0') as u128).min(MAX_EXPONENT);
    }
    value
}

impl Spelling<'_> {
    ghost use Rattle.sj_decimal.specs.Parts.{parts, HasDigits};
    ghost use Rattle.sj_decimal.specs.Parses.{Evaluates, IsParsedDecimal};

    fn exponent(&self) -> i128
        requires { AllDigits 10 self.now.exponent.now }
        ensures { result ≡ signed self.now.exponent_negative (min (digits_value 10 self.now.exponent.now) (10 ^ 30)) }
    {
        let magnitude = capped_value(self.exponent) as i128;
        if self.exponent_negative {
            -magnitude
        } else {
            magnitude
        }
    }

    fn value(&self) -> Parsed
        requires { HasDigits (parts self.now) }
        ensures value { Evaluates (value_of (parts self.now)) result }
        ensures decimal { IsParsedDecimal result }
    {
        let significand = Significand::new()
            .followed_by(self.whole)
            .followed_by(self.fraction);
        match significand {
            Significand::TooLong => Parsed::Wide,
            Significand::Fits { magnitude, zeros } => {
                let shift = self.exponent() + zeros as i128 - self.fraction.len() as i128;
                Parsed::shifted(self.negative, magnitude, shift)
            }
        }
    }
}

impl Parsed {
    ghost use Rattle.sj_decimal.specs.Parses.{Evaluates, IsParsedDecimal, option_parsed};

    fn exact(number: Option<Decimal>) -> Parsed
        ensures { result ≡ option_parsed number }
    {
        match number {
            Some(number) => Parsed::Exact(number),
            None => Parsed::Wide,
        }
    }

    /// The number of this sign and magnitude times `10^shift`.
    pub(crate) fn shifted(negative: bool, magnitude: u128, shift: i128) -> Parsed
        requires { magnitude % 10 ≡ 0 → magnitude ≡ 0 }
        ensures value { Evaluates (shifted negative magnitude shift) result }
        ensures decimal { IsParsedDecimal result }
    {
        if magnitude == 0 {
            return Parsed::exact(Decimal::normalized(negative, 0, 0));
        }
        if shift < 0 {
            let places = shift.unsigned_abs();
            if places > MAX_SCALE as u128 {
                return Parsed::Wide;
            }
            return Parsed::exact(Decimal::normalized(negative, magnitude, places as u32));
        }
        if shift > MAX_SCALE as i128 {
            return Parsed::Wide;
        }
        match scaled(magnitude, shift as u32) {
            Some(whole) => Parsed::exact(Decimal::normalized(negative, whole, 0)),
            None => Parsed::Wide,
        }
    }
}
