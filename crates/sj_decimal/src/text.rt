//! The text of a decimal.
ghost use Rattle.std.specs.Prelude.{◌≡◌, ◌+◌, ◌*◌, ◌/◌, ◌^◌, ◌<◌, ◌≤◌, ◌++◌, length, [], decimal, unsigned_abs, Some};
ghost use Rattle.std.specs.Fmt.{sign_text};
ghost use Rattle.sj_decimal.specs.Limits.{max_scale, magnitude_limit};
ghost use Rattle.sj_decimal.specs.Signed.{signed};
ghost use Rattle.sj_decimal.specs.Normal.{IsBelowLimit};
ghost use Rattle.sj_decimal.specs.Number.{SpellsExact};
ghost use Rattle.sj_decimal.specs.Text.{decimal_text, decimals_text, with_places, FitsPlaces};
ghost use Rattle.arrayvec.specs.ArrayString.{array_string_len};

use crate::decimal::Decimal;
use crate::magnitude::power_of_ten;
use arrayvec::ArrayString;
use itoa::Buffer;
use std::fmt;

/// The bytes of a decimal's text, at most.
pub const MAX_TEXT_LEN: usize = 48;

impl Decimal {
    /// The text: a minus sign where the number is negative, the whole part, and where there are decimals a point and
    /// the decimals. It is a number of RFC 8259, section 6, that spells this decimal.
    ///
    /// Example: -1500 over 10^3 has the text `-1.5` (`sj_document_tests::decimals::signs`).
    pub fn text(self) -> ArrayString<MAX_TEXT_LEN>
        ensures value { result.bytes ≡ decimal_text self }
        ensures spells { SpellsExact result.bytes self }
    {
        written(self.negative, self.magnitude.value(), self.scale)
    }

    /// The text with exactly this many decimals. The number times 10^places has to be whole, and below 10^38 in
    /// magnitude.
    ///
    /// Example: 9.5 with 2 decimals has the text `9.50` (`checks/rows/casts.txt`).
    pub fn text_places(self, places: u32) -> ArrayString<MAX_TEXT_LEN>
        requires places { places ≤ max_scale }
        requires fits { FitsPlaces places self }
        ensures { result.bytes ≡ decimal_text (with_places places self) }
    {
        let magnitude = self.magnitude.value() * power_of_ten(places - self.scale);
        written(self.negative, magnitude, places)
    }
}

/// The same as [`Decimal::text`]. The program writes that text itself; this is for messages of tests and of hosts.
impl fmt::Display for Decimal {
    ghost output = { λ d. Some (decimal_text d) };

    fn fmt<W: fmt::Write>(&self, f: &mut fmt::Formatter<W>) -> fmt::Result {
        f.write_str(self.text().as_str())
    }
}

impl fmt::Debug for Decimal {
    fn fmt<W: fmt::Write>(&self, f: &mut fmt::Formatter<W>) -> fmt::Result {
        f.write_str(self.text().as_str())
    }
}

/// Appends a minus sign where the number is negative.
fn push_sign(text: &mut ArrayString<MAX_TEXT_LEN>, negative: bool)
    requires { text.old.bytes ≡ [] }
    ensures { text.new.bytes ≡ sign_text negative }
{
    if negative {
        text.push('-');
    }
}

/// The text of `magnitude / 10^scale` with this sign.
fn written(negative: bool, magnitude: u128, scale: u32) -> ArrayString<MAX_TEXT_LEN>
    requires magnitude { magnitude < magnitude_limit }
    requires scale { scale ≤ max_scale }
    ensures { result.bytes ≡ sign_text negative ++ (decimal (magnitude / 10 ^ scale) ++ decimals_text scale magnitude) }
{
    // A text that was given by a call would be copied, and a processor waits where it reads it back.
    let mut text = ArrayString::new();
    push_sign(&mut text, negative);
    if scale == 0 {
        text.push_str(Buffer::new().format(magnitude));
    } else if magnitude < power_of_ten(scale) {
        push_fraction(&mut text, magnitude, scale);
    } else {
        push_digits(&mut text, magnitude, scale);
    }
    text
}

/// Appends a zero, a point and so many decimals, whose number is `magnitude`.
fn push_fraction(text: &mut ArrayString<MAX_TEXT_LEN>, magnitude: u128, scale: u32)
    requires some { 0 < scale }
    requires scale { scale ≤ max_scale }
    requires magnitude { magnitude < 10 ^ scale }
    requires room { array_string_len text.old ≤ 1 }
    ensures { text.new.bytes ≡ text.old.bytes ++ (decimal (magnitude / 10 ^ scale) ++ decimals_text scale magnitude) }
{
    text.push_str("0.");
    // A one before the decimals keeps their zeros.
    let mut buffer = Buffer::new();
    let digits = buffer.format(power_of_ten(scale) + magnitude);
    text.push_str(&digits[1..]);
}

/// Appends the digits of `magnitude`, with a point before the last `scale` of them.
fn push_digits(text: &mut ArrayString<MAX_TEXT_LEN>, magnitude: u128, scale: u32)
    requires some { 0 < scale }
    requires whole { 10 ^ scale ≤ magnitude }
    requires magnitude { magnitude < magnitude_limit }
    requires room { array_string_len text.old ≤ 1 }
    ensures { text.new.bytes ≡ text.old.bytes ++ (decimal (magnitude / 10 ^ scale) ++ decimals_text scale magnitude) }
{
    let mut buffer = Buffer::new();
    let digits = buffer.format(magnitude);
    let (whole, decimals) = digits.split_at(digits.len() - scale as usize);
    text.push_str(whole);
    text.push('.');
    text.push_str(decimals);
}
