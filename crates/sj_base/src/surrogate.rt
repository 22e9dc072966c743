//! The units of UTF-16 that stand for one character in pairs.

ghost use Rattle.std.specs.Prelude.{◌≡◌, true};
ghost use Rattle.std.specs.Char.Utf16.{is_high_surrogate as high_surrogate, is_low_surrogate as low_surrogate, surrogate_pair_char as pair_char};

/// Whether a unit is the first of a pair.
#[inline]
pub fn is_high_surrogate(unit: u32) -> bool
    ensures { result ≡ high_surrogate unit }
{
    0xD800 <= unit && unit < 0xDC00
}

/// Whether a unit is the second of a pair.
#[inline]
pub fn is_low_surrogate(unit: u32) -> bool
    ensures { result ≡ low_surrogate unit }
{
    0xDC00 <= unit && unit < 0xE000
}

/// The character of a pair.
#[inline]
pub fn surrogate_pair_char(high: u32, low: u32) -> char
    requires high { high_surrogate high ≡ true }
    requires low { low_surrogate low ≡ true }
    ensures { result ≡ pair_char high low }
{
    char::from_u32(0x10000 + (high - 0xD800) * 0x400 + (low - 0xDC00)).unwrap()
}
