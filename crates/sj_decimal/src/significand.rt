//! The digits of a number, read from the left.
ghost use Rattle.std.specs.Prelude.{◌≡◌, ◌+◌, ◌^◌, ◌<◌, ◌≤◌, fold, length};
ghost use Rattle.std.specs.Str.Parse.{AllDigits};
ghost use Rattle.sj_decimal.specs.Significant.{with_last_digit};

use crate::magnitude::{LIMIT, MAX_SCALE, scaled};

/// The number that the digits so far write.
#[derive(Clone, Copy)]
pub(crate) enum Significand {
    /// `magnitude * 10^zeros`: no zero stands at the end of `magnitude`, and no zeros are counted after 0.
    Fits { magnitude: u128, zeros: u128 },
    /// There are more than 38 digits from the first to the last that is not zero, so that no power of ten makes the
    /// number exact.
    TooLong,
}

impl Significand {
    ghost use Rattle.sj_decimal.specs.Significant.{with_digit, with_byte, zeros_of};

    /// No digits, which write 0.
    pub(crate) fn new() -> Significand
        ensures { result ≡ Significand.Fits 0 0 }
    {
        Significand::Fits {
            magnitude: 0,
            zeros: 0,
        }
    }

    /// The same with the digits of the text `digits` after them.
    pub(crate) fn followed_by(self, digits: &[u8]) -> Significand
        requires digits { AllDigits 10 digits.now }
        requires room { zeros_of self + length digits.now < 2 ^ 128 }
        ensures value { result ≡ fold with_byte self digits.now }
        ensures bound { zeros_of result ≤ zeros_of self + length digits.now }
    {
        let mut significand = self;
        for byte in digits {
            significand = significand.with_digit(*byte - b'0');
        }
        significand
    }

    #[tactic(auto, unfolding(crate::specs::Significant::with_digit))]
    pub(crate) fn with_digit(self, digit: u8) -> Significand
        requires digit { digit < 10 }
        requires room { zeros_of self + 1 < 2 ^ 128 }
        ensures { result ≡ with_digit self digit }
    {
        match self {
            Significand::TooLong => Significand::TooLong,
            Significand::Fits { magnitude, zeros } if digit == 0 => Significand::Fits {
                magnitude,
                zeros: if magnitude == 0 { 0 } else { zeros + 1 },
            },
            Significand::Fits { magnitude, zeros } => with_last_digit(magnitude, zeros, digit),
        }
    }
}

/// The digits of `magnitude`, the zeros, and a digit that is not zero.
#[tactic(auto, unfolding(crate::specs::Significant::with_last_digit))]
fn with_last_digit(magnitude: u128, zeros: u128, digit: u8) -> Significand
    requires digit { digit < 10 }
    ensures { result ≡ with_last_digit magnitude zeros digit }
{
    if zeros == 0 && magnitude < LIMIT / 10 {
        return Significand::Fits {
            magnitude: magnitude * 10 + digit as u128,
            zeros: 0,
        };
    }
    if magnitude == 0 {
        return Significand::Fits {
            magnitude: digit as u128,
            zeros: 0,
        };
    }
    if zeros >= MAX_SCALE as u128 {
        return Significand::TooLong;
    }
    match scaled(magnitude, zeros as u32 + 1) {
        Some(shifted) if shifted + (digit as u128) < LIMIT => Significand::Fits {
            magnitude: shifted + digit as u128,
            zeros: 0,
        },
        _ => Significand::TooLong,
    }
}
