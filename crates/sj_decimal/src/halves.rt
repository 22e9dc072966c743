//! Whole numbers of 128 bits in two halves.
ghost use Rattle.std.specs.Prelude.{◌≡◌, ◌<◌, ◌^◌};

use std::marker::Model;

/// How much one of the upper half is.
const UPPER: u128 = 1 << 64;

/// A whole number of 128 bits in two halves. A decimal with a number of 128 bits in it would be a third larger, with
/// eight bytes that nothing uses, and each result that holds a decimal half as large again.
#[derive(Clone, Copy)]
pub(crate) struct Halves {
    upper: u64,
    lower: u64,
}

impl Model for Halves {
    ghost use Rattle.std.specs.Prelude.{ℕ, ◌+◌, ◌*◌, ◌/◌, ◌%◌, ◌^◌, ◌<◌};
    ghost use Rattle.std.proofs.lemmas.Nat.{div-mul-add, mod-mul-add};

    ghost Value = { ℕ };

    ghost view = { λ h. h.upper * 2 ^ 64 + h.lower };

    ghost invariant = { λ h. h.lower < 2 ^ 64 };

    ghost inverse = { λ n. record { upper = n / 2 ^ 64; lower = n % 2 ^ 64 } };

    ghost inverse_ok = { λ h below i. record {
      upper = div-mul-add h.upper (2 ^ 64) h.lower below i;
      lower = mod-mul-add h.upper (2 ^ 64) h.lower below i;
    } };
}

impl Halves {
    /// Holds the number.
    #[inline(always)]
    pub(crate) fn new(number: u128) -> Halves
        ensures { result ≡ number }
    {
        Halves {
            upper: (number / UPPER) as u64,
            lower: (number % UPPER) as u64,
        }
    }

    /// The number.
    #[inline(always)]
    pub(crate) fn value(self) -> u128
        ensures { result ≡ self }
    {
        self.upper as u128 * UPPER + self.lower as u128
    }
}
