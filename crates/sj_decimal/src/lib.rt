//! Exact decimals: the numbers of documents, of casts and of arithmetic.
//!
//! A decimal is a whole number, its coefficient, over a power of ten, whose exponent is its scale. It is in normal
//! form: the scale is 0, or 10 does not divide the coefficient. The coefficient has at most 38 digits, and the scale is
//! at most 38. A number that has no such form is not exact. [`Decimal::parse`] then answers [`Parsed::Wide`], and
//! arithmetic [`NumFault::Range`]; nothing is ever rounded but by [`Decimal::round_to`] and, at 16 decimals, by
//! [`Decimal::div`].
//!
//! The crate stands on `arrayvec` and `itoa`, and takes no memory. Each call meets a definition on whole numbers of any
//! size (`specs/`), which knows no width. The code works in 128 bits, and tests before it multiplies. Contracts see a
//! [`Decimal`] as the pair of its coefficient and its scale. [`Decimal::parse`] accepts exactly the numbers of RFC
//! 8259, section 6, of any length, in time linear in the text.
#![tactic(auto)]

mod arithmetic;
mod comparing;
mod decimal;
mod division;
mod halves;
mod magnitude;
mod parsing;
mod rounding;
mod short;
mod significand;
mod spelling;
mod text;

pub use arithmetic::NumFault;
pub use comparing::Compare;
pub use decimal::Decimal;
pub use magnitude::MAX_DIGITS;
pub use parsing::{Parsed, is_number};
pub use text::MAX_TEXT_LEN;
