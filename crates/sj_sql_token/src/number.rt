//! Numbers.

ghost use Rattle.std.specs.Prelude.{◌≡◌, ◌≤◌, ◌<◌, ◌+◌, ◌∷◌, ◌++◌, ◌==◌, ℕ, List, length, IsTrue};
ghost use Rattle.std.specs.Str.Parse.{AllDigits};
ghost use Rattle.std.specs.List.{prefix_len};
ghost use Rattle.std.specs.Char.{is_ascii_digit};
ghost use Rattle.sj_sql_token.specs.Numbers as spec;
ghost use Rattle.sj_sql_token.specs.Tokens.{number_at};
ghost use Rattle.sj_sql_token.specs.Next.{IsWithin};

use crate::bytes::digits_len;
use crate::piece::Piece;
use crate::token::Token;
use sj_base::next_is_digit;
use sj_decimal::{Decimal, Parsed};

/// How many bytes a point and the digits behind it have at the front.
fn fraction_len(bytes: &[u8]) -> usize
    ensures value { result ≡ spec.fraction_len bytes.now }
    ensures within { result ≤ length bytes.now }
{
    match bytes {
        [b'.', after @ ..] if next_is_digit(after) => digits_len(after) + 1,
        _ => 0,
    }
}

/// How many zeros stand at the front.
fn zeros_len(bytes: &[u8]) -> usize
    ensures value { result ≡ prefix_len (λ b. b == 48) bytes.now }
    ensures within { result ≤ length bytes.now }
{
    bytes.iter().take_while(|b| **b == b'0').count()
}

/// The number of these digits, if it is exact. The first `whole` of them stand before all others.
fn number_of(digits: &[u8], whole: usize) -> Option<Decimal>
    requires { whole < length digits.now }
    ensures { (w f : List ℕ) → digits.now ≡ w ++ spec.pointed f → length w ≡ whole + 1 → AllDigits 10 w → AllDigits 10 f
        → result ≡ spec.exact_of (spec.value_of w f) }
{
    let zeros = zeros_len(&digits[..whole]);
    match Decimal::parse(&digits[zeros..]) {
        Parsed::Exact(number) => Some(number),
        Parsed::Wide | Parsed::NotNumber => None,
    }
}

/// The longest number at the front of `bytes`, of which `after` are all but the first, a digit.
pub(crate) fn number<'a>(bytes: &[u8], first: u8, after: &[u8]) -> Piece<'a>
    requires bytes { bytes.now ≡ first ∷ after.now }
    requires digit { IsTrue (is_ascii_digit first) }
    ensures value { result ≡ number_at first after.now }
    ensures within { IsWithin (length after.now) result }
{
    let whole = digits_len(after);
    let fraction = fraction_len(&after[whole..]);
    let len = whole + fraction;
    match number_of(&bytes[..len + 1], whole) {
        None => Piece::Broken,
        Some(number) if fraction == 0 => Piece::Token(Token::Whole(number), len),
        Some(number) => Piece::Token(Token::Fraction(number), len),
    }
}
