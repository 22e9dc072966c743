//! Numbers.

ghost use Rattle.std.specs.Prelude.{◌≡◌, ◌≤◌, length};
ghost use Rattle.sj_base.specs.Gives.{Gives};
ghost use Rattle.sj_path_token.specs.Reading as reading;

use crate::bytes::digits_len;
use crate::token::Token;
use sj_base::{ParseRefusal, next_is, next_is_digit};
use sj_decimal::{Decimal, Parsed};

fn whole_len(bytes: &[u8]) -> usize
    ensures value { result ≡ reading.whole_len bytes.now }
    ensures within { result ≤ length bytes.now }
{
    if next_is(b'0', bytes) {
        1
    } else {
        digits_len(bytes)
    }
}

fn fraction_len(bytes: &[u8]) -> usize
    ensures value { result ≡ reading.fraction_len bytes.now }
    ensures within { result ≤ length bytes.now }
{
    match bytes {
        [b'.', after @ ..] if next_is_digit(after) => digits_len(after) + 1,
        _ => 0,
    }
}

fn sign_len(bytes: &[u8]) -> usize
    ensures value { result ≡ reading.sign_len bytes.now }
    ensures within { result ≤ length bytes.now }
{
    if next_is(b'+', bytes) || next_is(b'-', bytes) {
        1
    } else {
        0
    }
}

fn exponent_len(bytes: &[u8]) -> usize
    ensures value { result ≡ reading.exponent_len bytes.now }
    ensures within { result ≤ length bytes.now }
{
    let [b'e' | b'E', after @ ..] = bytes else {
        return 0;
    };
    let sign = sign_len(after);
    let digits = &after[sign..];
    if next_is_digit(digits) {
        sign + 1 + digits_len(digits)
    } else {
        0
    }
}

/// How many bytes the longest number at the front has.
#[tactic(auto, unfolding(crate::specs::Reading::number_len))]
fn number_len(bytes: &[u8]) -> usize
    ensures value { result ≡ reading.number_len bytes.now }
    ensures within { result ≤ length bytes.now }
{
    let whole = whole_len(bytes);
    let rest = &bytes[whole..];
    let fraction = fraction_len(rest);
    whole + (fraction + exponent_len(&rest[fraction..]))
}

/// The longest number at the front, which begins with a digit.
pub(crate) fn number(bytes: &[u8]) -> Result<(Token, usize), ParseRefusal>
    ensures { Gives (λ x. x) result (reading.exactly (reading.number_at bytes.now)) }
{
    let len = number_len(bytes);
    match Decimal::parse(&bytes[..len]) {
        Parsed::Exact(number) => Ok((Token::Number(number), len)),
        Parsed::Wide | Parsed::NotNumber => Err(ParseRefusal::Syntax),
    }
}
