//! Signs.

ghost use Rattle.std.specs.Prelude.{◌≡◌};
ghost use Rattle.sj_path_token.specs.Reading as reading;

use crate::token::Token;
use sj_decimal::Compare;

/// A sign that begins no other.
fn single_sign(b: u8) -> Option<Token>
    ensures { result ≡ reading.single_sign b }
{
    match b {
        b'.' => Some(Token::Dot),
        b'*' => Some(Token::Star),
        b'[' => Some(Token::OpenBracket),
        b']' => Some(Token::CloseBracket),
        b'(' => Some(Token::Open),
        b')' => Some(Token::Close),
        b',' => Some(Token::Comma),
        b'?' => Some(Token::Question),
        b'+' => Some(Token::Plus),
        b'-' => Some(Token::Minus),
        b'/' => Some(Token::Slash),
        b'%' => Some(Token::Percent),
        b'@' => Some(Token::At),
        _ => None,
    }
}

/// The longest sign that `first` and the bytes after it begin with, and how many bytes it has.
pub(crate) fn sign(first: u8, after: &[u8]) -> Option<(Token, usize)>
    ensures { result ≡ reading.sign_at first after.now }
{
    match (first, after) {
        (b'=', [b'=', ..]) => Some((Token::Compare(Compare::Eq), 2)),
        (b'=', _) => None,
        (b'!', [b'=', ..]) => Some((Token::Compare(Compare::Ne), 2)),
        (b'!', _) => Some((Token::Not, 1)),
        (b'<', [b'>', ..]) => Some((Token::Compare(Compare::Ne), 2)),
        (b'<', [b'=', ..]) => Some((Token::Compare(Compare::Le), 2)),
        (b'<', _) => Some((Token::Compare(Compare::Lt), 1)),
        (b'>', [b'=', ..]) => Some((Token::Compare(Compare::Ge), 2)),
        (b'>', _) => Some((Token::Compare(Compare::Gt), 1)),
        (b'&', [b'&', ..]) => Some((Token::And, 2)),
        (b'&', _) => None,
        (b'|', [b'|', ..]) => Some((Token::Or, 2)),
        (b'|', _) => None,
        _ => Some((single_sign(first)?, 1)),
    }
}
