//! Token by token.

ghost use Rattle.std.specs.Prelude.{◌≡◌, ◌∷◌, ◌<◌, ◌≤◌, length, IsTrue};
ghost use Rattle.sj_base.specs.ByteClasses.{is_letter};
ghost use Rattle.sj_sql_token.specs.Tokens as spec;
ghost use Rattle.sj_sql_token.specs.Next.{IsNext, IsWithin};

use crate::bytes::{line_len, word_len};
use crate::number::number;
use crate::piece::{Next, Piece};
use crate::quoted::{Quoted, inside_len};
use crate::token::{Token, Word};
use crate::utf8::utf8;
use crate::word::keyword;
use sj_base::{is_blank, is_letter, next_is};

/// The sign that a byte is.
fn sign<'a>(b: u8) -> Piece<'a>
    ensures value { result ≡ spec.sign_of b }
    ensures within { IsWithin 0 result }
{
    match b {
        b'(' => Piece::Token(Token::Open, 0),
        b')' => Piece::Token(Token::Close, 0),
        b',' => Piece::Token(Token::Comma, 0),
        b';' => Piece::Token(Token::Semicolon, 0),
        b':' => Piece::Token(Token::Colon, 0),
        b'*' => Piece::Token(Token::Star, 0),
        b'+' => Piece::Token(Token::Plus, 0),
        b'-' => Piece::Token(Token::Minus, 0),
        _ => Piece::Broken,
    }
}

/// The longest word at the front of `bytes`, of which `after` are all but the first, a letter.
fn word<'a>(bytes: &'a [u8], first: u8, after: &'a [u8]) -> Piece<'a>
    requires bytes { bytes.now ≡ first ∷ after.now }
    requires letter { IsTrue (is_letter first) }
    ensures value { result ≡ spec.word_at first after.now }
    ensures within { IsWithin (length after.now) result }
{
    let len = word_len(after);
    let word = &bytes[..len + 1];
    match utf8(word) {
        Some(text) => Piece::Token(Token::Word(keyword(word), Word { text }), len),
        None => Piece::Broken,
    }
}

/// The string behind a quotation mark.
fn string(after: &[u8]) -> Piece<'_>
    ensures value { result ≡ spec.string_piece after.now (spec.string_end after.now) }
    ensures within { IsWithin (length after.now) result }
{
    let Some(len) = inside_len(b'\'', after) else {
        return Piece::Broken;
    };
    match utf8(&after[..len]) {
        Some(inside) => Piece::Token(
            Token::String(Quoted {
                mark: b'\'',
                inside,
            }),
            len + 1,
        ),
        None => Piece::Broken,
    }
}

/// The name behind a double quotation mark.
fn name(after: &[u8]) -> Piece<'_>
    ensures value { result ≡ spec.name_piece after.now (spec.name_end after.now) }
    ensures within { IsWithin (length after.now) result }
{
    let Some(len) = inside_len(b'"', after) else {
        return Piece::Broken;
    };
    if len == 0 {
        return Piece::Broken;
    }
    match utf8(&after[..len]) {
        Some(inside) => Piece::Token(Token::Quoted(Quoted { mark: b'"', inside }), len + 1),
        None => Piece::Broken,
    }
}

/// The comment behind its first minus sign.
fn comment<'a>(after: &[u8]) -> Piece<'a>
    ensures value { result ≡ spec.comment_at after.now }
    ensures within { IsWithin (length after.now) result }
{
    let len = line_len(after);
    match utf8(&after[..len]) {
        Some(_) => Piece::Passed(len),
        None => Piece::Broken,
    }
}

/// The longest piece at the front of `bytes`, of which `first` is the first and `after` are the others.
#[tactic(auto, unfolding(crate::specs::Tokens::piece_at))]
fn piece<'a>(bytes: &'a [u8], first: u8, after: &'a [u8]) -> Piece<'a>
    requires { bytes.now ≡ first ∷ after.now }
    ensures value { result ≡ spec.piece_at first after.now }
    ensures within { IsWithin (length after.now) result }
{
    if is_blank(first) {
        Piece::Passed(0)
    } else if is_letter(first) {
        word(bytes, first, after)
    } else if first.is_ascii_digit() {
        number(bytes, first, after)
    } else if first == b'\'' {
        string(after)
    } else if first == b'"' {
        name(after)
    } else if first == b'-' && next_is(b'-', after) {
        comment(after)
    } else {
        sign(first)
    }
}

/// What stands first in a file, or in what is left of one behind a token. It takes time linear in the bytes that it
/// passes.
pub fn next_token(file: &[u8]) -> Next<'_>
    ensures { IsNext file.now result }
{
    let mut rest = file;
    loop {
        let Some((first, after)) = rest.split_first() else {
            return Next::End;
        };
        match piece(rest, *first, after) {
            Piece::Token(token, len) => return Next::Token(token, &after[len..]),
            Piece::Passed(len) => rest = &after[len..],
            Piece::Broken => return Next::Fault,
        }
    }
}
