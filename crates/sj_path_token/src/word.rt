//! Words and variables.

ghost use Rattle.std.specs.Prelude.{◌≡◌, map};
ghost use Rattle.std.specs.Str.{bytes_eq};
ghost use Rattle.sj_base.specs.Gives.{Gives};
ghost use Rattle.sj_base.specs.Words.{first_like};
ghost use Rattle.sj_path_token.specs.Words.{keyword_of};
ghost use Rattle.sj_path_token.specs.Reading as reading;

use crate::bytes::{next_is_letter, word_len};
use crate::keyword::{KEYWORDS, Keyword};
use crate::token::Token;
use sj_base::{ParseRefusal, Text};
use std::alloc::Global;

/// The part that a word plays by a table of keywords: that of the first row that has it.
fn keyword_in(mut table: &[(&[u8], Keyword)], word: &[u8]) -> Keyword
    ensures { result ≡ first_like bytes_eq Keyword.Other (map (λ row. (row.0.now, row.1)) table.entry.now) word.now }
{
    while let [row, rest @ ..] = table {
        if word == row.0 {
            return row.1;
        }
        table = rest;
    }
    Keyword::Other
}

/// The part that a word plays.
#[tactic(auto, unfolding(crate::specs::Words::keyword_of))]
fn keyword(word: &[u8]) -> Keyword
    ensures { result ≡ keyword_of word.now }
{
    keyword_in(&KEYWORDS, word)
}

/// The word at the front.
#[tactic(auto, using(crate::proofs::Boundaries::word_boundary), unfolding(crate::specs::Reading::word_at))]
pub(crate) fn word(alloc: Global, text: &str) -> Result<(Token, usize), ParseRefusal>
    ensures { Gives (λ x. x) result (reading.exactly (reading.word_at text.now)) }
{
    let len = word_len(text.as_bytes());
    let word = &text[..len];
    Ok((
        Token::Word(keyword(word.as_bytes()), Text::from_str(alloc, word)?),
        len,
    ))
}

/// The root, or the variable whose name stands at the front of `text`, with the `$` before it.
#[tactic(auto, using(crate::proofs::Boundaries::word_boundary), unfolding(crate::specs::Reading::dollar_at))]
pub(crate) fn dollar(alloc: Global, text: &str) -> Result<(Token, usize), ParseRefusal>
    ensures { Gives (λ x. x) result (reading.exactly (reading.dollar_at text.now)) }
{
    if !next_is_letter(text.as_bytes()) {
        return Ok((Token::Root, 1));
    }
    let len = word_len(text.as_bytes());
    Ok((
        Token::Variable(Text::from_str(alloc, &text[..len])?),
        len + 1,
    ))
}
