//! Words, and the part that each plays.

ghost use Rattle.std.specs.Prelude.{◌≡◌, map};
ghost use Rattle.sj_base.specs.Words.{first_like};
ghost use Rattle.sj_sql_token.specs.Keywords as spec;

use crate::keyword::{KEYWORDS, Keyword};

/// Whether a word is spelt as a keyword, in any case of its letters.
fn is_spelt(word: &[u8], keyword: &[u8]) -> bool
    ensures { result ≡ spec.is_spelt word.now keyword.now }
{
    word.eq_ignore_ascii_case(keyword)
}

/// The part that a word plays by a table of keywords: that of the first row that it is spelt as.
fn keyword_in(mut table: &[(&[u8], Keyword)], word: &[u8]) -> Keyword
    ensures { result ≡ first_like spec.is_spelt Keyword.Other (map (λ row. (row.0.now, row.1)) table.entry.now) word.now }
{
    while let [row, rest @ ..] = table {
        if is_spelt(word, row.0) {
            return row.1;
        }
        table = rest;
    }
    Keyword::Other
}

/// The part that a word plays.
#[tactic(auto, unfolding(crate::specs::Keywords::keyword_of))]
pub(crate) fn keyword(word: &[u8]) -> Keyword
    ensures { result ≡ spec.keyword_of word.now }
{
    keyword_in(&KEYWORDS, word)
}
