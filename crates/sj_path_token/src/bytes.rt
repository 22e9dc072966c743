//! Runs of bytes of one class.

ghost use Rattle.std.specs.Prelude.{◌≡◌, ◌≤◌, length};
ghost use Rattle.std.specs.List.{prefix_len};
ghost use Rattle.std.specs.Char.{is_ascii_digit};
ghost use Rattle.sj_base.specs.ByteClasses as spec;
ghost use Rattle.sj_path_token.specs.Reading.{next_is_letter};

use sj_base::{is_letter, is_plain, is_word_byte};

pub(crate) fn next_is_letter(bytes: &[u8]) -> bool
    ensures { result ≡ next_is_letter bytes.now }
{
    match bytes {
        [] => false,
        [first, ..] => is_letter(*first),
    }
}

/// How many letters, digits and `_` stand at the front.
pub(crate) fn word_len(bytes: &[u8]) -> usize
    ensures value { result ≡ prefix_len spec.is_word_byte bytes.now }
    ensures within { result ≤ length bytes.now }
{
    bytes.iter().take_while(|b| is_word_byte(**b)).count()
}

/// How many bytes at the front stand for themselves in a string.
pub(crate) fn plain_len(bytes: &[u8]) -> usize
    ensures value { result ≡ prefix_len spec.is_plain bytes.now }
    ensures within { result ≤ length bytes.now }
{
    bytes.iter().take_while(|b| is_plain(**b)).count()
}

/// How many digits stand at the front.
pub(crate) fn digits_len(bytes: &[u8]) -> usize
    ensures value { result ≡ prefix_len is_ascii_digit bytes.now }
    ensures within { result ≤ length bytes.now }
{
    bytes.iter().take_while(|b| b.is_ascii_digit()).count()
}
