//! The classes of bytes that JSON, paths and statements are read by.

ghost use Rattle.std.specs.Prelude.{◌≡◌};
ghost use Rattle.sj_base.specs.ByteClasses as spec;

/// Whether a byte is white space: space, TAB, LF or CR (RFC 8259, section 2).
#[inline(always)]
pub fn is_blank(byte: u8) -> bool
    ensures { result ≡ spec.is_blank byte }
{
    byte == b' ' || byte == b'\t' || byte == b'\n' || byte == b'\r'
}

/// Whether a byte is a letter of ASCII or `_`, as a word may begin.
#[inline]
pub fn is_letter(byte: u8) -> bool
    ensures { result ≡ spec.is_letter byte }
{
    (b'A' <= byte && byte <= b'Z') || (b'a' <= byte && byte <= b'z') || byte == b'_'
}

/// Whether a byte may follow the first letter of a word: a letter, a digit or `_`.
#[inline]
pub fn is_word_byte(byte: u8) -> bool
    ensures { result ≡ spec.is_word_byte byte }
{
    is_letter(byte) || byte.is_ascii_digit()
}

/// Whether a byte stands for itself in a string: no quotation mark, no backslash and no control character
/// (RFC 8259, section 7).
#[inline(always)]
pub fn is_plain(byte: u8) -> bool
    ensures { result ≡ spec.is_plain byte }
{
    byte != b'"' && byte != b'\\' && byte >= b' '
}

/// The character of an escape of one letter, behind its backslash (RFC 8259, section 7).
#[inline]
pub fn letter_char(letter: u8) -> Option<char>
    ensures { result ≡ spec.letter_char letter }
{
    match letter {
        b'"' => Some('"'),
        b'\\' => Some('\\'),
        b'/' => Some('/'),
        b'b' => Some('\u{8}'),
        b'f' => Some('\u{c}'),
        b'n' => Some('\n'),
        b'r' => Some('\r'),
        b't' => Some('\t'),
        _ => None,
    }
}

/// Whether this byte stands at the front.
pub fn next_is(byte: u8, bytes: &[u8]) -> bool
    ensures { result ≡ spec.next_is byte bytes.now }
{
    match bytes {
        [] => false,
        [first, ..] => *first == byte,
    }
}

/// Whether a digit stands at the front.
pub fn next_is_digit(bytes: &[u8]) -> bool
    ensures { result ≡ spec.next_is_digit bytes.now }
{
    match bytes {
        [] => false,
        [first, ..] => first.is_ascii_digit(),
    }
}
