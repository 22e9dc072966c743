// The text of a string with escapes.
ghost use Rattle.std.specs.Prelude.{◌≡◌, ◌++◌, ◌+◌, ◌-◌, ◌*◌, ◌<◌, ◌≤◌, length, take, drop, slice_index, IsUtf8, IfOk, OnOk, MatchOption};
ghost use Rattle.std.specs.Char.{encode_utf8};
ghost use Rattle.sj_doc.specs.Builders.{EndsInFeeds};
ghost use Rattle.sj_read.specs.Turns.{most_held};
ghost use Rattle.sj_read.specs.Strings.{HoldsString, NoString};

use crate::escape::escaped_char;
use crate::plain::plain_end;
use sj_base::Memory;
use std::simd::prelude::*;

// How many bytes are written at once where fewer count.
const STEP: usize = 16;

// How many bytes a character has at most.
const LONGEST_CHAR: usize = 4;

// Where a string ends, and how many bytes its text has.
#[derive(Clone, Copy)]
pub(crate) struct Unescaped {
    pub(crate) end: usize,
    pub(crate) len: usize,
}

// Makes room behind the first `len` bytes for so many more and a character.
#[inline(always)]
fn make_room(buffer: &mut Vec<u8>, len: usize, more: usize) -> Result<(), Memory>
    requires held { len ≤ length buffer.old.items }
    requires small { (len ≤ 4 * most_held) × (more ≤ most_held) }
    ensures room { OnOk result (len + more + 20 ≤ length buffer.new.items) }
    ensures kept { OnOk result (take len buffer.new.items ≡ take len buffer.old.items) }
{
    if buffer.len() - len < more + STEP + LONGEST_CHAR {
        return grow(buffer, len, more);
    }
    Ok(())
}

// The same, where there is none.
#[inline(never)]
fn grow(buffer: &mut Vec<u8>, len: usize, more: usize) -> Result<(), Memory>
    requires held { len ≤ length buffer.old.items }
    requires small { (len ≤ 4 * most_held) × (more ≤ most_held) }
    ensures room { OnOk result (len + more + 20 ≤ length buffer.new.items) }
    ensures kept { OnOk result (take len buffer.new.items ≡ take len buffer.old.items) }
{
    buffer.resize(2 * (len + more) + 16 * STEP, 0)?;
    Ok(())
}

// Writes the bytes between the places behind the first `len` ones. Most are few, and one step writes them with what
// stands behind them.
#[inline(always)]
fn put_plain(buffer: &mut [u8], len: usize, bytes: &[u8], from: usize, to: usize)
    requires between { (from ≤ to) × (to ≤ length bytes.now) }
    requires room { len + (to - from) + 20 ≤ length buffer.old }
    ensures put { take (len + (to - from)) buffer.new ≡ take len buffer.old ++ take (to - from) (drop from bytes.now) }
    ensures same { length buffer.new ≡ length buffer.old }
{
    if bytes.len() - from < STEP || to - from > STEP {
        buffer[len..len + (to - from)].copy_from_slice(&bytes[from..to]);
        return;
    }
    u8x16::from_slice(&bytes[from..]).copy_to_slice(&mut buffer[len..]);
}

// Writes the character behind the first `len` bytes, and says how many bytes it has.
#[inline(always)]
fn put_char(buffer: &mut [u8], len: usize, c: char) -> usize
    requires { len + 4 ≤ length buffer.old }
    ensures put { take (len + result) buffer.new ≡ take len buffer.old ++ encode_utf8 c }
    ensures utf8 { IsUtf8 (encode_utf8 c) }
    ensures few { result ≤ 4 }
    ensures same { length buffer.new ≡ length buffer.old }
{
    if c.is_ascii() {
        buffer[len] = c as u8;
        return 1;
    }
    let mut encoded = [0u8; LONGEST_CHAR];
    match c.encode_utf8(&mut encoded).as_bytes() {
        [first, second] => {
            buffer[len] = *first;
            buffer[len + 1] = *second;
            2
        }
        [first, second, third] => {
            buffer[len] = *first;
            buffer[len + 1] = *second;
            buffer[len + 2] = *third;
            3
        }
        [first, second, third, fourth] => {
            buffer[len] = *first;
            buffer[len + 1] = *second;
            buffer[len + 2] = *third;
            buffer[len + 3] = *fourth;
            4
        }
        _ => unreachable!(),
    }
}

// Puts the text of the string that begins at `from`, behind its quotation mark, at the front of the buffer.
pub(crate) fn unescape(
    text: &str,
    from: usize,
    buffer: &mut Vec<u8>,
) -> Result<Option<Unescaped>, Memory>
    requires within { (0 < from) × (from ≤ length text.now) }
    requires short { length text.now ≤ most_held }
    requires feeds { EndsInFeeds text.now }
    requires quote { slice_index text.now (from - 1) ≡ 34 }
    ensures { IfOk result (λ r. MatchOption r (NoString text.now from) (HoldsString text.now from buffer.new.items)) }
{
    let bytes = text.as_bytes();
    let mut at = from;
    let mut len = 0;
    while at < text.len() {
        let end = plain_end(bytes, at);
        make_room(buffer, len, end - at)?;
        put_plain(buffer.as_mut_slice(), len, bytes, at, end);
        len += end - at;
        if end == text.len() {
            return Ok(None);
        }
        match bytes[end] {
            b'"' => return Ok(Some(Unescaped { end, len })),
            b'\\' => match escaped_char(bytes, end + 1) {
                Some((c, next)) => {
                    len += put_char(buffer.as_mut_slice(), len, c);
                    at = next;
                }
                None => return Ok(None),
            },
            _ => return Ok(None),
        }
    }
    Ok(None)
}
