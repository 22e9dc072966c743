// Strings between quotation marks.
ghost use Rattle.std.specs.Prelude.{◌≡◌, ◌++◌, ◌<◌, ◌≤◌, length, take, slice_index, false, OnOk, OnErr};
ghost use Rattle.std.specs.List.{flat_map};
ghost use Rattle.std.specs.Char.{digit_char};
ghost use Rattle.sj_base.specs.ByteClasses.{is_plain};
ghost use Rattle.sj_json.specs.Printing.{printed_byte, printed_string};
ghost use Rattle.sj_text.specs.Prefixes.{AppendsPrefix};

use crate::window::{MOST_QUOTED, push_front, quote};
use sj_base::{Bytes, Memory};

/// Appends a string between quotation marks (RFC 8259, section 7).
///
/// A quotation mark and a backslash have a backslash before them. U+0008, U+0009, U+000A, U+000C and U+000D are `\b`,
/// `\t`, `\n`, `\f` and `\r`, and the other characters below U+0020 `\u00` and two lower-case digits. All else stands
/// for itself. Where memory runs out, `out` has grown by a first part of this text.
#[inline(always)]
pub fn string_text(s: &str, out: &mut Bytes) -> Result<(), Memory>
    ensures ok { OnOk result (out.new ≡ out.old ++ printed_string s.now) }
    ensures err { OnErr result (AppendsPrefix out.old (printed_string s.now) out.new) }
{
    let mut window = [b' '; MOST_QUOTED];
    if quote(&mut window, s.as_bytes()) {
        return push_front(out, &window, s.len() + 2);
    }
    any_text(s, out)
}

// The same for any string, in three parts or more.
#[inline(never)]
pub(crate) fn any_text(s: &str, out: &mut Bytes) -> Result<(), Memory>
    ensures ok { OnOk result (out.new ≡ out.old ++ printed_string s.now) }
    ensures err { OnErr result (AppendsPrefix out.old (printed_string s.now) out.new) }
{
    out.push(b"\"")?;
    push_escaped(s.as_bytes(), out)?;
    out.push(b"\"")
}

// Appends the bytes of a string, each run of plain bytes at once.
fn push_escaped(bytes: &[u8], out: &mut Bytes) -> Result<(), Memory>
    ensures ok { OnOk result (out.new ≡ out.old ++ flat_map printed_byte bytes.now) }
    ensures err { OnErr result (AppendsPrefix out.old (flat_map printed_byte bytes.now) out.new) }
{
    let mut rest = bytes;
    loop {
        let run = plain_run(rest);
        out.push(&rest[..run])?;
        rest = &rest[run..];
        match rest.split_first() {
            None => return Ok(()),
            Some((byte, after)) => {
                push_escape(*byte, out)?;
                rest = after;
            }
        }
    }
}

// How many bytes stand for themselves before the first that does not.
fn plain_run(bytes: &[u8]) -> usize
    ensures within { result ≤ length bytes.now }
    ensures plain { flat_map printed_byte (take result bytes.now) ≡ take result bytes.now }
    ensures stops { result < length bytes.now → is_plain (slice_index bytes.now result) ≡ false }
{
    for (i, byte) in bytes.iter().enumerate() {
        if !sj_base::is_plain(*byte) {
            return i;
        }
    }
    bytes.len()
}

// Appends the escape of a byte that does not stand for itself, at once.
fn push_escape(byte: u8, out: &mut Bytes) -> Result<(), Memory>
    requires { is_plain byte ≡ false }
    ensures ok { OnOk result (out.new ≡ out.old ++ printed_byte byte) }
    ensures err { OnErr result (out.new ≡ out.old) }
{
    match byte {
        b'"' => out.push(b"\\\""),
        b'\\' => out.push(b"\\\\"),
        0x08 => out.push(b"\\b"),
        0x09 => out.push(b"\\t"),
        0x0A => out.push(b"\\n"),
        0x0C => out.push(b"\\f"),
        0x0D => out.push(b"\\r"),
        _ => out.push(&[
            b'\\',
            b'u',
            b'0',
            b'0',
            hex_digit(byte / 16),
            hex_digit(byte % 16),
        ]),
    }
}

fn hex_digit(value: u8) -> u8
    requires { value < 16 }
    ensures { result ≡ digit_char value }
{
    if value < 10 {
        b'0' + value
    } else {
        b'a' + (value - 10)
    }
}
