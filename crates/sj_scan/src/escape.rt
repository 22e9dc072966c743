// Escapes of a string, byte by byte (RFC 8259, section 7).
ghost use Rattle.std.specs.Prelude.{◌≡◌, Some, None, if◌then◌else◌};
ghost use Rattle.std.specs.Char.{digit_value, is_digit};
ghost use Rattle.sj_scan.specs.Escapes.{digit_step, hex_step, escape_step};

use sj_base::letter_char;

// What came of an escape.
#[derive(Clone, Copy, Drop)]
pub(crate) enum Escape {
    // The backslash.
    Begun,
    // "\u", which writes a unit of UTF-16 by four digits.
    First,
    // The same and a "D".
    FirstD,
    // So many digits of a unit that is no surrogate are still to come.
    Rest3,
    Rest2,
    Rest1,
    // So many digits of a high surrogate are still to come.
    High2,
    High1,
    // A high surrogate.
    High,
    // The same and a backslash.
    Second,
    // The same and "u": a low surrogate is to come.
    Low,
    // The same and a "D".
    LowD,
    // So many digits of a low surrogate are still to come.
    Low2,
    Low1,
}

// What a byte of an escape leads to.
#[derive(Clone, Copy, Drop)]
pub(crate) enum Escaped {
    GoesOn(Escape),
    Ended,
}

// The value of a hexadecimal digit, in either case.
#[inline(always)]
fn hex_digit(byte: u8) -> Option<u8>
    ensures { result ≡ (if is_digit byte 16 then Some (digit_value byte) else None) }
{
    match byte {
        b'0'..=b'9' => Some(byte - b'0'),
        b'a'..=b'f' => Some(byte - b'a' + 10),
        b'A'..=b'F' => Some(byte - b'A' + 10),
        _ => None,
    }
}

#[inline(always)]
fn after_digit(escape: Escape, digit: u8) -> Option<Escaped>
    ensures { result ≡ digit_step escape digit }
{
    match escape {
        Escape::First => {
            if digit == 13 {
                Some(Escaped::GoesOn(Escape::FirstD))
            } else {
                Some(Escaped::GoesOn(Escape::Rest3))
            }
        }
        Escape::FirstD => {
            if digit < 8 {
                Some(Escaped::GoesOn(Escape::Rest2))
            } else if digit < 12 {
                Some(Escaped::GoesOn(Escape::High2))
            } else {
                None
            }
        }
        Escape::Rest3 => Some(Escaped::GoesOn(Escape::Rest2)),
        Escape::Rest2 => Some(Escaped::GoesOn(Escape::Rest1)),
        Escape::High2 => Some(Escaped::GoesOn(Escape::High1)),
        Escape::High1 => Some(Escaped::GoesOn(Escape::High)),
        Escape::Low => {
            if digit == 13 {
                Some(Escaped::GoesOn(Escape::LowD))
            } else {
                None
            }
        }
        Escape::LowD => {
            if digit < 12 {
                None
            } else {
                Some(Escaped::GoesOn(Escape::Low2))
            }
        }
        Escape::Low2 => Some(Escaped::GoesOn(Escape::Low1)),
        Escape::Rest1 | Escape::Low1 => Some(Escaped::Ended),
        Escape::Begun | Escape::High | Escape::Second => None,
    }
}

#[inline(always)]
fn after_hex(escape: Escape, byte: u8) -> Option<Escaped>
    ensures { result ≡ hex_step escape byte }
{
    match hex_digit(byte) {
        Some(digit) => after_digit(escape, digit),
        None => None,
    }
}

#[inline(always)]
fn after_letter(byte: u8) -> Option<Escaped>
    ensures { result ≡ escape_step Escape.Begun byte }
{
    if byte == b'u' {
        return Some(Escaped::GoesOn(Escape::First));
    }
    match letter_char(byte) {
        Some(_) => Some(Escaped::Ended),
        None => None,
    }
}

// The escape with this byte more, if an escape can go on so.
pub(crate) fn step(escape: Escape, byte: u8) -> Option<Escaped>
    ensures { result ≡ escape_step escape byte }
{
    match escape {
        Escape::Begun => after_letter(byte),
        Escape::High => {
            if byte == b'\\' {
                Some(Escaped::GoesOn(Escape::Second))
            } else {
                None
            }
        }
        Escape::Second => {
            if byte == b'u' {
                Some(Escaped::GoesOn(Escape::Low))
            } else {
                None
            }
        }
        Escape::First
        | Escape::FirstD
        | Escape::Rest3
        | Escape::Rest2
        | Escape::Rest1
        | Escape::High2
        | Escape::High1
        | Escape::Low
        | Escape::LowD
        | Escape::Low2
        | Escape::Low1 => after_hex(escape, byte),
    }
}
