// Numbers, byte by byte (RFC 8259, section 6).
ghost use Rattle.std.specs.Prelude.{◌≡◌};
ghost use Rattle.sj_decimal.specs.Number as spec;
ghost use Rattle.sj_scan.specs.Numerals as numerals;
ghost use Rattle.sj_scan.specs.Numerals.{first_digit, exponent_mark, behind_whole, digit_of, numeral_step};

// What came of a number.
#[derive(Clone, Copy, Drop)]
pub(crate) enum Numeral {
    Nothing,
    Minus,
    // The whole digits are one zero.
    Zero,
    Whole,
    Point,
    Fraction,
    // An "e" or "E".
    Mark,
    // The sign of an exponent.
    Sign,
    Exponent,
}

#[inline(always)]
pub(crate) fn is_number_byte(byte: u8) -> bool
    ensures { result ≡ spec.is_number_byte byte }
{
    byte.is_ascii_digit()
        || byte == b'+'
        || byte == b'-'
        || byte == b'.'
        || byte == b'E'
        || byte == b'e'
}

#[inline(always)]
pub(crate) fn begins_number(byte: u8) -> bool
    ensures { result ≡ spec.begins_number byte }
{
    byte.is_ascii_digit() || byte == b'-'
}

// Whether what came is a whole number.
#[inline(always)]
pub(crate) fn may_end(numeral: Numeral) -> bool
    ensures { result ≡ numerals.may_end numeral }
{
    match numeral {
        Numeral::Zero | Numeral::Whole | Numeral::Fraction | Numeral::Exponent => true,
        Numeral::Nothing | Numeral::Minus | Numeral::Point | Numeral::Mark | Numeral::Sign => false,
    }
}

#[inline(always)]
fn after_first_digit(byte: u8) -> Option<Numeral>
    ensures { result ≡ first_digit byte }
{
    if byte == b'0' {
        Some(Numeral::Zero)
    } else if byte.is_ascii_digit() {
        Some(Numeral::Whole)
    } else {
        None
    }
}

#[inline(always)]
fn after_exponent_mark(byte: u8) -> Option<Numeral>
    ensures { result ≡ exponent_mark byte }
{
    if byte == b'e' || byte == b'E' {
        Some(Numeral::Mark)
    } else {
        None
    }
}

#[inline(always)]
fn after_whole(byte: u8) -> Option<Numeral>
    ensures { result ≡ behind_whole byte }
{
    if byte == b'.' {
        Some(Numeral::Point)
    } else {
        after_exponent_mark(byte)
    }
}

#[inline(always)]
fn after_digit(next: Numeral, byte: u8) -> Option<Numeral>
    ensures { result ≡ digit_of next byte }
{
    if byte.is_ascii_digit() {
        Some(next)
    } else {
        None
    }
}

// The number with this byte more, if a number can go on so.
#[inline(always)]
pub(crate) fn step(numeral: Numeral, byte: u8) -> Option<Numeral>
    ensures { result ≡ numeral_step numeral byte }
{
    match numeral {
        Numeral::Nothing => {
            if byte == b'-' {
                Some(Numeral::Minus)
            } else {
                after_first_digit(byte)
            }
        }
        Numeral::Minus => after_first_digit(byte),
        Numeral::Zero => after_whole(byte),
        Numeral::Whole => {
            if byte.is_ascii_digit() {
                Some(Numeral::Whole)
            } else {
                after_whole(byte)
            }
        }
        Numeral::Point => after_digit(Numeral::Fraction, byte),
        Numeral::Fraction => {
            if byte.is_ascii_digit() {
                Some(Numeral::Fraction)
            } else {
                after_exponent_mark(byte)
            }
        }
        Numeral::Mark => {
            if byte == b'+' || byte == b'-' {
                Some(Numeral::Sign)
            } else {
                after_digit(Numeral::Exponent, byte)
            }
        }
        Numeral::Sign | Numeral::Exponent => after_digit(Numeral::Exponent, byte),
    }
}
