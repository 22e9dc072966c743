// UTF-8, byte by byte (RFC 3629, section 4).
ghost use Rattle.std.specs.Prelude.{◌≡◌};
ghost use Rattle.sj_scan.specs.Utf8.{lead_step, within, utf8_step};
ghost use Rattle.sj_scan.specs.Scanning.{is_between as between};

// How far a character has come.
#[derive(Clone, Copy, Drop)]
pub(crate) enum Utf8 {
    // None has begun.
    Between,
    // So many bytes are still to come, each from 80 to BF.
    OneMore,
    TwoMore,
    ThreeMore,
    // The first byte was E0, ED, F0 or F4. Behind these the next byte has a smaller range.
    AfterE0,
    AfterEd,
    AfterF0,
    AfterF4,
}

#[inline(always)]
pub(crate) fn is_between(text: Utf8) -> bool
    ensures { result ≡ between text }
{
    match text {
        Utf8::Between => true,
        Utf8::OneMore
        | Utf8::TwoMore
        | Utf8::ThreeMore
        | Utf8::AfterE0
        | Utf8::AfterEd
        | Utf8::AfterF0
        | Utf8::AfterF4 => false,
    }
}

fn after_lead(byte: u8) -> Option<Utf8>
    ensures { result ≡ lead_step byte }
{
    if byte < 0x80 {
        Some(Utf8::Between)
    } else if byte < 0xC2 {
        None
    } else if byte < 0xE0 {
        Some(Utf8::OneMore)
    } else if byte == 0xE0 {
        Some(Utf8::AfterE0)
    } else if byte == 0xED {
        Some(Utf8::AfterEd)
    } else if byte < 0xF0 {
        Some(Utf8::TwoMore)
    } else if byte == 0xF0 {
        Some(Utf8::AfterF0)
    } else if byte < 0xF4 {
        Some(Utf8::ThreeMore)
    } else if byte == 0xF4 {
        Some(Utf8::AfterF4)
    } else {
        None
    }
}

#[inline(always)]
fn followed(from: u8, to: u8, next: Utf8, byte: u8) -> Option<Utf8>
    ensures { result ≡ within from to next byte }
{
    if byte < from {
        None
    } else if to < byte {
        None
    } else {
        Some(next)
    }
}

// The character with this byte more, if one can go on so.
#[inline(always)]
pub(crate) fn step(text: Utf8, byte: u8) -> Option<Utf8>
    ensures { result ≡ utf8_step text byte }
{
    match text {
        Utf8::Between => after_lead(byte),
        Utf8::OneMore => followed(0x80, 0xBF, Utf8::Between, byte),
        Utf8::TwoMore => followed(0x80, 0xBF, Utf8::OneMore, byte),
        Utf8::ThreeMore => followed(0x80, 0xBF, Utf8::TwoMore, byte),
        Utf8::AfterE0 => followed(0xA0, 0xBF, Utf8::OneMore, byte),
        Utf8::AfterEd => followed(0x80, 0x9F, Utf8::OneMore, byte),
        Utf8::AfterF0 => followed(0x90, 0xBF, Utf8::TwoMore, byte),
        Utf8::AfterF4 => followed(0x80, 0x8F, Utf8::TwoMore, byte),
    }
}
