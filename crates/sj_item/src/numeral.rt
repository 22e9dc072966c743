// Numerals of whole numbers, which most numerals are.
ghost use Rattle.std.specs.Prelude.{◌≡◌, ◌≢◌, ◌<◌, false, length, get_or, pos, IfSome};
ghost use Rattle.sj_decimal.specs.Number.{SpellsExact};

// A digit more makes a number below 10^18 of each number below this one.
const TAKES_A_DIGIT: u64 = 100_000_000_000_000_000;

// Whether a zero stands before another byte.
#[inline(always)]
fn leads_with_zero(bytes: &[u8]) -> bool
    ensures { result ≡ false → 1 < length bytes.now → get_or bytes.now 0 0 ≢ 48 }
{
    bytes.len() > 1 && bytes[0] == b'0'
}

/// The number that a numeral spells, where it is a whole one of at most 18 digits and nothing else.
#[inline(always)]
pub(crate) fn numeral_whole(numeral: &[u8]) -> Option<u64>
    ensures { IfSome result (λ n. SpellsExact numeral.now (pos n, 0)) }
{
    let mut value = 0;
    let mut at = 0;
    while at < numeral.len() && numeral[at].is_ascii_digit() && value < TAKES_A_DIGIT {
        value = value * 10 + (numeral[at] - b'0') as u64;
        at += 1;
    }
    if at < numeral.len() {
        return None;
    }
    if at == 0 || leads_with_zero(numeral) {
        return None;
    }
    Some(value)
}
