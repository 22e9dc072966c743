// Numerals that are the texts of their numbers, as most are.
ghost use Rattle.std.specs.Prelude.{◌≡◌, ◌<◌, ◌≤◌, length, take, slice_index, true};
ghost use Rattle.sj_text.specs.Numerals.{longest_short, IsWholeText, IsDecimalText};

// The longest numeral that is looked at. Most are shorter.
const LONGEST_SHORT: usize = 19;

/// Whether a numeral is known to be the text of a decimal: a number without a sign and, behind a point, decimals that do not end in
/// a zero.
pub(crate) fn is_decimal_text(numeral: &[u8]) -> bool
    ensures { result ≡ true → IsDecimalText numeral.now }
{
    if numeral.len() > LONGEST_SHORT {
        return false;
    }
    let whole = whole_end(numeral);
    if whole == 0 {
        return false;
    }
    if whole == numeral.len() {
        return true;
    }
    numeral[whole] == b'.' && has_decimals(numeral, whole)
}

// Where the text of a whole number ends, and 0 where there is none.
fn whole_end(numeral: &[u8]) -> usize
    requires { length numeral.now ≤ longest_short }
    ensures within { result ≤ length numeral.now }
    ensures text { 0 < result → IsWholeText result (take result numeral.now) }
{
    if numeral.is_empty() || !numeral[0].is_ascii_digit() {
        return 0;
    }
    if numeral[0] == b'0' {
        return 1;
    }
    let mut end = 1;
    while end < numeral.len() && numeral[end].is_ascii_digit() {
        end += 1;
    }
    end
}

// Whether decimals stand behind the point, and nothing else, of which the last is no zero.
fn has_decimals(numeral: &[u8], point: usize) -> bool
    requires short { length numeral.now ≤ longest_short }
    requires within { point < length numeral.now }
    requires point { slice_index numeral.now point ≡ 46 }
    requires whole { IsWholeText point (take point numeral.now) }
    ensures { result ≡ true → IsDecimalText numeral.now }
{
    let mut last = b'0';
    let mut end = point + 1;
    while end < numeral.len() && numeral[end].is_ascii_digit() {
        last = numeral[end];
        end += 1;
    }
    end == numeral.len() && last != b'0'
}
