//! The parts of a number's text.
ghost use Rattle.std.specs.Prelude.{◌≡◌, ℕ, List};
ghost use Rattle.std.specs.Option.{option_map};
ghost use Rattle.sj_decimal.specs.Reading.{leading_digits, after_digits, read_minus, read_sign, read_fraction, read_exponent, is_whole, read_parts, read_rest, parts_of};

/// The text of a number, cut into its parts.
#[derive(Clone, Copy)]
pub(crate) struct Spelling<'a> {
    pub(crate) negative: bool,
    pub(crate) whole: &'a [u8],
    pub(crate) fraction: &'a [u8],
    pub(crate) exponent_negative: bool,
    pub(crate) exponent: &'a [u8],
}

/// The digits with which `bytes` begins, and what follows them.
#[tactic(auto, unfolding(crate::specs::Reading::leading_digits, crate::specs::Reading::after_digits))]
fn split_digits(bytes: &[u8]) -> (&[u8], &[u8])
    ensures digits { result.0.now ≡ leading_digits bytes.now }
    ensures rest { result.1.now ≡ after_digits bytes.now }
{
    let mut count = 0;
    while count < bytes.len() && bytes[count].is_ascii_digit() {
        count += 1;
    }
    bytes.split_at(count)
}

fn split_minus(bytes: &[u8]) -> (bool, &[u8])
    ensures { (result.0, result.1.now) ≡ read_minus bytes.now }
{
    match bytes {
        [b'-', rest @ ..] => (true, rest),
        _ => (false, bytes),
    }
}

fn split_sign(bytes: &[u8]) -> (bool, &[u8])
    ensures { (result.0, result.1.now) ≡ read_sign bytes.now }
{
    match bytes {
        [b'-', rest @ ..] => (true, rest),
        [b'+', rest @ ..] => (false, rest),
        _ => (false, bytes),
    }
}

fn split_fraction(bytes: &[u8]) -> Option<(&[u8], &[u8])>
    ensures { option_map (λ x. (x.0.now, x.1.now)) result ≡ read_fraction bytes.now }
{
    let [b'.', rest @ ..] = bytes else {
        return Some((&bytes[..0], bytes));
    };
    let (digits, rest) = split_digits(rest);
    if digits.is_empty() {
        return None;
    }
    Some((digits, rest))
}

fn split_exponent(bytes: &[u8]) -> Option<(bool, &[u8])>
    ensures { option_map (λ x. (x.0, x.1.now)) result ≡ read_exponent bytes.now }
{
    match bytes {
        [] => Some((false, bytes)),
        [b'e' | b'E', rest @ ..] => {
            let (negative, digits) = split_sign(rest);
            let (_, rest) = split_digits(digits);
            if digits.is_empty() || !rest.is_empty() {
                return None;
            }
            Some((negative, digits))
        }
        _ => None,
    }
}

/// Whether digits may stand before the point: a zero is the only one, or not the first.
fn is_whole_part(digits: &[u8]) -> bool
    ensures { result ≡ is_whole digits.now }
{
    match digits {
        [] => false,
        [_] => true,
        [first, ..] => *first != b'0',
    }
}

impl<'a> Spelling<'a> {
    ghost use Rattle.sj_decimal.specs.Parts.{parts};

    /// Cuts `bytes` into parts, where they are a number.
    #[tactic(auto, unfolding(crate::specs::Reading::read_parts))]
    pub(crate) fn read(bytes: &'a [u8]) -> Option<Spelling<'a>>
        ensures { option_map parts result ≡ read_parts bytes.now }
    {
        let (negative, bytes) = split_minus(bytes);
        let (whole, rest) = split_digits(bytes);
        if !is_whole_part(whole) {
            return None;
        }
        Spelling::read_rest(negative, whole, rest)
    }

    /// Cuts what follows the whole digits.
    #[tactic(auto, unfolding(crate::specs::Reading::read_rest))]
    fn read_rest(negative: bool, whole: &'a [u8], bytes: &'a [u8]) -> Option<Spelling<'a>>
        ensures { option_map parts result ≡ read_rest negative whole.now bytes.now }
    {
        let Some((fraction, rest)) = split_fraction(bytes) else {
            return None;
        };
        let Some((exponent_negative, exponent)) = split_exponent(rest) else {
            return None;
        };
        Some(Spelling {
            negative,
            whole,
            fraction,
            exponent_negative,
            exponent,
        })
    }
}
