//! Texts between quotation marks, in which a mark is written twice.

ghost use Rattle.std.specs.Prelude.{◌≡◌, ◌<◌, ◌++◌, ◌∷◌, [], length, OnOk, OnErr, MatchOption};
ghost use Rattle.sj_text.specs.Prefixes.{AppendsPrefix};
ghost use Rattle.sj_sql_text.specs.Pieces as spec;
ghost use Rattle.sj_sql_text.specs.Marks.{mark_of};

use memchr::memchr;
use sj_base::{Bytes, Memory};

#[derive(Clone, Copy)]
pub(crate) enum QuotationMark {
    /// Of strings.
    Single,
    /// Of names.
    Double,
}

impl QuotationMark {
    fn byte(self) -> u8
        ensures { result ≡ mark_of self }
    {
        match self {
            QuotationMark::Single => 39,
            QuotationMark::Double => 34,
        }
    }

    fn text(self) -> &'static [u8]
        ensures { result.now ≡ mark_of self ∷ [] }
    {
        match self {
            QuotationMark::Single => b"'",
            QuotationMark::Double => b"\"",
        }
    }
}

/// Appends a text between two marks, in which each mark is written twice.
pub(crate) fn quoted(mark: QuotationMark, text: &[u8], out: &mut Bytes) -> Result<(), Memory>
    ensures ok { OnOk result (out.new ≡ out.old ++ spec.quoted (mark_of mark) text.now) }
    ensures err { OnErr result (AppendsPrefix out.old (spec.quoted (mark_of mark) text.now) out.new) }
{
    out.push(mark.text())?;
    doubled(mark, text, out)?;
    out.push(mark.text())
}

/// Appends a text in which each mark is written twice.
fn doubled(mark: QuotationMark, text: &[u8], out: &mut Bytes) -> Result<(), Memory>
    ensures ok { OnOk result (out.new ≡ out.old ++ spec.doubled (mark_of mark) text.now) }
    ensures err { OnErr result (AppendsPrefix out.old (spec.doubled (mark_of mark) text.now) out.new) }
{
    let mut rest = text;
    while let Some((front, behind)) = split_behind_mark(mark, rest) {
        out.push(front)?;
        out.push(mark.text())?;
        rest = behind;
    }
    out.push(rest)
}

/// The text up to its first mark, with it, and what stands behind it.
fn split_behind_mark(mark: QuotationMark, text: &[u8]) -> Option<(&[u8], &[u8])>
    ensures { MatchOption result
        (spec.doubled (mark_of mark) text.now ≡ text.now)
        (λ parts. (length parts.1.now < length text.now) × (spec.doubled (mark_of mark) text.now ≡ parts.0.now ++ mark_of mark ∷ spec.doubled (mark_of mark) parts.1.now)) }
{
    let Some(at) = memchr(mark.byte(), text) else {
        return None;
    };
    Some(text.split_at(at + 1))
}
