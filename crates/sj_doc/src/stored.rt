// Texts as a document stores them.
ghost use Rattle.std.specs.Prelude.{◌≡◌, IfSome};
ghost use Rattle.std.specs.Option.{ForSome};
ghost use Rattle.sj_doc.specs.Nodes.{text_in, IsSpan};
ghost use Rattle.sj_doc.specs.StoredTexts.{IsWindow};

use crate::doc::text_at;
use crate::node::Span;

/// How many bytes a window has.
pub const WINDOW: usize = 16;

/// A text that a document stores: a string, a key or a numeral.
///
/// A short one mostly has a window: the 16 bytes of the document's memory from its beginning on. So it is looked at, and copied,
/// by moves of one size. What stands behind the text in the window may be anything.
#[derive(Clone, Copy, Drop)]
pub struct StoredText<'d> {
    pub text: &'d str,
    /// Where the text has more than 16 bytes, or ends too near the end of the memory, there is none.
    pub window: Option<&'d [u8]>,
    ghost front: { ForSome window (λ w. IsWindow text.now w.now) },
}

// The text of a span.
#[inline(always)]
pub(crate) fn stored_at(arena: &[u8], span: Span) -> StoredText<'_>
    requires { IsSpan arena.now span }
    ensures { result.text.now ≡ text_in arena.now span }
{
    StoredText {
        text: text_at(arena, span),
        window: window_at(arena, span),
    }
}

// The window of a span, where it has one.
#[inline(always)]
fn window_at(arena: &[u8], span: Span) -> Option<&[u8]>
    requires { IsSpan arena.now span }
    ensures { IfSome result (λ w. IsWindow (text_in arena.now span) w.now) }
{
    let start = span.start as usize;
    if span.len as usize > WINDOW || arena.len() - start < WINDOW {
        return None;
    }
    Some(&arena[start..start + WINDOW])
}
