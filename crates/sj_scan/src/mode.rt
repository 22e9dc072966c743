// What may come next in a text.
ghost use Rattle.std.specs.Prelude.{◌≡◌, IfSome};
ghost use Rattle.sj_scan.specs.Modes.{may_end_in};
ghost use Rattle.sj_scan.specs.Views.{mode_of};

use crate::escape::Escape;
use crate::numeral;
use crate::numeral::Numeral;

// An open array or object.
#[derive(Clone, Copy, Debug, Drop, PartialEq, Eq)]
pub(crate) enum Container {
    Array,
    Object,
}

// The rest of `null`, `true` or `false`.
#[derive(Clone, Copy, Drop)]
pub(crate) enum Word {
    Ull,
    Ll,
    L,
    Rue,
    Ue,
    E,
    Alse,
    Lse,
    Se,
}

#[derive(Clone, Copy, Drop)]
pub(crate) enum Mode {
    Value,
    ValueOrClose,
    Key,
    KeyOrClose,
    Colon,
    AfterValue,
    Word(Word),
    // In a string: whether it is a key.
    Quoted(bool),
    Escaped(bool, Escape),
    Number(Numeral),
}

// Whether a text may end in this mode, if no container is open.
#[inline(always)]
pub(crate) fn may_end(mode: Mode) -> bool
    ensures { result ≡ may_end_in (mode_of mode) }
{
    match mode {
        Mode::AfterValue => true,
        Mode::Number(came) => numeral::may_end(came),
        Mode::Value
        | Mode::ValueOrClose
        | Mode::Key
        | Mode::KeyOrClose
        | Mode::Colon
        | Mode::Word(_)
        | Mode::Quoted(_)
        | Mode::Escaped(_, _) => false,
    }
}
