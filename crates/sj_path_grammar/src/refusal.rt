//! Why a text is no path.

ghost use Rattle.std.specs.Prelude.{◌≡◌};
ghost use Rattle.sj_path_grammar.specs.declared.refusal.PathRefusal.TheVariants.{Memory};

use thiserror::Error;

/// A part of the standard that this implementation does not have.
#[derive(Clone, Copy, Debug, PartialEq, Eq)]
pub enum Name {
    LikeRegex,
    Double,
    Datetime,
    ApproximateType,
    DatetimeType,
    Encoding,
}

/// Why a text is no path: the first that holds, in this order. `Memory` may come at any place.
#[derive(Debug, Drop, Error)]
pub enum PathRefusal {
    /// The text does not break into tokens, or a number in it is not exact.
    #[error("refused")]
    Lex,
    /// More than 64 parentheses and brackets are open somewhere, or more than 256 tokens are an
    /// operator, a sign, a comma, or begin an accessor.
    #[error("refused")]
    TooDeep,
    /// The tokens have no tree.
    #[error("refused")]
    Syntax,
    /// An `@` stands in no filter, or a `last` in no list of subscripts.
    #[error("refused")]
    Misplaced,
    /// The path has a part that this implementation does not have: the first such part in the text.
    #[error("refused")]
    Unsupported(Name),
    /// Memory ran out.
    #[error("refused")]
    Memory,
}

impl From<sj_base::Memory> for PathRefusal {
    ghost from_gives = { λ _ e. e ≡ Memory };

    fn from(_: sj_base::Memory) -> PathRefusal {
        PathRefusal::Memory
    }
}
