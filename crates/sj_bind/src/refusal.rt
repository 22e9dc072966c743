//! Why a statement is not bound.

ghost use Rattle.std.specs.Prelude.{◌≡◌};
ghost use Rattle.sj_bind.specs.declared.refusal.BindRefusal.TheVariants.{Memory};

use sj_sql_grammar::BindKind;
use thiserror::Error;

/// Why a statement is not bound.
#[derive(Clone, Copy, Debug, PartialEq, Eq, Error)]
pub enum BindRefusal {
    /// The first rule that the statement breaks.
    #[error("refused")]
    Kind(BindKind),
    /// Memory ran out.
    #[error("refused")]
    Memory,
}

impl From<sj_base::Memory> for BindRefusal {
    ghost from_gives = { λ _ e. e ≡ Memory };

    fn from(_: sj_base::Memory) -> BindRefusal {
        BindRefusal::Memory
    }
}
