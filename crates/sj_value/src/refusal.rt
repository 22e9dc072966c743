// Why an item is not cast.
ghost use Rattle.std.specs.Prelude.{◌≡◌};
ghost use Rattle.sj_value.specs.declared.refusal.CastRefusal.TheVariants.{Memory};

use sj_base::State;
use thiserror::Error;

/// Why a cast gives no value.
#[derive(Clone, Copy, Debug, PartialEq, Eq, Error)]
pub enum CastRefusal {
    /// The table of casts refuses the item, with this state.
    #[error("refused")]
    State(State),
    /// Memory ran out.
    #[error("refused")]
    Memory,
}

impl From<sj_base::Memory> for CastRefusal {
    ghost from_gives = { λ _ e. e ≡ Memory };

    fn from(_: sj_base::Memory) -> CastRefusal {
        CastRefusal::Memory
    }
}
