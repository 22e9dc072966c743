// Why an object is not made.
ghost use Rattle.std.specs.Prelude.{◌≡◌};
ghost use Rattle.sj_build.specs.declared.refusal.BuildRefusal.TheVariants.{Memory};

use sj_base::State;
use thiserror::Error;

/// Why an object is not made, or a member not added to one.
#[derive(Clone, Copy, Debug, PartialEq, Eq, Error)]
pub enum BuildRefusal {
    /// A member is refused, with this state: 22004 for a key that is NULL, 22030 for a repeated one.
    #[error("refused")]
    State(State),
    /// Memory ran out.
    #[error("refused")]
    Memory,
}

impl From<sj_base::Memory> for BuildRefusal {
    ghost from_gives = { λ _ e. e ≡ Memory };

    fn from(_: sj_base::Memory) -> BuildRefusal {
        BuildRefusal::Memory
    }
}
