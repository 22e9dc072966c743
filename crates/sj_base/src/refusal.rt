// Why nothing was read, for every reader of tokens.
ghost use Rattle.std.specs.Prelude.{◌≡◌};
ghost use Rattle.sj_base.specs.declared.refusal.ParseRefusal.TheVariants.{Memory};

/// Why a reader of characters or tokens gives nothing.
#[derive(Clone, Copy, Debug, PartialEq, Eq)]
pub enum ParseRefusal {
    /// What is to be read does not stand there.
    Syntax,
    /// Memory ran out.
    Memory,
}

impl From<crate::Memory> for ParseRefusal {
    ghost from_gives = { λ _ e. e ≡ Memory };

    fn from(_: crate::Memory) -> ParseRefusal {
        ParseRefusal::Memory
    }
}
