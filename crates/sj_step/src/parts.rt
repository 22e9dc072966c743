// The members of a made pair.

/// A member of a made pair, the next one of a walk over it.
#[derive(Clone, Copy)]
pub enum PairPart {
    Name,
    Value,
    Id,
    Nothing,
}
