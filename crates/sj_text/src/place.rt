// Where a value is in the text of what holds it.

/// Where an element of an array, or a member of an object, is in the printed text.
#[derive(Clone, Copy, Debug, PartialEq, Eq)]
pub enum Place {
    /// Behind the opening bracket.
    First,
    /// Behind another one, and so behind a comma.
    Later,
}
