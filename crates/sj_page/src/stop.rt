// Why printing stops.

/// Why rows are printed no further.
#[derive(Clone, Copy, Debug, PartialEq, Eq)]
pub enum Stop {
    /// Memory ran out.
    Memory,
    /// A write to the output failed.
    Output,
}
