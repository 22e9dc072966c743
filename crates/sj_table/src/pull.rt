// The answer of a table cursor.

use sj_base::State;

/// What came next of the rows of a table.
#[derive(Clone, Copy, Debug, PartialEq, Eq)]
pub enum RowPull {
    /// One more row, which the cursor now stands at.
    Row,
    /// There is none left.
    End,
    /// The rows end here, in this state.
    Raised(State),
}
