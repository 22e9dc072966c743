// How a path is joined with the plan below it.

/// What becomes of a row of a path that has no row below it.
#[derive(Clone, Copy)]
pub(crate) enum Join {
    /// OUTER: it is given alone.
    Outer,
    /// INNER: it is not given.
    Inner,
}
