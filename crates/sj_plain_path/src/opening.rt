// How items are taken.

/// How the items of an expression are taken.
#[derive(Clone, Copy)]
pub enum Opening {
    /// Each as it is.
    AsItIs,
    /// In lax mode arrays are unwrapped.
    Unwrapped,
}
