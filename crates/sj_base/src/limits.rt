//! The limits that paths and statements share.

/// Parentheses and brackets that may be open at once.
pub const MAX_OPEN: usize = 64;
