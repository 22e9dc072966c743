// The bounds of the types of whole numbers.

/// The least INTEGER, -2^31.
pub const INTEGER_LOW: i128 = -(1 << 31);

/// The greatest INTEGER, 2^31 - 1.
pub const INTEGER_HIGH: i128 = (1 << 31) - 1;

/// The least BIGINT, -2^63.
pub const BIGINT_LOW: i128 = -(1 << 63);

/// The greatest BIGINT, 2^63 - 1.
pub const BIGINT_HIGH: i128 = (1 << 63) - 1;
