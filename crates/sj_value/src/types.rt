// SQL types.

/// A type to which an item can be cast (ISO/IEC 9075-2, data type). DECIMAL is NUMERIC, and INT is INTEGER.
#[derive(Clone, Copy, Debug, PartialEq, Eq)]
pub enum SqlType {
    /// VARCHAR, of any length.
    Varchar,
    /// VARCHAR(n): at most n characters, which are counted as code points.
    VarcharMax(u32),
    /// NUMERIC, with all decimals of an exact number.
    Numeric,
    /// NUMERIC(p, s): at most p digits, s of them decimals. NUMERIC(p) has s = 0.
    NumericFixed(u32, u32),
    /// INTEGER: -2^31 to 2^31 - 1.
    Integer,
    /// BIGINT: -2^63 to 2^63 - 1.
    Bigint,
    /// BOOLEAN.
    Boolean,
}
