// SQL values.

use sj_base::{Bytes, Text};
use sj_decimal::Decimal;

/// An SQL value (ISO/IEC 9075-2, data types).
///
/// Contracts see it with its text and its bytes as lists, and two values are the same where these are equal. A number
/// carries how many decimals it is printed with, so 9.5 as NUMERIC(10, 2) and 9.5 as NUMERIC are not the same value.
#[derive(Debug, Drop)]
pub enum SqlValue {
    /// The null value.
    Null,
    /// A character string.
    Text(Text),
    /// An exact number, and the number of decimals to print: those of its NUMERIC(p, s), or 0 for its plain text.
    Num(Decimal, u32),
    /// A truth value.
    Bool(bool),
    /// A JSON value by its printed text.
    Json(Bytes),
}
