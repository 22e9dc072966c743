// Copies of values.
ghost use Rattle.std.specs.Prelude.{◌≡◌, IfOk};
ghost use Rattle.sj_value.specs.Values.{IsPrintable};

use crate::value::SqlValue;
use sj_base::{Bytes, Memory, Text};
use std::alloc::Global;

/// The same value. A text or a JSON value takes memory for its bytes once, and nothing else takes any.
pub fn copy(alloc: Global, value: &SqlValue) -> Result<SqlValue, Memory>
    ensures same { IfOk result (λ v. v ≡ value.now) }
    ensures printable { IsPrintable value.now → IfOk result IsPrintable }
{
    Ok(match value {
        SqlValue::Null => SqlValue::Null,
        SqlValue::Text(text) => SqlValue::Text(Text::from_str(alloc, text.as_str())?),
        SqlValue::Num(number, places) => SqlValue::Num(*number, *places),
        SqlValue::Bool(truth) => SqlValue::Bool(*truth),
        SqlValue::Json(text) => SqlValue::Json(copy_bytes(alloc, text)?),
    })
}

fn copy_bytes(alloc: Global, bytes: &Bytes) -> Result<Bytes, Memory>
    ensures { IfOk result (λ b. b ≡ bytes.now) }
{
    let mut copied = Bytes::new(alloc);
    copied.push(bytes.as_slice())?;
    Ok(copied)
}
