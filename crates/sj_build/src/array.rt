// JSON_ARRAY.
ghost use Rattle.std.specs.Prelude.{◌≡◌, [], IfOk, OnOk};
ghost use Rattle.sj_value.specs.Values.{IsPrintable};
ghost use Rattle.sj_build.specs.Constructors as spec;
ghost use Rattle.sj_build.specs.Constructors.{array_value};

use crate::element::{begin, is_kept, lead, value_text};
use sj_base::{Bytes, Memory};
use sj_text::Place;
use sj_value::{Nulls, SqlValue};
use std::alloc::Global;

/// JSON_ARRAY: the array of the values in order (ISO/IEC 9075-2, JSON array constructor).
///
/// A text becomes a string, a number its plain text whatever decimals it is to print, and a truth value `true` or
/// `false`. A JSON value stays as it is. NULL becomes `null`, or is dropped under ABSENT ON NULL. The array of no
/// values is `[]`.
///
/// # Errors
/// [`Memory`] where memory runs out.
pub fn json_array(alloc: Global, values: &[SqlValue], nulls: Nulls) -> Result<SqlValue, Memory>
    ensures value { IfOk result (λ v. v ≡ array_value nulls values.now) }
    ensures printable { IfOk result IsPrintable }
{
    let mut text = Bytes::new(alloc);
    array_text(&mut text, values, nulls)?;
    Ok(SqlValue::Json(text))
}

// Writes the text of the array. The room for it is lent, so that nothing is given up where it returns early.
fn array_text(text: &mut Bytes, values: &[SqlValue], nulls: Nulls) -> Result<(), Memory>
    requires { text.old ≡ [] }
    ensures { OnOk result (text.new ≡ spec.array_text nulls values.now) }
{
    let mut place = Place::First;
    begin(text, b'[')?;
    for value in values {
        if is_kept(nulls, value) {
            lead(text, place)?;
            value_text(text, value)?;
            place = Place::Later;
        }
    }
    text.push(b"]")
}
