// JSON_OBJECT.
ghost use Rattle.std.specs.Prelude.{◌≡◌, [], Ok, is_some, IfOk, IfErr, OnOk};
ghost use Rattle.sj_value.specs.Values.{IsPrintable};
ghost use Rattle.sj_build.specs.Answers.{RefusesAs};
ghost use Rattle.sj_build.specs.Constructors.{object_value};
ghost use Rattle.sj_build.specs.Keys.{lent_keys};

use crate::element::{begin, kept_key, lead, member_text};
use crate::field::Field;
use crate::keys::{no_keys, note_lent};
use crate::refusal::BuildRefusal;
use indexmap::IndexSet;
use sj_base::Bytes;
use sj_text::Place;
use sj_value::{Nulls, SqlValue};
use std::alloc::Global;

/// JSON_OBJECT: the object of the members in order (ISO/IEC 9075-2, JSON object constructor).
///
/// Keys are texts. Values become JSON as in [`json_array`](crate::json_array), and a member whose value is NULL is
/// dropped under ABSENT ON NULL. With `unique`, which is WITH UNIQUE KEYS, no two members that are kept may have equal
/// keys; without, all of them stay.
///
/// # Errors
/// `State` exactly where a member is refused, with the state of the first: 22004 where its key is no text, as NULL is
/// none, though its value be dropped; and 22030 where with `unique` it is kept and its key is that of a member kept
/// before it. `Memory` where memory ran out.
pub fn json_object(
    alloc: Global,
    fields: &[Field],
    nulls: Nulls,
    unique: bool,
) -> Result<SqlValue, BuildRefusal>
    ensures value { IfOk result (λ v. object_value nulls unique fields.now ≡ Ok v) }
    ensures refusal { IfErr result (RefusesAs (object_value nulls unique fields.now)) }
    ensures printable { IfOk result IsPrintable }
{
    let mut text = Bytes::new(alloc);
    let mut keys = no_keys(alloc, unique);
    object_text(&mut text, &mut keys, fields, nulls)?;
    Ok(SqlValue::Json(text))
}

// Writes the text of the object. The room for it and for its keys is lent, so that nothing is given up where it returns early.
fn object_text<'k>(
    text: &mut Bytes,
    keys: &mut Option<IndexSet<&'k str>>,
    fields: &'k [Field],
    nulls: Nulls,
) -> Result<(), BuildRefusal>
    requires text { text.old ≡ [] }
    requires keys { lent_keys keys.old ≡ [] }
    ensures ok { OnOk result (object_value nulls (is_some keys.old) fields.now ≡ Ok (SqlValue.Json text.new)) }
    ensures refusal { IfErr result (RefusesAs (object_value nulls (is_some keys.old) fields.now)) }
{
    let mut place = Place::First;
    begin(text, b'{')?;
    for field in fields {
        if let Some(key) = kept_key(&field.key, &field.value, nulls)? {
            note_lent(keys, key)?;
            lead(text, place)?;
            member_text(text, key, &field.value)?;
            place = Place::Later;
        }
    }
    text.push(b"}")?;
    Ok(())
}
