// The texts of elements and members, and which of them are kept.
ghost use Rattle.std.specs.Prelude.{◌≡◌, ◌++◌, ◌∷◌, [], ◌≤◌, ◌-◌, length, take, drop, option_map, Ok, IfOk, IfErr, OnOk, OnErr};
ghost use Rattle.sj_build.specs.Constructors as spec;
ghost use Rattle.sj_build.specs.Constructors.{pair_text};
ghost use Rattle.sj_build.specs.Answers.{RefusesNull};
ghost use Rattle.sj_text.specs.Rendering.{comma};
ghost use Rattle.sj_build.specs.Growing.{Extends};

use crate::refusal::BuildRefusal;
use sj_base::{Bytes, Memory, State};
use sj_text::{Place, string_text};
use sj_value::{Nulls, SqlValue};

// Whether a value is kept: ABSENT ON NULL drops a NULL.
pub(crate) fn is_kept(nulls: Nulls, value: &SqlValue) -> bool
    ensures { result ≡ spec.is_kept nulls value.now }
{
    match (nulls, value) {
        (Nulls::Absent, SqlValue::Null) => false,
        _ => true,
    }
}

// The key of a member that is kept, or `None` where the member is dropped. A key that is no text is refused, whatever
// the value.
pub(crate) fn kept_key<'k>(
    key: &'k SqlValue,
    value: &SqlValue,
    nulls: Nulls,
) -> Result<Option<&'k str>, BuildRefusal>
    ensures ok { IfOk result (λ kept. spec.kept_key nulls (record { key = key.now; value = value.now }) ≡ Ok (option_map (λ key. key.now) kept)) }
    ensures refusal { IfErr result (RefusesNull (spec.kept_key nulls (record { key = key.now; value = value.now }))) }
{
    match key {
        SqlValue::Text(key) if is_kept(nulls, value) => Ok(Some(key.as_str())),
        SqlValue::Text(_) => Ok(None),
        SqlValue::Null | SqlValue::Num(_, _) | SqlValue::Bool(_) | SqlValue::Json(_) => {
            Err(BuildRefusal::State(State::S22004))
        }
    }
}

// The room of a text when it begins, in bytes. Most texts are no longer, and take memory once.
const FIRST_ROOM: usize = 64;

// Begins a text with its opening bracket, and makes room for what most have.
#[inline(always)]
pub(crate) fn begin(text: &mut Bytes, bracket: u8) -> Result<(), Memory>
    ensures ok { OnOk result (text.new ≡ text.old ++ bracket ∷ []) }
    ensures err { OnErr result (text.new ≡ text.old) }
{
    text.push(&[bracket; FIRST_ROOM])?;
    text.truncate(text.len() - (FIRST_ROOM - 1));
    Ok(())
}

// Appends what stands before an element.
pub(crate) fn lead(text: &mut Bytes, place: Place) -> Result<(), Memory>
    ensures ok { OnOk result (text.new ≡ text.old ++ comma place) }
    ensures err { OnErr result (text.new ≡ text.old) }
{
    match place {
        Place::First => Ok(()),
        Place::Later => text.push(b","),
    }
}

// Appends a value as JSON text.
pub(crate) fn value_text(text: &mut Bytes, value: &SqlValue) -> Result<(), Memory>
    ensures ok { OnOk result (text.new ≡ text.old ++ spec.value_text value.now) }
    ensures err { OnErr result (Extends text.old text.new) }
{
    match value {
        SqlValue::Null => text.push(b"null"),
        SqlValue::Text(string) => string_text(string.as_str(), text),
        SqlValue::Num(number, _) => text.push(number.text().as_str().as_bytes()),
        SqlValue::Bool(true) => text.push(b"true"),
        SqlValue::Bool(false) => text.push(b"false"),
        SqlValue::Json(json) => text.push(json.as_slice()),
    }
}

// Appends a member: its key, a colon and its value.
pub(crate) fn member_text(text: &mut Bytes, key: &str, value: &SqlValue) -> Result<(), Memory>
    ensures ok { OnOk result (text.new ≡ text.old ++ pair_text key.now value.now) }
    ensures err { OnErr result (Extends text.old text.new) }
{
    string_text(key, text)?;
    text.push(b":")?;
    value_text(text, value)
}

// Takes out the closing bracket that ends the first `end` bytes, where there are any.
pub(crate) fn take_bracket(text: &mut Bytes, end: usize)
    requires { end ≤ length text.old }
    ensures { text.new ≡ take (end - 1) text.old ++ drop end text.old }
{
    if end > 0 {
        text.remove(end - 1);
    }
}
