// IS JSON.
ghost use Rattle.std.specs.Prelude.{◌≡◌, ◌↔◌, IfOk, IsTrue, option_map};
ghost use Rattle.sj_func.specs.Json.{is_of as of_kind, IsJsonAs};

use sj_base::Memory;
use sj_doc::{Doc, Kind};
use sj_value::JsonKind;
use std::alloc::Global;

/// IS JSON: whether a text is JSON of the kind, and with WITH UNIQUE KEYS whether no object in it has two equal keys
/// (ISO/IEC 9075-2, JSON predicate). A text that is not JSON has no document. IS NOT JSON is the opposite.
///
/// It asks for no steps. Unique keys take memory for the keys of one object at a time.
///
/// Example: `{"a":1,"a":2}` is a JSON object, but not one with unique keys (`sj_row_tests::examples::json_predicate`).
///
/// # Errors
/// [`Memory`] where memory runs out.
#[inline(always)]
pub fn is_json(
    alloc: Global,
    doc: Option<&Doc>,
    kind: JsonKind,
    unique: bool,
) -> Result<bool, Memory>
    ensures { IfOk result (λ yes. IsTrue yes ↔ IsJsonAs kind unique (option_map (λ d. d.now) doc.entry)) }
{
    let Some(doc) = doc else {
        return Ok(false);
    };
    if !is_of(kind, doc.root().kind()) {
        return Ok(false);
    }
    if !unique {
        return Ok(true);
    }
    Ok(doc.unique_keys(alloc)?)
}

// Whether a value of this kind is of the kind that is asked for. The value's own kind is found first and then compared: a
// `match` on the pair of them has two jumps by tables, behind which the processor was found waiting (`bench/waits.py`).
fn is_of(asked: JsonKind, kind: Kind) -> bool
    ensures { result ≡ of_kind asked kind }
{
    let own = match kind {
        Kind::Array => JsonKind::Array,
        Kind::Object => JsonKind::Object,
        _ => JsonKind::Scalar,
    };
    asked == JsonKind::Value || asked == own
}
