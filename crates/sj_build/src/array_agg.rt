// JSON_ARRAYAGG.
ghost use Rattle.std.specs.Prelude.{◌≡◌, ◌++◌, ◌∷◌, [], List, ℕ, OnOk, OnErr, codes};
ghost use Rattle.sj_value.specs.Values.{IsPrintable};
ghost use Rattle.sj_value.specs.declared.value.SqlValue.{SqlValue};
ghost use Rattle.sj_build.specs.Constructors as spec;
ghost use Rattle.sj_text.specs.Rendering.{comma};
ghost use Rattle.sj_build.specs.Growing.{opening, opened, Extends};

use crate::element::{begin, is_kept, lead, take_bracket, value_text};
use sj_base::{Bytes, Memory};
use sj_text::Place;
use sj_value::{Nulls, SqlValue};
use std::alloc::Global;
use std::marker::Model;

/// JSON_ARRAYAGG: the array of values that come one after another (ISO/IEC 9075-2, JSON aggregate functions).
///
/// Contracts say for which list of values it stands: those that were added, in order. Its value is that of
/// [`json_array`](crate::json_array) over the whole list, and NULL where nothing was added. The text is kept with its
/// closing bracket, so [`finish`](ArrayAgg::finish) takes no memory.
#[derive(Drop)]
pub struct ArrayAgg {
    nulls: Nulls,
    // the array so far; empty as long as nothing was added
    text: Bytes,
    place: Place,
}

impl Model for ArrayAgg {
    ghost use Rattle.sj_build.specs.SoFar.{ArraySoFar};

    ghost Value = { ArraySoFar };

    ghost view = { λ a. record { nulls = a.nulls; text = a.text; place = a.place } };
}

impl ArrayAgg {
    ghost use Rattle.sj_build.specs.Constructors.{array_text, array_aggregate};
    ghost use Rattle.sj_build.specs.SoFar.{so_far, StandsForValues};

    /// Nothing was added. It takes no memory; `alloc` serves the calls that add.
    pub fn new(alloc: Global, nulls: Nulls) -> ArrayAgg
        ensures nulls { result.nulls ≡ nulls }
        ensures stands { StandsForValues [] result }
    {
        ArrayAgg {
            nulls,
            text: Bytes::new(alloc),
            place: Place::First,
        }
    }

    /// Adds a value at the end.
    ///
    /// # Errors
    /// [`Memory`] where memory ran out; nothing has changed then.
    pub fn add(&mut self, value: &SqlValue) -> Result<(), Memory>
        ensures stands { (values : List SqlValue) → StandsForValues values self.old → OnOk result (StandsForValues (values ++ value.now ∷ []) self.new) }
        ensures nulls { self.new.nulls ≡ self.old.nulls }
        ensures err { OnErr result (self.new ≡ self.old) }
    {
        if !is_kept(self.nulls, value) {
            return open(&mut self.text);
        }
        let end = self.text.len();
        if let Err(memory) = append(&mut self.text, self.place, value) {
            self.text.truncate(end);
            return Err(memory);
        }
        take_bracket(&mut self.text, end);
        self.place = Place::Later;
        Ok(())
    }

    /// Lends the text of the array of the values that were added so far. It is empty where none was.
    pub fn text(&self) -> &[u8]
        ensures { (values : List SqlValue) → StandsForValues values self.now → result.now ≡ so_far (array_text self.now.nulls) values }
    {
        self.text.as_slice()
    }

    /// The array of the values that were added, or NULL where none was. It takes no memory.
    pub fn finish(self) -> SqlValue
        ensures value { (values : List SqlValue) → StandsForValues values self → result ≡ array_aggregate self.nulls values }
        ensures printable { IsPrintable result }
    {
        if self.text.is_empty() {
            SqlValue::Null
        } else {
            SqlValue::Json(self.text)
        }
    }
}

// Puts the text of an array without elements in the place of no text.
fn open(text: &mut Bytes) -> Result<(), Memory>
    ensures ok { OnOk result (text.new ≡ opened (codes "[]") text.old) }
    ensures err { OnErr result (text.new ≡ text.old) }
{
    if text.is_empty() {
        text.push(b"[]")
    } else {
        Ok(())
    }
}

// Appends what is missing for one element more: the opening bracket where there is no text, what stands before the
// element, the element and a closing bracket. The one that closed the text so far is left for `take_bracket`.
fn append(text: &mut Bytes, place: Place, value: &SqlValue) -> Result<(), Memory>
    ensures ok { OnOk result (text.new ≡ text.old ++ (opening (codes "[") text.old ++ (comma place ++ (spec.value_text value.now ++ codes "]")))) }
    ensures err { OnErr result (Extends text.old text.new) }
{
    if text.is_empty() {
        begin(text, b'[')?;
    }
    lead(text, place)?;
    value_text(text, value)?;
    text.push(b"]")
}
