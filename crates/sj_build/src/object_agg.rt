// JSON_OBJECTAGG.
ghost use Rattle.std.specs.Prelude.{◌≡◌, ◌++◌, ◌∷◌, ◌&&◌, [], List, ℕ, Ok, is_some, false, IfErr, OnOk, OnErr, codes};
ghost use Rattle.sj_base.specs.Names.{is_among};
ghost use Rattle.sj_value.specs.Values.{IsPrintable};
ghost use Rattle.sj_build.specs.declared.field.Field.{Field};
ghost use Rattle.sj_build.specs.Constructors.{pair_text};
ghost use Rattle.sj_text.specs.Rendering.{comma};
ghost use Rattle.sj_build.specs.Growing.{opening, opened, Extends};
ghost use Rattle.sj_build.specs.Answers.{RefusesAs, RefusesRepeated};
ghost use Rattle.sj_build.specs.Keys.{owned_keys, noted};

use crate::element::{begin, kept_key, lead, member_text, take_bracket};
use crate::keys::note_copy;
use crate::refusal::BuildRefusal;
use indexmap::IndexSet;
use sj_base::{Bytes, Memory};
use sj_text::Place;
use sj_value::{Nulls, SqlValue};
use std::alloc::Global;
use std::marker::Model;

/// JSON_OBJECTAGG: the object of members that come one after another (ISO/IEC 9075-2, JSON aggregate functions).
///
/// Contracts say for which list of members it stands: those that were added, in order. Its value is that of
/// [`json_object`](crate::json_object) over the whole list, and NULL where nothing was added. The text is kept with its
/// closing bracket, so [`finish`](ObjectAgg::finish) takes no memory. WITH UNIQUE KEYS a copy of each key is kept
/// beside it.
///
/// Its `drop` is written out, so that whoever holds one gives it up by one call.
pub struct ObjectAgg {
    alloc: Global,
    nulls: Nulls,
    // the object so far; empty as long as nothing was added
    text: Bytes,
    place: Place,
    // the keys of its members, where no two may be equal
    keys: Option<IndexSet<String>>,
}

impl Drop for ObjectAgg {
    fn drop(self) {
        let ObjectAgg {
            alloc: _alloc,
            nulls: _nulls,
            text: _text,
            place: _place,
            keys: _keys,
        } = self;
    }
}

impl Model for ObjectAgg {
    ghost use Rattle.std.specs.Prelude.{is_some};
    ghost use Rattle.sj_build.specs.SoFar.{ObjectSoFar};
    ghost use Rattle.sj_build.specs.Keys.{owned_keys};

    ghost Value = { ObjectSoFar };

    ghost view = { λ o. record { nulls = o.nulls; unique = is_some o.keys; text = o.text; place = o.place; keys = owned_keys o.keys } };
}

impl ObjectAgg {
    ghost use Rattle.sj_build.specs.Constructors.{object_text, object_value, object_aggregate};
    ghost use Rattle.sj_build.specs.SoFar.{so_far, StandsForFields};

    /// Nothing was added. It takes no memory; `alloc` serves the calls that add. With `unique`, which is WITH UNIQUE
    /// KEYS, no two members that are kept may have equal keys.
    pub fn new(alloc: Global, nulls: Nulls, unique: bool) -> ObjectAgg
        ensures nulls { result.nulls ≡ nulls }
        ensures unique { result.unique ≡ unique }
        ensures stands { StandsForFields [] result }
    {
        ObjectAgg {
            alloc,
            nulls,
            text: Bytes::new(alloc),
            place: Place::First,
            keys: if unique {
                Some(IndexSet::new(alloc))
            } else {
                None
            },
        }
    }

    /// Adds a member at the end, by its key and its value.
    ///
    /// # Errors
    /// `State` exactly where the member is refused behind those that were added, with its state: 22004 where its key is
    /// no text, as NULL is none, though its value be dropped; and 22030 where with `unique` it is kept and its key is
    /// that of a member kept before it. `Memory` where memory ran out. In both cases nothing has changed.
    pub fn add(&mut self, key: &SqlValue, value: &SqlValue) -> Result<(), BuildRefusal>
        ensures stands { (fields : List Field) → StandsForFields fields self.old → OnOk result (StandsForFields (fields ++ record { key = key.now; value = value.now } ∷ []) self.new) }
        ensures refusal { (fields : List Field) → StandsForFields fields self.old → IfErr result (RefusesAs (object_value self.old.nulls self.old.unique (fields ++ record { key = key.now; value = value.now } ∷ []))) }
        ensures nulls { self.new.nulls ≡ self.old.nulls }
        ensures unique { self.new.unique ≡ self.old.unique }
        ensures err { OnErr result (self.new ≡ self.old) }
    {
        let Some(key) = kept_key(key, value, self.nulls)? else {
            open(&mut self.text)?;
            return Ok(());
        };
        let end = self.text.len();
        let added = append(
            self.alloc,
            &mut self.text,
            self.place,
            &mut self.keys,
            key,
            value,
        );
        if let Err(refusal) = added {
            self.text.truncate(end);
            return Err(refusal);
        }
        take_bracket(&mut self.text, end);
        self.place = Place::Later;
        Ok(())
    }

    /// Lends the text of the object of the members that were added so far. It is empty where none was.
    pub fn text(&self) -> &[u8]
        ensures { (fields : List Field) → StandsForFields fields self.now → result.now ≡ so_far (object_text self.now.nulls) fields }
    {
        self.text.as_slice()
    }

    /// The object of the members that were added, or NULL where none was. It takes no memory.
    pub fn finish(self) -> SqlValue
        ensures value { (fields : List Field) → StandsForFields fields self → object_aggregate self.nulls self.unique fields ≡ Ok result }
        ensures printable { IsPrintable result }
    {
        let ObjectAgg {
            alloc: _,
            nulls: _,
            text,
            place: _,
            keys: _keys,
        } = self;
        if text.is_empty() {
            SqlValue::Null
        } else {
            SqlValue::Json(text)
        }
    }
}

// Puts the text of an object without members in the place of no text.
fn open(text: &mut Bytes) -> Result<(), Memory>
    ensures ok { OnOk result (text.new ≡ opened (codes "{}") text.old) }
    ensures err { OnErr result (text.new ≡ text.old) }
{
    if text.is_empty() {
        text.push(b"{}")
    } else {
        Ok(())
    }
}

// Appends what is missing for one member more: the opening bracket where there is no text, what stands before the
// member, the member and a closing bracket. The one that closed the text so far is left for `take_bracket`. Its key is
// noted at last, so that no refusal leaves it.
fn append(
    alloc: Global,
    text: &mut Bytes,
    place: Place,
    keys: &mut Option<IndexSet<String>>,
    key: &str,
    value: &SqlValue,
) -> Result<(), BuildRefusal>
    ensures text { OnOk result (text.new ≡ text.old ++ (opening (codes "{") text.old ++ (comma place ++ (pair_text key.now value.now ++ codes "}")))) }
    ensures text_err { OnErr result (Extends text.old text.new) }
    ensures keys { OnOk result (owned_keys keys.new ≡ noted (is_some keys.old) (owned_keys keys.old) key.now) }
    ensures keys_err { OnErr result (owned_keys keys.new ≡ owned_keys keys.old) }
    ensures fresh { OnOk result ((is_some keys.old && is_among (owned_keys keys.old) key.now) ≡ false) }
    ensures refusal { IfErr result (RefusesRepeated (is_some keys.old && is_among (owned_keys keys.old) key.now)) }
    ensures unique { is_some keys.new ≡ is_some keys.old }
{
    if text.is_empty() {
        begin(text, b'{')?;
    }
    lead(text, place)?;
    member_text(text, key, value)?;
    text.push(b"}")?;
    note_copy(alloc, keys, key)
}
