// The groups of all rows.
ghost use Rattle.std.specs.Prelude.{◌≡◌, ◌<◌, ◌++◌, ◌∷◌, [], List, ℕ, All, length, slice_index_or, OnOk, OnErr};
ghost use Rattle.indexmap.specs.IndexMap.{values};
ghost use Rattle.sj_text.specs.Prefixes.{AppendsPrefix};
ghost use Rattle.sj_group.specs.Grouping.{Row, IsRow, columns_of, takes, key_of, grouped};
ghost use Rattle.sj_group.specs.Held.{held_groups, shown, IsHeld, StandsForRows};

use crate::aggregate::Aggregate;
use crate::group::Group;
use crate::text::entry_text;
use indexmap::IndexMap;
use sj_base::{Bytes, Memory};
use sj_rows::field_text;
use sj_value::SqlValue;
use std::alloc::Global;
use std::marker::Model;

/// Rows gathered by the field of their first value.
///
/// Contracts say for which list of rows it stands: those that were added, in order. Its groups are those of that list, in
/// the order in which their first rows came.
pub struct Groups {
    alloc: Global,
    aggregate: Aggregate,
    // each group by its key, the field of its rows' first value
    groups: IndexMap<Vec<u8>, Group>,
    // the key of the row that comes; its room is kept from one row to the next
    key: Bytes,
}

impl Drop for Groups {
    fn drop(self) {
        let Groups {
            alloc: _alloc,
            aggregate: _aggregate,
            groups: _groups,
            key: _key,
        } = self;
    }
}

impl Model for Groups {
    ghost use Rattle.std.specs.Prelude.{All};
    ghost use Rattle.indexmap.specs.IndexMap.{values};
    ghost use Rattle.sj_group.specs.Held.{HeldGroups, IsHeld, held_groups, shown};

    ghost Value = { HeldGroups };

    ghost view = { λ g. held_groups g.aggregate (shown g.groups) };

    ghost invariant = { λ g. All (IsHeld g.aggregate) (values g.groups) };
}

impl Groups {
    /// The groups of no rows. It takes no memory; `alloc` serves the calls that add.
    pub fn new(alloc: Global, aggregate: Aggregate) -> Groups
        ensures aggregate { result.aggregate ≡ aggregate }
        ensures stands { StandsForRows [] result }
    {
        Groups {
            alloc,
            aggregate,
            groups: IndexMap::new(alloc),
            key: Bytes::new(alloc),
        }
    }

    /// Whether a row can be added: where an object is made, its second value is not NULL.
    pub fn takes(&self, row: &[SqlValue]) -> bool
        requires { length row.now ≡ columns_of self.now.aggregate }
        ensures { result ≡ takes self.now.aggregate row.now }
    {
        self.aggregate.takes(row)
    }

    /// Adds a row at the end: two values, or three where an object is made, of which the second is then a text.
    ///
    /// # Errors
    /// `Memory` where memory ran out; nothing has changed then.
    pub fn add(&mut self, row: &[SqlValue]) -> Result<(), Memory>
        requires { IsRow self.old.aggregate row.now }
        ensures stands { (rows : List Row) → StandsForRows rows self.old → OnOk result (StandsForRows (rows ++ row.now ∷ []) self.new) }
        ensures aggregate { self.new.aggregate ≡ self.old.aggregate }
        ensures err { OnErr result (self.new ≡ self.old) }
    {
        self.key.truncate(0);
        field_text(&mut self.key, &row[0])?;
        add_row(
            self.alloc,
            self.aggregate,
            &mut self.groups,
            self.key.as_slice(),
            row,
        )
    }

    /// How many groups there are.
    pub fn len(&self) -> usize
        ensures len { result ≡ length self.now.groups }
        ensures grouped { (rows : List Row) → StandsForRows rows self.now → result ≡ length (grouped self.now.aggregate rows) }
    {
        self.groups.len()
    }

    /// Appends the text of a group: `G`, its key, the number of its rows, and the field of the array or object of them, with
    /// TABs between them, and LF.
    ///
    /// # Errors
    /// `Memory` where memory ran out. `out` has then grown by a first part of the text.
    pub fn group_text(&self, i: usize, out: &mut Bytes) -> Result<(), Memory>
        requires { i < length self.now.groups }
        ensures ok { (rows : List Row) → StandsForRows rows self.now → OnOk result (out.new ≡ out.old ++ slice_index_or (grouped self.now.aggregate rows) i []) }
        ensures err { (rows : List Row) → StandsForRows rows self.now → OnErr result (AppendsPrefix out.old (slice_index_or (grouped self.now.aggregate rows) i []) out.new) }
    {
        let (key, group) = self.groups.get_index(i).unwrap();
        entry_text(out, key.as_slice(), group.count, group.gathered.text())
    }
}

// Adds a row with this key to its group, which begins with it where the key is new. A new group is whole before it is put
// behind the others, so that no refusal leaves a part of it.
fn add_row(
    alloc: Global,
    aggregate: Aggregate,
    groups: &mut IndexMap<Vec<u8>, Group>,
    key: &[u8],
    row: &[SqlValue],
) -> Result<(), Memory>
    requires key { key.now ≡ key_of row.now }
    requires row { IsRow aggregate row.now }
    requires held { All (IsHeld aggregate) (values groups.old) }
    ensures held { All (IsHeld aggregate) (values groups.new) }
    ensures stands { (rows : List Row) → StandsForRows rows (held_groups aggregate (shown groups.old)) → OnOk result (StandsForRows (rows ++ row.now ∷ []) (held_groups aggregate (shown groups.new))) }
    ensures err { OnErr result (shown groups.new ≡ shown groups.old) }
{
    match groups.get_mut(key) {
        Some(group) => group.add(row),
        None => {
            let group = Group::first(alloc, aggregate, row)?;
            groups.insert(Vec::from_slice(alloc, key)?, group)?;
            Ok(())
        }
    }
}
