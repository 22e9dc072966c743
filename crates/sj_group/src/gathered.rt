// What was gathered of the rows of a group.
ghost use Rattle.std.specs.Prelude.{◌≡◌, ◌++◌, ◌∷◌, [], List, OnOk, OnErr};
ghost use Rattle.sj_build.specs.SoFar.{so_far};
ghost use Rattle.sj_group.specs.Grouping.{Row, IsRow, aggregate_text};
ghost use Rattle.sj_group.specs.Held.{aggregate_of, Gathers};

use crate::aggregate::Aggregate;
use sj_base::Memory;
use sj_build::{ArrayAgg, BuildRefusal, ObjectAgg};
use sj_value::{Nulls, SqlValue};
use std::alloc::Global;

// The array or the object of the rows so far. Its `drop` is written out, so that whoever holds one gives it up by one call.
pub(crate) enum Gathered {
    Array(ArrayAgg),
    Object(ObjectAgg),
}

impl Drop for Gathered {
    fn drop(self) {
        match self {
            Gathered::Array(_array) => {}
            Gathered::Object(_object) => {}
        }
    }
}

impl Gathered {
    // No rows. It takes no memory.
    pub(crate) fn new(alloc: Global, aggregate: Aggregate) -> Gathered
        ensures aggregate { aggregate_of result ≡ aggregate }
        ensures none { Gathers [] result }
    {
        match aggregate {
            Aggregate::Array => Gathered::Array(ArrayAgg::new(alloc, Nulls::Null)),
            Aggregate::Object => Gathered::Object(ObjectAgg::new(alloc, Nulls::Null, false)),
        }
    }

    // Gathers a row. Its name is a text and names may be equal, so only want of memory refuses it.
    pub(crate) fn add(&mut self, row: &[SqlValue]) -> Result<(), Memory>
        requires row { IsRow (aggregate_of self.old) row.now }
        requires held { (rows : List Row) × Gathers rows self.old }
        ensures gathers { (rows : List Row) → Gathers rows self.old → OnOk result (Gathers (rows ++ row.now ∷ []) self.new) }
        ensures aggregate { aggregate_of self.new ≡ aggregate_of self.old }
        ensures err { OnErr result (self.new ≡ self.old) }
    {
        match self {
            Gathered::Array(array) => array.add(&row[1]),
            Gathered::Object(object) => match object.add(&row[1], &row[2]) {
                Ok(()) => Ok(()),
                Err(BuildRefusal::Memory) => Err(Memory),
                Err(BuildRefusal::State(_)) => unreachable!(),
            },
        }
    }

    // Lends the text so far.
    pub(crate) fn text(&self) -> &[u8]
        ensures { (rows : List Row) → Gathers rows self.now → result.now ≡ so_far (aggregate_text (aggregate_of self.now)) rows }
    {
        match self {
            Gathered::Array(array) => array.text(),
            Gathered::Object(object) => object.text(),
        }
    }
}
