// A group of rows.
ghost use Rattle.std.specs.Prelude.{◌≡◌, ◌++◌, ◌∷◌, [], List, IfOk, OnOk, OnErr};
ghost use Rattle.sj_group.specs.Grouping.{Row, IsRow};
ghost use Rattle.sj_group.specs.Held.{aggregate_of, IsGroupOf};

use crate::aggregate::Aggregate;
use crate::gathered::Gathered;
use sj_base::Memory;
use sj_value::SqlValue;
use std::alloc::Global;

// The number of rows of a group, which stays at the greatest that 64 bits tell, and what was gathered of them.
#[derive(Drop)]
pub(crate) struct Group {
    pub(crate) count: u64,
    pub(crate) gathered: Gathered,
}

impl Group {
    // The group of one row.
    pub(crate) fn first(
        alloc: Global,
        aggregate: Aggregate,
        row: &[SqlValue],
    ) -> Result<Group, Memory>
        requires { IsRow aggregate row.now }
        ensures aggregate { IfOk result (λ group. aggregate_of group.gathered ≡ aggregate) }
        ensures group { IfOk result (IsGroupOf (row.now ∷ [])) }
    {
        let mut gathered = Gathered::new(alloc, aggregate);
        gathered.add(row)?;
        Ok(Group { count: 1, gathered })
    }

    // Adds a row at the end. What was gathered before is not copied.
    pub(crate) fn add(&mut self, row: &[SqlValue]) -> Result<(), Memory>
        requires row { IsRow (aggregate_of self.old.gathered) row.now }
        requires held { (rows : List Row) × IsGroupOf rows self.old }
        ensures group { (rows : List Row) → IsGroupOf rows self.old → OnOk result (IsGroupOf (rows ++ row.now ∷ []) self.new) }
        ensures aggregate { aggregate_of self.new.gathered ≡ aggregate_of self.old.gathered }
        ensures err { OnErr result (self.new ≡ self.old) }
    {
        self.gathered.add(row)?;
        self.count = self.count.saturating_add(1);
        Ok(())
    }
}
