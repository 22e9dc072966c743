// The entries of a path under a parent item, one at a time.
ghost use Rattle.std.specs.Prelude.{◌≡◌, ◌≤◌, ◌+◌};
ghost use Rattle.sj_base.specs.Count.{raised};
ghost use Rattle.sj_item.specs.Items.{item_value};
ghost use Rattle.sj_step.specs.Trace.{visits, fault_of};
ghost use Rattle.sj_table.specs.Cells.{path_source, entry_at, entries_left, entries_due, entries_to_end};
ghost use Rattle.sj_table.specs.Rows.{Entry, unless_fault};
ghost use Rattle.sj_table.specs.Series.{Series};
ghost use Rattle.sj_table.specs.Takes.{Takes, Answers};

use crate::cells::{PathCell, Stage};
use crate::pull::RowPull;
use sj_base::{State, Steps};
use sj_item::{Item, Pull};
use sj_value::TableAction;

impl<'d> PathCell<'d> {
    /// The next entry under a parent item, or the end. Before the first one a path that may have a fault is run to its end, which tells
    /// whether it has.
    pub(crate) fn next(
        &mut self,
        on_error: TableAction,
        parent: &Item<'d>,
        steps: &mut Steps,
    ) -> RowPull
        ensures takes { Takes (entries_left on_error self.old (item_value parent.now)) (entries_due self.old (item_value parent.now)) result (entry_at self.new) (entries_left on_error self.new (item_value parent.now)) (entries_due self.new (item_value parent.now)) steps.old steps.new }
        ensures same { path_source self.new ≡ path_source self.old }
    {
        match self.stage {
            Stage::Entered => self.advance(steps),
            Stage::Unasked => match self.enter(parent, steps) {
                Some(state) => refused(on_error, state),
                None => self.advance(steps),
            },
        }
    }

    // Tells the fault that the path ends in under an item, if any. The cell then stands before its first entry.
    fn enter(&mut self, parent: &Item<'d>, steps: &mut Steps) -> Option<State>
        ensures fault { result ≡ fault_of ((path_source self.old).trace (item_value parent.now)) }
        ensures costs { steps.new ≤ raised steps.old (visits ((path_source self.old).trace (item_value parent.now))) }
        ensures left { self.new.run.cursor.value.left ≡ (path_source self.old).trace (item_value parent.now) }
        ensures ordinal { self.new.ordinal ≡ 0 }
        ensures stage { self.new.stage ≡ Stage.Entered }
        ensures same { path_source self.new ≡ path_source self.old }
    {
        let fault = self.run.fault_under(parent, steps);
        self.run.rewind(parent);
        self.ordinal = 0;
        self.stage = Stage::Entered;
        fault
    }

    // The next of the items that the cursor has left.
    fn advance(&mut self, steps: &mut Steps) -> RowPull
        ensures takes { Takes (entries_to_end self.old.number (self.old.ordinal + 1) self.old.run.cursor.value.left) (visits self.old.run.cursor.value.left) result (entry_at self.new) (entries_to_end self.new.number (self.new.ordinal + 1) self.new.run.cursor.value.left) (visits self.new.run.cursor.value.left) steps.old steps.new }
        ensures stage { self.new.stage ≡ self.old.stage }
        ensures same { path_source self.new ≡ path_source self.old }
    {
        match self.run.next(steps) {
            Pull::Item(item) => {
                self.item = item;
                self.ordinal = self.ordinal.saturating_add(1);
                RowPull::Row
            }
            Pull::End => RowPull::End,
            Pull::Fault(state) => RowPull::Raised(state),
        }
    }
}

// What a path with a fault gives in place of its entries.
fn refused(on_error: TableAction, state: State) -> RowPull
    ensures { (all left : Series Entry) (e : Entry) → Answers (unless_fault on_error (Some state) all) result e left }
{
    match on_error {
        TableAction::Empty => RowPull::End,
        TableAction::Error => RowPull::Raised(state),
    }
}
