// The rows of a plan under a parent item, one at a time.
ghost use Rattle.std.specs.Prelude.{◌≡◌};
ghost use Rattle.sj_item.specs.Items.{ItemValue, item_value};
ghost use Rattle.sj_value.specs.declared.clauses.TableAction.{TableAction as Action};
ghost use Rattle.sj_table.specs.Cells as cells_of;
ghost use Rattle.sj_table.specs.Rows.{beside, joined, rows, cost};
ghost use Rattle.sj_table.specs.Series.{done};
ghost use Rattle.sj_table.specs.Takes.{Takes, Answers, due_behind};

use crate::cells::{At, Cell, Cross, Hand, Nested, Side, Union};
use crate::join::Join;
use crate::pull::RowPull;
use sj_base::Steps;
use sj_item::Item;
use sj_value::TableAction;

impl<'d> Cell<'d> {
    /// The next row under a parent item, or the end.
    #[cycle(next)]
    pub(crate) fn next(
        &mut self,
        on_error: TableAction,
        parent: &Item<'d>,
        steps: &mut Steps,
    ) -> RowPull
        ensures takes { Takes (cells_of.rows_left on_error self.old (item_value parent.now)) (cells_of.rows_due on_error self.old (item_value parent.now)) result (cells_of.row_of self.new) (cells_of.rows_left on_error self.new (item_value parent.now)) (cells_of.rows_due on_error self.new (item_value parent.now)) steps.old steps.new }
        ensures same { cells_of.core self.new ≡ cells_of.core self.old }
    {
        match self {
            Cell::Single(path) => path.next(on_error, &*parent, steps),
            Cell::Nested(nested) => nested.next(on_error, &*parent, steps),
            Cell::Union(union) => union.next(on_error, &*parent, steps),
            Cell::Cross(cross) => cross.next(on_error, &*parent, steps),
        }
    }
}

impl<'d> Nested<'d> {
    #[cycle(next)]
    fn next(&mut self, on_error: TableAction, parent: &Item<'d>, steps: &mut Steps) -> RowPull
        ensures takes { Takes (cells_of.nested_left on_error self.old (item_value parent.now)) (cells_of.nested_due on_error self.old (item_value parent.now)) result (cells_of.nested_row self.new) (cells_of.nested_left on_error self.new (item_value parent.now)) (cells_of.nested_due on_error self.new (item_value parent.now)) steps.old steps.new }
        ensures same { cells_of.nested_core self.new ≡ cells_of.nested_core self.old }
    {
        'entries: loop {
            match self.next_below(on_error, steps) {
                RowPull::End => {}
                answer => return answer,
            }
            match self.parent.next(on_error, &*parent, steps) {
                RowPull::Row => self.begin(),
                answer => return answer,
            }
        }
    }

    // The next row of the entry at hand.
    #[cycle(next)]
    fn next_below(&mut self, on_error: TableAction, steps: &mut Steps) -> RowPull
        ensures takes { Takes (cells_of.nested_at_left on_error self.old) (cells_of.nested_at_due on_error self.old) result (cells_of.nested_row self.new) (cells_of.nested_at_left on_error self.new) (cells_of.nested_at_due on_error self.new) steps.old steps.new }
        ensures join { self.new.join ≡ self.old.join }
        ensures parent { self.new.parent ≡ self.old.parent }
        ensures below { cells_of.core self.new.below.value ≡ cells_of.core self.old.below.value }
    {
        match self.at {
            At::Nothing | At::Alone => RowPull::End,
            At::Among => self.below.next(on_error, &self.parent.item, steps),
            At::Before => match self.below.next(on_error, &self.parent.item, steps) {
                RowPull::Row => {
                    self.at = At::Among;
                    RowPull::Row
                }
                RowPull::End => self.end_empty(),
                RowPull::Raised(state) => RowPull::Raised(state),
            },
        }
    }

    // The entry at hand has no row below it.
    fn end_empty(&mut self) -> RowPull
        ensures answers { (action : Action) → Answers (joined self.old.join (cells_of.entry_at self.old.parent) done) result (cells_of.nested_row self.new) (cells_of.nested_at_left action self.new) }
        ensures due { (action : Action) → due_behind result (cells_of.nested_at_due action self.new) ≡ 0 }
        ensures join { self.new.join ≡ self.old.join }
        ensures parent { self.new.parent ≡ self.old.parent }
        ensures below { cells_of.core self.new.below.value ≡ cells_of.core self.old.below.value }
    {
        match self.join {
            Join::Outer => {
                self.at = At::Alone;
                RowPull::Row
            }
            Join::Inner => RowPull::End,
        }
    }

    // Takes the parent's entry in hand.
    fn begin(&mut self)
        ensures left { (action : Action) → cells_of.nested_at_left action self.new ≡ joined self.old.join (cells_of.entry_at self.old.parent) (rows action (cells_of.core self.old.below.value) (item_value self.old.parent.item)) }
        ensures due { (action : Action) → cells_of.nested_at_due action self.new ≡ cost action (cells_of.core self.old.below.value) (item_value self.old.parent.item) }
        ensures join { self.new.join ≡ self.old.join }
        ensures parent { self.new.parent ≡ self.old.parent }
        ensures below { cells_of.core self.new.below.value ≡ cells_of.core self.old.below.value }
    {
        self.below.rewind();
        self.at = At::Before;
    }
}

impl<'d> Union<'d> {
    #[cycle(next)]
    fn next(&mut self, on_error: TableAction, parent: &Item<'d>, steps: &mut Steps) -> RowPull
        ensures takes { Takes (cells_of.union_left on_error self.old (item_value parent.now)) (cells_of.union_due on_error self.old (item_value parent.now)) result (cells_of.union_row self.new) (cells_of.union_left on_error self.new (item_value parent.now)) (cells_of.union_due on_error self.new (item_value parent.now)) steps.old steps.new }
        ensures same { cells_of.union_core self.new ≡ cells_of.union_core self.old }
    {
        match self.side {
            Side::Right => self.right.next(on_error, &*parent, steps),
            Side::Left => match self.left.next(on_error, &*parent, steps) {
                RowPull::End => {
                    self.right.rewind();
                    self.side = Side::Right;
                    self.right.next(on_error, &*parent, steps)
                }
                answer => answer,
            },
        }
    }
}

impl<'d> Cross<'d> {
    #[cycle(next)]
    fn next(&mut self, on_error: TableAction, parent: &Item<'d>, steps: &mut Steps) -> RowPull
        ensures takes { Takes (cells_of.cross_left on_error self.old (item_value parent.now)) (cells_of.cross_due on_error self.old (item_value parent.now)) result (cells_of.cross_row self.new) (cells_of.cross_left on_error self.new (item_value parent.now)) (cells_of.cross_due on_error self.new (item_value parent.now)) steps.old steps.new }
        ensures same { cells_of.cross_core self.new ≡ cells_of.cross_core self.old }
    {
        'rows: loop {
            match self.next_right(on_error, &*parent, steps) {
                RowPull::End => {}
                answer => return answer,
            }
            match self.left.next(on_error, &*parent, steps) {
                RowPull::Row => self.begin(),
                answer => return answer,
            }
        }
    }

    // The next row beside the left row at hand.
    #[cycle(next)]
    fn next_right(&mut self, on_error: TableAction, parent: &Item<'d>, steps: &mut Steps) -> RowPull
        ensures takes { Takes (cells_of.cross_hand_left on_error self.old (item_value parent.now)) (cells_of.cross_hand_due on_error self.old (item_value parent.now)) result (cells_of.cross_row self.new) (cells_of.cross_hand_left on_error self.new (item_value parent.now)) (cells_of.cross_hand_due on_error self.new (item_value parent.now)) steps.old steps.new }
        ensures left { self.new.left ≡ self.old.left }
        ensures right { cells_of.core self.new.right.value ≡ cells_of.core self.old.right.value }
    {
        match self.hand {
            Hand::Empty => RowPull::End,
            Hand::Row => self.right.next(on_error, &*parent, steps),
        }
    }

    // Takes the left row in hand.
    fn begin(&mut self)
        ensures hand { (action : Action) (x : ItemValue) → cells_of.cross_hand_left action self.new x ≡ beside (cells_of.row_of self.old.left.value) (rows action (cells_of.core self.old.right.value) x) }
        ensures due { (action : Action) (x : ItemValue) → cells_of.cross_hand_due action self.new x ≡ cost action (cells_of.core self.old.right.value) x }
        ensures left { self.new.left ≡ self.old.left }
        ensures right { cells_of.core self.new.right.value ≡ cells_of.core self.old.right.value }
    {
        self.right.rewind();
        self.hand = Hand::Row;
    }
}
