// Back to the beginning, wherever a cell stands.
ghost use Rattle.std.specs.Prelude.{◌≡◌};
ghost use Rattle.sj_item.specs.Items.{ItemValue};
ghost use Rattle.sj_value.specs.declared.clauses.TableAction.{TableAction as Action};
ghost use Rattle.sj_table.specs.Cells as cells_of;
ghost use Rattle.sj_table.specs.Rows.{rows, cost};

use crate::cells::{At, Cell, Cross, Hand, Nested, Side, Stage, Union};

impl<'d> Cell<'d> {
    /// Back to the beginning, under whatever item the cell is evaluated next.
    #[cycle(rewind)]
    pub(crate) fn rewind(&mut self)
        ensures whole { (action : Action) (x : ItemValue) → cells_of.rows_left action self.new x ≡ rows action (cells_of.core self.old) x }
        ensures due { (action : Action) (x : ItemValue) → cells_of.rows_due action self.new x ≡ cost action (cells_of.core self.old) x }
        ensures same { cells_of.core self.new ≡ cells_of.core self.old }
    {
        match self {
            Cell::Single(path) => path.stage = Stage::Unasked,
            Cell::Nested(nested) => nested.rewind(),
            Cell::Union(union) => union.rewind(),
            Cell::Cross(cross) => cross.rewind(),
        }
    }
}

impl<'d> Nested<'d> {
    // The plan below is rewound for each entry.
    fn rewind(&mut self)
        ensures whole { (action : Action) (x : ItemValue) → cells_of.nested_left action self.new x ≡ rows action (cells_of.nested_core self.old) x }
        ensures due { (action : Action) (x : ItemValue) → cells_of.nested_due action self.new x ≡ cost action (cells_of.nested_core self.old) x }
        ensures same { cells_of.nested_core self.new ≡ cells_of.nested_core self.old }
    {
        self.parent.stage = Stage::Unasked;
        self.at = At::Nothing;
    }
}

impl<'d> Union<'d> {
    // The right plan is rewound where the left one has ended.
    #[cycle(rewind)]
    fn rewind(&mut self)
        ensures whole { (action : Action) (x : ItemValue) → cells_of.union_left action self.new x ≡ rows action (cells_of.union_core self.old) x }
        ensures due { (action : Action) (x : ItemValue) → cells_of.union_due action self.new x ≡ cost action (cells_of.union_core self.old) x }
        ensures same { cells_of.union_core self.new ≡ cells_of.union_core self.old }
    {
        self.left.rewind();
        self.side = Side::Left;
    }
}

impl<'d> Cross<'d> {
    // The right plan is rewound for each left row.
    #[cycle(rewind)]
    fn rewind(&mut self)
        ensures whole { (action : Action) (x : ItemValue) → cells_of.cross_left action self.new x ≡ rows action (cells_of.cross_core self.old) x }
        ensures due { (action : Action) (x : ItemValue) → cells_of.cross_due action self.new x ≡ cost action (cells_of.cross_core self.old) x }
        ensures same { cells_of.cross_core self.new ≡ cells_of.cross_core self.old }
    {
        self.left.rewind();
        self.hand = Hand::Empty;
    }
}
