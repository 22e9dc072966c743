// The rows of the plan of a JSON_TABLE.
ghost use Rattle.std.specs.Prelude.{◌≡◌, length, option_map, IfOk};

use crate::build::plan_cell;
use crate::cells::Cell;
use crate::pull::RowPull;
use sj_base::{Memory, Steps};
use sj_item::Item;
use sj_path_tree::{Path, Vars};
use sj_value::{Plan, TableAction};
use std::alloc::Global;
use std::marker::Model;

/// The plan of a JSON_TABLE that is evaluated on a root item, and how far it has come (ISO/IEC 9075-2, JSON table).
///
/// Contracts see the plan, the paths, the variables, what a fault of a path does, the rows that are left, the row just given, and how
/// many children of nodes may yet be handed out.
///
/// Its `drop` is written out, so that whoever holds one gives it up by one call, and not cell by cell at each place where the holder
/// may return early.
pub struct TableCursor<'d> {
    plan: &'d Plan,
    paths: &'d [Path],
    vars: &'d Vars,
    on_error: TableAction,
    root: Item<'d>,
    cell: Box<Cell<'d>>,
    // what was answered last
    answered: Option<RowPull>,
}

impl<'d> Drop for TableCursor<'d> {
    fn drop(self) {
        let TableCursor {
            plan: _plan,
            paths: _paths,
            vars: _vars,
            on_error: _on_error,
            root: _root,
            cell: _cell,
            answered: _answered,
        } = self;
    }
}

impl<'d> Model for TableCursor<'d> {
    ghost use Rattle.sj_table.specs.View.{TableView, table_code};
    ghost use Rattle.std.specs.Prelude.{◌≡◌, map};

    ghost Value = { TableView };

    ghost coded = { table_code };

    ghost use Rattle.sj_item.specs.Items.{item_value};
    ghost use Rattle.sj_path_tree.specs.View.{path_of};
    ghost use Rattle.sj_value.specs.Plans.{plan_tree};
    ghost use Rattle.sj_table.specs.Cells.{core, rows_left, rows_due, row_of, answered_left, answered_row, answered_due};
    ghost use Rattle.sj_table.specs.Rows.{sourced};

    ghost view = { λ t. record { plan = t.plan.now; paths = t.paths.now; vars = t.vars.now; on_error = t.on_error; left = answered_left t.answered (rows_left t.on_error t.cell.value (item_value t.root)); given = answered_row t.answered (row_of t.cell.value); due = answered_due t.answered (rows_due t.on_error t.cell.value (item_value t.root)) } };

    ghost invariant = { λ t. core t.cell.value ≡ sourced (map path_of t.paths.now) t.vars.now (plan_tree t.plan.now) };
}

impl<'d> TableCursor<'d> {
    ghost use Rattle.sj_item.specs.Items.{item_value};
    ghost use Rattle.sj_path_tree.specs.View.{path_of};
    ghost use Rattle.sj_value.specs.Plans.{plan_tree, IsPlanOver};
    ghost use Rattle.sj_table.specs.Rows.{entry, entry_value, plan_rows, plan_cost};
    ghost use Rattle.sj_table.specs.Takes.{Advances};
    ghost use Rattle.std.specs.Prelude.{[], map};

    /// A cursor before the first row of a plan on a root item. It takes all memory that the cursor will use. The row path, number 0,
    /// stands at the plan's root, and each of the paths once in it. A variable that a path names and that is not passed counts as null.
    ///
    /// # Errors
    /// [`Memory`] where memory runs out.
    pub fn new(
        alloc: Global,
        plan: &'d Plan,
        paths: &'d [Path],
        vars: &'d Vars,
        on_error: TableAction,
        root: Item<'d>,
    ) -> Result<TableCursor<'d>, Memory>
        requires { IsPlanOver (length paths.now) (plan_tree plan.now) }
        ensures plan { IfOk result (λ t. t.plan ≡ plan.now) }
        ensures paths { IfOk result (λ t. t.paths ≡ paths.now) }
        ensures vars { IfOk result (λ t. t.vars ≡ vars.now) }
        ensures on_error { IfOk result (λ t. t.on_error ≡ on_error) }
        ensures left { IfOk result (λ t. t.left ≡ plan_rows (map path_of paths.now) vars.now on_error (plan_tree plan.now) (item_value root.entry)) }
        ensures given { IfOk result (λ t. t.given ≡ []) }
        ensures due { IfOk result (λ t. t.due ≡ plan_cost (map path_of paths.now) vars.now on_error (plan_tree plan.now) (item_value root.entry)) }
    {
        let mut cell = plan_cell(alloc, plan, paths, vars)?;
        cell.rewind();
        Ok(TableCursor {
            plan,
            paths,
            vars,
            on_error,
            root,
            cell,
            answered: None,
        })
    }

    /// Goes to the next row, or tells the end. It takes no memory. The counter rises by no more than the number of children that may
    /// yet be handed out falls: under each parent a path is run at most twice, the first time to its end, since a fault anywhere leaves
    /// it no row. After an end the same end comes again, without a step.
    pub fn next_row(&mut self, steps: &mut Steps) -> RowPull
        ensures advances { Advances self.old.left self.old.due result self.new.given self.new.left self.new.due steps.old steps.new }
        ensures plan { self.new.plan ≡ self.old.plan }
        ensures paths { self.new.paths ≡ self.old.paths }
        ensures vars { self.new.vars ≡ self.old.vars }
        ensures on_error { self.new.on_error ≡ self.old.on_error }
    {
        match self.answered {
            None | Some(RowPull::Row) => {
                let answer = self.cell.next(self.on_error, &self.root, steps);
                self.answered = Some(answer);
                answer
            }
            Some(end) => end,
        }
    }

    /// The item and the ordinal of a path in the row just given, where the path has an item there. There is no such row before the
    /// first one and after an end.
    #[inline(always)]
    pub fn at(&self, path: u32) -> Option<(Item<'d>, u64)>
        ensures { option_map entry_value result ≡ entry path self.now.given }
    {
        match self.answered {
            Some(RowPull::Row) => self.cell.entry(path),
            _ => None,
        }
    }

    /// From the beginning, on another root, wherever the cursor stood. It takes no memory.
    pub fn rewind(&mut self, root: Item<'d>)
        ensures left { self.new.left ≡ plan_rows (map path_of self.old.paths) self.old.vars self.old.on_error (plan_tree self.old.plan) (item_value root.entry) }
        ensures given { self.new.given ≡ [] }
        ensures due { self.new.due ≡ plan_cost (map path_of self.old.paths) self.old.vars self.old.on_error (plan_tree self.old.plan) (item_value root.entry) }
        ensures plan { self.new.plan ≡ self.old.plan }
        ensures paths { self.new.paths ≡ self.old.paths }
        ensures vars { self.new.vars ≡ self.old.vars }
        ensures on_error { self.new.on_error ≡ self.old.on_error }
    {
        self.root = root;
        self.cell.rewind();
        self.answered = None;
    }
}
