// The rows of a table: those of its plan, each with the values of its columns.
ghost use Rattle.std.specs.Prelude.{◌≡◌, ◌≤◌, All, IfOk};
ghost use Rattle.sj_base.specs.Count.{raised};
ghost use Rattle.sj_value.specs.Values.{IsPrintable};
ghost use Rattle.sj_func.specs.Functions.{context_value};
ghost use Rattle.sj_table.specs.Takes.{Takes};
ghost use Rattle.sj_bound.specs.Sound.{IsSoundTable};
ghost use Rattle.sj_bound.specs.View.{table_of};
ghost use Rattle.sj_select_list.specs.Gathers.{Gathers};
ghost use Rattle.sj_select_list.specs.Printing.{AppendsList};
ghost use Rattle.sj_select.specs.Columns as meaning;
ghost use Rattle.sj_select.specs.Columns.{columns_given, columns_cost};
ghost use Rattle.sj_select.specs.Rows.{rows_on, rows_cost_on};
ghost use Rattle.sj_select.specs.Tables.{IsPlaced, plan_left, plan_due};

use crate::columns::{Column, columns_of, fill};
use crate::print::print_columns;
use sj_base::{Bytes, Memory, State, Steps, boxed};
use sj_bound::BoundTable;
use sj_func::Context;
use sj_item::Item;
use sj_table::{RowPull, TableCursor};
use sj_value::{SqlValue, TableAction};
use std::alloc::Global;

/// The rows of a table on one context item after another.
#[derive(Drop)]
pub(crate) struct TableRows<'d> {
    pub(crate) table: &'d BoundTable,
    pub(crate) cursor: TableCursor<'d>,
    /// The error in the place of the context item, where there is one.
    pub(crate) bad: Option<State>,
    pub(crate) columns: Vec<Column<'d>>,
    /// The values of the columns in the row at hand.
    pub(crate) values: Vec<SqlValue>,
}

impl<'d> TableRows<'d> {
    /// The rows of a table, on no item yet, in a place of their own. The cursors of its paths and of its columns take their memory here.
    ///
    /// # Errors
    /// [`Memory`] where memory runs out.
    pub(crate) fn new(alloc: Global, table: &'d BoundTable) -> Result<Box<TableRows<'d>>, Memory>
        requires { IsSoundTable (table_of table.now) }
        ensures table { IfOk result (λ t. t.value.table.now ≡ table.now) }
        ensures placed { IfOk result (λ t. IsPlaced t.value) }
    {
        let columns = columns_of(alloc, table)?;
        let cursor = TableCursor::new(
            alloc,
            &table.plan,
            table.paths.as_slice(),
            &table.vars,
            table.on_error,
            Item::Null,
        );
        // The cursor is large, so it goes straight to its place, and through no call in between.
        match cursor {
            Ok(cursor) => {
                let rows = TableRows {
                    table,
                    cursor,
                    bad: None,
                    columns,
                    values: Vec::new(alloc),
                };
                boxed(alloc, rows)
            }
            Err(memory) => Err(memory),
        }
    }

    /// From the first row on, on another context item. It takes no memory.
    pub(crate) fn rewind(&mut self, context: Context<'d>)
        requires { IsPlaced self.old }
        ensures left { plan_left self.new ≡ rows_on (table_of self.old.table.now) (context_value context.entry) }
        ensures due { plan_due self.new ≡ rows_cost_on (table_of self.old.table.now) (context_value context.entry) }
        ensures table { self.new.table ≡ self.old.table }
        ensures placed { IsPlaced self.new }
    {
        match context {
            Context::Item(item) => {
                self.bad = None;
                self.cursor.rewind(item);
            }
            Context::Bad(state) => self.bad = Some(state),
        }
    }

    /// The next row of the plan, or the end.
    pub(crate) fn next_row(&mut self, steps: &mut Steps) -> RowPull
        requires { IsPlaced self.old }
        ensures takes { Takes (plan_left self.old) (plan_due self.old) result self.new.cursor.given (plan_left self.new) (plan_due self.new) steps.old steps.new }
        ensures table { self.new.table ≡ self.old.table }
        ensures placed { IsPlaced self.new }
    {
        match self.bad {
            None => self.cursor.next_row(steps),
            Some(state) => match self.table.on_error {
                TableAction::Empty => RowPull::End,
                TableAction::Error => RowPull::Raised(state),
            },
        }
    }

    /// Finds the values of the columns in the row at hand, up to the first that raises a state, which is given.
    ///
    /// # Errors
    /// [`Memory`] where memory runs out. What is said of the counter holds then too.
    pub(crate) fn fill(&mut self, alloc: Global, steps: &mut Steps) -> Result<Option<State>, Memory>
        requires { IsPlaced self.old }
        ensures fills { IfOk result (λ raised. Gathers (columns_given (meaning.columns_of (table_of self.old.table.now)) self.old.cursor.given) raised self.new.values.items) }
        ensures costs { steps.new ≤ raised steps.old (columns_cost (meaning.columns_of (table_of self.old.table.now)) self.old.cursor.given) }
        ensures left { plan_left self.new ≡ plan_left self.old }
        ensures due { plan_due self.new ≡ plan_due self.old }
        ensures table { self.new.table ≡ self.old.table }
        ensures placed { IsPlaced self.new }
    {
        fill(
            alloc,
            self.columns.as_mut_slice(),
            &self.cursor,
            &mut self.values,
            steps,
        )
    }

    /// Appends a TAB and the field of each column in the row at hand, up to the first that raises a state, which is given.
    ///
    /// # Errors
    /// [`Memory`] where memory runs out. What is said of the counter holds then too. There, and where a state is given, what stood in `out`
    /// stays, and something may stand behind it.
    pub(crate) fn print(
        &mut self,
        alloc: Global,
        out: &mut Bytes,
        steps: &mut Steps,
    ) -> Result<Option<State>, Memory>
        requires { IsPlaced self.old }
        ensures prints { AppendsList (columns_given (meaning.columns_of (table_of self.old.table.now)) self.old.cursor.given) result out.old out.new }
        ensures costs { steps.new ≤ raised steps.old (columns_cost (meaning.columns_of (table_of self.old.table.now)) self.old.cursor.given) }
        ensures left { plan_left self.new ≡ plan_left self.old }
        ensures due { plan_due self.new ≡ plan_due self.old }
        ensures table { self.new.table ≡ self.old.table }
        ensures placed { IsPlaced self.new }
    {
        print_columns(alloc, self.columns.as_mut_slice(), &self.cursor, out, steps)
    }

    /// The values of the columns that were found last. They can be printed.
    pub(crate) fn values(&self) -> &[SqlValue]
        requires { IsPlaced self.now }
        ensures is { result.now ≡ self.now.values.items }
        ensures printable { All IsPrintable result.now }
    {
        self.values.as_slice()
    }
}
