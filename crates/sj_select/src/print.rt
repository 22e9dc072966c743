// The columns of a table in one row of its plan, as fields of a row.
ghost use Rattle.std.specs.Prelude.{◌≡◌, ◌≤◌, All, map, true, length};
ghost use Rattle.sj_base.specs.Count.{raised};
ghost use Rattle.sj_func.specs.Fields.{AppendsOutcome};
ghost use Rattle.sj_func.specs.declared.context.Outcome.TheVariants.{Value};
ghost use Rattle.sj_value.specs.declared.value.SqlValue.TheVariants.{Null};
ghost use Rattle.sj_select_list.specs.Operations.{steps_of};
ghost use Rattle.sj_select_list.specs.Printing.{AppendsList};
ghost use Rattle.sj_select.specs.Columns.{column_outcome, column_cost, columns_given, columns_cost};
ghost use Rattle.sj_select.specs.Filling.{column_of, regular_column, formatted_column, exists_column, CanFill};
ghost use Rattle.sj_select.specs.Listing.{FindsEach};

use crate::columns::{Column, ExistsColumn, FormattedColumn, RegularColumn, ordinality};
use sj_base::{Bytes, Memory, State, Steps};
use sj_func::{Context, json_query_field, json_value_field, outcome_field};
use sj_rows::tabbed_text;
use sj_select_list::Operation;
use sj_table::TableCursor;
use sj_value::SqlValue;
use std::alloc::Global;

/// Whether there are so many operations, and each finds the column whose turn it is, as those of `SELECT *` do.
pub(crate) fn each_finds_its_column(operations: &[Operation<'_>], count: usize) -> bool
    ensures { result ≡ true → (length operations.now ≡ count) × FindsEach 0 (steps_of operations.now) }
{
    if operations.len() != count {
        return false;
    }
    let mut number: usize = 0;
    for operation in operations {
        match operation {
            Operation::Column(found) if *found as usize == number => {}
            _ => return false,
        }
        number += 1;
    }
    true
}

/// Appends a TAB and a field for each column in the row at hand, up to the first that raises a state, which is given. No value is made on
/// the way where the bytes of a field stand in the document. The counter rises by no more than what the columns may take up to there.
///
/// # Errors
/// [`Memory`] where memory runs out. What is said of the counter holds then too. There, and where a state is given, what stood in `out`
/// stays, and something may stand behind it.
pub(crate) fn print_columns<'d>(
    alloc: Global,
    columns: &mut [Column<'d>],
    row: &TableCursor<'d>,
    out: &mut Bytes,
    steps: &mut Steps,
) -> Result<Option<State>, Memory>
    requires { All CanFill (map column_of columns.old) }
    ensures prints { AppendsList (columns_given (map column_of columns.old) row.now.given) result out.old out.new }
    ensures costs { steps.new ≤ raised steps.old (columns_cost (map column_of columns.old) row.now.given) }
    ensures columns { map column_of columns.new ≡ map column_of columns.old }
{
    for column in columns.iter_mut() {
        if let Some(state) = column.print(alloc, row, out, steps)? {
            return Ok(Some(state));
        }
    }
    Ok(None)
}

impl<'d> Column<'d> {
    // Appends a TAB and the field of the value in the row at hand, or gives the state that it raises.
    fn print(
        &mut self,
        alloc: Global,
        row: &TableCursor<'d>,
        out: &mut Bytes,
        steps: &mut Steps,
    ) -> Result<Option<State>, Memory>
        requires { CanFill (column_of self.old) }
        ensures appends { AppendsOutcome (column_outcome row.now.given (column_of self.old)) result out.old out.new }
        ensures costs { steps.new ≤ raised steps.old (column_cost row.now.given (column_of self.old)) }
        ensures column { column_of self.new ≡ column_of self.old }
    {
        match self {
            Column::Ordinality(path) => outcome_field(out, &ordinality(row.at(*path))),
            Column::Regular(column) => column.print(alloc, row, out, steps),
            Column::Formatted(column) => column.print(alloc, row, out, steps),
            Column::Exists(column) => column.print(row, out, steps),
        }
    }
}

impl<'d> RegularColumn<'d> {
    fn print(
        &mut self,
        alloc: Global,
        row: &TableCursor<'d>,
        out: &mut Bytes,
        steps: &mut Steps,
    ) -> Result<Option<State>, Memory>
        requires { CanFill (regular_column self.old) }
        ensures appends { AppendsOutcome (column_outcome row.now.given (regular_column self.old)) result out.old out.new }
        ensures costs { steps.new ≤ raised steps.old (column_cost row.now.given (regular_column self.old)) }
        ensures column { regular_column self.new ≡ regular_column self.old }
    {
        match row.at(self.path) {
            Some((item, _)) => {
                let call = &mut self.call;
                let context = Context::Item(item);
                json_value_field(alloc, &mut call.inquiry, context, call.clauses, out, steps)
            }
            None => print_null(out),
        }
    }
}

impl<'d> FormattedColumn<'d> {
    fn print(
        &mut self,
        alloc: Global,
        row: &TableCursor<'d>,
        out: &mut Bytes,
        steps: &mut Steps,
    ) -> Result<Option<State>, Memory>
        ensures appends { AppendsOutcome (column_outcome row.now.given (formatted_column self.old)) result out.old out.new }
        ensures costs { steps.new ≤ raised steps.old (column_cost row.now.given (formatted_column self.old)) }
        ensures column { formatted_column self.new ≡ formatted_column self.old }
    {
        match row.at(self.path) {
            Some((item, _)) => {
                let call = &mut self.call;
                let context = Context::Item(item);
                json_query_field(alloc, &mut *call.cursor, context, &call.clauses, out, steps)
            }
            None => print_null(out),
        }
    }
}

impl<'d> ExistsColumn<'d> {
    fn print(
        &mut self,
        row: &TableCursor<'d>,
        out: &mut Bytes,
        steps: &mut Steps,
    ) -> Result<Option<State>, Memory>
        ensures appends { AppendsOutcome (column_outcome row.now.given (exists_column self.old)) result out.old out.new }
        ensures costs { steps.new ≤ raised steps.old (column_cost row.now.given (exists_column self.old)) }
        ensures column { exists_column self.new ≡ exists_column self.old }
    {
        let outcome = self.outcome(row, steps);
        outcome_field(out, &outcome)
    }
}

// Appends a TAB and the field of NULL.
fn print_null(out: &mut Bytes) -> Result<Option<State>, Memory>
    ensures { AppendsOutcome (Value Null) result out.old out.new }
{
    tabbed_text(out, &SqlValue::Null)?;
    Ok(None)
}
