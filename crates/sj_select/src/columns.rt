// The columns of a table in one row of its plan.
ghost use Rattle.std.specs.Prelude.{◌≡◌, ◌≤◌, ◌++◌, ◌∷◌, [], All, IfOk, OnOk, map, option_map};
ghost use Rattle.sj_base.specs.Count.{raised};
ghost use Rattle.sj_value.specs.Values.{IsPrintable};
ghost use Rattle.sj_func.specs.Functions.{IsPrinted};
ghost use Rattle.sj_table.specs.Rows.{entry_value};
ghost use Rattle.sj_bound.specs.View as bound;
ghost use Rattle.sj_select_list.specs.Gathers.{Gathers};
ghost use Rattle.sj_select.specs.Columns.{column_outcome, column_cost, columns_given, columns_cost, ordinality_of, with_variables};
ghost use Rattle.sj_select.specs.Filling.{column_of, regular_column, formatted_column, exists_column, CanFill};

use sj_base::{Memory, State, Steps, push};
use sj_bound::{BoundColumn, BoundTable};
use sj_func::{Context, Outcome};
use sj_item::Item;
use sj_path_tree::Vars;
use sj_select_list::{ExistsCall, QueryCall, ValueCall, boxed_cursor, inquiry_on};
use sj_step::whole_number;
use sj_table::TableCursor;
use sj_value::SqlValue;
use std::alloc::Global;

/// A column. Its `drop` is written out as that of an operation is.
pub(crate) enum Column<'d> {
    /// FOR ORDINALITY, of the path of this number.
    Ordinality(u32),
    Regular(RegularColumn<'d>),
    Formatted(FormattedColumn<'d>),
    Exists(ExistsColumn<'d>),
}

impl<'d> Drop for Column<'d> {
    fn drop(self) {
        match self {
            Column::Ordinality(_) => {}
            Column::Regular(_column) => {}
            Column::Formatted(_column) => {}
            Column::Exists(_column) => {}
        }
    }
}

/// JSON_VALUE on the items of the path of this number. Its memory is taken once, and serves row after row.
#[derive(Drop)]
pub(crate) struct RegularColumn<'d> {
    pub(crate) path: u32,
    pub(crate) call: ValueCall<'d>,
}

/// FORMAT JSON: JSON_QUERY on the items of the path of this number.
#[derive(Drop)]
pub(crate) struct FormattedColumn<'d> {
    pub(crate) path: u32,
    pub(crate) call: QueryCall<'d>,
}

/// EXISTS: JSON_EXISTS on the items of the path of this number.
#[derive(Drop)]
pub(crate) struct ExistsColumn<'d> {
    pub(crate) path: u32,
    pub(crate) call: ExistsCall<'d>,
}

impl<'d> Column<'d> {
    // The value in the row at hand: NULL where its path has no item there.
    fn outcome(
        &mut self,
        alloc: Global,
        row: &TableCursor<'d>,
        steps: &mut Steps,
    ) -> Result<Outcome, Memory>
        requires { CanFill (column_of self.old) }
        ensures outcome { IfOk result (λ o. o ≡ column_outcome row.now.given (column_of self.old)) }
        ensures printed { IfOk result IsPrinted }
        ensures costs { steps.new ≤ raised steps.old (column_cost row.now.given (column_of self.old)) }
        ensures column { column_of self.new ≡ column_of self.old }
    {
        match self {
            Column::Ordinality(path) => Ok(ordinality(row.at(*path))),
            Column::Regular(column) => column.outcome(alloc, row, steps),
            Column::Formatted(column) => column.outcome(alloc, row, steps),
            Column::Exists(column) => Ok(column.outcome(row, steps)),
        }
    }
}

impl<'d> RegularColumn<'d> {
    fn outcome(
        &mut self,
        alloc: Global,
        row: &TableCursor<'d>,
        steps: &mut Steps,
    ) -> Result<Outcome, Memory>
        requires { CanFill (regular_column self.old) }
        ensures outcome { IfOk result (λ o. o ≡ column_outcome row.now.given (regular_column self.old)) }
        ensures printed { IfOk result IsPrinted }
        ensures costs { steps.new ≤ raised steps.old (column_cost row.now.given (regular_column self.old)) }
        ensures column { regular_column self.new ≡ regular_column self.old }
    {
        match row.at(self.path) {
            Some((item, _)) => self.call.outcome(alloc, Context::Item(item), steps),
            None => Ok(Outcome::Value(SqlValue::Null)),
        }
    }
}

impl<'d> FormattedColumn<'d> {
    fn outcome(
        &mut self,
        alloc: Global,
        row: &TableCursor<'d>,
        steps: &mut Steps,
    ) -> Result<Outcome, Memory>
        ensures outcome { IfOk result (λ o. o ≡ column_outcome row.now.given (formatted_column self.old)) }
        ensures printed { IfOk result IsPrinted }
        ensures costs { steps.new ≤ raised steps.old (column_cost row.now.given (formatted_column self.old)) }
        ensures column { formatted_column self.new ≡ formatted_column self.old }
    {
        match row.at(self.path) {
            Some((item, _)) => self.call.outcome(alloc, Context::Item(item), steps),
            None => Ok(Outcome::Value(SqlValue::Null)),
        }
    }
}

impl<'d> ExistsColumn<'d> {
    pub(crate) fn outcome(&mut self, row: &TableCursor<'d>, steps: &mut Steps) -> Outcome
        ensures outcome { result ≡ column_outcome row.now.given (exists_column self.old) }
        ensures printed { IsPrinted result }
        ensures costs { steps.new ≤ raised steps.old (column_cost row.now.given (exists_column self.old)) }
        ensures column { exists_column self.new ≡ exists_column self.old }
    {
        match row.at(self.path) {
            Some((item, _)) => self.call.outcome(Context::Item(item), steps),
            None => Outcome::Value(SqlValue::Null),
        }
    }
}

/// The number of an entry, or NULL where there is none.
pub(crate) fn ordinality(found: Option<(Item<'_>, u64)>) -> Outcome
    ensures outcome { result ≡ ordinality_of (option_map entry_value found.entry) }
    ensures printed { IsPrinted result }
{
    match found {
        Some((_, ordinal)) => {
            let number = whole_number(ordinal as i128).value();
            Outcome::Value(SqlValue::Num(number, 0))
        }
        None => Outcome::Value(SqlValue::Null),
    }
}

/// The columns of a table in their order. Their inquiries and cursors take their memory here.
pub(crate) fn columns_of<'d>(
    alloc: Global,
    table: &'d BoundTable,
) -> Result<Vec<Column<'d>>, Memory>
    ensures { IfOk result (λ columns. map column_of columns.items ≡ map (with_variables table.now.vars) (bound.columns_of table.now.columns)) }
{
    let mut columns = Vec::with_capacity(alloc, table.columns.len() as usize)?;
    for column in table.columns.as_slice() {
        push_column(alloc, column, &table.vars, &mut columns)?;
    }
    Ok(columns)
}

// Appends a column with the variables that are passed to its table.
fn push_column<'d>(
    alloc: Global,
    column: &'d BoundColumn,
    vars: &'d Vars,
    columns: &mut Vec<Column<'d>>,
) -> Result<(), Memory>
    ensures { OnOk result (map column_of columns.new.items ≡ map column_of columns.old.items ++ with_variables vars.now (bound.column_of column.now) ∷ []) }
{
    match column {
        BoundColumn::Ordinality(path) => push(columns, Column::Ordinality(*path)),
        BoundColumn::Regular(number, path, clauses) => {
            let inquiry = inquiry_on(alloc, path, vars)?;
            let call = ValueCall { inquiry, clauses };
            let path = *number;
            push(columns, Column::Regular(RegularColumn { path, call }))
        }
        BoundColumn::Formatted(number, path, clauses) => {
            let cursor = boxed_cursor(alloc, path, vars)?;
            let clauses = *clauses;
            let call = QueryCall { cursor, clauses };
            let path = *number;
            push(columns, Column::Formatted(FormattedColumn { path, call }))
        }
        BoundColumn::Exists(number, path, on_error) => {
            let inquiry = inquiry_on(alloc, path, vars)?;
            let on_error = *on_error;
            let call = ExistsCall { inquiry, on_error };
            let path = *number;
            push(columns, Column::Exists(ExistsColumn { path, call }))
        }
    }
}

/// Puts the values of the columns in the row at hand in the place of those that were there, up to the first that raises a state, which is given.
/// The counter rises by no more than what they may take up to there.
///
/// # Errors
/// [`Memory`] where memory runs out. What is said of the counter holds then too.
pub(crate) fn fill<'d>(
    alloc: Global,
    columns: &mut [Column<'d>],
    row: &TableCursor<'d>,
    values: &mut Vec<SqlValue>,
    steps: &mut Steps,
) -> Result<Option<State>, Memory>
    requires { All CanFill (map column_of columns.old) }
    ensures fills { IfOk result (λ raised. Gathers (columns_given (map column_of columns.old) row.now.given) raised values.new.items) }
    ensures costs { steps.new ≤ raised steps.old (columns_cost (map column_of columns.old) row.now.given) }
    ensures columns { map column_of columns.new ≡ map column_of columns.old }
    ensures printable { All IsPrintable values.new.items }
{
    values.clear();
    for column in columns.iter_mut() {
        match column.outcome(alloc, row, steps)? {
            Outcome::Value(value) => values.push(value)?,
            Outcome::Raised(state) => return Ok(Some(state)),
        }
    }
    Ok(None)
}
