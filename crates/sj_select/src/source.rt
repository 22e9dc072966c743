// What the rows of a statement are made of, and how the next one is found.
ghost use Rattle.std.specs.Prelude.{◌≡◌, ◌≤◌, ℕ, ◌+◌, [], List, All, IfOk, OnErr, map};
ghost use Rattle.sj_base.specs.Count.{raised};
ghost use Rattle.sj_value.specs.Values.{IsPrintable};
ghost use Rattle.sj_rows.specs.RowText.{Extends};
ghost use Rattle.sj_value.specs.declared.value.SqlValue.{SqlValue as Value};
ghost use Rattle.sj_table.specs.Takes.{Spends};
ghost use Rattle.sj_bound.specs.Bound as b;
ghost use Rattle.sj_bound.specs.Sound.{IsSound};
ghost use Rattle.sj_bound.specs.View.{bound_of, table_of};
ghost use Rattle.sj_select_list.specs.Gathers.{Gathers};
ghost use Rattle.sj_select_list.specs.Line.{line_of};
ghost use Rattle.sj_select_list.specs.Operations.{steps_of, steps_to_all};
ghost use Rattle.sj_select_list.specs.Performing.{CanBeGiven};
ghost use Rattle.sj_select_list.specs.Printing.{AppendsList};
ghost use Rattle.sj_select_list.specs.Taking.{IsReady, HasTaken, aggregate_of};
ghost use Rattle.sj_select_list.specs.Values.{given_list, list_cost};
ghost use Rattle.sj_select.specs.Rows.{StatementRows, one_row, row_of, row_cost, listed, aggregated, aggregated_cost, statement_rows, statement_cost};
ghost use Rattle.sj_select.specs.Sources.{IsFor, IsTableOf, IsPlacedIfAny, IsReadySource, source_left, source_due, listed_due, due_behind, values_found, FindsNext, FindsOnly, Prints, TakesRow, TakesRows, taken_cost};
ghost use Rattle.sj_select.specs.Tables.{IsPlaced, plan_left, plan_due};

use crate::print::each_finds_its_column;
use crate::table::TableRows;
use sj_base::{Bytes, Memory, State, Steps};
use sj_bound::Bound;
use sj_rows::fields_text;
use sj_select_list::{
    Aggregate, LineDoc, Operation, Stack, aggregates_of, begin_all, find_list, finish_all,
    operations_of, print_list, take_all,
};
use sj_table::RowPull;
use sj_value::SqlValue;
use std::alloc::Global;
use std::mem;

/// What was found in the place of the next row.
#[derive(Clone, Copy)]
pub(crate) enum Found {
    /// A row, behind which there may be more.
    Row,
    /// The last row.
    LastRow,
    /// No row is left.
    End,
    /// No row is left, and this state is raised.
    Raised(State),
}

/// Puts the values that were found on the stack in the place of those in `values`. Where no row was found, it leaves none there.
pub(crate) fn hand_out(found: Found, stack: &mut Stack, values: &mut Vec<SqlValue>)
    requires { All IsPrintable stack.old.values.items }
    ensures values { values.new.items ≡ values_found found stack.old.values.items }
    ensures printable { All IsPrintable values.new.items }
    ensures stack { All IsPrintable stack.new.values.items }
{
    values.clear();
    match found {
        Found::Row | Found::LastRow => mem::swap(&mut stack.values, values),
        Found::End | Found::Raised(_) => {}
    }
}

/// What the rows of a statement are made of. Its cursors take their memory once, and then go from line to line.
#[derive(Drop)]
pub(crate) struct RowSource<'d> {
    /// The table, where there is one. It has a place of its own, since many statements have none.
    pub(crate) table: Option<Box<TableRows<'d>>>,
    /// The operations that find the values of the SELECT list.
    pub(crate) operations: Vec<Operation<'d>>,
    /// The aggregates of the SELECT list.
    pub(crate) aggregates: Vec<Aggregate<'d>>,
    /// Where values are found that are made of others, and those of aggregates.
    pub(crate) stack: Stack,
}

impl<'d> RowSource<'d> {
    /// Of a statement, on no line yet.
    ///
    /// # Errors
    /// [`Memory`] where memory runs out.
    pub(crate) fn new(alloc: Global, bound: &'d Bound) -> Result<RowSource<'d>, Memory>
        requires { IsSound (bound_of bound.now) }
        ensures ready { IfOk result IsReadySource }
        ensures is_for { IfOk result (IsFor (bound_of bound.now)) }
    {
        let operations = operations_of(alloc, bound)?;
        let aggregates = aggregates_of(alloc, bound.items.as_slice())?;
        let table = table_rows(alloc, bound)?;
        Ok(RowSource {
            table,
            operations,
            aggregates,
            stack: Stack::new(alloc),
        })
    }

    /// From the first row on, for another line. It takes no memory.
    #[inline(always)]
    pub(crate) fn rewind(&mut self, line: LineDoc<'d>)
        requires { IsReadySource self.old }
        ensures left { (s : b.Bound) → IsFor s self.old → source_left s (line_of line.entry) self.new ≡ statement_rows s (line_of line.entry) }
        ensures due { (s : b.Bound) → IsFor s self.old → source_due s (line_of line.entry) self.new ≡ statement_cost s (line_of line.entry) }
        ensures is_for { (s : b.Bound) → IsFor s self.old → IsFor s self.new }
        ensures ready { IsReadySource self.new }
    {
        if let Some(table) = &mut self.table {
            table.rewind(line.context());
        }
    }

    /// Appends the fields of what comes next of the rows for a line, which is that of the last rewinding. The counter rises by no more than
    /// what may still be taken falls.
    ///
    /// # Errors
    /// [`Memory`] where memory runs out. The rows then stand anywhere.
    #[inline(always)]
    pub(crate) fn print(
        &mut self,
        alloc: Global,
        line: LineDoc<'d>,
        out: &mut Bytes,
        steps: &mut Steps,
    ) -> Result<Found, Memory>
        requires { IsReadySource self.old }
        ensures prints { (s : b.Bound) → IsFor s self.old → IfOk result (λ found. Prints (source_left s (line_of line.entry) self.old) found out.old out.new (source_left s (line_of line.entry) self.new)) }
        ensures err { (s : b.Bound) → IsFor s self.old → OnErr result (Extends out.old out.new) }
        ensures costs { (s : b.Bound) → IsFor s self.old → Spends (source_due s (line_of line.entry) self.old) (due_behind result (source_due s (line_of line.entry) self.new)) steps.old steps.new }
        ensures is_for { (s : b.Bound) → IsFor s self.old → IsFor s self.new }
        ensures ready { IsReadySource self.new }
    {
        let operations = self.operations.as_mut_slice();
        let Some(table) = &mut self.table else {
            return print_alone(alloc, operations, line, out, &mut self.stack, steps);
        };
        if self.aggregates.is_empty() {
            print_listed(alloc, table, operations, line, out, &mut self.stack, steps)
        } else {
            let aggregates = self.aggregates.as_mut_slice();
            print_aggregated(alloc, table, aggregates, line, out, &mut self.stack, steps)
        }
    }

    /// Finds the values of what comes next of the rows for a line, which is that of the last rewinding, and leaves them on the stack. The
    /// counter rises by no more than what may still be taken falls.
    ///
    /// # Errors
    /// [`Memory`] where memory runs out. The rows then stand anywhere.
    pub(crate) fn find(
        &mut self,
        alloc: Global,
        line: LineDoc<'d>,
        steps: &mut Steps,
    ) -> Result<Found, Memory>
        requires { IsReadySource self.old }
        ensures finds { (s : b.Bound) → IsFor s self.old → IfOk result (λ found. FindsNext (source_left s (line_of line.entry) self.old) found self.new.stack.values.items (source_left s (line_of line.entry) self.new)) }
        ensures costs { (s : b.Bound) → IsFor s self.old → Spends (source_due s (line_of line.entry) self.old) (due_behind result (source_due s (line_of line.entry) self.new)) steps.old steps.new }
        ensures is_for { (s : b.Bound) → IsFor s self.old → IsFor s self.new }
        ensures ready { IsReadySource self.new }
    {
        let operations = self.operations.as_mut_slice();
        let Some(table) = &mut self.table else {
            return find_alone(alloc, operations, line, &mut self.stack, steps);
        };
        if self.aggregates.is_empty() {
            find_listed(alloc, table, operations, line, &mut self.stack, steps)
        } else {
            let aggregates = self.aggregates.as_mut_slice();
            find_aggregated(alloc, table, aggregates, line, &mut self.stack, steps)
        }
    }
}

// The rows of the table of a statement, where it has one.
fn table_rows<'d>(alloc: Global, bound: &'d Bound) -> Result<Option<Box<TableRows<'d>>>, Memory>
    requires { IsSound (bound_of bound.now) }
    ensures placed { IfOk result IsPlacedIfAny }
    ensures is_for { IfOk result (λ table. IsTableOf table (bound_of bound.now).table) }
{
    match &bound.table {
        Some(table) => Ok(Some(TableRows::new(alloc, table)?)),
        None => Ok(None),
    }
}

// The row of a statement without a table.
#[inline(always)]
fn print_alone<'d>(
    alloc: Global,
    operations: &mut [Operation<'d>],
    line: LineDoc<'d>,
    out: &mut Bytes,
    stack: &mut Stack,
    steps: &mut Steps,
) -> Result<Found, Memory>
    requires given { All CanBeGiven (steps_of operations.old) }
    requires printable { All IsPrintable stack.old.values.items }
    ensures prints { (list : List b.Value) (left : StatementRows) → steps_of operations.old ≡ steps_to_all list →
        IfOk result (λ found. Prints (one_row (given_list (line_of line.entry) [] list)) found out.old out.new left) }
    ensures err { (list : List b.Value) → steps_of operations.old ≡ steps_to_all list → OnErr result (Extends out.old out.new) }
    ensures costs { (list : List b.Value) (due : ℕ) → steps_of operations.old ≡ steps_to_all list →
        Spends (list_cost (line_of line.entry) [] list) (due_behind result due) steps.old steps.new }
    ensures steps { steps_of operations.new ≡ steps_of operations.old }
    ensures printable { All IsPrintable stack.new.values.items }
{
    match print_list(alloc, operations, line, &[], out, stack, steps)? {
        None => Ok(Found::LastRow),
        Some(state) => Ok(Found::Raised(state)),
    }
}

// The values of the row of a statement without a table.
fn find_alone<'d>(
    alloc: Global,
    operations: &mut [Operation<'d>],
    line: LineDoc<'d>,
    stack: &mut Stack,
    steps: &mut Steps,
) -> Result<Found, Memory>
    requires { All CanBeGiven (steps_of operations.old) }
    ensures finds { (list : List b.Value) (left : StatementRows) → steps_of operations.old ≡ steps_to_all list →
        IfOk result (λ found. FindsNext (one_row (given_list (line_of line.entry) [] list)) found stack.new.values.items left) }
    ensures costs { (list : List b.Value) (due : ℕ) → steps_of operations.old ≡ steps_to_all list →
        Spends (list_cost (line_of line.entry) [] list) (due_behind result due) steps.old steps.new }
    ensures steps { steps_of operations.new ≡ steps_of operations.old }
    ensures printable { All IsPrintable stack.new.values.items }
{
    match find_list(alloc, operations, line, &[], stack, steps)? {
        None => Ok(Found::LastRow),
        Some(state) => Ok(Found::Raised(state)),
    }
}

// The next row of a table, beside which the SELECT list is found.
#[inline(never)]
fn print_listed<'d>(
    alloc: Global,
    table: &mut TableRows<'d>,
    operations: &mut [Operation<'d>],
    line: LineDoc<'d>,
    out: &mut Bytes,
    stack: &mut Stack,
    steps: &mut Steps,
) -> Result<Found, Memory>
    requires placed { IsPlaced table.old }
    requires given { All CanBeGiven (steps_of operations.old) }
    requires printable { All IsPrintable stack.old.values.items }
    ensures prints { (list : List b.Value) → steps_of operations.old ≡ steps_to_all list →
        IfOk result (λ found. Prints (listed (line_of line.entry) (table_of table.old.table.now) list (plan_left table.old)) found out.old out.new
        (listed (line_of line.entry) (table_of table.old.table.now) list (plan_left table.new))) }
    ensures err { (list : List b.Value) → steps_of operations.old ≡ steps_to_all list → OnErr result (Extends out.old out.new) }
    ensures costs { (list : List b.Value) → steps_of operations.old ≡ steps_to_all list →
        Spends (listed_due (line_of line.entry) list table.old) (due_behind result (listed_due (line_of line.entry) list table.new)) steps.old steps.new }
    ensures steps { steps_of operations.new ≡ steps_of operations.old }
    ensures printable { All IsPrintable stack.new.values.items }
    ensures table { table.new.table ≡ table.old.table }
    ensures placed { IsPlaced table.new }
{
    match table.next_row(steps) {
        RowPull::Row => {}
        RowPull::End => return Ok(Found::End),
        RowPull::Raised(state) => return Ok(Found::Raised(state)),
    }
    match print_row(alloc, table, operations, line, out, stack, steps)? {
        None => Ok(Found::Row),
        Some(state) => Ok(Found::Raised(state)),
    }
}

// The values of the next row of a table, beside which the SELECT list is found.
fn find_listed<'d>(
    alloc: Global,
    table: &mut TableRows<'d>,
    operations: &mut [Operation<'d>],
    line: LineDoc<'d>,
    stack: &mut Stack,
    steps: &mut Steps,
) -> Result<Found, Memory>
    requires placed { IsPlaced table.old }
    requires given { All CanBeGiven (steps_of operations.old) }
    requires printable { All IsPrintable stack.old.values.items }
    ensures finds { (list : List b.Value) → steps_of operations.old ≡ steps_to_all list →
        IfOk result (λ found. FindsNext (listed (line_of line.entry) (table_of table.old.table.now) list (plan_left table.old)) found stack.new.values.items
        (listed (line_of line.entry) (table_of table.old.table.now) list (plan_left table.new))) }
    ensures costs { (list : List b.Value) → steps_of operations.old ≡ steps_to_all list →
        Spends (listed_due (line_of line.entry) list table.old) (due_behind result (listed_due (line_of line.entry) list table.new)) steps.old steps.new }
    ensures steps { steps_of operations.new ≡ steps_of operations.old }
    ensures printable { All IsPrintable stack.new.values.items }
    ensures table { table.new.table ≡ table.old.table }
    ensures placed { IsPlaced table.new }
{
    match table.next_row(steps) {
        RowPull::Row => {}
        RowPull::End => return Ok(Found::End),
        RowPull::Raised(state) => return Ok(Found::Raised(state)),
    }
    match find_row(alloc, table, operations, line, stack, steps)? {
        None => Ok(Found::Row),
        Some(state) => Ok(Found::Raised(state)),
    }
}

// Appends the fields of the row of a table that is at hand, up to the first value that raises a state, which is given. Where the SELECT list
// is the columns and nothing else, each is appended as it is found. Else they are found first, and the list beside them.
fn print_row<'d>(
    alloc: Global,
    table: &mut TableRows<'d>,
    operations: &mut [Operation<'d>],
    line: LineDoc<'d>,
    out: &mut Bytes,
    stack: &mut Stack,
    steps: &mut Steps,
) -> Result<Option<State>, Memory>
    requires placed { IsPlaced table.old }
    requires given { All CanBeGiven (steps_of operations.old) }
    requires printable { All IsPrintable stack.old.values.items }
    ensures prints { (list : List b.Value) → steps_of operations.old ≡ steps_to_all list →
        AppendsList (row_of (line_of line.entry) (table_of table.old.table.now) list table.old.cursor.given) result out.old out.new }
    ensures costs { (list : List b.Value) → steps_of operations.old ≡ steps_to_all list →
        steps.new ≤ raised steps.old (row_cost (line_of line.entry) (table_of table.old.table.now) list table.old.cursor.given) }
    ensures steps { steps_of operations.new ≡ steps_of operations.old }
    ensures printable { All IsPrintable stack.new.values.items }
    ensures left { plan_left table.new ≡ plan_left table.old }
    ensures due { plan_due table.new ≡ plan_due table.old }
    ensures table { table.new.table ≡ table.old.table }
    ensures placed { IsPlaced table.new }
{
    if each_finds_its_column(operations, table.columns.len()) {
        return table.print(alloc, out, steps);
    }
    if let Some(state) = table.fill(alloc, steps)? {
        return Ok(Some(state));
    }
    print_list(alloc, operations, line, table.values(), out, stack, steps)
}

// The values of the row of a table that is at hand, up to the first that raises a state, which is given.
fn find_row<'d>(
    alloc: Global,
    table: &mut TableRows<'d>,
    operations: &mut [Operation<'d>],
    line: LineDoc<'d>,
    stack: &mut Stack,
    steps: &mut Steps,
) -> Result<Option<State>, Memory>
    requires placed { IsPlaced table.old }
    requires given { All CanBeGiven (steps_of operations.old) }
    requires printable { All IsPrintable stack.old.values.items }
    ensures finds { (list : List b.Value) → steps_of operations.old ≡ steps_to_all list →
        IfOk result (λ raised. Gathers (row_of (line_of line.entry) (table_of table.old.table.now) list table.old.cursor.given) raised stack.new.values.items) }
    ensures costs { (list : List b.Value) → steps_of operations.old ≡ steps_to_all list →
        steps.new ≤ raised steps.old (row_cost (line_of line.entry) (table_of table.old.table.now) list table.old.cursor.given) }
    ensures steps { steps_of operations.new ≡ steps_of operations.old }
    ensures printable { All IsPrintable stack.new.values.items }
    ensures left { plan_left table.new ≡ plan_left table.old }
    ensures due { plan_due table.new ≡ plan_due table.old }
    ensures table { table.new.table ≡ table.old.table }
    ensures placed { IsPlaced table.new }
{
    if let Some(state) = table.fill(alloc, steps)? {
        return Ok(Some(state));
    }
    find_list(alloc, operations, line, table.values(), stack, steps)
}

// Appends the fields of the one row of the aggregates over all rows of a table that are left.
#[inline(never)]
fn print_aggregated<'d>(
    alloc: Global,
    table: &mut TableRows<'d>,
    aggregates: &mut [Aggregate<'d>],
    line: LineDoc<'d>,
    out: &mut Bytes,
    stack: &mut Stack,
    steps: &mut Steps,
) -> Result<Found, Memory>
    requires placed { IsPlaced table.old }
    requires ready { All IsReady aggregates.old }
    ensures prints { (left : StatementRows) → IfOk result (λ found. Prints (aggregated (line_of line.entry) (table_of table.old.table.now) (map aggregate_of aggregates.old) [] (plan_left table.old)) found out.old out.new left) }
    ensures err { OnErr result (Extends out.old out.new) }
    ensures costs { (due : ℕ) → Spends (plan_due table.old + aggregated_cost (line_of line.entry) (table_of table.old.table.now) (map aggregate_of aggregates.old) [] (plan_left table.old)) (due_behind result due) steps.old steps.new }
    ensures calls { map aggregate_of aggregates.new ≡ map aggregate_of aggregates.old }
    ensures ready { All IsReady aggregates.new }
    ensures printable { All IsPrintable stack.new.values.items }
    ensures table { table.new.table ≡ table.old.table }
    ensures placed { IsPlaced table.new }
{
    if let Some(state) = gather_aggregates(alloc, table, aggregates, line, stack, steps)? {
        return Ok(Found::Raised(state));
    }
    fields_text(out, stack.values.as_slice())?;
    Ok(Found::LastRow)
}

// The values of that row.
fn find_aggregated<'d>(
    alloc: Global,
    table: &mut TableRows<'d>,
    aggregates: &mut [Aggregate<'d>],
    line: LineDoc<'d>,
    stack: &mut Stack,
    steps: &mut Steps,
) -> Result<Found, Memory>
    requires placed { IsPlaced table.old }
    requires ready { All IsReady aggregates.old }
    ensures finds { (left : StatementRows) → IfOk result (λ found. FindsNext (aggregated (line_of line.entry) (table_of table.old.table.now) (map aggregate_of aggregates.old) [] (plan_left table.old)) found stack.new.values.items left) }
    ensures costs { (due : ℕ) → Spends (plan_due table.old + aggregated_cost (line_of line.entry) (table_of table.old.table.now) (map aggregate_of aggregates.old) [] (plan_left table.old)) (due_behind result due) steps.old steps.new }
    ensures calls { map aggregate_of aggregates.new ≡ map aggregate_of aggregates.old }
    ensures ready { All IsReady aggregates.new }
    ensures printable { All IsPrintable stack.new.values.items }
    ensures table { table.new.table ≡ table.old.table }
    ensures placed { IsPlaced table.new }
{
    match gather_aggregates(alloc, table, aggregates, line, stack, steps)? {
        None => Ok(Found::LastRow),
        Some(state) => Ok(Found::Raised(state)),
    }
}

// Leaves the values of that row on the stack, or gives the state that is raised in its place.
#[inline(always)]
fn gather_aggregates<'d>(
    alloc: Global,
    table: &mut TableRows<'d>,
    aggregates: &mut [Aggregate<'d>],
    line: LineDoc<'d>,
    stack: &mut Stack,
    steps: &mut Steps,
) -> Result<Option<State>, Memory>
    requires placed { IsPlaced table.old }
    requires ready { All IsReady aggregates.old }
    ensures finds { IfOk result (λ raised. FindsOnly (aggregated (line_of line.entry) (table_of table.old.table.now) (map aggregate_of aggregates.old) [] (plan_left table.old)) raised stack.new.values.items) }
    ensures costs { steps.new ≤ raised steps.old (plan_due table.old + aggregated_cost (line_of line.entry) (table_of table.old.table.now) (map aggregate_of aggregates.old) [] (plan_left table.old)) }
    ensures calls { map aggregate_of aggregates.new ≡ map aggregate_of aggregates.old }
    ensures ready { All IsReady aggregates.new }
    ensures printable { All IsPrintable stack.new.values.items }
    ensures table { table.new.table ≡ table.old.table }
    ensures placed { IsPlaced table.new }
{
    begin_all(alloc, aggregates);
    if let Some(state) = take_rows(alloc, table, aggregates, line, stack, steps)? {
        return Ok(Some(state));
    }
    finish_all(alloc, aggregates, &mut stack.values)?;
    Ok(None)
}

// Has the aggregates take all rows of a table that are left, up to the first state that is raised, which is given.
fn take_rows<'d>(
    alloc: Global,
    table: &mut TableRows<'d>,
    aggregates: &mut [Aggregate<'d>],
    line: LineDoc<'d>,
    stack: &mut Stack,
    steps: &mut Steps,
) -> Result<Option<State>, Memory>
    requires placed { IsPlaced table.old }
    requires ready { All IsReady aggregates.old }
    requires begun { All (HasTaken (line_of line) []) aggregates.old }
    ensures takes { IfOk result (λ raised. TakesRows (aggregated (line_of line.entry) (table_of table.old.table.now) (map aggregate_of aggregates.old) [] (plan_left table.old)) (line_of line.entry) aggregates.new raised) }
    ensures costs { steps.new ≤ raised steps.old (plan_due table.old + aggregated_cost (line_of line.entry) (table_of table.old.table.now) (map aggregate_of aggregates.old) [] (plan_left table.old)) }
    ensures calls { map aggregate_of aggregates.new ≡ map aggregate_of aggregates.old }
    ensures ready { All IsReady aggregates.new }
    ensures printable { All IsPrintable stack.new.values.items }
    ensures table { table.new.table ≡ table.old.table }
    ensures placed { IsPlaced table.new }
{
    stack.clear();
    'rows: loop {
        match table.next_row(steps) {
            RowPull::Row => {}
            RowPull::End => return Ok(None),
            RowPull::Raised(state) => return Ok(Some(state)),
        }
        if let Some(state) = take_row(alloc, table, aggregates, line, stack, steps)? {
            return Ok(Some(state));
        }
    }
}

// Has the aggregates take the row of a table that is at hand.
fn take_row<'d>(
    alloc: Global,
    table: &mut TableRows<'d>,
    aggregates: &mut [Aggregate<'d>],
    line: LineDoc<'d>,
    stack: &mut Stack,
    steps: &mut Steps,
) -> Result<Option<State>, Memory>
    requires placed { IsPlaced table.old }
    requires ready { All IsReady aggregates.old }
    requires printable { All IsPrintable stack.old.values.items }
    ensures takes { (before : List (List Value)) → All (HasTaken (line_of line.entry) before) aggregates.old →
        IfOk result (λ raised. TakesRow (line_of line.entry) (table_of table.old.table.now) table.old.cursor.given before aggregates.old aggregates.new raised) }
    ensures costs { (before : List (List Value)) → All (HasTaken (line_of line.entry) before) aggregates.old →
        steps.new ≤ raised steps.old (taken_cost (line_of line.entry) (table_of table.old.table.now) (map aggregate_of aggregates.old) before table.old.cursor.given) }
    ensures calls { map aggregate_of aggregates.new ≡ map aggregate_of aggregates.old }
    ensures ready { All IsReady aggregates.new }
    ensures printable { All IsPrintable stack.new.values.items }
    ensures left { plan_left table.new ≡ plan_left table.old }
    ensures due { plan_due table.new ≡ plan_due table.old }
    ensures table { table.new.table ≡ table.old.table }
    ensures placed { IsPlaced table.new }
{
    if let Some(state) = table.fill(alloc, steps)? {
        return Ok(Some(state));
    }
    take_all(alloc, aggregates, line, table.values(), stack, steps)
}
