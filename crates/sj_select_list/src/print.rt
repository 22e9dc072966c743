// Printing the values of a SELECT list.
ghost use Rattle.std.specs.Prelude.{◌≡◌, ◌≤◌, List, [], All, IfOk, true};
ghost use Rattle.sj_base.specs.Count.{raised};
ghost use Rattle.sj_value.specs.Values.{IsPrintable};
ghost use Rattle.sj_func.specs.Fields.{AppendsOutcome};
ghost use Rattle.sj_func.specs.Functions.{IsPrinted};
ghost use Rattle.sj_func.specs.declared.context.Outcome.{Outcome as Found};
ghost use Rattle.sj_bound.specs.Bound as b;
ghost use Rattle.sj_select_list.specs.Line.{line_of, tree_of};
ghost use Rattle.sj_select_list.specs.Operations.{step_of, steps_of, steps_to_all};
ghost use Rattle.sj_select_list.specs.Performing.{CanBeGiven, performed, step_cost};
ghost use Rattle.sj_select_list.specs.Printing.{AppendsList, AppendsSteps, FindsValue, finds_value, found_by, only};
ghost use Rattle.sj_select_list.specs.Values as meaning;
ghost use Rattle.sj_select_list.specs.Values.{given_list, list_cost};

use crate::find::{find_list, is_json_outcome, literal_outcome};
use crate::line::LineDoc;
use crate::operation::Operation;
use crate::stack::Stack;
use sj_base::{Bytes, Memory, State, Steps};
use sj_func::{Outcome, outcome_field};
use sj_path_tree::Literal;
use sj_rows::{fields_text, tabbed_text};
use sj_sql_grammar::IsJsonCall;
use sj_value::SqlValue;
use std::alloc::Global;

/// Appends a TAB and a field for each value of a SELECT list, for a line, beside columns with these values, up to the first that raises a
/// state, which is given. The counter rises by no more than what they may take up to there. The stack is used meanwhile.
///
/// # Errors
/// [`Memory`] where memory runs out. What is said of the counter holds then too. There, and where a state is given, what stood in `out`
/// stays, and something may stand behind it.
#[inline(always)]
pub fn print_list<'d>(
    alloc: Global,
    operations: &mut [Operation<'d>],
    line: LineDoc<'d>,
    columns: &[SqlValue],
    out: &mut Bytes,
    stack: &mut Stack,
    steps: &mut Steps,
) -> Result<Option<State>, Memory>
    requires columns { All IsPrintable columns.now }
    requires given { All CanBeGiven (steps_of operations.old) }
    requires printable { All IsPrintable stack.old.values.items }
    ensures prints { (list : List b.Value) → steps_of operations.old ≡ steps_to_all list → AppendsList (given_list (line_of line.entry) columns.now list) result out.old out.new }
    ensures costs { (list : List b.Value) → steps_of operations.old ≡ steps_to_all list →
        steps.new ≤ raised steps.old (list_cost (line_of line.entry) columns.now list) }
    ensures steps { steps_of operations.new ≡ steps_of operations.old }
    ensures printable { All IsPrintable stack.new.values.items }
{
    if each_finds_a_value(operations) {
        print_each(alloc, operations, line, columns, out, steps)
    } else {
        print_found(alloc, operations, line, columns, out, stack, steps)
    }
}

// Whether each operation finds a value of the list, so that none is made of others.
#[inline(always)]
fn each_finds_a_value(operations: &[Operation<'_>]) -> bool
    ensures { result ≡ true → All FindsValue (steps_of operations.now) }
{
    for operation in operations {
        if !operation.finds_a_value() {
            return false;
        }
    }
    true
}

// The same as `print_list`, where each operation finds a value of the list.
#[inline(always)]
fn print_each<'d>(
    alloc: Global,
    operations: &mut [Operation<'d>],
    line: LineDoc<'d>,
    columns: &[SqlValue],
    out: &mut Bytes,
    steps: &mut Steps,
) -> Result<Option<State>, Memory>
    requires columns { All IsPrintable columns.now }
    requires given { All CanBeGiven (steps_of operations.old) }
    requires values { All FindsValue (steps_of operations.old) }
    ensures prints { AppendsSteps (performed (line_of line.entry) columns.now (steps_of operations.old) (only [])).end result out.old out.new }
    ensures costs { steps.new ≤ raised steps.old (performed (line_of line.entry) columns.now (steps_of operations.old) (only [])).cost }
    ensures steps { steps_of operations.new ≡ steps_of operations.old }
{
    for operation in operations.iter_mut() {
        if let Some(state) = operation.print(alloc, line, columns, out, steps)? {
            return Ok(Some(state));
        }
    }
    Ok(None)
}

// The same, where values are made of others: they are found on the stack first.
#[inline(never)]
fn print_found<'d>(
    alloc: Global,
    operations: &mut [Operation<'d>],
    line: LineDoc<'d>,
    columns: &[SqlValue],
    out: &mut Bytes,
    stack: &mut Stack,
    steps: &mut Steps,
) -> Result<Option<State>, Memory>
    requires columns { All IsPrintable columns.now }
    requires given { All CanBeGiven (steps_of operations.old) }
    ensures prints { (list : List b.Value) → steps_of operations.old ≡ steps_to_all list → AppendsList (given_list (line_of line.entry) columns.now list) result out.old out.new }
    ensures costs { (list : List b.Value) → steps_of operations.old ≡ steps_to_all list →
        steps.new ≤ raised steps.old (list_cost (line_of line.entry) columns.now list) }
    ensures steps { steps_of operations.new ≡ steps_of operations.old }
    ensures printable { All IsPrintable stack.new.values.items }
{
    if let Some(state) = find_list(alloc, operations, line, columns, stack, steps)? {
        return Ok(Some(state));
    }
    fields_text(out, stack.values.as_slice())?;
    Ok(None)
}

impl<'d> Operation<'d> {
    // Whether it finds a value of the list by itself.
    fn finds_a_value(&self) -> bool
        ensures { result ≡ finds_value (step_of self.now) }
    {
        match self {
            Operation::Literal(_)
            | Operation::Column(_)
            | Operation::Exists(_)
            | Operation::Value(_)
            | Operation::Query(_)
            | Operation::IsJson(_) => true,
            Operation::Member | Operation::Object(_, _, _) | Operation::Array(_, _) => false,
        }
    }

    // Appends a TAB and the field of the value that it finds, or gives the state that it raises.
    #[inline(always)]
    fn print(
        &mut self,
        alloc: Global,
        line: LineDoc<'d>,
        columns: &[SqlValue],
        out: &mut Bytes,
        steps: &mut Steps,
    ) -> Result<Option<State>, Memory>
        requires columns { All IsPrintable columns.now }
        requires given { CanBeGiven (step_of self.old) }
        requires value { FindsValue (step_of self.old) }
        ensures appends { AppendsOutcome (found_by (line_of line.entry) columns.now (step_of self.old)) result out.old out.new }
        ensures costs { steps.new ≤ raised steps.old (step_cost (line_of line.entry) columns.now (step_of self.old)) }
        ensures step { step_of self.new ≡ step_of self.old }
    {
        match self {
            Operation::Literal(literal) => print_literal(alloc, literal, out),
            Operation::Column(number) => print_column(columns, *number, out),
            Operation::Exists(call) => call.print(line, out, steps),
            Operation::Value(call) => call.print(alloc, line, out, steps),
            Operation::Query(call) => call.print(alloc, line, out, steps),
            Operation::IsJson(call) => print_is_json(alloc, line, *call, out),
            Operation::Member | Operation::Object(_, _, _) | Operation::Array(_, _) => {
                unreachable!()
            }
        }
    }
}

// Appends a TAB and the field of a literal.
#[inline(never)]
fn print_literal(alloc: Global, literal: &Literal, out: &mut Bytes) -> Result<Option<State>, Memory>
    ensures { AppendsOutcome (meaning.literal_outcome literal.now) result out.old out.new }
{
    print_outcome(literal_outcome(alloc, literal), out)
}

// Appends a TAB and the field of a column, which is not copied.
#[inline(always)]
fn print_column(columns: &[SqlValue], number: u32, out: &mut Bytes) -> Result<Option<State>, Memory>
    requires { All IsPrintable columns.now }
    ensures { AppendsOutcome (meaning.column_outcome columns.now number) result out.old out.new }
{
    match columns.get(number as usize) {
        Some(value) => tabbed_text(out, value)?,
        None => tabbed_text(out, &SqlValue::Null)?,
    }
    Ok(None)
}

// Appends a TAB and the truth value of IS JSON.
#[inline(always)]
fn print_is_json(
    alloc: Global,
    line: LineDoc<'_>,
    call: IsJsonCall,
    out: &mut Bytes,
) -> Result<Option<State>, Memory>
    ensures { AppendsOutcome (meaning.is_json_outcome call (tree_of (line_of line.entry))) result out.old out.new }
{
    let outcome = is_json_outcome(alloc, line.doc(), call)?;
    outcome_field(out, &outcome)
}

// Appends a TAB and the field of the value that was found, or gives the state that is raised in its place.
#[inline(always)]
fn print_outcome(found: Result<Outcome, Memory>, out: &mut Bytes) -> Result<Option<State>, Memory>
    requires { IfOk found IsPrinted }
    ensures { (o : Found) → IfOk found (λ f. f ≡ o) → AppendsOutcome o result out.old out.new }
{
    match found {
        Ok(outcome) => outcome_field(out, &outcome),
        Err(memory) => Err(memory),
    }
}
