// Finding values by operations.
ghost use Rattle.std.specs.Prelude.{◌≡◌, ◌≤◌, List, All, get_or, IfOk, Ok, option_map};
ghost use Rattle.sj_base.specs.Count.{raised};
ghost use Rattle.sj_value.specs.Values.{IsPrintable};
ghost use Rattle.sj_func.specs.Functions.{IsPrinted};
ghost use Rattle.sj_bound.specs.Bound as b;
ghost use Rattle.sj_select_list.specs.Gathers.{Gathers};
ghost use Rattle.sj_select_list.specs.Line.{line_of, tree_of};
ghost use Rattle.sj_select_list.specs.Operations.{step_of, steps_of, steps_to_all};
ghost use Rattle.sj_select_list.specs.Performing.{CanBeGiven, EndsIn, done, held, paired, performed, put, step_cost};
ghost use Rattle.sj_select_list.specs.Values as meaning;
ghost use Rattle.sj_select_list.specs.Values.{given_list, list_cost};

use crate::line::LineDoc;
use crate::operation::Operation;
use crate::stack::Stack;
use sj_base::{Memory, State, Steps, Text};
use sj_doc::Doc;
use sj_func::{Outcome, is_json};
use sj_path_tree::Literal;
use sj_sql_grammar::IsJsonCall;
use sj_value::{SqlValue, copy};
use std::alloc::Global;

/// Finds the values of a SELECT list for a line, beside columns with these values, and leaves them on the stack, in the place of what
/// was there, up to the first that raises a state, which is given. The counter rises by no more than what they may take up to there.
///
/// # Errors
/// [`Memory`] where memory runs out. What is said of the counter holds then too.
#[inline(always)]
pub fn find_list<'d>(
    alloc: Global,
    operations: &mut [Operation<'d>],
    line: LineDoc<'d>,
    columns: &[SqlValue],
    stack: &mut Stack,
    steps: &mut Steps,
) -> Result<Option<State>, Memory>
    requires columns { All IsPrintable columns.now }
    requires given { All CanBeGiven (steps_of operations.old) }
    ensures finds { (list : List b.Value) → steps_of operations.old ≡ steps_to_all list →
        IfOk result (λ raised. Gathers (given_list (line_of line.entry) columns.now list) raised stack.new.values.items) }
    ensures costs { (list : List b.Value) → steps_of operations.old ≡ steps_to_all list →
        steps.new ≤ raised steps.old (list_cost (line_of line.entry) columns.now list) }
    ensures steps { steps_of operations.new ≡ steps_of operations.old }
    ensures printable { All IsPrintable stack.new.values.items }
{
    stack.clear();
    find(alloc, operations, line, columns, stack, steps)
}

/// Performs operations one behind the other on a stack, up to the first that raises a state, which is given. The counter rises by no
/// more than what they may take up to there.
///
/// # Errors
/// [`Memory`] where memory runs out. What is said of the counter holds then too.
#[inline(always)]
pub(crate) fn find<'d>(
    alloc: Global,
    operations: &mut [Operation<'d>],
    line: LineDoc<'d>,
    columns: &[SqlValue],
    stack: &mut Stack,
    steps: &mut Steps,
) -> Result<Option<State>, Memory>
    requires columns { All IsPrintable columns.now }
    requires given { All CanBeGiven (steps_of operations.old) }
    requires printable { All IsPrintable stack.old.values.items }
    ensures finds { IfOk result (λ raised. EndsIn (performed (line_of line.entry) columns.now (steps_of operations.old) (held stack.old)).end raised (held stack.new)) }
    ensures costs { steps.new ≤ raised steps.old (performed (line_of line.entry) columns.now (steps_of operations.old) (held stack.old)).cost }
    ensures steps { steps_of operations.new ≡ steps_of operations.old }
    ensures printable { All IsPrintable stack.new.values.items }
{
    for operation in operations.iter_mut() {
        if let Some(state) = operation.perform(alloc, line, columns, stack, steps)? {
            return Ok(Some(state));
        }
    }
    Ok(None)
}

impl<'d> Operation<'d> {
    // Performs the operation on a stack, and gives the state that it raises, if it does. What an operation does is in a function of its
    // own, out of line, so that none has to make room for the locals of the others.
    #[inline(always)]
    fn perform(
        &mut self,
        alloc: Global,
        line: LineDoc<'d>,
        columns: &[SqlValue],
        stack: &mut Stack,
        steps: &mut Steps,
    ) -> Result<Option<State>, Memory>
        requires columns { All IsPrintable columns.now }
        requires given { CanBeGiven (step_of self.old) }
        requires printable { All IsPrintable stack.old.values.items }
        ensures does { IfOk result (λ raised. EndsIn (done (line_of line.entry) columns.now (step_of self.old) (held stack.old)) raised (held stack.new)) }
        ensures costs { steps.new ≤ raised steps.old (step_cost (line_of line.entry) columns.now (step_of self.old)) }
        ensures step { step_of self.new ≡ step_of self.old }
        ensures printable { All IsPrintable stack.new.values.items }
    {
        match self {
            Operation::Literal(literal) => put_literal(alloc, literal, stack),
            Operation::Column(number) => put_column(alloc, columns, *number, stack),
            Operation::Exists(call) => call.put(line, stack, steps),
            Operation::Value(call) => call.put(alloc, line, stack, steps),
            Operation::Query(call) => call.put(alloc, line, stack, steps),
            Operation::IsJson(call) => put_is_json(alloc, line, *call, stack),
            Operation::Member => put_member(stack),
            Operation::Object(count, nulls, unique) => {
                stack.put_object(alloc, *count, *nulls, *unique)
            }
            Operation::Array(count, nulls) => stack.put_array(alloc, *count, *nulls),
        }
    }
}

// Puts a literal on a stack.
#[inline(never)]
fn put_literal(alloc: Global, literal: &Literal, stack: &mut Stack) -> Result<Option<State>, Memory>
    requires { All IsPrintable stack.old.values.items }
    ensures does { IfOk result (λ raised. EndsIn (put (meaning.literal_outcome literal.now) (held stack.old)) raised (held stack.new)) }
    ensures printable { All IsPrintable stack.new.values.items }
{
    let outcome = literal_outcome(alloc, literal);
    stack.put(outcome)
}

// Puts the value of a column on a stack.
#[inline(never)]
fn put_column(
    alloc: Global,
    columns: &[SqlValue],
    number: u32,
    stack: &mut Stack,
) -> Result<Option<State>, Memory>
    requires columns { All IsPrintable columns.now }
    requires printable { All IsPrintable stack.old.values.items }
    ensures does { IfOk result (λ raised. EndsIn (put (meaning.column_outcome columns.now number) (held stack.old)) raised (held stack.new)) }
    ensures printable { All IsPrintable stack.new.values.items }
{
    let outcome = column_outcome(alloc, columns, number);
    stack.put(outcome)
}

// Puts the truth value of IS JSON on a stack. It has few locals.
#[inline(always)]
fn put_is_json(
    alloc: Global,
    line: LineDoc<'_>,
    call: IsJsonCall,
    stack: &mut Stack,
) -> Result<Option<State>, Memory>
    requires { All IsPrintable stack.old.values.items }
    ensures does { IfOk result (λ raised. EndsIn (put (meaning.is_json_outcome call (tree_of (line_of line.entry))) (held stack.old)) raised (held stack.new)) }
    ensures printable { All IsPrintable stack.new.values.items }
{
    let outcome = is_json_outcome(alloc, line.doc(), call);
    stack.put(outcome)
}

// Makes the last two values of a stack a member.
#[inline(never)]
fn put_member(stack: &mut Stack) -> Result<Option<State>, Memory>
    requires { All IsPrintable stack.old.values.items }
    ensures does { IfOk result (λ raised. EndsIn (Ok (paired (held stack.old))) raised (held stack.new)) }
    ensures printable { All IsPrintable stack.new.values.items }
{
    stack.pair()?;
    Ok(None)
}

// A literal as a value: a number prints its plain text.
pub(crate) fn literal_outcome(alloc: Global, literal: &Literal) -> Result<Outcome, Memory>
    ensures is { IfOk result (λ o. o ≡ meaning.literal_outcome literal.now) }
    ensures printed { IfOk result IsPrinted }
{
    match literal {
        Literal::Text(text) => {
            let text = Text::from_str(alloc, text.as_str())?;
            Ok(Outcome::Value(SqlValue::Text(text)))
        }
        Literal::Num(number) => Ok(Outcome::Value(SqlValue::Num(*number, 0))),
        Literal::Bool(truth) => Ok(Outcome::Value(SqlValue::Bool(*truth))),
        Literal::Null => Ok(Outcome::Value(SqlValue::Null)),
    }
}

// The value of the column of this number, or NULL where there is none.
fn column_outcome(alloc: Global, columns: &[SqlValue], number: u32) -> Result<Outcome, Memory>
    requires { All IsPrintable columns.now }
    ensures is { IfOk result (λ o. o ≡ meaning.column_outcome columns.now number) }
    ensures printed { IfOk result IsPrinted }
{
    match columns.get(number as usize) {
        Some(value) => Ok(Outcome::Value(copy(alloc, value)?)),
        None => Ok(Outcome::Value(SqlValue::Null)),
    }
}

// IS JSON or IS NOT JSON of a line.
pub(crate) fn is_json_outcome(
    alloc: Global,
    doc: Option<&Doc>,
    call: IsJsonCall,
) -> Result<Outcome, Memory>
    ensures is { IfOk result (λ o. o ≡ meaning.is_json_outcome call (option_map (λ d. d.now) doc.entry)) }
    ensures printed { IfOk result IsPrinted }
{
    let yes = is_json(alloc, doc, call.kind, call.unique)?;
    Ok(Outcome::Value(SqlValue::Bool(if call.negated { !yes } else { yes })))
}
