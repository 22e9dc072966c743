// How one value is found.
ghost use Rattle.std.specs.Prelude.{◌≡◌, ◌≤◌, All, IfOk, IfSome, MatchResult};
ghost use Rattle.sj_base.specs.Count.{raised};
ghost use Rattle.sj_value.specs.Values.{IsPrintable};
ghost use Rattle.sj_func.specs.declared.context.Outcome.TheVariants as outcome;
ghost use Rattle.sj_bound.specs.View.{value_of};
ghost use Rattle.sj_select_list.specs.Line.{Line, line_of};
ghost use Rattle.sj_select_list.specs.Operations.{steps_to};
ghost use Rattle.sj_select_list.specs.Performing.{CanBeGiven};
ghost use Rattle.sj_select_list.specs.Taking.{IsFinder, Raises, lent_value};
ghost use Rattle.sj_select_list.specs.Values.{given, cost};

use crate::build::operations_to;
use crate::find::find;
use crate::line::LineDoc;
use crate::operation::Operation;
use crate::stack::Stack;
use sj_base::{Memory, Steps};
use sj_bound::BoundValue;
use sj_build::BuildRefusal;
use sj_value::SqlValue;
use std::alloc::Global;

/// A value, and the operations that find it.
pub(crate) struct Finder<'d> {
    pub(crate) value: &'d BoundValue,
    pub(crate) operations: Vec<Operation<'d>>,
}

impl<'d> Drop for Finder<'d> {
    fn drop(self) {
        let Finder {
            value: _value,
            operations: _operations,
        } = self;
    }
}

/// A value that was found.
#[derive(Drop)]
pub(crate) enum Lent<'c> {
    /// The value of a column, where it stands. It is not copied.
    Column(&'c SqlValue),
    /// A value that was made.
    Made(SqlValue),
}

impl<'c> Lent<'c> {
    #[inline(always)]
    pub(crate) fn value(&self) -> &SqlValue
        ensures { result.now ≡ lent_value self.now }
    {
        match self {
            Lent::Column(value) => value,
            Lent::Made(value) => value,
        }
    }
}

impl<'d> Finder<'d> {
    /// The cursors of its paths take their memory here.
    ///
    /// # Errors
    /// [`Memory`] where memory runs out.
    pub(crate) fn new(alloc: Global, value: &'d BoundValue) -> Result<Finder<'d>, Memory>
        requires { All CanBeGiven (steps_to (value_of value.now)) }
        ensures value { IfOk result (λ f. f.value.now ≡ value.now) }
        ensures ready { IfOk result IsFinder }
    {
        let operations = operations_to(alloc, value)?;
        Ok(Finder { value, operations })
    }

    /// The value for a line, beside columns with these values. The stack is used meanwhile.
    ///
    /// # Errors
    /// `State` with the state that it raises, `Memory` where memory runs out. What is said of the counter holds then too.
    pub(crate) fn lend<'c>(
        &mut self,
        alloc: Global,
        line: LineDoc<'d>,
        columns: &'c [SqlValue],
        stack: &mut Stack,
        steps: &mut Steps,
    ) -> Result<Lent<'c>, BuildRefusal>
        requires ready { IsFinder self.old }
        requires columns { All IsPrintable columns.now }
        ensures outcome { let o = given (line_of line.entry) columns.now (value_of self.old.value.now) in MatchResult result (λ found. o ≡ outcome.Value (lent_value found)) (Raises o) }
        ensures costs { steps.new ≤ raised steps.old (cost (line_of line.entry) columns.now (value_of self.old.value.now)) }
        ensures value { self.new.value ≡ self.old.value }
        ensures ready { IsFinder self.new }
        ensures stack { All IsPrintable stack.new.values.items }
    {
        if let Some(value) = self.column_among(columns) {
            stack.clear();
            return Ok(Lent::Column(value));
        }
        let value = self.find(alloc, line, columns, stack, steps)?;
        Ok(Lent::Made(value))
    }

    // The column whose value it is, where it is that of a column.
    #[inline(always)]
    fn column_among<'c>(&self, columns: &'c [SqlValue]) -> Option<&'c SqlValue>
        ensures { IfSome result (λ v. (line : Line) → given line columns.now (value_of self.now.value.now) ≡ outcome.Value v.now) }
    {
        match self.value {
            BoundValue::Column(number) => columns.get(*number as usize),
            _ => None,
        }
    }

    // The same as `lend`, by the operations.
    fn find(
        &mut self,
        alloc: Global,
        line: LineDoc<'d>,
        columns: &[SqlValue],
        stack: &mut Stack,
        steps: &mut Steps,
    ) -> Result<SqlValue, BuildRefusal>
        requires ready { IsFinder self.old }
        requires columns { All IsPrintable columns.now }
        ensures outcome { let o = given (line_of line.entry) columns.now (value_of self.old.value.now) in MatchResult result (λ v. o ≡ outcome.Value v) (Raises o) }
        ensures costs { steps.new ≤ raised steps.old (cost (line_of line.entry) columns.now (value_of self.old.value.now)) }
        ensures value { self.new.value ≡ self.old.value }
        ensures ready { IsFinder self.new }
        ensures stack { All IsPrintable stack.new.values.items }
    {
        stack.clear();
        let operations = self.operations.as_mut_slice();
        if let Some(state) = find(alloc, operations, line, columns, stack, steps)? {
            return Err(BuildRefusal::State(state));
        }
        match stack.values.pop() {
            Some(value) => Ok(value),
            None => unreachable!(),
        }
    }
}
