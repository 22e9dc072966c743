// The functions that have a path, on a context item.
ghost use Rattle.std.specs.Prelude.{◌≡◌, ◌≤◌, All, IfOk};
ghost use Rattle.sj_base.specs.Count.{raised};
ghost use Rattle.sj_func.specs.Fields.{AppendsOutcome};
ghost use Rattle.sj_func.specs.Functions.{context_value, exists_outcome, exists_cost, value_outcome, value_cost, query_outcome, query_cost, IsPrinted};
ghost use Rattle.sj_value.specs.Clauses.{IsValueSpec};
ghost use Rattle.sj_value.specs.Values.{IsPrintable};
ghost use Rattle.sj_select_list.specs.Line.{line_of, context};
ghost use Rattle.sj_select_list.specs.Operations.{exists_step, value_step, query_step, asked_path, path_with};
ghost use Rattle.sj_select_list.specs.Performing.{EndsIn, held, put as put_on};
ghost use Rattle.sj_select_list.specs.Values.{trace_of};

use crate::line::LineDoc;
use crate::operation::{ExistsCall, QueryCall, ValueCall};
use crate::stack::Stack;
use sj_base::{Bytes, Memory, State, Steps};
use sj_func::{
    Context, Outcome, json_exists, json_query, json_query_field, json_value, json_value_field,
    outcome_field,
};
use std::alloc::Global;

impl<'d> ExistsCall<'d> {
    /// The outcome on a context item, or on the error in its place. The counter rises by no more than what it may take. It takes no memory.
    #[inline(always)]
    pub fn outcome(&mut self, context: Context<'d>, steps: &mut Steps) -> Outcome
        ensures outcome { let x = asked_path self.old.inquiry in result ≡ exists_outcome self.old.on_error x.path.mode (context_value context.entry) (trace_of x) }
        ensures printed { IsPrinted result }
        ensures costs { let x = asked_path self.old.inquiry in steps.new ≤ raised steps.old (exists_cost x.path.mode (context_value context.entry) (trace_of x)) }
        ensures step { exists_step self.new ≡ exists_step self.old }
    {
        json_exists(&mut self.inquiry, context, self.on_error, steps)
    }

    /// Puts the value on a stack, or gives the state that it raises.
    #[inline(never)]
    pub(crate) fn put(
        &mut self,
        line: LineDoc<'d>,
        stack: &mut Stack,
        steps: &mut Steps,
    ) -> Result<Option<State>, Memory>
        requires printable { All IsPrintable stack.old.values.items }
        ensures does { let x = asked_path self.old.inquiry in IfOk result (λ raised. EndsIn (put_on (exists_outcome self.old.on_error x.path.mode (context (line_of line.entry)) (trace_of x)) (held stack.old)) raised (held stack.new)) }
        ensures costs { let x = asked_path self.old.inquiry in steps.new ≤ raised steps.old (exists_cost x.path.mode (context (line_of line.entry)) (trace_of x)) }
        ensures step { exists_step self.new ≡ exists_step self.old }
        ensures printable { All IsPrintable stack.new.values.items }
    {
        let outcome = self.outcome(line.context(), steps);
        stack.put(Ok(outcome))
    }

    /// Appends a TAB and the field of the value, or gives the state that it raises.
    #[inline(never)]
    pub(crate) fn print(
        &mut self,
        line: LineDoc<'d>,
        out: &mut Bytes,
        steps: &mut Steps,
    ) -> Result<Option<State>, Memory>
        ensures appends { let x = asked_path self.old.inquiry in AppendsOutcome (exists_outcome self.old.on_error x.path.mode (context (line_of line.entry)) (trace_of x)) result out.old out.new }
        ensures costs { let x = asked_path self.old.inquiry in steps.new ≤ raised steps.old (exists_cost x.path.mode (context (line_of line.entry)) (trace_of x)) }
        ensures step { exists_step self.new ≡ exists_step self.old }
    {
        let outcome = self.outcome(line.context(), steps);
        outcome_field(out, &outcome)
    }
}

impl<'d> ValueCall<'d> {
    /// The outcome on a context item, or on the error in its place. The counter rises by no more than what it may take.
    ///
    /// # Errors
    /// [`Memory`] where memory runs out. What is said of the counter holds then too.
    #[inline(always)]
    pub fn outcome(
        &mut self,
        alloc: Global,
        context: Context<'d>,
        steps: &mut Steps,
    ) -> Result<Outcome, Memory>
        requires { IsValueSpec self.old.clauses.now }
        ensures outcome { let x = asked_path self.old.inquiry in IfOk result (λ o. o ≡ value_outcome self.old.clauses.now x.path.mode (context_value context.entry) (trace_of x)) }
        ensures printed { IfOk result IsPrinted }
        ensures costs { let x = asked_path self.old.inquiry in steps.new ≤ raised steps.old (value_cost x.path.mode (context_value context.entry) (trace_of x)) }
        ensures step { value_step self.new ≡ value_step self.old }
    {
        json_value(alloc, &mut self.inquiry, context, self.clauses, steps)
    }

    /// Puts the value on a stack, or gives the state that it raises.
    #[inline(never)]
    pub(crate) fn put(
        &mut self,
        alloc: Global,
        line: LineDoc<'d>,
        stack: &mut Stack,
        steps: &mut Steps,
    ) -> Result<Option<State>, Memory>
        requires clauses { IsValueSpec self.old.clauses.now }
        requires printable { All IsPrintable stack.old.values.items }
        ensures does { let x = asked_path self.old.inquiry in IfOk result (λ raised. EndsIn (put_on (value_outcome self.old.clauses.now x.path.mode (context (line_of line.entry)) (trace_of x)) (held stack.old)) raised (held stack.new)) }
        ensures costs { let x = asked_path self.old.inquiry in steps.new ≤ raised steps.old (value_cost x.path.mode (context (line_of line.entry)) (trace_of x)) }
        ensures step { value_step self.new ≡ value_step self.old }
        ensures printable { All IsPrintable stack.new.values.items }
    {
        let outcome = self.outcome(alloc, line.context(), steps);
        stack.put(outcome)
    }

    /// Appends a TAB and the field of the value, or gives the state that it raises.
    #[inline(never)]
    pub(crate) fn print(
        &mut self,
        alloc: Global,
        line: LineDoc<'d>,
        out: &mut Bytes,
        steps: &mut Steps,
    ) -> Result<Option<State>, Memory>
        requires { IsValueSpec self.old.clauses.now }
        ensures appends { let x = asked_path self.old.inquiry in AppendsOutcome (value_outcome self.old.clauses.now x.path.mode (context (line_of line.entry)) (trace_of x)) result out.old out.new }
        ensures costs { let x = asked_path self.old.inquiry in steps.new ≤ raised steps.old (value_cost x.path.mode (context (line_of line.entry)) (trace_of x)) }
        ensures step { value_step self.new ≡ value_step self.old }
    {
        json_value_field(
            alloc,
            &mut self.inquiry,
            line.context(),
            self.clauses,
            out,
            steps,
        )
    }
}

impl<'d> QueryCall<'d> {
    /// The outcome on a context item, or on the error in its place. The counter rises by no more than what it may take.
    ///
    /// # Errors
    /// [`Memory`] where memory runs out. What is said of the counter holds then too.
    pub fn outcome(
        &mut self,
        alloc: Global,
        context: Context<'d>,
        steps: &mut Steps,
    ) -> Result<Outcome, Memory>
        ensures outcome { let x = path_with self.old.cursor.value in IfOk result (λ o. o ≡ query_outcome self.old.clauses x.path.mode (context_value context.entry) (trace_of x)) }
        ensures printed { IfOk result IsPrinted }
        ensures costs { let x = path_with self.old.cursor.value in steps.new ≤ raised steps.old (query_cost self.old.clauses.wrapper x.path.mode (context_value context.entry) (trace_of x)) }
        ensures step { query_step self.new ≡ query_step self.old }
    {
        json_query(alloc, &mut *self.cursor, context, &self.clauses, steps)
    }

    /// Puts the value on a stack, or gives the state that it raises.
    #[inline(never)]
    pub(crate) fn put(
        &mut self,
        alloc: Global,
        line: LineDoc<'d>,
        stack: &mut Stack,
        steps: &mut Steps,
    ) -> Result<Option<State>, Memory>
        requires printable { All IsPrintable stack.old.values.items }
        ensures does { let x = path_with self.old.cursor.value in IfOk result (λ raised. EndsIn (put_on (query_outcome self.old.clauses x.path.mode (context (line_of line.entry)) (trace_of x)) (held stack.old)) raised (held stack.new)) }
        ensures costs { let x = path_with self.old.cursor.value in steps.new ≤ raised steps.old (query_cost self.old.clauses.wrapper x.path.mode (context (line_of line.entry)) (trace_of x)) }
        ensures step { query_step self.new ≡ query_step self.old }
        ensures printable { All IsPrintable stack.new.values.items }
    {
        let outcome = self.outcome(alloc, line.context(), steps);
        stack.put(outcome)
    }

    /// Appends a TAB and the field of the value, or gives the state that it raises.
    #[inline(never)]
    pub(crate) fn print(
        &mut self,
        alloc: Global,
        line: LineDoc<'d>,
        out: &mut Bytes,
        steps: &mut Steps,
    ) -> Result<Option<State>, Memory>
        ensures appends { let x = path_with self.old.cursor.value in AppendsOutcome (query_outcome self.old.clauses x.path.mode (context (line_of line.entry)) (trace_of x)) result out.old out.new }
        ensures costs { let x = path_with self.old.cursor.value in steps.new ≤ raised steps.old (query_cost self.old.clauses.wrapper x.path.mode (context (line_of line.entry)) (trace_of x)) }
        ensures step { query_step self.new ≡ query_step self.old }
    {
        json_query_field(
            alloc,
            &mut *self.cursor,
            line.context(),
            &self.clauses,
            out,
            steps,
        )
    }
}
