// The aggregates of a SELECT list, while they take one row after another.
ghost use Rattle.std.specs.Prelude.{◌≡◌, ◌≤◌, ◌++◌, ◌∷◌, [], List, All, IfOk, OnOk, MatchResult, map};
ghost use Rattle.sj_base.specs.Count.{raised};
ghost use Rattle.sj_value.specs.Values.{IsPrintable};
ghost use Rattle.sj_value.specs.declared.value.SqlValue.{SqlValue as Value};
ghost use Rattle.sj_func.specs.declared.context.Outcome.TheVariants as outcome;
ghost use Rattle.sj_bound.specs.View.{items_of, value_of};
ghost use Rattle.sj_select_list.specs.Aggregates.{aggregate, aggregates, aggregates_in, array_of, object_of, input_cost, inputs_cost};
ghost use Rattle.sj_select_list.specs.Gathers.{Gathers};
ghost use Rattle.sj_select_list.specs.Line.{Line, line_of};
ghost use Rattle.sj_select_list.specs.Operations.{steps_to};
ghost use Rattle.sj_select_list.specs.Performing.{CanBeGiven};
ghost use Rattle.sj_select_list.specs.Taking.{CanTake, array_call, object_call, aggregate_of, IsArrayReady, IsObjectReady, IsReady, HasTakenValues, HasTakenMembers, HasTaken, Raises, AllTake};

use crate::finder::Finder;
use crate::line::LineDoc;
use crate::stack::Stack;
use sj_base::{Memory, State, Steps, push};
use sj_bound::{BoundItem, BoundValue};
use sj_build::{ArrayAgg, BuildRefusal, ObjectAgg};
use sj_value::{Nulls, SqlValue};
use std::alloc::Global;
use std::mem;

/// An aggregate, and what it has taken so far.
///
/// Its `drop` is written out, and so are those of what it holds, so that whoever holds one gives it up by one call.
pub enum Aggregate<'d> {
    /// JSON_ARRAYAGG.
    Array(ArrayCall<'d>),
    /// JSON_OBJECTAGG.
    Object(ObjectCall<'d>),
}

impl<'d> Drop for Aggregate<'d> {
    fn drop(self) {
        match self {
            Aggregate::Array(_call) => {}
            Aggregate::Object(_call) => {}
        }
    }
}

/// JSON_ARRAYAGG.
pub struct ArrayCall<'d> {
    pub(crate) value: Finder<'d>,
    pub(crate) nulls: Nulls,
    pub(crate) array: ArrayAgg,
}

impl<'d> Drop for ArrayCall<'d> {
    fn drop(self) {
        let ArrayCall {
            value: _value,
            nulls: _nulls,
            array: _array,
        } = self;
    }
}

/// JSON_OBJECTAGG.
pub struct ObjectCall<'d> {
    pub(crate) key: Finder<'d>,
    pub(crate) value: Finder<'d>,
    pub(crate) nulls: Nulls,
    /// WITH UNIQUE KEYS.
    pub(crate) unique: bool,
    pub(crate) object: ObjectAgg,
}

impl<'d> Drop for ObjectCall<'d> {
    fn drop(self) {
        let ObjectCall {
            key: _key,
            value: _value,
            nulls: _nulls,
            unique: _unique,
            object: _object,
        } = self;
    }
}

impl<'d> ArrayCall<'d> {
    /// Forgets what was taken.
    fn begin(&mut self, alloc: Global)
        requires { IsArrayReady self.old }
        ensures taken { (line : Line) → HasTakenValues line [] self.new }
        ensures call { array_call self.new ≡ array_call self.old }
        ensures ready { IsArrayReady self.new }
    {
        self.array = ArrayAgg::new(alloc, self.nulls);
    }

    /// Takes the value of a row with these columns.
    fn take(
        &mut self,
        alloc: Global,
        line: LineDoc<'d>,
        columns: &[SqlValue],
        stack: &mut Stack,
        steps: &mut Steps,
    ) -> Result<(), BuildRefusal>
        requires ready { IsArrayReady self.old }
        requires columns { All IsPrintable columns.now }
        ensures takes { (rows : List (List Value)) → HasTakenValues (line_of line.entry) rows self.old → MatchResult result
            (λ _. HasTakenValues (line_of line.entry) (rows ++ columns.now ∷ []) self.new) (Raises (aggregate (line_of line.entry) (rows ++ columns.now ∷ []) (array_call self.old))) }
        ensures costs { steps.new ≤ raised steps.old (input_cost (line_of line.entry) columns.now (array_call self.old)) }
        ensures call { array_call self.new ≡ array_call self.old }
        ensures ready { IsArrayReady self.new }
        ensures printable { All IsPrintable stack.new.values.items }
    {
        let value = self.value.lend(alloc, line, columns, stack, steps)?;
        self.array.add(value.value())?;
        Ok(())
    }

    /// The array of all values that were taken, or NULL where there was no row.
    fn finish(&mut self, alloc: Global) -> SqlValue
        requires { IsArrayReady self.old }
        ensures value { (line : Line) (rows : List (List Value)) → HasTakenValues line rows self.old → outcome.Value result ≡ aggregate line rows (array_call self.old) }
        ensures printable { IsPrintable result }
        ensures call { array_call self.new ≡ array_call self.old }
        ensures ready { IsArrayReady self.new }
    {
        mem::replace(&mut self.array, ArrayAgg::new(alloc, self.nulls)).finish()
    }
}

impl<'d> ObjectCall<'d> {
    /// Forgets what was taken.
    fn begin(&mut self, alloc: Global)
        requires { IsObjectReady self.old }
        ensures taken { (line : Line) → HasTakenMembers line [] self.new }
        ensures call { object_call self.new ≡ object_call self.old }
        ensures ready { IsObjectReady self.new }
    {
        self.object = ObjectAgg::new(alloc, self.nulls, self.unique);
    }

    /// Takes the member of a row with these columns: first its key is found, then its value.
    fn take(
        &mut self,
        alloc: Global,
        line: LineDoc<'d>,
        columns: &[SqlValue],
        stack: &mut Stack,
        steps: &mut Steps,
    ) -> Result<(), BuildRefusal>
        requires ready { IsObjectReady self.old }
        requires columns { All IsPrintable columns.now }
        ensures takes { (rows : List (List Value)) → HasTakenMembers (line_of line.entry) rows self.old → MatchResult result
            (λ _. HasTakenMembers (line_of line.entry) (rows ++ columns.now ∷ []) self.new) (Raises (aggregate (line_of line.entry) (rows ++ columns.now ∷ []) (object_call self.old))) }
        ensures costs { steps.new ≤ raised steps.old (input_cost (line_of line.entry) columns.now (object_call self.old)) }
        ensures call { object_call self.new ≡ object_call self.old }
        ensures ready { IsObjectReady self.new }
        ensures printable { All IsPrintable stack.new.values.items }
    {
        let key = self.key.lend(alloc, line, columns, stack, steps)?;
        let value = self.value.lend(alloc, line, columns, stack, steps)?;
        self.object.add(key.value(), value.value())
    }

    /// The object of all members that were taken, or NULL where there was no row.
    fn finish(&mut self, alloc: Global) -> SqlValue
        requires { IsObjectReady self.old }
        ensures value { (line : Line) (rows : List (List Value)) → HasTakenMembers line rows self.old → outcome.Value result ≡ aggregate line rows (object_call self.old) }
        ensures printable { IsPrintable result }
        ensures call { object_call self.new ≡ object_call self.old }
        ensures ready { IsObjectReady self.new }
    {
        mem::replace(
            &mut self.object,
            ObjectAgg::new(alloc, self.nulls, self.unique),
        )
        .finish()
    }
}

impl<'d> Aggregate<'d> {
    fn begin(&mut self, alloc: Global)
        requires { IsReady self.old }
        ensures taken { (line : Line) → HasTaken line [] self.new }
        ensures call { aggregate_of self.new ≡ aggregate_of self.old }
        ensures ready { IsReady self.new }
    {
        match self {
            Aggregate::Array(call) => call.begin(alloc),
            Aggregate::Object(call) => call.begin(alloc),
        }
    }

    fn take(
        &mut self,
        alloc: Global,
        line: LineDoc<'d>,
        columns: &[SqlValue],
        stack: &mut Stack,
        steps: &mut Steps,
    ) -> Result<(), BuildRefusal>
        requires ready { IsReady self.old }
        requires columns { All IsPrintable columns.now }
        ensures takes { (rows : List (List Value)) → HasTaken (line_of line.entry) rows self.old → MatchResult result
            (λ _. HasTaken (line_of line.entry) (rows ++ columns.now ∷ []) self.new) (Raises (aggregate (line_of line.entry) (rows ++ columns.now ∷ []) (aggregate_of self.old))) }
        ensures costs { steps.new ≤ raised steps.old (input_cost (line_of line.entry) columns.now (aggregate_of self.old)) }
        ensures call { aggregate_of self.new ≡ aggregate_of self.old }
        ensures ready { IsReady self.new }
        ensures printable { All IsPrintable stack.new.values.items }
    {
        match self {
            Aggregate::Array(call) => call.take(alloc, line, columns, stack, steps),
            Aggregate::Object(call) => call.take(alloc, line, columns, stack, steps),
        }
    }

    fn finish(&mut self, alloc: Global) -> SqlValue
        requires { IsReady self.old }
        ensures value { (line : Line) (rows : List (List Value)) → HasTaken line rows self.old → outcome.Value result ≡ aggregate line rows (aggregate_of self.old) }
        ensures printable { IsPrintable result }
        ensures call { aggregate_of self.new ≡ aggregate_of self.old }
        ensures ready { IsReady self.new }
    {
        match self {
            Aggregate::Array(call) => call.finish(alloc),
            Aggregate::Object(call) => call.finish(alloc),
        }
    }
}

/// The aggregates of a SELECT list, in their order. The cursors of their paths take their memory here.
///
/// # Errors
/// [`Memory`] where memory runs out.
pub fn aggregates_of<'d>(
    alloc: Global,
    items: &'d [BoundItem],
) -> Result<Vec<Aggregate<'d>>, Memory>
    requires { All CanTake (items_of items.now) }
    ensures aggregates { IfOk result (λ all. map aggregate_of all.items ≡ aggregates_in (items_of items.now)) }
    ensures ready { IfOk result (λ all. All IsReady all.items) }
{
    let mut all = Vec::new(alloc);
    for item in items {
        match item {
            BoundItem::Value(_) => {}
            BoundItem::ArrayAgg(value, nulls) => push_array(alloc, value, *nulls, &mut all)?,
            BoundItem::ObjectAgg(key, value, nulls, unique) => {
                push_object(alloc, key, value, *nulls, *unique, &mut all)?;
            }
        }
    }
    Ok(all)
}

// Appends a JSON_ARRAYAGG.
fn push_array<'d>(
    alloc: Global,
    value: &'d BoundValue,
    nulls: Nulls,
    all: &mut Vec<Aggregate<'d>>,
) -> Result<(), Memory>
    requires { All CanBeGiven (steps_to (value_of value.now)) }
    ensures aggregates { OnOk result (map aggregate_of all.new.items ≡ map aggregate_of all.old.items ++ array_of (value_of value.now) nulls ∷ []) }
    ensures ready { All IsReady all.old.items → OnOk result (All IsReady all.new.items) }
{
    let value = Finder::new(alloc, value)?;
    let call = ArrayCall {
        value,
        nulls,
        array: ArrayAgg::new(alloc, nulls),
    };
    push(all, Aggregate::Array(call))
}

// Appends a JSON_OBJECTAGG.
fn push_object<'d>(
    alloc: Global,
    key: &'d BoundValue,
    value: &'d BoundValue,
    nulls: Nulls,
    unique: bool,
    all: &mut Vec<Aggregate<'d>>,
) -> Result<(), Memory>
    requires key { All CanBeGiven (steps_to (value_of key.now)) }
    requires value { All CanBeGiven (steps_to (value_of value.now)) }
    ensures aggregates { OnOk result (map aggregate_of all.new.items ≡ map aggregate_of all.old.items ++ object_of (value_of key.now) (value_of value.now) nulls unique ∷ []) }
    ensures ready { All IsReady all.old.items → OnOk result (All IsReady all.new.items) }
{
    let key = Finder::new(alloc, key)?;
    let value = Finder::new(alloc, value)?;
    let call = ObjectCall {
        key,
        value,
        nulls,
        unique,
        object: ObjectAgg::new(alloc, nulls, unique),
    };
    push(all, Aggregate::Object(call))
}

/// Makes all aggregates forget what they have taken.
pub fn begin_all<'d>(alloc: Global, all: &mut [Aggregate<'d>])
    requires { All IsReady all.old }
    ensures taken { (line : Line) → All (HasTaken line []) all.new }
    ensures calls { map aggregate_of all.new ≡ map aggregate_of all.old }
    ensures ready { All IsReady all.new }
{
    for aggregate in all.iter_mut() {
        aggregate.begin(alloc);
    }
}

/// Has each aggregate take a row with these columns, from left to right, up to the first that raises a state, which is given. The
/// counter rises by no more than what they may take up to there.
///
/// # Errors
/// [`Memory`] where memory runs out. What is said of the counter holds then too.
pub fn take_all<'d>(
    alloc: Global,
    all: &mut [Aggregate<'d>],
    line: LineDoc<'d>,
    columns: &[SqlValue],
    stack: &mut Stack,
    steps: &mut Steps,
) -> Result<Option<State>, Memory>
    requires ready { All IsReady all.old }
    requires columns { All IsPrintable columns.now }
    requires printable { All IsPrintable stack.old.values.items }
    ensures takes { (rows : List (List Value)) → All (HasTaken (line_of line.entry) rows) all.old → IfOk result (λ raised.
        AllTake (aggregates (line_of line.entry) (map aggregate_of all.old) (rows ++ columns.now ∷ [])) (All (HasTaken (line_of line.entry) (rows ++ columns.now ∷ [])) all.new) raised) }
    ensures costs { (rows : List (List Value)) → All (HasTaken (line_of line.entry) rows) all.old →
        steps.new ≤ raised steps.old (inputs_cost (line_of line.entry) (map aggregate_of all.old) (rows ++ columns.now ∷ []) columns.now) }
    ensures calls { map aggregate_of all.new ≡ map aggregate_of all.old }
    ensures ready { All IsReady all.new }
    ensures printable { All IsPrintable stack.new.values.items }
{
    for aggregate in all.iter_mut() {
        match aggregate.take(alloc, line, columns, stack, steps) {
            Ok(()) => {}
            Err(BuildRefusal::State(state)) => return Ok(Some(state)),
            Err(BuildRefusal::Memory) => return Err(Memory),
        }
    }
    Ok(None)
}

/// Puts the values of all aggregates over the rows that they have taken in the place of the values that were there.
///
/// # Errors
/// [`Memory`] where memory runs out.
pub fn finish_all<'d>(
    alloc: Global,
    all: &mut [Aggregate<'d>],
    values: &mut Vec<SqlValue>,
) -> Result<(), Memory>
    requires { All IsReady all.old }
    ensures values { (line : Line) (rows : List (List Value)) → All (HasTaken line rows) all.old →
        IfOk result (λ _. Gathers (aggregates line (map aggregate_of all.old) rows) None values.new.items) }
    ensures printable { All IsPrintable values.new.items }
    ensures calls { map aggregate_of all.new ≡ map aggregate_of all.old }
    ensures ready { All IsReady all.new }
{
    values.clear();
    for aggregate in all.iter_mut() {
        values.push(aggregate.finish(alloc))?;
    }
    Ok(())
}
