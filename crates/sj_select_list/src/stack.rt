// The values and the members that were found and are no part of another value yet.
ghost use Rattle.std.specs.Prelude.{◌≡◌, ◌++◌, ◌∷◌, [], All, IfOk, OnOk, OnErr};
ghost use Rattle.sj_func.specs.Functions.{IsPrinted};
ghost use Rattle.sj_value.specs.Values.{IsPrintable};
ghost use Rattle.sj_build.specs.Constructors.{array_value, object_value};
ghost use Rattle.sj_func.specs.declared.context.Outcome.{Outcome as Found};
ghost use Rattle.sj_func.specs.declared.context.Outcome.TheVariants.{Value};
ghost use Rattle.sj_select_list.specs.Performing as spec;
ghost use Rattle.sj_select_list.specs.Performing.{EndsIn, held, last_of, paired, without_members, without_values};
ghost use Rattle.sj_select_list.specs.Values.{outcome_of};

use sj_base::{Memory, State, push};
use sj_build::{BuildRefusal, Field, json_array, json_object};
use sj_func::Outcome;
use sj_value::{Nulls, SqlValue};
use std::alloc::Global;

/// Values, and members of objects, the last one at the end.
#[derive(Drop)]
pub struct Stack {
    /// The values. Once a SELECT list was found, they are its values.
    pub values: Vec<SqlValue>,
    /// The members that are in no object yet.
    pub members: Vec<Field>,
}

// `Vec::push`, which is called only where there is no room: else the value is written in place.
#[inline(always)]
fn push_in(values: &mut Vec<SqlValue>, value: SqlValue) -> Result<(), Memory>
    ensures ok { OnOk result (values.new.items ≡ values.old.items ++ value ∷ []) }
    ensures err { OnErr result (values.new.items ≡ values.old.items) }
{
    if values.len() < values.capacity() {
        values.push_reserved(value);
        return Ok(());
    }
    values.push(value)?;
    Ok(())
}

impl Stack {
    /// An empty stack. It takes no memory.
    pub fn new(alloc: Global) -> Stack
        ensures values { result.values.items ≡ [] }
        ensures members { result.members.items ≡ [] }
    {
        Stack {
            values: Vec::new(alloc),
            members: Vec::new(alloc),
        }
    }

    /// Takes all values and members away. The room that they had stays for others.
    #[inline(always)]
    pub fn clear(&mut self)
        ensures values { self.new.values.items ≡ [] }
        ensures members { self.new.members.items ≡ [] }
    {
        // Most often there is nothing to clear.
        if !self.values.is_empty() {
            self.values.clear();
        }
        if !self.members.is_empty() {
            self.members.clear();
        }
    }

    /// Puts the value that was found at the end, or gives the state that is raised in its place.
    ///
    /// # Errors
    /// [`Memory`] where memory ran out while the value was looked for, or runs out now.
    #[inline(always)]
    pub(crate) fn put(&mut self, found: Result<Outcome, Memory>) -> Result<Option<State>, Memory>
        requires printed { IfOk found IsPrinted }
        requires printable { All IsPrintable self.old.values.items }
        ensures does { (o : Found) → IfOk found (λ f. f ≡ o) → IfOk result (λ raised. EndsIn (spec.put o (held self.old)) raised (held self.new)) }
        ensures printable { All IsPrintable self.new.values.items }
    {
        match found {
            Ok(Outcome::Value(value)) => {
                push_in(&mut self.values, value)?;
                Ok(None)
            }
            Ok(Outcome::Raised(state)) => Ok(Some(state)),
            Err(memory) => Err(memory),
        }
    }

    /// Makes the last two values, a key and its value, the last member.
    pub(crate) fn pair(&mut self) -> Result<(), Memory>
        requires printable { All IsPrintable self.old.values.items }
        ensures pairs { OnOk result (held self.new ≡ paired (held self.old)) }
        ensures printable { All IsPrintable self.new.values.items }
    {
        let value = self.values.pop();
        let key = self.values.pop();
        if let (Some(key), Some(value)) = (key, value) {
            push(&mut self.members, Field { key, value })?;
        }
        Ok(())
    }

    /// Puts JSON_ARRAY of so many of the last values in their place.
    #[inline(never)]
    pub(crate) fn put_array(
        &mut self,
        alloc: Global,
        count: usize,
        nulls: Nulls,
    ) -> Result<Option<State>, Memory>
        requires printable { All IsPrintable self.old.values.items }
        ensures does { IfOk result (λ raised. EndsIn (spec.put (Value (array_value nulls (last_of count (held self.old).values))) (without_values count (held self.old))) raised (held self.new)) }
        ensures printable { All IsPrintable self.new.values.items }
    {
        let outcome = self.array(alloc, count, nulls)?;
        self.put(Ok(outcome))
    }

    /// Puts JSON_OBJECT of so many of the last members behind the values, or gives the state that it raises. The members go.
    #[inline(never)]
    pub(crate) fn put_object(
        &mut self,
        alloc: Global,
        count: usize,
        nulls: Nulls,
        unique: bool,
    ) -> Result<Option<State>, Memory>
        requires printable { All IsPrintable self.old.values.items }
        ensures does { IfOk result (λ raised. EndsIn (spec.put (outcome_of (object_value nulls unique (last_of count (held self.old).members))) (without_members count (held self.old))) raised (held self.new)) }
        ensures printable { All IsPrintable self.new.values.items }
    {
        let outcome = self.object(alloc, count, nulls, unique)?;
        self.put(Ok(outcome))
    }

    // JSON_ARRAY of so many of the last values, which go.
    fn array(&mut self, alloc: Global, count: usize, nulls: Nulls) -> Result<Outcome, Memory>
        requires printable { All IsPrintable self.old.values.items }
        ensures outcome { IfOk result (λ o. o ≡ Value (array_value nulls (last_of count (held self.old).values))) }
        ensures rest { OnOk result (held self.new ≡ without_values count (held self.old)) }
        ensures printed { IfOk result IsPrinted }
        ensures printable { All IsPrintable self.new.values.items }
    {
        let before = self.values.len().saturating_sub(count);
        let array = json_array(alloc, &self.values[before..], nulls)?;
        self.values.truncate(before);
        Ok(Outcome::Value(array))
    }

    // JSON_OBJECT of so many of the last members, which go.
    fn object(
        &mut self,
        alloc: Global,
        count: usize,
        nulls: Nulls,
        unique: bool,
    ) -> Result<Outcome, Memory>
        ensures outcome { IfOk result (λ o. o ≡ outcome_of (object_value nulls unique (last_of count (held self.old).members))) }
        ensures rest { OnOk result (held self.new ≡ without_members count (held self.old)) }
        ensures printed { IfOk result IsPrinted }
        ensures values { self.new.values ≡ self.old.values }
    {
        let before = self.members.len().saturating_sub(count);
        let object = json_object(alloc, &self.members[before..], nulls, unique);
        self.members.truncate(before);
        match object {
            Ok(value) => Ok(Outcome::Value(value)),
            Err(BuildRefusal::State(state)) => Ok(Outcome::Raised(state)),
            Err(BuildRefusal::Memory) => Err(Memory),
        }
    }
}
