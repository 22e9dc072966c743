//! Sequences.

ghost use Rattle.std.specs.Prelude.{◌≡◌, ◌<◌, ◌∷◌, ◌++◌, [], length, IfOk, OnOk, OnErr, slice_get};
ghost use Rattle.std.specs.Option.{option_copied};
ghost use Rattle.sj_sql_tree.specs.Sequences.{most_values};

use sj_base::Memory;
use std::alloc::Global;
use std::marker::Model;

/// Values one after another, seen as a list of at most `most_values`.
pub struct Seq<T> {
    items: Vec<T>,
}

impl<T> Model for Seq<T> {
    ghost use Rattle.std.specs.Prelude.{List, length, ◌≤◌};
    ghost use Rattle.sj_sql_tree.specs.Sequences.{most_values};

    ghost Value = { List T };

    ghost view = { λ s. s.items.items };

    ghost invariant = { λ s. length s.items.items ≤ most_values };
}

impl<T: Drop> Drop for Seq<T> {
    fn drop(self) {
        let Seq { items: _ } = self;
    }
}

impl<T: Drop> Seq<T> {
    /// No values. It takes no memory; `alloc` serves the calls that grow it.
    pub fn new(alloc: Global) -> Seq<T>
        ensures { result ≡ [] }
    {
        Seq {
            items: Vec::new(alloc),
        }
    }

    /// No values, with memory for so many and no more.
    pub fn with_room(alloc: Global, count: u32) -> Result<Seq<T>, Memory>
        ensures { IfOk result (λ s. s ≡ []) }
    {
        let mut items = Vec::new(alloc);
        items.reserve_exact(count as usize)?;
        Ok(Seq { items })
    }

    /// Puts a value at the end. Where memory runs out, the value is given up and nothing changes.
    pub fn push(&mut self, value: T) -> Result<(), Memory>
        requires { length self.old < most_values }
        ensures ok { OnOk result (self.new ≡ self.old ++ value ∷ []) }
        ensures err { OnErr result (self.new ≡ self.old) }
    {
        // Most lists have one value, and values are large: the first takes room for itself alone.
        if self.items.is_empty() {
            self.items.reserve_exact(1)?;
        }
        self.items.push(value)?;
        Ok(())
    }

    /// How many values there are.
    pub fn len(&self) -> u32
        ensures { result ≡ length self.now }
    {
        self.items.len() as u32
    }

    /// The value of this number, counted from 0, or nothing past the end.
    pub fn get(&self, i: u32) -> Option<&T>
        ensures { option_copied result ≡ slice_get self.now i }
    {
        self.items.get(i as usize)
    }

    /// Lends the values.
    pub fn as_slice(&self) -> &[T]
        ensures { result.now ≡ self.now }
    {
        self.items.as_slice()
    }

    /// Gives the vector back, with no memory taken.
    pub fn into_vec(self) -> Vec<T>
        ensures { result.items ≡ self }
    {
        let Seq { items } = self;
        items
    }
}
