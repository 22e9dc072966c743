// Values that are put on the heap.
ghost use Rattle.std.specs.Prelude.{◌≡◌, ◌++◌, ◌∷◌, [], IfOk, OnOk, OnErr};

use crate::Memory;
use std::alloc::Global;

/// A box of a value. Where memory runs out, the value is given up.
pub fn boxed<T: Drop>(alloc: Global, value: T) -> Result<Box<T>, Memory>
    ensures { IfOk result (λ b. b.value ≡ value) }
{
    Ok(Box::new(alloc, value)?)
}

/// Puts a value at the end of a list. Where memory runs out, the list stays as it is and the value is given up.
#[inline(always)]
pub fn push<T: Drop>(list: &mut Vec<T>, value: T) -> Result<(), Memory>
    ensures ok { OnOk result (list.new.items ≡ list.old.items ++ value ∷ []) }
    ensures err { OnErr result (list.new.items ≡ list.old.items) }
{
    list.push(value)?;
    Ok(())
}
