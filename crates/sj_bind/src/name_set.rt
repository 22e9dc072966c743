//! Sets of names.

ghost use Rattle.std.specs.Prelude.{◌≡◌, []};
ghost use Rattle.sj_bind.specs.Names.{names_of};

use indexmap::IndexSet;
use std::alloc::Global;

/// Names that are lent, each once, in the order in which they were noted.
///
/// Its `drop` is written out, so that whoever holds one gives it up by one call. A derived one is laid open, with all
/// parts of the table of keys, at each place where a holder may return early.
pub struct NameSet<'a> {
    pub names: IndexSet<&'a str>,
}

impl<'a> Drop for NameSet<'a> {
    fn drop(self) {
        let NameSet { names: _names } = self;
    }
}

impl<'a> NameSet<'a> {
    /// No names. It takes no memory; `alloc` serves the calls that add some.
    pub fn new(alloc: Global) -> NameSet<'a>
        ensures { names_of result ≡ [] }
    {
        NameSet {
            names: IndexSet::new(alloc),
        }
    }
}
