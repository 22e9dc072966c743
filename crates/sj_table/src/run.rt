// A path that is run under one item after another.
ghost use Rattle.std.specs.Prelude.{◌≡◌, ◌≤◌, true, IfOk};
ghost use Rattle.sj_base.specs.Count.{raised};
ghost use Rattle.sj_item.specs.Items.{item_value, pull_value};
ghost use Rattle.sj_path_tree.specs.View.{path_of};
ghost use Rattle.sj_step.specs.Trace.{visits, fault_of};
ghost use Rattle.sj_cursor.specs.Draws.{Draws};
ghost use Rattle.sj_fault_free.specs.FaultFree.{fault_free};
ghost use Rattle.sj_cursor.specs.Meaning.{path_trace};
ghost use Rattle.sj_table.specs.declared.run.Faults.TheVariants.{Never};

use sj_base::{Memory, State, Steps, boxed};
use sj_cursor::Cursor;
use sj_fault_free::is_fault_free;
use sj_item::{Item, Pull};
use sj_path_tree::{Path, Vars};
use std::alloc::Global;

/// Whether a path may end in a fault.
#[derive(Clone, Copy)]
pub(crate) enum Faults {
    /// Its form rules that out under every item.
    Never,
    /// It may, under some item.
    Possible,
}

/// The cursor of a path, and whether the path may end in a fault. The cursor has a place of its own, so that the cells stay small.
#[derive(Drop)]
pub(crate) struct Run<'d> {
    cursor: Box<Cursor<'d>>,
    faults: Faults,
    ghost never: { faults ≡ Never → fault_free (path_of cursor.value.path) ≡ true },
}

impl<'d> Run<'d> {
    /// A path that was run under no item yet. It takes all memory that running it will use.
    pub(crate) fn new(alloc: Global, path: &'d Path, vars: &'d Vars) -> Result<Run<'d>, Memory>
        ensures path { IfOk result (λ r. r.cursor.value.path ≡ path.now) }
        ensures vars { IfOk result (λ r. r.cursor.value.vars ≡ vars.now) }
    {
        let cursor = Cursor::new(alloc, path, vars, Item::Null)?;
        Ok(Run {
            cursor: boxed(alloc, cursor)?,
            faults: faults_of(path),
        })
    }

    /// The fault that the path ends in under an item, if any. A path that may have one is run to its end for that.
    pub(crate) fn fault_under(&mut self, parent: &Item<'d>, steps: &mut Steps) -> Option<State>
        ensures fault { result ≡ fault_of (path_trace (path_of self.old.cursor.value.path) self.old.cursor.value.vars (item_value parent.now)) }
        ensures costs { steps.new ≤ raised steps.old (visits (path_trace (path_of self.old.cursor.value.path) self.old.cursor.value.vars (item_value parent.now))) }
        ensures path { self.new.cursor.value.path ≡ self.old.cursor.value.path }
        ensures vars { self.new.cursor.value.vars ≡ self.old.cursor.value.vars }
    {
        match self.faults {
            Faults::Never => None,
            Faults::Possible => {
                self.cursor.rewind(*parent);
                fault_at_end(&mut self.cursor, steps)
            }
        }
    }

    /// From the beginning, under an item.
    pub(crate) fn rewind(&mut self, parent: &Item<'d>)
        ensures left { self.new.cursor.value.left ≡ path_trace (path_of self.old.cursor.value.path) self.old.cursor.value.vars (item_value parent.now) }
        ensures path { self.new.cursor.value.path ≡ self.old.cursor.value.path }
        ensures vars { self.new.cursor.value.vars ≡ self.old.cursor.value.vars }
    {
        self.cursor.rewind(*parent);
    }

    /// The next item, or the end.
    pub(crate) fn next(&mut self, steps: &mut Steps) -> Pull<'d>
        ensures answers { Draws self.old.cursor.value.left (pull_value result) self.new.cursor.value.left steps.old steps.new }
        ensures path { self.new.cursor.value.path ≡ self.old.cursor.value.path }
        ensures vars { self.new.cursor.value.vars ≡ self.old.cursor.value.vars }
    {
        self.cursor.next(steps)
    }
}

fn faults_of(path: &Path) -> Faults
    ensures { result ≡ Faults.Never → fault_free (path_of path.now) ≡ true }
{
    if is_fault_free(path) {
        Faults::Never
    } else {
        Faults::Possible
    }
}

// The fault that a cursor's sequence ends in, if any. The cursor then stands at its end.
fn fault_at_end<'d>(cursor: &mut Cursor<'d>, steps: &mut Steps) -> Option<State>
    ensures fault { result ≡ fault_of cursor.old.left }
    ensures costs { steps.new ≤ raised steps.old (visits cursor.old.left) }
    ensures path { cursor.new.path ≡ cursor.old.path }
    ensures vars { cursor.new.vars ≡ cursor.old.vars }
{
    'items: loop {
        match cursor.next(steps) {
            Pull::Item(_item) => {}
            Pull::End => return None,
            Pull::Fault(state) => return Some(state),
        }
    }
}
