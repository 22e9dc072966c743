// A path that is asked on one item after another.
ghost use Rattle.std.specs.Prelude.{◌≡◌, ◌≤◌, ◌*◌, IfOk};
ghost use Rattle.sj_base.specs.Count.{raised};
ghost use Rattle.sj_cursor.specs.Answers.{exists_answer, single_value};
ghost use Rattle.sj_cursor.specs.Inquiries.{IsAsking};
ghost use Rattle.sj_cursor.specs.Single.{need, single};
ghost use Rattle.sj_item.specs.Items.{item_value};
ghost use Rattle.sj_path_tree.specs.Nodes.{nodes};
ghost use Rattle.sj_path_tree.specs.View.{path_of};

use crate::arrival::look_on;
use crate::ask::{exists_or_fault, single_node, single_or_fault};
use crate::cursor::Cursor;
use sj_base::{Memory, State, Steps, boxed};
use sj_item::Item;
use sj_path_tree::{Path, Vars};
use sj_plain_path::{Chain, Limit};
use std::alloc::Global;
use std::marker::Model;

/// A path that is asked on one item after another whether it has an item, or which is its only one (ISO/IEC 9075-2, JSON_EXISTS and
/// JSON_VALUE). A plain path needs no cursor for that, and so takes little memory.
///
/// Contracts see the path and the variables.
///
/// Its `drop` is written out, so that whoever holds one gives it up by one call.
pub struct Inquiry<'d> {
    path: &'d Path,
    vars: &'d Vars,
    by: Asking<'d>,
}

/// By what a path is asked.
#[derive(Drop)]
pub(crate) enum Asking<'d> {
    /// The accessors of a plain path. Nothing is kept from one item to the next.
    Chain(Chain<'d>),
    /// A cursor, which goes back to its beginning for each item. It is in a place of its own, so that an inquiry is small.
    Cursor(Box<Cursor<'d>>),
}

impl<'d> Drop for Inquiry<'d> {
    fn drop(self) {
        let Inquiry {
            path: _path,
            vars: _vars,
            by: _by,
        } = self;
    }
}

impl<'d> Model for Inquiry<'d> {
    ghost use Rattle.sj_cursor.specs.Sequel.{Inquired, inquired_code};

    ghost Value = { Inquired };

    ghost coded = { inquired_code };

    ghost use Rattle.sj_cursor.specs.Inquiries.{IsAsking};

    ghost view = { λ q. record { path = q.path.now; vars = q.vars.now } };

    ghost invariant = { λ q. IsAsking q.path.now q.vars.now q.by };
}

// The accessors, where the path is plain, and else a cursor on no item yet.
fn asking_of<'d>(alloc: Global, path: &'d Path, vars: &'d Vars) -> Result<Asking<'d>, Memory>
    ensures { IfOk result (IsAsking path.now vars.now) }
{
    match Chain::of_path(alloc, path)? {
        Some(chain) => Ok(Asking::Chain(chain)),
        None => {
            let cursor = Cursor::new(alloc, path, vars, Item::Null)?;
            Ok(Asking::Cursor(boxed(alloc, cursor)?))
        }
    }
}

impl<'d> Inquiry<'d> {
    ghost use Rattle.sj_cursor.specs.Meaning.{path_trace};

    /// An inquiry of a path. It takes all memory that the inquiry will use. A variable that the path names and that is not passed counts
    /// as null.
    ///
    /// # Errors
    /// [`Memory`] where memory runs out.
    pub fn new(alloc: Global, path: &'d Path, vars: &'d Vars) -> Result<Inquiry<'d>, Memory>
        ensures path { IfOk result (λ q. q.path ≡ path.now) }
        ensures vars { IfOk result (λ q. q.vars ≡ vars.now) }
    {
        let by = asking_of(alloc, path, vars)?;
        Ok(Inquiry { path, vars, by })
    }

    /// Whether the path gives an item on a root. In lax mode the first item decides, even where a fault would follow; in strict mode all
    /// items are asked. It takes no memory.
    ///
    /// # Errors
    /// The state of the fault that leaves this open: in lax mode where no item comes before it, and in strict mode always.
    pub fn exists(&mut self, root: Item<'d>, steps: &mut Steps) -> Result<bool, State>
        ensures answers { result ≡ exists_answer self.old.path.mode (path_trace (path_of self.old.path) self.old.vars (item_value root.entry)) }
        ensures costs { steps.new ≤ raised steps.old (need self.old.path.mode 1 (path_trace (path_of self.old.path) self.old.vars (item_value root.entry))) }
        ensures path { self.new.path ≡ self.old.path }
        ensures vars { self.new.vars ≡ self.old.vars }
    {
        match &mut self.by {
            Asking::Chain(chain) => {
                exists_or_fault(look_on(chain, &root, Limit::of_exists(self.path.mode), steps))
            }
            Asking::Cursor(cursor) => {
                cursor.rewind(root);
                cursor.exists(steps)
            }
        }
    }

    /// The only item that the path gives on a root, and `None` where it gives none. In lax mode a second item decides, even where a fault
    /// would follow; in strict mode all items are asked. It takes no memory.
    ///
    /// # Errors
    /// `several` where there are several items, and the state of a fault. In lax mode several items come first, and in strict mode
    /// a fault does.
    #[inline(always)]
    pub fn single(
        &mut self,
        root: Item<'d>,
        several: State,
        steps: &mut Steps,
    ) -> Result<Option<Item<'d>>, State>
        ensures answers { single_value result ≡ single self.old.path.mode several (path_trace (path_of self.old.path) self.old.vars (item_value root.entry)) }
        ensures costs { steps.new ≤ raised steps.old (need self.old.path.mode 2 (path_trace (path_of self.old.path) self.old.vars (item_value root.entry))) }
        ensures path { self.new.path ≡ self.old.path }
        ensures vars { self.new.vars ≡ self.old.vars }
    {
        match (&self.by, &root) {
            (Asking::Chain(chain), Item::Node(node)) => {
                let limit = Limit::of_single(self.path.mode);
                single_node(chain.nodes(*node, limit, steps), several)
            }
            _ => self.single_apart(root, several, steps),
        }
    }

    // The same of any path on any item. The place in memory for the answer is cleared here, and not on the other way too. Put together
    // anew, the answer leaves that of the other way in registers.
    #[inline(always)]
    fn single_apart(
        &mut self,
        root: Item<'d>,
        several: State,
        steps: &mut Steps,
    ) -> Result<Option<Item<'d>>, State>
        ensures answers { single_value result ≡ single self.old.path.mode several (path_trace (path_of self.old.path) self.old.vars (item_value root.entry)) }
        ensures costs { steps.new ≤ raised steps.old (need self.old.path.mode 2 (path_trace (path_of self.old.path) self.old.vars (item_value root.entry))) }
        ensures path { self.new.path ≡ self.old.path }
        ensures vars { self.new.vars ≡ self.old.vars }
    {
        Ok(self.single_on(root, several, steps)?)
    }

    // The same, out of line.
    #[inline(never)]
    fn single_on(
        &mut self,
        root: Item<'d>,
        several: State,
        steps: &mut Steps,
    ) -> Result<Option<Item<'d>>, State>
        ensures answers { single_value result ≡ single self.old.path.mode several (path_trace (path_of self.old.path) self.old.vars (item_value root.entry)) }
        ensures costs { steps.new ≤ raised steps.old (need self.old.path.mode 2 (path_trace (path_of self.old.path) self.old.vars (item_value root.entry))) }
        ensures path { self.new.path ≡ self.old.path }
        ensures vars { self.new.vars ≡ self.old.vars }
    {
        match &mut self.by {
            Asking::Chain(chain) => {
                let limit = Limit::of_single(self.path.mode);
                single_or_fault(look_on(chain, &root, limit, steps), several)
            }
            Asking::Cursor(cursor) => {
                cursor.rewind(root);
                cursor.single(several, steps)
            }
        }
    }

    /// How many items the inquiry holds from one answer to the next. It is at most three for each node of the path. For a plain path it
    /// holds none.
    ///
    /// The program does not call this; its tests do, and a host may.
    pub fn held(&self) -> u64
        ensures { result ≤ 3 * nodes (path_of self.now.path) }
    {
        match &self.by {
            Asking::Chain(_) => 0,
            Asking::Cursor(cursor) => cursor.held(),
        }
    }
}
