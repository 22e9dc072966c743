// A path's items, one at a time.
ghost use Rattle.std.specs.Prelude.{◌≡◌, ◌≤◌, ◌*◌, IfOk, MatchOption};
ghost use Rattle.sj_item.specs.Items.{item_value};
ghost use Rattle.sj_path_tree.specs.View.{path_of};
ghost use Rattle.sj_step.specs.Answers.{answer_value};
ghost use Rattle.sj_cursor.specs.Draws.{Draws};
ghost use Rattle.sj_cursor.specs.Left.{core, left, only_number};
ghost use Rattle.sj_cursor.specs.Meaning.{meaning, start_env};
ghost use Rattle.sj_cursor.specs.Cells.{env_value};
ghost use Rattle.sj_cursor.specs.Moves.{walked};
ghost use Rattle.sj_cursor.specs.Standing.{standing_left, IsMeansOf};
ghost use Rattle.sj_cursor.specs.Trails.{IsTrail, Leads, stack_left};

use crate::build::expr_cell;
use crate::cells::Cell;
use crate::env::Env;
use crate::trail::Trail;
use sj_base::{Memory, State, Steps};
use sj_decimal::Decimal;
use sj_item::{Item, Pull};
use sj_path_tree::{Mode, Path, Vars};
use sj_plain_path::Chain;
use sj_step::Answer;
use std::alloc::Global;
use std::marker::Model;

/// A path that is evaluated on a root item, and how far it has come (ISO/IEC 9075-2, SQL/JSON path language).
///
/// Contracts see the path, the variables, the root and the trace that is left.
///
/// Its `drop` is written out, so that whoever holds a cursor gives it up by one call, and not part by part at each place where the
/// holder may return early.
pub struct Cursor<'d> {
    path: &'d Path,
    vars: &'d Vars,
    pub(crate) root: Item<'d>,
    by: Means<'d>,
    // the accessors of the path, where it is plain
    pub(crate) chain: Option<Chain<'d>>,
    pub(crate) stands: Stands,
}

/// By what a cursor goes from item to item.
#[derive(Drop)]
pub(crate) enum Means<'d> {
    /// A trail, which most paths in lax mode have.
    Trail(Trail<'d>),
    /// The cells of the path.
    Cells(Box<Cell<'d>>),
}

impl<'d> Drop for Cursor<'d> {
    fn drop(self) {
        let Cursor {
            path: _path,
            vars: _vars,
            root: _root,
            by: _by,
            chain: _chain,
            stands: _stands,
        } = self;
    }
}

/// Where a cursor stands.
#[derive(Clone, Copy)]
pub(crate) enum Stands {
    /// At the beginning. Its trail or its cells may stand anywhere, and go back when they are first asked.
    AtTheBeginning,
    /// Where its trail or its cells do.
    OnTheWay,
}

impl<'d> Model for Cursor<'d> {
    ghost use Rattle.sj_cursor.specs.Sequel.{Sequel, sequel_code};

    ghost Value = { Sequel };

    ghost coded = { sequel_code };

    ghost use Rattle.sj_item.specs.Items.{item_value};
    ghost use Rattle.sj_path_tree.specs.View.{path_of};
    ghost use Rattle.sj_cursor.specs.Left.{left};
    ghost use Rattle.sj_cursor.specs.Meaning.{start_env, path_trace};
    ghost use Rattle.sj_cursor.specs.Standing.{standing_left, means_left, IsCursor};

    ghost view = { λ c. record { path = c.path.now; vars = c.vars.now; root = item_value c.root; left = standing_left c.stands (path_trace (path_of c.path.now) c.vars.now (item_value c.root)) (means_left c.by (start_env (path_of c.path.now) c.vars.now (item_value c.root))) } };

    ghost invariant = { λ c. IsCursor (path_of c.path.now) c.by c.chain };
}

// A trail, where the path has moves alone, and else its cells.
fn means_of<'d>(alloc: Global, path: &'d Path) -> Result<Means<'d>, Memory>
    ensures { IfOk result (IsMeansOf (path_of path.now)) }
{
    match Trail::of_path(alloc, path)? {
        Some(trail) => Ok(Means::Trail(trail)),
        None => Ok(Means::Cells(expr_cell(alloc, &path.expr)?)),
    }
}

// Where a cursor stands at its beginning, its cells go back, wherever they stood.
#[inline(always)]
fn rewind_at_the_beginning<'d>(stands: &mut Stands, cell: &mut Cell<'d>, env: &Env<'_, 'd>)
    ensures left { left cell.new (env_value env.now) ≡ standing_left stands.old (meaning (core cell.old) (env_value env.now)) (left cell.old (env_value env.now)) }
    ensures same { core cell.new ≡ core cell.old }
    ensures stands { stands.new ≡ Stands.OnTheWay }
{
    match *stands {
        Stands::AtTheBeginning => {
            cell.rewind(env);
            *stands = Stands::OnTheWay;
        }
        Stands::OnTheWay => {}
    }
}

// The next item of the cells of a path, which go back first where the cursor stands at its beginning.
#[inline(always)]
fn next_of<'d>(
    path: &'d Path,
    vars: &'d Vars,
    root: &Item<'d>,
    stands: &mut Stands,
    cell: &mut Cell<'d>,
    steps: &mut Steps,
    place: &mut Item<'d>,
) -> Answer
    ensures answers { Draws (standing_left stands.old (meaning (core cell.old) (start_env (path_of path.now) vars.now (item_value root.now))) (left cell.old (start_env (path_of path.now) vars.now (item_value root.now)))) (answer_value result place.new) (left cell.new (start_env (path_of path.now) vars.now (item_value root.now))) steps.old steps.new }
    ensures same { core cell.new ≡ core cell.old }
    ensures stands { stands.new ≡ Stands.OnTheWay }
{
    let env = Env {
        mode: path.mode,
        vars,
        root,
        context: root,
        last: 0,
    };
    rewind_at_the_beginning(stands, cell, &env);
    cell.next(&env, steps, place)
}

// The next item of a trail, which goes back first where the cursor stands at its beginning.
#[inline(always)]
fn next_on<'d>(
    trail: &mut Trail<'d>,
    root: &Item<'d>,
    stands: &mut Stands,
    steps: &mut Steps,
    place: &mut Item<'d>,
) -> Answer
    requires { IsTrail trail.old }
    ensures answers { Draws (standing_left stands.old (walked trail.old.moves.items (item_value root.now)) (stack_left trail.old.moves.items trail.old.frames.items)) (answer_value result place.new) (stack_left trail.new.moves.items trail.new.frames.items) steps.old steps.new }
    ensures same { trail.new.moves ≡ trail.old.moves }
    ensures trail { IsTrail trail.new }
    ensures stands { stands.new ≡ Stands.OnTheWay }
{
    match *stands {
        Stands::AtTheBeginning => {
            *stands = Stands::OnTheWay;
            trail.put_first(root, steps, place)
        }
        Stands::OnTheWay => trail.put_next(steps, place),
    }
}

impl<'d> Cursor<'d> {
    ghost use Rattle.sj_item.specs.Items.{item_value, pull_value};
    ghost use Rattle.sj_path_tree.specs.Nodes.{nodes};
    ghost use Rattle.sj_step.specs.Answers.{answer_value};
    ghost use Rattle.sj_path_tree.specs.View.{path_of};
    ghost use Rattle.sj_cursor.specs.Draws.{Draws};
    ghost use Rattle.sj_cursor.specs.Meaning.{path_trace};

    /// A cursor at the beginning of the path's sequence on a root item. It takes all memory that the cursor will use. A variable that
    /// the path names and that is not passed counts as null.
    ///
    /// # Errors
    /// [`Memory`] where memory runs out.
    pub fn new(
        alloc: Global,
        path: &'d Path,
        vars: &'d Vars,
        root: Item<'d>,
    ) -> Result<Cursor<'d>, Memory>
        ensures path { IfOk result (λ c. c.path ≡ path.now) }
        ensures vars { IfOk result (λ c. c.vars ≡ vars.now) }
        ensures root { IfOk result (λ c. c.root ≡ item_value root.entry) }
        ensures left { IfOk result (λ c. c.left ≡ path_trace (path_of path.now) vars.now (item_value root.entry)) }
    {
        let chain = Chain::of_path(alloc, path)?;
        let by = means_of(alloc, path)?;
        Ok(Cursor {
            path,
            vars,
            root,
            by,
            chain,
            stands: Stands::AtTheBeginning,
        })
    }

    /// The next item, or the end. It takes no memory. The counter rises by no more than the children of nodes that are handed out
    /// before that item or end. After an end the same end comes again, without a step.
    pub fn next(&mut self, steps: &mut Steps) -> Pull<'d>
        ensures answers { Draws self.old.left (pull_value result) self.new.left steps.old steps.new }
        ensures path { self.new.path ≡ self.old.path }
        ensures vars { self.new.vars ≡ self.old.vars }
        ensures root { self.new.root ≡ self.old.root }
    {
        let mut place = Item::Null;
        let answer = self.put_next(steps, &mut place);
        answer.pull(&place)
    }

    // The same, with the item put into a place.
    pub(crate) fn put_next(&mut self, steps: &mut Steps, place: &mut Item<'d>) -> Answer
        ensures answers { Draws self.old.left (answer_value result place.new) self.new.left steps.old steps.new }
        ensures path { self.new.path ≡ self.old.path }
        ensures vars { self.new.vars ≡ self.old.vars }
        ensures root { self.new.root ≡ self.old.root }
    {
        match &mut self.by {
            Means::Trail(trail) => next_on(trail, &self.root, &mut self.stands, steps, place),
            Means::Cells(cell) => next_of(
                self.path,
                self.vars,
                &self.root,
                &mut self.stands,
                cell,
                steps,
                place,
            ),
        }
    }

    // The number that the path gives, where it stands at the beginning and its expression is arithmetic, or the fault in its place.
    #[inline(always)]
    pub(crate) fn number(&mut self, steps: &mut Steps) -> Option<Result<Decimal, State>>
        ensures found { MatchOption result ((self.new.left ≡ self.old.left) × (steps.new ≡ steps.old)) (λ found. Leads self.old.left steps.old (only_number found) steps.new) }
        ensures path { self.new.path ≡ self.old.path }
        ensures vars { self.new.vars ≡ self.old.vars }
        ensures root { self.new.root ≡ self.old.root }
    {
        let Stands::AtTheBeginning = self.stands else {
            return None;
        };
        let Means::Cells(cell) = &mut self.by else {
            return None;
        };
        let Cell::Binary(binary) = &mut **cell else {
            return None;
        };
        let env = Env {
            mode: self.path.mode,
            vars: self.vars,
            root: &self.root,
            context: &self.root,
            last: 0,
        };
        Some(binary.number(&env, steps))
    }

    /// From the beginning, on another root, wherever the cursor stood. It takes no memory.
    pub fn rewind(&mut self, root: Item<'d>)
        ensures left { self.new.left ≡ path_trace (path_of self.old.path) self.old.vars (item_value root.entry) }
        ensures path { self.new.path ≡ self.old.path }
        ensures vars { self.new.vars ≡ self.old.vars }
        ensures root { self.new.root ≡ item_value root.entry }
    {
        self.root = root;
        self.stands = Stands::AtTheBeginning;
    }

    /// How many items the cursor holds, with the root. It is at most three for each node of the path. A trail holds an item for each
    /// node whose children it is among.
    ///
    /// The program does not call this; its tests do, and a host may.
    pub fn held(&self) -> u64
        ensures { result ≤ 3 * nodes (path_of self.now.path) }
    {
        match &self.by {
            Means::Trail(trail) => trail.held(),
            Means::Cells(cell) => cell.held().saturating_add(1),
        }
    }

    /// The mode of the path.
    pub fn mode(&self) -> Mode
        ensures { result ≡ self.now.path.mode }
    {
        self.path.mode
    }
}
