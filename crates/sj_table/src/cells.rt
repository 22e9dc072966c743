// The cells of a plan: one for each path and each operator, each owning the cells that it asks. A cell holds where it stands, and no
// list of rows. The item under which a cell is evaluated is lent to it at each call.

use crate::join::Join;
use crate::run::Run;
use sj_item::Item;

/// A cell of a plan.
#[cycle(cells)]
#[derive(Drop)]
pub(crate) enum Cell<'d> {
    /// The rows of a path.
    Single(PathCell<'d>),
    /// OUTER and INNER.
    Nested(Nested<'d>),
    /// UNION.
    Union(Union<'d>),
    /// CROSS.
    Cross(Cross<'d>),
}

/// A path, and its entry in the row at hand.
#[derive(Drop)]
pub(crate) struct PathCell<'d> {
    pub(crate) number: u32,
    pub(crate) run: Run<'d>,
    pub(crate) stage: Stage,
    pub(crate) item: Item<'d>,
    /// How many entries were given under the parent item; at its last value it stays.
    pub(crate) ordinal: u64,
}

/// Whether a path was begun under the parent item.
#[derive(Clone, Copy)]
pub(crate) enum Stage {
    /// It was not.
    Unasked,
    /// It ends well there, and its cursor is at the items that are left.
    Entered,
}

/// A path with the plan below it, which is evaluated on the item of each entry.
#[cycle(cells)]
#[derive(Drop)]
pub(crate) struct Nested<'d> {
    pub(crate) join: Join,
    pub(crate) parent: PathCell<'d>,
    pub(crate) below: Box<Cell<'d>>,
    pub(crate) at: At,
}

/// Where the rows of one entry of a parent stand.
#[derive(Clone, Copy)]
pub(crate) enum At {
    /// There is no entry at hand.
    Nothing,
    /// The plan below was not asked yet.
    Before,
    /// The row at hand is the entry with a row of the plan below.
    Among,
    /// The row at hand is the entry alone.
    Alone,
}

/// The rows of one plan, and then those of another.
#[cycle(cells)]
#[derive(Drop)]
pub(crate) struct Union<'d> {
    pub(crate) left: Box<Cell<'d>>,
    pub(crate) right: Box<Cell<'d>>,
    pub(crate) side: Side,
}

/// Which of two plans is asked.
#[derive(Clone, Copy)]
pub(crate) enum Side {
    Left,
    Right,
}

/// Each row of one plan with each row of another.
#[cycle(cells)]
#[derive(Drop)]
pub(crate) struct Cross<'d> {
    pub(crate) left: Box<Cell<'d>>,
    pub(crate) right: Box<Cell<'d>>,
    pub(crate) hand: Hand,
}

/// Whether there is a left row at hand, for which the right plan is asked.
#[derive(Clone, Copy)]
pub(crate) enum Hand {
    Empty,
    Row,
}
