// The cells of a path: one for each part of its tree, each owning the cells that it asks. A cell holds where it stands, and no
// list of items. What holds two operands has a place of its own, since it is far larger than all else that may stand there.
ghost use Rattle.std.specs.Prelude.{◌≡◌, ◌<◌, unsigned_abs};
ghost use Rattle.sj_decimal.specs.Limits.{magnitude_limit};
ghost use Rattle.std.specs.Coded.{Coded-set};
ghost use Rattle.sj_item.specs.Coding.{item_code};
ghost use Rattle.sj_item.specs.Items.{item_value};
ghost use Rattle.sj_step.specs.Literals.{literal_item};

use sj_base::State;
use sj_item::Item;
use sj_method::PairWalk;
use sj_path_tree::{Arith, Compare, Initial, Literal, Method};
use sj_walk::Walk;

/// A cell of an expression.
#[cycle(cells)]
pub(crate) enum Cell<'d> {
    /// One item.
    One(One<'d>),
    /// An accessor, a method or a sign on each item of an expression.
    Each(Each<'d>),
    /// Arithmetic on two operands.
    Binary(Box<Binary<'d>>),
}

// A loop, since a path of some hundred parts is a chain of as many cells: a drop that calls itself would take stack for each.
impl<'d> Drop for Cell<'d> {
    #[cycle(cells)]
    fn drop(mut self) {
        loop {
            match self {
                Cell::One(_) => return,
                Cell::Each(each) => {
                    let Each { input, operator: _ } = each;
                    let Operand { cell, opened: _ } = input;
                    self = Box::into_inner(cell);
                }
                Cell::Binary(binary) => {
                    let Operand { cell, opened: _ } = Box::into_inner(binary).into_left();
                    self = Box::into_inner(cell);
                }
            }
        }
    }
}

/// One item, which was given already or not.
#[derive(Drop)]
pub(crate) struct One<'d> {
    pub(crate) source: Source<'d>,
    pub(crate) given: bool,
}

/// Where the one item is.
#[derive(Clone, Copy)]
pub(crate) enum Source<'d> {
    Root,
    Context,
    Last,
    Lit(Made<'d>),
    Var(&'d str),
}

/// A literal, and the item that it is, which is made once and lent to each comparison.
#[derive(Clone, Copy)]
pub(crate) struct Made<'d> {
    pub(crate) literal: &'d Literal,
    pub(crate) item: Item<'d>,
    ghost made: { item_value item ≡ literal_item literal.now } by { Coded-set item_code _ _ },
}

/// An expression that something is done with, and what is left of its item that was unwrapped last.
#[cycle(cells)]
#[derive(Drop)]
pub(crate) struct Operand<'d> {
    pub(crate) cell: Box<Cell<'d>>,
    pub(crate) opened: Walk<'d>,
}

/// Something that is done with each item.
#[cycle(cells)]
#[derive(Drop)]
pub(crate) struct Each<'d> {
    pub(crate) input: Operand<'d>,
    pub(crate) operator: Operator<'d>,
}

/// What a cell does with each item, and what is left to give of the item at hand.
#[cycle(cells)]
#[derive(Drop)]
pub(crate) enum Operator<'d> {
    Simple(Applied<'d>),
    Filter(Filter<'d>),
    Elements(Elements<'d>),
}

/// An operator that asks no cell: an accessor, a sign or a method.
#[derive(Clone, Copy)]
pub(crate) enum Simple<'d> {
    Member(&'d str),
    AllMembers,
    AllElements,
    Plus,
    Minus,
    Method(Method),
}

#[derive(Drop)]
pub(crate) struct Applied<'d> {
    pub(crate) simple: Simple<'d>,
    pub(crate) left: Results<'d>,
}

/// What such an operator has left to give of the item at hand.
#[derive(Drop)]
pub(crate) enum Results<'d> {
    Walk(Walk<'d>),
    Pairs(PairWalk<'d>),
}

/// A filter. An item that it keeps is given at once.
#[cycle(cells)]
#[derive(Drop)]
pub(crate) struct Filter<'d> {
    pub(crate) test: Box<Test<'d>>,
}

/// A list of subscripts, and the item at hand.
#[cycle(cells)]
#[derive(Drop)]
pub(crate) struct Elements<'d> {
    pub(crate) parts: Box<Parts<'d>>,
    pub(crate) at: At<'d>,
}

/// Where a list of subscripts stands.
#[derive(Drop)]
pub(crate) enum At<'d> {
    /// There is no item at hand.
    Nothing,
    /// The item at hand was refused.
    Refused(State),
    /// The parts are taken on this item.
    On(Subscripted<'d>),
}

/// An item, and the `last` of its subscripts.
#[derive(Drop)]
pub(crate) struct Subscripted<'d> {
    pub(crate) item: Item<'d>,
    pub(crate) last: i128,
    ghost small: { unsigned_abs last < magnitude_limit },
}

/// The parts of a list of subscripts.
#[cycle(cells)]
pub(crate) enum Parts<'d> {
    /// No part. The parser never leaves a list empty.
    Empty,
    Only(Part<'d>),
    More(MoreParts<'d>),
}

impl<'d> Drop for Parts<'d> {
    #[cycle(cells)]
    fn drop(mut self) {
        loop {
            match self {
                Parts::Empty | Parts::Only(_) => return,
                Parts::More(MoreParts { first: _, others }) => self = Box::into_inner(others),
            }
        }
    }
}

#[cycle(cells)]
#[derive(Drop)]
pub(crate) struct MoreParts<'d> {
    pub(crate) first: Part<'d>,
    pub(crate) others: Box<Parts<'d>>,
}

/// One part: its subscripts, and what it has left of the item at hand.
#[cycle(cells)]
#[derive(Drop)]
pub(crate) struct Part<'d> {
    pub(crate) bounds: Bounds<'d>,
    pub(crate) reached: Reached<'d>,
}

#[cycle(cells)]
#[derive(Drop)]
pub(crate) enum Bounds<'d> {
    One(Operand<'d>),
    Range(Box<Range<'d>>),
}

#[cycle(cells)]
pub(crate) struct Range<'d> {
    pub(crate) from: Operand<'d>,
    pub(crate) to: Operand<'d>,
}

impl<'d> Drop for Range<'d> {
    #[cycle(cells)]
    fn drop(self) {
        let Range {
            from: _from,
            to: _to,
        } = self;
    }
}

/// What a part reached of the item at hand.
#[derive(Drop)]
pub(crate) enum Reached<'d> {
    /// Its subscripts were not asked yet.
    Unasked,
    Walk(Walk<'d>),
}

/// Two operands, which are asked when the result is first asked.
#[cycle(cells)]
pub(crate) struct Binary<'d> {
    pub(crate) op: Arith,
    pub(crate) left: Operand<'d>,
    pub(crate) right: Operand<'d>,
    pub(crate) reached: Reached<'d>,
}

impl<'d> Drop for Binary<'d> {
    fn drop(self) {
        let Binary {
            op: _op,
            left: _left,
            right: _right,
            reached: _reached,
        } = self;
    }
}

impl<'d> Binary<'d> {
    // The left operand. All else is given up.
    #[cycle(cells)]
    fn into_left(self) -> Operand<'d>
        ensures { result ≡ self.entry.left }
    {
        let Binary {
            op: _op,
            left,
            right: _right,
            reached: _reached,
        } = self;
        left
    }
}

/// A predicate.
#[cycle(cells)]
pub(crate) enum Test<'d> {
    Compare(Box<Comparison<'d>>),
    And(Both<'d>),
    Or(Both<'d>),
    Not(Box<Test<'d>>),
    IsUnknown(Box<Test<'d>>),
    Exists(Operand<'d>),
    StartsWith(Start<'d>),
}

impl<'d> Drop for Test<'d> {
    #[cycle(cells)]
    fn drop(mut self) {
        loop {
            match self {
                Test::And(Both { left, right: _ }) => self = Box::into_inner(left),
                Test::Or(Both { left, right: _ }) => self = Box::into_inner(left),
                Test::Not(inner) => self = Box::into_inner(inner),
                Test::IsUnknown(inner) => self = Box::into_inner(inner),
                Test::Compare(_) | Test::Exists(_) | Test::StartsWith(_) => return,
            }
        }
    }
}

#[cycle(cells)]
pub(crate) struct Comparison<'d> {
    pub(crate) op: Compare,
    pub(crate) left: Operand<'d>,
    pub(crate) right: Operand<'d>,
}

impl<'d> Drop for Comparison<'d> {
    #[cycle(cells)]
    fn drop(self) {
        let Comparison {
            op: _op,
            left: _left,
            right: _right,
        } = self;
    }
}

#[cycle(cells)]
#[derive(Drop)]
pub(crate) struct Both<'d> {
    pub(crate) left: Box<Test<'d>>,
    pub(crate) right: Box<Test<'d>>,
}

#[cycle(cells)]
#[derive(Drop)]
pub(crate) struct Start<'d> {
    pub(crate) text: Operand<'d>,
    pub(crate) initial: &'d Initial,
}
