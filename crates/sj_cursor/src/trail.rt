// The items of a path in lax mode, one at a time and without cells.
ghost use Rattle.std.specs.Prelude.{◌≡◌, ◌≤◌, ◌<◌, ◌+◌, ◌-◌, length, drop, vec_capacity, IfOk, IfSome};
ghost use Rattle.sj_step.specs.Trace.{join};
ghost use Rattle.sj_base.specs.Count.{raised};
ghost use Rattle.sj_item.specs.Items.{item_value};
ghost use Rattle.sj_path_tree.specs.View.{path_of};
ghost use Rattle.sj_step.specs.Answers.{answer_value};
ghost use Rattle.sj_plain_path.specs.Chains.{node_value};
ghost use Rattle.sj_cursor.specs.Draws.{Draws};
ghost use Rattle.sj_cursor.specs.Moves.{walked};
ghost use Rattle.sj_cursor.specs.Trails.{Gives, IsMade, LandsWithin, Leads, descent_left, frame_left, landing_left, stack_left, pulled, Stacked, StaysWithin, IsRoomy, IsTrail, IsTrailOf};

use crate::moves::{Move, Way, collect};
use sj_base::{Memory, Steps};
use sj_doc::{Children, NodeRef};
use sj_item::Item;
use sj_path_tree::{Mode, Path};
use sj_step::Answer;
use std::alloc::Global;

/// The moves of a path, and how far it has come on a node.
#[derive(Drop)]
pub(crate) struct Trail<'d> {
    moves: Vec<Move<'d>>,
    // The innermost comes last. There is room for one frame at each move.
    frames: Vec<Frame<'d>>,
}

/// What is left of the children that a move goes on with.
#[derive(Drop)]
pub(crate) struct Frame<'d> {
    left: Children<'d>,
    // the move
    at: usize,
}

/// How far a node comes by itself.
#[derive(Clone, Copy)]
enum Descent {
    /// It is an item.
    Item,
    /// No item is found.
    Nothing,
    /// The move at an index goes on with its children.
    Children(usize),
}

/// How far an item that the path made comes by itself.
#[derive(Clone, Copy)]
enum Landing<'d> {
    /// An item is found.
    Item(Item<'d>),
    /// No item is found.
    Nothing,
    /// It comes to a node, with which the move at an index goes on.
    Node(NodeRef<'d>, usize),
}

impl<'d> Trail<'d> {
    /// The trail of a path, where it has moves alone. It takes all memory that the trail will use.
    ///
    /// # Errors
    /// [`Memory`] where memory runs out.
    pub(crate) fn of_path(alloc: Global, path: &'d Path) -> Result<Option<Trail<'d>>, Memory>
        ensures { IfOk result (λ trail. IfSome trail (IsTrailOf (path_of path.now))) }
    {
        match path.mode {
            Mode::Lax => {}
            Mode::Strict => return Ok(None),
        }
        let mut moves = Vec::new(alloc);
        if !collect(&path.expr, &mut moves)? {
            return Ok(None);
        }
        let frames = Vec::with_capacity(alloc, moves.len())?;
        Ok(Some(Trail { moves, frames }))
    }

    /// How many items the trail holds: the root, and for each frame the node whose children are left.
    pub(crate) fn held(&self) -> u64
        requires { IsTrail self.now }
        ensures { result ≤ length self.now.moves.items + 1 }
    {
        (self.frames.len() as u64).saturating_add(1)
    }

    /// The first item on a root.
    #[inline(always)]
    pub(crate) fn put_first(
        &mut self,
        root: &Item<'d>,
        steps: &mut Steps,
        place: &mut Item<'d>,
    ) -> Answer
        requires { IsTrail self.old }
        ensures draws { Draws (walked self.old.moves.items (item_value root.now)) (answer_value result place.new) (stack_left self.new.moves.items self.new.frames.items) steps.old steps.new }
        ensures same { self.new.moves ≡ self.old.moves }
        ensures trail { IsTrail self.new }
    {
        match root {
            Item::Node(node) => put_node(self.first(*node, 0, steps), place),
            _ => self.put_first_of_made(root, steps, place),
        }
    }

    // The same of a root that is no node.
    #[inline(never)]
    fn put_first_of_made(
        &mut self,
        root: &Item<'d>,
        steps: &mut Steps,
        place: &mut Item<'d>,
    ) -> Answer
        requires trail { IsTrail self.old }
        requires made { IsMade root.now }
        ensures draws { Draws (walked self.old.moves.items (item_value root.now)) (answer_value result place.new) (stack_left self.new.moves.items self.new.frames.items) steps.old steps.new }
        ensures same { self.new.moves ≡ self.old.moves }
        ensures trail { IsTrail self.new }
    {
        self.frames.clear();
        match land(&self.moves, root, steps) {
            Landing::Item(item) => {
                *place = item;
                Answer::Item
            }
            Landing::Nothing => Answer::End,
            Landing::Node(node, from) => put_node(self.first(node, from, steps), place),
        }
    }

    // The first item of a node from a move on.
    #[inline(always)]
    fn first(&mut self, root: NodeRef<'d>, from: usize, steps: &mut Steps) -> Option<NodeRef<'d>>
        requires trail { IsTrail self.old }
        requires within { from ≤ length self.old.moves.items }
        ensures draws { Draws (walked (drop from self.old.moves.items) (node_value root.entry)) (pulled result) (stack_left self.new.moves.items self.new.frames.items) steps.old steps.new }
        ensures same { self.new.moves ≡ self.old.moves }
        ensures trail { IsTrail self.new }
    {
        self.frames.clear();
        match descend(&self.moves, root, from, steps) {
            Descent::Item => Some(root),
            Descent::Nothing => None,
            Descent::Children(at) => {
                let frame = Frame {
                    left: root.children(),
                    at,
                };
                next_in(&self.moves, &mut self.frames, frame, steps)
            }
        }
    }

    /// The next item.
    #[inline(always)]
    pub(crate) fn put_next(&mut self, steps: &mut Steps, place: &mut Item<'d>) -> Answer
        requires { IsTrail self.old }
        ensures draws { Draws (stack_left self.old.moves.items self.old.frames.items) (answer_value result place.new) (stack_left self.new.moves.items self.new.frames.items) steps.old steps.new }
        ensures same { self.new.moves ≡ self.old.moves }
        ensures trail { IsTrail self.new }
    {
        put_node(self.next(steps), place)
    }

    #[inline(always)]
    fn next(&mut self, steps: &mut Steps) -> Option<NodeRef<'d>>
        requires { IsTrail self.old }
        ensures draws { Draws (stack_left self.old.moves.items self.old.frames.items) (pulled result) (stack_left self.new.moves.items self.new.frames.items) steps.old steps.new }
        ensures same { self.new.moves ≡ self.old.moves }
        ensures trail { IsTrail self.new }
    {
        match self.frames.pop() {
            Some(frame) => next_in(&self.moves, &mut self.frames, frame, steps),
            None => None,
        }
    }
}

// Puts a node that was found into a place.
#[inline(always)]
fn put_node<'d>(found: Option<NodeRef<'d>>, place: &mut Item<'d>) -> Answer
    ensures { answer_value result place.new ≡ pulled found.entry }
{
    match found {
        Some(node) => {
            *place = Item::Node(node);
            Answer::Item
        }
        None => Answer::End,
    }
}

// How far an item that is no node comes by itself.
fn land<'d>(moves: &[Move<'d>], root: &Item<'d>, steps: &mut Steps) -> Landing<'d>
    requires { IsMade root.now }
    ensures leads { Leads (walked moves.now (item_value root.now)) steps.old (landing_left moves.now result) steps.new }
    ensures within { LandsWithin (length moves.now) result }
{
    let mut item = *root;
    let mut at = 0;
    'moves: while at < moves.len() {
        if let Item::Node(node) = item {
            return Landing::Node(node, at);
        }
        match moves[at].on_made(&item, steps) {
            Some(found) => item = found,
            None => return Landing::Nothing,
        }
        at += 1;
    }
    Landing::Item(item)
}

// The next item of a frame, or else of those around it.
#[inline(always)]
fn next_in<'d>(
    moves: &[Move<'d>],
    frames: &mut Vec<Frame<'d>>,
    mut frame: Frame<'d>,
    steps: &mut Steps,
) -> Option<NodeRef<'d>>
    requires { IsRoomy moves.now (vec_capacity frames.old) frames.old.items frame }
    ensures draws { Draws (join (frame_left moves.now frame.entry) (stack_left moves.now frames.old.items)) (pulled result) (stack_left moves.now frames.new.items) steps.old steps.new }
    ensures room { vec_capacity frames.new ≡ vec_capacity frames.old }
    ensures stacked { Stacked (length moves.now) 0 frames.new.items }
{
    'frames: loop {
        let from = frame.at + 1;
        match next_child(&moves[frame.at], &mut frame.left, steps) {
            None => match frames.pop() {
                Some(outer) => frame = outer,
                None => return None,
            },
            Some(child) => match descend(moves, child, from, steps) {
                Descent::Item => {
                    frames.push_reserved(frame);
                    return Some(child);
                }
                Descent::Nothing => {}
                Descent::Children(at) => {
                    frames.push_reserved(frame);
                    frame = Frame {
                        left: child.children(),
                        at,
                    };
                }
            },
        }
    }
}

// The next child that a move goes on with.
#[inline(always)]
fn next_child<'d>(
    action: &Move<'d>,
    left: &mut Children<'d>,
    steps: &mut Steps,
) -> Option<NodeRef<'d>>
    ensures gives { Gives action.now result left.old left.new }
    ensures step { steps.new ≤ raised steps.old (length left.old - length left.new) }
    ensures fewer { IfSome result (λ _. length left.new < length left.old) }
{
    match action {
        Move::Member(key) => left.next_under(key, steps),
        Move::Unwrap | Move::Filter(_) => match left.next(steps) {
            Some(child) => Some(child.node),
            None => None,
        },
    }
}

// How far a node comes by itself from a move on.
#[inline(always)]
fn descend<'d>(moves: &[Move<'d>], node: NodeRef<'d>, from: usize, steps: &mut Steps) -> Descent
    requires { from ≤ length moves.now }
    ensures leads { Leads (walked (drop from moves.now) (node_value node.entry)) steps.old (descent_left moves.now node.entry result) steps.new }
    ensures within { StaysWithin from (length moves.now) result }
{
    let mut at = from;
    'moves: while at < moves.len() {
        match moves[at].way(node, steps) {
            Way::Straight => at += 1,
            Way::Nowhere => return Descent::Nothing,
            Way::Down => return Descent::Children(at),
        }
    }
    Descent::Item
}
