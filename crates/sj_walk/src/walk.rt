// One accessor on one item, resumable.
ghost use Rattle.std.specs.Prelude.{◌≡◌, true, map};
ghost use Rattle.sj_item.specs.Items.{item_value, pull_value};
ghost use Rattle.sj_step.specs.Answers.{answer_value};
ghost use Rattle.sj_step.specs.Reach.{reach_value, child_item, every};
ghost use Rattle.sj_step.specs.Reach.{reach as reach_of};
ghost use Rattle.sj_step.specs.Takes.{Takes};
ghost use Rattle.sj_step.specs.Trace.{stop, fail, only};
ghost use Rattle.sj_walk.specs.Walk.{walk_left, left_of};

use crate::elements::Elements;
use crate::members::Members;
use crate::parts::Parts;
use sj_base::{State, Steps};
use sj_doc::Children;
use sj_item::{Item, Pull};
use sj_step::Answer;

/// What one accessor has left to give of one item. Contracts see the trace that is left, `walk_left`.
#[derive(Drop)]
pub struct Walk<'d> {
    pub(crate) left: Left<'d>,
}

#[derive(Drop)]
pub(crate) enum Left<'d> {
    Ended,
    Failed(State),
    Single(Item<'d>),
    /// All these children.
    Every(Children<'d>),
    /// Those among the members of an object that are under a key.
    Keyed(Members<'d>),
    /// A run of the elements of an array.
    Ranged(Elements<'d>),
    /// All members of a made pair.
    Made(Parts<'d>),
}

impl<'d> Walk<'d> {
    /// The next item or, where none is left, the end. The counter rises by one for each child of a node that is handed
    /// out on the way. An end and a fault come again, without a step.
    ///
    /// The program puts the item in its place by [`Walk::put_next`]; this is for tests and for hosts.
    pub fn next(&mut self, steps: &mut Steps) -> Pull<'d>
        ensures { Takes (walk_left self.old) (pull_value result) (walk_left self.new) steps.old steps.new }
    {
        let mut place = Item::Null;
        let answer = self.put_next(steps, &mut place);
        answer.pull(&place)
    }

    /// The same, with the item put into a place, which holds anything after an end or a fault.
    #[tactic(auto, unfolding(crate::specs::Walk::walk_left))]
    #[inline(always)]
    pub fn put_next(&mut self, steps: &mut Steps, place: &mut Item<'d>) -> Answer
        ensures { Takes (walk_left self.old) (answer_value result place.new) (walk_left self.new) steps.old steps.new }
    {
        // Most walks that are asked are at their end or give children: these are told first, before room is made for what the
        // others need.
        if self.is_ended() {
            return Answer::End;
        }
        match &mut self.left {
            Left::Every(children) => next_child(children, steps, place),
            _ => self.advance(steps, place),
        }
    }

    #[tactic(auto, unfolding(crate::specs::Walk::walk_left))]
    #[inline(always)]
    fn is_ended(&self) -> bool
        ensures { result ≡ true → walk_left self.now ≡ stop }
    {
        match self.left {
            Left::Ended => true,
            _ => false,
        }
    }

    #[tactic(auto, unfolding(crate::specs::Walk::walk_left))]
    #[inline(never)]
    fn advance(&mut self, steps: &mut Steps, place: &mut Item<'d>) -> Answer
        ensures { Takes (walk_left self.old) (answer_value result place.new) (walk_left self.new) steps.old steps.new }
    {
        match &mut self.left {
            Left::Ended => Answer::End,
            Left::Failed(state) => Answer::Fault(*state),
            Left::Single(item) => {
                *place = *item;
                self.left = Left::Ended;
                Answer::Item
            }
            Left::Every(children) => next_child(children, steps, place),
            Left::Keyed(members) => {
                let answer = members.next(steps, place);
                // The walk is asked once more, and then tells without a call that it is at its end.
                if members.is_over() {
                    *self = Walk::ended();
                }
                answer
            }
            Left::Ranged(elements) => elements.next(steps, place),
            Left::Made(parts) => parts.next(place),
        }
    }
}

// The next one of the children, which all are given.
#[inline(always)]
fn next_child<'d>(children: &mut Children<'d>, steps: &mut Steps, place: &mut Item<'d>) -> Answer
    ensures { Takes (every 1 (map child_item children.old)) (answer_value result place.new) (every 1 (map child_item children.new)) steps.old steps.new }
{
    match children.next(steps) {
        Some(child) => {
            *place = Item::Node(child.node);
            Answer::Item
        }
        None => Answer::End,
    }
}

#[tactic(auto, unfolding(crate::specs::Walk::walk_left))]
impl<'d> Walk<'d> {
    /// Nothing is left.
    pub fn ended() -> Walk<'d>
        ensures { walk_left result ≡ stop }
    {
        Walk { left: Left::Ended }
    }

    /// One item is left.
    pub fn of_item(item: Item<'d>) -> Walk<'d>
        ensures { walk_left result ≡ only (item_value item.entry) }
    {
        Walk {
            left: Left::Single(item),
        }
    }

    /// A fault is left.
    pub fn of_fault(state: State) -> Walk<'d>
        ensures { walk_left result ≡ fail state }
    {
        Walk {
            left: Left::Failed(state),
        }
    }
}
