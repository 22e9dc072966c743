// Lists of subscripts, part by part.
ghost use Rattle.std.specs.Prelude.{◌≡◌};
ghost use Rattle.sj_item.specs.Items.{ItemValue, item_value};
ghost use Rattle.sj_step.specs.Answers.{answer_value};
ghost use Rattle.sj_walk.specs.Walk.{walk_left};
ghost use Rattle.sj_cursor.specs.Cells.{env_value};
ghost use Rattle.sj_cursor.specs.Draws.{Draws, Approaches};
ghost use Rattle.sj_cursor.specs.Left as left_of;
ghost use Rattle.sj_cursor.specs.Left.{operand_core, done};
ghost use Rattle.sj_cursor.specs.Meaning.{Env as Surroundings};
ghost use Rattle.sj_cursor.specs.Meaning.{part, parts as parts_trace};
ghost use Rattle.sj_path_tree.specs.Tree.{One as one_of};

use crate::cells::{
    At, Bounds, Elements, MoreParts, Operand, Part, Parts, Range, Reached, Subscripted,
};
use crate::env::Env;
use sj_base::{State, Steps};
use sj_item::Item;
use sj_path_tree::Mode;
use sj_step::{Answer, Reach, last_index};
use sj_walk::Walk;

// Where a list of subscripts stands on an item.
fn spot<'d>(mode: Mode, item: Item<'d>) -> At<'d>
    ensures { left_of.IsPlaced mode (item_value item.entry) result }
{
    match last_index(item, mode) {
        Some(last) => At::On(Subscripted { item, last }),
        None => At::Refused(State::S22039),
    }
}

impl<'d> Elements<'d> {
    #[cycle(next)]
    #[inline(never)]
    pub(crate) fn next(
        &mut self,
        env: &Env<'_, 'd>,
        steps: &mut Steps,
        place: &mut Item<'d>,
    ) -> Answer
        ensures answers { Draws (left_of.elements_left self.old (env_value env.now)) (answer_value result place.new) (left_of.elements_left self.new (env_value env.now)) steps.old steps.new }
        ensures same { left_of.elements_core self.new ≡ left_of.elements_core self.old }
    {
        match &self.at {
            At::Nothing => Answer::End,
            At::Refused(state) => Answer::Fault(*state),
            At::On(spot) => {
                let inner = env.at_last(spot.last);
                self.parts.next(&inner, &spot.item, steps, place)
            }
        }
    }

    #[cycle(next)]
    #[inline(never)]
    pub(crate) fn begin(
        &mut self,
        env: &Env<'_, 'd>,
        steps: &mut Steps,
        place: &mut Item<'d>,
    ) -> Answer
        ensures answers { Draws (done (left_of.Picks (left_of.elements_core self.old)) (env_value env.now) (item_value place.old)) (answer_value result place.new) (left_of.elements_left self.new (env_value env.now)) steps.old steps.new }
        ensures same { left_of.elements_core self.new ≡ left_of.elements_core self.old }
    {
        self.start(env.mode, *place);
        self.next(env, steps, place)
    }

    pub(crate) fn start(&mut self, mode: Mode, item: Item<'d>)
        ensures starts { (env : Surroundings) → env.mode ≡ mode → left_of.elements_left self.new env ≡ done (left_of.Picks (left_of.elements_core self.old)) env (item_value item.entry) }
        ensures same { left_of.elements_core self.new ≡ left_of.elements_core self.old }
    {
        self.parts.reset();
        self.at = spot(mode, item);
    }
}

impl<'d> Parts<'d> {
    #[cycle(next)]
    pub(crate) fn next(
        &mut self,
        env: &Env<'_, 'd>,
        item: &Item<'d>,
        steps: &mut Steps,
        place: &mut Item<'d>,
    ) -> Answer
        ensures answers { Draws (left_of.parts_left self.old (env_value env.now) (item_value item.now)) (answer_value result place.new) (left_of.parts_left self.new (env_value env.now) (item_value item.now)) steps.old steps.new }
        ensures same { left_of.parts_core self.new ≡ left_of.parts_core self.old }
    {
        match self {
            Parts::Empty => Answer::End,
            Parts::Only(part) => part.next(env, item, steps, place),
            Parts::More(more) => more.next(env, item, steps, place),
        }
    }

    // All are to be asked again.
    #[cycle(reset)]
    pub(crate) fn reset(&mut self)
        ensures whole { (env : Surroundings) (x : ItemValue) → left_of.parts_left self.new env x ≡ parts_trace (left_of.parts_core self.old) env x }
        ensures same { left_of.parts_core self.new ≡ left_of.parts_core self.old }
    {
        match self {
            Parts::Empty => {}
            Parts::Only(part) => part.reached = Reached::Unasked,
            Parts::More(more) => {
                more.first.reached = Reached::Unasked;
                more.others.reset();
            }
        }
    }
}

impl<'d> MoreParts<'d> {
    #[cycle(next)]
    pub(crate) fn next(
        &mut self,
        env: &Env<'_, 'd>,
        item: &Item<'d>,
        steps: &mut Steps,
        place: &mut Item<'d>,
    ) -> Answer
        ensures answers { Draws (left_of.more_left self.old (env_value env.now) (item_value item.now)) (answer_value result place.new) (left_of.more_left self.new (env_value env.now) (item_value item.now)) steps.old steps.new }
        ensures same { left_of.more_core self.new ≡ left_of.more_core self.old }
    {
        match self.first.next(env, item, steps, place) {
            Answer::End => self.others.next(env, item, steps, place),
            answer => answer,
        }
    }
}

impl<'d> Part<'d> {
    #[cycle(next)]
    pub(crate) fn next(
        &mut self,
        env: &Env<'_, 'd>,
        item: &Item<'d>,
        steps: &mut Steps,
        place: &mut Item<'d>,
    ) -> Answer
        ensures answers { Draws (left_of.part_left self.old (env_value env.now) (item_value item.now)) (answer_value result place.new) (left_of.part_left self.new (env_value env.now) (item_value item.now)) steps.old steps.new }
        ensures same { left_of.part_core self.new ≡ left_of.part_core self.old }
    {
        match &mut self.reached {
            Reached::Walk(walk) => walk.put_next(steps, place),
            Reached::Unasked => {
                let mut walk = self.bounds.start(env, *item, steps);
                let answer = walk.put_next(steps, place);
                self.reached = Reached::Walk(walk);
                answer
            }
        }
    }
}

// The elements from one subscript to another, or the fault of the first that has one.
fn range_between<'d>(
    from: Result<i128, State>,
    to: Result<i128, State>,
    mode: Mode,
    item: Item<'d>,
) -> Walk<'d>
    ensures { walk_left result ≡ left_of.range_between from to mode (item_value item.entry) }
{
    match from {
        Ok(from) => match to {
            Ok(to) => Walk::start(Reach::Range(from, to), item, mode),
            Err(state) => Walk::of_fault(state),
        },
        Err(state) => Walk::of_fault(state),
    }
}

// The element at a subscript, or the subscript's fault.
fn element_at<'d>(index: Result<i128, State>, mode: Mode, item: Item<'d>) -> Walk<'d>
    ensures { walk_left result ≡ left_of.element_at index mode (item_value item.entry) }
{
    match index {
        Ok(index) => Walk::start(Reach::Range(index, index), item, mode),
        Err(state) => Walk::of_fault(state),
    }
}

impl<'d> Bounds<'d> {
    // What the subscripts reach of an item.
    #[cycle(next)]
    pub(crate) fn start(&mut self, env: &Env<'_, 'd>, item: Item<'d>, steps: &mut Steps) -> Walk<'d>
        ensures starts { Approaches (part (left_of.bounds_core self.old) (env_value env.now) (item_value item.entry)) steps.old (walk_left result) steps.new }
        ensures same { left_of.bounds_core self.new ≡ left_of.bounds_core self.old }
    {
        match self {
            Bounds::One(operand) => operand.element(env, item, steps),
            Bounds::Range(range) => range.start(env, item, steps),
        }
    }
}

impl<'d> Operand<'d> {
    // The element of an item at this subscript.
    #[cycle(next)]
    pub(crate) fn element(
        &mut self,
        env: &Env<'_, 'd>,
        item: Item<'d>,
        steps: &mut Steps,
    ) -> Walk<'d>
        ensures starts { Approaches (part (one_of (operand_core self.old)) (env_value env.now) (item_value item.entry)) steps.old (walk_left result) steps.new }
        ensures same { operand_core self.new ≡ operand_core self.old }
    {
        let index = self.index(env, steps);
        element_at(index, env.mode, item)
    }
}

impl<'d> Range<'d> {
    #[cycle(next)]
    pub(crate) fn start(&mut self, env: &Env<'_, 'd>, item: Item<'d>, steps: &mut Steps) -> Walk<'d>
        ensures starts { Approaches (part (left_of.range_core self.old) (env_value env.now) (item_value item.entry)) steps.old (walk_left result) steps.new }
        ensures same { left_of.range_core self.new ≡ left_of.range_core self.old }
    {
        let from = self.from.index(env, steps);
        match from {
            Ok(_) => {
                let to = self.to.index(env, steps);
                range_between(from, to, env.mode, item)
            }
            Err(state) => Walk::of_fault(state),
        }
    }
}
