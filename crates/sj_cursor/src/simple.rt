// The operators that ask no cell, and what they give of an item.
ghost use Rattle.std.specs.Prelude.{◌≡◌};
ghost use Rattle.sj_base.specs.Count.{raised};
ghost use Rattle.sj_item.specs.Items.{item_value};
ghost use Rattle.sj_step.specs.Answers.{answer_value};
ghost use Rattle.sj_step.specs.Reach.{reach_value, reach as reach_of};
ghost use Rattle.sj_step.specs.Takes.{Takes};
ghost use Rattle.sj_step.specs.Trace.{stop};
ghost use Rattle.sj_walk.specs.Walk.{walk_left};
ghost use Rattle.sj_method.specs.Methods.{outcome, method_of, sign_of};
ghost use Rattle.sj_method.specs.Pairs.{key_values, pair_pull, pairs_left};
ghost use Rattle.sj_cursor.specs.Cells.{results, results_left, simple_opening};

use crate::cells::{Applied, Results, Simple};
use sj_base::{State, Steps};
use sj_item::{Item, Pair};
use sj_method::{PairWalk, apply, pairs, sign};
use sj_path_tree::{Method, Mode};
use sj_plain_path::Opening;
use sj_step::{Answer, Reach};
use sj_walk::Walk;

impl<'d> Simple<'d> {
    /// Whether the items are unwrapped before.
    pub(crate) fn opening(self) -> Opening
        ensures { result ≡ simple_opening self.entry }
    {
        match self {
            Simple::AllElements | Simple::Method(Method::TypeOf | Method::Size) => Opening::AsItIs,
            _ => Opening::Unwrapped,
        }
    }

    /// What the operator gives of an item.
    #[tactic(auto, unfolding(sj_method::specs::Methods::method_of))]
    fn start(self, mode: Mode, item: Item<'d>) -> Results<'d>
        ensures { results_left result ≡ results self.entry mode (item_value item.entry) }
    {
        match self {
            Simple::Member(key) => Results::Walk(Walk::start(Reach::Member(key), item, mode)),
            Simple::AllMembers => Results::Walk(Walk::start(Reach::AllMembers, item, mode)),
            Simple::AllElements => Results::Walk(Walk::start(Reach::AllElements, item, mode)),
            Simple::Plus => Results::Walk(walk_of(sign(false, item))),
            Simple::Minus => Results::Walk(walk_of(sign(true, item))),
            Simple::Method(Method::KeyValue) => key_values(item),
            Simple::Method(method) => Results::Walk(walk_of(apply(method, item))),
        }
    }
}

// An item, or a fault.
fn walk_of<'d>(given: Result<Item<'d>, State>) -> Walk<'d>
    ensures { walk_left result ≡ outcome given.entry }
{
    match given {
        Ok(item) => Walk::of_item(item),
        Err(state) => Walk::of_fault(state),
    }
}

#[tactic(auto, using(crate::proofs::KeyValuePairs::key_values_fault, crate::proofs::KeyValuePairs::key_values_of))]
fn key_values<'d>(item: Item<'d>) -> Results<'d>
    ensures { results_left result ≡ key_values (item_value item.entry) }
{
    match pairs(item) {
        Ok(walk) => Results::Pairs(walk),
        Err(state) => Results::Walk(Walk::of_fault(state)),
    }
}

impl<'d> Applied<'d> {
    /// Takes the item at the place in hand, and gives the first of what the operator gives of it.
    #[inline(always)]
    pub(crate) fn begin(&mut self, mode: Mode, steps: &mut Steps, place: &mut Item<'d>) -> Answer
        ensures answers { Takes (results self.old.simple mode (item_value place.old)) (answer_value result place.new) (results_left self.new.left) steps.old steps.new }
        ensures same { self.new.simple ≡ self.old.simple }
    {
        self.take(mode, place);
        self.left.next(steps, place)
    }

    /// Takes an item in hand.
    #[inline(always)]
    pub(crate) fn take(&mut self, mode: Mode, item: &Item<'d>)
        ensures starts { results_left self.new.left ≡ results self.old.simple mode (item_value item.now) }
        ensures same { self.new.simple ≡ self.old.simple }
    {
        // The two accessors that most paths are made of are begun in place.
        match self.simple {
            Simple::Member(key) => self.left.restart(Reach::Member(key), item, mode),
            Simple::AllElements => self.left.restart(Reach::AllElements, item, mode),
            _ => self.restart(mode, item),
        }
    }

    #[inline(never)]
    fn restart(&mut self, mode: Mode, item: &Item<'d>)
        ensures starts { results_left self.new.left ≡ results self.old.simple mode (item_value item.now) }
        ensures same { self.new.simple ≡ self.old.simple }
    {
        self.left = self.simple.start(mode, *item);
    }

    /// There is no item at hand.
    pub(crate) fn clear(&mut self)
        ensures clear { results_left self.new.left ≡ stop }
        ensures same { self.new.simple ≡ self.old.simple }
    {
        self.left = Results::Walk(Walk::ended());
    }
}

impl<'d> Results<'d> {
    #[inline(always)]
    fn restart(&mut self, reach: Reach<'d>, item: &Item<'d>, mode: Mode)
        ensures { results_left self.new ≡ reach_of (reach_value reach.entry) mode (item_value item.now) }
    {
        match self {
            Results::Walk(walk) => walk.restart(reach, item, mode),
            Results::Pairs(_) => self.replace(reach, item, mode),
        }
    }

    // What few paths need is kept out of the way of the others: its large values would be made room for each time.
    #[inline(never)]
    fn replace(&mut self, reach: Reach<'d>, item: &Item<'d>, mode: Mode)
        ensures { results_left self.new ≡ reach_of (reach_value reach.entry) mode (item_value item.now) }
    {
        *self = Results::Walk(Walk::start(reach, *item, mode));
    }

    #[inline(always)]
    pub(crate) fn next(&mut self, steps: &mut Steps, place: &mut Item<'d>) -> Answer
        ensures { Takes (results_left self.old) (answer_value result place.new) (results_left self.new) steps.old steps.new }
    {
        match self {
            Results::Walk(walk) => walk.put_next(steps, place),
            Results::Pairs(walk) => next_pair(walk, steps, place),
        }
    }
}

#[inline(never)]
fn next_pair<'d>(walk: &mut PairWalk<'d>, steps: &mut Steps, place: &mut Item<'d>) -> Answer
    ensures { Takes (pairs_left walk.old) (answer_value result place.new) (pairs_left walk.new) steps.old steps.new }
{
    put_pair(walk.next(steps), place)
}

fn put_pair<'d>(pair: Option<Pair<'d>>, place: &mut Item<'d>) -> Answer
    ensures { answer_value result place.new ≡ pair_pull pair.entry }
{
    match pair {
        Some(pair) => {
            *place = Item::Pair(pair);
            Answer::Item
        }
        None => Answer::End,
    }
}
