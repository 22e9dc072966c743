// The items of a path, one at a time: expressions, and what is done with each item.
ghost use Rattle.std.specs.Prelude.{◌≡◌, ◌≤◌, false};
ghost use Rattle.sj_base.specs.Count.{raised};
ghost use Rattle.sj_path_tree.specs.declared.parts.Mode.{Mode as PathMode};
ghost use Rattle.sj_item.specs.Items.{item_value};
ghost use Rattle.sj_step.specs.Answers.{answer_value};
ghost use Rattle.sj_step.specs.Reach.{unwrap};
ghost use Rattle.sj_step.specs.Trace.{stop, only};
ghost use Rattle.sj_walk.specs.Walk.{walk_left};
ghost use Rattle.sj_cursor.specs.Cells.{env_value};
ghost use Rattle.sj_plain_path.specs.Openings.{opened};
ghost use Rattle.sj_cursor.specs.Draws.{Draws};
ghost use Rattle.sj_cursor.specs.Left as left_of;
ghost use Rattle.sj_cursor.specs.Left.{operand_whole, operand_core, operand_left, done, doing};
ghost use Rattle.sj_plain_path.specs.Looks.{Finds, look_value};
ghost use Rattle.sj_cursor.specs.Numbers.{operand_in, subscript_in};
ghost use Rattle.sj_cursor.specs.Single.{need, single};

use crate::cells::{Cell, Each, Filter, Operand, Operator};
use crate::env::Env;
use crate::look::{single_operand, single_subscript};
use sj_base::{State, Steps};
use sj_decimal::Decimal;
use sj_doc::Kind;
use sj_item::{Item, Truth};
use sj_method::operand;
use sj_path_tree::Mode;
use sj_plain_path::{Found, Limit, Look, Opening};
use sj_step::{Answer, Reach};
use sj_walk::Walk;

impl<'d> Cell<'d> {
    /// The next item of the cell's trace, or its end.
    #[cycle(next)]
    #[inline(always)]
    pub(crate) fn next(
        &mut self,
        env: &Env<'_, 'd>,
        steps: &mut Steps,
        place: &mut Item<'d>,
    ) -> Answer
        ensures answers { Draws (left_of.left self.old (env_value env.now)) (answer_value result place.new) (left_of.left self.new (env_value env.now)) steps.old steps.new }
        ensures same { left_of.core self.new ≡ left_of.core self.old }
    {
        match self {
            Cell::One(one) => one.next(env, place),
            Cell::Each(each) => each.next(env, steps, place),
            Cell::Binary(binary) => binary.next(env, steps, place),
        }
    }
}

// Whether an item is an array that may be unwrapped. Any other item is taken as it is.
fn may_open(how: Opening, item: &Item<'_>) -> bool
    ensures { result ≡ false → (mode : PathMode) → opened how mode (item_value item.now) ≡ only (item_value item.now) }
{
    match how {
        Opening::AsItIs => false,
        Opening::Unwrapped => is_array(item),
    }
}

#[tactic(auto, using(sj_plain_path::proofs::NotUnwrapped::unopened, sj_plain_path::proofs::NotUnwrapped::made_unopened))]
pub(crate) fn is_array(item: &Item<'_>) -> bool
    ensures { result ≡ false → (mode : PathMode) → unwrap mode (item_value item.now) ≡ only (item_value item.now) }
{
    match item {
        Item::Node(node) => match node.kind() {
            Kind::Array => true,
            _ => false,
        },
        _ => false,
    }
}

// An item that is taken as it is, or unwrapped in lax mode.
fn open<'d>(how: Opening, mode: Mode, item: Item<'d>) -> Walk<'d>
    ensures { walk_left result ≡ opened how mode (item_value item.entry) }
{
    match how {
        Opening::AsItIs => Walk::of_item(item),
        Opening::Unwrapped => Walk::start(Reach::Unwrap, item, mode),
    }
}

impl<'d> Operand<'d> {
    #[inline(never)]
    pub(crate) fn reopen(&mut self, how: Opening, mode: Mode, item: &Item<'d>)
        ensures opened { walk_left self.new.opened ≡ opened how mode (item_value item.now) }
        ensures same { self.new.cell ≡ self.old.cell }
    {
        self.opened = open(how, mode, *item);
    }

    #[cycle(next)]
    #[inline(always)]
    pub(crate) fn next(
        &mut self,
        how: Opening,
        env: &Env<'_, 'd>,
        steps: &mut Steps,
        place: &mut Item<'d>,
    ) -> Answer
        ensures answers { Draws (operand_left how self.old (env_value env.now)) (answer_value result place.new) (operand_left how self.new (env_value env.now)) steps.old steps.new }
        ensures same { operand_core self.new ≡ operand_core self.old }
    {
        'items: loop {
            match self.opened.put_next(steps, place) {
                Answer::End => {}
                answer => return answer,
            }
            match self.cell.next(env, steps, place) {
                Answer::Item => {
                    // Most items are no arrays: these are given without a walk.
                    if !may_open(how, place) {
                        return Answer::Item;
                    }
                    self.reopen(how, env.mode, place);
                }
                answer => return answer,
            }
        }
    }

    // From the beginning until enough was found.
    #[cycle(next)]
    pub(crate) fn look(
        &mut self,
        how: Opening,
        limit: Limit,
        env: &Env<'_, 'd>,
        steps: &mut Steps,
    ) -> Look<'d>
        ensures finds { Finds limit (operand_whole how (operand_core self.old) (env_value env.now)) (look_value result) steps.old steps.new }
        ensures same { operand_core self.new ≡ operand_core self.old }
    {
        if let Some(keyed) = self.keyed(env) {
            return keyed.look(how, limit, steps);
        }
        self.rewind(env);
        let mut found = Found::Nothing;
        let mut place = Item::Null;
        'looking: loop {
            match self.next(how, env, steps, &mut place) {
                Answer::Item => {
                    found = found.more(place);
                    if found.is_enough(limit) {
                        return Look { found, fault: None };
                    }
                }
                Answer::End => return Look { found, fault: None },
                Answer::Fault(state) => {
                    return Look {
                        found,
                        fault: Some(state),
                    };
                }
            }
        }
    }

    // The operand of arithmetic. Most are members, literals and arithmetic themselves, which need no walk over items.
    #[cycle(next)]
    pub(crate) fn number(&mut self, env: &Env<'_, 'd>, steps: &mut Steps) -> Result<Decimal, State>
        ensures answers { result ≡ operand_in (single env.now.mode State.S22038 (operand_whole Opening.Unwrapped (operand_core self.old) (env_value env.now))) }
        ensures costs { steps.new ≤ raised steps.old (need env.now.mode 2 (operand_whole Opening.Unwrapped (operand_core self.old) (env_value env.now))) }
        ensures same { operand_core self.new ≡ operand_core self.old }
    {
        let limit = Limit::of_single(env.mode);
        if let Some(keyed) = self.keyed(env) {
            return single_operand(keyed.look_in_place(Opening::Unwrapped, limit, steps));
        }
        if let Some(item) = self.literal() {
            return operand(*item);
        }
        if let Cell::Binary(binary) = &mut *self.cell {
            return binary.number(env, steps);
        }
        let look = self.look(Opening::Unwrapped, limit, env, steps);
        single_operand(look)
    }

    // The subscript.
    #[cycle(next)]
    pub(crate) fn index(&mut self, env: &Env<'_, 'd>, steps: &mut Steps) -> Result<i128, State>
        ensures answers { result ≡ subscript_in (single env.now.mode State.S22033 (operand_whole Opening.AsItIs (operand_core self.old) (env_value env.now))) }
        ensures costs { steps.new ≤ raised steps.old (need env.now.mode 2 (operand_whole Opening.AsItIs (operand_core self.old) (env_value env.now))) }
        ensures same { operand_core self.new ≡ operand_core self.old }
    {
        let look = self.look(Opening::AsItIs, Limit::of_single(env.mode), env, steps);
        single_subscript(look)
    }
}

impl<'d> Each<'d> {
    #[cycle(next)]
    #[inline(never)]
    pub(crate) fn next(
        &mut self,
        env: &Env<'_, 'd>,
        steps: &mut Steps,
        place: &mut Item<'d>,
    ) -> Answer
        ensures answers { Draws (left_of.each_left self.old (env_value env.now)) (answer_value result place.new) (left_of.each_left self.new (env_value env.now)) steps.old steps.new }
        ensures same { left_of.each_core self.new ≡ left_of.each_core self.old }
    {
        'items: loop {
            match self.operator.next(env, steps, place) {
                Answer::End => {}
                answer => return answer,
            }
            match self.input.next(self.operator.opening(), env, steps, place) {
                Answer::Item => match self.operator.begin(env, steps, place) {
                    Answer::End => {}
                    answer => return answer,
                },
                answer => return answer,
            }
        }
    }
}

impl<'d> Operator<'d> {
    pub(crate) fn opening(&self) -> Opening
        ensures { result ≡ left_of.doing_opening (doing self.now) }
    {
        match self {
            Operator::Simple(applied) => applied.simple.opening(),
            Operator::Filter(_) => Opening::Unwrapped,
            Operator::Elements(_) => Opening::AsItIs,
        }
    }

    // What is left of the item at hand.
    #[cycle(next)]
    #[inline(always)]
    pub(crate) fn next(
        &mut self,
        env: &Env<'_, 'd>,
        steps: &mut Steps,
        place: &mut Item<'d>,
    ) -> Answer
        ensures answers { Draws (left_of.operator_left self.old (env_value env.now)) (answer_value result place.new) (left_of.operator_left self.new (env_value env.now)) steps.old steps.new }
        ensures same { doing self.new ≡ doing self.old }
    {
        match self {
            Operator::Simple(applied) => applied.left.next(steps, place),
            Operator::Filter(_) => Answer::End,
            Operator::Elements(elements) => elements.next(env, steps, place),
        }
    }

    // Takes the item at the place in hand, and gives the first of what is done with it.
    #[cycle(next)]
    #[inline(always)]
    pub(crate) fn begin(
        &mut self,
        env: &Env<'_, 'd>,
        steps: &mut Steps,
        place: &mut Item<'d>,
    ) -> Answer
        ensures answers { Draws (done (doing self.old) (env_value env.now) (item_value place.old)) (answer_value result place.new) (left_of.operator_left self.new (env_value env.now)) steps.old steps.new }
        ensures same { doing self.new ≡ doing self.old }
    {
        match self {
            Operator::Simple(applied) => applied.begin(env.mode, steps, place),
            Operator::Filter(filter) => filter.begin(env, steps, place),
            Operator::Elements(elements) => elements.begin(env, steps, place),
        }
    }
}

// The answer of a filter on an item.
fn kept(truth: Truth) -> Answer
    ensures { result ≡ left_of.kept_answer truth }
{
    match truth {
        Truth::True => Answer::Item,
        Truth::False | Truth::Unknown => Answer::End,
    }
}

impl<'d> Filter<'d> {
    // The item, where its predicate is true.
    #[cycle(next)]
    #[inline(always)]
    pub(crate) fn begin(&mut self, env: &Env<'_, 'd>, steps: &mut Steps, place: &Item<'d>) -> Answer
        ensures answers { Draws (done (left_of.Keeps (left_of.filter_core self.old)) (env_value env.now) (item_value place.now)) (answer_value result place.now) stop steps.old steps.new }
        ensures same { left_of.filter_core self.new ≡ left_of.filter_core self.old }
    {
        // (each item is lent again: in a cycle of calls the borrow checker covers no reference that is only passed on)
        let inner = Env {
            mode: env.mode,
            vars: env.vars,
            root: &*env.root,
            context: &*place,
            last: env.last,
        };
        kept(self.test.holds(&inner, steps))
    }
}
