// Two operands, and what is made of them.
ghost use Rattle.std.specs.Prelude.{◌≡◌};
ghost use Rattle.sj_step.specs.Answers.{answer_value};
ghost use Rattle.sj_walk.specs.Walk.{walk_left};
ghost use Rattle.sj_cursor.specs.Cells.{env_value};
ghost use Rattle.sj_cursor.specs.Draws.{Draws};
ghost use Rattle.sj_cursor.specs.Left as left_of;
ghost use Rattle.sj_cursor.specs.Meaning.{meaning};
ghost use Rattle.sj_cursor.specs.Trails.{Leads};

use crate::cells::{Binary, Reached};
use crate::env::Env;
use sj_base::{State, Steps};
use sj_decimal::Decimal;
use sj_item::{Exact, Item};
use sj_method::binary;
use sj_step::Answer;
use sj_walk::Walk;

// The number as an item, or the fault in its place.
fn number_walk<'d>(found: Result<Decimal, State>) -> Walk<'d>
    ensures { walk_left result ≡ left_of.only_number found }
{
    match found {
        Ok(number) => Walk::of_item(Item::Num(Exact::new(number))),
        Err(state) => Walk::of_fault(state),
    }
}

impl<'d> Binary<'d> {
    /// The number that is made of both operands, or the fault in its place.
    #[cycle(next)]
    pub(crate) fn number(&mut self, env: &Env<'_, 'd>, steps: &mut Steps) -> Result<Decimal, State>
        ensures gives { Leads (meaning (left_of.binary_core self.old) (env_value env.now)) steps.old (left_of.only_number result) steps.new }
        ensures same { left_of.binary_core self.new ≡ left_of.binary_core self.old }
    {
        match self.left.number(env, steps) {
            Ok(left) => match self.right.number(env, steps) {
                Ok(right) => binary(self.op, left, right),
                Err(state) => Err(state),
            },
            Err(state) => Err(state),
        }
    }

    #[cycle(next)]
    #[inline(never)]
    pub(crate) fn next(
        &mut self,
        env: &Env<'_, 'd>,
        steps: &mut Steps,
        place: &mut Item<'d>,
    ) -> Answer
        ensures answers { Draws (left_of.binary_left self.old (env_value env.now)) (answer_value result place.new) (left_of.binary_left self.new (env_value env.now)) steps.old steps.new }
        ensures same { left_of.binary_core self.new ≡ left_of.binary_core self.old }
    {
        match &mut self.reached {
            Reached::Walk(walk) => walk.put_next(steps, place),
            Reached::Unasked => {
                let mut walk = number_walk(self.number(env, steps));
                let answer = walk.put_next(steps, place);
                self.reached = Reached::Walk(walk);
                answer
            }
        }
    }
}
