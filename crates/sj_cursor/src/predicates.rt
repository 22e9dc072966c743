// The truth of a predicate, with the pairs of a comparison.
ghost use Rattle.std.specs.Prelude.{◌≡◌, ℕ, Bool, true, IfSome};
ghost use Rattle.sj_item.specs.Items.{item_value};
ghost use Rattle.sj_item.specs.Pairs.{items_compare};
ghost use Rattle.sj_step.specs.Trace.{only};
ghost use Rattle.sj_cursor.specs.Cells.{env_value};
ghost use Rattle.sj_plain_path.specs.Pairings.{beside_truth, PairingSeen};
ghost use Rattle.sj_cursor.specs.Decides.{Decides};
ghost use Rattle.sj_cursor.specs.Left as left_of;
ghost use Rattle.sj_cursor.specs.Left.{operand_whole, operand_core};
ghost use Rattle.sj_cursor.specs.Meaning.{Env as Surroundings};
ghost use Rattle.sj_cursor.specs.Meaning.{verdict};
ghost use Rattle.sj_cursor.specs.PairingsSeen.{PairingsSeen};
ghost use Rattle.sj_cursor.specs.Asked.{Asked};
ghost use Rattle.sj_path_tree.specs.Tree.{Exists as exists_of};

use crate::cells::{Both, Cell, Comparison, Operand, Source, Start, Test};
use crate::env::Env;
use crate::next::is_array;
use crate::one::initial_item;
use crate::pairing::{Pairings, is_early};
use sj_base::Steps;
use sj_item::{Item, Truth};
use sj_plain_path::{Beside, Limit, Opening, Pairing};
use sj_step::Answer;

impl<'d> Test<'d> {
    #[cycle(next)]
    #[inline(always)]
    pub(crate) fn holds(&mut self, env: &Env<'_, 'd>, steps: &mut Steps) -> Truth
        ensures decides { Decides (verdict (left_of.test_core self.old) (env_value env.now)) result steps.old steps.new }
        ensures same { left_of.test_core self.new ≡ left_of.test_core self.old }
    {
        // Most predicates are one comparison.
        match self {
            Test::Compare(comparison) => comparison.holds(env, steps),
            _ => self.holds_of_any(env, steps),
        }
    }

    // The same of any predicate.
    #[cycle(next)]
    #[inline(never)]
    pub(crate) fn holds_of_any(&mut self, env: &Env<'_, 'd>, steps: &mut Steps) -> Truth
        ensures decides { Decides (verdict (left_of.test_core self.old) (env_value env.now)) result steps.old steps.new }
        ensures same { left_of.test_core self.new ≡ left_of.test_core self.old }
    {
        match self {
            Test::Compare(comparison) => comparison.holds(env, steps),
            Test::And(both) => both.and(env, steps),
            Test::Or(both) => both.or(env, steps),
            Test::Not(test) => test.holds(env, steps).not(),
            Test::IsUnknown(test) => is_unknown(test.holds(env, steps)),
            Test::Exists(operand) => operand.exists(env, steps),
            Test::StartsWith(start) => start.holds(env, steps),
        }
    }
}

fn is_unknown(truth: Truth) -> Truth
    ensures { result ≡ left_of.unknown_truth truth }
{
    match truth {
        Truth::Unknown => Truth::True,
        Truth::True | Truth::False => Truth::False,
    }
}

impl<'d> Operand<'d> {
    #[cycle(next)]
    #[inline(never)]
    pub(crate) fn exists(&mut self, env: &Env<'_, 'd>, steps: &mut Steps) -> Truth
        ensures decides { Decides (verdict (exists_of (operand_core self.old)) (env_value env.now)) result steps.old steps.new }
        ensures same { operand_core self.new ≡ operand_core self.old }
    {
        let limit = Limit::of_exists(env.mode);
        // Most operands are one member of `@`: what is found of it needs no place of its own.
        if let Some(keyed) = self.keyed(env) {
            return keyed.look_in_place(Opening::AsItIs, limit, steps).exists();
        }
        self.look(Opening::AsItIs, limit, env, steps).exists()
    }
}

impl<'d> Operand<'d> {
    // Puts its one item into the place, where it is a literal, a variable or the like and no array. It tells whether it is.
    #[tactic(auto, using(crate::proofs::SingleItems::whole_is_one))]
    #[inline(always)]
    pub(crate) fn put_one(&self, env: &Env<'_, 'd>, place: &mut Item<'d>) -> bool
        ensures { result ≡ true → operand_whole Opening.Unwrapped (operand_core self.now) (env_value env.now) ≡ only (item_value place.new) }
    {
        let Cell::One(one) = &*self.cell else {
            return false;
        };
        one.source.put(env, place);
        if is_array(place) {
            return false;
        }
        true
    }

    // The item of a literal, where it stands.
    #[tactic(auto, using(crate::proofs::SingleItems::literal_is_one))]
    #[inline(always)]
    pub(crate) fn literal(&self) -> Option<&Item<'d>>
        ensures { IfSome result (λ item. (env : Surroundings) → operand_whole Opening.Unwrapped (operand_core self.now) env ≡ only (item_value item.now)) }
    {
        match &*self.cell {
            Cell::One(one) => match &one.source {
                Source::Lit(made) => Some(&made.item),
                _ => None,
            },
            Cell::Each(_) | Cell::Binary(_) => None,
        }
    }

    // The pair of its one item with what stands beside it, where it is such an operand: no walk is needed.
    #[tactic(auto, using(crate::proofs::SingleItems::one_seen))]
    pub(crate) fn see_one(&self, beside: Beside<'_, 'd>, env: &Env<'_, 'd>) -> Option<Pairing>
        ensures { IfSome result (λ pairing. (early : Bool) (steps : ℕ) → PairingSeen early (beside_truth beside.entry) (operand_whole Opening.Unwrapped (operand_core self.now) (env_value env.now)) pairing.found pairing.doubt steps steps) }
    {
        let mut place = Item::Null;
        if !self.put_one(env, &mut place) {
            return None;
        }
        let pairing = Pairing {
            found: false,
            doubt: false,
        };
        Some(pairing.saw(beside.truth(&place)))
    }

    // The pairs of its items with what stands beside them; with `early`, up to the first true one.
    #[cycle(next)]
    #[inline(always)]
    pub(crate) fn see_pairing(
        &mut self,
        early: bool,
        beside: Beside<'_, 'd>,
        env: &Env<'_, 'd>,
        steps: &mut Steps,
    ) -> Pairing
        ensures seen { PairingSeen early (beside_truth beside.entry) (operand_whole Opening.Unwrapped (operand_core self.old) (env_value env.now)) result.found result.doubt steps.old steps.new }
        ensures same { operand_core self.new ≡ operand_core self.old }
    {
        // Most operands are one member of `@`, and need no cell.
        if let Some(keyed) = self.keyed(env) {
            return keyed.see_pairing(early, beside, steps);
        }
        self.see_pairing_by_cells(early, beside, env, steps)
    }

    // The same out of line, for those that few predicates ask. Each function that it is inlined into has room on the stack for it.
    #[cycle(next)]
    #[inline(never)]
    pub(crate) fn see_pairing_apart(
        &mut self,
        early: bool,
        beside: Beside<'_, 'd>,
        env: &Env<'_, 'd>,
        steps: &mut Steps,
    ) -> Pairing
        ensures seen { PairingSeen early (beside_truth beside.entry) (operand_whole Opening.Unwrapped (operand_core self.old) (env_value env.now)) result.found result.doubt steps.old steps.new }
        ensures same { operand_core self.new ≡ operand_core self.old }
    {
        self.see_pairing(early, beside, env, steps)
    }

    // The same, asked of its cells.
    #[cycle(next)]
    #[inline(never)]
    pub(crate) fn see_pairing_by_cells(
        &mut self,
        early: bool,
        beside: Beside<'_, 'd>,
        env: &Env<'_, 'd>,
        steps: &mut Steps,
    ) -> Pairing
        ensures seen { PairingSeen early (beside_truth beside.entry) (operand_whole Opening.Unwrapped (operand_core self.old) (env_value env.now)) result.found result.doubt steps.old steps.new }
        ensures same { operand_core self.new ≡ operand_core self.old }
    {
        if let Some(pairing) = self.see_one(beside, env) {
            return pairing;
        }
        self.rewind(env);
        let mut pairing = Pairing {
            found: false,
            doubt: false,
        };
        let mut place = Item::Null;
        'pairing: loop {
            match self.next(Opening::Unwrapped, env, steps, &mut place) {
                Answer::Item => {
                    pairing = pairing.saw(beside.truth(&place));
                    if pairing.halts(early) {
                        return pairing;
                    }
                }
                Answer::End => return pairing,
                Answer::Fault(_) => {
                    return Pairing {
                        found: pairing.found,
                        doubt: true,
                    };
                }
            }
        }
    }
}

impl<'d> Both<'d> {
    // The right side is not asked where the left one is false.
    #[cycle(next)]
    pub(crate) fn and(&mut self, env: &Env<'_, 'd>, steps: &mut Steps) -> Truth
        ensures decides { Decides (verdict (left_of.both_and self.old) (env_value env.now)) result steps.old steps.new }
        ensures same { left_of.both_and self.new ≡ left_of.both_and self.old }
    {
        let left = self.left.holds(env, steps);
        match left {
            Truth::False => Truth::False,
            _ => left.and(self.right.holds(env, steps)),
        }
    }

    // The right side is not asked where the left one is true.
    #[cycle(next)]
    pub(crate) fn or(&mut self, env: &Env<'_, 'd>, steps: &mut Steps) -> Truth
        ensures decides { Decides (verdict (left_of.both_or self.old) (env_value env.now)) result steps.old steps.new }
        ensures same { left_of.both_or self.new ≡ left_of.both_or self.old }
    {
        let left = self.left.holds(env, steps);
        match left {
            Truth::True => Truth::True,
            _ => left.or(self.right.holds(env, steps)),
        }
    }
}

impl<'d> Start<'d> {
    #[cycle(next)]
    #[inline(never)]
    pub(crate) fn holds(&mut self, env: &Env<'_, 'd>, steps: &mut Steps) -> Truth
        ensures decides { Decides (verdict (left_of.start_core self.old) (env_value env.now)) result steps.old steps.new }
        ensures same { left_of.start_core self.new ≡ left_of.start_core self.old }
    {
        let early = is_early(env.mode);
        let initial = initial_item(self.initial, env);
        let beside = Beside::Initial(&initial);
        self.text
            .see_pairing_apart(early, beside, env, steps)
            .truth(early)
    }
}

impl<'d> Comparison<'d> {
    // All pairs; with `early`, up to the first true one.
    #[cycle(next)]
    pub(crate) fn see_pairings(
        &mut self,
        early: bool,
        env: &Env<'_, 'd>,
        steps: &mut Steps,
    ) -> Pairings
        ensures seen { PairingsSeen early (items_compare self.old.op) (operand_whole Opening.Unwrapped (operand_core self.old.left) (env_value env.now)) (operand_whole Opening.Unwrapped (operand_core self.old.right) (env_value env.now)) result.found result.doubt result.some steps.old steps.new }
        ensures same { left_of.comparison_core self.new ≡ left_of.comparison_core self.old }
    {
        self.left.rewind(env);
        let mut pairings = Pairings {
            found: false,
            doubt: false,
            some: false,
        };
        let mut place = Item::Null;
        'pairings: loop {
            match self.left.next(Opening::Unwrapped, env, steps, &mut place) {
                Answer::Item => {
                    let beside = Beside::Left(self.op, &place);
                    pairings = pairings.saw(
                        self.right.see_pairing_apart(early, beside, env, steps),
                    );
                    if pairings.halts(early) {
                        return pairings;
                    }
                }
                Answer::End => return pairings,
                Answer::Fault(_) => {
                    return Pairings {
                        found: pairings.found,
                        doubt: true,
                        some: pairings.some,
                    };
                }
            }
        }
    }

    // Whether the right operand ends in a fault, asked where the left one gave no item.
    #[cycle(next)]
    pub(crate) fn asks_right(&mut self, some: bool, env: &Env<'_, 'd>, steps: &mut Steps) -> bool
        ensures asked { Asked some (operand_whole Opening.Unwrapped (operand_core self.old.right) (env_value env.now)) result steps.old steps.new }
        ensures same { left_of.comparison_core self.new ≡ left_of.comparison_core self.old }
    {
        if some {
            return false;
        }
        self.right
            .look(Opening::Unwrapped, Limit::End, env, steps)
            .fault
            .is_some()
    }

    #[cycle(next)]
    #[inline(never)]
    pub(crate) fn holds(&mut self, env: &Env<'_, 'd>, steps: &mut Steps) -> Truth
        ensures decides { Decides (verdict (left_of.comparison_core self.old) (env_value env.now)) result steps.old steps.new }
        ensures same { left_of.comparison_core self.new ≡ left_of.comparison_core self.old }
    {
        // Most right operands are literals, which are lent as they stand.
        if let Some(item) = self.right.literal() {
            let early = is_early(env.mode);
            let beside = Beside::Right(self.op, item);
            return self
                .left
                .see_pairing(early, beside, env, steps)
                .truth(early);
        }
        self.holds_beside_any(env, steps)
    }

    // The same, where the right operand is no literal.
    #[cycle(next)]
    #[inline(never)]
    pub(crate) fn holds_beside_any(&mut self, env: &Env<'_, 'd>, steps: &mut Steps) -> Truth
        ensures decides { Decides (verdict (left_of.comparison_core self.old) (env_value env.now)) result steps.old steps.new }
        ensures same { left_of.comparison_core self.new ≡ left_of.comparison_core self.old }
    {
        let early = is_early(env.mode);
        let mut place = Item::Null;
        if self.right.put_one(env, &mut place) {
            let beside = Beside::Right(self.op, &place);
            return self
                .left
                .see_pairing_apart(early, beside, env, steps)
                .truth(early);
        }
        self.holds_pairwise(env, steps)
    }

    // The same, where the right operand may be several items.
    #[cycle(next)]
    #[inline(never)]
    pub(crate) fn holds_pairwise(&mut self, env: &Env<'_, 'd>, steps: &mut Steps) -> Truth
        ensures decides { Decides (verdict (left_of.comparison_core self.old) (env_value env.now)) result steps.old steps.new }
        ensures same { left_of.comparison_core self.new ≡ left_of.comparison_core self.old }
    {
        let early = is_early(env.mode);
        let pairings = self.see_pairings(early, env, steps);
        if pairings.halts(early) {
            return Truth::True;
        }
        let faulty = self.asks_right(pairings.some, env, steps);
        pairings.truth(faulty)
    }
}
