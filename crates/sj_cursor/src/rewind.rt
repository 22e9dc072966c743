// Back to the beginning, wherever a cell stands.
ghost use Rattle.std.specs.Prelude.{◌≡◌, true};
ghost use Rattle.sj_path_tree.specs.Tree as tree;
ghost use Rattle.sj_item.specs.Items.{item_value};
ghost use Rattle.sj_step.specs.Trace.{stop, only};
ghost use Rattle.sj_cursor.specs.Cells.{env_value};
ghost use Rattle.sj_cursor.specs.Left as left_of;
ghost use Rattle.sj_cursor.specs.Left.{operand_whole, operand_core, operand_left, doing, done};
ghost use Rattle.sj_cursor.specs.Meaning.{Env as Surroundings};
ghost use Rattle.sj_cursor.specs.Meaning.{meaning};
ghost use Rattle.sj_plain_path.specs.declared.opening.Opening.{Opening as HowOpened};

use crate::cells::{At, Cell, Each, Operand, Operator, Reached, Source};
use crate::env::Env;
use crate::next::is_array;
use sj_item::Item;
use sj_plain_path::Opening;
use sj_walk::Walk;

impl<'d> Cell<'d> {
    /// Back to the beginning, wherever the cell stands.
    #[cycle(rewind)]
    pub(crate) fn rewind(&mut self, env: &Env<'_, 'd>)
        ensures whole { left_of.left self.new (env_value env.now) ≡ meaning (left_of.core self.old) (env_value env.now) }
        ensures same { left_of.core self.new ≡ left_of.core self.old }
    {
        match self {
            Cell::One(one) => one.given = false,
            Cell::Each(each) => each.rewind(env),
            Cell::Binary(binary) => binary.reached = Reached::Unasked,
        }
    }
}

impl<'d> Operand<'d> {
    #[cycle(rewind)]
    pub(crate) fn rewind(&mut self, env: &Env<'_, 'd>)
        ensures whole { (how : HowOpened) → operand_left how self.new (env_value env.now) ≡ operand_whole how (operand_core self.old) (env_value env.now) }
        ensures same { operand_core self.new ≡ operand_core self.old }
    {
        self.cell.rewind(env);
        self.opened = Walk::ended();
    }

    // Whether it is `$`.
    #[inline(always)]
    fn is_root(&self) -> bool
        ensures { result ≡ true → operand_core self.now ≡ tree.Root }
    {
        match &*self.cell {
            Cell::One(one) => match one.source {
                Source::Root => true,
                _ => false,
            },
            Cell::Each(_) | Cell::Binary(_) => false,
        }
    }

    // Goes to its end, where it is `$` and this is no array. It tells whether it does.
    #[tactic(auto, using(crate::proofs::SingleItems::root_is_one))]
    #[inline(always)]
    fn take_root(&mut self, env: &Env<'_, 'd>) -> bool
        ensures whole { result ≡ true → operand_whole Opening.Unwrapped (operand_core self.old) (env_value env.now) ≡ only (item_value env.now.root.now) }
        ensures left { result ≡ true → (how : HowOpened) → operand_left how self.new (env_value env.now) ≡ stop }
        ensures same { operand_core self.new ≡ operand_core self.old }
    {
        if !self.is_root() {
            return false;
        }
        if is_array(env.root) {
            return false;
        }
        match &mut *self.cell {
            Cell::One(one) => one.given = true,
            Cell::Each(_) | Cell::Binary(_) => return false,
        }
        self.opened = Walk::ended();
        true
    }
}

impl<'d> Each<'d> {
    #[cycle(rewind)]
    pub(crate) fn rewind(&mut self, env: &Env<'_, 'd>)
        ensures whole { left_of.each_left self.new (env_value env.now) ≡ meaning (left_of.each_core self.old) (env_value env.now) }
        ensures same { left_of.each_core self.new ≡ left_of.each_core self.old }
    {
        if self.rewind_to_root(env) {
            return;
        }
        self.input.rewind(env);
        self.operator.clear();
    }

    // Where `$` is its one item, what is done with that begins at once. It tells whether it does.
    #[inline(always)]
    fn rewind_to_root(&mut self, env: &Env<'_, 'd>) -> bool
        ensures whole { result ≡ true → left_of.each_left self.new (env_value env.now) ≡ meaning (left_of.each_core self.old) (env_value env.now) }
        ensures same { left_of.each_core self.new ≡ left_of.each_core self.old }
    {
        match self.operator.opening() {
            Opening::AsItIs => return false,
            Opening::Unwrapped => {}
        }
        if !self.input.take_root(env) {
            return false;
        }
        self.operator.take(env, env.root)
    }
}

impl<'d> Operator<'d> {
    // Takes an item in hand, where that asks no cell. It tells whether it does.
    #[inline(always)]
    fn take(&mut self, env: &Env<'_, 'd>, item: &Item<'d>) -> bool
        ensures begun { result ≡ true → left_of.operator_left self.new (env_value env.now) ≡ done (doing self.old) (env_value env.now) (item_value item.now) }
        ensures same { doing self.new ≡ doing self.old }
    {
        match self {
            Operator::Simple(applied) => {
                applied.take(env.mode, item);
                true
            }
            Operator::Filter(_) | Operator::Elements(_) => false,
        }
    }

    // There is no item at hand.
    pub(crate) fn clear(&mut self)
        ensures clear { (env : Surroundings) → left_of.operator_left self.new env ≡ stop }
        ensures same { doing self.new ≡ doing self.old }
    {
        match self {
            Operator::Simple(applied) => applied.clear(),
            Operator::Filter(_) => {}
            Operator::Elements(elements) => elements.at = At::Nothing,
        }
    }
}
