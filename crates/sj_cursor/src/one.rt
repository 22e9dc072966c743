// One item.
ghost use Rattle.std.specs.Prelude.{◌≡◌};
ghost use Rattle.sj_base.specs.Count.{raised};
ghost use Rattle.sj_item.specs.Items.{item_value};
ghost use Rattle.sj_step.specs.Answers.{answer_value};
ghost use Rattle.sj_step.specs.Trace.{first, rest};
ghost use Rattle.sj_cursor.specs.Cells.{env_value, source_value, one_left, source_expr};
ghost use Rattle.sj_step.specs.Literals.{literal_item as item_of};
ghost use Rattle.sj_cursor.specs.Meaning.{variable_of, initial_value};

use crate::cells::{Made, One, Source};
use crate::env::Env;
use sj_item::{Exact, Item};
use sj_path_tree::{Initial, Literal, Vars};
use sj_step::{Answer, whole_number};

impl<'d> Source<'d> {
    #[inline(always)]
    pub(crate) fn put(self, env: &Env<'_, 'd>, place: &mut Item<'d>)
        ensures { item_value place.new ≡ source_value self.entry (env_value env.now) }
    {
        match self {
            Source::Root => *place = *env.root,
            Source::Context => *place = *env.context,
            Source::Last => *place = Item::Num(whole_number(env.last)),
            Source::Lit(made) => *place = made.item,
            Source::Var(name) => *place = variable_item(env.vars, name),
        }
    }
}

/// A literal with its item.
pub(crate) fn made<'d>(literal: &'d Literal) -> Made<'d>
    ensures { result.literal ≡ literal.entry }
{
    Made {
        literal,
        item: literal_item(literal),
    }
}

fn literal_item<'d>(literal: &'d Literal) -> Item<'d>
    ensures { item_value result ≡ item_of literal.now }
{
    match literal {
        Literal::Text(text) => Item::Text(text.as_str()),
        Literal::Num(number) => Item::Num(Exact::new(*number)),
        Literal::Bool(truth) => Item::Bool(*truth),
        Literal::Null => Item::Null,
    }
}

// The value of a variable, which is there where the variables cover the path.
#[inline(never)]
fn variable_item<'d>(vars: &'d Vars, name: &str) -> Item<'d>
    ensures { item_value result ≡ variable_of vars.now name.now }
{
    match vars.get(name) {
        Some(literal) => literal_item(literal),
        None => Item::Null,
    }
}

/// The string that `starts with` looks for.
pub(crate) fn initial_item<'d>(initial: &'d Initial, env: &Env<'_, 'd>) -> Item<'d>
    ensures { item_value result ≡ initial_value (env_value env.now) initial.now }
{
    match initial {
        Initial::Lit(text) => Item::Text(text.as_str()),
        Initial::Var(name) => variable_item(env.vars, name.as_str()),
    }
}

impl<'d> One<'d> {
    #[inline(always)]
    pub(crate) fn next(&mut self, env: &Env<'_, 'd>, place: &mut Item<'d>) -> Answer
        ensures answers { answer_value result place.new ≡ first (one_left self.old (env_value env.now)) }
        ensures leaves { one_left self.new (env_value env.now) ≡ rest (one_left self.old (env_value env.now)) }
        ensures same { self.new.source ≡ self.old.source }
    {
        if self.given {
            return Answer::End;
        }
        self.given = true;
        self.source.put(env, place);
        Answer::Item
    }
}
