// The members under a key.
ghost use Rattle.std.specs.Prelude.{◌≡◌, true};
ghost use Rattle.sj_step.specs.Trace.{stop};
ghost use Rattle.sj_step.specs.Answers.{answer_value};
ghost use Rattle.sj_step.specs.Takes.{Takes};
ghost use Rattle.sj_walk.specs.Walk.{members_left};

use sj_base::{State, Steps};
use sj_doc::Children;
use sj_item::Item;
use sj_path_tree::Mode;
use sj_step::Answer;

/// A walk over the members of an object that gives those under a key.
#[derive(Drop)]
pub(crate) struct Members<'d> {
    pub(crate) mode: Mode,
    pub(crate) key: &'d str,
    /// Whether a member was under the key so far.
    pub(crate) found: bool,
    pub(crate) left: Children<'d>,
}

impl<'d> Members<'d> {
    pub(crate) fn next(&mut self, steps: &mut Steps, place: &mut Item<'d>) -> Answer
        ensures { Takes (members_left self.old) (answer_value result place.new) (members_left self.new) steps.old steps.new }
    {
        if let Some(member) = self.left.next_under(self.key, steps) {
            self.found = true;
            *place = Item::Node(member);
            return Answer::Item;
        }
        match self.mode {
            Mode::Strict if !self.found => Answer::Fault(State::S2203A),
            _ => Answer::End,
        }
    }

    // Whether the last member was given. There is no fault behind it.
    #[inline(always)]
    pub(crate) fn is_over(&self) -> bool
        ensures { result ≡ true → members_left self.now ≡ stop }
    {
        self.found && self.left.is_at_end()
    }
}
