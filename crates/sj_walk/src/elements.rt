// A run of elements.
ghost use Rattle.std.specs.Prelude.{◌≡◌};
ghost use Rattle.sj_step.specs.Answers.{answer_value};
ghost use Rattle.sj_step.specs.Takes.{Takes};
ghost use Rattle.sj_walk.specs.Walk.{elements_left};

use sj_base::Steps;
use sj_doc::Children;
use sj_item::Item;
use sj_step::Answer;

/// A walk over elements that gives none of the next `skip` ones, and then `count` ones.
#[derive(Drop)]
pub(crate) struct Elements<'d> {
    pub(crate) skip: u64,
    pub(crate) count: u64,
    pub(crate) left: Children<'d>,
}

impl<'d> Elements<'d> {
    pub(crate) fn next(&mut self, steps: &mut Steps, place: &mut Item<'d>) -> Answer
        ensures { Takes (elements_left self.old) (answer_value result place.new) (elements_left self.new) steps.old steps.new }
    {
        'skipping: while self.skip > 0 {
            match self.left.next(steps) {
                Some(_) => self.skip -= 1,
                None => self.skip = 0,
            }
        }
        if self.count > 0 {
            if let Some(element) = self.left.next(steps) {
                self.count -= 1;
                *place = Item::Node(element.node);
                return Answer::Item;
            }
        }
        Answer::End
    }
}
