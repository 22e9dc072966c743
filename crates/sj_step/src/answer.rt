// What comes next of a sequence, where its item is put into a place.
ghost use Rattle.std.specs.Prelude.{◌≡◌};
ghost use Rattle.sj_item.specs.Items.{pull_value};
ghost use Rattle.sj_step.specs.Answers.{answer_value};

use sj_base::State;
use sj_item::{Item, Pull};

/// What came next of a sequence. Its item, where there is one, was put into the place that was given: an item is large,
/// and on its way through the parts of a path it is not copied from one to the next. Contracts see an answer and the
/// item at the place as the `answer_value`, which is that of a [`Pull`].
#[derive(Clone, Copy)]
pub enum Answer {
    /// One more item, which is at the place.
    Item,
    /// There is none left.
    End,
    /// The sequence ends here, in this state.
    Fault(State),
}

impl Answer {
    /// The answer with its item.
    pub fn pull<'d>(self, place: &Item<'d>) -> Pull<'d>
        ensures { pull_value result ≡ answer_value self place.now }
    {
        match self {
            Answer::Item => Pull::Item(*place),
            Answer::End => Pull::End,
            Answer::Fault(state) => Pull::Fault(state),
        }
    }
}
