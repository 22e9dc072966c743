// The members of a made pair.
ghost use Rattle.std.specs.Prelude.{◌≡◌, false, MatchOption};
ghost use Rattle.sj_item.specs.Items.{item_value, pair_held, pair_id, pair_item};
ghost use Rattle.sj_path_tree.specs.declared.parts.Mode.{Mode as PathMode};
ghost use Rattle.sj_step.specs.Answers.{answer_value};
ghost use Rattle.sj_step.specs.Reach.{id_item, members_end, members_under};
ghost use Rattle.sj_step.specs.Trace.{first, only, rest};
ghost use Rattle.sj_walk.specs.Walk.{parts_left};

use sj_item::{Item, Pair, PairValue};
use sj_step::{Answer, PairPart, whole_number};

/// A walk over the members of a made pair. It hands out no node.
#[derive(Clone, Copy)]
pub(crate) struct Parts<'d> {
    pub(crate) pair: Pair<'d>,
    pub(crate) part: PairPart,
}

/// The member of a made pair under a key, `name`, `value` or `id`. It hands out no node.
pub fn part_under<'d>(key: &str, pair: Pair<'d>) -> Option<Item<'d>>
    ensures { (mode : PathMode) → MatchOption result (members_under mode key.now (pair_item pair.entry) ≡ members_end mode false) (λ x. members_under mode key.now (pair_item pair.entry) ≡ only (item_value x)) }
{
    if "name" == key {
        return Some(Item::Text(pair.name()));
    }
    if "value" == key {
        return Some(value_of(pair));
    }
    if "id" == key {
        return Some(id_of(pair));
    }
    None
}

/// The value of a pair, as an item.
pub(crate) fn value_of(pair: Pair<'_>) -> Item<'_>
    ensures { item_value result ≡ pair_held pair.entry }
{
    match pair.value() {
        PairValue::Node(node) => Item::Node(node),
        PairValue::Text(text) => Item::Text(text),
        PairValue::Num(number) => Item::Num(whole_number(number as i128)),
    }
}

/// The id of a pair, as an item.
pub(crate) fn id_of(pair: Pair<'_>) -> Item<'_>
    ensures { item_value result ≡ id_item (pair_id pair.entry) }
{
    Item::Num(whole_number(pair.id() as i128))
}

impl<'d> Parts<'d> {
    pub(crate) fn next(&mut self, place: &mut Item<'d>) -> Answer
        ensures answers { answer_value result place.new ≡ first (parts_left self.old) }
        ensures leaves { parts_left self.new ≡ rest (parts_left self.old) }
    {
        match self.part {
            PairPart::Name => {
                self.part = PairPart::Value;
                *place = Item::Text(self.pair.name());
                Answer::Item
            }
            PairPart::Value => {
                self.part = PairPart::Id;
                *place = value_of(self.pair);
                Answer::Item
            }
            PairPart::Id => {
                self.part = PairPart::Nothing;
                *place = id_of(self.pair);
                Answer::Item
            }
            PairPart::Nothing => Answer::End,
        }
    }
}
