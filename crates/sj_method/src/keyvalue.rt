// The pairs of an object.
ghost use Rattle.std.specs.Prelude.{◌≡◌, map, pos, negsuc};
ghost use Rattle.sj_doc.specs.Listed.{node_id, node_tree};
ghost use Rattle.sj_item.specs.Items.{item_value, pair_item, node as node_value};
ghost use Rattle.sj_step.specs.Reach.{children_of, every};
ghost use Rattle.sj_step.specs.Takes.{Takes};
ghost use Rattle.sj_step.specs.Trace.{first, rest};
ghost use Rattle.sj_method.specs.Pairs.{pairs_of, pairs_left, pair_pull, pair_of, started, members_left, made_left};

use sj_base::{State, Steps};
use sj_doc::{Children, Kind, NodeRef};
use sj_item::{Item, Pair};
use sj_step::PairPart;

/// What the method `keyvalue` has left to give of one object. Contracts see the trace that is left, `pairs_left`.
#[derive(Drop)]
pub struct PairWalk<'d> {
    left: Left<'d>,
}

#[derive(Drop)]
enum Left<'d> {
    Members(Members<'d>),
    Made(Made<'d>),
}

/// The members of a node that are left, and the node.
#[derive(Drop)]
struct Members<'d> {
    object: NodeRef<'d>,
    left: Children<'d>,
}

/// A made pair, whose own members are left from one on.
#[derive(Clone, Copy)]
struct Made<'d> {
    pair: Pair<'d>,
    part: PairPart,
}

/// The pairs of an object: for each member its key, its value and the number of the object, or -1 where the object is
/// itself a pair. An item that is no object is 2203C.
#[tactic(auto, unfolding(crate::specs::Pairs::pairs_of))]
pub fn pairs<'d>(item: Item<'d>) -> Result<PairWalk<'d>, State>
    ensures { started result ≡ pairs_of (item_value item.entry) }
{
    match item {
        Item::Node(node) => match node.kind() {
            Kind::Object => Ok(PairWalk::of_node(node)),
            _ => Err(State::S2203C),
        },
        Item::Pair(pair) => Ok(PairWalk::of_pair(pair)),
        _ => Err(State::S2203C),
    }
}

#[tactic(auto, unfolding(crate::specs::Pairs::pairs_left))]
impl<'d> PairWalk<'d> {
    /// The next pair. `None` comes exactly where all were given, and then again without a step. The counter rises by
    /// one for each member of a node, and stays as it is for those of a made pair.
    pub fn next(&mut self, steps: &mut Steps) -> Option<Pair<'d>>
        ensures { Takes (pairs_left self.old) (pair_pull result) (pairs_left self.new) steps.old steps.new }
    {
        match &mut self.left {
            Left::Members(members) => members.next(steps),
            Left::Made(made) => made.next(),
        }
    }

    fn of_node(node: NodeRef<'d>) -> PairWalk<'d>
        ensures { pairs_left result ≡ every 1 (map (pair_of (pos (node_id node.entry))) (children_of (node_value (node_id node.entry) (node_tree node.entry)))) }
    {
        PairWalk {
            left: Left::Members(Members {
                object: node,
                left: node.children(),
            }),
        }
    }

    fn of_pair(pair: Pair<'d>) -> PairWalk<'d>
        ensures { pairs_left result ≡ every 0 (map (pair_of (negsuc 0)) (children_of (pair_item pair.entry))) }
    {
        PairWalk {
            left: Left::Made(Made {
                pair,
                part: PairPart::Name,
            }),
        }
    }
}

impl<'d> Members<'d> {
    fn next(&mut self, steps: &mut Steps) -> Option<Pair<'d>>
        ensures { Takes (members_left self.old) (pair_pull result) (members_left self.new) steps.old steps.new }
    {
        match self.left.next(steps) {
            Some(member) => Some(Pair::of_member(member.node, self.object)),
            None => None,
        }
    }
}

impl<'d> Made<'d> {
    fn next(&mut self) -> Option<Pair<'d>>
        ensures answers { pair_pull result ≡ first (made_left self.old) }
        ensures leaves { made_left self.new ≡ rest (made_left self.old) }
    {
        match self.part {
            PairPart::Name => {
                self.part = PairPart::Value;
                Some(self.pair.of_name())
            }
            PairPart::Value => {
                self.part = PairPart::Id;
                Some(self.pair.of_value())
            }
            PairPart::Id => {
                self.part = PairPart::Nothing;
                Some(self.pair.of_id())
            }
            PairPart::Nothing => None,
        }
    }
}
