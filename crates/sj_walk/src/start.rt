// An accessor on an item, from its start.
ghost use Rattle.std.specs.Prelude.{◌≡◌, ◌+◌, ◌-◌, ◌^◌, ◌&&◌, ◌||◌, false, pos, ◌-ℤ◌, ◌≤ℤ◌, ◌<ℤ◌, int_le, int_lt, unsigned_abs, length};
ghost use Rattle.std.specs.Int.{int_min, int_max};
ghost use Rattle.sj_json.specs.Tree.{children};
ghost use Rattle.sj_doc.specs.Listed.{node_id, node_tree};
ghost use Rattle.sj_item.specs.Items.{item_value, pair_item, node as node_value};
ghost use Rattle.sj_step.specs.Reach.{reach_value, on_array, on_object, on_scalar, children_of, every_of, members_under, range as range_of, lax_range, strict_range, range_of_one, elements_of_one, structural_error, between, unwrap_array};
ghost use Rattle.sj_step.specs.Reach.{reach as reach_of};
ghost use Rattle.sj_walk.specs.Walk.{walk_left};

use crate::elements::Elements;
use crate::members::Members;
use crate::parts::{Parts, part_under};
use crate::walk::{Left, Walk};
use sj_base::State;
use sj_doc::{Kind, NodeRef};
use sj_item::{Item, Pair};
use sj_path_tree::Mode;
use sj_step::{PairPart, Reach};

impl<'d> Walk<'d> {
    /// The walk over what is reached of an item. In strict mode a fault is left where the item does not fit: 2203C
    /// where a member is reached of what is no object, 22039 where an element is reached of what is no array, and 22033
    /// where a range does not lie in the array; 2203A comes behind the members where none has the key.
    #[tactic(auto, unfolding(sj_step::specs::Reach::reach))]
    pub fn start(reach: Reach<'d>, item: Item<'d>, mode: Mode) -> Walk<'d>
        ensures { walk_left result ≡ reach_of (reach_value reach.entry) mode (item_value item.entry) }
    {
        match item {
            Item::Node(node) => Walk::on_node(reach, node, mode),
            Item::Pair(pair) => Walk::on_pair(reach, pair, mode),
            _ => Walk::on_scalar(reach, item, mode),
        }
    }

    /// Begins anew, on another item, as `start` does.
    #[tactic(auto, unfolding(sj_step::specs::Reach::reach))]
    #[inline(always)]
    pub fn restart(&mut self, reach: Reach<'d>, item: &Item<'d>, mode: Mode)
        ensures { walk_left self.new ≡ reach_of (reach_value reach.entry) mode (item_value item.now) }
    {
        // The accessors that most paths are made of are begun in place, since a walk is large.
        if let Item::Node(node) = item {
            match (reach, node.kind()) {
                (Reach::Member(key), Kind::Object) => return self.restart_members(key, *node, mode),
                (Reach::AllElements, Kind::Array) => return self.restart_every(*node),
                _ => {}
            }
        }
        self.restart_any(reach, *item, mode);
    }

    #[inline(never)]
    fn restart_any(&mut self, reach: Reach<'d>, item: Item<'d>, mode: Mode)
        ensures { walk_left self.new ≡ reach_of (reach_value reach.entry) mode (item_value item.entry) }
    {
        *self = Walk::start(reach, item, mode);
    }

    #[tactic(auto, unfolding(sj_step::specs::Reach::reach))]
    fn on_node(reach: Reach<'d>, node: NodeRef<'d>, mode: Mode) -> Walk<'d>
        ensures { walk_left result ≡ reach_of (reach_value reach.entry) mode (node_value (node_id node.entry) (node_tree node.entry)) }
    {
        match node.kind() {
            Kind::Array => Walk::on_array(reach, node, mode),
            Kind::Object => Walk::on_object(reach, node, mode),
            _ => Walk::on_scalar(reach, Item::Node(node), mode),
        }
    }

    fn on_array(reach: Reach<'d>, node: NodeRef<'d>, mode: Mode) -> Walk<'d>
        ensures { walk_left result ≡ on_array (reach_value reach.entry) mode (node_value (node_id node.entry) (node_tree node.entry)) }
    {
        match reach {
            Reach::Member(_) | Reach::AllMembers => Walk::structural_error(State::S2203C, mode),
            Reach::AllElements => Walk::every(node),
            Reach::Range(from, to) => Walk::range(from, to, node, mode),
            Reach::Unwrap => Walk::unwrap_array(node, mode),
        }
    }

    fn on_object(reach: Reach<'d>, node: NodeRef<'d>, mode: Mode) -> Walk<'d>
        ensures { walk_left result ≡ on_object (reach_value reach.entry) mode (node_value (node_id node.entry) (node_tree node.entry)) }
    {
        match reach {
            Reach::Member(key) => Walk::members(key, node, mode),
            Reach::AllMembers => Walk::every(node),
            _ => Walk::on_scalar(reach, Item::Node(node), mode),
        }
    }

    fn on_pair(reach: Reach<'d>, pair: Pair<'d>, mode: Mode) -> Walk<'d>
        ensures { walk_left result ≡ on_object (reach_value reach.entry) mode (pair_item pair.entry) }
    {
        match reach {
            Reach::Member(key) => Walk::part(key, pair, mode),
            Reach::AllMembers => Walk::parts(pair),
            _ => Walk::on_scalar(reach, Item::Pair(pair), mode),
        }
    }

    // On an item that has no children, or none of the kind that is reached.
    fn on_scalar(reach: Reach<'d>, item: Item<'d>, mode: Mode) -> Walk<'d>
        ensures { walk_left result ≡ on_scalar (reach_value reach.entry) mode (item_value item.entry) }
    {
        match reach {
            Reach::Member(_) | Reach::AllMembers => Walk::structural_error(State::S2203C, mode),
            Reach::AllElements => Walk::elements_of_one(item, mode),
            Reach::Range(from, to) => Walk::range_of_one(from, to, item, mode),
            Reach::Unwrap => Walk::of_item(item),
        }
    }

    fn structural_error(state: State, mode: Mode) -> Walk<'d>
        ensures { walk_left result ≡ structural_error mode state }
    {
        match mode {
            Mode::Lax => Walk::ended(),
            Mode::Strict => Walk::of_fault(state),
        }
    }

    fn elements_of_one(item: Item<'d>, mode: Mode) -> Walk<'d>
        ensures { walk_left result ≡ elements_of_one mode (item_value item.entry) }
    {
        match mode {
            Mode::Lax => Walk::of_item(item),
            Mode::Strict => Walk::of_fault(State::S22039),
        }
    }

    fn range_of_one(from: i128, to: i128, item: Item<'d>, mode: Mode) -> Walk<'d>
        ensures { walk_left result ≡ range_of_one mode from to (item_value item.entry) }
    {
        match mode {
            Mode::Lax => if has_first(from, to) {
                Walk::of_item(item)
            } else {
                Walk::ended()
            },
            Mode::Strict => Walk::of_fault(State::S22039),
        }
    }
}

// Whether 0 is among the indices from one to another.
fn has_first(from: i128, to: i128) -> bool
    ensures { result ≡ (int_le from (pos 0) && int_le (pos 0) to) }
{
    from <= 0 && 0 <= to
}

// The walks over children.
#[tactic(auto, unfolding(crate::specs::Walk::walk_left))]
impl<'d> Walk<'d> {
    #[inline(always)]
    fn restart_members(&mut self, key: &'d str, node: NodeRef<'d>, mode: Mode)
        ensures { walk_left self.new ≡ members_under mode key.entry.now (node_value (node_id node.entry) (node_tree node.entry)) }
    {
        self.left = Left::Keyed(Members {
            mode,
            key,
            found: false,
            left: node.children(),
        });
    }

    #[inline(always)]
    fn restart_every(&mut self, node: NodeRef<'d>)
        ensures { walk_left self.new ≡ every_of (node_value (node_id node.entry) (node_tree node.entry)) }
    {
        self.left = Left::Every(node.children());
    }

    fn every(node: NodeRef<'d>) -> Walk<'d>
        ensures { walk_left result ≡ every_of (node_value (node_id node.entry) (node_tree node.entry)) }
    {
        Walk {
            left: Left::Every(node.children()),
        }
    }

    fn unwrap_array(node: NodeRef<'d>, mode: Mode) -> Walk<'d>
        ensures { walk_left result ≡ unwrap_array mode (node_value (node_id node.entry) (node_tree node.entry)) }
    {
        match mode {
            Mode::Lax => Walk::every(node),
            Mode::Strict => Walk::of_item(Item::Node(node)),
        }
    }

    fn members(key: &'d str, node: NodeRef<'d>, mode: Mode) -> Walk<'d>
        ensures { walk_left result ≡ members_under mode key.entry.now (node_value (node_id node.entry) (node_tree node.entry)) }
    {
        Walk {
            left: Left::Keyed(Members {
                mode,
                key,
                found: false,
                left: node.children(),
            }),
        }
    }

    fn parts(pair: Pair<'d>) -> Walk<'d>
        ensures { walk_left result ≡ every_of (pair_item pair.entry) }
    {
        Walk {
            left: Left::Made(Parts {
                pair,
                part: PairPart::Name,
            }),
        }
    }

    // The names of the three differ, so at most one of them is reached.
    fn part(key: &'d str, pair: Pair<'d>, mode: Mode) -> Walk<'d>
        ensures { walk_left result ≡ members_under mode key.entry.now (pair_item pair.entry) }
    {
        match part_under(key, pair) {
            Some(item) => Walk::of_item(item),
            None => Walk::structural_error(State::S2203A, mode),
        }
    }
}

// The ranges.
impl<'d> Walk<'d> {
    fn range(from: i128, to: i128, node: NodeRef<'d>, mode: Mode) -> Walk<'d>
        ensures { walk_left result ≡ range_of mode from to (children_of (node_value (node_id node.entry) (node_tree node.entry))) }
    {
        match mode {
            Mode::Lax => Walk::lax_range(from, to, node),
            Mode::Strict => Walk::strict_range(from, to, node),
        }
    }

    fn lax_range(from: i128, to: i128, node: NodeRef<'d>) -> Walk<'d>
        ensures { walk_left result ≡ lax_range from to (children_of (node_value (node_id node.entry) (node_tree node.entry))) }
    {
        let start = not_below_first(from);
        let end = not_above_last(to, last_of(node));
        if end < start {
            return Walk::ended();
        }
        Walk::elements(start, end, node)
    }

    fn strict_range(from: i128, to: i128, node: NodeRef<'d>) -> Walk<'d>
        ensures { walk_left result ≡ strict_range from to (children_of (node_value (node_id node.entry) (node_tree node.entry))) }
    {
        if is_outside(from, to, last_of(node)) {
            return Walk::of_fault(State::S22033);
        }
        Walk::elements(from, to, node)
    }

    // The elements from one index to another.
    fn elements(start: i128, end: i128, node: NodeRef<'d>) -> Walk<'d>
        requires positive { pos 0 ≤ℤ start }
        requires ordered { start ≤ℤ end }
        requires within { end <ℤ pos (length (children (node_tree node))) }
        requires short { end <ℤ pos (2 ^ 64 - 1) }
        ensures { walk_left result ≡ between (unsigned_abs start) (unsigned_abs end + 1) (children_of (node_value (node_id node.entry) (node_tree node.entry))) }
    {
        Walk {
            left: Left::Ranged(Elements {
                skip: start as u64,
                count: (end - start) as u64 + 1,
                left: node.children(),
            }),
        }
    }
}

// The last index of an array, -1 where it is empty.
fn last_of(node: NodeRef<'_>) -> i128
    ensures last { result ≡ pos (length (children (node_tree node.entry))) -ℤ pos 1 }
    ensures short { result <ℤ pos (2 ^ 64 - 1) }
{
    node.len() as i128 - 1
}

fn not_below_first(index: i128) -> i128
    ensures { result ≡ int_max index (pos 0) }
{
    if 0 < index { index } else { 0 }
}

fn not_above_last(index: i128, last: i128) -> i128
    ensures { result ≡ int_min index last }
{
    if last < index { last } else { index }
}

// Whether the indices from one to another do not all lie from 0 to the last one, or there are none.
fn is_outside(from: i128, to: i128, last: i128) -> bool
    ensures value { result ≡ (int_lt from (pos 0) || int_lt last to || int_lt to from) }
    ensures inside { result ≡ false → (pos 0 ≤ℤ from) × (from ≤ℤ to) × (to ≤ℤ last) }
{
    from < 0 || last < to || to < from
}
