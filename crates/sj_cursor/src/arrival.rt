// Where the accessors of a plain path come from an item that is no node, as a row of JSON_TABLE may have.
ghost use Rattle.std.specs.Prelude.{◌≡◌};
ghost use Rattle.sj_cursor.specs.Arrivals.{arrived};
ghost use Rattle.sj_cursor.specs.Trails.{GivesOne, IsMade};
ghost use Rattle.sj_item.specs.Items.{item_value};
ghost use Rattle.sj_plain_path.specs.Chains.{below, linked};
ghost use Rattle.sj_plain_path.specs.Looks.{Finds, look_value};

use crate::moves::made_member;
use sj_base::Steps;
use sj_doc::NodeRef;
use sj_item::Item;
use sj_plain_path::{Chain, Found, Limit, Link, Look, Opening, look_below};

/// Where accessors come from such an item. Each of them comes to one item at most, and to a node only by the member of a made pair.
#[derive(Clone, Copy)]
pub(crate) enum Arrival<'a, 'd> {
    /// At an item, at their end.
    Item(Item<'d>),
    /// At nothing.
    Nothing,
    /// At a node, on which these accessors are left.
    Node(&'a [Link<'d>], NodeRef<'d>),
}

// What an accessor gives of an item that is no node.
fn link_on_made<'d>(link: &Link<'d>, item: &Item<'d>) -> Option<Item<'d>>
    requires { IsMade item.now }
    ensures { GivesOne (linked link.now (item_value item.now)) result }
{
    match link {
        Link::Member(key) => made_member(item, key),
        Link::AllElements => Some(*item),
        Link::Element(index) => { if *index == 0 { Some(*item) } else { None } }
    }
}

// Where accessors come from an item that is no node. No node is handed out.
fn arrive<'a, 'd>(links: &'a [Link<'d>], root: &Item<'d>) -> Arrival<'a, 'd>
    requires { IsMade root.now }
    ensures { below Opening.AsItIs links.now (item_value root.now) ≡ arrived result }
{
    let mut item = *root;
    let mut rest = links;
    'links: while let [link, behind @ ..] = rest {
        if let Item::Node(node) = item {
            return Arrival::Node(rest, node);
        }
        match link_on_made(link, &item) {
            Some(found) => item = found,
            None => return Arrival::Nothing,
        }
        rest = behind;
    }
    Arrival::Item(item)
}

/// The items of a plain path on any item, from the first one on until enough was found. The counter rises by no more than the children
/// of nodes that are handed out before.
#[inline(always)]
pub(crate) fn look_on<'d>(
    chain: &Chain<'d>,
    root: &Item<'d>,
    limit: Limit,
    steps: &mut Steps,
) -> Look<'d>
    ensures { Finds limit (below Opening.AsItIs chain.now.links.items (item_value root.now)) (look_value result) steps.old steps.new }
{
    match root {
        Item::Node(node) => chain.look(*node, limit, steps),
        _ => look_on_made(chain.links(), root, limit, steps),
    }
}

// The same on an item that is no node.
#[inline(never)]
fn look_on_made<'d>(
    links: &[Link<'d>],
    root: &Item<'d>,
    limit: Limit,
    steps: &mut Steps,
) -> Look<'d>
    requires { IsMade root.now }
    ensures { Finds limit (below Opening.AsItIs links.now (item_value root.now)) (look_value result) steps.old steps.new }
{
    match arrive(links, root) {
        Arrival::Item(item) => Look {
            found: Found::One(item),
            fault: None,
        },
        Arrival::Nothing => Look {
            found: Found::Nothing,
            fault: None,
        },
        Arrival::Node(rest, node) => look_below(Opening::AsItIs, rest, node, limit, steps),
    }
}
