// What the items of a path are taken for, and what was taken of them.
ghost use Rattle.std.specs.Prelude.{◌≡◌, false};
ghost use Rattle.sj_plain_path.specs.Chains.{node_value};
ghost use Rattle.sj_plain_path.specs.Looks as looks;
ghost use Rattle.sj_plain_path.specs.Takers.{taken_value, with_item, suffices};

use crate::look::{FoundNodes, Limit};
use crate::opening::Opening;
use crate::pairing::{Beside, Pairing};
use sj_doc::NodeRef;
use sj_item::Item;

/// What items are taken for.
#[derive(Clone, Copy)]
pub(crate) enum Aim<'a, 'd> {
    /// They are looked for, up to a limit.
    Look(Limit),
    /// Their pairs with what stands beside them are seen; where it is set, up to the first true one.
    Pairs(bool, Beside<'a, 'd>),
}

/// How items are opened, and what they are taken for.
#[derive(Clone, Copy)]
pub(crate) struct Search<'a, 'd> {
    pub(crate) how: Opening,
    pub(crate) aim: Aim<'a, 'd>,
}

/// What was taken so far. Of the two an aim needs one.
#[derive(Clone, Copy)]
pub(crate) struct Gathered<'d> {
    pub(crate) nodes: FoundNodes<'d>,
    pub(crate) pairing: Pairing,
}

impl<'d> Gathered<'d> {
    /// Nothing so far.
    #[inline(always)]
    pub(crate) fn nothing() -> Gathered<'d>
        ensures nodes { looks.nodes_value result.nodes ≡ looks.none_found }
        ensures pairing { result.pairing ≡ record { found = false; doubt = false } }
    {
        Gathered {
            nodes: FoundNodes::Nothing,
            pairing: Pairing {
                found: false,
                doubt: false,
            },
        }
    }

    /// One more item, a node. It tells whether this is enough.
    #[inline(always)]
    pub(crate) fn take(&mut self, aim: &Aim<'_, 'd>, node: NodeRef<'d>) -> bool
        ensures more { taken_value aim.now self.new ≡ with_item (taken_value aim.now self.old) (node_value node.entry) }
        ensures enough { result ≡ suffices (taken_value aim.now self.new) }
    {
        match aim {
            Aim::Look(limit) => {
                self.nodes = self.nodes.more(node);
                self.nodes.is_enough(*limit)
            }
            Aim::Pairs(early, beside) => {
                self.pairing = self.pairing.saw(beside.truth(&Item::Node(node)));
                self.pairing.halts(*early)
            }
        }
    }
}
