// Operands that are one accessor of a member on `$` or `@`, in lax mode. Their items on a node are found without cells.
ghost use Rattle.std.specs.Prelude.{◌≡◌, [], ◌∷◌, IfSome};
ghost use Rattle.sj_path_tree.specs.Tree as tree;
ghost use Rattle.sj_item.specs.Items.{item_value};
ghost use Rattle.sj_cursor.specs.Cells.{env_value, source_value};
ghost use Rattle.sj_plain_path.specs.Pairings.{beside_truth, PairingSeen};
ghost use Rattle.sj_plain_path.specs.Chains.{node_value, below};
ghost use Rattle.sj_cursor.specs.LaxNodes.{IsLaxNode};
ghost use Rattle.sj_cursor.specs.Left as left_of;
ghost use Rattle.sj_cursor.specs.Left.{operand_whole, operand_core};
ghost use Rattle.sj_plain_path.specs.Looks.{Finds, look_value};
ghost use Rattle.sj_plain_path.specs.declared.opening.Opening.{Opening as HowOpened};

use crate::cells::{Cell, Each, Operand, Operator, Simple, Source};
use crate::env::Env;
use sj_base::Steps;
use sj_doc::NodeRef;
use sj_item::Item;
use sj_path_tree::Mode;
use sj_plain_path::{Beside, Limit, Link, Look, Opening, Pairing, look_below, see_below};

/// The members of a node under a key.
#[derive(Clone, Copy)]
pub(crate) struct Keyed<'d> {
    node: NodeRef<'d>,
    key: &'d str,
}

impl<'d> Keyed<'d> {
    /// These from the first one on, until enough was found.
    pub(crate) fn look(self, how: Opening, limit: Limit, steps: &mut Steps) -> Look<'d>
        ensures { Finds limit (below how (Link.Member self.entry.key ∷ []) (node_value self.entry.node)) (look_value result) steps.old steps.new }
    {
        self.look_in_place(how, limit, steps)
    }

    /// The same, inlined where it is called.
    #[inline(always)]
    pub(crate) fn look_in_place(self, how: Opening, limit: Limit, steps: &mut Steps) -> Look<'d>
        ensures { Finds limit (below how (Link.Member self.entry.key ∷ []) (node_value self.entry.node)) (look_value result) steps.old steps.new }
    {
        look_below(how, &[Link::Member(self.key)], self.node, limit, steps)
    }

    /// Their pairs with what stands beside them; with `early`, up to the first true one.
    #[inline(always)]
    pub(crate) fn see_pairing(
        self,
        early: bool,
        beside: Beside<'_, 'd>,
        steps: &mut Steps,
    ) -> Pairing
        ensures { PairingSeen early (beside_truth beside.entry) (below Opening.Unwrapped (Link.Member self.entry.key ∷ []) (node_value self.entry.node)) result.found result.doubt steps.old steps.new }
    {
        let links = [Link::Member(self.key)];
        see_below(Opening::Unwrapped, &links, self.node, early, beside, steps)
    }
}

// The node that an item is.
#[inline(always)]
fn node_of<'d>(item: &Item<'d>) -> Option<NodeRef<'d>>
    ensures { IfSome result (λ node. item_value item.now ≡ node_value node) }
{
    match item {
        Item::Node(node) => Some(*node),
        _ => None,
    }
}

impl<'d> Source<'d> {
    // The node that `$` or `@` is.
    #[inline(always)]
    fn node(self, env: &Env<'_, 'd>) -> Option<NodeRef<'d>>
        ensures { IfSome result (λ node. source_value self.entry (env_value env.now) ≡ node_value node) }
    {
        match self {
            Source::Root => node_of(env.root),
            Source::Context => node_of(env.context),
            Source::Last | Source::Lit(_) | Source::Var(_) => None,
        }
    }
}

impl<'d> Cell<'d> {
    // The same of its source, in lax mode.
    #[tactic(auto, using(crate::proofs::SingleItems::lax_one))]
    #[inline(always)]
    fn lax_node(&self, env: &Env<'_, 'd>) -> Option<NodeRef<'d>>
        ensures { IfSome result (IsLaxNode (left_of.core self.now) (env_value env.now)) }
    {
        match env.mode {
            Mode::Lax => match self {
                Cell::One(one) => one.source.node(env),
                Cell::Each(_) | Cell::Binary(_) => None,
            },
            Mode::Strict => None,
        }
    }
}

impl<'d> Each<'d> {
    // The key of an accessor of a member.
    #[inline(always)]
    fn key(&self) -> Option<&'d str>
        ensures { IfSome result (λ key. left_of.each_core self.now ≡ tree.Access (operand_core self.now.input) (tree.Member key.now)) }
    {
        match &self.operator {
            Operator::Simple(applied) => match applied.simple {
                Simple::Member(key) => Some(key),
                _ => None,
            },
            _ => None,
        }
    }
}

impl<'d> Operand<'d> {
    /// Its node and key, where it is such an operand and its `$` or `@` is a node.
    #[inline(always)]
    pub(crate) fn keyed(&self, env: &Env<'_, 'd>) -> Option<Keyed<'d>>
        ensures { IfSome result (λ keyed. (how : HowOpened) → operand_whole how (operand_core self.now) (env_value env.now) ≡ below how (Link.Member keyed.key ∷ []) (node_value keyed.node)) }
    {
        let Cell::Each(each) = &*self.cell else {
            return None;
        };
        let key = each.key()?;
        let node = each.input.cell.lax_node(env)?;
        Some(Keyed { node, key })
    }
}
