// Paths in lax mode as moves from node to node. They need no cells.
ghost use Rattle.std.specs.Prelude.{◌≡◌, ◌≤◌, ◌+◌, ◌*◌, true, [], length, IfOk, IfSome, OnOk};
ghost use Rattle.sj_item.specs.Items.{ItemValue, item_value};
ghost use Rattle.sj_item.specs.Pairs.{items_compare};
ghost use Rattle.sj_path_tree.specs.declared.parts.Mode.TheVariants.{Lax};
ghost use Rattle.sj_plain_path.specs.Pairings.{PairingSeen};
ghost use Rattle.sj_step.specs.Reach.{by_key, reach, unwrap};
ghost use Rattle.sj_path_tree.specs.Nodes.{expr_nodes};
ghost use Rattle.sj_path_tree.specs.Tree as tree;
ghost use Rattle.sj_path_tree.specs.View.{expr_of, step_of, pred_of};
ghost use Rattle.sj_step.specs.Trace.{Trace, each};
ghost use Rattle.sj_plain_path.specs.Chains.{node_value};
ghost use Rattle.sj_cursor.specs.Decides.{Decides};
ghost use Rattle.sj_cursor.specs.Moves.{AreMovesOf, moved, test_pred, tested};
ghost use Rattle.sj_cursor.specs.Trails.{GivesOne, IsMade, Leads, item_left, way_left};

use crate::cells::Made;
use crate::one::made;
use sj_base::{Memory, Steps};
use sj_doc::{Kind, NodeRef};
use sj_item::{Item, Truth};
use sj_path_tree::{Compare, Expr, Literal, Pred, Step};
use sj_plain_path::{Beside, Link, Opening, Pairing, see_below};
use sj_walk::part_under;

/// What is done with a node on the way down a document.
#[derive(Clone, Copy)]
pub(crate) enum Move<'d> {
    /// An array is unwrapped: its elements go on, one after the other. Any other node goes on itself.
    Unwrap,
    /// The members under a key go on. Of a node that is no object nothing does.
    Member(&'d str),
    /// The node goes on where the test is true of it.
    Filter(MemberTest<'d>),
}

/// The predicate of a filter that compares the members of `@` under a key with a literal.
#[derive(Clone, Copy)]
pub(crate) struct MemberTest<'d> {
    pub(crate) key: &'d str,
    pub(crate) op: Compare,
    pub(crate) literal: Made<'d>,
}

/// What goes on behind a move.
#[derive(Clone, Copy)]
pub(crate) enum Way {
    /// The node itself.
    Straight,
    /// Nothing.
    Nowhere,
    /// Children of the node.
    Down,
}

impl<'d> MemberTest<'d> {
    #[inline(always)]
    fn truth(&self, node: NodeRef<'d>, steps: &mut Steps) -> Truth
        ensures { Decides (tested self.now (node_value node.entry)) result steps.old steps.new }
    {
        let links = [Link::Member(self.key)];
        let beside = Beside::Right(self.op, &self.literal.item);
        see_below(Opening::Unwrapped, &links, node, true, beside, steps).truth(true)
    }
}

impl<'d> Move<'d> {
    /// What goes on behind the move on a node.
    #[inline(always)]
    pub(crate) fn way(&self, node: NodeRef<'d>, steps: &mut Steps) -> Way
        ensures { (within : ItemValue → Trace) → Leads (each (moved self.now (node_value node.entry)) within) steps.old (way_left self.now within node.entry result) steps.new }
    {
        match self {
            Move::Unwrap => match node.kind() {
                Kind::Array => Way::Down,
                _ => Way::Straight,
            },
            Move::Member(_) => match node.kind() {
                Kind::Object => Way::Down,
                _ => Way::Nowhere,
            },
            Move::Filter(test) => match test.truth(node, steps) {
                Truth::True => Way::Straight,
                _ => Way::Nowhere,
            },
        }
    }
}

// ---- items that the path made

impl<'d> MemberTest<'d> {
    // The truth on an item that is no node.
    fn truth_of_made(&self, item: &Item<'d>, steps: &mut Steps) -> Truth
        requires { IsMade item.now }
        ensures { Decides (tested self.now (item_value item.now)) result steps.old steps.new }
    {
        match made_member(item, self.key) {
            Some(member) => self.see_opened(&member, steps).truth(true),
            None => Truth::False,
        }
    }

    // The pairs of an item with the literal, where an array is unwrapped.
    fn see_opened(&self, item: &Item<'d>, steps: &mut Steps) -> Pairing
        ensures { PairingSeen true (λ x. items_compare self.now.op x (item_value self.now.literal.item)) (unwrap Lax (item_value item.now)) result.found result.doubt steps.old steps.new }
    {
        let beside = Beside::Right(self.op, &self.literal.item);
        match item {
            Item::Node(node) => see_below(Opening::Unwrapped, &[], *node, true, beside, steps),
            _ => Pairing {
                found: false,
                doubt: false,
            }
            .saw(beside.truth(item)),
        }
    }
}

/// The member under a key of an item that is no node. There is one at most, and of a made pair alone.
pub(crate) fn made_member<'d>(item: &Item<'d>, key: &str) -> Option<Item<'d>>
    requires { IsMade item.now }
    ensures { GivesOne (reach (by_key key.now) Lax (item_value item.now)) result }
{
    match item {
        Item::Pair(pair) => part_under(key, *pair),
        _ => None,
    }
}

impl<'d> Move<'d> {
    /// What goes on behind the move on an item that is no node: it is one item at most.
    pub(crate) fn on_made(&self, item: &Item<'d>, steps: &mut Steps) -> Option<Item<'d>>
        requires { IsMade item.now }
        ensures { (within : ItemValue → Trace) → Leads (each (moved self.now (item_value item.now)) within) steps.old (item_left within result) steps.new }
    {
        match self {
            Move::Unwrap => Some(*item),
            Move::Member(key) => made_member(item, key),
            Move::Filter(test) => match test.truth_of_made(item, steps) {
                Truth::True => Some(*item),
                _ => None,
            },
        }
    }
}

// ---- the moves of a path

/// Puts the moves of an expression in order, at most two for each accessor, and tells whether it has moves alone.
///
/// # Errors
/// [`Memory`] where memory runs out.
pub(crate) fn collect<'d>(expr: &'d Expr, moves: &mut Vec<Move<'d>>) -> Result<bool, Memory>
    requires { moves.now.items ≡ [] }
    ensures means { IfOk result (λ plain. plain ≡ true → AreMovesOf (expr_of expr.now) moves.new.items) }
    ensures few { OnOk result (length moves.new.items + 2 ≤ 2 * expr_nodes (expr_of expr.now)) }
{
    match expr {
        Expr::Root => Ok(true),
        Expr::Access(inner, step) => {
            if !collect(inner, moves)? {
                return Ok(false);
            }
            add(step, moves)
        }
        _ => Ok(false),
    }
}

// Puts the moves of an accessor behind those of the expression that it stands on, and tells whether it has moves alone. All that have
// begin by unwrapping arrays.
fn add<'d>(step: &'d Step, moves: &mut Vec<Move<'d>>) -> Result<bool, Memory>
    ensures means { IfOk result (λ plain. plain ≡ true → (e : tree.Expr) → AreMovesOf e moves.old.items → AreMovesOf (tree.Access e (step_of step.now)) moves.new.items) }
    ensures few { OnOk result (length moves.new.items ≤ length moves.old.items + 2) }
{
    moves.push(Move::Unwrap)?;
    match step {
        Step::AllElements => Ok(true),
        Step::Member(key) => {
            moves.push(Move::Member(key.as_str()))?;
            Ok(true)
        }
        Step::Filter(pred) => match test_of(pred) {
            Some(test) => {
                moves.push(Move::Filter(test))?;
                Ok(true)
            }
            None => Ok(false),
        },
        _ => Ok(false),
    }
}

// The predicate, where it is such a comparison.
fn test_of<'d>(pred: &'d Pred) -> Option<MemberTest<'d>>
    ensures { IfSome result (λ test. test_pred test ≡ pred_of pred.now) }
{
    match pred {
        Pred::Compare(op, left, right) => {
            let key = member_of_context(left)?;
            let literal = literal_of(right)?;
            Some(MemberTest {
                key,
                op: *op,
                literal: made(literal),
            })
        }
        _ => None,
    }
}

// The key of an accessor of a member on `@`.
fn member_of_context<'d>(expr: &'d Expr) -> Option<&'d str>
    ensures { IfSome result (λ key. tree.Access tree.Context (tree.Member key.now) ≡ expr_of expr.now) }
{
    match expr {
        Expr::Access(inner, Step::Member(key)) => match &**inner {
            Expr::Context => Some(key.as_str()),
            _ => None,
        },
        _ => None,
    }
}

// A literal, where the expression is one.
fn literal_of<'d>(expr: &'d Expr) -> Option<&'d Literal>
    ensures { IfSome result (λ literal. tree.Lit literal.now ≡ expr_of expr.now) }
{
    match expr {
        Expr::Lit(literal) => Some(literal),
        _ => None,
    }
}
