// Plain paths, which are the root or `@` and, behind it, accessors of members, of all elements and of the element at an index, in lax
// mode. Their items on a node are found without cells.
ghost use Rattle.std.specs.Prelude.{◌≡◌, ◌≢◌, ◌+◌, [], ◌∷◌, true, IfOk, IfSome, pos};
ghost use Rattle.sj_json.specs.Tree.{children, numbered};
ghost use Rattle.sj_doc.specs.Kinds.{kind_of};
ghost use Rattle.sj_doc.specs.Listed.{node_id, node_tree};
ghost use Rattle.sj_path_tree.specs.Tree as tree;
ghost use Rattle.sj_path_tree.specs.declared.parts.Mode.TheVariants.{Lax};
ghost use Rattle.sj_path_tree.specs.View.{path_of, expr_of, step_of, subs_of};
ghost use Rattle.sj_plain_path.specs.Openings.{opened};
ghost use Rattle.sj_plain_path.specs.Chains.{IsChainOf, Sought, Reaches, node_value, accessor, accessed, member_under, below, under, over, throughout, element, elements_of};
ghost use Rattle.sj_plain_path.specs.Looks.{Finds, look_value, nodes_look};
ghost use Rattle.sj_plain_path.specs.Pairings.{PairingSeen, beside_truth};
ghost use Rattle.sj_plain_path.specs.Takers.{taken_value};

use crate::look::{FoundNodes, Limit, Look};
use crate::opening::Opening;
use crate::pairing::{Beside, Pairing};
use crate::take::{Aim, Gathered, Search};
use sj_base::{Memory, Steps};
use sj_decimal::Decimal;
use sj_doc::{Kind, NodeRef};
use sj_path_tree::{Expr, Literal, Mode, Path, Step, Sub};
use std::alloc::Global;

/// An accessor of a plain path.
#[derive(Clone, Copy)]
pub enum Link<'d> {
    /// The members under a key, also in the elements of an array.
    Member(&'d str),
    /// All elements of an array, and else the item itself.
    AllElements,
    /// The element of an array at an index. An item that is no array counts as an array of that one item.
    Element(u32),
}

/// The accessors of a plain path, in their order.
#[derive(Drop)]
pub struct Chain<'d> {
    links: Vec<Link<'d>>,
}

impl<'d> Chain<'d> {
    /// The accessors of a path, where it is plain. It takes the memory for them.
    ///
    /// # Errors
    /// [`Memory`] where memory runs out.
    pub fn of_path(alloc: Global, path: &'d Path) -> Result<Option<Chain<'d>>, Memory>
        ensures { IfOk result (λ chain. IfSome chain (IsChainOf (path_of path.now))) }
    {
        let mut links = Vec::new(alloc);
        match path.mode {
            Mode::Lax => {
                if collect(&path.expr, &mut links)? {
                    Ok(Some(Chain { links }))
                } else {
                    Ok(None)
                }
            }
            Mode::Strict => Ok(None),
        }
    }

    /// The accessors, in their order.
    pub fn links(&self) -> &[Link<'d>]
        ensures { result.now ≡ self.now.links.items }
    {
        &self.links
    }

    /// The items of the path on a node, from the first one on until enough was found. The counter rises by no more than the children
    /// of nodes that are handed out before.
    #[inline(always)]
    pub fn look(&self, root: NodeRef<'d>, limit: Limit, steps: &mut Steps) -> Look<'d>
        ensures { Finds limit (below Opening.AsItIs self.now.links.items (node_value root.entry)) (look_value result) steps.old steps.new }
    {
        look_below(Opening::AsItIs, &self.links, root, limit, steps)
    }

    /// The same, as the nodes that the items are.
    #[inline(always)]
    pub fn nodes(&self, root: NodeRef<'d>, limit: Limit, steps: &mut Steps) -> FoundNodes<'d>
        ensures { Finds limit (below Opening.AsItIs self.now.links.items (node_value root.entry)) (nodes_look result) steps.old steps.new }
    {
        nodes_below(Opening::AsItIs, &self.links, root, limit, steps)
    }
}

/// What accessors give of a node, from the first item on until enough was found. The counter rises by no more than the children of
/// nodes that are handed out before.
#[inline(always)]
pub fn look_below<'d>(
    how: Opening,
    links: &[Link<'d>],
    node: NodeRef<'d>,
    limit: Limit,
    steps: &mut Steps,
) -> Look<'d>
    ensures { Finds limit (below how links.now (node_value node.entry)) (look_value result) steps.old steps.new }
{
    Look {
        found: nodes_below(how, links, node, limit, steps).found(),
        fault: None,
    }
}

// The same, as the nodes that the items are.
#[inline(always)]
fn nodes_below<'d>(
    how: Opening,
    links: &[Link<'d>],
    node: NodeRef<'d>,
    limit: Limit,
    steps: &mut Steps,
) -> FoundNodes<'d>
    ensures { Finds limit (below how links.now (node_value node.entry)) (nodes_look result) steps.old steps.new }
{
    let mut gathered = Gathered::nothing();
    look_short(how, limit, links, node, steps, &mut gathered);
    gathered.nodes
}

/// The pairs of what accessors give of a node with what stands beside them; with `early`, up to the first true one. The counter rises
/// by no more than the children of nodes that are handed out before.
#[inline(always)]
pub fn see_below<'d>(
    how: Opening,
    links: &[Link<'d>],
    node: NodeRef<'d>,
    early: bool,
    beside: Beside<'_, 'd>,
    steps: &mut Steps,
) -> Pairing
    ensures { PairingSeen early (beside_truth beside.entry) (below how links.now (node_value node.entry)) result.found result.doubt steps.old steps.new }
{
    let mut gathered = Gathered::nothing();
    let search = Search {
        how,
        aim: Aim::Pairs(early, beside),
    };
    seek_short(&search, links, node, steps, &mut gathered);
    gathered.pairing
}

// Goes through what accessors give of a node, as `seek` does. Most operands and columns are one member of an object: its members are
// gone through in place, and nothing that recurs is called.
#[inline(always)]
fn seek_short<'d>(
    search: &Search<'_, 'd>,
    links: &[Link<'d>],
    node: NodeRef<'d>,
    steps: &mut Steps,
    gathered: &mut Gathered<'d>,
) -> bool
    ensures { Sought (taken_value search.now.aim gathered.old) (below search.now.how links.now (node_value node.entry)) (taken_value search.now.aim gathered.new) result steps.old steps.new }
{
    match links {
        [Link::Member(key)] => match node.kind() {
            Kind::Array => seek_apart(*search, links, node, steps, gathered),
            _ => take_members(search, key, node, steps, gathered),
        },
        _ => seek_apart(*search, links, node, steps, gathered),
    }
}

// The same as `seek`, with a copy of the search. What is passed by its place has to lie in memory, and the search would lie there in
// the callers too.
#[inline(always)]
fn seek_apart<'d>(
    search: Search<'_, 'd>,
    links: &[Link<'d>],
    node: NodeRef<'d>,
    steps: &mut Steps,
    gathered: &mut Gathered<'d>,
) -> bool
    ensures { Sought (taken_value search.entry.aim gathered.old) (below search.entry.how links.now (node_value node.entry)) (taken_value search.entry.aim gathered.new) result steps.old steps.new }
{
    seek(&search, links, node, steps, gathered)
}

// The members under a key of a node that is not unwrapped, each at the end of the accessors.
#[inline(always)]
fn take_members<'d>(
    search: &Search<'_, 'd>,
    key: &str,
    node: NodeRef<'d>,
    steps: &mut Steps,
    gathered: &mut Gathered<'d>,
) -> bool
    ensures { Sought (taken_value search.now.aim gathered.old) (under search.now.how key.now [] (node_value node.entry)) (taken_value search.now.aim gathered.new) result steps.old steps.new }
{
    match node.kind() {
        Kind::Object => {}
        _ => return false,
    }
    let mut members = node.children();
    'members: while let Some(member) = members.next_under(key, steps) {
        if take_opened(search, member, steps, gathered) {
            return true;
        }
    }
    false
}

// Goes through what accessors give of a node, as `seek` does, where items are just looked for.
#[inline(always)]
fn look_short<'d>(
    how: Opening,
    limit: Limit,
    links: &[Link<'d>],
    node: NodeRef<'d>,
    steps: &mut Steps,
    gathered: &mut Gathered<'d>,
) -> bool
    ensures { Sought (taken_value (Aim.Look limit) gathered.old) (below how links.now (node_value node.entry)) (taken_value (Aim.Look limit) gathered.new) result steps.old steps.new }
{
    match (how, links) {
        (Opening::AsItIs, [Link::Member(outer), Link::Member(inner)]) => {
            look_members(limit, outer, inner, node, steps, gathered)
        }
        _ => {
            let search = Search {
                how,
                aim: Aim::Look(limit),
            };
            seek_short(&search, links, node, steps, gathered)
        }
    }
}

// The same for the members under a key of the members under another one. Both are gone through in place, and mostly nothing that
// recurs is called.
#[inline(never)]
fn look_members<'d>(
    limit: Limit,
    outer: &'d str,
    inner: &'d str,
    node: NodeRef<'d>,
    steps: &mut Steps,
    gathered: &mut Gathered<'d>,
) -> bool
    ensures { Sought (taken_value (Aim.Look limit) gathered.old) (below Opening.AsItIs (member_under outer.now ∷ member_under inner.now ∷ []) (node_value node.entry)) (taken_value (Aim.Look limit) gathered.new) result steps.old steps.new }
{
    let search = Search {
        how: Opening::AsItIs,
        aim: Aim::Look(limit),
    };
    match node.kind() {
        Kind::Object => seek_inner(&search, outer, inner, node, steps, gathered),
        _ => {
            let links = [Link::Member(outer), Link::Member(inner)];
            seek_apart(search, &links, node, steps, gathered)
        }
    }
}

// The members under a key of the members under another one of a node that is not unwrapped, each at the end of the accessors.
#[inline(always)]
fn seek_inner<'d>(
    search: &Search<'_, 'd>,
    outer: &str,
    inner: &'d str,
    node: NodeRef<'d>,
    steps: &mut Steps,
    gathered: &mut Gathered<'d>,
) -> bool
    ensures { Sought (taken_value search.now.aim gathered.old) (under search.now.how outer.now (member_under inner.now ∷ []) (node_value node.entry)) (taken_value search.now.aim gathered.new) result steps.old steps.new }
{
    match node.kind() {
        Kind::Object => {}
        _ => return false,
    }
    let mut members = node.children();
    'members: while let Some(member) = members.next_under(outer, steps) {
        if seek_short(search, &[Link::Member(inner)], member, steps, gathered) {
            return true;
        }
    }
    false
}

// Takes the accessors of an expression, and tells whether it is plain.
fn collect<'d>(expr: &'d Expr, links: &mut Vec<Link<'d>>) -> Result<bool, Memory>
    requires { links.now.items ≡ [] }
    ensures { IfOk result (λ plain. plain ≡ true → accessed tree.Root links.new.items ≡ expr_of expr.now) }
{
    match expr {
        Expr::Root => Ok(true),
        Expr::Access(inner, step) => match link_of(step) {
            Some(link) => {
                let plain = collect(inner, links)?;
                links.push(link)?;
                Ok(plain)
            }
            None => Ok(false),
        },
        _ => Ok(false),
    }
}

// An accessor, where a plain path may have it.
#[tactic(auto, using(sj_path_tree::proofs::Rows::elements))]
fn link_of<'d>(step: &'d Step) -> Option<Link<'d>>
    ensures { IfSome result (λ link. accessor link ≡ step_of step.now) }
{
    match step {
        Step::Member(key) => Some(Link::Member(key.as_str())),
        Step::AllElements => Some(Link::AllElements),
        Step::Elements(subs) => Some(Link::Element(index_in(subs)?)),
        _ => None,
    }
}

// The only subscript of a list, where it is a literal that is an index.
fn index_in(subs: &[Sub]) -> Option<u32>
    ensures { IfSome result (λ index. accessor (Link.Element index) ≡ tree.Elements (subs_of subs.now)) }
{
    match subs {
        [Sub::One(Expr::Lit(Literal::Num(number)))] => index_of(*number),
        _ => None,
    }
}

// A number as an index, where it is a whole one. Any other one is left to the cells, which cut it.
fn index_of(number: Decimal) -> Option<u32>
    ensures { IfSome result (λ index. number ≡ (pos index, 0)) }
{
    match number.parts() {
        (whole, 0) => u32::try_from(whole).ok(),
        _ => None,
    }
}

// Goes through what accessors give of a node, until enough was gathered. It tells whether that is so. One turn goes from a node to the
// last member under a key or to an element. All other ways are functions of their own, so that a turn has few values to keep. What was
// gathered comes last, since it may lie on the stack: no turn but the last one asks for it.
#[cycle(seek)]
fn seek<'d>(
    search: &Search<'_, 'd>,
    links: &[Link<'d>],
    node: NodeRef<'d>,
    steps: &mut Steps,
    gathered: &mut Gathered<'d>,
) -> bool
    ensures { Sought (taken_value search.now.aim gathered.old) (below search.now.how links.now (node_value node.entry)) (taken_value search.now.aim gathered.new) result steps.old steps.new }
{
    match links {
        [] => take_opened(search, node, steps, gathered),
        [link, rest @ ..] => match link {
            Link::Member(key) => match node.kind() {
                Kind::Array => seek_under(search, key, rest, node, steps, gathered),
                _ => seek_members(search, key, rest, node, steps, gathered),
            },
            Link::AllElements => seek_elements(search, rest, node, steps, gathered),
            Link::Element(index) => match node.kind() {
                Kind::Array => match element_at(node, *index, steps) {
                    Some(element) => seek(search, rest, element, steps, gathered),
                    None => false,
                },
                _ => seek_itself(search, *index, rest, node, steps, gathered),
            },
        },
    }
}

// A node at the end of the accessors.
#[inline(always)]
fn take_opened<'d>(
    search: &Search<'_, 'd>,
    node: NodeRef<'d>,
    steps: &mut Steps,
    gathered: &mut Gathered<'d>,
) -> bool
    ensures { Sought (taken_value search.now.aim gathered.old) (opened search.now.how Lax (node_value node.entry)) (taken_value search.now.aim gathered.new) result steps.old steps.new }
{
    match search.how {
        Opening::Unwrapped => match node.kind() {
            Kind::Array => take_elements_apart(search.aim, node, steps, gathered),
            _ => gathered.take(&search.aim, node),
        },
        Opening::AsItIs => gathered.take(&search.aim, node),
    }
}

// The same as `take_elements`, with a copy of the aim.
#[inline(always)]
fn take_elements_apart<'d>(
    aim: Aim<'_, 'd>,
    array: NodeRef<'d>,
    steps: &mut Steps,
    gathered: &mut Gathered<'d>,
) -> bool
    ensures { Sought (taken_value aim.entry gathered.old) (elements_of (numbered (node_id array.entry + 1) (children (node_tree array.entry)))) (taken_value aim.entry gathered.new) result steps.old steps.new }
{
    take_elements(&aim, array, steps, gathered)
}

// The elements of an array.
#[inline(never)]
fn take_elements<'d>(
    aim: &Aim<'_, 'd>,
    array: NodeRef<'d>,
    steps: &mut Steps,
    gathered: &mut Gathered<'d>,
) -> bool
    ensures { Sought (taken_value aim.now gathered.old) (elements_of (numbered (node_id array.entry + 1) (children (node_tree array.entry)))) (taken_value aim.now gathered.new) result steps.old steps.new }
{
    let mut elements = array.children();
    'elements: while let Some(element) = elements.next(steps) {
        if gathered.take(aim, element.node) {
            return true;
        }
    }
    false
}

// The element of an array at an index. The elements before it are handed out too, but none is where the array is shorter.
#[inline(always)]
fn element_at<'d>(array: NodeRef<'d>, index: u32, steps: &mut Steps) -> Option<NodeRef<'d>>
    ensures { Reaches (element index (numbered (node_id array.entry + 1) (children (node_tree array.entry)))) result (index + 1) steps.old steps.new }
{
    if array.len() <= u64::from(index) {
        return None;
    }
    let mut elements = array.children();
    let mut before = index;
    'elements: while let Some(element) = elements.next(steps) {
        if before == 0 {
            return Some(element.node);
        }
        before -= 1;
    }
    None
}

// What accessors give of all elements of an array. An item that is no array has itself.
#[cycle(seek)]
#[inline(never)]
fn seek_elements<'d>(
    search: &Search<'_, 'd>,
    rest: &[Link<'d>],
    node: NodeRef<'d>,
    steps: &mut Steps,
    gathered: &mut Gathered<'d>,
) -> bool
    ensures { Sought (taken_value search.now.aim gathered.old) (below search.now.how (Link.AllElements ∷ rest.now) (node_value node.entry)) (taken_value search.now.aim gathered.new) result steps.old steps.new }
{
    match node.kind() {
        Kind::Array => {}
        _ => return seek(search, rest, node, steps, gathered),
    }
    let mut elements = node.children();
    'elements: while let Some(element) = elements.next(steps) {
        if seek(search, rest, element.node, steps, gathered) {
            return true;
        }
    }
    false
}

// What accessors give of the element at an index of an item that is no array. It has itself at the index 0.
#[cycle(seek)]
#[inline(never)]
fn seek_itself<'d>(
    search: &Search<'_, 'd>,
    index: u32,
    rest: &[Link<'d>],
    node: NodeRef<'d>,
    steps: &mut Steps,
    gathered: &mut Gathered<'d>,
) -> bool
    requires { kind_of (node_tree node) ≢ Kind.Array }
    ensures { Sought (taken_value search.now.aim gathered.old) (below search.now.how (Link.Element index ∷ rest.now) (node_value node.entry)) (taken_value search.now.aim gathered.new) result steps.old steps.new }
{
    index == 0 && seek(search, rest, node, steps, gathered)
}

// What a member under a key and the accessors behind it give of the elements of an array, which is unwrapped.
#[cycle(seek)]
#[inline(never)]
fn seek_under<'d>(
    search: &Search<'_, 'd>,
    key: &str,
    rest: &[Link<'d>],
    array: NodeRef<'d>,
    steps: &mut Steps,
    gathered: &mut Gathered<'d>,
) -> bool
    ensures { Sought (taken_value search.now.aim gathered.old) (over search.now.how key.now rest.now (numbered (node_id array.entry + 1) (children (node_tree array.entry)))) (taken_value search.now.aim gathered.new) result steps.old steps.new }
{
    let mut elements = array.children();
    'elements: while let Some(element) = elements.next(steps) {
        if seek_members(search, key, rest, element.node, steps, gathered) {
            return true;
        }
    }
    false
}

// The same of a node that is not unwrapped.
#[cycle(seek)]
#[inline(always)]
fn seek_members<'d>(
    search: &Search<'_, 'd>,
    key: &str,
    rest: &[Link<'d>],
    node: NodeRef<'d>,
    steps: &mut Steps,
    gathered: &mut Gathered<'d>,
) -> bool
    ensures { Sought (taken_value search.now.aim gathered.old) (under search.now.how key.now rest.now (node_value node.entry)) (taken_value search.now.aim gathered.new) result steps.old steps.new }
{
    match node.kind() {
        Kind::Object => {}
        _ => return false,
    }
    let mut members = node.children();
    'members: while let Some(member) = members.next_under(key, steps) {
        // The last member is gone into with nothing to come back to, so a chain of such members takes one turn for each.
        if members.is_at_end() {
            return seek(search, rest, member, steps, gathered);
        }
        if seek(search, rest, member, steps, gathered) {
            return true;
        }
    }
    false
}
