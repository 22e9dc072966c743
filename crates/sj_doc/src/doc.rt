// The document and its nodes.
ghost use Rattle.std.specs.Prelude.{◌≡◌, ◌+◌, ◌<◌, ◌≤◌, length, false, [], None, option_map};
ghost use Rattle.sj_json.specs.Tree.{node_count, subtree, below, children, numbered, string, truth, number};
ghost use Rattle.sj_json.specs.Printing.{IsTree};
ghost use Rattle.sj_json.specs.Building.{fresh};
ghost use Rattle.sj_doc.specs.Limits.{most_nodes};
ghost use Rattle.sj_doc.specs.Kinds.{kind_of, IsContainer};
ghost use Rattle.sj_doc.specs.Nodes.{text_in, IsSpan, IsNumeral, spelled};
ghost use Rattle.sj_doc.specs.Numbers.{number_in};
ghost use Rattle.sj_doc.specs.Stops.{key_in, up_of};
ghost use Rattle.sj_doc.specs.Tours.{tour};

use crate::builder::DocBuilder;
use crate::children::Children;
use crate::node::{Body, Kind, Node, Span};
use crate::stored::{StoredText, stored_at};
use crate::tour::Tour;
use sj_decimal::{Decimal, Parsed};
use std::marker::Model;

/// A JSON document (RFC 8259), which keeps equal keys in their order. Contracts see it as one tree.
#[derive(Drop)]
pub struct Doc {
    pub(crate) arena: Vec<u8>,
    pub(crate) nodes: Vec<Node>,
}

impl Model for Doc {
    ghost use Rattle.sj_json.specs.Tree.{Tree};
    ghost use Rattle.sj_json.specs.Coding.{tree_code};

    ghost Value = { Tree };

    ghost coded = { tree_code };

    ghost use Rattle.sj_doc.specs.Nodes.{entries, IsDoc};
    ghost use Rattle.sj_json.specs.Cells.{tree_of};

    ghost view = { λ d. tree_of (entries d.arena.items d.nodes.items) };

    ghost invariant = { λ d. IsDoc d.arena.items d.nodes.items };
}

/// A node of a document. Contracts see its number in preorder, `node_id`, and the tree that begins there,
/// `node_tree`.
#[derive(Clone, Copy, Drop)]
pub struct NodeRef<'d> {
    pub(crate) doc: &'d Doc,
    pub(crate) at: u32,
    ghost in_range: { at < node_count doc.now },
    ghost small: { at < most_nodes },
}

/// A child of a node. The key is there exactly where the parent is an object.
#[derive(Clone, Copy, Drop)]
pub struct Member<'d> {
    pub key: Option<&'d str>,
    pub node: NodeRef<'d>,
}

/// A number.
#[derive(Clone, Copy)]
pub enum Num<'d> {
    /// Its value, which has at most 38 digits and at most 38 decimals.
    Exact(Decimal),
    /// Its spelling, as RFC 8259, section 6, writes numbers. Its value is not exact.
    Wide(&'d str),
}

pub(crate) fn text_at(arena: &[u8], span: Span) -> &str
    requires { IsSpan arena.now span }
    ensures { result.now ≡ text_in arena.now span }
{
    let start = span.start as usize;
    let end = start + span.len as usize;
    unsafe { std::str::from_utf8_unchecked(&arena[start..end]) }
}

// A number with a longer text is not exact, or its text was cut to its value when it was put in. So a number is read in no
// time that grows with the line, however often it is asked for.
const LONGEST_READ: usize = 64;

// The number that a numeral spells.
#[inline(always)]
fn value_of(numeral: &str) -> Num<'_>
    requires { IsNumeral numeral.now }
    ensures { number_in result ≡ spelled numeral.now }
{
    if numeral.len() > LONGEST_READ {
        return Num::Wide(numeral);
    }
    match Decimal::parse(numeral.as_bytes()) {
        Parsed::Exact(value) => Num::Exact(value),
        Parsed::Wide => Num::Wide(numeral),
        Parsed::NotNumber => unreachable!(),
    }
}

impl Doc {
    ghost use Rattle.sj_doc.specs.Listed.{node_id, node_key, node_tree};

    /// The whole document.
    #[tactic(auto, unfolding(crate::specs::Listed::node_key), using(crate::proofs::Roots::no_key))]
    pub fn root(&self) -> NodeRef<'_>
        ensures tree { node_tree result ≡ self.now }
        ensures number { node_id result ≡ 0 }
        ensures key { node_key result ≡ None }
        ensures made { IsTree self.now }
    {
        // shows the proof that the numbers are well made
        let _ = &self.nodes;
        NodeRef { doc: self, at: 0 }
    }

    /// A new builder, over the memory of this document.
    pub fn recycle(self) -> DocBuilder
        ensures { result ≡ (fresh, []) }
    {
        let Doc {
            mut arena,
            mut nodes,
        } = self;
        arena.clear();
        nodes.clear();
        DocBuilder::over(arena, nodes)
    }
}

impl Doc {
    // The node of that number.
    pub(crate) fn node_at(&self, at: u32) -> NodeRef<'_>
        requires { at < node_count self.now }
        ensures doc { result.doc.now ≡ self.now }
        ensures number { result.at ≡ at }
    {
        // shows the proof that a document has at most 2^25 nodes
        let _ = &self.nodes;
        NodeRef { doc: self, at }
    }

    // The number of the first node behind those below a node.
    pub(crate) fn end_of(&self, at: u32) -> u32
        requires { at < node_count self.now }
        ensures { result ≡ at + 1 + below (subtree self.now at) }
    {
        let below = self.nodes[at as usize].below;
        at + 1 + below
    }

    // How far a container lies behind its parent.
    pub(crate) fn up_at(&self, at: u32) -> u32
        requires within { at < node_count self.now }
        requires container { IsContainer (subtree self.now at) }
        ensures { result ≡ up_of self.now at }
    {
        match self.nodes[at as usize].body {
            Body::Closed { up, .. } => up,
            _ => unreachable!(),
        }
    }

    // The key of a node.
    pub(crate) fn key_at(&self, at: u32) -> Option<&str>
        requires { at < node_count self.now }
        ensures { option_map (λ s. s.now) result ≡ key_in self.now at }
    {
        match self.stored_key_at(at) {
            Some(key) => Some(key.text),
            None => None,
        }
    }

    // The same, as the document stores it.
    #[inline(always)]
    pub(crate) fn stored_key_at(&self, at: u32) -> Option<StoredText<'_>>
        requires { at < node_count self.now }
        ensures { option_map (λ s. s.text.now) result ≡ key_in self.now at }
    {
        match self.nodes[at as usize].key {
            Some(span) => Some(stored_at(&self.arena, span)),
            None => None,
        }
    }

    // The number of nodes.
    pub(crate) fn count(&self) -> u32
        ensures number { result ≡ node_count self.now }
        ensures small { result ≤ most_nodes }
    {
        self.nodes.len() as u32
    }
}

impl<'d> NodeRef<'d> {
    ghost use Rattle.sj_doc.specs.Listed.{node_id, node_tree, node_key};

    /// Its number: the root has 0, and the nodes follow in preorder. It is below 2^25.
    pub fn id(self) -> u64
        ensures number { result ≡ node_id self.entry }
        ensures small { result < most_nodes }
    {
        u64::from(self.at)
    }

    /// Its key, which is there exactly where its parent is an object.
    #[tactic(auto, unfolding(crate::specs::Listed::node_key))]
    pub fn key(self) -> Option<&'d str>
        ensures { option_map (λ s. s.now) result ≡ node_key self.entry }
    {
        let doc: &Doc = self.doc;
        doc.key_at(self.at)
    }

    /// Its key, as the document stores it.
    #[tactic(auto, unfolding(crate::specs::Listed::node_key))]
    #[inline(always)]
    pub fn stored_key(self) -> Option<StoredText<'d>>
        ensures { option_map (λ s. s.text.now) result ≡ node_key self.entry }
    {
        let doc: &Doc = self.doc;
        doc.stored_key_at(self.at)
    }

    /// What it is.
    pub fn kind(self) -> Kind
        ensures { result ≡ kind_of (node_tree self.entry) }
    {
        let doc: &Doc = self.doc;
        doc.nodes[self.at as usize].body.kind()
    }

    /// The text of a string, its escapes resolved.
    pub fn text(self) -> &'d str
        requires { kind_of (node_tree self) ≡ Kind.String }
        ensures { node_tree self.entry ≡ string result.now }
    {
        self.stored_text().text
    }

    /// The same, as the document stores it.
    #[inline(always)]
    pub fn stored_text(self) -> StoredText<'d>
        requires { kind_of (node_tree self) ≡ Kind.String }
        ensures { node_tree self.entry ≡ string result.text.now }
    {
        let doc: &Doc = self.doc;
        match doc.nodes[self.at as usize].body {
            Body::Text(span) => stored_at(&doc.arena, span),
            _ => unreachable!(),
        }
    }

    /// A number.
    #[inline(always)]
    pub fn number(self) -> Num<'d>
        requires { kind_of (node_tree self) ≡ Kind.Number }
        ensures { node_tree self.entry ≡ number (number_in result) }
    {
        value_of(self.numeral())
    }

    /// The numeral that the document keeps of a number: it spells that number, not always as the line did.
    pub fn numeral(self) -> &'d str
        requires { kind_of (node_tree self) ≡ Kind.Number }
        ensures tree { node_tree self.entry ≡ number (spelled result.now) }
        ensures kept { IsNumeral result.now }
    {
        self.stored_numeral().text
    }

    /// The same, as the document stores it.
    #[inline(always)]
    pub fn stored_numeral(self) -> StoredText<'d>
        requires { kind_of (node_tree self) ≡ Kind.Number }
        ensures tree { node_tree self.entry ≡ number (spelled result.text.now) }
        ensures kept { IsNumeral result.text.now }
    {
        let doc: &Doc = self.doc;
        match doc.nodes[self.at as usize].body {
            Body::Numeral(span) => stored_at(&doc.arena, span),
            _ => unreachable!(),
        }
    }

    /// A truth value.
    pub fn truth(self) -> bool
        requires { kind_of (node_tree self) ≡ Kind.Truth }
        ensures { node_tree self.entry ≡ truth result }
    {
        let doc: &Doc = self.doc;
        match doc.nodes[self.at as usize].body {
            Body::Truth(b) => b,
            _ => unreachable!(),
        }
    }

    /// The number of elements of an array or members of an object, and 0 for a scalar.
    pub fn len(self) -> u64
        ensures { result ≡ length (children (node_tree self.entry)) }
    {
        let doc: &Doc = self.doc;
        u64::from(doc.nodes[self.at as usize].body.count())
    }

    /// A walk over it and all nodes below it.
    pub fn tour(self) -> Tour<'d>
        ensures { result ≡ (false, tour None (node_id self.entry) (node_tree self.entry)) }
    {
        Tour {
            doc: self.doc,
            first: self.at,
            at: self.at,
            inner: self.at,
            depth: 0,
        }
    }

    /// Its children in order, none for a scalar.
    pub fn children(self) -> Children<'d>
        ensures { result ≡ numbered (node_id self.entry + 1) (children (node_tree self.entry)) }
    {
        let doc: &Doc = self.doc;
        let left = doc.nodes[self.at as usize].body.count();
        Children {
            doc: self.doc,
            at: self.at + 1,
            left,
        }
    }
}
