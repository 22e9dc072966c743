// The children of a node, one after another.
ghost use Rattle.std.specs.Prelude.{◌≡◌, ◌-◌, [], ◌∷◌, length, true, Some, MatchOption, is_some, option_map, IfSome, if◌then◌else◌, IsTrue, ◌↔◌};
ghost use Rattle.std.specs.Str.{bytes_eq};
ghost use Rattle.sj_base.specs.Count.{raised};
ghost use Rattle.sj_doc.specs.Children.{children_left, IsChildren};
ghost use Rattle.sj_doc.specs.Keyed.{is_key, from_key};
ghost use Rattle.sj_doc.specs.FoundMembers.{left_behind, Finds};
ghost use Rattle.sj_doc.specs.Listed.{member_of, node_id, node_tree, node_key};

use crate::doc::{Doc, Member, NodeRef, text_at};
use sj_base::Steps;
use std::marker::Model;

/// The children of a node, in order. Contracts see the list of those that are left, each as its key, its
/// number and its tree.
#[derive(Drop)]
pub struct Children<'d> {
    pub(crate) doc: &'d Doc,
    pub(crate) at: u32,
    pub(crate) left: u32,
}

impl<'d> Model for Children<'d> {
    ghost use Rattle.std.specs.Prelude.{List};
    ghost use Rattle.sj_json.specs.Tree.{NumberedChild};
    ghost use Rattle.sj_json.specs.Coding.{numbered_code};

    ghost Value = { List NumberedChild };

    ghost coded = { numbered_code };

    ghost use Rattle.sj_doc.specs.Children.{children_left, IsChildren};

    ghost view = { λ a. children_left a.doc.now a.at a.left };

    ghost invariant = { λ a. IsChildren a.doc.now a.at a.left };
}

// The node of a member, and the children behind it.
#[derive(Clone, Copy, Drop)]
struct FoundMember {
    child: u32,
    next: u32,
    left: u32,
}

// Whether two texts are the same. It stands apart from the loop of a search, which has more room in registers without it.
#[inline(never)]
fn is_same(a: &str, b: &str) -> bool
    ensures { result ≡ bytes_eq a.now b.now }
{
    a == b
}

// Whether two texts have one length and one last byte.
#[inline(always)]
fn ends_alike(a: &[u8], b: &[u8]) -> bool
    ensures same { a.now ≡ b.now → result ≡ true }
    ensures short { result ≡ true → length b.now ≡ 1 → a.now ≡ b.now }
{
    a.len() == b.len() && (a.is_empty() || a[a.len() - 1] == b[b.len() - 1])
}

// Whether a name is the key.
#[inline(always)]
fn is_named(name: Option<&str>, key: &str) -> bool
    ensures { result ≡ is_key key.now (option_map (λ s. s.now) name.entry) }
{
    match name {
        // Most names that are not the key have another length or another last byte. A name of one byte is its last byte.
        Some(name) => {
            ends_alike(name.as_bytes(), key.as_bytes()) && (key.len() == 1 || is_same(name, key))
        }
        None => false,
    }
}

// The first child under the key among those that are left from a node on. What it loops over stays in registers.
#[inline(always)]
fn find(doc: &Doc, from: u32, left: u32, key: &str, steps: &mut Steps) -> Option<FoundMember>
    requires { IsChildren doc.now from left }
    ensures found { MatchOption result (from_key key.now (children_left doc.now from left) ≡ []) (Finds doc.now from left key.now) }
    ensures step { steps.new ≡ raised steps.old (left - left_behind result) }
{
    let mut next = from;
    let mut rest = left;
    'children: while rest > 0 {
        let child = next;
        next = doc.end_of(child);
        rest -= 1;
        steps.tick();
        if is_named(doc.key_at(child), key) {
            return Some(FoundMember {
                child,
                next,
                left: rest,
            });
        }
    }
    None
}

impl<'d> Children<'d> {
    /// The next child. `None` comes exactly at the end. The counter rises by one where a child is given,
    /// and stays as it is at the end.
    pub fn next(&mut self, steps: &mut Steps) -> Option<Member<'d>>
        ensures child { MatchOption result ((self.old ≡ []) × (self.new ≡ [])) (λ m. self.old ≡ member_of m ∷ self.new) }
        ensures key { IfSome result (λ m. node_key m.node ≡ option_map (λ s. s.now) m.key) }
        ensures step { steps.new ≡ (if is_some result then raised steps.old 1 else steps.old) }
    {
        match self.advance() {
            Some(child) => {
                steps.tick();
                Some(child)
            }
            None => None,
        }
    }

    /// The next child under the key. Those before it are passed over. `None` comes exactly where no child that
    /// is left is under the key, and then none is left. The counter rises by one for each child that is passed
    /// over or given.
    #[inline(always)]
    pub fn next_under(&mut self, key: &str, steps: &mut Steps) -> Option<NodeRef<'d>>
        ensures child { MatchOption result ((from_key key.now self.old ≡ []) × (self.new ≡ []))
            (λ n. from_key key.now self.old ≡ (Some key.now, node_id n, node_tree n) ∷ self.new) }
        ensures step { steps.new ≡ raised steps.old (length self.old - length self.new) }
    {
        match find(self.doc, self.at, self.left, key, steps) {
            Some(found) => {
                self.at = found.next;
                self.left = found.left;
                Some(self.doc.node_at(found.child))
            }
            None => {
                self.left = 0;
                None
            }
        }
    }

    /// Whether no child is left.
    pub fn is_at_end(&self) -> bool
        ensures { IsTrue result ↔ (self.now ≡ []) }
    {
        self.left == 0
    }

    // The next child, for the crate's own walks. They count no steps.
    pub(crate) fn advance(&mut self) -> Option<Member<'d>>
        ensures child { MatchOption result ((self.old ≡ []) × (self.new ≡ [])) (λ m. self.old ≡ member_of m ∷ self.new) }
        ensures key { IfSome result (λ m. node_key m.node ≡ option_map (λ s. s.now) m.key) }
    {
        if self.left == 0 {
            return None;
        }
        let doc: &Doc = self.doc;
        let node = doc.nodes[self.at as usize];
        let key = match node.key {
            Some(span) => Some(text_at(&doc.arena, span)),
            None => None,
        };
        let child = NodeRef {
            doc: self.doc,
            at: self.at,
        };
        self.at += 1 + node.below;
        self.left -= 1;
        Some(Member { key, node: child })
    }
}
