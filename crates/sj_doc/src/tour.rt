// A walk over a node and all nodes below it, without memory.
ghost use Rattle.std.specs.Prelude.{◌≡◌, ◌<◌, ◌==◌, [], ◌∷◌, true, ◌&&◌, Some, None, option_map, MatchOption, IfSome, if◌then◌else◌};
ghost use Rattle.sj_json.specs.Tree.{node_count};
ghost use Rattle.sj_doc.specs.Stops.{key_in};
ghost use Rattle.sj_base.specs.Count.{raised};
ghost use Rattle.sj_doc.specs.Visits.{visited, hands_out_some, ShowsKey};

use crate::doc::{Doc, Member};
use crate::node::Kind;
use sj_base::Steps;
use std::marker::Model;

/// What a tour comes to next.
#[derive(Clone, Copy, Drop)]
pub enum Visit<'d> {
    /// An array or an object, before its children.
    Enter(Member<'d>),
    /// The end of an array or an object, behind its children.
    Leave(Kind),
    /// A scalar.
    Leaf(Member<'d>),
}

/// A walk over a node and all nodes below it, in order. Contracts see whether it has begun, and the list of
/// the visits that are left. It takes no memory: the links to the parents show the way back.
#[derive(Drop)]
pub struct Tour<'d> {
    pub(crate) doc: &'d Doc,
    pub(crate) first: u32,
    // the next node
    pub(crate) at: u32,
    // the innermost container that is open in the tour; where none is, it says nothing
    pub(crate) inner: u32,
    // how many are open
    pub(crate) depth: u32,
}

impl<'d> Model for Tour<'d> {
    ghost use Rattle.sj_doc.specs.Tours.{Touring, touring_code};

    ghost Value = { Touring };

    ghost coded = { touring_code };

    ghost use Rattle.sj_doc.specs.Stops.{tour_left, IsTour};

    ghost view = { λ a. tour_left a.doc.now a.first a.at a.depth };

    ghost invariant = { λ a. IsTour a.doc.now a.first a.at a.inner a.depth };
}

// The key of a node, and none for the first node, where no container is open.
fn shown_key(doc: &Doc, at: u32, depth: u32) -> Option<&str>
    requires { at < node_count doc.now }
    ensures { option_map (λ s. s.now) result ≡ (if depth == 0 then None else key_in doc.now at) }
{
    if depth == 0 { None } else { doc.key_at(at) }
}

impl<'d> Tour<'d> {
    /// The next visit. `None` comes exactly at the end. The first visit is the node of the tour, without
    /// its key. The counter rises by one at each further node that is entered or is a leaf, and stays as
    /// it is where a container is left.
    pub fn next(&mut self, steps: &mut Steps) -> Option<Visit<'d>>
        ensures visit { MatchOption result ((self.old.1 ≡ []) × (self.new ≡ self.old))
            (λ v. (self.old.1 ≡ visited v ∷ self.new.1) × (self.new.0 ≡ true)) }
        ensures key { IfSome result ShowsKey }
        ensures step { steps.new ≡ (if self.old.0 && hands_out_some result then raised steps.old 1 else steps.old) }
    {
        let begun = self.has_begun();
        let visit = self.advance()?;
        if begun && visit.hands_out() {
            steps.tick();
        }
        Some(visit)
    }

    fn has_begun(&self) -> bool
        ensures { result ≡ self.now.0 }
    {
        self.at > self.first
    }

    fn advance(&mut self) -> Option<Visit<'d>>
        ensures visit { MatchOption result ((self.old.1 ≡ []) × (self.new ≡ self.old))
            (λ v. (self.old.1 ≡ visited v ∷ self.new.1) × (self.new.0 ≡ true)) }
        ensures key { IfSome result ShowsKey }
    {
        if self.depth == 0 {
            if self.at != self.first {
                return None;
            }
        } else if self.at == self.doc.end_of(self.inner) {
            let kind = self.doc.node_at(self.inner).kind();
            self.inner -= self.doc.up_at(self.inner);
            self.depth -= 1;
            return Some(Visit::Leave(kind));
        }
        let at = self.at;
        let key = shown_key(self.doc, at, self.depth);
        let node = self.doc.node_at(at);
        let member = Member { key, node };
        self.at += 1;
        match node.kind() {
            Kind::Array | Kind::Object => {
                self.inner = at;
                self.depth += 1;
                Some(Visit::Enter(member))
            }
            _ => Some(Visit::Leaf(member)),
        }
    }
}

impl<'d> Visit<'d> {
    // Whether it is a node, and no end of one.
    fn hands_out(self) -> bool
        ensures { result ≡ hands_out_some (Some self.entry) }
    {
        match self {
            Visit::Leave(_) => false,
            _ => true,
        }
    }
}
