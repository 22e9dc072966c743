// The text of a node, by its tour.
ghost use Rattle.std.specs.Prelude.{◌≡◌, ◌++◌, ◌≤◌, OnOk, OnErr, Some, option_map};
ghost use Rattle.sj_base.specs.Count.{raised};
ghost use Rattle.sj_json.specs.Tree.{below};
ghost use Rattle.sj_json.specs.Printing.{printed, printed_string};
ghost use Rattle.sj_doc.specs.Listed.{node_tree, node_key};
ghost use Rattle.sj_doc.specs.Visits.{visited, ShowsKey, ShowsItsKey};
ghost use Rattle.sj_text.specs.Prefixes.{AppendsPrefix};
ghost use Rattle.sj_text.specs.Rendering.{IsScalar, IsVisit, comma, lead, opening, closing, visit_printed, place_after};

use crate::place::Place;
use crate::scalar::{number_text, truth_text};
use crate::stored::{is_short_string, led, led_by_comma, short_key};
use crate::string::any_text;
use crate::window::push_front;
use sj_base::{Bytes, Memory, Steps};
use sj_doc::{Kind, Member, NodeRef, StoredText, Visit};

impl Place {
    // The place of what comes after a visit.
    fn after(visit: Visit<'_>) -> Place
        ensures { result ≡ place_after (visited visit.entry) }
    {
        match visit {
            Visit::Enter(_) => Place::First,
            Visit::Leave(_) | Visit::Leaf(_) => Place::Later,
        }
    }
}

// Appends the text of a node. It visits the nodes one by one, without recursion and without memory of its own.
pub(crate) fn node_text(node: NodeRef<'_>, out: &mut Bytes, steps: &mut Steps) -> Result<(), Memory>
    ensures ok { OnOk result (out.new ≡ out.old ++ printed (node_tree node.entry)) }
    ensures err { OnErr result (AppendsPrefix out.old (printed (node_tree node.entry)) out.new) }
    ensures steps { OnOk result (steps.new ≡ raised steps.old (below (node_tree node.entry))) }
    ensures at_most { OnErr result (steps.new ≤ raised steps.old (below (node_tree node.entry))) }
{
    let mut tour = node.tour();
    let mut place = Place::First;
    while let Some(visit) = tour.next(steps) {
        visit_text(place, visit, out)?;
        place = Place::after(visit);
    }
    Ok(())
}

// Appends what one visit brings.
#[inline(always)]
fn visit_text(place: Place, visit: Visit<'_>, out: &mut Bytes) -> Result<(), Memory>
    requires visit { IsVisit (visited visit) }
    requires key { ShowsKey visit }
    ensures ok { OnOk result (out.new ≡ out.old ++ visit_printed place (visited visit.entry)) }
    ensures err { OnErr result (AppendsPrefix out.old (visit_printed place (visited visit.entry)) out.new) }
{
    match visit {
        Visit::Enter(member) => {
            lead_text(place, member, out)?;
            opening_text(member.node.kind(), out)
        }
        Visit::Leave(kind) => closing_text(kind, out),
        Visit::Leaf(member) => {
            lead_text(place, member, out)?;
            scalar_text(member.node, out)
        }
    }
}

// Appends what comes before a value: a comma behind another value, and its key where it has one.
#[inline(always)]
fn lead_text(place: Place, member: Member<'_>, out: &mut Bytes) -> Result<(), Memory>
    requires { ShowsItsKey member }
    ensures ok { OnOk result (out.new ≡ out.old ++ lead place (option_map (λ s. s.now) member.entry.key)) }
    ensures err { OnErr result (AppendsPrefix out.old (lead place (option_map (λ s. s.now) member.entry.key)) out.new) }
{
    match member.key {
        Some(key) => key_text(place, key, member.node, out),
        None => comma_text(place, out),
    }
}

// Appends a comma behind another value.
#[inline(always)]
fn comma_text(place: Place, out: &mut Bytes) -> Result<(), Memory>
    ensures ok { OnOk result (out.new ≡ out.old ++ comma place) }
    ensures err { OnErr result (out.new ≡ out.old) }
{
    match place {
        Place::First => Ok(()),
        Place::Later => out.push(b","),
    }
}

// Appends a key with its colon, and a comma before it behind another member.
#[inline(always)]
fn key_text(place: Place, key: &str, node: NodeRef<'_>, out: &mut Bytes) -> Result<(), Memory>
    requires { node_key node ≡ Some key.now }
    ensures ok { OnOk result (out.new ≡ out.old ++ lead place (Some key.now)) }
    ensures err { OnErr result (AppendsPrefix out.old (lead place (Some key.now)) out.new) }
{
    let Some(window) = short_key(node, key) else {
        return any_key_text(place, key, out);
    };
    match place {
        Place::First => push_front(out, &led(b'"', window), key.len() + 3),
        Place::Later => push_front(out, &led_by_comma(window), key.len() + 4),
    }
}

// The same for any key, part by part.
#[inline(never)]
fn any_key_text(place: Place, key: &str, out: &mut Bytes) -> Result<(), Memory>
    ensures ok { OnOk result (out.new ≡ out.old ++ lead place (Some key.now)) }
    ensures err { OnErr result (AppendsPrefix out.old (lead place (Some key.now)) out.new) }
{
    comma_text(place, out)?;
    any_text(key, out)?;
    out.push(b":")
}

fn opening_text(kind: Kind, out: &mut Bytes) -> Result<(), Memory>
    ensures ok { OnOk result (out.new ≡ out.old ++ opening kind) }
    ensures err { OnErr result (out.new ≡ out.old) }
{
    match kind {
        Kind::Array => out.push(b"["),
        _ => out.push(b"{"),
    }
}

fn closing_text(kind: Kind, out: &mut Bytes) -> Result<(), Memory>
    ensures ok { OnOk result (out.new ≡ out.old ++ closing kind) }
    ensures err { OnErr result (out.new ≡ out.old) }
{
    match kind {
        Kind::Array => out.push(b"]"),
        _ => out.push(b"}"),
    }
}

// Appends the text of a node that is no array and no object.
#[inline(always)]
fn scalar_text(node: NodeRef<'_>, out: &mut Bytes) -> Result<(), Memory>
    requires { IsScalar (node_tree node) }
    ensures ok { OnOk result (out.new ≡ out.old ++ printed (node_tree node.entry)) }
    ensures err { OnErr result (AppendsPrefix out.old (printed (node_tree node.entry)) out.new) }
{
    match node.kind() {
        Kind::Null => out.push(b"null"),
        Kind::Truth => truth_text(node.truth(), out),
        Kind::String => stored_string_text(node.stored_text(), out),
        Kind::Number => number_text(node, out),
        Kind::Array | Kind::Object => unreachable!(),
    }
}

// Appends a string that a document stores. Most are short.
#[inline(always)]
fn stored_string_text(stored: StoredText<'_>, out: &mut Bytes) -> Result<(), Memory>
    ensures ok { OnOk result (out.new ≡ out.old ++ printed_string stored.entry.text.now) }
    ensures err { OnErr result (AppendsPrefix out.old (printed_string stored.entry.text.now) out.new) }
{
    if let Some(window) = stored.window {
        if is_short_string(stored.text, window) {
            return push_front(out, &led(b'"', window), stored.text.len() + 2);
        }
    }
    any_text(stored.text, out)
}
