// Whether an object of a document has two equal keys.
ghost use Rattle.std.specs.Prelude.{◌≡◌, ◌<◌, ◌↔◌, map, IsTrue, IfOk, OnOk, IsSorted};
ghost use Rattle.std.specs.Ordering.{nat_cmp};
ghost use Rattle.std.specs.Cmp.Lexicographic.{slice_cmp};
ghost use Rattle.sj_json.specs.Keys.{AreDistinct, keys as tree_keys, HasUniqueKeys};
ghost use Rattle.sj_doc.specs.Listed.{node_tree};
ghost use Rattle.sj_doc.specs.Slots.{texts, slot};

use crate::doc::{Doc, NodeRef};
use sj_base::Memory;
use std::alloc::Global;

// More keys than this are sorted, so that no object takes quadratic time.
const MAX_UNSORTED: usize = 64;

const SLOTS: usize = 256;

// It may change the order of the keys.
fn are_distinct(keys: &mut [&str]) -> bool
    ensures { IsTrue result ↔ AreDistinct (texts keys.old) }
{
    if keys.len() <= MAX_UNSORTED {
        return each_is_new(keys);
    }
    keys.sort_unstable();
    neighbours_differ(keys)
}

// A key is compared with those before it only where one of them has its slot.
fn each_is_new(keys: &[&str]) -> bool
    ensures { IsTrue result ↔ AreDistinct (texts keys.now) }
{
    let mut taken = [false; SLOTS];
    for i in 0..keys.len() {
        let key = keys[i];
        let slot = slot_of(key);
        if taken[slot] && keys[..i].contains(&key) {
            return false;
        }
        taken[slot] = true;
    }
    true
}

fn slot_of(key: &str) -> usize
    ensures value { result ≡ slot key.now }
    ensures within { result < SLOTS }
{
    let bytes = key.as_bytes();
    let len = bytes.len();
    if len == 0 {
        return 0;
    }
    (len % SLOTS * 37 + bytes[len / 2] as usize * 11 + bytes[len - 1] as usize) % SLOTS
}

fn neighbours_differ(keys: &[&str]) -> bool
    requires { IsSorted (λ a b. slice_cmp nat_cmp a.now b.now) keys.now }
    ensures { IsTrue result ↔ AreDistinct (texts keys.now) }
{
    for later in 1..keys.len() {
        if keys[later - 1] == keys[later] {
            return false;
        }
    }
    true
}

// Puts the keys of the node, none where it is no object, in place of those that stood there.
fn collect<'d>(node: NodeRef<'d>, keys: &mut Vec<&'d str>) -> Result<(), Memory>
    ensures { OnOk result (texts keys.new.items ≡ tree_keys (node_tree node.entry)) }
{
    keys.clear();
    let mut children = node.children();
    while let Some(child) = children.advance() {
        if let Some(key) = child.key {
            keys.push(key)?;
        }
    }
    Ok(())
}

impl Doc {
    /// Whether no object of the document, at any depth, has two equal keys. It takes time n log n in the
    /// members of each object, and counts no steps.
    pub fn unique_keys(&self, alloc: Global) -> Result<bool, Memory>
        ensures { IfOk result (λ unique. IsTrue unique ↔ HasUniqueKeys self.now) }
    {
        let mut keys = Vec::new(alloc);
        for at in 0..self.count() {
            collect(self.node_at(at), &mut keys)?;
            if !are_distinct(&mut keys) {
                return Ok(false);
            }
        }
        Ok(true)
    }
}
