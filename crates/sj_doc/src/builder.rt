// A document while it is being built.
ghost use Rattle.std.specs.Prelude.{◌≡◌, ◌+◌, ◌-◌, ◌<◌, ◌≤◌, ◌++◌, ◌∷◌, length, IsUtf8, [], IfOk, OnOk, OnErr, MatchResult, Some, true, false};
ghost use Rattle.sj_decimal.specs.Number.{SpellsWide};
ghost use Rattle.sj_decimal.specs.Shorts.{between};
ghost use Rattle.sj_json.specs.Tree.{null, truth, string, number, exact, wide};
ghost use Rattle.sj_json.specs.Building.{fresh, TakesValue, TakesKey, TakesClose, with_value, with_key, with_open, with_close, IsComplete, top};
ghost use Rattle.sj_doc.specs.Limits.{most_nodes, text_bound};
ghost use Rattle.sj_doc.specs.Builders.{EndsInFeeds, node_total, IsBetween, Stores, HasRoom, IsEmpty, Adds, Stays, Tells, innermost_opened};
ghost use Rattle.sj_doc.specs.Nodes.{IsNumeral, spelled};
ghost use Rattle.sj_doc.specs.Kinds.{want_of};

use crate::copied::CopiedLine;
use crate::doc::{Doc, text_at};
use crate::node::{Body, Node, Span, Want};
use sj_base::Memory;
use sj_decimal::Decimal;
use std::alloc::Global;
use std::marker::Model;

// What the innermost open container is.
#[derive(Clone, Copy, Drop)]
enum Innermost {
    // none is open
    Top,
    Array,
    Object,
}

// The nodes so far, and what the next one needs.
#[derive(Drop)]
struct OpenTree {
    nodes: Vec<Node>,
    // the key whose value comes next
    key: Option<Span>,
    innermost: Innermost,
    // the node of the innermost open container, 0 where none is open
    inner: u32,
    // how many children it has so far; where none is open, how many roots
    count: u32,
    depth: u32,
}

/// A document while it is being built, from its first token to its last. Contracts see what the innermost
/// open container holds so far, then the same of those around it, from the inside out, and the line that it
/// holds, with the line feeds behind it.
///
/// A value may come where `wants` is `Value` or `ValueOrClose` and fewer than 2^25 nodes were built. The line,
/// the line feeds and all strings, keys and numbers that do not stand in it may have 2^32 - 1 bytes together: a call that
/// would pass this gives `Memory`. A call that gives `Memory` leaves the builder as it was.
#[derive(Drop)]
pub struct DocBuilder {
    // the line, and behind it each text that does not stand in it
    arena: Vec<u8>,
    // the length of the line, with the line feeds behind it
    line: u32,
    tree: OpenTree,
}

impl Model for DocBuilder {
    ghost use Rattle.std.specs.Prelude.{ℕ, take};
    ghost use Rattle.sj_doc.specs.Builders.{Building, building_code, built_tree, IsOpenTree};

    ghost Value = { Building };

    ghost coded = { building_code };

    ghost view = { λ b. (built_tree b.arena.items b.tree, take b.line b.arena.items) };

    ghost use Rattle.sj_doc.specs.Builders.{IsInside, IsLine};

    ghost invariant = { λ b. IsOpenTree b.arena.items b.tree × IsLine b.arena.items b.line × IsInside b.arena.items b.tree };
}

// `Vec::push`, where there is no room. Its answer fits a register, which that of `Vec::push` does not.
#[inline(never)]
fn push_grown<T: Drop>(list: &mut Vec<T>, item: T) -> Result<(), Memory>
    ensures ok { OnOk result (list.new.items ≡ list.old.items ++ item ∷ []) }
    ensures err { OnErr result (list.new.items ≡ list.old.items) }
{
    list.push(item)?;
    Ok(())
}

// The item is written in place where there is room.
#[inline(always)]
fn push_in<T: Drop>(list: &mut Vec<T>, item: T) -> Result<(), Memory>
    ensures ok { OnOk result (list.new.items ≡ list.old.items ++ item ∷ []) }
    ensures err { OnErr result (list.new.items ≡ list.old.items) }
{
    if list.len() < list.capacity() {
        list.push_reserved(item);
        return Ok(());
    }
    push_grown(list, item)
}

// Puts s at the end of the text, which has room for 2^32 - 1 bytes.
#[inline(always)]
fn store(arena: &mut Vec<u8>, s: &[u8]) -> Result<Span, Memory>
    requires narrow { length arena.old.items < text_bound }
    requires utf8 { IsUtf8 s.now }
    ensures ok { IfOk result (λ span. Stores arena.old.items arena.new.items s.now span) }
    ensures err { OnErr result (arena.new.items ≡ arena.old.items) }
{
    let start = arena.len();
    if s.len() > u32::MAX as usize - start {
        return Err(Memory);
    }
    arena.extend_from_slice(s)?;
    Ok(Span {
        start: start as u32,
        len: s.len() as u32,
    })
}

// The range from the one place up to the other.
#[inline(always)]
fn span_between(from: usize, to: usize) -> Span
    requires later { from ≤ to }
    requires narrow { to < text_bound }
    ensures { IsBetween from to result }
{
    Span {
        start: from as u32,
        len: (to - from) as u32,
    }
}

// The innermost container, once one has opened.
#[inline(always)]
fn opened(is_object: bool) -> Innermost
    ensures { result ≡ innermost_opened is_object }
{
    if is_object {
        Innermost::Object
    } else {
        Innermost::Array
    }
}

impl OpenTree {
    // No node, over the memory of these.
    fn over(nodes: Vec<Node>) -> OpenTree
        ensures { IsEmpty nodes.items result }
    {
        OpenTree {
            nodes,
            key: None,
            innermost: Innermost::Top,
            inner: 0,
            count: 0,
            depth: 0,
        }
    }

    // A node at the end, under the key that was given, if one was.
    #[inline(always)]
    fn add(&mut self, body: Body) -> Result<(), Memory>
        requires { HasRoom self.old }
        ensures { MatchResult result (λ _. Adds self.old body self.new) (λ _. Stays self.old self.new) }
    {
        let key = self.key;
        push_in(
            &mut self.nodes,
            Node {
                key,
                below: 0,
                body,
            },
        )?;
        self.key = None;
        self.count += 1;
        Ok(())
    }

    // What the innermost open container is, by its node.
    #[inline(always)]
    fn seen(&self) -> Innermost
        requires { 0 < self.now.depth → self.now.inner < length self.now.nodes.items }
        ensures { Tells self.now.nodes.items self.now.inner self.now.depth result }
    {
        if self.depth == 0 {
            return Innermost::Top;
        }
        opened(self.nodes[self.inner as usize].body.is_open_object())
    }
}

impl DocBuilder {
    /// An empty builder. It takes no memory yet.
    pub fn new(alloc: Global) -> DocBuilder
        ensures { result ≡ (fresh, []) }
    {
        DocBuilder::over(Vec::new(alloc), Vec::new(alloc))
    }

    // An empty builder over the memory of these vectors.
    pub(crate) fn over(arena: Vec<u8>, nodes: Vec<Node>) -> DocBuilder
        requires no_text { arena.items ≡ [] }
        requires no_nodes { nodes.items ≡ [] }
        ensures { result ≡ (fresh, []) }
    {
        DocBuilder {
            arena,
            line: 0,
            tree: OpenTree::over(nodes),
        }
    }

    // The same, which holds the text of the first vector.
    #[inline(always)]
    pub(crate) fn over_line(arena: Vec<u8>, nodes: Vec<Node>) -> DocBuilder
        requires narrow { length arena.items < text_bound }
        requires utf8 { IsUtf8 arena.items }
        requires feeds { EndsInFeeds arena.items }
        requires no_nodes { nodes.items ≡ [] }
        ensures { result ≡ (fresh, arena.items) }
    {
        let line = arena.len() as u32;
        DocBuilder {
            arena,
            line,
            tree: OpenTree::over(nodes),
        }
    }

    /// The memory of this builder, into which the line is copied, with 16 line feeds behind it. The line need not be
    /// UTF-8.
    ///
    /// # Errors
    /// [`Memory`] where memory runs out. The memory of the builder is given back to the allocator then.
    #[inline(always)]
    pub fn copying(self, line: &[u8]) -> Result<CopiedLine, Memory>
        ensures { IfOk result (λ copied. copied ≡ line.now) }
    {
        let DocBuilder { arena, tree, .. } = self;
        CopiedLine::over(arena, tree.nodes, line)
    }

    /// What it holds: the line and the line feeds behind it, or nothing. At a byte that is no line feed, the 16 bytes behind it
    /// may be looked at without asking for the end.
    #[inline(always)]
    pub fn line(&self) -> &str
        ensures line { result.now ≡ self.now.1 }
        ensures feeds { EndsInFeeds result.now }
    {
        let span = Span {
            start: 0,
            len: self.line,
        };
        text_at(&self.arena, span)
    }

    /// A null.
    #[inline(always)]
    pub fn null(&mut self) -> Result<(), Memory>
        requires wanted { TakesValue self.old.0.0 }
        requires room { node_total self.old.0 < most_nodes }
        ensures ok { OnOk result (self.new ≡ (with_value null self.old.0, self.old.1)) }
        ensures err { OnErr result (self.new ≡ self.old) }
    {
        self.tree.add(Body::Null)
    }

    /// A truth value.
    #[inline(always)]
    pub fn truth(&mut self, b: bool) -> Result<(), Memory>
        requires wanted { TakesValue self.old.0.0 }
        requires room { node_total self.old.0 < most_nodes }
        ensures ok { OnOk result (self.new ≡ (with_value (truth b) self.old.0, self.old.1)) }
        ensures err { OnErr result (self.new ≡ self.old) }
    {
        self.tree.add(Body::Truth(b))
    }

    /// A string.
    #[inline(always)]
    pub fn text(&mut self, s: &str) -> Result<(), Memory>
        requires wanted { TakesValue self.old.0.0 }
        requires room { node_total self.old.0 < most_nodes }
        ensures ok { OnOk result (self.new ≡ (with_value (string s.now) self.old.0, self.old.1)) }
        ensures err { OnErr result (self.new ≡ self.old) }
    {
        self.text_bytes(s.as_bytes())
    }

    /// The same, by its bytes in UTF-8.
    #[inline(always)]
    pub fn text_bytes(&mut self, bytes: &[u8]) -> Result<(), Memory>
        requires wanted { TakesValue self.old.0.0 }
        requires room { node_total self.old.0 < most_nodes }
        requires utf8 { IsUtf8 bytes.now }
        ensures ok { OnOk result (self.new ≡ (with_value (string bytes.now) self.old.0, self.old.1)) }
        ensures err { OnErr result (self.new ≡ self.old) }
    {
        let span = store(&mut self.arena, bytes)?;
        self.tree.add(Body::Text(span))
    }

    /// A string that stands in the line, from the one place up to the other.
    #[inline(always)]
    pub fn text_at(&mut self, from: usize, to: usize) -> Result<(), Memory>
        requires wanted { TakesValue self.old.0.0 }
        requires room { node_total self.old.0 < most_nodes }
        requires within { (from ≤ to) × (to ≤ length self.old.1) }
        requires utf8 { IsUtf8 (between self.old.1 from to) }
        ensures ok { OnOk result (self.new ≡ (with_value (string (between self.old.1 from to)) self.old.0, self.old.1)) }
        ensures err { OnErr result (self.new ≡ self.old) }
    {
        self.tree.add(Body::Text(span_between(from, to)))
    }

    /// An exact number.
    pub fn exact(&mut self, n: Decimal) -> Result<(), Memory>
        requires wanted { TakesValue self.old.0.0 }
        requires room { node_total self.old.0 < most_nodes }
        ensures ok { OnOk result (self.new ≡ (with_value (number (exact n)) self.old.0, self.old.1)) }
        ensures err { OnErr result (self.new ≡ self.old) }
    {
        self.number(n.text().as_str())
    }

    /// A number whose value is not exact, by its spelling.
    ///
    /// The program does not call this; its tests do, and a host may.
    pub fn wide(&mut self, spelling: &str) -> Result<(), Memory>
        requires wanted { TakesValue self.old.0.0 }
        requires room { node_total self.old.0 < most_nodes }
        requires wide { SpellsWide spelling.now }
        ensures ok { OnOk result (self.new ≡ (with_value (number (wide spelling.now)) self.old.0, self.old.1)) }
        ensures err { OnErr result (self.new ≡ self.old) }
    {
        self.number(spelling)
    }

    /// A number, by its spelling. Its value is read where it is asked for. One with more than 64 bytes has to be
    /// wide: the value of another is put in by `exact`.
    ///
    /// The program puts in a number by its place in the line, with `number_at`; this is for tests and for hosts.
    #[inline(always)]
    pub fn number(&mut self, spelling: &str) -> Result<(), Memory>
        requires wanted { TakesValue self.old.0.0 }
        requires room { node_total self.old.0 < most_nodes }
        requires number { IsNumeral spelling.now }
        ensures ok { OnOk result (self.new ≡ (with_value (number (spelled spelling.now)) self.old.0, self.old.1)) }
        ensures err { OnErr result (self.new ≡ self.old) }
    {
        let span = store(&mut self.arena, spelling.as_bytes())?;
        self.tree.add(Body::Numeral(span))
    }

    /// A number that stands in the line, from the one place up to the other.
    #[inline(always)]
    pub fn number_at(&mut self, from: usize, to: usize) -> Result<(), Memory>
        requires wanted { TakesValue self.old.0.0 }
        requires room { node_total self.old.0 < most_nodes }
        requires within { (from ≤ to) × (to ≤ length self.old.1) }
        requires number { IsNumeral (between self.old.1 from to) }
        ensures ok { OnOk result (self.new ≡ (with_value (number (spelled (between self.old.1 from to))) self.old.0, self.old.1)) }
        ensures err { OnErr result (self.new ≡ self.old) }
    {
        self.tree.add(Body::Numeral(span_between(from, to)))
    }

    /// The key of the next member.
    #[inline(always)]
    pub fn key(&mut self, s: &str) -> Result<(), Memory>
        requires wanted { TakesKey self.old.0.0 }
        ensures ok { OnOk result (self.new ≡ (with_key s.now self.old.0, self.old.1)) }
        ensures err { OnErr result (self.new ≡ self.old) }
    {
        self.key_bytes(s.as_bytes())
    }

    /// The same, by its bytes in UTF-8.
    #[inline(always)]
    pub fn key_bytes(&mut self, bytes: &[u8]) -> Result<(), Memory>
        requires wanted { TakesKey self.old.0.0 }
        requires utf8 { IsUtf8 bytes.now }
        ensures ok { OnOk result (self.new ≡ (with_key bytes.now self.old.0, self.old.1)) }
        ensures err { OnErr result (self.new ≡ self.old) }
    {
        self.tree.key = Some(store(&mut self.arena, bytes)?);
        Ok(())
    }

    /// The key of the next member, which stands in the line, from the one place up to the other.
    #[inline(always)]
    pub fn key_at(&mut self, from: usize, to: usize)
        requires wanted { TakesKey self.old.0.0 }
        requires within { (from ≤ to) × (to ≤ length self.old.1) }
        requires utf8 { IsUtf8 (between self.old.1 from to) }
        ensures { self.new ≡ (with_key (between self.old.1 from to) self.old.0, self.old.1) }
    {
        // shows the proof that a place in the line has 32 bits
        let _ = &self.tree;
        self.tree.key = Some(span_between(from, to));
    }

    /// An array begins.
    #[inline(always)]
    pub fn open_array(&mut self) -> Result<(), Memory>
        requires wanted { TakesValue self.old.0.0 }
        requires room { node_total self.old.0 < most_nodes }
        ensures ok { OnOk result (self.new ≡ (with_open false self.old.0, self.old.1)) }
        ensures err { OnErr result (self.new ≡ self.old) }
    {
        self.begin(false)
    }

    /// An object begins.
    #[inline(always)]
    pub fn open_object(&mut self) -> Result<(), Memory>
        requires wanted { TakesValue self.old.0.0 }
        requires room { node_total self.old.0 < most_nodes }
        ensures ok { OnOk result (self.new ≡ (with_open true self.old.0, self.old.1)) }
        ensures err { OnErr result (self.new ≡ self.old) }
    {
        self.begin(true)
    }

    #[inline(always)]
    fn begin(&mut self, is_object: bool) -> Result<(), Memory>
        requires wanted { TakesValue self.old.0.0 }
        requires room { node_total self.old.0 < most_nodes }
        ensures ok { OnOk result (self.new ≡ (with_open is_object self.old.0, self.old.1)) }
        ensures err { OnErr result (self.new ≡ self.old) }
    {
        let at = self.tree.nodes.len() as u32;
        let parent = self.tree.inner;
        let before = self.tree.count;
        self.tree.add(Body::Opened {
            is_object,
            parent,
            before,
        })?;
        self.tree.innermost = opened(is_object);
        self.tree.inner = at;
        self.tree.count = 0;
        self.tree.depth += 1;
        Ok(())
    }

    /// The innermost container ends. It takes no memory, and the number of nodes stays the same.
    #[inline(always)]
    pub fn close(&mut self)
        requires { TakesClose self.old.0.0 }
        ensures closed { self.new ≡ (with_close self.old.0, self.old.1) }
        ensures total { node_total self.new.0 ≡ node_total self.old.0 }
    {
        let at = self.tree.inner as usize;
        let below = (self.tree.nodes.len() - at - 1) as u32;
        let node = self.tree.nodes[at];
        match node.body {
            Body::Opened {
                is_object,
                parent,
                before,
            } => {
                self.tree.nodes[at] = Node {
                    key: node.key,
                    below,
                    body: Body::Closed {
                        is_object,
                        count: self.tree.count,
                        up: self.tree.inner - parent,
                    },
                };
                self.tree.inner = parent;
                self.tree.count = before + 1;
                self.tree.depth -= 1;
                self.tree.innermost = self.tree.seen();
            }
            _ => unreachable!(),
        }
    }

    /// What may come next.
    #[inline(always)]
    pub fn wants(&self) -> Want
        ensures { result ≡ want_of self.now.0.0 }
    {
        match self.tree.innermost {
            Innermost::Top => {
                if self.tree.count == 0 {
                    Want::Value
                } else {
                    Want::Nothing
                }
            }
            Innermost::Array => Want::ValueOrClose,
            Innermost::Object => match self.tree.key {
                None => Want::KeyOrClose,
                Some(_) => Want::Value,
            },
        }
    }

    /// The number of open containers.
    #[inline]
    pub fn depth(&self) -> u64
        ensures { result ≡ length self.now.0.1 }
    {
        u64::from(self.tree.depth)
    }

    /// The document, where it is complete. It takes no memory.
    pub fn finish(self) -> Doc
        requires { IsComplete self.0 }
        ensures { self.0 ≡ (top (Some result), []) }
    {
        Doc {
            arena: self.arena,
            nodes: self.tree.nodes,
        }
    }
}
