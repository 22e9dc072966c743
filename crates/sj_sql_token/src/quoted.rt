//! Strings and quoted names.

ghost use Rattle.std.specs.Prelude.{◌≡◌, ◌≤◌, ◌<◌, ◌==◌, not, length, bytes_eq, codes, IfOk, IfSome};
ghost use Rattle.std.specs.List.{prefix_len};
ghost use Rattle.sj_sql_token.specs.Quotes as spec;

use sj_base::{Memory, Text, next_is};
use std::alloc::Global;
use std::marker::Model;

/// What stands between quotation marks, lent by the file. It is seen as what it stands for: a mark inside, which the
/// file has twice, is there once.
#[derive(Drop)]
pub struct Quoted<'a> {
    /// The quotation mark.
    pub(crate) mark: u8,
    /// What stands between the marks.
    pub(crate) inside: &'a str,
}

impl<'a> Model for Quoted<'a> {
    ghost use Rattle.std.specs.Prelude.{List, ℕ};
    ghost use Rattle.sj_sql_token.specs.Quotes.{undoubled};

    ghost Value = { List ℕ };

    ghost use Rattle.std.specs.Prelude.{◌<◌};

    ghost view = { λ q. undoubled q.mark q.inside.now };

    ghost invariant = { λ q. q.mark < 97 };
}

impl Quoted<'_> {
    /// A copy of what it stands for, in time linear in it.
    pub fn to_text(&self, alloc: Global) -> Result<Text, Memory>
        ensures { IfOk result (λ t. t ≡ self.now) }
    {
        undoubled(alloc, self.mark, self.inside)
    }

    /// Whether it stands for the name of the document. It takes no memory.
    pub fn is_doc(&self) -> bool
        ensures { result ≡ bytes_eq self.now (codes "doc") }
    {
        is_doc(self.mark, self.inside)
    }
}

/// Whether a text stands for `doc`, which has no mark in it.
fn is_doc(mark: u8, inside: &str) -> bool
    requires { mark < 97 }
    ensures { result ≡ bytes_eq (spec.undoubled mark inside.now) (codes "doc") }
{
    if inside == "doc" { true } else { false }
}

/// How many bytes stand before the next mark.
fn run_len(mark: u8, bytes: &[u8]) -> usize
    ensures value { result ≡ prefix_len (λ b. not (b == mark)) bytes.now }
    ensures within { result ≤ length bytes.now }
{
    bytes.iter().take_while(|b| **b != mark).count()
}

/// How many marks stand at the front, of which one does and `after` follows it: two at most.
fn marks_len(mark: u8, after: &[u8]) -> usize
    ensures { result ≡ spec.marks_len mark after.now }
{
    if next_is(mark, after) { 2 } else { 1 }
}

/// A copy of a text, with one mark for two.
fn undoubled(alloc: Global, mark: u8, inside: &str) -> Result<Text, Memory>
    requires { mark < 128 }
    ensures { IfOk result (λ t. t ≡ spec.undoubled mark inside.now) }
{
    let mut text = String::new(alloc);
    let mut rest = inside;
    loop {
        let bytes = rest.as_bytes();
        let len = run_len(mark, bytes);
        let Some((_, after)) = bytes[len..].split_first() else {
            text.push_str(rest)?;
            return Ok(Text::from_string(text));
        };
        text.push_str(&rest[..len + 1])?;
        rest = &rest[len + marks_len(mark, after)..];
    }
}

/// How many bytes stand behind an opening mark before the closing one.
pub(crate) fn inside_len(mark: u8, after: &[u8]) -> Option<usize>
    ensures value { result ≡ spec.inside_len mark after.now }
    ensures within { IfSome result (λ n. n < length after.now) }
{
    let mut rest = after;
    let mut len = 0;
    while let Some((first, behind)) = rest.split_first() {
        if *first != mark {
            rest = behind;
            len += 1;
            continue;
        }
        let Some((second, behind)) = behind.split_first() else {
            return Some(len);
        };
        if *second != mark {
            return Some(len);
        }
        rest = behind;
        len += 2;
    }
    None
}
