//! Calls for one or two items that the program makes in another form: comparisons of items that are handed over, and the items of one accessor.

use super::cases::{Counts, expect};
use sj_base::Bytes;
use sj_doc::Doc;
use sj_item::{Compare, Item, Pull, Truth, compare, starts_with};
use sj_path_tree::Mode;
use sj_read::read;
use sj_step::Reach;
use sj_text::item_text;
use sj_walk::Walk;
use std::alloc::Global;
use std::process::Abort;
use std::test::Fail;

fn letter(truth: Truth) -> &'static str {
    match truth {
        Truth::True => "T",
        Truth::False => "F",
        Truth::Unknown => "U",
    }
}

// The six comparisons of two items, and whether the one starts with the other.
fn compared(alloc: Global, left: &Item<'_>, right: &Item<'_>) -> Result<String, Fail> {
    let mut found = String::new(alloc);
    for op in [
        Compare::Eq,
        Compare::Ne,
        Compare::Lt,
        Compare::Le,
        Compare::Gt,
        Compare::Ge,
    ] {
        found.push_str(letter(compare(op, left.copy(), right.copy())))?;
    }
    found.push_str(letter(starts_with(left.copy(), right.copy())))?;
    Ok(found)
}

fn expect_compared(
    rt: &impl Abort,
    alloc: Global,
    (left, right): (&str, &str),
    want: &str,
) -> Result<(), Fail> {
    let left_doc = read(alloc, left.as_bytes())?;
    let right_doc = read(alloc, right.as_bytes())?;
    let left_item = Item::Node(left_doc.root());
    let right_item = Item::Node(right_doc.root());
    let found = compared(alloc, &left_item, &right_item)?;
    expect(rt, found.as_str(), want, left);
    Ok(())
}

#[test]
fn compares_items(rt: HostRuntime) -> Result<(), Fail> {
    for (left, right, want) in [
        ("1", "1.0", "TFFTFTU"),
        ("1", "2", "FTTTFFU"),
        ("1", "1e400", "UUUUUUU"),
        ("\"ab\"", "\"a\"", "FTFFTTT"),
        ("\"a\"", "\"ab\"", "FTTTFFF"),
        ("false", "true", "FTTTFFU"),
        ("null", "null", "TFFTFTU"),
        ("null", "1", "FTFFFFU"),
        ("1", "\"1\"", "UUUUUUU"),
        ("[]", "[]", "UUUUUUU"),
    ] {
        expect_compared(&rt, rt.alloc(), (left, right), want)?;
    }
    Ok(())
}

// The items of a walk and its end, which comes again, and the steps.
fn walked(rt: &impl Counts, alloc: Global, walk: &mut Walk<'_>) -> Result<String, Fail> {
    let mut steps = rt.steps();
    let mut out = Bytes::new(alloc);
    for _ in 0..9 {
        match walk.next(&mut steps) {
            Pull::Item(item) => {
                item_text(item, &mut out, &mut rt.steps())?;
                out.push(b" ")?;
            }
            Pull::End => out.push(b"End ")?,
            Pull::Fault(state) => {
                out.push(state.code().as_bytes())?;
                out.push(b" ")?;
            }
        }
    }
    out.push(format!(in alloc; "{}", steps.count())?.as_bytes())?;
    Ok(String::from_utf8(out.into_vec())?)
}

fn expect_walked(
    rt: &(impl Abort + Counts),
    alloc: Global,
    reach: Reach<'_>,
    doc: &Doc,
    mode: Mode,
    want: &str,
) -> Result<(), Fail> {
    let mut walk = Walk::start(reach, Item::Node(doc.root()), mode);
    let found = walked(rt, alloc, &mut walk)?;
    assert!(rt; found.as_str().starts_with(want), "{found}");
    Ok(())
}

#[test]
fn walks_over_items(rt: HostRuntime) -> Result<(), Fail> {
    for (text, reach, mode, want) in [
        (
            "[7,8]",
            Reach::AllElements,
            Mode::Strict,
            "7 8 End End End End End End End 2",
        ),
        (
            "[7,8,9]",
            Reach::Range(1, 1),
            Mode::Lax,
            "8 End End End End End End End End 2",
        ),
        (
            "{\"a\":1,\"b\":2,\"a\":3}",
            Reach::Member("a"),
            Mode::Lax,
            "1 3 End End End End End End End 3",
        ),
        (
            "{\"b\":2}",
            Reach::Member("a"),
            Mode::Strict,
            "2203A 2203A 2203A",
        ),
        ("5", Reach::AllElements, Mode::Strict, "22039 22039 22039"),
    ] {
        let doc = read(rt.alloc(), text.as_bytes())?;
        expect_walked(&rt, rt.alloc(), reach, &doc, mode, want)?;
    }
    Ok(())
}
