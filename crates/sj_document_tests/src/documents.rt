// A document is built, walked and built anew.
use crate::cases::{Counts, expect, expect_count};
use sj_base::Memory;
use sj_decimal::{Decimal, Parsed};
use sj_doc::{Doc, DocBuilder, Kind, Num, Want};
use std::alloc::Global;
use std::process::Abort;
use std::test::Fail;

// {"a":"x","a":[true,null]}
fn built(rt: &impl Abort, alloc: Global) -> Result<Doc, Memory> {
    let mut builder = DocBuilder::new(alloc);
    builder.open_object()?;
    assert!(rt; builder.wants() == Want::KeyOrClose);
    builder.key("a")?;
    builder.text("x")?;
    builder.key("a")?;
    builder.open_array()?;
    builder.truth(true)?;
    builder.null()?;
    expect_count(rt, builder.depth(), 2);
    builder.close();
    builder.close();
    Ok(builder.finish())
}

fn walks(rt: &(impl Abort + Counts), doc: &Doc) -> Result<(), Fail> {
    let mut steps = rt.steps();
    let mut members = doc.root().children();
    let first = members.next(&mut steps).ok_or("no member")?;
    expect(rt, first.key.ok_or("no key")?, "a", "key");
    assert!(rt; first.node.kind() == Kind::String);
    let second = members.next(&mut steps).ok_or("no second member")?;
    expect_count(rt, second.node.len(), 2);
    expect_count(rt, second.node.id(), 2);
    let element = second.node.children().next(&mut steps).ok_or("no element")?;
    assert!(rt; element.node.kind() == Kind::Truth);
    assert!(rt; doc.root().tour().next(&mut steps).is_some());
    expect_count(rt, steps.count(), 3);
    Ok(())
}

// The search for the children under a key.
fn searches(rt: &(impl Abort + Counts), doc: &Doc) -> Result<(), Fail> {
    let mut steps = rt.steps();
    let mut under = doc.root().children();
    let found = under
        .next_under("a", &mut steps)
        .ok_or("no member under the key")?;
    expect_count(rt, found.id(), 1);
    assert!(rt; under.next_under("b", &mut steps).is_none());
    expect_count(rt, steps.count(), 2);
    Ok(())
}

#[test]
fn builds_and_walks(rt: HostRuntime) -> Result<(), Fail> {
    let doc = built(&rt, rt.alloc())?;
    assert!(rt; !doc.unique_keys(rt.alloc())?);
    walks(&rt, &doc)?;
    searches(&rt, &doc)?;
    assert!(rt; doc.recycle().wants() == Want::Value);
    Ok(())
}

#[test]
fn holds_a_line_with_line_feeds_behind_it(rt: HostRuntime) -> Result<(), Fail> {
    let builder = DocBuilder::new(rt.alloc());
    expect(&rt, builder.line(), "", "no line");
    let builder = builder.copying("[1]".as_bytes())?.hold();
    let want = "[1]\n\n\n\n\n\n\n\n\n\n\n\n\n\n\n\n";
    expect(&rt, builder.line(), want, "a line");
    let builder = builder.copying(b"\xff")?.give_up();
    expect(&rt, builder.line(), "", "no line again");
    Ok(())
}

// [1.5,-7]
fn numbers(alloc: Global) -> Result<Doc, Fail> {
    let mut builder = DocBuilder::new(alloc);
    builder.open_array()?;
    builder.exact(Decimal::from_parts(15, 1).ok_or("no decimal")?)?;
    builder.exact(Decimal::from_parts(-7, 0).ok_or("no decimal")?)?;
    builder.close();
    Ok(builder.finish())
}

fn expect_numbers(rt: &(impl Abort + Counts), doc: &Doc) -> Result<(), Fail> {
    let mut steps = rt.steps();
    let mut elements = doc.root().children();
    for wanted in ["1.5", "-7"] {
        let element = elements.next(&mut steps).ok_or("no element")?;
        assert!(rt; element.node.kind() == Kind::Number);
        match element.node.number() {
            Num::Exact(n) => expect(rt, n.text().as_str(), wanted, "exact"),
            Num::Wide(spelling) => expect(rt, spelling, wanted, "wide"),
        }
    }
    Ok(())
}

// A document of one number that is put in by its spelling.
fn spelled(alloc: Global, spelling: &str) -> Result<Doc, Fail> {
    let mut builder = DocBuilder::new(alloc);
    match Decimal::parse(spelling.as_bytes()) {
        Parsed::Exact(_) if spelling.len() <= 64 => {
            builder.number(spelling)?;
            Ok(builder.finish())
        }
        Parsed::Wide => {
            builder.wide(spelling)?;
            Ok(builder.finish())
        }
        _ => Err("no short number")?,
    }
}

// What the number at the root of a document is told as.
fn told(alloc: Global, doc: &Doc) -> Result<String, Fail> {
    let root = doc.root();
    if root.kind() != Kind::Number {
        return Err("the root is no number".into());
    }
    match root.number() {
        Num::Exact(n) => Ok(format!(in alloc; "exact {}", n.text().as_str())?),
        Num::Wide(spelling) => Ok(format!(in alloc; "wide {spelling}")?),
    }
}

#[test]
fn keeps_numbers(rt: HostRuntime) -> Result<(), Fail> {
    let doc = numbers(rt.alloc())?;
    expect_numbers(&rt, &doc)?;
    for (spelling, want) in [
        ("1.50", "exact 1.5"),
        ("-0", "exact 0"),
        ("1e400", "wide 1e400"),
    ] {
        let doc = spelled(rt.alloc(), spelling)?;
        let found = told(rt.alloc(), &doc)?;
        expect(&rt, found.as_str(), want, spelling);
    }
    Ok(())
}
