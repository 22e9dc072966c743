// Lines that are cut at each place, what a document then has, and the limits. Which texts are JSON and what they are read as
// is in `checks/rows/json.txt`.
use crate::cases::{Counts, expect, expect_count};
use sj_doc::{Doc, Kind, Visit};
use sj_read::{LineRead, ReadRefusal, read, read_over};
use std::alloc::Global;
use std::process::Abort;
use std::test::Fail;

// Whether the line is read. Memory is ample.
fn is_read(alloc: Global, line: &[u8]) -> Result<bool, Fail> {
    match read(alloc, line) {
        Ok(_) => Ok(true),
        Err(ReadRefusal::NotJson) => Ok(false),
        Err(ReadRefusal::Memory) => Err("out of memory".into()),
    }
}

// Stops the test where the line is read and should not be, or is not read and should be.
fn expect_read(rt: &impl Abort, alloc: Global, line: &[u8], json: bool) -> Result<(), Fail> {
    assert!(rt; is_read(alloc, line)? == json, "{line:?}");
    Ok(())
}

// Line ends are white space, but end no string. A line of the program has none.
#[test]
fn takes_line_ends_for_white_space(rt: HostRuntime) -> Result<(), Fail> {
    for line in [" \t\r\ntrue\n", "[\n\t1\r,\n2 ]\n", "{\t\"a\"\n:\r1 }"] {
        expect_read(&rt, rt.alloc(), line.as_bytes(), true)?;
    }
    expect_read(&rt, rt.alloc(), b"\"a\nb\"", false)?;
    expect_read(&rt, rt.alloc(), b"", false)?;
    expect_read(&rt, rt.alloc(), b" ", false)
}

#[test]
fn refuses_a_truncated_line(rt: HostRuntime) -> Result<(), Fail> {
    let lines: [&[u8]; 6] = [
        b"{\"a\":{\"b\":[null,true,\"x\"]},\"c\":false}",
        b"[1.5,-2e7,{\"\\n\":0}]",
        b"\"\\ud83d\\ude00 \\u00e9\\\\\"",
        b" { \"id\" : -0.50E+10 , \"a\" : [ ] , \"a\" : { } }",
        b"[[[\"\\\"\\\\\\/\\b\\f\\n\\r\\t\"],1234567890123456789.5],\"\xc3\xa9\xf0\x9f\x98\x80\"]",
        b"{\"\\ud83d\\ude00\":{\"\":[true,false,null]},\"12345678901234567890123456789012345678901234567890\":0}",
    ];
    for line in lines {
        for end in 0..line.len() {
            expect_read(&rt, rt.alloc(), &line[..end], false)?;
        }
        expect_read(&rt, rt.alloc(), line, true)?;
    }
    Ok(())
}

const MEMBERS: &[u8] = b"{\"a\":null,\"b\":[true,\"x\"],\"a\":{}}";

/// They have these keys, kinds, numbers and sizes.
fn expect_members(rt: &(impl Abort + Counts), doc: &Doc) -> Result<(), Fail> {
    let mut steps = rt.steps();
    let mut children = doc.root().children();
    let wanted = [
        ("a", Kind::Null, 1, 0),
        ("b", Kind::Array, 2, 2),
        ("a", Kind::Object, 5, 0),
    ];
    for (key, kind, id, len) in wanted {
        let child = children.next(&mut steps).ok_or("a child is missing")?;
        expect(rt, child.key.ok_or("no key")?, key, "key");
        assert!(rt; child.node.kind() == kind);
        expect_count(rt, child.node.id(), id);
        expect_count(rt, child.node.len(), len);
    }
    assert!(rt; children.next(&mut steps).is_none());
    expect_count(rt, steps.count(), 3);
    Ok(())
}

#[test]
fn keeps_members_in_order(rt: HostRuntime) -> Result<(), Fail> {
    let doc = read(rt.alloc(), MEMBERS)?;
    expect_members(&rt, &doc)?;
    assert!(rt; !doc.unique_keys(rt.alloc())?);
    Ok(())
}

#[test]
fn reads_on_in_the_memory_of_a_line_that_is_no_json(rt: HostRuntime) -> Result<(), Fail> {
    let alloc = rt.alloc();
    let mut buffer = Vec::new(alloc);
    let first = read(alloc, MEMBERS)?;
    let LineRead::NotJson(builder) = read_over(
        alloc,
        first.recycle(),
        &mut buffer,
        b"[1, {\"a\\n\": 2}",
    )?
    else {
        return Err("the line is not JSON".into());
    };
    let LineRead::Json(second) = read_over(alloc, builder, &mut buffer, b" [ ] ")? else {
        return Err("the line is JSON".into());
    };
    assert!(rt; second.root().kind() == Kind::Array);
    assert!(rt; second.unique_keys(alloc)?);
    Ok(())
}

// A string is passed over many bytes at a step: it may end or be broken at any of them.
fn expect_ends(rt: &impl Abort, alloc: Global, line: &mut Vec<u8>) -> Result<(), Fail> {
    for letters in 0..80 {
        line.push(b'"')?;
        expect_read(rt, alloc, line, true)?;
        line.extend_from_slice(b"                                        ")?;
        expect_read(rt, alloc, line, true)?;
        line.truncate(letters + 1);
        line.extend_from_slice(b"\x1f                                      \"")?;
        expect_read(rt, alloc, line, false)?;
        line.truncate(letters + 1);
        expect_read(rt, alloc, line, false)?;
        line.push(b'a')?;
    }
    Ok(())
}

#[test]
fn finds_the_end_of_a_string(rt: HostRuntime) -> Result<(), Fail> {
    let mut line = Vec::new(rt.alloc());
    line.push(b'"')?;
    expect_ends(&rt, rt.alloc(), &mut line)
}

// A sign for what the visit is, and the number of its node, 0 where it leaves one.
fn shape(visit: Visit<'_>) -> (char, u64) {
    match visit {
        Visit::Enter(member) => ('[', member.node.id()),
        Visit::Leaf(member) => ('.', member.node.id()),
        Visit::Leave(Kind::Array) => (']', 0),
        Visit::Leave(_) => ('}', 0),
    }
}

fn expect_tour(rt: &(impl Abort + Counts), doc: &Doc) -> Result<(), Fail> {
    let mut steps = rt.steps();
    let mut tour = doc.root().tour();
    let wanted = [
        ('[', 0),
        ('.', 1),
        ('[', 2),
        ('.', 3),
        ('}', 0),
        ('[', 4),
        (']', 0),
        (']', 0),
    ];
    for (sign, id) in wanted {
        let visit = tour.next(&mut steps).ok_or("a visit is missing")?;
        assert!(rt; shape(visit) == (sign, id));
    }
    assert!(rt; tour.next(&mut steps).is_none());
    expect_count(rt, steps.count(), 4);
    Ok(())
}

#[test]
fn tours_in_order(rt: HostRuntime) -> Result<(), Fail> {
    let doc = read(rt.alloc(), b"[true,{\"a\":\"x\"},[]]")?;
    expect_tour(&rt, &doc)
}
