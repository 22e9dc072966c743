// What whole paths give of small documents, and how many steps a cursor takes.
mod paths;

use super::cases::{Counts, expect, expect_count};
use paths::PATHS;
use sj_base::{Bytes, Text};
use sj_cursor::{Cursor, Inquiry};
use sj_decimal::Decimal;
use sj_doc::{Doc, NodeRef};
use sj_item::{Item, Pull};
use sj_path::{Path, Vars, nodes, parse_path};
use sj_path_tree::Literal;
use sj_read::read;
use sj_text::item_text;
use std::alloc::{AllocError, Global};
use std::process::Abort;
use std::test::Fail;

// $n, $p and $t
fn variables(alloc: Global) -> Result<Vars, Fail> {
    let mut vars = Vars::new(alloc);
    let five = Decimal::from_parts(5, 0).ok_or("not exact")?;
    vars.push(Text::from_str(alloc, "n")?, Literal::Num(five))?;
    if !vars.has("p") {
        let start = Text::from_str(alloc, "An")?;
        vars.push(Text::from_str(alloc, "p")?, Literal::Text(start))?;
    }
    if !vars.has("t") {
        vars.push(Text::from_str(alloc, "t")?, Literal::Bool(true))?;
    }
    Ok(vars)
}

// The word for an answer.
fn word(answer: Pull<'_>) -> &'static str {
    match answer {
        Pull::Item(_) => "item",
        Pull::End => "End",
        Pull::Fault(state) => state.code(),
    }
}

// The text of an answer, and a space.
fn push_answer(rt: &impl Counts, answer: Pull<'_>, out: &mut Bytes) -> Result<(), Fail> {
    match answer {
        Pull::Item(item) => item_text(item, out, &mut rt.steps())?,
        end => out.push(word(end).as_bytes())?,
    }
    out.push(b" ")?;
    Ok(())
}

// The answers of a cursor up to its end, but at most so many, and the steps that they took. An end comes again without
// a step.
fn trail(
    rt: &(impl Abort + Counts),
    alloc: Global,
    cursor: &mut Cursor<'_>,
    may_hold: u64,
    most: usize,
) -> Result<String, Fail> {
    let mut steps = rt.steps();
    let mut out = Bytes::new(alloc);
    for _ in 0..most {
        let answer = cursor.next(&mut steps);
        push_answer(rt, answer, &mut out)?;
        assert!(rt; cursor.held() <= may_hold);
        if !matches!(answer, Pull::Item(_)) {
            let count = steps.count();
            expect(
                rt,
                word(cursor.next(&mut steps)),
                word(answer),
                "the end again",
            );
            expect_count(rt, steps.count(), count);
            break;
        }
    }
    out.push(format!(in alloc; "{}", steps.count())?.as_bytes())?;
    Ok(String::from_utf8(out.into_vec())?)
}

fn expect_answers(
    rt: &(impl Abort + Counts),
    alloc: Global,
    cursor: &mut Cursor<'_>,
    may_hold: u64,
    most: usize,
    want: &str,
) -> Result<(), Fail> {
    let found = trail(rt, alloc, cursor, may_hold, most)?;
    expect(rt, found.as_str(), want, "");
    Ok(())
}

// From a new cursor, and from one that has gone through the document before.
fn expect_answers_twice(
    rt: &(impl Abort + Counts),
    alloc: Global,
    tree: &Path,
    vars: &Vars,
    doc: &Doc,
    most: usize,
    want: &str,
) -> Result<(), Fail> {
    let root = Item::Node(doc.root());
    let may_hold = nodes(tree).saturating_mul(3);
    let mut cursor = Cursor::new(alloc, tree, vars, root)?;
    expect_answers(rt, alloc, &mut cursor, may_hold, most, want)?;
    cursor.rewind(root);
    expect_answers(rt, alloc, &mut cursor, may_hold, most, want)
}

// A path's answers on a document.
fn expect_trail(
    rt: &(impl Abort + Counts),
    alloc: Global,
    path: &str,
    vars: &Vars,
    doc: &Doc,
    most: usize,
    want: &str,
) -> Result<(), Fail> {
    let tree = parse_path(alloc, path)?;
    expect_answers_twice(rt, alloc, &tree, vars, doc, most, want)
}

fn expect_in_modes(
    rt: &(impl Abort + Counts),
    alloc: Global,
    path: &str,
    vars: &Vars,
    doc: &Doc,
    answers: &str,
) -> Result<(), Fail> {
    let (lax, strict) = answers.split_once(" ; ").unwrap_or((answers, answers));
    let in_lax = format!(in alloc; "lax {path}")?;
    expect_trail(rt, alloc, in_lax.as_str(), vars, doc, 20, lax)?;
    let in_strict = format!(in alloc; "strict {path}")?;
    expect_trail(rt, alloc, in_strict.as_str(), vars, doc, 20, strict)
}

#[test]
fn gives_items_and_ends(rt: HostRuntime) -> Result<(), Fail> {
    let vars = variables(rt.alloc())?;
    let mut doc = read(rt.alloc(), b"null")?;
    let mut paths: usize = 0;
    for line in PATHS.lines() {
        match line.split_once(" => ") {
            Some((path, answers)) => {
                expect_in_modes(&rt, rt.alloc(), path, &vars, &doc, answers)?;
                paths = paths.wrapping_add(1);
            }
            None if line.is_empty() => {}
            None => doc = read(rt.alloc(), line.as_bytes())?,
        }
    }
    assert!(rt; paths == 379);
    Ok(())
}

// A text many times, then the inner one, then another as often.
fn nested(
    alloc: Global,
    open: &str,
    many: usize,
    inner: &str,
    close: &str,
) -> Result<String, AllocError> {
    let mut text = String::new(alloc);
    for _ in 0..many {
        text.push_str(open)?;
    }
    text.push_str(inner)?;
    for _ in 0..many {
        text.push_str(close)?;
    }
    Ok(text)
}

#[test]
fn asks_no_further_than_it_must(rt: HostRuntime) -> Result<(), Fail> {
    let alloc = rt.alloc();
    let vars = Vars::new(alloc);
    let ones = nested(alloc, "", 999_999, "[1", ",1")?;
    let ones = format!(in alloc; "{ones}]")?;
    let ones = read(alloc, ones.as_bytes())?;
    for (path, want) in [
        ("lax $[*]", "1 1"),
        ("lax $[*] ? (@ == 1)", "1 1"),
        ("strict $[*] ? (@ == 1)", "1 1"),
        ("lax $ ? (@ == 1)", "1 1"),
        ("lax $.abs()", "1 1"),
        ("lax $ ? (exists($[*]))", "1 2"),
        ("lax $ ? (1 == 1 || exists($[*]))", "1 1"),
        ("lax $ ? ($[*] == $[*])", "1 3"),
        ("lax $[*] + 1", "22038 2"),
        ("lax $[$[*]]", "22033 2"),
        ("lax $[2, 0]", "1 3"),
        ("strict $[999999]", "1 1000000"),
    ] {
        expect_trail(&rt, alloc, path, &vars, &ones, 1, want)?;
    }
    Ok(())
}

#[test]
fn goes_into_deep_paths(rt: HostRuntime) -> Result<(), Fail> {
    let alloc = rt.alloc();
    let vars = Vars::new(alloc);
    let members = nested(alloc, "{\"a\":", 250, "1", "}")?;
    for (open, many, inner, close, text, want) in [
        ("", 250, "$", ".a", members.as_str(), "1 End 250"),
        ("", 128, "$", "[*]", "1", "1 End 0"),
        ("", 250, "$", " ? (@ == 1)", "1", "1 End 0"),
        ("", 256, "1", " + 1", "1", "257 End 0"),
        ("-", 256, "1", "", "1", "1 End 0"),
        ("(", 64, "$", ")", "1", "1 End 0"),
        ("(1 + ", 64, "1", ")", "1", "65 End 0"),
        ("$[", 64, "0", "]", "[0]", "0 End 64"),
        ("$ ? (exists(", 32, "$", "))", "1", "1 End 0"),
        ("$ ? (!exists(", 32, "$", "))", "1", "1 End 0"),
        ("$ ? (!exists(", 31, "$", "))", "1", "End 0"),
    ] {
        let path = nested(alloc, open, many, inner, close)?;
        let doc = read(alloc, text.as_bytes())?;
        expect_trail(&rt, alloc, path.as_str(), &vars, &doc, 20, want)?;
    }
    Ok(())
}

// A path's answers on one node, from a cursor that has given some answers on another one.
fn expect_answers_on_second(
    rt: &(impl Abort + Counts),
    alloc: Global,
    tree: &Path,
    vars: &Vars,
    (first, second): (NodeRef<'_>, NodeRef<'_>),
    pulls: usize,
    want: &str,
) -> Result<(), Fail> {
    let may_hold = nodes(tree).saturating_mul(3);
    let mut cursor = Cursor::new(alloc, tree, vars, Item::Node(first))?;
    assert!(rt; cursor.mode() == tree.mode);
    trail(rt, alloc, &mut cursor, may_hold, pulls)?;
    cursor.rewind(Item::Node(second));
    expect_answers(rt, alloc, &mut cursor, may_hold, 20, want)
}

// The same of a path on the first element and the second one of an array.
fn expect_other_trail(
    rt: &(impl Abort + Counts),
    alloc: Global,
    path: &str,
    vars: &Vars,
    doc: &Doc,
    pulls: usize,
    want: &str,
) -> Result<(), Fail> {
    let mut steps = rt.steps();
    let mut elements = doc.root().children();
    let first = elements.next(&mut steps).ok_or("no first element")?;
    let second = elements.next(&mut steps).ok_or("no second element")?;
    let tree = parse_path(alloc, path)?;
    let both = (first.node, second.node);
    expect_answers_on_second(rt, alloc, &tree, vars, both, pulls, want)
}

#[test]
fn begins_again_on_another_root(rt: HostRuntime) -> Result<(), Fail> {
    let alloc = rt.alloc();
    let vars = Vars::new(alloc);
    for (text, path, pulls, want) in [
        (
            "[{\"a\":[{\"b\":1},[{\"b\":2}],{\"c\":3}]},{\"a\":{\"b\":2}}]",
            "lax $.a.b",
            1,
            "2 End 2",
        ),
        ("[[10,20,30],[7]]", "lax $[last, 0 to 1, 5]", 2, "7 7 End 2"),
        ("[[1],[1,2,3]]", "strict $[0, 2]", 3, "1 3 End 4"),
        ("[[1,2],[5]]", "lax $[*] + 1", 1, "6 End 1"),
        ("[[1,1],[2,1,2]]", "lax $[*] ? (@ == $[0])", 1, "2 2 End 6"),
        (
            "[{\"a\":1,\"b\":2},{\"c\":3}]",
            "lax -$.keyvalue().value",
            1,
            "-3 End 1",
        ),
    ] {
        let doc = read(alloc, text.as_bytes())?;
        expect_other_trail(&rt, alloc, path, &vars, &doc, pulls, want)?;
    }
    Ok(())
}

// What an inquiry holds once it was asked whether there is an item, and a cursor behind its first item and its end.
fn held_by(
    rt: &(impl Abort + Counts),
    alloc: Global,
    tree: &Path,
    doc: &Doc,
) -> Result<String, Fail> {
    let (vars, mut steps) = (Vars::new(alloc), rt.steps());
    let root = Item::Node(doc.root());
    let may_hold = nodes(tree).saturating_mul(3);
    let mut inquiry = Inquiry::new(alloc, tree, &vars)?;
    assert!(rt; inquiry.exists(root, &mut steps)?);
    let asked = inquiry.held();
    let mut cursor = Cursor::new(alloc, tree, &vars, root)?;
    cursor.next(&mut steps);
    let first = cursor.held();
    assert!(rt; asked <= may_hold && first <= may_hold);
    cursor.next(&mut steps);
    Ok(format!(in alloc; "{asked} {first} {}", cursor.held())?)
}

#[test]
fn holds_items_of_its_path_alone(rt: HostRuntime) -> Result<(), Fail> {
    let alloc = rt.alloc();
    for (text, path, want) in [
        ("{\"a\":1}", "lax $.a", "0 2 1"),
        ("{\"a\":[{\"b\":1}]}", "lax $.a[*].b", "0 4 1"),
        ("[{\"a\":1}]", "lax $[*] ? (@.a == 1)", "2 2 1"),
    ] {
        let doc = read(alloc, text.as_bytes())?;
        let tree = parse_path(alloc, path)?;
        let found = held_by(&rt, alloc, &tree, &doc)?;
        expect(&rt, found.as_str(), want, path);
    }
    Ok(())
}
