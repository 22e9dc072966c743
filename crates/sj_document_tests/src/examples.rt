//! The examples that the documentation of `sj_decimal` and `sj_read` names.

use crate::cases::{Counts, expect};
use sj_decimal::{Decimal, NumFault, Parsed, is_number};
use sj_doc::Doc;
use sj_read::{LineRead, ReadRefusal, read, read_over};
use std::alloc::Global;
use std::cmp::Ordering;
use std::process::Abort;
use std::test::Fail;

/// The exact decimal that a text spells.
fn number(text: &str) -> Result<Decimal, Fail> {
    match Decimal::parse(text.as_bytes()) {
        Parsed::Exact(number) => Ok(number),
        Parsed::Wide | Parsed::NotNumber => Err("no exact number".into()),
    }
}

fn expect_number(rt: &impl Abort, found: Result<Decimal, NumFault>, want: &str, about: &str) {
    match found {
        Ok(number) => expect(rt, number.text().as_str(), want, about),
        Err(NumFault::Range) => expect(rt, "out of range", want, about),
        Err(NumFault::ZeroDivide) => expect(rt, "divided by zero", want, about),
    }
}

#[test]
fn numbers_are_read(rt: HostRuntime) -> Result<(), Fail> {
    expect(&rt, number("-1.50e1")?.text().as_str(), "-15", "parse");
    assert!(rt; matches!(Decimal::parse(b"1e40"), Parsed::Wide));
    assert!(rt; matches!(Decimal::parse(b"01"), Parsed::NotNumber));
    assert!(rt; is_number(b"1e40") && !is_number(b".5"));
    assert!(rt; number("0.5")?.cmp(number("0.25")?) == Ordering::Greater);
    Ok(())
}

#[test]
fn numbers_are_computed(rt: HostRuntime) -> Result<(), Fail> {
    let (a, b) = (number("1.5")?, number("-2.25")?);
    expect_number(&rt, a.add(b), "-0.75", "add");
    expect_number(&rt, a.sub(b), "3.75", "sub");
    expect_number(&rt, a.mul(b), "-3.375", "mul");
    expect_number(&rt, a.div(b), "-0.6666666666666666", "div");
    expect_number(&rt, b.rem(a), "-0.75", "rem");
    let zero = number("0")?;
    expect_number(&rt, a.div(zero), "divided by zero", "div by zero");
    Ok(())
}

#[test]
fn numbers_are_rounded(rt: HostRuntime) -> Result<(), Fail> {
    let number = number("-2.25")?;
    expect(&rt, number.floor().text().as_str(), "-3", "floor");
    expect(&rt, number.ceiling().text().as_str(), "-2", "ceiling");
    expect_number(&rt, number.round_to(4, 1), "-2.3", "round_to");
    expect_number(&rt, number.round_to(2, 2), "out of range", "round_to");
    Ok(())
}

/// How many children the root has.
fn size(rt: &impl Counts, doc: &Doc) -> u64 {
    let mut steps = rt.steps();
    let mut children = doc.root().children();
    for _ in 0..100 {
        if children.next(&mut steps).is_none() {
            break;
        }
    }
    steps.count()
}

fn expect_lines(rt: &(impl Abort + Counts), alloc: Global) -> Result<(), Fail> {
    let first = read(alloc, b"{\"a\":1,\"a\":2}")?;
    assert!(rt; size(rt, &first) == 2);
    let mut buffer = Vec::new(alloc);
    let LineRead::Json(second) = read_over(alloc, first.recycle(), &mut buffer, b"[1, 2, 3]")?
    else {
        return Err("the line is JSON".into());
    };
    assert!(rt; size(rt, &second) == 3);
    Ok(())
}

#[test]
fn lines_are_read(rt: HostRuntime) -> Result<(), Fail> {
    expect_lines(&rt, rt.alloc())?;
    assert!(rt; matches!(read(rt.alloc(), b"[1,]"), Err(ReadRefusal::NotJson)));
    Ok(())
}
