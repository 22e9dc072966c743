// Objects that a refused member leaves as they were. What constructors and aggregates give is in the tables of
// `checks/rows/`.

use super::cases::expect;
use sj_base::Text;
use sj_build::{BuildRefusal, ObjectAgg};
use sj_value::{Nulls, SqlValue};
use std::alloc::Global;
use std::process::Abort;
use std::test::Fail;

/// NULL, a truth value, or a text.
fn value(alloc: Global, word: &str) -> Result<SqlValue, Fail> {
    match word {
        "NULL" => Ok(SqlValue::Null),
        "TRUE" => Ok(SqlValue::Bool(true)),
        "FALSE" => Ok(SqlValue::Bool(false)),
        _ => Ok(SqlValue::Text(Text::from_str(alloc, word)?)),
    }
}

/// Adds a member of the words on both sides of an equals sign, and says in which state it is refused.
fn added(alloc: Global, object: &mut ObjectAgg, word: &str) -> Result<&'static str, Fail> {
    let (name, word) = word.split_once('=').ok_or("no equals sign")?;
    match object.add(&value(alloc, name)?, &value(alloc, word)?) {
        Ok(()) => Ok("added"),
        Err(BuildRefusal::State(state)) => Ok(state.code()),
        Err(BuildRefusal::Memory) => Err("memory")?,
    }
}

/// The text of an object, or NULL.
fn shown(value: &SqlValue) -> &str {
    match value {
        SqlValue::Json(text) => str::from_utf8(text.as_slice()).unwrap_or("no text"),
        SqlValue::Null => "NULL",
        _ => "no result",
    }
}

/// The text that an object lends, or NULL where it has none.
fn lent(object: &ObjectAgg) -> &str {
    let text = object.text();
    if text.is_empty() {
        "NULL"
    } else {
        str::from_utf8(text).unwrap_or("no text")
    }
}

/// Members, each with what becomes of it, and behind the bar the object.
const MEMBERS: &str =
    r#"NULL=TRUE 22004;a=NULL added;a=TRUE added;a=FALSE 22030;a=NULL added;NULL=NULL 22004;b=FALSE added;b=TRUE 22030;a=x 22030;c=x added | {"a":true,"b":false,"c":"x"}
NULL=TRUE 22004 | NULL"#;

/// Adds the members of a line.
fn expect_members(
    rt: &impl Abort,
    alloc: Global,
    object: &mut ObjectAgg,
    members: &str,
) -> Result<(), Fail> {
    for member in members.split(';') {
        let (word, want) = member.split_once(' ').ok_or("no answer")?;
        expect(rt, added(alloc, object, word)?, want, word);
    }
    Ok(())
}

/// Adds the members of a line to an object, and compares the text that it lends then and what it is at the end.
fn expect_object(rt: &impl Abort, alloc: Global, line: &str) -> Result<(), Fail> {
    let (members, want) = line.split_once(" | ").ok_or("no object")?;
    let mut object = ObjectAgg::new(alloc, Nulls::Absent, true);
    expect_members(rt, alloc, &mut object, members)?;
    expect(rt, lent(&object), want, members);
    expect(rt, shown(&object.finish()), want, members);
    Ok(())
}

#[test]
fn a_refused_member_changes_nothing(rt: HostRuntime) -> Result<(), Fail> {
    for line in MEMBERS.lines() {
        expect_object(&rt, rt.alloc(), line)?;
    }
    Ok(())
}
