//! The examples that the documentation of `sj_path` and `sj_func` names: query functions on `{"a":[1,2],"b":"x"}`.

use super::cases::{Counts, expect};
use sj_cursor::{Cursor, Inquiry};
use sj_doc::Doc;
use sj_func::{Context, Outcome, is_json, json_exists, json_query, json_value};
use sj_item::Item;
use sj_path::{Path, PathRefusal, Vars, parse_path};
use sj_read::read;
use sj_value::{
    ExistsAction, JsonKind, QueryAction, QuerySpec, SqlType, SqlValue, ValueAction, ValueSpec,
    Wrapper,
};
use std::alloc::Global;
use std::process::Abort;
use std::test::Fail;

/// The text of an outcome: of a text, a truth value, JSON or a state.
fn shown(outcome: &Outcome) -> &str {
    match outcome {
        Outcome::Value(SqlValue::Text(text)) => text.as_str(),
        Outcome::Value(SqlValue::Json(json)) => str::from_utf8(json.as_slice()).unwrap_or(
            "no text",
        ),
        Outcome::Value(SqlValue::Bool(true)) => "TRUE",
        Outcome::Value(SqlValue::Bool(false)) => "FALSE",
        Outcome::Value(SqlValue::Null) => "NULL",
        Outcome::Value(SqlValue::Num(_, _)) => "a number",
        Outcome::Raised(state) => state.code(),
    }
}

/// JSON_EXISTS, JSON_VALUE with ERROR ON ERROR and JSON_QUERY with a wrapper, with a space between them.
fn outcomes(rt: &impl Counts, alloc: Global, path: &Path, doc: &Doc) -> Result<String, Fail> {
    let (vars, mut steps) = (Vars::new(alloc), rt.steps());
    let root = Item::Node(doc.root());
    let mut inquiry = Inquiry::new(alloc, path, &vars)?;
    let context = Context::Item(root);
    let exists = json_exists(&mut inquiry, context, ExistsAction::False, &mut steps);
    let spec = ValueSpec {
        ty: SqlType::Varchar,
        on_empty: ValueAction::Null,
        on_error: ValueAction::Error,
    };
    let value = json_value(alloc, &mut inquiry, context, &spec, &mut steps)?;
    let spec = QuerySpec {
        wrapper: Wrapper::Unconditional,
        omit_quotes: false,
        on_empty: QueryAction::Null,
        on_error: QueryAction::Null,
    };
    let mut cursor = Cursor::new(alloc, path, &vars, root)?;
    let query = json_query(alloc, &mut cursor, context, &spec, &mut steps)?;
    Ok(format!(in alloc; "{} {} {}", shown(&exists), shown(&value), shown(&query))?)
}

fn expect_outcomes(
    rt: &(impl Abort + Counts),
    alloc: Global,
    path: &str,
    want: &str,
) -> Result<(), Fail> {
    let doc = read(alloc, b"{\"a\":[1,2],\"b\":\"x\"}")?;
    let path_tree = parse_path(alloc, path)?;
    expect(
        rt,
        outcomes(rt, alloc, &path_tree, &doc)?.as_str(),
        want,
        path,
    );
    Ok(())
}

#[test]
fn query_functions(rt: HostRuntime) -> Result<(), Fail> {
    expect_outcomes(&rt, rt.alloc(), "$.b", "TRUE x [\"x\"]")?;
    expect_outcomes(&rt, rt.alloc(), "$.a[*]", "TRUE 22034 [1,2]")?;
    expect_outcomes(&rt, rt.alloc(), "$.c", "FALSE NULL NULL")
}

#[test]
fn json_predicate(rt: HostRuntime) -> Result<(), Fail> {
    let doc = read(rt.alloc(), b"{\"a\":1,\"a\":2}")?;
    assert!(rt; is_json(rt.alloc(), Some(&doc), JsonKind::Object, false)?);
    assert!(rt; !is_json(rt.alloc(), Some(&doc), JsonKind::Object, true)?);
    assert!(rt; !is_json(rt.alloc(), None, JsonKind::Value, false)?);
    Ok(())
}

#[test]
fn refused_paths(rt: HostRuntime) -> Result<(), Fail> {
    assert!(rt; matches!(parse_path(rt.alloc(), "$.a["), Err(PathRefusal::Syntax)));
    assert!(rt;
        matches!(
            parse_path(rt.alloc(), "$.a.double()"),
            Err(PathRefusal::Unsupported(_))
        )
    );
    Ok(())
}
