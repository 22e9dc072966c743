//! The plan of a table over the numbers of its paths, its EXISTS columns, and the items of a list that are keys, from
//! statements that are read from texts. The rules that a statement keeps are in `checks/rows/rules.txt`.
mod tables;

use super::cases::expect;
use sj_bind::{BindRefusal, Bound, BoundColumn, BoundTable, bind};
use sj_path::nodes;
use sj_sql::{NextStatement, Refused, next_statement};
use sj_value::Plan;
use std::alloc::{AllocError, Global};
use std::process::Abort;
use std::test::Fail;
use tables::TABLES;

/// The statement of a file that has one and is accepted.
fn bound(alloc: Global, file: &str) -> Result<Bound, Fail> {
    match next_statement(alloc, file.as_bytes()) {
        Ok(NextStatement::Statement(statement, _)) => match bind(alloc, statement) {
            Ok(bound) => Ok(bound),
            Err(BindRefusal::Kind(_)) => Err(Fail::from("refused")),
            Err(BindRefusal::Memory) => Err(Fail::from("memory")),
        },
        Ok(NextStatement::End) => Err(Fail::from("no statement")),
        Err(Refused::For(_)) => Err(Fail::from("refused")),
        Err(Refused::Memory) => Err(Fail::from("memory")),
    }
}

/// A plan with numbers as a text.
fn shown(alloc: Global, plan: &Plan) -> Result<String, AllocError> {
    match plan {
        Plan::Path(n) => format!(in alloc; "{n}"),
        Plan::Outer(n, below) => {
            let below = shown(alloc, below)?;
            format!(in alloc; "({n} OUTER {below})")
        }
        Plan::Inner(n, below) => {
            let below = shown(alloc, below)?;
            format!(in alloc; "({n} INNER {below})")
        }
        Plan::Union(a, b) => {
            let a = shown(alloc, a)?;
            let b = shown(alloc, b)?;
            format!(in alloc; "({a} UNION {b})")
        }
        Plan::Cross(a, b) => {
            let a = shown(alloc, a)?;
            let b = shown(alloc, b)?;
            format!(in alloc; "({a} CROSS {b})")
        }
    }
}

/// The columns of a table that tell whether a path has an item, each with the number of its path, the nodes of its own
/// path and what an error gives.
fn existences(alloc: Global, table: &BoundTable) -> Result<String, AllocError> {
    let mut all = String::new(alloc);
    for column in table.columns.as_slice() {
        if let BoundColumn::Exists(path, own, on_error) = column {
            let shown = format!(in alloc; "[{path} {} {on_error:?}]", nodes(own))?;
            all.push_str(shown.as_str())?;
        }
    }
    Ok(all)
}

/// The plan of the table of a file of one statement, and behind it its EXISTS columns.
fn table_of(alloc: Global, file: &str) -> Result<String, Fail> {
    let bound = bound(alloc, file)?;
    let Some(table) = &bound.table else {
        return Err(Fail::from("no table"));
    };
    let plan = shown(alloc, &table.plan)?;
    let existences = existences(alloc, table)?;
    Ok(format!(in alloc; "{plan} {existences}")?)
}

#[test]
fn tables_have_the_plan_of_their_text(rt: HostRuntime) -> Result<(), Fail> {
    for line in TABLES.lines() {
        let Some((want, file)) = line.split_once(" = ") else {
            return Err(Fail::from("an answer alone"));
        };
        let found = table_of(rt.alloc(), file)?;
        expect(&rt, found.as_str().trim_end(), want, file);
    }
    Ok(())
}

#[test]
fn rows_are_as_wide_as_their_list(rt: HostRuntime) -> Result<(), Fail> {
    for (file, want) in [
        ("SELECT 1;", 1),
        ("SELECT JSON_VALUE(doc, '$.a'), JSON_ARRAY(1, 2), NULL;", 3),
        (
            "SELECT * FROM JSON_TABLE(doc, '$' COLUMNS (a INT, b INT, c INT));",
            3,
        ),
        (
            "SELECT c, 7, c, a FROM JSON_TABLE(doc, '$' COLUMNS (a INT, b INT, c INT));",
            4,
        ),
        (
            "SELECT JSON_ARRAYAGG(a) FROM JSON_TABLE(doc, '$' COLUMNS (a INT, b INT));",
            1,
        ),
    ] {
        let bound = bound(rt.alloc(), file)?;
        assert!(rt; bound.width() == want, "{file}");
    }
    Ok(())
}

/// The numbers of the items that are keys.
fn keys_of(alloc: Global, bound: &Bound) -> Result<String, AllocError> {
    let mut all = String::new(alloc);
    for number in 0..bound.width() {
        if bound.is_key(number) {
            let shown = format!(in alloc; "{number} ")?;
            all.push_str(shown.as_str())?;
        }
    }
    Ok(all)
}

#[test]
fn keys_are_single_texts(rt: HostRuntime) -> Result<(), Fail> {
    for (file, want) in [
        ("SELECT 'a', NULL, 1, TRUE;", "0 1"),
        (
            "SELECT JSON_VALUE(doc, '$.a' RETURNING VARCHAR(9)), JSON_VALUE(doc, '$.a' RETURNING INT), JSON_ARRAY('a');",
            "0",
        ),
        (
            "SELECT JSON_VALUE(doc, '$.a'), JSON_QUERY(doc, '$.a'), JSON_EXISTS(doc, '$.a'), doc IS JSON;",
            "0",
        ),
        (
            "SELECT * FROM JSON_TABLE(doc, '$' COLUMNS (a FOR ORDINALITY, b INT, c VARCHAR FORMAT JSON, d BOOLEAN EXISTS, e VARCHAR));",
            "4",
        ),
        (
            "SELECT b, a FROM JSON_TABLE(doc, '$' COLUMNS (a INT, b VARCHAR(9)));",
            "0",
        ),
        (
            "SELECT JSON_ARRAYAGG(a) FROM JSON_TABLE(doc, '$' COLUMNS (a VARCHAR));",
            "",
        ),
    ] {
        let bound = bound(rt.alloc(), file)?;
        let keys = keys_of(rt.alloc(), &bound)?;
        expect(&rt, keys.as_str().trim_end(), want, file);
    }
    Ok(())
}
