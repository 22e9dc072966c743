// A row list goes from line to line, and its end comes again. The values of a row are those that are printed. What
// statements give for lines is in the tables of `checks/rows/`.
ghost use Rattle.std.specs.Prelude.{All, IfOk};
ghost use Rattle.sj_value.specs.Values.{IsPrintable};
ghost use Rattle.sj_bound.specs.Sound.{IsSound};
ghost use Rattle.sj_bound.specs.View.{bound_of};

use super::cases::{Counts, expect};
use sj_base::Bytes;
use sj_bind::{BindRefusal, Bound, bind};
use sj_doc::Doc;
use sj_read::read;
use sj_rows::fields_text;
use sj_select::{LineDoc, RowsOf, Turn};
use sj_sql::{NextStatement, Refused, next_statement};
use sj_value::SqlValue;
use std::alloc::Global;
use std::process::Abort;
use std::test::Fail;

/// A statement.
fn bound(alloc: Global, text: &str) -> Result<Bound, Fail>
    ensures { IfOk result (λ b. IsSound (bound_of b)) }
{
    match next_statement(alloc, text.as_bytes()) {
        Ok(NextStatement::Statement(statement, _)) => match bind(alloc, statement) {
            Ok(bound) => Ok(bound),
            Err(BindRefusal::Kind(_)) => Err(Fail::from("refused")),
            Err(BindRefusal::Memory) => Err(Fail::from("memory")),
        },
        Ok(NextStatement::End) => Err(Fail::from("no statement")),
        Err(Refused::For(_)) => Err(Fail::from("refused")),
        Err(Refused::Memory) => Err(Fail::from("memory")),
    }
}

/// The text of the row with these values.
fn text_of(alloc: Global, values: &[SqlValue]) -> Result<Bytes, Fail>
    requires { All IsPrintable values.now }
{
    let mut out = Bytes::new(alloc);
    out.push(b"3\t2\tR")?;
    fields_text(&mut out, values)?;
    out.push(b"\n")?;
    Ok(out)
}

/// The values of the rows that are left are those that other rows print, with the same end, and in as many steps. There
/// are none at the end.
fn expect_values(
    rt: &(impl Abort + Counts),
    alloc: Global,
    printed: &mut RowsOf<'_>,
    rows: &mut RowsOf<'_>,
) -> Result<(), Fail> {
    let (mut printing, mut finding) = (rt.steps(), rt.steps());
    let mut values = Vec::new(alloc);
    for _ in 0..100 {
        let mut out = Bytes::new(alloc);
        let turn = printed.print(&mut out, 3, 2, &mut printing)?;
        let found = rows.next(&mut values, &mut finding)?;
        let text = text_of(alloc, &values)?;
        assert!(rt; found == turn && printing.count() == finding.count());
        if turn != Turn::Row {
            assert!(rt; values.is_empty());
            assert!(rt; rows.next(&mut values, &mut finding)? == turn);
            return Ok(());
        }
        assert!(rt; text.as_slice() == out.as_slice());
    }
    Err("too many rows")?
}

/// How many rows are left and the end behind them. The end comes again, with no text and without a step.
fn shown(rt: &(impl Abort + Counts), alloc: Global, rows: &mut RowsOf<'_>) -> Result<String, Fail> {
    let mut steps = rt.steps();
    for count in 0..100 {
        let mut out = Bytes::new(alloc);
        let turn = rows.print(&mut out, 3, 2, &mut steps)?;
        if turn != Turn::Row {
            let spent = steps.count();
            assert!(rt; rows.print(&mut out, 3, 2, &mut steps)? == turn);
            assert!(rt; out.as_slice().is_empty() && steps.count() == spent);
            let end = if let Turn::Raised(state) = turn {
                state.code()
            } else {
                "end"
            };
            return Ok(format!(in alloc; "{count} {end}")?);
        }
        assert!(rt; out.as_slice().starts_with(b"3\t2\tR\t"));
    }
    Err("too many rows")?
}

/// Two documents, and a statement with what it gives for the first one, for the second one, and for no JSON.
const STATEMENTS: &str =
    r#"[1,2] ; [1,"x",3] ; SELECT v FROM JSON_TABLE(doc, '$[*]' COLUMNS (v INTEGER PATH '$' ERROR ON ERROR) ERROR ON ERROR); => 2 end ; 1 2203G ; 0 22032
[1,2] ; [] ; SELECT JSON_ARRAYAGG(v) FROM JSON_TABLE(doc, '$[*]' COLUMNS (v INTEGER PATH '$')); => 1 end ; 1 end ; 1 end
{"x":[1,2],"y":[3,4]} ; {"x":[],"y":[3]} ; SELECT * FROM JSON_TABLE(doc, '$' AS r COLUMNS (NESTED '$.x[*]' AS x COLUMNS (a INT PATH '$'), NESTED '$.y[*]' AS y COLUMNS (b INT PATH '$')) PLAN (r OUTER (x CROSS y))); => 4 end ; 1 end ; 0 end
{"a":1,"b":2} ; {"a":1} ; SELECT JSON_ARRAY(JSON_VALUE(doc,'$.a' ERROR ON EMPTY), 7), JSON_VALUE(doc,'$.b' ERROR ON EMPTY); => 1 end ; 0 22035 ; 1 end"#;

/// From new rows, and from rows that have begun on another line.
fn expect_lines<'d>(
    rt: &(impl Abort + Counts),
    alloc: Global,
    bound: &'d Bound,
    docs: (&'d Doc, &'d Doc),
    wants: &str,
) -> Result<(), Fail>
    requires { IsSound (bound_of bound.now) }
{
    let (first, second) = docs;
    let mut rows = RowsOf::new(alloc, bound, LineDoc::NotJson)?;
    let mut others = RowsOf::new(alloc, bound, LineDoc::Json(second))?;
    let lines = [
        LineDoc::Json(first),
        LineDoc::Json(second),
        LineDoc::NotJson,
    ];
    for _ in 0..2 {
        for (line, want) in lines.iter().zip(wants.split(" ; ")) {
            rows.rewind(LineDoc::Json(first));
            rows.print(&mut Bytes::new(alloc), 3, 2, &mut rt.steps())?;
            rows.rewind(*line);
            expect(rt, shown(rt, alloc, &mut rows)?.as_str(), want, wants);
            rows.rewind(*line);
            others.rewind(*line);
            expect_values(rt, alloc, &mut rows, &mut others)?;
        }
    }
    Ok(())
}

fn expect_case(rt: &(impl Abort + Counts), alloc: Global, case: &str) -> Result<(), Fail> {
    let (given, wants) = case.split_once(" => ").ok_or("no arrow")?;
    let (first, given) = given.split_once(" ; ").ok_or("no document")?;
    let (second, statement) = given.split_once(" ; ").ok_or("no second document")?;
    let first = read(alloc, first.as_bytes())?;
    let second = read(alloc, second.as_bytes())?;
    let bound = bound(alloc, statement)?;
    expect_lines(rt, alloc, &bound, (&first, &second), wants)
}

#[test]
fn goes_from_line_to_line(rt: HostRuntime) -> Result<(), Fail> {
    for case in STATEMENTS.lines() {
        expect_case(&rt, rt.alloc(), case)?;
    }
    Ok(())
}
