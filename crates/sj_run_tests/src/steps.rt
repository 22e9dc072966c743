//! How many steps statements take for lines. What they give is in the tables of `checks/rows/`. A step is a member,
//! element or value that is looked at. A function of one item asks for a second one and no further, and a table is asked
//! for its rows alone.
use crate::cases::Counts;
use crate::runs::{plain, repeated, run_on};
use std::alloc::Global;
use std::process::Abort;
use std::test::Fail;

/// The steps of a statement are as the text behind the arrow has it.
fn expect_steps(
    rt: &(impl Abort + Counts),
    alloc: Global,
    input: &[u8],
    line: &str,
) -> Result<(), Fail> {
    let (file, bound) = line.rsplit_once(" => ").ok_or("no arrow")?;
    let (sign, number) = bound.split_once(' ').ok_or("no number")?;
    let number: u64 = number.parse()?;
    let steps = run_on(rt, alloc, &plain(file.as_bytes(), input, 0))?.steps;
    let holds = if sign == "=" {
        steps == number
    } else {
        steps <= number
    };
    assert!(rt; holds, "{file}: {steps}");
    Ok(())
}

#[test]
fn steps_of_statements(rt: HostRuntime) -> Result<(), Fail> {
    for group in STEPS.split("\n\n") {
        let (input, lines) = group.split_once('\n').ok_or("a line alone")?;
        for line in lines.lines() {
            expect_steps(&rt, rt.alloc(), input.as_bytes(), line)?;
        }
    }
    Ok(())
}

#[test]
fn steps_over_a_million_ones(rt: HostRuntime) -> Result<(), Fail> {
    let ones = repeated(rt.alloc(), "[1", ",1", 999_999, "]")?;
    for line in [
        "SELECT JSON_VALUE(doc,'lax $[*]' ERROR ON ERROR); => = 2",
        "SELECT JSON_EXISTS(doc,'lax $[*] ? (@ == 1)'); => = 1",
    ] {
        expect_steps(&rt, rt.alloc(), ones.as_bytes(), line)?;
    }
    Ok(())
}

/// Lines, each with statements and how many steps these take for it, or how many at most.
const STEPS: &str = r##"{"a":{"b":null}}
SELECT JSON_EXISTS(doc, 'lax $.a.b' FALSE ON ERROR); => = 2
SELECT JSON_EXISTS(doc, 'lax $.a.c' FALSE ON ERROR); => = 2
SELECT JSON_EXISTS(doc, 'strict $.a.c' FALSE ON ERROR); => = 2
SELECT JSON_EXISTS(doc, 'strict $.a.c' TRUE ON ERROR); => = 2
SELECT JSON_EXISTS(doc, 'strict $.a.c' UNKNOWN ON ERROR); => = 2
SELECT JSON_EXISTS(doc, 'strict $.a.c' ERROR ON ERROR); => = 2

[1,"x"]
SELECT JSON_EXISTS(doc, 'lax $[*].abs()' ERROR ON ERROR); => = 1
SELECT JSON_EXISTS(doc, 'strict $[*].abs()' ERROR ON ERROR); => = 2
SELECT JSON_QUERY(doc, 'lax $[*].abs()' WITH UNCONDITIONAL WRAPPER NULL ON EMPTY ERROR ON ERROR); => = 2
SELECT JSON_QUERY(doc, 'lax $[*].abs()' WITH UNCONDITIONAL WRAPPER NULL ON EMPTY EMPTY OBJECT ON ERROR); => = 2
SELECT JSON_EXISTS(doc, 'lax $[*].abs()'); => <= 1
SELECT JSON_EXISTS(doc, 'strict $[*].abs()'); => <= 2

["x",1]
SELECT JSON_EXISTS(doc, 'lax $[*].abs()' ERROR ON ERROR); => = 1

{"v":["a",7]}
SELECT JSON_EXISTS(doc, 'lax $ ? (@.v[*] > 5)' ERROR ON ERROR); => = 3
SELECT JSON_EXISTS(doc, 'strict $ ? (@.v[*] > 5)' ERROR ON ERROR); => = 3
SELECT JSON_EXISTS(doc, 'lax $ ? (@.v[*] > 5)'); => <= 3
SELECT JSON_EXISTS(doc, 'strict $ ? (@.v[*] > 5)'); => <= 3

{"v":"a"}
SELECT JSON_EXISTS(doc, 'lax $ ? ((@.none == @.v.abs()) is unknown)' ERROR ON ERROR); => = 2

{"a":
SELECT JSON_EXISTS(doc, 'lax $.a' FALSE ON ERROR); => = 0
SELECT JSON_EXISTS(doc, 'lax $.a' UNKNOWN ON ERROR); => = 0
SELECT JSON_EXISTS(doc, 'strict $.a' ERROR ON ERROR); => = 0

{"a":1,"a":2}
SELECT JSON_VALUE(doc, 'lax $.a' NULL ON EMPTY ERROR ON ERROR); => = 2

[1,2,"x"]
SELECT JSON_VALUE(doc, 'lax $[*].abs()' NULL ON EMPTY ERROR ON ERROR); => = 2
SELECT JSON_VALUE(doc, 'strict $[*].abs()' NULL ON EMPTY ERROR ON ERROR); => = 3
SELECT JSON_VALUE(doc, 'lax $[*].abs()' NULL ON EMPTY NULL ON ERROR); => = 2
SELECT JSON_QUERY(doc, 'lax $[*].abs()' WITHOUT WRAPPER NULL ON EMPTY ERROR ON ERROR); => = 2
SELECT JSON_QUERY(doc, 'strict $[*].abs()' WITHOUT WRAPPER NULL ON EMPTY ERROR ON ERROR); => = 3

{"x":0.1,"y":0.2,"z":1.50,"w":1e400,"m":-0}
SELECT JSON_VALUE(doc, 'lax $.x + $.y' NULL ON EMPTY NULL ON ERROR); => = 10
SELECT JSON_VALUE(doc, 'lax $.z' NULL ON EMPTY NULL ON ERROR); => = 5
SELECT JSON_VALUE(doc, 'lax $.w' NULL ON EMPTY NULL ON ERROR); => = 5
SELECT JSON_VALUE(doc, 'lax $.m' NULL ON EMPTY NULL ON ERROR); => = 5
SELECT JSON_VALUE(doc, 'lax $.w + 1' NULL ON EMPTY ERROR ON ERROR); => = 5

[99999999999999999999999999999999999999]
SELECT JSON_VALUE(doc, 'lax $[0] + 1' NULL ON EMPTY ERROR ON ERROR); => = 1

{"a":[]}
SELECT JSON_VALUE(doc, 'lax $.a[*]' ERROR ON EMPTY NULL ON ERROR); => = 1
SELECT JSON_VALUE(doc, 'lax $.a[*]' DEFAULT 0 ON EMPTY ERROR ON ERROR); => = 1
SELECT JSON_VALUE(doc, 'lax $.a[*]' NULL ON EMPTY ERROR ON ERROR); => = 1
SELECT JSON_QUERY(doc, 'lax $.a[*]' WITHOUT WRAPPER EMPTY ARRAY ON EMPTY ERROR ON ERROR); => = 1
SELECT JSON_QUERY(doc, 'lax $.a[*]' WITH UNCONDITIONAL WRAPPER EMPTY OBJECT ON EMPTY ERROR ON ERROR); => = 1
SELECT JSON_QUERY(doc, 'lax $.a[*]' WITH CONDITIONAL WRAPPER ERROR ON EMPTY EMPTY ARRAY ON ERROR); => = 1
SELECT JSON_QUERY(doc, 'lax $.a[*]' WITHOUT WRAPPER ERROR ON EMPTY EMPTY ARRAY ON ERROR); => = 1

{"n":2.5,"m":-2.5,"big":2147483648,"t":"12x","b":true,"o":{}}
SELECT JSON_VALUE(doc, '$.n' RETURNING INTEGER NULL ON EMPTY ERROR ON ERROR); => = 6
SELECT JSON_VALUE(doc, '$.m' RETURNING INTEGER NULL ON EMPTY ERROR ON ERROR); => = 6
SELECT JSON_VALUE(doc, '$.b' NULL ON EMPTY NULL ON ERROR); => = 6
SELECT JSON_VALUE(doc, '$.t' RETURNING NUMERIC NULL ON EMPTY DEFAULT 0 ON ERROR); => = 6
SELECT JSON_VALUE(doc, '$.big' RETURNING INTEGER NULL ON EMPTY ERROR ON ERROR); => = 6
SELECT JSON_VALUE(doc, '$.o' NULL ON EMPTY ERROR ON ERROR); => = 6
SELECT JSON_VALUE(doc, '$.t' RETURNING VARCHAR(2) NULL ON EMPTY ERROR ON ERROR); => = 6
SELECT JSON_VALUE(doc, '$.t' RETURNING BIGINT NULL ON EMPTY ERROR ON ERROR); => = 6

[
SELECT JSON_VALUE(doc, '$' NULL ON EMPTY ERROR ON ERROR); => = 0
SELECT JSON_VALUE(doc, '$' ERROR ON EMPTY DEFAULT 0 ON ERROR); => = 0

{"a":[{"b":1},[{"b":2}],{"c":3}]}
SELECT JSON_QUERY(doc, 'lax $.a.b' WITH UNCONDITIONAL WRAPPER NULL ON EMPTY NULL ON ERROR); => = 6
SELECT JSON_QUERY(doc, 'strict $.a.b' WITH UNCONDITIONAL WRAPPER NULL ON EMPTY ERROR ON ERROR); => = 1

[10,20,30]
SELECT JSON_QUERY(doc, 'lax $[last, 0 to 1, 5]' WITH UNCONDITIONAL WRAPPER NULL ON EMPTY ERROR ON ERROR); => = 5
SELECT JSON_QUERY(doc, 'strict $[last, 0 to 1, 5]' WITH UNCONDITIONAL WRAPPER NULL ON EMPTY ERROR ON ERROR); => = 5

{"a":1}
SELECT JSON_QUERY(doc, 'lax $.keyvalue()' WITHOUT WRAPPER NULL ON EMPTY ERROR ON ERROR); => = 1

{"a":[1,2],"b":3}
SELECT JSON_QUERY(doc, 'lax $.a' WITH CONDITIONAL WRAPPER NULL ON EMPTY ERROR ON ERROR); => = 4
SELECT JSON_QUERY(doc, 'lax $.b' WITH CONDITIONAL WRAPPER NULL ON EMPTY ERROR ON ERROR); => = 2
SELECT JSON_QUERY(doc, 'lax $.a' WITH UNCONDITIONAL WRAPPER NULL ON EMPTY ERROR ON ERROR); => = 4
SELECT JSON_QUERY(doc, 'lax $.*' WITH CONDITIONAL WRAPPER NULL ON EMPTY ERROR ON ERROR); => = 4
SELECT JSON_QUERY(doc, 'lax $.*' WITHOUT WRAPPER NULL ON EMPTY ERROR ON ERROR); => = 2

nul
SELECT JSON_QUERY(doc, 'lax $' WITH UNCONDITIONAL WRAPPER ERROR ON EMPTY EMPTY ARRAY ON ERROR); => = 0
SELECT JSON_QUERY(doc, 'lax $' WITHOUT WRAPPER NULL ON EMPTY ERROR ON ERROR); => = 0

{"s":"x\"y","a":[1,2]}
SELECT JSON_QUERY(doc, 'lax $.s' WITHOUT WRAPPER NULL ON EMPTY ERROR ON ERROR); => = 2
SELECT JSON_QUERY(doc, 'lax $.s' WITHOUT WRAPPER OMIT QUOTES NULL ON EMPTY ERROR ON ERROR); => = 2
SELECT JSON_QUERY(doc, 'lax $.s.type()' WITHOUT WRAPPER OMIT QUOTES NULL ON EMPTY ERROR ON ERROR); => = 2
SELECT JSON_QUERY(doc, 'lax $.a' WITHOUT WRAPPER OMIT QUOTES NULL ON EMPTY ERROR ON ERROR); => = 4

{"p":[{"n":1,"x":[5,6],"y":[]},{"n":2,"x":[],"y":[]}]}
SELECT * FROM JSON_TABLE(doc, 'lax $.p[*]' AS p0 COLUMNS (o0 FOR ORDINALITY, NESTED 'lax $.x[*]' AS p1 COLUMNS (o1 FOR ORDINALITY), NESTED 'lax $.y[*]' AS p2 COLUMNS (o2 FOR ORDINALITY)) PLAN (p0 OUTER (p1 UNION p2)) EMPTY ON ERROR); => <= 34
SELECT * FROM JSON_TABLE(doc, 'lax $.p[*]' AS p0 COLUMNS (o0 FOR ORDINALITY, NESTED 'lax $.x[*]' AS p1 COLUMNS (o1 FOR ORDINALITY), NESTED 'lax $.y[*]' AS p2 COLUMNS (o2 FOR ORDINALITY)) PLAN (p0 INNER (p1 CROSS p2)) EMPTY ON ERROR); => <= 34
SELECT * FROM JSON_TABLE(doc, 'lax $.p[*]' AS p0 COLUMNS (o0 FOR ORDINALITY, NESTED 'lax $.x[*]' AS p1 COLUMNS (o1 FOR ORDINALITY)) PLAN (p0 INNER p1) EMPTY ON ERROR); => <= 22
SELECT * FROM JSON_TABLE(doc, 'lax $.p[*]' AS p0 COLUMNS (o0 FOR ORDINALITY, NESTED 'lax $.x[*]' AS p1 COLUMNS (o1 FOR ORDINALITY)) PLAN (p0 OUTER p1) ERROR ON ERROR); => <= 11
SELECT * FROM JSON_TABLE(doc, 'lax $.p[*]' AS p0 COLUMNS (o0 FOR ORDINALITY, NESTED 'lax $.x[*]' AS p1 COLUMNS (o1 FOR ORDINALITY)) PLAN (p0 INNER p1) ERROR ON ERROR); => <= 11
SELECT * FROM JSON_TABLE(doc, 'lax $.p[*]' AS p0 COLUMNS (o0 FOR ORDINALITY, NESTED 'lax $.x[*] ? (@ > 5)' AS p1 COLUMNS (o1 FOR ORDINALITY), NESTED 'lax $.y[*]' AS p2 COLUMNS (o2 FOR ORDINALITY)) PLAN (p0 OUTER (p1 UNION p2)) ERROR ON ERROR); => <= 17
SELECT * FROM JSON_TABLE(doc, 'lax $.p[*]' AS p0 COLUMNS (o0 FOR ORDINALITY, NESTED 'lax $.x[*]' AS p1 COLUMNS (o1 FOR ORDINALITY), NESTED 'lax $.y[*]' AS p2 COLUMNS (o2 FOR ORDINALITY)) PLAN (p0 OUTER (p1 CROSS p2)) ERROR ON ERROR); => <= 17
SELECT * FROM JSON_TABLE(doc,'lax $.p[*]' COLUMNS (n INTEGER, NESTED PATH 'lax $.x[*]' COLUMNS (x INTEGER PATH 'lax $'), NESTED PATH 'lax $.y[*]' COLUMNS (y INTEGER PATH 'lax $'))); => <= 43

{"order":1001,"lines":[{"sku":"A-1"},{"sku":"B-7"}]}
SELECT * FROM JSON_TABLE(doc, 'lax $.lines[*]' AS p0 COLUMNS (o0 FOR ORDINALITY) PLAN (p0) EMPTY ON ERROR); => <= 8
SELECT * FROM JSON_TABLE(doc, 'lax $.lines[*].sku' AS p0 COLUMNS (o0 FOR ORDINALITY) PLAN (p0) EMPTY ON ERROR); => <= 12

{"x":[1,2],"y":["a","b"]}
SELECT * FROM JSON_TABLE(doc, 'lax $' AS p0 COLUMNS (o0 FOR ORDINALITY, NESTED 'lax $.x[*]' AS p1 COLUMNS (o1 FOR ORDINALITY), NESTED 'lax $.y[*]' AS p2 COLUMNS (o2 FOR ORDINALITY)) PLAN (p0 OUTER (p1 CROSS p2)) EMPTY ON ERROR); => <= 24
SELECT * FROM JSON_TABLE(doc, 'lax $' AS p0 COLUMNS (o0 FOR ORDINALITY, NESTED 'lax $.x[*]' AS p1 COLUMNS (o1 FOR ORDINALITY), NESTED 'lax $.y[*]' AS p2 COLUMNS (o2 FOR ORDINALITY)) PLAN (p0 OUTER (p2 UNION p1)) EMPTY ON ERROR); => <= 16
SELECT * FROM JSON_TABLE(doc, 'lax $.z' AS p0 COLUMNS (o0 FOR ORDINALITY) PLAN (p0) EMPTY ON ERROR); => <= 4
SELECT * FROM JSON_TABLE(doc, 'lax $' AS p0 COLUMNS (o0 FOR ORDINALITY, NESTED 'lax $.x[0, last]' AS p1 COLUMNS (o1 FOR ORDINALITY), NESTED 'lax $.y[1 to 5]' AS p2 COLUMNS (o2 FOR ORDINALITY)) PLAN (p0 OUTER (p1 CROSS p2)) ERROR ON ERROR); => <= 13

{"g":[{"e":[1]},{"e":["x"]},{"e":[2]}]}
SELECT * FROM JSON_TABLE(doc, 'lax $.g[*]' AS p0 COLUMNS (o0 FOR ORDINALITY, NESTED 'lax $.e[*].abs()' AS p1 COLUMNS (o1 FOR ORDINALITY)) PLAN (p0 OUTER p1) EMPTY ON ERROR); => <= 18
SELECT * FROM JSON_TABLE(doc, 'lax $.g[*]' AS p0 COLUMNS (o0 FOR ORDINALITY, NESTED 'lax $.e[*].abs()' AS p1 COLUMNS (o1 FOR ORDINALITY)) PLAN (p0 OUTER p1) ERROR ON ERROR); => <= 14
SELECT * FROM JSON_TABLE(doc, 'strict $.g.e' AS p0 COLUMNS (o0 FOR ORDINALITY) PLAN (p0) EMPTY ON ERROR); => <= 1
SELECT * FROM JSON_TABLE(doc, 'strict $.g.e' AS p0 COLUMNS (o0 FOR ORDINALITY) PLAN (p0) ERROR ON ERROR); => <= 1
SELECT * FROM JSON_TABLE(doc, 'lax $.g[0, 2]' AS p0 COLUMNS (o0 FOR ORDINALITY, NESTED 'lax $.e[*]' AS p1 COLUMNS (o1 FOR ORDINALITY)) PLAN (p0 INNER p1) EMPTY ON ERROR); => <= 18

{"g":[{"e":[{"f":[7]},{"f":[]}]},{"e":[]}]}
SELECT * FROM JSON_TABLE(doc, 'lax $.g[*]' AS p0 COLUMNS (o0 FOR ORDINALITY, NESTED 'lax $.e[*]' AS p1 COLUMNS (o1 FOR ORDINALITY, NESTED 'lax $.f[*]' AS p2 COLUMNS (o2 FOR ORDINALITY))) PLAN (p0 OUTER (p1 OUTER p2)) EMPTY ON ERROR); => <= 20

{"g":[{"e":[{"f":1},{"h":2}]},{"e":[{"f":3}]}]}
SELECT * FROM JSON_TABLE(doc, 'strict $.g[*].e[*].f' AS p0 COLUMNS (o0 FOR ORDINALITY) PLAN (p0) EMPTY ON ERROR); => <= 7
SELECT * FROM JSON_TABLE(doc, 'strict $.g[*].e[*].f' AS p0 COLUMNS (o0 FOR ORDINALITY) PLAN (p0) ERROR ON ERROR); => <= 7
SELECT * FROM JSON_TABLE(doc, 'lax $.g[*]' AS p0 COLUMNS (o0 FOR ORDINALITY, NESTED 'strict $.e[*].f' AS p1 COLUMNS (o1 FOR ORDINALITY)) PLAN (p0 OUTER p1) EMPTY ON ERROR); => <= 14
SELECT * FROM JSON_TABLE(doc, 'lax $.g[*]' AS p0 COLUMNS (o0 FOR ORDINALITY, NESTED 'strict $.e[*].f' AS p1 COLUMNS (o1 FOR ORDINALITY)) PLAN (p0 OUTER p1) ERROR ON ERROR); => <= 7

{"a":1,"b":2,"a":3}
SELECT JSON_EXISTS(doc, 'lax $.a'); => <= 1

{"a":1,"b":2}
SELECT JSON_EXISTS(doc, 'lax $.c'); => <= 2
SELECT JSON_EXISTS(doc, 'lax $ ? (@.a == 1 || @.b == 1)'); => <= 1

null
SELECT JSON_EXISTS(doc, '$ + 1'); => <= 0

[1,[2]]
SELECT JSON_QUERY(doc, '$'); => = 3

{"a":[],"a\n":{"b":true,"c":"x"}}
SELECT JSON_QUERY(doc, '$'); => = 4

{"\t":[1,[2]]}
SELECT JSON_QUERY(doc, '$.keyvalue()'); => = 4

-1E400
SELECT JSON_QUERY(doc, '$'); => = 0"##;
