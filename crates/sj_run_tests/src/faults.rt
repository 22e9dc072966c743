//! Calls that fail, sinks without room, and the cuts of an input. What statements give for lines is in the tables of
//! `checks/rows/`.
use crate::cases::{Counts, expect};
use crate::runs::{ROOT, Setup, plain, repeated, run_on, told};
use sj_file::Status;
use std::alloc::Global;
use std::process::Abort;
use std::test::Fail;

const THREE: &[u8] = b"{\"a\":{\"b\":null}}\n{\"a\":{\"b\":null}}\n{\"a\":{\"b\":null}}\n";

/// The numbers of a text, between commas; of a dash none.
fn numbers(alloc: Global, text: &str) -> Result<Vec<u64>, Fail> {
    let mut all = Vec::new(alloc);
    if text != "-" {
        for number in text.split(',') {
            all.push(number.parse()?)?;
        }
    }
    Ok(all)
}

/// Runs over three lines of 17 bytes, with what fails or is short: the words, the calls of the shelf and of the input
/// that fail, how many bytes a read gives at most, and the room for what is written and for the message.
const FAULTS: &str = r#"run f;-;-;0;99;99 => Done "1\t1\tR\tTRUE\n2\t1\tR\tTRUE\n3\t1\tR\tTRUE\n" ""
run f;0;-;0;99;99 => ShelfFault "" "statement file cannot be read\n"
run f;1;-;0;99;99 => ShelfFault "" "statement file cannot be read\n"
run f;2;-;0;99;99 => ShelfFault "" "statement file cannot be read\n"
run f;1;-;0;99;0 => ShelfFault "" ""
check f;1;-;0;99;99 => ShelfFault "" "statement file cannot be read\n"
selfrun 3 f;1;-;0;99;99 => ShelfFault "" "statement file cannot be read\n"
show f;1;-;0;99;99 => ShelfFault "" "statement file cannot be read\n"
group f;1;-;0;99;99 => ShelfFault "" "statement file cannot be read\n"
group f;-;-;0;99;99 => Refused(1, Group) "" "statement 1: not a statement to group\n"
selfrun 3 g;-;-;0;99;0 => ShelfFault "" ""
run -x;-;-;0;99;0 => Usage "" ""
run f;-;0;17;99;99 => ReadFault "" "input failed\n"
run f;-;1;17;99;99 => ReadFault "1\t1\tR\tTRUE\n" "input failed\n"
run f;-;2;17;99;99 => ReadFault "1\t1\tR\tTRUE\n2\t1\tR\tTRUE\n" "input failed\n"
run f;-;3;17;99;99 => ReadFault "1\t1\tR\tTRUE\n2\t1\tR\tTRUE\n3\t1\tR\tTRUE\n" "input failed\n"
run f;-;1;26;99;99 => ReadFault "1\t1\tR\tTRUE\n" "input failed\n"
run f;-;1;26;99;0 => ReadFault "1\t1\tR\tTRUE\n" ""
run f;-;4;17;99;99 => Done "1\t1\tR\tTRUE\n2\t1\tR\tTRUE\n3\t1\tR\tTRUE\n" ""
run f;-;-;0;32;99 => WriteFault "1\t1\tR\tTRUE\n2\t1\tR\tTRUE\n3\t1\tR\tTRUE" "output failed\n"
run f;-;-;0;32;0 => WriteFault "1\t1\tR\tTRUE\n2\t1\tR\tTRUE\n3\t1\tR\tTRUE" ""
run f;-;-;0;0;99 => WriteFault "" "output failed\n"
check f;-;-;0;5;99 => WriteFault "accep" "output failed\n"
check f;-;-;0;5;0 => WriteFault "accep" ""
check f;-;-;0;99;0 => Done "accepted 1\n" ""
show f;-;-;0;5;99 => WriteFault "SELEC" "output failed\n"
show f;-;-;0;99;0 => Done "SELECT JSON_EXISTS(doc, 'lax $' FALSE ON ERROR);\n" ""
selfrun 3 f;-;-;0;9;99 => WriteFault "lines 3 r" "output failed\n"
selfrun 3 f;-;-;0;99;0 => Done "lines 3 rows 3 errors 0 bytes 33\n" """#;

const TO_GROUP: &[u8] =
    b"SELECT JSON_VALUE(doc, '$.k'), JSON_VALUE(doc, '$.v' RETURNING INTEGER ERROR ON ERROR);";

const KEYS: &[u8] = b"{\"k\":\"a\",\"v\":1}\n{\"k\":\"b\",\"v\":\"x\"}\n{\"k\":\"a\",\"v\":2}\n";

/// The same of a grouping over lines of 16, 18 and 16 bytes, of which the second gives an error row.
const GROUPS: &str = r#"group f;-;-;0;99;99 => Done "2\t1\tE\t2203G\nG\ta\t2\t[1,2]\n" ""
group f;-;-;1;99;99 => Done "2\t1\tE\t2203G\nG\ta\t2\t[1,2]\n" ""
group f;-;0;17;99;99 => ReadFault "" "input failed\n"
group f;-;2;17;99;99 => ReadFault "2\t1\tE\t2203G\n" "input failed\n"
group f;-;3;17;99;99 => ReadFault "2\t1\tE\t2203G\n" "input failed\n"
group f;-;4;17;99;99 => Done "2\t1\tE\t2203G\nG\ta\t2\t[1,2]\n" ""
group f;-;-;0;5;99 => WriteFault "2\t1\tE" "output failed\n"
group f;-;-;0;20;0 => WriteFault "2\t1\tE\t2203G\nG\ta\t2\t[1" """#;

/// The same of a scan over those lines, of which each gives a row of 8 or 10 bytes. No file is asked for.
const SCANS: &str = r#"scan $.v;-;-;0;99;99 => Done "1\t1\tR\t1\n2\t1\tR\t\"x\"\n3\t1\tR\t2\n" ""
scan $.v;0;-;0;99;99 => Done "1\t1\tR\t1\n2\t1\tR\t\"x\"\n3\t1\tR\t2\n" ""
scan $.v;-;0;17;99;99 => ReadFault "" "input failed\n"
scan $.v;-;2;17;99;99 => ReadFault "1\t1\tR\t1\n2\t1\tR\t\"x\"\n" "input failed\n"
scan $.v;-;-;0;5;99 => WriteFault "1\t1\tR" "output failed\n"
scan $[;0;-;0;99;99 => Refused(1, PathSyntax) "" "statement 1: path: syntax error\n"
scan $.v.size();0;-;0;99;99 => Refused(1, NotForward) "" "statement 1: path is not forward\n""#;

/// What a run of this file over these lines tells, whose words and faults a text gives.
fn told_of(
    rt: &impl Counts,
    alloc: Global,
    file: &[u8],
    input: &[u8],
    text: &str,
) -> Result<String, Fail> {
    let mut fields = text.split(';');
    let words = fields.next().ok_or("no words")?;
    let shelf_fails = numbers(alloc, fields.next().ok_or("no calls of the shelf")?)?;
    let input_fails = numbers(alloc, fields.next().ok_or("no calls of the input")?)?;
    let setup = Setup {
        words,
        shelf_fails: &shelf_fails,
        input_fails: &input_fails,
        room: 0,
        ..plain(file, input, fields.next().ok_or("no cut")?.parse()?)
    };
    let room = fields.next().ok_or("no room")?.parse()?;
    let note_room = fields.next().ok_or("no room for the message")?.parse()?;
    let ran = run_on(
        rt,
        alloc,
        &Setup {
            room,
            note_room,
            ..setup
        },
    )?;
    told(alloc, &ran)
}

#[test]
fn faults_at_each_call_and_sinks_without_room(rt: HostRuntime) -> Result<(), Fail> {
    for line in FAULTS.lines() {
        let (text, want) = line.split_once(" => ").ok_or("no arrow")?;
        let found = told_of(&rt, rt.alloc(), ROOT, THREE, text)?;
        expect(&rt, found.as_str(), want, text);
    }
    for line in GROUPS.lines() {
        let (text, want) = line.split_once(" => ").ok_or("no arrow")?;
        let found = told_of(&rt, rt.alloc(), TO_GROUP, KEYS, text)?;
        expect(&rt, found.as_str(), want, text);
    }
    for line in SCANS.lines() {
        let (text, want) = line.split_once(" => ").ok_or("no arrow")?;
        let found = told_of(&rt, rt.alloc(), TO_GROUP, KEYS, text)?;
        expect(&rt, found.as_str(), want, text);
    }
    Ok(())
}

#[test]
fn refusals_without_room_for_the_message(rt: HostRuntime) -> Result<(), Fail> {
    for (note_room, want) in [
        (99, r#"Refused(1, Syntax) "" "statement 1: syntax error\n""#),
        (0, r#"Refused(1, Syntax) "" """#),
    ] {
        let setup = Setup {
            note_room,
            ..plain(b"SELECT 1", THREE, 0)
        };
        let ran = run_on(&rt, rt.alloc(), &setup)?;
        expect(&rt, told(rt.alloc(), &ran)?.as_str(), want, "refused");
    }
    Ok(())
}

// Lines, a blank one and one that is no JSON, with at most so many bytes at each read.
#[test]
fn lines_in_any_cut(rt: HostRuntime) -> Result<(), Fail> {
    let file = b"SELECT JSON_EXISTS(doc, 'lax $.a.b');".as_slice();
    let input = b"{\"a\":{\"b\":null}}\n{\"a\":\"x\"}\n \t\r\n{\"a\":\n".as_slice();
    for cut in 0..40 {
        let ran = run_on(&rt, rt.alloc(), &plain(file, input, cut))?;
        expect(
            &rt,
            told(rt.alloc(), &ran)?.as_str(),
            r#"Done "1\t1\tR\tTRUE\n2\t1\tR\tFALSE\n4\t1\tR\tFALSE\n" """#,
            "cut",
        );
    }
    Ok(())
}

const MANY_ROWS: &[u8] =
    b"SELECT * FROM JSON_TABLE(doc,'lax $' COLUMNS (NESTED 'lax $.x[*]' COLUMNS (a INTEGER PATH 'lax $'), NESTED 'lax $.x[*]' COLUMNS (b INTEGER PATH 'lax $')) PLAN DEFAULT (CROSS));";

// A line of many rows is written before it ends, and a sink that is full stops it.
#[test]
fn rows_are_written_within_a_line(rt: HostRuntime) -> Result<(), Fail> {
    let alloc = rt.alloc();
    let input = repeated(alloc, "{\"x\":[10", ",10", 119, "]}")?;
    let setup = plain(MANY_ROWS, input.as_bytes(), 0);
    let whole = run_on(&rt, alloc, &setup)?;
    assert!(rt; whole.status == Status::Done);
    assert!(rt; whole.out.len() == 120 * 120 * 12);
    let room = 70_000;
    let cut = run_on(&rt, alloc, &Setup { room, ..setup })?;
    assert!(rt; cut.status == Status::WriteFault);
    assert!(rt; cut.out.len() == room);
    assert!(rt; whole.out.as_slice().starts_with(cut.out.as_slice()));
    Ok(())
}

/// The runs in which one call of the output fails, or one of the input: each in turn, up to the first that no run comes to.
/// What was written is a beginning of what the whole run writes, and no shorter than where the call before fails. It says
/// how many runs failed.
fn failed_in_turn(
    rt: &(impl Abort + Counts),
    alloc: Global,
    setup: &Setup<'_>,
    of_input: bool,
) -> Result<u64, Fail> {
    let whole = run_on(rt, alloc, setup)?;
    let status = if of_input {
        Status::ReadFault
    } else {
        Status::WriteFault
    };
    let mut least = 0;
    for call in 0..1_000 {
        let fails = [call];
        let failing = if of_input {
            Setup {
                input_fails: &fails,
                ..*setup
            }
        } else {
            Setup {
                out_fails: &fails,
                ..*setup
            }
        };
        let ran = run_on(rt, alloc, &failing)?;
        if ran.status == Status::Done {
            assert!(rt; ran.out.as_slice() == whole.out.as_slice());
            return Ok(call);
        }
        assert!(rt; ran.status == status && ran.out.len() >= least);
        assert!(rt; whole.out.as_slice().starts_with(ran.out.as_slice()));
        least = ran.out.len();
    }
    Err("each call fails")?
}

#[test]
fn each_call_fails_in_turn(rt: HostRuntime) -> Result<(), Fail> {
    let alloc = rt.alloc();
    let many = repeated(alloc, "{\"x\":[10", ",10", 119, "]}")?;
    for (file, input, cut, writes, reads) in [
        (ROOT, THREE, 17, 3, 4),
        (ROOT, THREE, 1, 3, 52),
        (ROOT, THREE, 0, 1, 2),
        (MANY_ROWS, many.as_bytes(), 0, 3, 2),
    ] {
        let setup = plain(file, input, cut);
        let found = failed_in_turn(&rt, alloc, &setup, false)?;
        assert!(rt; found == writes, "{found} writes");
        let found = failed_in_turn(&rt, alloc, &setup, true)?;
        assert!(rt; found == reads, "{found} reads");
    }
    Ok(())
}
