//! Calls with ample memory, and what they write.
use crate::cases::{Counts, expect};
use sj_file::Keys;
use sj_host::{Part, Rows, Unanswered, check, document_rows, line_rows, message, show, widths};
use std::alloc::Global;
use std::test::Fail;

const FILE: &[u8] = b"SELECT JSON_VALUE(doc, '$.a'); SELECT doc IS JSON, JSON_EXISTS(doc, '$.b');";

/// Lines of 7 and 3 bytes, a blank one and one that is no JSON, and 7 bytes behind the last line feed.
const LINES: &[u8] = b"{\"a\":1}\n[2]\n\n oh \n{\"b\":0}";

/// The rows of a part of these lines, with a buffer of so many bytes.
const ROWS: &str =
    r#"front 78 => 18 "1\t1\tR\t1\n1\t2\tR\tTRUE\tFALSE\n2\t1\tR\t\\N\n2\t2\tR\tTRUE\tFALSE\n4\t1\tR\t\\N\n4\t2\tR\tFALSE\tFALSE\n"
front 77 => 8 "1\t1\tR\t1\n1\t2\tR\tTRUE\tFALSE\n"
front 25 => 8 "1\t1\tR\t1\n1\t2\tR\tTRUE\tFALSE\n"
front 24 => Room
front 0 => Room
end 103 => 25 "1\t1\tR\t1\n1\t2\tR\tTRUE\tFALSE\n2\t1\tR\t\\N\n2\t2\tR\tTRUE\tFALSE\n4\t1\tR\t\\N\n4\t2\tR\tFALSE\tFALSE\n5\t1\tR\t\\N\n5\t2\tR\tTRUE\tTRUE\n"
end 102 => 12 "1\t1\tR\t1\n1\t2\tR\tTRUE\tFALSE\n2\t1\tR\t\\N\n2\t2\tR\tTRUE\tFALSE\n"
end 50 => 8 "1\t1\tR\t1\n1\t2\tR\tTRUE\tFALSE\n"
end 24 => Room"#;

fn told_rows(alloc: Global, found: Result<Rows, Unanswered>, out: &[u8]) -> Result<String, Fail> {
    match found {
        Ok(rows) => {
            let front = out
                .get(..rows.written)
                .ok_or("more than there is room for")?;
            let text = str::from_utf8(front).unwrap_or("no text");
            Ok(format!(in alloc; "{} {text:?}", rows.taken)?)
        }
        Err(why) => Ok(format!(in alloc; "{why:?}")?),
    }
}

fn rows_of(
    rt: &impl Counts,
    alloc: Global,
    input: &[u8],
    part: Part,
    room: usize,
) -> Result<String, Fail> {
    let mut out = vec![in alloc; 0u8; room]?;
    let mut steps = rt.steps();
    let found = line_rows(
        alloc,
        Keys::Any,
        FILE,
        input,
        part,
        out.as_mut_slice(),
        &mut steps,
    );
    told_rows(alloc, found, &out)
}

#[test]
fn rows_with_buffers_of_some_sizes(rt: HostRuntime) -> Result<(), Fail> {
    for line in ROWS.lines() {
        let (text, want) = line.split_once(" => ").ok_or("no arrow")?;
        let (word, room) = text.split_once(' ').ok_or("no room")?;
        let part = if word == "front" {
            Part::Front
        } else {
            Part::End
        };
        let found = rows_of(&rt, rt.alloc(), LINES, part, room.parse()?)?;
        expect(&rt, found.as_str(), want, text);
    }
    Ok(())
}

#[test]
fn rows_of_no_line(rt: HostRuntime) -> Result<(), Fail> {
    let found = rows_of(&rt, rt.alloc(), b"", Part::End, 0)?;
    expect(&rt, found.as_str(), r#"0 """#, "no byte");
    let found = rows_of(&rt, rt.alloc(), b"[1]", Part::Front, 0)?;
    expect(&rt, found.as_str(), r#"0 """#, "no line feed");
    Ok(())
}

fn document_of(rt: &impl Counts, alloc: Global, document: &[u8]) -> Result<String, Fail> {
    let mut out = vec![in alloc; 0u8; 99]?;
    let mut steps = rt.steps();
    let found = document_rows(
        alloc,
        Keys::Any,
        FILE,
        document,
        out.as_mut_slice(),
        &mut steps,
    );
    match found {
        Ok(written) => told_rows(alloc, Ok(Rows { taken: 0, written }), &out),
        Err(why) => told_rows(alloc, Err(why), &out),
    }
}

#[test]
fn rows_of_documents_with_line_feeds(rt: HostRuntime) -> Result<(), Fail> {
    for (document, want) in [
        (
            b"{\n\"a\":\n7\n}\n".as_slice(),
            r#"0 "1\t1\tR\t7\n1\t2\tR\tTRUE\tFALSE\n""#,
        ),
        (
            b"\"x\ny\"".as_slice(),
            r#"0 "1\t1\tR\t\\N\n1\t2\tR\tFALSE\tFALSE\n""#,
        ),
        (b"\n \n".as_slice(), r#"0 """#),
    ] {
        let found = document_of(&rt, rt.alloc(), document)?;
        expect(&rt, found.as_str(), want, "document");
    }
    Ok(())
}

/// What is told of a file: how many statements it has with their widths and text, or why it is not accepted.
fn told_of(alloc: Global, file: &[u8]) -> Result<String, Fail> {
    match check(alloc, file) {
        Ok(count) => {
            let widths = match widths(alloc, file) {
                Ok(widths) => widths,
                Err(why) => return Ok(format!(in alloc; "{why:?}")?),
            };
            let mut out = vec![in alloc; 0u8; 999]?;
            let length = match show(alloc, file, out.as_mut_slice()) {
                Ok(length) => length,
                Err(why) => return Ok(format!(in alloc; "{why:?}")?),
            };
            Ok(format!(in alloc; "{count} {widths:?} {length}")?)
        }
        Err(why) => {
            let text = message(alloc, why)?;
            let told = str::from_utf8(text.as_slice()).unwrap_or("no text");
            Ok(format!(in alloc; "{why:?} {told:?}")?)
        }
    }
}

#[test]
fn files_that_are_accepted_and_refused(rt: HostRuntime) -> Result<(), Fail> {
    for (file, want) in [
        (b"SELECT doc IS JSON;".as_slice(), "1 [1] 46"),
        (b"".as_slice(), "0 [] 0"),
        (
            b"SELECT doc IS JSON; SELECT 1".as_slice(),
            r#"Refused(2, Syntax) "statement 2: syntax error\n""#,
        ),
    ] {
        let found = told_of(rt.alloc(), file)?;
        expect(&rt, found.as_str(), want, "file");
    }
    Ok(())
}
