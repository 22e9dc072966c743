// The lines of bytes whatever the cuts between their pieces, and the greatest numbers of a row. Lines at their limit, blank
// lines and printed values are in the tables of `checks/rows/`.
ghost use Rattle.std.specs.Prelude.{◌≡◌, ◌+◌, ◌≤◌, false, length, OnOk};
ghost use Rattle.sj_rows.specs.Lines.{max_input};

use super::cases::{expect, expect_count};
use sj_base::{Bytes, State, Text};
use sj_rows::{Line, Lines, RowHead, end_row, error_text, field_text};
use sj_value::SqlValue;
use std::alloc::Global;
use std::process::Abort;
use std::test::Fail;

/// Puts each line that is left at the end of `out`, between brackets, and one that is too long as a minus sign.
fn show_lines(lines: &mut Lines, out: &mut Bytes) -> Result<(), Fail>
    ensures goes_on { OnOk result (lines.new.ended ≡ lines.old.ended) }
    ensures same_fed { OnOk result (lines.new.fed ≡ lines.old.fed) }
{
    'lines: for _ in 0..9 {
        match lines.next_line() {
            None => return Ok(()),
            Some(Line::TooLong) => out.push(b"-")?,
            Some(Line::Bytes(bytes)) => {
                out.push(b"(")?;
                out.push(bytes)?;
                out.push(b")")?;
            }
        }
    }
    Ok(())
}

/// Feeds the bytes in two pieces, and shows the lines after each piece and at the end.
fn show_cut(lines: &mut Lines, front: &[u8], back: &[u8], out: &mut Bytes) -> Result<(), Fail>
    requires goes_on { lines.old.ended ≡ false }
    requires limit { lines.old.fed + (length front.now + length back.now) ≤ max_input }
{
    lines.feed(front)?;
    show_lines(lines, out)?;
    lines.feed(back)?;
    show_lines(lines, out)?;
    lines.finish();
    show_lines(lines, out)
}

/// Feeds the bytes in two pieces, and compares the lines and their number.
fn expect_lines(
    rt: &impl Abort,
    alloc: Global,
    front: &[u8],
    back: &[u8],
    want: &[u8],
    number: u64,
) -> Result<(), Fail>
    requires limit { length front.now + length back.now ≤ max_input }
{
    let mut lines = Lines::new(alloc);
    let mut out = Bytes::new(alloc);
    show_cut(&mut lines, front, back, &mut out)?;
    assert!(rt; out.as_slice() == want, "behind {front:?}");
    expect_count(rt, lines.number(), number);
    Ok(())
}

#[test]
fn lines_do_not_depend_on_the_cuts(rt: HostRuntime) -> Result<(), Fail> {
    for (bytes, want, number) in [
        (b"".as_slice(), b"".as_slice(), 0),
        (b"\n".as_slice(), b"()".as_slice(), 1),
        (b"a".as_slice(), b"(a)".as_slice(), 1),
        (b"a\n".as_slice(), b"(a)".as_slice(), 1),
        (
            b"ab\n\ncd\r\n e".as_slice(),
            b"(ab)()(cd\r)( e)".as_slice(),
            4,
        ),
        (b"\n\n\nx".as_slice(), b"()()()(x)".as_slice(), 4),
    ] {
        assert!(rt; bytes.len() < 20);
        for cut in 0..bytes.len() + 1 {
            let (front, back) = (&bytes[..cut], &bytes[cut..]);
            expect_lines(&rt, rt.alloc(), front, back, want, number)?;
        }
    }
    Ok(())
}

/// The number of bytes of the next line, where there is one that is not too long.
fn next_len(lines: &mut Lines) -> Option<Option<usize>>
    ensures goes_on { lines.new.ended ≡ lines.old.ended }
    ensures same_fed { lines.new.fed ≡ lines.old.fed }
{
    match lines.next_line() {
        None => None,
        Some(Line::TooLong) => Some(None),
        Some(Line::Bytes(bytes)) => Some(Some(bytes.len())),
    }
}

/// Feeds four million bytes one at a time, and asks for a line after each.
fn feed_singly(rt: &impl Abort, lines: &mut Lines) -> Result<(), Fail>
    requires goes_on { lines.old.ended ≡ false }
    requires limit { lines.old.fed ≡ 0 }
    ensures { OnOk result (lines.new.ended ≡ false) }
{
    'bytes: for i in 0..4_000_000u64 {
        lines.feed(b"x")?;
        assert!(rt; next_len(lines).is_none());
    }
    Ok(())
}

#[test]
fn no_byte_is_searched_twice(rt: HostRuntime) -> Result<(), Fail> {
    // where each call searched the open part from its start, this would take minutes
    let mut lines = Lines::new(rt.alloc());
    feed_singly(&rt, &mut lines)?;
    lines.finish();
    assert!(rt; next_len(&mut lines) == Some(Some(4_000_000)));
    Ok(())
}

#[test]
fn prints_the_ends_of_numbers_and_states(rt: HostRuntime) -> Result<(), Fail> {
    let mut out = Bytes::new(rt.alloc());
    RowHead::new().begin(&mut out, 1, 2)?;
    end_row(&mut out)?;
    error_text(&mut out, u64::MAX, u32::MAX, State::S22034)?;
    let want = b"1\t2\tR\n18446744073709551615\t4294967295\tE\t22034\n".as_slice();
    assert!(rt; out.as_slice() == want);
    Ok(())
}

/// Prints a row without fields for each line and statement, over one head, and compares the rows.
fn expect_heads(
    rt: &impl Abort,
    alloc: Global,
    rows: &[(u64, u32)],
    want: &[u8],
) -> Result<(), Fail> {
    let mut out = Bytes::new(alloc);
    let mut head = RowHead::new();
    for (line, statement) in rows {
        head.begin(&mut out, *line, *statement)?;
        end_row(&mut out)?;
        head.advance();
    }
    assert!(rt; out.as_slice() == want);
    Ok(())
}

#[test]
fn a_head_is_kept_from_row_to_row(rt: HostRuntime) -> Result<(), Fail> {
    let alloc = rt.alloc();
    let rows = [(8, 1), (9, 1), (10, 1)];
    expect_heads(&rt, alloc, &rows, b"8\t1\tR\n9\t1\tR\n10\t1\tR\n")?;
    let rows = [(99, 1), (100, 1), (100, 1), (101, 2)];
    let want = b"99\t1\tR\n100\t1\tR\n100\t1\tR\n101\t2\tR\n".as_slice();
    expect_heads(&rt, alloc, &rows, want)?;
    let rows = [(u64::MAX - 1, 2), (u64::MAX, 2), (u64::MAX, 2), (0, 2)];
    let want =
        b"18446744073709551614\t2\tR\n18446744073709551615\t2\tR\n18446744073709551615\t2\tR\n0\t2\tR\n".as_slice();
    expect_heads(&rt, alloc, &rows, want)
}

/// Appends the field of a text, and compares it.
fn expect_field(rt: &impl Abort, alloc: Global, text: &str, want: &str) -> Result<(), Fail> {
    let value = SqlValue::Text(Text::from_str(alloc, text)?);
    let mut out = Bytes::new(alloc);
    field_text(&mut out, &value)?;
    let found = str::from_utf8(out.as_slice()).unwrap_or("no text");
    expect(rt, found, want, text);
    Ok(())
}

#[test]
fn a_field_alone_has_escapes(rt: HostRuntime) -> Result<(), Fail> {
    for (text, want) in [
        ("", ""),
        ("a b", "a b"),
        ("\\N", "\\\\N"),
        ("\t\r\nx", "\\t\\r\\nx"),
    ] {
        expect_field(&rt, rt.alloc(), text, want)?;
    }
    Ok(())
}
