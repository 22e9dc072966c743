// The texts of rows and error rows.
ghost use Rattle.std.specs.Prelude.{◌≡◌, ◌≤◌, ◌+◌, ◌-◌, ◌↔◌, ◌++◌, take, drop, All, codes, IsTrue, OnOk, OnErr};
ghost use Rattle.std.specs.List.{flat_map};
ghost use Rattle.sj_text.specs.Prefixes.{AppendsPrefix};
ghost use Rattle.sj_value.specs.Values.{IsPrintable};
ghost use Rattle.sj_rows.specs.RowText.{row_front, tabbed, row_bytes, error_bytes};

use crate::field::tabbed_text;
use itoa::write_digits;
use sj_base::{Bytes, Memory, State};
use sj_text::push_front;
use sj_value::SqlValue;
use std::marker::Model;

/// The most bytes before the fields of a row: 20 digits, TAB, 10 digits, TAB and a letter.
const MAX_HEAD: usize = 33;

/// The head of the rows of a statement: the line's number, TAB, the statement's number, TAB and `R`.
///
/// It is kept from one row to the next, since most lines have one row, and the head of the next line differs in its last
/// digit alone. Contracts see whose head it is.
#[derive(Drop)]
pub struct RowHead {
    text: HeadText,
    line: u64,
    statement: u32,
}

impl Model for RowHead {
    ghost use Rattle.sj_rows.specs.RowHead.{HeadOf, IsHead};

    ghost Value = { HeadOf };

    ghost view = { λ h. record { line = h.line; statement = h.statement } };

    ghost invariant = { λ h. IsHead h.text h.line h.statement 82 };
}

impl RowHead {
    ghost use Rattle.sj_rows.specs.RowHead.{head_of, HasNext};

    /// The head of line 0 and statement 0.
    pub fn new() -> RowHead
        ensures { result ≡ head_of 0 0 }
    {
        RowHead {
            text: HeadText::of(0, 0, b'R'),
            line: 0,
            statement: 0,
        }
    }

    /// Appends the head of this line and statement. Each field comes with a TAB before it.
    ///
    /// # Errors
    /// `Memory` where memory ran out. `out` stays as it was.
    #[inline(always)]
    pub fn begin(&mut self, out: &mut Bytes, line: u64, statement: u32) -> Result<(), Memory>
        ensures ok { OnOk result (out.new ≡ out.old ++ row_front line statement) }
        ensures err { OnErr result (out.new ≡ out.old) }
        ensures kept { self.new ≡ head_of line statement }
    {
        self.turn_to(line, statement);
        self.text.append_to(out)
    }

    /// Makes the head that of the next line, where only the last digit of the line's number changes. Otherwise it stays.
    ///
    /// It is called behind a row, and not before the next one: a window that is read right behind a write of one of its bytes
    /// waits for that write.
    #[inline(always)]
    pub fn advance(&mut self)
        ensures next { HasNext self.old → self.new ≡ head_of (self.old.line + 1) self.old.statement }
        ensures last { (HasNext self.old → ⊥) → self.new ≡ self.old }
    {
        if self.has_next() {
            self.text.bytes[self.text.last] += 1;
            self.line += 1;
        }
    }

    // Whether the head of the next line differs in the last digit of the line's number alone.
    #[inline(always)]
    fn has_next(&self) -> bool
        ensures { IsTrue result ↔ HasNext self.now }
    {
        self.text.bytes[self.text.last] < b'9' && self.line < u64::MAX
    }

    // Makes the head that of this line and statement, which it most often is.
    #[inline(always)]
    fn turn_to(&mut self, line: u64, statement: u32)
        ensures { self.new ≡ head_of line statement }
    {
        if self.line != line || self.statement != statement {
            self.set(line, statement);
        }
    }

    // Writes the head anew.
    #[inline(never)]
    fn set(&mut self, line: u64, statement: u32)
        ensures { self.new ≡ head_of line statement }
    {
        self.text = HeadText::of(line, statement, b'R');
        self.line = line;
        self.statement = statement;
    }
}

/// Appends what stands behind the fields of a row: LF.
///
/// # Errors
/// `Memory` where memory ran out. `out` stays as it was.
#[inline(always)]
pub fn end_row(out: &mut Bytes) -> Result<(), Memory>
    ensures ok { OnOk result (out.new ≡ out.old ++ codes "\n") }
    ensures err { OnErr result (out.new ≡ out.old) }
{
    out.push(b"\n")
}

/// Appends an error row: the line's number, TAB, the statement's number, TAB, `E`, TAB, the five characters of the
/// state, and LF.
///
/// # Errors
/// `Memory` where memory ran out. `out` has then grown by a first part of the row.
pub fn error_text(out: &mut Bytes, line: u64, statement: u32, state: State) -> Result<(), Memory>
    ensures ok { OnOk result (out.new ≡ out.old ++ error_bytes line statement state) }
    ensures err { OnErr result (AppendsPrefix out.old (error_bytes line statement state) out.new) }
{
    HeadText::of(line, statement, b'E').append_to(out)?;
    out.push(b"\t")?;
    out.push(state.code().as_bytes())?;
    out.push(b"\n")
}

// The two numbers of a row, TAB and its letter, which end at `MAX_HEAD`. They are written from the last to the first over
// TABs, of which two stay, with so many behind them that a window of one size begins with them wherever they begin.
#[derive(Drop)]
struct HeadText {
    bytes: [u8; 2 * MAX_HEAD],
    first: usize,
    // where the last digit of the line's number stands
    last: usize,
}

impl HeadText {
    ghost use Rattle.sj_rows.specs.RowHead.{IsHead};

    #[inline(always)]
    fn of(line: u64, statement: u32, letter: u8) -> HeadText
        ensures { IsHead result line statement letter }
    {
        let mut bytes = [b'\t'; 2 * MAX_HEAD];
        bytes[MAX_HEAD - 1] = letter;
        let second = write_digits(statement as u64, &mut bytes, MAX_HEAD - 2);
        let first = write_digits(line, &mut bytes, second - 1);
        HeadText {
            bytes,
            first,
            last: second - 2,
        }
    }

    // Appends it all at once: each call that grows the output costs more than its few bytes.
    #[inline(always)]
    fn append_to(&self, out: &mut Bytes) -> Result<(), Memory>
        requires { self.now.first ≤ MAX_HEAD }
        ensures ok { OnOk result (out.new ≡ out.old ++ take (MAX_HEAD - self.now.first) (drop self.now.first self.now.bytes)) }
        ensures err { OnErr result (out.new ≡ out.old) }
    {
        let window = &self.bytes[self.first..self.first + MAX_HEAD];
        push_front(out, window, MAX_HEAD - self.first)
    }
}

/// Appends a TAB and a field for each value.
///
/// # Errors
/// `Memory` where memory ran out. `out` has then grown by a first part of them.
pub fn fields_text(out: &mut Bytes, fields: &[SqlValue]) -> Result<(), Memory>
    requires { All IsPrintable fields.now }
    ensures ok { OnOk result (out.new ≡ out.old ++ flat_map tabbed fields.now) }
    ensures err { OnErr result (AppendsPrefix out.old (flat_map tabbed fields.now) out.new) }
{
    for value in fields {
        tabbed_text(out, value)?;
    }
    Ok(())
}

/// Appends a row: the line's number, TAB, the statement's number, TAB, `R`, then TAB and a field for each value, and LF.
///
/// The program prints a row by the same three calls, with what it finds between them.
///
/// # Errors
/// `Memory` where memory ran out. `out` has then grown by a first part of the row.
pub fn row_text(
    out: &mut Bytes,
    line: u64,
    statement: u32,
    fields: &[SqlValue],
) -> Result<(), Memory>
    requires { All IsPrintable fields.now }
    ensures ok { OnOk result (out.new ≡ out.old ++ row_bytes line statement fields.now) }
    ensures err { OnErr result (AppendsPrefix out.old (row_bytes line statement fields.now) out.new) }
{
    RowHead::new().begin(out, line, statement)?;
    fields_text(out, fields)?;
    end_row(out)
}
