// The run over generated lines.
ghost use Rattle.std.specs.Prelude.{◌≡◌, ◌≤◌, ℕ, List, Option, Some};
ghost use Rattle.sj_generated.specs.Lines.{most_lines};
ghost use Rattle.sj_page.specs.Sides.{Wrote};
ghost use Rattle.sj_file.specs.File.{generating, shelf_at};
ghost use Rattle.sj_run.specs.Summary.{counts_text};
ghost use Rattle.sj_run.specs.Ran.{IsBefore, Ran, moment};
ghost use Rattle.sj_stream.specs.Out.{out_at};

use crate::stream::stream;
use itoa::Buffer;
use sj_base::Steps;
use sj_file::{Job, Keys, Status, accept};
use sj_generated::GeneratedSource;
use sj_outside::{CountSink, Failed, Shelf, Sink};
use sj_page::{Counts, Page, write_parts};
use std::alloc::Global;

/// Writes how many lines, rows, error rows and bytes there are.
fn write_summary<O: Sink>(out: &mut O, lines: u32, counts: Counts, bytes: u64) -> Result<(), Failed>
    ensures { Wrote (out_at O.Sink out.old) (out_at O.Sink out.new)
        (counts_text lines counts.rows counts.errors bytes) result }
{
    let mut line_digits = Buffer::new();
    let mut row_digits = Buffer::new();
    let mut error_digits = Buffer::new();
    let mut byte_digits = Buffer::new();
    write_parts(
        out,
        &[
            b"lines ".as_slice(),
            line_digits.format(lines).as_bytes(),
            b" rows ".as_slice(),
            row_digits.format(counts.rows).as_bytes(),
            b" errors ".as_slice(),
            error_digits.format(counts.errors).as_bytes(),
            b" bytes ".as_slice(),
            byte_digits.format(bytes).as_bytes(),
            b"\n".as_slice(),
        ],
    )
}

/// Runs the statements of a file over so many generated lines, keeps nothing of their output, and tells how much it is.
/// It reads no input.
pub(crate) fn run_generated<H: Shelf, O: Sink>(
    alloc: Global,
    number: u32,
    name: &str,
    shelf: &mut H,
    out: &mut O,
    steps: &mut Steps,
) -> Status
    requires { number ≤ most_lines }
    ensures ran { (left : Option (List ℕ)) (faults : ℕ) → Ran (Some (generating number name.now))
        (moment (shelf_at H.Shelf shelf.old) (record { left = left; faults = faults; steps = steps.old }) (out_at O.Sink out.old))
        (moment (shelf_at H.Shelf shelf.new) (record { left = left; faults = faults; steps = steps.new }) (out_at O.Sink out.new)) result }
    ensures untouched { IsBefore result → (out.new ≡ out.old) × (steps.new ≡ steps.old) }
{
    let statements = match accept(alloc, name, shelf) {
        Ok(statements) => statements,
        Err(status) => return status,
    };
    let job = Job {
        keys: Keys::Any,
        statements,
    };
    let mut lines = GeneratedSource::new(number);
    let mut bytes = CountSink::new();
    let mut page = Page::new(alloc);
    match stream(alloc, &job, &mut lines, &mut bytes, &mut page, steps) {
        Status::Done => {}
        status => return status,
    }
    match write_summary(out, number, page.counts(), bytes.size()) {
        Ok(()) => Status::Done,
        Err(_) => Status::WriteFault,
    }
}
