// The items of a path.
ghost use Rattle.std.specs.Prelude.{◌≡◌, ◌<◌, length, map, Some, IfOk, MatchResult};
ghost use Rattle.sj_bound.specs.View.{bound_of};
ghost use Rattle.sj_file.specs.File.{scanning, ShelfSide};
ghost use Rattle.sj_file.specs.Job.{AreSound, statement_limit};
ghost use Rattle.sj_stream.specs.Out.{out_at};
ghost use Rattle.sj_stream.specs.Input.{input_at};
ghost use Rattle.sj_run.specs.Scanned.{AreScanOf, IsUnscanned};
ghost use Rattle.sj_run.specs.Ran.{IsBefore, Ran, moment};

use crate::stream::stream;
use sj_base::{Steps, push};
use sj_bound::Bound;
use sj_file::{Job, Keys, Status};
use sj_outside::{Sink, Source};
use sj_page::Page;
use sj_scan_statement::{ScanRefusal, scan_statement};
use std::alloc::Global;

/// Tells the items of a path for each line of an input. No file is asked for.
pub(crate) fn scan<I: Source, O: Sink>(
    alloc: Global,
    text: &str,
    input: &mut I,
    out: &mut O,
    steps: &mut Steps,
) -> Status
    ensures ran { (shelf : ShelfSide) → Ran (Some (scanning text.now))
        (moment shelf (input_at I.Source input.old steps.old) (out_at O.Sink out.old))
        (moment shelf (input_at I.Source input.new steps.new) (out_at O.Sink out.new)) result }
    ensures untouched { IsBefore result → (input.new ≡ input.old) × (out.new ≡ out.old) × (steps.new ≡ steps.old) }
{
    let statements = match statements_for(alloc, text) {
        Ok(statements) => statements,
        Err(status) => return status,
    };
    let job = Job {
        keys: Keys::Any,
        statements,
    };
    let mut page = Page::new(alloc);
    stream(alloc, &job, input, out, &mut page, steps)
}

/// The one statement that tells the items of a path, or how the command ends if there is none.
fn statements_for(alloc: Global, text: &str) -> Result<Vec<Bound>, Status>
    ensures taken { MatchResult result (λ statements. AreScanOf text.now (map bound_of statements.items)) (IsUnscanned text.now) }
    ensures few { IfOk result (λ statements. length statements.items < statement_limit) }
    ensures sound { IfOk result (λ statements. AreSound statements.items) }
{
    let statement = match scan_statement(alloc, text) {
        Ok(statement) => statement,
        Err(ScanRefusal::Refused(kind)) => return Err(Status::Refused(1, kind)),
        Err(ScanRefusal::Memory) => return Err(Status::Memory),
    };
    let mut statements = Vec::new(alloc);
    match push(&mut statements, statement) {
        Ok(()) => Ok(statements),
        Err(_) => Err(Status::Memory),
    }
}
