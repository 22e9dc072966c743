// The rows of lines.
ghost use Rattle.std.specs.Prelude.{◌≡◌, ◌<◌, ◌≤◌, length, map, IfOk};
ghost use Rattle.sj_base.specs.Count.{raised};
ghost use Rattle.sj_bound.specs.View.{bound_of};
ghost use Rattle.sj_select_list.specs.Line.{line_of};
ghost use Rattle.sj_page.specs.Pages.{print_state, Prints};
ghost use Rattle.sj_file.specs.Job.{job_of, AreSound, IsReady, statement_limit};
ghost use Rattle.sj_stream.specs.Out.{state_at, SameLoans};
ghost use Rattle.sj_run.specs.Output.{rows_print, prints, cost, asked_from};
ghost use Rattle.sj_batch.specs.Batch.{line_read};
ghost use Rattle.sj_batch.specs.Given.{rows_given, cost_given};
ghost use Rattle.sj_run.specs.Batch.{batch_asked, bounds_in};

use crate::kept::KeptRows;
use sj_base::{Memory, Steps, push};
use sj_batch::{Batch, ReadLine};
use sj_bound::Bound;
use sj_file::Job;
use sj_outside::Sink;
use sj_page::{Page, Stop};
use sj_select::{RowsOf, Turn};
use sj_select_list::LineDoc;
use sj_stream::Out;
use std::alloc::Global;

/// The rows of each statement. They take the memory of their cursors here, and then go from line to line.
pub(crate) fn rows_of<'a>(alloc: Global, statements: &'a [Bound]) -> Result<Vec<RowsOf<'a>>, Memory>
    requires { AreSound statements.now }
    ensures { IfOk result (λ rows. bounds_in rows.items ≡ map bound_of statements.now) }
{
    let mut all = Vec::with_capacity(alloc, statements.len())?;
    for statement in statements {
        let rows = RowsOf::new(alloc, statement, LineDoc::NotJson)?;
        push(&mut all, rows)?;
    }
    Ok(all)
}

/// Prints what a statement gives for a line. Each row is made on the page.
#[inline(always)]
fn print_statement<'a, O: Sink>(
    out: &mut O,
    page: &mut Page,
    number: u64,
    statement: u32,
    rows: &mut RowsOf<'a>,
    line: LineDoc<'a>,
    steps: &mut Steps,
) -> Result<(), Stop>
    ensures prints { Prints (rows_print number statement (rows_given (bound_of rows.old.bound) (line_of line.entry)))
        (print_state O.taken O.size O.faults out.old page.old) (print_state O.taken O.size O.faults out.new page.new) result }
    ensures costs { steps.new ≤ raised steps.old (cost_given (bound_of rows.old.bound) (line_of line.entry)) }
    ensures bound { rows.new.bound ≡ rows.old.bound }
{
    rows.rewind(line);
    loop {
        let turn = match rows.print(&mut page.text, number, statement, steps) {
            Ok(turn) => turn,
            Err(_) => return Err(Stop::Memory),
        };
        match turn {
            Turn::Row => {
                match page.row_came(out) {
                    Ok(()) => {}
                    Err(stop) => return Err(stop),
                }
                if rows.is_over() {
                    return Ok(());
                }
            }
            Turn::End => return Ok(()),
            Turn::Raised(state) => return page.error_row(out, number, statement, state),
        }
    }
}

/// Prints the rows of the statements for a line.
fn print_rows<'a, O: Sink>(
    out: &mut O,
    page: &mut Page,
    rows: &mut [RowsOf<'a>],
    line: &'a ReadLine,
    steps: &mut Steps,
) -> Result<(), Stop>
    requires { length rows.old < statement_limit }
    ensures prints { Prints (prints (asked_from 1 (bounds_in rows.old) line.now.number (line_read line.now.reading)))
        (print_state O.taken O.size O.faults out.old page.old) (print_state O.taken O.size O.faults out.new page.new) result }
    ensures costs { steps.new ≤ raised steps.old (cost (asked_from 1 (bounds_in rows.old) line.now.number (line_read line.now.reading))) }
    ensures bounds { bounds_in rows.new ≡ bounds_in rows.old }
{
    let mut number: u64 = 1;
    for statement in rows.iter_mut() {
        let seen = line.reading.line();
        match print_statement(
            out,
            page,
            line.number,
            number as u32,
            statement,
            seen,
            steps,
        ) {
            Ok(()) => {}
            Err(stop) => return Err(stop),
        }
        number += 1;
    }
    Ok(())
}

/// Prints the rows of the statements for lines, one after the other.
fn print_each<'a, O: Sink>(
    out: &mut O,
    page: &mut Page,
    rows: &mut [RowsOf<'a>],
    lines: &'a [ReadLine],
    steps: &mut Steps,
) -> Result<(), Stop>
    requires { length rows.old < statement_limit }
    ensures prints { Prints (prints (batch_asked (bounds_in rows.old) lines.now))
        (print_state O.taken O.size O.faults out.old page.old) (print_state O.taken O.size O.faults out.new page.new) result }
    ensures costs { steps.new ≤ raised steps.old (cost (batch_asked (bounds_in rows.old) lines.now)) }
    ensures bounds { bounds_in rows.new ≡ bounds_in rows.old }
{
    for line in lines {
        match print_rows(out, page, rows, line, steps) {
            Ok(()) => {}
            Err(stop) => return Err(stop),
        }
    }
    Ok(())
}

/// Prints the rows of lines by rows that are made for them alone.
fn print_by_new_rows<O: Sink>(
    alloc: Global,
    out: &mut Out<'_, O>,
    job: &Job,
    lines: &[ReadLine],
) -> Result<(), Stop>
    requires { IsReady job.now }
    ensures prints { Prints (prints (batch_asked (job_of job.now).statements lines.now))
        (state_at O.Sink out.old) (state_at O.Sink out.new) result }
    ensures costs { out.new.steps.now ≤ raised out.old.steps.now (cost (batch_asked (job_of job.now).statements lines.now)) }
    ensures lent { SameLoans out.old out.new }
{
    // To make rows costs as much as to print a short line, so none are made where no line is left for them.
    if lines.is_empty() {
        return Ok(());
    }
    match rows_of(alloc, &job.statements) {
        Ok(mut rows) => print_each(out.sink, out.page, rows.as_mut_slice(), lines, out.steps),
        Err(_) => Err(Stop::Memory),
    }
}

/// Prints the rows of lines by the kept rows, which have places for so many.
fn print_by_kept_rows<O: Sink>(
    out: &mut Out<'_, O>,
    kept: &mut KeptRows<'_>,
    lines: &mut [ReadLine],
) -> Result<(), Stop>
    requires few { length kept.old.rows.items < statement_limit }
    requires room { length lines.old ≤ length kept.old.places.now }
    ensures prints { Prints (prints (batch_asked (bounds_in kept.old.rows.items) lines.old))
        (state_at O.Sink out.old) (state_at O.Sink out.new) result }
    ensures costs { out.new.steps.now ≤ raised out.old.steps.now (cost (batch_asked (bounds_in kept.old.rows.items) lines.old)) }
    ensures bounds { bounds_in kept.new.rows.items ≡ bounds_in kept.old.rows.items }
    ensures lent { SameLoans out.old out.new }
{
    let placed = kept.place(lines);
    print_each(
        out.sink,
        out.page,
        kept.rows.as_mut_slice(),
        placed,
        out.steps,
    )
}

/// Prints the rows of the lines of a batch. Short lines, as those of small pieces, are asked by the kept rows as far as there are places,
/// and others by rows that are made for all of them together.
pub(crate) fn print_batch<O: Sink>(
    out: &mut Out<'_, O>,
    job: &Job,
    kept: &mut KeptRows<'_>,
    batch: &mut Batch,
) -> Result<(), Stop>
    requires ready { IsReady job.now }
    requires rows { bounds_in kept.old.rows.items ≡ (job_of job.now).statements }
    ensures prints { Prints (prints (batch_asked (job_of job.now).statements batch.old.lines.items))
        (state_at O.Sink out.old) (state_at O.Sink out.new) result }
    ensures costs { out.new.steps.now ≤ raised out.old.steps.now (cost (batch_asked (job_of job.now).statements batch.old.lines.items)) }
    ensures rows { bounds_in kept.new.rows.items ≡ (job_of job.now).statements }
    ensures lent { SameLoans out.old out.new }
{
    let count = kept.placeable(batch);
    let (front, others) = batch.lines_mut().split_at_mut(count);
    match print_by_kept_rows(out, kept, front) {
        Ok(()) => print_by_new_rows(kept.alloc, out, job, others),
        Err(stop) => Err(stop),
    }
}
