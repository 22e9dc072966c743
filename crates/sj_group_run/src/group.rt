// A run that groups the rows of an input.
ghost use Rattle.std.specs.Prelude.{◌≡◌, [], length, map};
ghost use Rattle.sj_bound.specs.View.{bound_of};
ghost use Rattle.sj_page.specs.Pages.{empty_page, print_state};
ghost use Rattle.sj_file.specs.Piece.{max_piece};
ghost use Rattle.sj_file.specs.ToGroup.{IsReadyToGroup};
ghost use Rattle.sj_stream.specs.Input.{input_at};
ghost use Rattle.sj_stream.specs.Out.{state_at, out_at, SameLoans};
ghost use Rattle.sj_stream.specs.Splitting.{kept_of};
ghost use Rattle.sj_stream.specs.Stream.{StreamedWith};
ghost use Rattle.sj_stream.specs.Then.{StreamedThen};
ghost use Rattle.sj_rows.specs.Lines.{lines, seen};
ghost use Rattle.sj_stream.specs.LineJob.{LineJob};
ghost use Rattle.sj_group_run.specs.GroupJob.{group_job};
ghost use Rattle.sj_group_run.specs.Gathering.{Saw};

use crate::printer::Gathering;
use crate::write::write_groups;
use sj_base::Steps;
use sj_file::{MAX_PIECE, Status, ToGroup};
use sj_outside::{Sink, Source};
use sj_page::Page;
use sj_rows::Lines;
use sj_stream::{LinesOf, MAX_INPUT, Out, Progress, take_turns};
use std::alloc::Global;

/// Gathers the rows of a statement over the lines of an input, and writes the error rows of all lines and then the groups of
/// all rows, in the order in which their first rows came.
///
/// It keeps the groups in memory, and gives up each line behind its rows. `steps` rises by no more than the rows may take.
/// It ends with [`Status::Done`] where the input was read to its end and all was written, and otherwise with one of these:
/// [`Status::ReadFault`] and [`Status::InputLimit`], with the error rows of the whole lines written;
/// [`Status::WriteFault`] and [`Status::Memory`], with a front of the whole text written. No group is written unless the
/// input was read to its end.
pub fn group_lines<I: Source, O: Sink>(
    alloc: Global,
    to_group: &ToGroup,
    input: &mut I,
    out: &mut O,
    steps: &mut Steps,
) -> Status
    requires { IsReadyToGroup to_group.now }
    ensures { StreamedThen (group_job to_group.now.aggregate (bound_of to_group.now.statement))
        (input_at I.Source input.old steps.old) (input_at I.Source input.new steps.new) (out_at O.Sink out.old) (out_at O.Sink out.new) result }
{
    let Ok(mut piece) = vec![in alloc; 0u8; MAX_PIECE] else {
        return Status::Memory;
    };
    let mut page = Page::new(alloc);
    let mut taker = LinesOf {
        lines: Lines::new(alloc),
        printer: Gathering::new(alloc, to_group),
    };
    match gather_lines(
        input,
        piece.as_mut_slice(),
        &mut taker,
        out,
        &mut page,
        steps,
    ) {
        Status::Done => write_groups(alloc, &taker.printer.gatherer.groups, out),
        status => status,
    }
}

/// Gathers the rows of all lines of an input, and writes their error rows. The page begins empty.
fn gather_lines<I: Source, O: Sink>(
    input: &mut I,
    piece: &mut [u8],
    taker: &mut LinesOf<Gathering<'_>>,
    out: &mut O,
    page: &mut Page,
    steps: &mut Steps,
) -> Status
    requires a_piece { length piece.old ≡ max_piece }
    requires empty { page.old ≡ empty_page }
    requires begins { (taker.old.lines ≡ kept_of []) × ((job : LineJob) × Saw taker.old.printer.to_group.now taker.old.printer.gatherer.groups job []) }
    ensures { (job : LineJob) → Saw taker.old.printer.to_group.now taker.old.printer.gatherer.groups job [] →
        StreamedWith (λ bytes. Saw taker.new.printer.to_group.now taker.new.printer.gatherer.groups job (map seen (lines bytes))) job
        (input_at I.Source input.old steps.old) (input_at I.Source input.new steps.new) (out_at O.Sink out.old) (print_state O.taken O.size O.faults out.new page.new) result }
{
    let mut written = Out {
        sink: out,
        page,
        steps,
    };
    take_lines(input, piece, taker, &mut written)
}

/// The same, turn after turn.
fn take_lines<I: Source, O: Sink>(
    input: &mut I,
    piece: &mut [u8],
    taker: &mut LinesOf<Gathering<'_>>,
    out: &mut Out<'_, O>,
) -> Status
    requires a_piece { length piece.old ≡ max_piece }
    requires empty { out.old.page.now ≡ empty_page }
    requires begins { (taker.old.lines ≡ kept_of []) × ((job : LineJob) × Saw taker.old.printer.to_group.now taker.old.printer.gatherer.groups job []) }
    ensures streamed { (job : LineJob) → Saw taker.old.printer.to_group.now taker.old.printer.gatherer.groups job [] →
        StreamedWith (λ bytes. Saw taker.new.printer.to_group.now taker.new.printer.gatherer.groups job (map seen (lines bytes))) job
        (input_at I.Source input.old out.old.steps.now) (input_at I.Source input.new out.new.steps.now) (out_at O.Sink out.old.sink.now) (state_at O.Sink out.new) result }
    ensures lent { SameLoans out.old out.new }
{
    let mut taken: u64 = 0;
    while taken < MAX_INPUT {
        match take_turns(input, piece, MAX_INPUT - taken, taker, out) {
            Progress::More(n) => taken += n,
            Progress::Over(status) => return status,
        }
    }
    Status::InputLimit
}
