// A run over the lines of an input.
ghost use Rattle.std.specs.Prelude.{◌≡◌, IfOk, vec_len};
ghost use Rattle.sj_page.specs.Pages.{empty_page, print_state};
ghost use Rattle.sj_file.specs.Job.{job_of, IsReady};
ghost use Rattle.sj_file.specs.Piece.{max_piece};
ghost use Rattle.sj_stream.specs.Input.{input_at};
ghost use Rattle.sj_stream.specs.Out.{state_at, SameLoans, out_at};
ghost use Rattle.sj_stream.specs.Stream.{Streamed};
ghost use Rattle.sj_run.specs.Output.{line_job};

use crate::kept::{KeptRows, new_places};
use crate::round::Round;
use sj_base::{Memory, Steps};
use sj_batch::{Batches, ReadLine};
use sj_file::{Job, MAX_PIECE, Status};
use sj_outside::{Sink, Source};
use sj_page::Page;
use sj_rows::Lines;
use sj_stream::{LinesOf, MAX_INPUT, Out, Progress, take_turns};
use std::alloc::Global;

/// Writes the output of the lines of an input. The page begins empty, and has counted the rows when the run is done.
pub(crate) fn stream<I: Source, O: Sink>(
    alloc: Global,
    job: &Job,
    input: &mut I,
    out: &mut O,
    page: &mut Page,
    steps: &mut Steps,
) -> Status
    requires ready { IsReady job.now }
    requires empty { page.old ≡ empty_page }
    ensures { Streamed (line_job (job_of job.now)) (input_at I.Source input.old steps.old) (input_at I.Source input.new steps.new)
        (out_at O.Sink out.old) (print_state O.taken O.size O.faults out.new page.new) result }
{
    let Ok(mut room) = Room::new(alloc) else {
        return Status::Memory;
    };
    let mut written = Out {
        sink: out,
        page,
        steps,
    };
    stream_in(alloc, job, input, &mut room, &mut written)
}

/// Room for a piece of the input, and for lines that stay from one piece to the next.
#[derive(Drop)]
struct Room {
    piece: Vec<u8>,
    places: Vec<ReadLine>,
}

impl Room {
    /// A run takes it once.
    fn new(alloc: Global) -> Result<Room, Memory>
        ensures { IfOk result (λ room. vec_len room.piece ≡ max_piece) }
    {
        let piece = vec![in alloc; 0u8; MAX_PIECE]?;
        let places = new_places(alloc)?;
        Ok(Room { piece, places })
    }
}

/// The same, round after round: whenever the places for lines are used up, the kept rows are made anew.
fn stream_in<I: Source, O: Sink>(
    alloc: Global,
    job: &Job,
    input: &mut I,
    room: &mut Room,
    out: &mut Out<'_, O>,
) -> Status
    requires ready { IsReady job.now }
    requires empty { out.old.page.now ≡ empty_page }
    requires a_piece { vec_len room.old.piece ≡ max_piece }
    ensures streamed { Streamed (line_job (job_of job.now)) (input_at I.Source input.old out.old.steps.now) (input_at I.Source input.new out.new.steps.now)
        (out_at O.Sink out.old.sink.now) (state_at O.Sink out.new) result }
    ensures lent { SameLoans out.old out.new }
{
    let mut lines = Lines::new(alloc);
    let mut batches = Batches::new(alloc);
    let mut taken: u64 = 0;
    while taken < MAX_INPUT {
        let mut kept = match KeptRows::new(alloc, &job.statements, room.places.as_mut_slice()) {
            Ok(kept) => kept,
            Err(_) => return Status::Memory,
        };
        let mut taker = LinesOf {
            lines,
            printer: Round {
                job,
                batches: &mut batches,
                kept: &mut kept,
            },
        };
        let most = MAX_INPUT - taken;
        let progress = take_turns(input, room.piece.as_mut_slice(), most, &mut taker, out);
        lines = taker.into_lines();
        match progress {
            Progress::More(n) => taken += n,
            Progress::Over(status) => return status,
        }
    }
    Status::InputLimit
}
