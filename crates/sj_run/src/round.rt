// The lines of some pieces of the input.
ghost use Rattle.std.specs.Prelude.{◌≡◌, ◌≤◌, ◌+◌, OnOk};
ghost use Rattle.sj_base.specs.Count.{raised};
ghost use Rattle.sj_rows.specs.HeldLines.{drained};
ghost use Rattle.sj_page.specs.Pages.{Prints};
ghost use Rattle.sj_file.specs.Job.{job_of, IsReady};
ghost use Rattle.sj_stream.specs.LineJob.{lines_print, lines_cost};
ghost use Rattle.sj_stream.specs.Out.{state_at, SameLoans};
ghost use Rattle.sj_run.specs.Batch.{bounds_in};
ghost use Rattle.sj_run.specs.Output.{line_job};
ghost use Rattle.sj_run.specs.Round.{Does};

use crate::kept::KeptRows;
use crate::rows::print_batch;
use sj_batch::{Batch, Batches, Behind};
use sj_file::Job;
use sj_outside::Sink;
use sj_page::Stop;
use sj_rows::Lines;
use sj_stream::{Out, PrintsLines};

/// Prints the rows of the lines of the pieces for which the kept rows have places.
#[derive(Drop)]
pub(crate) struct Round<'r, 'a> {
    pub(crate) job: &'r Job,
    pub(crate) batches: &'r mut Batches,
    pub(crate) kept: &'r mut KeptRows<'a>,
}

impl PrintsLines for Round<'_, '_> {
    ghost saw = { λ r job before. Does r.job.now (bounds_in r.kept.now.rows.items) job };

    fn has_place(&self) -> bool {
        self.kept.has_place()
    }

    fn print_lines<O: Sink>(
        &mut self,
        piece: usize,
        lines: &mut Lines,
        out: &mut Out<'_, O>,
    ) -> Result<(), Stop> {
        let batch = self.batches.of_piece(self.kept.alloc, piece);
        read_and_print(out, self.job, lines, batch, self.kept)
    }
}

/// Reads the lines that wait, a batch at a time, and prints the rows of each batch. The page is written where it is long, in
/// the middle of a line too.
fn read_and_print<O: Sink>(
    out: &mut Out<'_, O>,
    job: &Job,
    lines: &mut Lines,
    batch: &mut Batch,
    kept: &mut KeptRows<'_>,
) -> Result<(), Stop>
    requires ready { IsReady job.now }
    requires rows { bounds_in kept.old.rows.items ≡ (job_of job.now).statements }
    ensures prints { Prints (lines_print (line_job (job_of job.now)) (lines.old.given + 1) lines.old.waiting)
        (state_at O.Sink out.old) (state_at O.Sink out.new) result }
    ensures costs { out.new.steps.now ≤ raised out.old.steps.now (lines_cost (line_job (job_of job.now)) (lines.old.given + 1) lines.old.waiting) }
    ensures drained { OnOk result (lines.new ≡ drained lines.old) }
    ensures rows { bounds_in kept.new.rows.items ≡ (job_of job.now).statements }
    ensures lent { SameLoans out.old out.new }
{
    loop {
        let behind = match batch.read_on(kept.alloc, job.keys, lines) {
            Ok(behind) => behind,
            Err(_) => return Err(Stop::Memory),
        };
        match print_batch(out, job, kept, batch) {
            Ok(()) => {}
            Err(stop) => return Err(stop),
        }
        match behind {
            Behind::Nothing => return Ok(()),
            Behind::Perhaps => {}
        }
    }
}
