// What is done with the lines of an input.
ghost use Rattle.std.specs.Prelude.{◌≡◌, ◌≤◌, ◌+◌, ◌++◌, ℕ, List, Option, OnOk};
ghost use Rattle.sj_base.specs.Count.{raised};
ghost use Rattle.sj_rows.specs.HeldLines.{drained};
ghost use Rattle.sj_page.specs.Pages.{Prints};
ghost use Rattle.sj_stream.specs.LineJob.{LineJob, lines_print, lines_cost};
ghost use Rattle.sj_stream.specs.Out.{state_at, SameLoans};

use crate::out::Out;
use sj_outside::Sink;
use sj_page::Stop;
use sj_rows::Lines;

/// Prints what the lines of an input give, each of which it sees whole.
pub trait PrintsLines {
    /// It does this line job, and was given these lines and no others.
    ghost saw: { Self → LineJob → List (Option (List ℕ)) → Type 0 };

    /// Whether it takes the lines of one more piece. If not, it has to be made anew.
    fn has_place(&self) -> bool {
        true
    }

    /// Takes the lines that wait, and prints what they give. The last of them ended in a piece of so many bytes, which are
    /// none at the end of the input.
    ///
    /// # Errors
    /// Where memory runs out, and where a write fails. What was written is a front of what the page had and the text.
    fn print_lines<O: Sink>(
        &mut self,
        piece: usize,
        lines: &mut Lines,
        out: &mut Out<'_, O>,
    ) -> Result<(), Stop>
        requires { (job : LineJob) × (before : List (Option (List ℕ))) × saw self.old job before }
        ensures prints { (job : LineJob) (before : List (Option (List ℕ))) → saw self.old job before →
            Prints (lines_print job (lines.old.given + 1) lines.old.waiting) (state_at O.Sink out.old) (state_at O.Sink out.new) result }
        ensures costs { (job : LineJob) (before : List (Option (List ℕ))) → saw self.old job before →
            out.new.steps.now ≤ raised out.old.steps.now (lines_cost job (lines.old.given + 1) lines.old.waiting) }
        ensures drained { OnOk result (lines.new ≡ drained lines.old) }
        ensures saw { (job : LineJob) (before : List (Option (List ℕ))) → saw self.old job before →
            OnOk result (saw self.new job (before ++ lines.old.waiting)) }
        ensures lent { SameLoans out.old out.new };
}
