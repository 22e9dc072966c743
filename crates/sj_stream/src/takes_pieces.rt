// What is done with the pieces of an input.
ghost use Rattle.std.specs.Prelude.{◌<◌, ◌≤◌, ◌+◌, ◌++◌, ℕ, List, length, OnOk};
ghost use Rattle.sj_base.specs.Count.{raised};
ghost use Rattle.sj_rows.specs.Lines.{max_input};
ghost use Rattle.sj_page.specs.Pages.{Prints};
ghost use Rattle.sj_stream.specs.LineJob.{LineJob, piece_print, piece_cost, last_print, last_cost};
ghost use Rattle.sj_stream.specs.Out.{state_at, SameLoans};

use crate::out::Out;
use sj_outside::Sink;
use sj_page::Stop;

/// Takes the pieces of an input one after the other, and prints what its lines give.
pub trait TakesPieces {
    /// It does this line job, took these bytes and no others, and printed what their whole lines give.
    ghost took: { Self → LineJob → List ℕ → Type 0 };

    /// It does this line job, and printed what all lines of these bytes give. The input has ended after them.
    ghost ended: { Self → LineJob → List ℕ → Type 0 };

    /// Whether it takes one more piece. If not, as where its places for lines are used up, it has to be made anew.
    fn has_place(&self) -> bool {
        true
    }

    /// Takes a piece, and prints what the lines give that end in it.
    ///
    /// # Errors
    /// Where memory runs out, and where a write fails. What was written is a front of what the page had and the text.
    fn take_piece<O: Sink>(&mut self, piece: &[u8], out: &mut Out<'_, O>) -> Result<(), Stop>
        requires some { 0 < length piece.now }
        requires took { (job : LineJob) × (bytes : List ℕ) × took self.old job bytes × (length bytes + length piece.now ≤ max_input) }
        ensures prints { (job : LineJob) (bytes : List ℕ) → took self.old job bytes →
            Prints (piece_print job bytes piece.now) (state_at O.Sink out.old) (state_at O.Sink out.new) result }
        ensures costs { (job : LineJob) (bytes : List ℕ) → took self.old job bytes →
            out.new.steps.now ≤ raised out.old.steps.now (piece_cost job bytes piece.now) }
        ensures took { (job : LineJob) (bytes : List ℕ) → took self.old job bytes → OnOk result (took self.new job (bytes ++ piece.now)) }
        ensures lent { SameLoans out.old out.new };

    /// The input has ended: prints what stands behind the last line feed, where anything does.
    ///
    /// # Errors
    /// As [`TakesPieces::take_piece`].
    fn finish<O: Sink>(&mut self, out: &mut Out<'_, O>) -> Result<(), Stop>
        requires { (job : LineJob) × (bytes : List ℕ) × took self.old job bytes }
        ensures prints { (job : LineJob) (bytes : List ℕ) → took self.old job bytes →
            Prints (last_print job bytes) (state_at O.Sink out.old) (state_at O.Sink out.new) result }
        ensures costs { (job : LineJob) (bytes : List ℕ) → took self.old job bytes →
            out.new.steps.now ≤ raised out.old.steps.now (last_cost job bytes) }
        ensures ended { (job : LineJob) (bytes : List ℕ) → took self.old job bytes → OnOk result (ended self.new job bytes) }
        ensures lent { SameLoans out.old out.new };
}
