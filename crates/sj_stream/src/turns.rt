// Turns of reading and writing.
ghost use Rattle.std.specs.Prelude.{◌≡◌, ◌<◌, ◌≤◌, ◌+◌, ◌++◌, ℕ, List, [], length, OnOk};
ghost use Rattle.sj_base.specs.Count.{raised};
ghost use Rattle.sj_rows.specs.Lines.{max_input};
ghost use Rattle.sj_page.specs.Sides.{OutputSide};
ghost use Rattle.sj_page.specs.Pages.{Prints};
ghost use Rattle.sj_file.specs.Piece.{max_piece};
ghost use Rattle.sj_stream.specs.Input.{InputSide, input_at};
ghost use Rattle.sj_stream.specs.LineJob.{LineJob, piece_print, piece_cost, last_print, last_cost};
ghost use Rattle.sj_stream.specs.Out.{state_at, SameLoans};
ghost use Rattle.sj_stream.specs.Stream as spec;
ghost use Rattle.sj_stream.specs.Stream.{GoesOnWith, Turned, IsWithin};

use crate::out::Out;
use crate::takes_pieces::TakesPieces;
use sj_file::{Status, front, piece_len};
use sj_outside::{Sink, Source};
use sj_page::Stop;

/// How many bytes an input may have.
pub const MAX_INPUT: u64 = 1 << 62;

/// After a turn of reading and writing: the run goes on after so many bytes, or is over.
pub enum Progress {
    More(u64),
    Over(Status),
}

/// Hands a piece on, and writes what it gives.
fn hand_on<T: TakesPieces, O: Sink>(
    taker: &mut T,
    piece: &[u8],
    out: &mut Out<'_, O>,
) -> Result<(), Stop>
    requires some { 0 < length piece.now }
    requires took { (job : LineJob) × (bytes : List ℕ) × T.took taker.old job bytes × (length bytes + length piece.now ≤ max_input) }
    ensures prints { (job : LineJob) (bytes : List ℕ) → T.took taker.old job bytes →
        Prints (piece_print job bytes piece.now) (state_at O.Sink out.old) (state_at O.Sink out.new) result }
    ensures costs { (job : LineJob) (bytes : List ℕ) → T.took taker.old job bytes →
        out.new.steps.now ≤ raised out.old.steps.now (piece_cost job bytes piece.now) }
    ensures took { (job : LineJob) (bytes : List ℕ) → T.took taker.old job bytes → OnOk result (T.took taker.new job (bytes ++ piece.now)) }
    ensures written { OnOk result (out.new.page.now.text ≡ []) }
    ensures lent { SameLoans out.old out.new }
{
    match taker.take_piece(piece, out) {
        Ok(()) => out.page.write(out.sink),
        Err(stop) => Err(stop),
    }
}

/// Ends the input, and writes what that gives.
fn end<T: TakesPieces, O: Sink>(taker: &mut T, out: &mut Out<'_, O>) -> Result<(), Stop>
    requires { (job : LineJob) × (bytes : List ℕ) × T.took taker.old job bytes }
    ensures prints { (job : LineJob) (bytes : List ℕ) → T.took taker.old job bytes →
        Prints (last_print job bytes) (state_at O.Sink out.old) (state_at O.Sink out.new) result }
    ensures costs { (job : LineJob) (bytes : List ℕ) → T.took taker.old job bytes →
        out.new.steps.now ≤ raised out.old.steps.now (last_cost job bytes) }
    ensures ended { (job : LineJob) (bytes : List ℕ) → T.took taker.old job bytes → OnOk result (T.ended taker.new job bytes) }
    ensures written { OnOk result (out.new.page.now.text ≡ []) }
    ensures lent { SameLoans out.old out.new }
{
    match taker.finish(out) {
        Ok(()) => out.page.write(out.sink),
        Err(stop) => Err(stop),
    }
}

/// How a run ends where rows are printed no further.
pub fn status_of(stop: Stop) -> Status
    ensures { result ≡ spec.status_of stop }
{
    match stop {
        Stop::Memory => Status::Memory,
        Stop::Output => Status::WriteFault,
    }
}

/// Reads a piece, and writes what the lines give that end in it.
fn take_turn<I: Source, T: TakesPieces, O: Sink>(
    input: &mut I,
    buffer: &mut [u8],
    room: usize,
    taker: &mut T,
    out: &mut Out<'_, O>,
) -> Progress
    requires took { (job : LineJob) × (bytes : List ℕ) × T.took taker.old job bytes × (length bytes + room ≤ max_input) }
    requires some_room { 0 < room }
    requires a_piece { length buffer.old ≤ max_piece }
    requires within { room ≤ length buffer.old }
    ensures turned { (job : LineJob) (from : InputSide) (to : OutputSide) (bytes : List ℕ) → length bytes + room ≤ max_input →
        GoesOnWith (T.took taker.old) job from (input_at I.Source input.old out.old.steps.now) to (state_at O.Sink out.old) bytes →
        Turned (T.took taker.new) (T.ended taker.new) job from (input_at I.Source input.new out.new.steps.now) to (state_at O.Sink out.new) bytes result }
    ensures bound { IsWithin room result }
    ensures lent { SameLoans out.old out.new }
{
    let piece = &mut buffer[..room];
    let n = match input.read(piece) {
        Ok(n) => n,
        Err(_) => return Progress::Over(Status::ReadFault),
    };
    if n == 0 {
        return match end(taker, out) {
            Ok(()) => Progress::Over(Status::Done),
            Err(stop) => Progress::Over(status_of(stop)),
        };
    }
    match hand_on(taker, front(piece, n), out) {
        Ok(()) => Progress::More(n as u64),
        Err(stop) => Progress::Over(status_of(stop)),
    }
}

/// Turn after turn, up to so many bytes, as long as the taker has place for more. There is at least one turn.
pub fn take_turns<I: Source, T: TakesPieces, O: Sink>(
    input: &mut I,
    buffer: &mut [u8],
    most: u64,
    taker: &mut T,
    out: &mut Out<'_, O>,
) -> Progress
    requires goes_on { (job : LineJob) × (from : InputSide) × (to : OutputSide) × (bytes : List ℕ) × (length bytes + most ≤ max_input) ×
        GoesOnWith (T.took taker.old) job from (input_at I.Source input.old out.old.steps.now) to (state_at O.Sink out.old) bytes }
    requires some { 0 < most }
    requires a_piece { length buffer.old ≡ max_piece }
    ensures turned { (job : LineJob) (from : InputSide) (to : OutputSide) (bytes : List ℕ) → length bytes + most ≤ max_input →
        GoesOnWith (T.took taker.old) job from (input_at I.Source input.old out.old.steps.now) to (state_at O.Sink out.old) bytes →
        Turned (T.took taker.new) (T.ended taker.new) job from (input_at I.Source input.new out.new.steps.now) to (state_at O.Sink out.new) bytes result }
    ensures bound { IsWithin most result }
    ensures lent { SameLoans out.old out.new }
{
    let mut taken: u64 = 0;
    loop {
        let room = piece_len(most - taken);
        match take_turn(input, buffer, room, taker, out) {
            Progress::More(n) => taken += n,
            Progress::Over(status) => return Progress::Over(status),
        }
        if taken == most || !taker.has_place() {
            return Progress::More(taken);
        }
    }
}
