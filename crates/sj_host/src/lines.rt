// The rows of whole lines.
ghost use Rattle.std.specs.Prelude.{◌≡◌, ◌≤◌, length, take, IfOk, IfErr};
ghost use Rattle.sj_host.specs.Host.{Answers, IsWhyUnwritten, EndsLine, HasNoLine};

use crate::ends::{fewer, last_end};
use crate::in_memory::write_rows;
use crate::unanswered::Unanswered;
use sj_base::Steps;
use sj_file::Keys;
use std::alloc::Global;

/// Which part of an input some bytes are.
#[derive(Clone, Copy, Debug, PartialEq, Eq)]
pub enum Part {
    /// More comes behind them. What is behind their last line feed is not taken.
    Front,
    /// They are its end. What is behind their last line feed is a line, if it is not empty.
    End,
}

/// What was taken and written. Both are numbers of bytes.
#[derive(Clone, Copy, Debug, PartialEq, Eq)]
pub struct Rows {
    /// Those of the lines that were taken, from the front of the input on.
    pub taken: usize,
    /// Those of their rows, from the front of the buffer on.
    pub written: usize,
}

/// Writes the rows that the statements of a file give for the lines of a part of an input, and says how many bytes of the
/// input it took. If the rows of all lines have no room, it takes fewer lines, about half of them as often as that is needed.
/// Then the caller goes on behind those that were taken. It takes one at least, if there is one. The lines are numbered from
/// 1 in each call.
///
/// The library for C does not call this; its tests do, and a host in Rattle may.
///
/// # Errors
/// Each of [`Unanswered`]. [`Unanswered::Room`] comes if the rows of the first line alone have no room.
#[tactic(auto, using(crate::proofs::Feeds::ends_line))]
pub fn line_rows(
    alloc: Global,
    keys: Keys,
    file: &[u8],
    input: &[u8],
    part: Part,
    out: &mut [u8],
    steps: &mut Steps,
) -> Result<Rows, Unanswered>
    ensures taken { IfOk result (λ rows. rows.taken ≤ length input.now) }
    ensures ends { IfOk result (λ rows. EndsLine part input.now rows.taken) }
    ensures some { IfOk result (λ rows. rows.taken ≡ 0 → HasNoLine part input.now) }
    ensures written { IfOk result (λ rows. rows.written ≤ length out.new) }
    ensures rows { IfOk result (λ rows. Answers keys file.now (take rows.taken input.now) (take rows.written out.new)) }
    ensures unanswered { IfErr result (λ why. IsWhyUnwritten file.now why) }
    ensures room { length out.new ≡ length out.old }
{
    let mut taken = whole_len(input, part);
    loop {
        let lines = &input[..taken];
        match write_rows(alloc, keys, file, lines, out, steps) {
            Ok(written) => return Ok(Rows { taken, written }),
            Err(Unanswered::Room) => match fewer(lines) {
                Some(end) => taken = end,
                None => return Err(Unanswered::Room),
            },
            Err(why) => return Err(why),
        }
    }
}

/// How many bytes the lines of a part of an input have.
#[tactic(auto, using(crate::proofs::Feeds::nothing_left))]
fn whole_len(input: &[u8], part: Part) -> usize
    ensures within { result ≤ length input.now }
    ensures ends { EndsLine part input.now result }
    ensures some { result ≡ 0 → HasNoLine part input.now }
{
    match part {
        Part::Front => last_end(input),
        Part::End => input.len(),
    }
}
