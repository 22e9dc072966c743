// The rows of bytes in memory.
ghost use Rattle.std.specs.Prelude.{◌≡◌, ◌≤◌, [], Some, length, take, IfOk, IfErr, OnOk};
ghost use Rattle.sj_file.specs.File.{command, running};
ghost use Rattle.sj_file.specs.declared.job.Keys.TheVariants.{Any, Unique};
ghost use Rattle.sj_host.specs.Host.{file_name, Answers, IsWhyUnwritten};

use crate::file::shelf_of;
use crate::unanswered::{Unanswered, why_unanswered};
use sj_base::{Memory, Steps, push};
use sj_file::{Keys, Status};
use sj_outside::{CountSink, MemSink, QuietSource};
use sj_run::run;
use std::alloc::Global;

/// The words of a run.
fn words_of(alloc: Global, keys: Keys) -> Result<Vec<String>, Memory>
    ensures { IfOk result (λ words. command words.items ≡ Some (running keys file_name)) }
{
    match keys {
        Keys::Any => words_of_any(alloc),
        Keys::Unique => words_of_unique(alloc),
    }
}

fn words_of_any(alloc: Global) -> Result<Vec<String>, Memory>
    ensures { IfOk result (λ words. command words.items ≡ Some (running Any file_name)) }
{
    let mut words = Vec::new(alloc);
    let run = String::from_str(alloc, "run")?;
    let name = String::from_str(alloc, "f")?;
    push(&mut words, run)?;
    push(&mut words, name)?;
    Ok(words)
}

fn words_of_unique(alloc: Global) -> Result<Vec<String>, Memory>
    ensures { IfOk result (λ words. command words.items ≡ Some (running Unique file_name)) }
{
    let mut words = Vec::new(alloc);
    let run = String::from_str(alloc, "run")?;
    let keys = String::from_str(alloc, "--unique-keys")?;
    let name = String::from_str(alloc, "f")?;
    push(&mut words, run)?;
    push(&mut words, keys)?;
    push(&mut words, name)?;
    Ok(words)
}

fn source_of(alloc: Global, input: &[u8]) -> Result<QuietSource, Memory>
    ensures { IfOk result (λ source. source ≡ input.now) }
{
    let bytes = input.to_vec(alloc)?;
    Ok(QuietSource::new(bytes))
}

fn sink_of(alloc: Global, room: usize) -> Result<MemSink, Memory>
    ensures { IfOk result (λ sink. sink.taken ≡ []) }
{
    MemSink::new(alloc, room, Vec::new(alloc))
}

/// Writes the output of the statements of a file over an input at the front of `out`, and says how many bytes it has.
///
/// # Errors
/// Each of [`Unanswered`].
pub(crate) fn write_rows(
    alloc: Global,
    keys: Keys,
    file: &[u8],
    input: &[u8],
    out: &mut [u8],
    steps: &mut Steps,
) -> Result<usize, Unanswered>
    ensures within { IfOk result (λ count. count ≤ length out.new) }
    ensures rows { IfOk result (λ count. Answers keys file.now input.now (take count out.new)) }
    ensures unanswered { IfErr result (λ why. IsWhyUnwritten file.now why) }
    ensures room { length out.new ≡ length out.old }
{
    let mut sink = match sink_of(alloc, out.len()) {
        Ok(sink) => sink,
        Err(_) => return Err(Unanswered::Memory),
    };
    match run_in_memory(alloc, keys, file, input, &mut sink, steps) {
        Ok(()) => {}
        Err(why) => return Err(why),
    }
    let text = sink.bytes();
    if text.len() > out.len() {
        return Err(Unanswered::Room);
    }
    out[..text.len()].copy_from_slice(text);
    Ok(text.len())
}

fn run_in_memory(
    alloc: Global,
    keys: Keys,
    file: &[u8],
    input: &[u8],
    sink: &mut MemSink,
    steps: &mut Steps,
) -> Result<(), Unanswered>
    requires { sink.old.taken ≡ [] }
    ensures rows { OnOk result (Answers keys file.now input.now sink.new.taken) }
    ensures unanswered { IfErr result (λ why. IsWhyUnwritten file.now why) }
{
    let words = match words_of(alloc, keys) {
        Ok(words) => words,
        Err(_) => return Err(Unanswered::Memory),
    };
    let mut shelf = match shelf_of(alloc, file) {
        Ok(shelf) => shelf,
        Err(_) => return Err(Unanswered::Memory),
    };
    let mut source = match source_of(alloc, input) {
        Ok(source) => source,
        Err(_) => return Err(Unanswered::Memory),
    };
    let mut notes = CountSink::new();
    let status = run(
        alloc,
        words.as_slice(),
        &mut shelf,
        &mut source,
        sink,
        &mut notes,
        steps,
    );
    match status {
        Status::Done => Ok(()),
        other => Err(why_unanswered(other)),
    }
}
