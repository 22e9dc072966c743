//! Runs over the objects in memory, and what they gave.
use crate::cases::Counts;
use sj_base::{Steps, Text};
use sj_file::Status;
use sj_outside::{MemShelf, MemSink, MemSource};
use sj_run::run;
use std::alloc::Global;
use std::test::Fail;

/// What a run gave: how it ended, what it wrote, how often it read, and the steps that it took.
#[derive(Drop)]
pub(crate) struct Outcome {
    pub(crate) status: Status,
    pub(crate) out: Vec<u8>,
    notes: Vec<u8>,
    pub(crate) reads: u64,
    pub(crate) steps: u64,
}

/// What a run is given. The file is `f`, and the calls with these numbers fail.
#[derive(Clone, Copy)]
pub(crate) struct Setup<'a> {
    pub(crate) words: &'a str,
    pub(crate) file: &'a [u8],
    pub(crate) shelf_fails: &'a [u64],
    pub(crate) input: &'a [u8],
    pub(crate) cut: usize,
    pub(crate) input_fails: &'a [u64],
    pub(crate) out_fails: &'a [u64],
    pub(crate) room: usize,
    pub(crate) note_room: usize,
}

/// The common case: `run f`, with nothing that fails and room enough.
pub(crate) fn plain<'a>(file: &'a [u8], input: &'a [u8], cut: usize) -> Setup<'a> {
    Setup {
        words: "run f",
        file,
        shelf_fails: &[],
        input,
        cut,
        input_fails: &[],
        out_fails: &[],
        room: 1_000_000,
        note_room: 4096,
    }
}

fn words_of(alloc: Global, words: &str) -> Result<Vec<String>, Fail> {
    let mut all = Vec::new(alloc);
    for word in words.split(' ') {
        all.push(String::from_str(alloc, word)?)?;
    }
    Ok(all)
}

fn shelf_of(alloc: Global, setup: &Setup<'_>) -> Result<MemShelf, Fail> {
    let name = Text::from_str(alloc, "f")?;
    let bytes = setup.file.to_vec(alloc)?;
    Ok(MemShelf::new(name, bytes, setup.shelf_fails.to_vec(alloc)?))
}

fn source_of(alloc: Global, setup: &Setup<'_>) -> Result<MemSource, Fail> {
    let calls = if setup.cut == 0 { 0 } else { setup.input.len() };
    let bytes = setup.input.to_vec(alloc)?;
    let cuts = vec![in alloc; setup.cut; calls]?;
    Ok(MemSource::new(bytes, cuts, setup.input_fails.to_vec(alloc)?))
}

// It promises nothing, so that what `run` promises is no part of any other proof.
fn ended(
    alloc: Global,
    words: &[String],
    shelf: &mut MemShelf,
    input: &mut MemSource,
    (out, notes): (&mut MemSink, &mut MemSink),
    steps: &mut Steps,
) -> Status {
    run(alloc, words, shelf, input, out, notes, steps)
}

fn run_between(
    rt: &impl Counts,
    alloc: Global,
    setup: &Setup<'_>,
    words: &[String],
    shelf: &mut MemShelf,
    input: &mut MemSource,
) -> Result<Outcome, Fail> {
    let mut out = MemSink::new(alloc, setup.room, setup.out_fails.to_vec(alloc)?)?;
    let mut notes = MemSink::new(alloc, setup.note_room, Vec::new(alloc))?;
    let mut steps = rt.steps();
    let status = ended(
        alloc,
        words,
        shelf,
        input,
        (&mut out, &mut notes),
        &mut steps,
    );
    Ok(Outcome {
        status,
        out: out.bytes().to_vec(alloc)?,
        notes: notes.bytes().to_vec(alloc)?,
        reads: input.calls(),
        steps: steps.count(),
    })
}

pub(crate) fn run_on(rt: &impl Counts, alloc: Global, setup: &Setup<'_>) -> Result<Outcome, Fail> {
    let words = words_of(alloc, setup.words)?;
    let mut shelf = shelf_of(alloc, setup)?;
    let mut input = source_of(alloc, setup)?;
    run_between(rt, alloc, setup, &words, &mut shelf, &mut input)
}

/// How a run ended, what it wrote and its message.
pub(crate) fn told(alloc: Global, ran: &Outcome) -> Result<String, Fail> {
    let out = str::from_utf8(ran.out.as_slice()).unwrap_or("no text");
    let notes = str::from_utf8(ran.notes.as_slice()).unwrap_or("no text");
    Ok(format!(in alloc; "{:?} {out:?} {notes:?}", ran.status)?)
}

pub(crate) const ROOT: &[u8] = b"SELECT JSON_EXISTS(doc, 'lax $');";

/// A text many times between two others.
pub(crate) fn repeated(
    alloc: Global,
    front: &str,
    part: &str,
    count: usize,
    end: &str,
) -> Result<String, Fail> {
    let mut text = String::from_str(alloc, front)?;
    for _ in 0..count {
        text.push_str(part)?;
    }
    text.push_str(end)?;
    Ok(text)
}
