// Lines that are read together, before their rows are made.
ghost use Rattle.std.specs.Prelude.{◌≡◌, ◌+◌, ◌++◌, ◌∷◌, [], false, Some, OnOk, IfOk};
ghost use Rattle.sj_rows.specs.Line.{line_seen};
ghost use Rattle.sj_json.specs.Document.{document};
ghost use Rattle.sj_select_list.specs.Line.{line_of};
ghost use Rattle.sj_batch.specs.Batch.{reading, read_line, ReadOn, line_read};

use sj_base::{Memory, push};
use sj_doc::{Doc, DocBuilder};
use sj_file::Keys;
use sj_read::{LineRead, read_over};
use sj_rows::{Line, Lines, is_blank};
use sj_select_list::LineDoc;
use std::alloc::Global;

/// How many lines are read before their rows are made: the cursors of the statements, which are made for the documents
/// that are there, serve all of them.
pub const LINES_TOGETHER: usize = 64;

/// How many bytes a small piece of the input has at most, and a short line.
const SMALL: usize = 2048;

/// A line that is not blank, with its number.
#[derive(Drop)]
pub struct ReadLine {
    pub number: u64,
    pub reading: Reading,
}

impl ReadLine {
    /// No line, in a place for one.
    pub fn none() -> ReadLine {
        ReadLine {
            number: 0,
            reading: Reading::NotJson,
        }
    }
}

/// What a line was read as.
#[derive(Drop)]
pub enum Reading {
    NotJson,
    /// Some object has two equal keys, and keys are to be unique.
    Repeated(Doc),
    Json(Doc),
}

impl Reading {
    /// The line, as statements see it.
    pub fn line(&self) -> LineDoc<'_>
        ensures { line_of result ≡ line_read self.now }
    {
        match self {
            Reading::NotJson => LineDoc::NotJson,
            Reading::Repeated(doc) => LineDoc::Repeated(doc),
            Reading::Json(doc) => LineDoc::Json(doc),
        }
    }

    /// The document, whose memory may be taken again.
    fn into_doc(self) -> Option<Doc> {
        match self {
            Reading::NotJson => None,
            Reading::Repeated(doc) | Reading::Json(doc) => Some(doc),
        }
    }
}

/// Whether lines may wait behind those that were read.
#[derive(Clone, Copy)]
pub enum Behind {
    Nothing,
    Perhaps,
}

/// How long the lines of a batch are.
#[derive(Clone, Copy)]
pub enum Lengths {
    /// All that were read are short, so their documents and all spare memory are small.
    Short,
    /// Some may be long.
    Any,
}

/// The lines that were read last, and the memory of earlier ones, which the next ones take.
#[derive(Drop)]
pub struct Batch {
    pub lines: Vec<ReadLine>,
    pub lengths: Lengths,
    spare: Vec<DocBuilder>,
    // for the texts of strings with escapes
    buffer: Vec<u8>,
}

impl Batch {
    /// No lines. It takes no memory.
    fn new(alloc: Global, lengths: Lengths) -> Batch
        ensures { result.lines.items ≡ [] }
    {
        Batch {
            lines: Vec::new(alloc),
            lengths,
            spare: Vec::new(alloc),
            buffer: Vec::new(alloc),
        }
    }

    /// The lines that were read last. The caller may exchange them: the next ones are read in place of whatever stands
    /// there.
    pub fn lines_mut(&mut self) -> &mut [ReadLine]
        ensures { result.now ≡ self.old.lines.items }
    {
        self.lines.as_mut_slice()
    }

    /// Reads the next of the lines that wait, in place of those that were read before.
    ///
    /// # Errors
    /// [`Memory`] where memory runs out. The batch and the lines that wait are then used no more.
    #[tactic(auto, using(crate::proofs::WaitingLines::read_none, crate::proofs::WaitingLines::read_next, crate::proofs::WaitingLines::read_all, crate::proofs::WaitingLines::read_some))]
    pub fn read_on(
        &mut self,
        alloc: Global,
        keys: Keys,
        waiting: &mut Lines,
    ) -> Result<Behind, Memory>
        ensures { IfOk result (λ behind. ReadOn keys waiting.old waiting.new self.new.lines.items behind) }
    {
        self.clear()?;
        while self.lines.len() < LINES_TOGETHER {
            let number = waiting.number() + 1;
            let Some(line) = waiting.next_line() else {
                return Ok(Behind::Nothing);
            };
            self.read_line(alloc, keys, number, line)?;
        }
        Ok(Behind::Perhaps)
    }

    /// Sets the lines aside. The document of the first is the first to be taken again, so that the memory of a long
    /// line, which stands first in its piece, is taken once.
    fn clear(&mut self) -> Result<(), Memory>
        ensures { OnOk result (self.new.lines.items ≡ []) }
    {
        while let Some(line) = self.lines.pop() {
            if let Some(doc) = line.reading.into_doc() {
                push(&mut self.spare, doc.recycle())?;
            }
        }
        Ok(())
    }

    /// Reads a line behind the others, unless it is blank.
    fn read_line(
        &mut self,
        alloc: Global,
        keys: Keys,
        number: u64,
        line: Line<'_>,
    ) -> Result<(), Memory>
        ensures { OnOk result (self.new.lines.items ≡ self.old.lines.items ++ read_line keys number (line_seen line.entry)) }
    {
        let reading = match line {
            Line::TooLong => Reading::NotJson,
            Line::Bytes(bytes) => {
                if is_blank(bytes) {
                    return Ok(());
                }
                if bytes.len() > SMALL {
                    self.lengths = Lengths::Any;
                }
                reading_of(alloc, keys, bytes, &mut self.spare, &mut self.buffer)?
            }
        };
        self.lines.push(ReadLine { number, reading })?;
        Ok(())
    }
}

/// The lines of small pieces of the input, and those of others. The memory of small pieces stays small.
#[derive(Drop)]
pub struct Batches {
    small: Batch,
    large: Batch,
}

impl Batches {
    /// None. They take no memory.
    pub fn new(alloc: Global) -> Batches {
        Batches {
            small: Batch::new(alloc, Lengths::Short),
            large: Batch::new(alloc, Lengths::Any),
        }
    }

    /// The batch for the lines that end in a piece of so many bytes. Where a small piece had the end of a long line, the memory is
    /// given back before the next one.
    pub fn of_piece(&mut self, alloc: Global, length: usize) -> &mut Batch {
        if length > SMALL {
            return &mut self.large;
        }
        if let Lengths::Any = self.small.lengths {
            self.small = Batch::new(alloc, Lengths::Short);
        }
        &mut self.small
    }
}

/// What a line is read as, in the memory of an earlier one where some is spare. A line that is not JSON leaves it for the next.
fn reading_of(
    alloc: Global,
    keys: Keys,
    line: &[u8],
    spare: &mut Vec<DocBuilder>,
    buffer: &mut Vec<u8>,
) -> Result<Reading, Memory>
    ensures { IfOk result (λ r. r ≡ reading keys (document line.now)) }
{
    let builder = match spare.pop() {
        Some(builder) => builder,
        None => DocBuilder::new(alloc),
    };
    match read_over(alloc, builder, buffer, line) {
        Ok(LineRead::Json(doc)) => judged(alloc, keys, doc),
        Ok(LineRead::NotJson(builder)) => {
            push(spare, builder)?;
            Ok(Reading::NotJson)
        }
        Err(memory) => Err(memory),
    }
}

/// A document as a line whose keys are to be unique or not.
#[tactic(auto, using(crate::proofs::WaitingLines::judged_unique, crate::proofs::WaitingLines::judged_repeated))]
fn judged(alloc: Global, keys: Keys, doc: Doc) -> Result<Reading, Memory>
    ensures { IfOk result (λ r. r ≡ reading keys (Some doc)) }
{
    match keys {
        Keys::Any => Ok(Reading::Json(doc)),
        Keys::Unique => {
            if doc.unique_keys(alloc)? {
                Ok(Reading::Json(doc))
            } else {
                Ok(Reading::Repeated(doc))
            }
        }
    }
}
