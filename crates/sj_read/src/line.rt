// A line as a whole: its document, or why it has none.
ghost use Rattle.std.specs.Prelude.{◌≡◌, ◌≤◌, length, IfOk, Err};
ghost use Rattle.sj_json.specs.Building.{fresh};
ghost use Rattle.sj_json.specs.Spelling.{SpellsText, IsJson};
ghost use Rattle.sj_doc.specs.Builders.{held};
ghost use Rattle.sj_read.specs.LinesRead.{IsReadAs, HasRead};

use crate::reader::{MAX_LENGTH, Mode, ReadRefusal, turn};
use crate::utf8::text_of;
use sj_base::Memory;
use sj_doc::{CopiedLine, Doc, DocBuilder, Want};
use std::alloc::Global;

/// The most bytes of a buffer that are kept for the next line.
pub const MOST_BUFFERED: usize = 65_536;

/// What a line was read as.
#[derive(Drop)]
pub enum LineRead {
    /// The document that it spells.
    Json(Doc),
    /// It is no JSON text within the limits. The builder has the memory that was to hold its document.
    NotJson(DocBuilder),
}

/// The document that the line spells (RFC 8259). Equal keys of an object are kept, in their order.
///
/// The answer is `NotJson` exactly where the line is not well-formed UTF-8, has more than `MAX_LENGTH`
/// bytes, opens more than `MAX_DEPTH` containers at one place, or spells no tree.
///
/// Example: `{"a":1,"a":2}` has two members; `[1,]` is not JSON (`sj_document_tests::examples::lines_are_read`).
pub fn read(alloc: Global, line: &[u8]) -> Result<Doc, ReadRefusal>
    ensures ok { IfOk result (λ doc. SpellsText doc line.now × IsJson line.now) }
    ensures refused { result ≡ Err ReadRefusal.NotJson → IsJson line.now → ⊥ }
{
    let mut buffer = Vec::new(alloc);
    match read_over(alloc, DocBuilder::new(alloc), &mut buffer, line) {
        Ok(LineRead::Json(doc)) => Ok(doc),
        Ok(LineRead::NotJson(_)) => Err(ReadRefusal::NotJson),
        Err(Memory) => Err(ReadRefusal::Memory),
    }
}

/// The same, in the memory of a builder, whatever it holds: that of an earlier document, by `Doc::recycle`, or of an
/// earlier line that is not JSON. The buffer is for the texts of strings with escapes, and may hold anything. Behind a line
/// that needed more than [`MOST_BUFFERED`] bytes of it, its memory is given back to the allocator.
///
/// # Errors
/// [`Memory`] where memory runs out. The memory of the builder is given back to the allocator then, and the buffer may hold
/// anything.
///
/// Example: `[1, 2, 3]` is read in the memory of the document before (`sj_document_tests::examples::lines_are_read`).
pub fn read_over(
    alloc: Global,
    builder: DocBuilder,
    buffer: &mut Vec<u8>,
    line: &[u8],
) -> Result<LineRead, Memory>
    ensures read { IfOk result (IsReadAs line.now) }
    ensures short { length buffer.old.items ≤ MOST_BUFFERED → length buffer.new.items ≤ MOST_BUFFERED }
{
    if line.len() > MAX_LENGTH {
        return Ok(LineRead::NotJson(builder));
    }
    match builder.copying(line) {
        Ok(copied) => read_copied(alloc, copied, buffer, line),
        Err(memory) => Err(memory),
    }
}

// The same of a line that was copied. It is checked first, so the copy is there when it is read.
#[inline(always)]
fn read_copied(
    alloc: Global,
    copied: CopiedLine,
    buffer: &mut Vec<u8>,
    line: &[u8],
) -> Result<LineRead, Memory>
    requires copied { copied ≡ line.now }
    requires short { length line.now ≤ MAX_LENGTH }
    ensures read { IfOk result (IsReadAs line.now) }
    ensures short { length buffer.old.items ≤ MOST_BUFFERED → length buffer.new.items ≤ MOST_BUFFERED }
{
    match text_of(line) {
        Some(text) => read_held(alloc, copied.hold(), buffer, text),
        None => Ok(LineRead::NotJson(copied.give_up())),
    }
}

// The same of a text that the builder holds.
#[inline(always)]
fn read_held(
    alloc: Global,
    builder: DocBuilder,
    buffer: &mut Vec<u8>,
    text: &str,
) -> Result<LineRead, Memory>
    requires fresh { builder ≡ (fresh, held text.now) }
    requires short { length text.now ≤ MAX_LENGTH }
    ensures read { IfOk result (IsReadAs text.now) }
    ensures short { length buffer.new.items ≤ MOST_BUFFERED }
{
    let mut builder = builder;
    match read_and_trim(alloc, &mut builder, buffer, text) {
        Ok(()) => Ok(LineRead::Json(builder.finish())),
        Err(ReadRefusal::NotJson) => Ok(LineRead::NotJson(builder)),
        Err(ReadRefusal::Memory) => Err(Memory),
    }
}

// Reads a text as `read_text` does. The memory of a long buffer is given back then.
#[inline(always)]
fn read_and_trim(
    alloc: Global,
    builder: &mut DocBuilder,
    buffer: &mut Vec<u8>,
    text: &str,
) -> Result<(), ReadRefusal>
    requires fresh { builder.old ≡ (fresh, held text.now) }
    requires short { length text.now ≤ MAX_LENGTH }
    ensures read { HasRead text.now result builder.new.0 }
    ensures short { length buffer.new.items ≤ MOST_BUFFERED }
{
    let read = read_text(builder, buffer, text);
    if buffer.len() > MOST_BUFFERED {
        *buffer = Vec::new(alloc);
    }
    read
}

// Reads a text into a builder that holds it. Where that gives `Ok`, the document is complete.
#[inline(always)]
fn read_text(builder: &mut DocBuilder, buffer: &mut Vec<u8>, text: &str) -> Result<(), ReadRefusal>
    requires fresh { builder.old ≡ (fresh, held text.now) }
    requires short { length text.now ≤ MAX_LENGTH }
    ensures { HasRead text.now result builder.new.0 }
{
    let mut mode = Mode::Value;
    let mut at = 0;
    while at < text.len() {
        match turn(builder, buffer, &mut mode, at) {
            Ok(to) => at = to,
            Err(refusal) => return Err(refusal),
        }
    }
    match mode {
        Mode::AfterValue => match builder.wants() {
            Want::Nothing => Ok(()),
            _ => Err(ReadRefusal::NotJson),
        },
        _ => Err(ReadRefusal::NotJson),
    }
}
