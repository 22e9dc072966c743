// The rows of one document.
ghost use Rattle.std.specs.Prelude.{◌≡◌, ◌≤◌, length, map, take, IfOk, IfErr};
ghost use Rattle.sj_host.specs.Host.{Answers, IsWhyUnwritten, return_for, on_one_line};

use crate::in_memory::write_rows;
use crate::unanswered::Unanswered;
use sj_base::{Memory, Steps, push};
use sj_file::Keys;
use std::alloc::Global;

/// Writes the rows that the statements of a file give for one document, which may hold line feeds, and says how many bytes
/// they have. It is line 1. Each line feed is read as a carriage return: JSON takes both as white space between its tokens, and
/// neither in a string (RFC 8259, sections 2 and 7).
///
/// The library for C does not call this; its tests do, and a host in Rattle may.
///
/// # Errors
/// Each of [`Unanswered`].
pub fn document_rows(
    alloc: Global,
    keys: Keys,
    file: &[u8],
    document: &[u8],
    out: &mut [u8],
    steps: &mut Steps,
) -> Result<usize, Unanswered>
    ensures written { IfOk result (λ count. count ≤ length out.new) }
    ensures rows { IfOk result (λ count. Answers keys file.now (on_one_line document.now) (take count out.new)) }
    ensures unanswered { IfErr result (λ why. IsWhyUnwritten file.now why) }
    ensures room { length out.new ≡ length out.old }
{
    let line = match line_of(alloc, document) {
        Ok(line) => line,
        Err(_) => return Err(Unanswered::Memory),
    };
    write_rows(alloc, keys, file, line.as_slice(), out, steps)
}

fn line_of(alloc: Global, document: &[u8]) -> Result<Vec<u8>, Memory>
    ensures { IfOk result (λ line. line.items ≡ on_one_line document.now) }
{
    let mut line = Vec::with_capacity(alloc, document.len())?;
    for byte in document {
        push(&mut line, without_feed(*byte))?;
    }
    Ok(line)
}

fn without_feed(byte: u8) -> u8
    ensures { result ≡ return_for byte }
{
    if byte == b'\n' { b'\r' } else { byte }
}
