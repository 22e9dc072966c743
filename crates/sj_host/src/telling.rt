// What is told of a call that gives nothing.
ghost use Rattle.std.specs.Prelude.{◌≡◌, IfOk};
ghost use Rattle.sj_host.specs.Host.{message_of};

use crate::unanswered::Unanswered;
use itoa::Buffer;
use sj_base::{Bytes, Memory};
use sj_sql::FileKind;
use std::alloc::Global;

/// What is told of a call that gives nothing, with a line feed at its end: what the command tells, or `no room`.
pub fn message(alloc: Global, why: Unanswered) -> Result<Bytes, Memory>
    ensures { IfOk result (λ text. text ≡ message_of why) }
{
    match why {
        Unanswered::Refused(number, kind) => refusal(alloc, number, kind),
        Unanswered::FileTooLong => text_of(alloc, b"statement file too long\n"),
        Unanswered::Memory => text_of(alloc, b"out of memory\n"),
        Unanswered::Room => text_of(alloc, b"no room\n"),
    }
}

fn text_of(alloc: Global, bytes: &[u8]) -> Result<Bytes, Memory>
    ensures { IfOk result (λ text. text ≡ bytes.now) }
{
    let mut text = Bytes::new(alloc);
    text.push(bytes)?;
    Ok(text)
}

fn refusal(alloc: Global, number: u32, kind: FileKind) -> Result<Bytes, Memory>
    ensures { IfOk result (λ text. text ≡ message_of (Unanswered.Refused number kind)) }
{
    let mut buffer = Buffer::new();
    let digits = buffer.format(number).as_bytes();
    let mut text = Bytes::new(alloc);
    text.push(b"statement ")?;
    text.push(digits)?;
    text.push(b": ")?;
    text.push(kind.message().as_bytes())?;
    text.push(b"\n")?;
    Ok(text)
}
