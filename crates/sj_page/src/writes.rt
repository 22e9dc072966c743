// Texts into a sink.
ghost use Rattle.std.specs.Prelude.{◌≡◌, ◌≤◌, length, drop, map};
ghost use Rattle.sj_page.specs.Sides.{output_side, Wrote, joined};

use sj_outside::{Failed, Sink};

/// Writes all of a text, or fails with a front of it written.
pub fn write_all<O: Sink>(out: &mut O, text: &[u8]) -> Result<(), Failed>
    ensures { Wrote (output_side O.taken O.size O.faults out.old) (output_side O.taken O.size O.faults out.new) text.now result }
{
    let mut rest = text;
    while !rest.is_empty() {
        match out.write(rest) {
            Ok(n) => rest = behind(rest, n),
            Err(failed) => return Err(failed),
        }
    }
    Ok(())
}

/// What stands behind the first `n` bytes.
fn behind(bytes: &[u8], n: usize) -> &[u8]
    requires { n ≤ length bytes.now }
    ensures { result.now ≡ drop n bytes.now }
{
    &bytes[n..]
}

/// Writes texts one behind the other, or fails with a front of them written.
pub fn write_parts<O: Sink>(out: &mut O, parts: &[&[u8]]) -> Result<(), Failed>
    ensures { Wrote (output_side O.taken O.size O.faults out.old) (output_side O.taken O.size O.faults out.new)
        (joined (map (λ part. part.now) parts.now)) result }
{
    for part in parts {
        match write_all(out, part) {
            Ok(()) => {}
            Err(failed) => return Err(failed),
        }
    }
    Ok(())
}
