//! Generated lines, and a run over them.
ghost use Rattle.std.specs.Prelude.{◌<◌, ◌≤◌};
ghost use Rattle.sj_generated.specs.Lines.{most_lines};

use crate::cases::expect;
use crate::runs::{ROOT, Setup, plain, run_on};
use sj_generated::GeneratedSource;
use sj_outside::Source;
use std::alloc::Global;
use std::test::Fail;

/// All bytes of a source, which is read so many at a time.
fn all_of(alloc: Global, number: u32, cut: usize) -> Result<String, Fail>
    requires few { number ≤ most_lines }
    requires some { 0 < cut }
{
    let mut source = GeneratedSource::new(number);
    let mut buffer = vec![in alloc; 0u8; cut]?;
    let mut all = Vec::new(alloc);
    for _ in 0..1000 {
        let n = source.read(buffer.as_mut_slice()).map_err(|_| "failed")?;
        if n == 0 {
            return Ok(String::from_utf8(all)?);
        }
        all.extend_from_slice(&buffer.as_slice()[..n])?;
    }
    Err("no end")?
}

#[test]
fn lines_in_any_cut(rt: HostRuntime) -> Result<(), Fail> {
    let alloc = rt.alloc();
    for cut in [1, 7, 400] {
        expect(&rt, all_of(alloc, 0, cut)?.as_str(), "", "no line");
        let first = "{\"n\":1,\"v\":[1,1],\"s\":\"k1\"}\n";
        expect(&rt, all_of(alloc, 1, cut)?.as_str(), first, "one line");
        let ten = all_of(alloc, 10, cut)?;
        assert!(rt; ten.as_str().starts_with(first));
        let end = "\n{\"n\":9,\"v\":[2,0],\"s\":\"k4\"}\n{\"n\":10,\n";
        assert!(rt; ten.as_str().ends_with(end));
    }
    Ok(())
}

#[test]
fn the_input_is_not_read(rt: HostRuntime) -> Result<(), Fail> {
    let words = "selfrun 2000 f";
    let setup = Setup {
        words,
        ..plain(ROOT, b"null", 0)
    };
    let ran = run_on(&rt, rt.alloc(), &setup)?;
    assert!(rt; ran.reads == 0);
    Ok(())
}
