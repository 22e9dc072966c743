// Each call with ample memory, its answer compared; the objects in memory by tables of failing calls and cuts; the
// adapters over fakes and a file.
use super::cases::{expect, expect_count};
use sj_base::{Bytes, Memory, Steps, Text};
use sj_outside::{
    CountSink, Failed, FileShelf, MemShelf, MemSink, MemSource, QuietShelf, QuietSource, Shelf,
    Sink, Source, StderrSink, StdinSource, StdoutSink,
};
use std::fs;
use std::io::{self, ErrorKind, Read, Write};
use std::process::Abort;
use std::test::Fail;

#[test]
fn texts_and_bytes_are_what_was_put_in(rt: HostRuntime) -> Result<(), Fail> {
    let text = Text::from_str(rt.alloc(), "grün")?;
    expect(&rt, text.as_str(), "grün", "from_str");
    let text = Text::from_string(text.into_string());
    expect(&rt, text.as_str(), "grün", "from_string");

    let mut bytes = Bytes::new(rt.alloc());
    assert!(rt; bytes.is_empty());
    bytes.push(b"ab")?;
    bytes.push(b"cde")?;
    assert!(rt; bytes.as_slice() == b"abcde".as_slice());
    assert!(rt; bytes.len() == 5);
    bytes.remove(1);
    assert!(rt; bytes.as_slice() == b"acde".as_slice());
    assert!(rt; bytes.len() >= 2);
    bytes.truncate(2);
    let bytes = Bytes::from_vec(bytes.into_vec());
    assert!(rt; bytes.as_slice() == b"ac".as_slice());
    Ok(())
}

#[test]
fn steps_are_counted(rt: HostRuntime) {
    let mut steps = Steps::new(&rt);
    steps.tick();
    steps.tick();
    expect_count(&rt, steps.count(), 2);
}

/// Reads into four places once for each wanted answer, and compares the bytes.
fn compare_reads<S: Source>(rt: &impl Abort, source: &mut S, wants: &[Result<&[u8], Failed>]) {
    let mut buf = [0; 4];
    for want in wants {
        let answer = source.read(&mut buf);
        assert!(rt; answer == want.map(|bytes| bytes.len()));
        if let Ok(bytes) = want {
            assert!(rt; buf.starts_with(bytes));
        }
    }
}

/// Of `abcdefghij`, where the calls 1 and 5 fail: the first call is cut to 3, a cut of 0 is none, a cut above the room changes
/// nothing, and the last bytes are fewer than the room.
const CUT_READS: [Result<&[u8], Failed>; 7] = [
    Ok(b"abc"),
    Err(Failed),
    Ok(b"defg"),
    Ok(b"h"),
    Ok(b"ij"),
    Err(Failed),
    Ok(b""),
];

/// Of `abcde`.
const WHOLE_READS: [Result<&[u8], Failed>; 3] = [Ok(b"abcd"), Ok(b"e"), Ok(b"")];

#[test]
fn a_source_fails_and_is_cut_at_the_listed_calls(rt: HostRuntime) -> Result<(), Fail> {
    let bytes = b"abcdefghij".to_vec(rt.alloc())?;
    let cuts = [3, 0, 9, 1].to_vec(rt.alloc())?;
    let fails = [1, 5].to_vec(rt.alloc())?;
    let mut source = MemSource::new(bytes, cuts, fails);
    compare_reads(&rt, &mut source, &CUT_READS);
    expect_count(&rt, source.calls(), 7);

    let mut quiet = QuietSource::new(b"abcde".to_vec(rt.alloc())?);
    compare_reads(&rt, &mut quiet, &WHOLE_READS);
    Ok(())
}

/// Writes three bytes once for each wanted answer.
fn compare_writes<S: Sink>(rt: &impl Abort, sink: &mut S, wants: &[Result<usize, Failed>]) {
    for want in wants {
        assert!(rt; sink.write(b"abc") == *want);
    }
}

/// Into room for five bytes, where the calls 0 and 2 fail.
const WRITES: [Result<usize, Failed>; 5] = [Err(Failed), Ok(3), Err(Failed), Ok(2), Err(Failed)];

#[test]
fn a_sink_fails_at_the_listed_calls_and_without_room(rt: HostRuntime) -> Result<(), Fail> {
    let fails = [0, 2].to_vec(rt.alloc())?;
    let mut sink = MemSink::new(rt.alloc(), 5, fails)?;
    compare_writes(&rt, &mut sink, &WRITES);
    assert!(rt; sink.bytes() == b"abcab".as_slice());
    expect_count(&rt, sink.faults(), 3);

    let mut counter = CountSink::new();
    compare_writes(&rt, &mut counter, &[Ok(3), Ok(3)]);
    expect_count(&rt, counter.size(), 6);
    Ok(())
}

/// A call on a shelf with its answer: a name that is picked, or bytes that are read.
#[derive(Clone, Copy)]
enum Call {
    Picks(&'static str, Result<(), Failed>),
    Reads(Result<&'static [u8], Failed>),
}

fn compare_calls<S: Shelf>(rt: &impl Abort, shelf: &mut S, calls: &[Call]) {
    let mut buf = [0; 4];
    for call in calls {
        match *call {
            Call::Picks(name, want) => assert!(rt; shelf.pick(name) == want),
            Call::Reads(want) => {
                let answer = shelf.read(&mut buf);
                assert!(rt; answer == want.map(|bytes| bytes.len()));
                if let Ok(bytes) = want {
                    assert!(rt; buf.starts_with(bytes));
                }
            }
        }
    }
}

/// On a file `f` with `abcdef`, where the calls 4 and 7 fail: a failed pick leaves no file chosen, and a failed read takes nothing.
const CALLS_THAT_FAIL: [Call; 11] = [
    Call::Reads(Ok(b"")),
    Call::Picks("f", Ok(())),
    Call::Reads(Ok(b"abcd")),
    Call::Reads(Ok(b"ef")),
    Call::Picks("f", Err(Failed)),
    Call::Reads(Ok(b"")),
    Call::Picks("f", Ok(())),
    Call::Reads(Err(Failed)),
    Call::Reads(Ok(b"abcd")),
    Call::Picks("ff", Err(Failed)),
    Call::Reads(Ok(b"")),
];

/// On a file `f` with `ab`.
const QUIET_CALLS: [Call; 5] = [
    Call::Reads(Ok(b"")),
    Call::Picks("g", Err(Failed)),
    Call::Reads(Ok(b"")),
    Call::Picks("f", Ok(())),
    Call::Reads(Ok(b"ab")),
];

#[test]
fn a_shelf_gives_its_file_from_the_front_at_each_pick(rt: HostRuntime) -> Result<(), Fail> {
    let name = Text::from_str(rt.alloc(), "f")?;
    let fails = [4, 7].to_vec(rt.alloc())?;
    let mut shelf = MemShelf::new(name, b"abcdef".to_vec(rt.alloc())?, fails);
    compare_calls(&rt, &mut shelf, &CALLS_THAT_FAIL);

    let name = Text::from_str(rt.alloc(), "f")?;
    let mut quiet = QuietShelf::new(name, b"ab".to_vec(rt.alloc())?);
    compare_calls(&rt, &mut quiet, &QUIET_CALLS);
    Ok(())
}

#[test]
fn failures_have_texts(rt: HostRuntime) -> Result<(), Fail> {
    let memory = format!(in rt.alloc(); "{Memory}")?;
    expect(&rt, memory.as_str(), "out of memory", "Memory");
    let failed = format!(in rt.alloc(); "{Failed}")?;
    expect(&rt, failed.as_str(), "the outside failed", "Failed");
    Ok(())
}

/// A reader and writer that takes and gives a fixed number of bytes at most, or fails.
#[derive(Drop)]
struct Fake {
    most: Option<usize>,
    flushes: bool,
}

impl Read for Fake {
    fn read(&mut self, buf: &mut [u8]) -> io::Result<usize> {
        match self.most {
            Some(most) => Ok(most.min(buf.len())),
            None => Err(ErrorKind::Other.into()),
        }
    }
}

impl Write for Fake {
    fn write(&mut self, buf: &[u8]) -> io::Result<usize> {
        match self.most {
            Some(most) => Ok(most.min(buf.len())),
            None => Err(ErrorKind::Other.into()),
        }
    }

    fn flush(&mut self) -> io::Result<()> {
        if self.flushes {
            Ok(())
        } else {
            Err(ErrorKind::Other.into())
        }
    }
}

#[test]
fn the_adapters_pass_on_counts_and_failures(rt: HostRuntime) {
    let mut input = StdinSource::new(b"abcde".as_slice());
    compare_reads(&rt, &mut input, &WHOLE_READS);
    let mut broken = StdinSource::new(Fake {
        most: None,
        flushes: true,
    });
    compare_reads(&rt, &mut broken, &[Err(Failed)]);

    for (most, flushes, want) in [
        (Some(2), true, Ok(2)),
        (Some(9), true, Ok(3)),
        (Some(0), true, Err(Failed)),
        (Some(2), false, Err(Failed)),
        (None, true, Err(Failed)),
    ] {
        compare_writes(&rt, &mut StdoutSink::new(Fake { most, flushes }), &[want]);
        compare_writes(&rt, &mut StderrSink::new(Fake { most, flushes }), &[want]);
    }
}

/// On a file `a_file_of_the_shelf` with `abcdef`.
const CALLS_ON_FILES: [Call; 8] = [
    Call::Reads(Ok(b"")),
    Call::Picks("no_such_file", Err(Failed)),
    Call::Picks("a_file_of_the_shelf", Ok(())),
    Call::Reads(Ok(b"abcd")),
    Call::Reads(Ok(b"ef")),
    Call::Reads(Ok(b"")),
    Call::Picks("no_such_file", Err(Failed)),
    Call::Reads(Ok(b"")),
];

#[test]
fn the_shelf_of_files_opens_what_is_there(rt: HostRuntime) -> Result<(), Fail> {
    fs::write(&rt, "a_file_of_the_shelf", "abcdef")?;
    compare_calls(&rt, &mut FileShelf::new(&rt), &CALLS_ON_FILES);
    fs::remove_file(&rt, "a_file_of_the_shelf")?;
    Ok(())
}
