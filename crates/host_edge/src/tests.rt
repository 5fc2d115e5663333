ghost use Rattle.std.specs.Prelude.{◌≡◌, IfOk};

use super::*;
use fb_base::{Schedule, Text};
use std::io::{self, ErrorKind, Read, Write};
use std::process::Abort;
use std::test::Fail;
use std::{env, fs};

/// Reads into a slice of three bytes, once for each wanted answer, and compares what came.
fn reads_as<S: Source>(rt: &impl Abort, source: &mut S, wanted: &[Result<&str, Failed>]) {
    for want in wanted {
        let mut into = [0; 3];
        let got = source.read(&mut into);
        match (got, want) {
            (Ok(count), Ok(text)) => assert_eq!(rt; &into[..count], text.as_bytes()),
            (got, want) => assert_eq!(rt; got.is_err(), want.is_err()),
        }
    }
}

#[test]
fn sources_give_their_bytes_in_pieces(rt: HostRuntime) -> Result<(), Fail> {
    let alloc = rt.alloc();
    let mut sure = SureSource::new(Text::of(alloc, b"abcdefg")?, 9);
    reads_as(&rt, &mut sure, &[Ok("abc"), Ok("def"), Ok("g"), Ok("")]);
    assert_eq!(rt; sure.faults(), 0);
    let second = Schedule::of(alloc, &[2])?;
    let mut shaky = MemSource::new(Text::of(alloc, b"abcd")?, 2, second);
    reads_as(&rt, &mut shaky, &[Ok("ab"), Err(Failed), Ok("cd"), Ok("")]);
    assert_eq!(rt; shaky.faults(), 1);
    Ok(())
}

#[test]
fn a_sink_whose_second_put_fails(rt: HostRuntime) -> Result<(), Fail> {
    let alloc = rt.alloc();
    let mut sink = MemSink::new(alloc, Schedule::of(alloc, &[2])?);
    sink.room(3)?;
    assert_eq!(rt; put_all(&mut sink, b"abc"), Ok(()));
    sink.room(3)?;
    assert_eq!(rt; put_all(&mut sink, b"def"), Err(WriteFault));
    assert_eq!(rt; sink.faults(), 1);
    sink.room(3)?;
    let written = Written {
        calls: 1,
        outcome: Ok(()),
    };
    assert_eq!(rt; put_counted(&mut sink, b"ghi"), written);
    assert_eq!(rt; sink.bytes(), b"abcghi".as_slice());
    let mut sure = SureSink::new(alloc);
    sure.room(2)?;
    assert_eq!(rt; sure.put(b"xy"), Ok(2));
    assert_eq!(rt; sure.bytes(), b"xy".as_slice());
    assert_eq!(rt; sure.faults(), 0);
    Ok(())
}

/// Whether a load gave these bytes.
fn gave(loaded: &Result<Loaded, LoadErr>, bytes: &[u8]) -> bool {
    match loaded {
        Ok(Loaded::Bytes(text)) => text.bytes() == bytes,
        _ => false,
    }
}

#[test]
fn a_store_whose_first_load_fails(rt: HostRuntime) -> Result<(), Fail> {
    let alloc = rt.alloc();
    let mut files = Files::new(alloc);
    files.add("a.bas", b"old")?;
    files.add("b.bas", b"")?;
    files.add("a.bas", b"text")?;
    assert_eq!(rt; files.get("a.bas"), Some(b"text".as_slice()));
    let mut store = MemStore::new(alloc, files, Schedule::of(alloc, &[1])?);
    assert!(rt; matches!(store.load("a.bas", 4), Err(LoadErr::Failed)));
    assert_eq!(rt; store.faults(), 1);
    assert!(rt; gave(&store.load("a.bas", 4), b"text"));
    assert!(rt; matches!(store.load("a.bas", 3), Ok(Loaded::TooLong)));
    assert!(rt; gave(&store.load("b.bas", 0), b""));
    assert!(rt; matches!(store.load("c.bas", 4), Ok(Loaded::Absent)));
    let mut sure = SureStore::new(alloc, Files::new(alloc));
    assert!(rt; matches!(sure.load("a.bas", 4), Ok(Loaded::Absent)));
    assert_eq!(rt; sure.faults(), 0);
    Ok(())
}

/// A stream that is interrupted at its first call, does its work at the second and fails from the third on.
#[derive(Drop)]
struct Shaky {
    calls: u8,
}

impl Shaky {
    fn turn(&mut self, done: usize) -> io::Result<usize>
        ensures { IfOk result (λ n. n ≡ done) }
    {
        self.calls = self.calls.saturating_add(1);
        match self.calls {
            1 => Err(io::Error::from(ErrorKind::Interrupted)),
            2 => Ok(done),
            _ => Err(io::Error::from(ErrorKind::Other)),
        }
    }
}

impl Read for Shaky {
    fn read(&mut self, buf: &mut [u8]) -> io::Result<usize> {
        self.turn(buf.len().min(1))
    }
}

impl Write for Shaky {
    fn write(&mut self, buf: &[u8]) -> io::Result<usize> {
        self.turn(buf.len().min(1))
    }

    fn flush(&mut self) -> io::Result<()> {
        Ok(())
    }
}

#[test]
fn interrupted_calls_are_no_faults(rt: HostRuntime) {
    let mut source = ReaderSource::new(Shaky { calls: 0 });
    assert_eq!(rt; source.read(&mut [0; 3]), Ok(1));
    assert_eq!(rt; source.faults(), 0);
    assert_eq!(rt; source.read(&mut [0; 3]), Err(Failed));
    assert_eq!(rt; source.faults(), 1);
    let mut sink = WriterSink::new(Shaky { calls: 0 });
    assert_eq!(rt; put_all(&mut sink, b"ab"), Err(WriteFault));
    assert_eq!(rt; sink.faults(), 1);
}

#[test]
fn standard_input_gives_nothing_into_no_bytes(rt: HostRuntime) {
    let mut source = ReaderSource::new(rt.stdin());
    assert_eq!(rt; source.read(&mut []), Ok(0));
    assert_eq!(rt; source.faults(), 0);
}

#[test]
fn standard_output_takes_a_byte(rt: HostRuntime) -> Result<(), Fail> {
    let mut sink = WriterSink::new(rt.stdout());
    sink.room(1)?;
    assert_eq!(rt; put_all(&mut sink, b"\n"), Ok(()));
    assert_eq!(rt; sink.faults(), 0);
    Ok(())
}

#[test]
fn standard_error_takes_a_byte(rt: HostRuntime) -> Result<(), Fail> {
    let mut sink = WriterSink::new(rt.stderr());
    sink.room(1)?;
    assert_eq!(rt; put_all(&mut sink, b"\n"), Ok(()));
    assert_eq!(rt; sink.faults(), 0);
    Ok(())
}

#[test]
fn files_are_loaded_within_their_limit(rt: HostRuntime) -> Result<(), Fail> {
    let folder = env::temp_dir(&rt)?;
    let path = folder.join(rt.alloc(), "host_edge_loads_a_file")?;
    fs::write(&rt, path.as_str(), "Print 1")?;
    let mut store = FileStore::new(&rt);
    assert!(rt; gave(&store.load(path.as_str(), 7), b"Print 1"));
    assert!(rt; matches!(store.load(path.as_str(), 6), Ok(Loaded::TooLong)));
    fs::remove_file(&rt, path.as_str())?;
    assert!(rt; matches!(store.load(path.as_str(), 7), Ok(Loaded::Absent)));
    assert_eq!(rt; store.faults(), 0);
    assert!(rt; matches!(store.load(folder.as_str(), 7), Err(LoadErr::Failed)));
    assert_eq!(rt; store.faults(), 1);
    Ok(())
}
