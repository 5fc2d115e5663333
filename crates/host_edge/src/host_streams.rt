ghost use Rattle.std.specs.Prelude.{◌≡◌, ◌-◌, ◌^◌, ◌≤◌, None, IsOk, OnOk};
ghost use Rattle.std.specs.Io.KnownBytes.{ReadConsumes, WriteAppends};
ghost use Rattle.host_edge.specs.Faults.{HasCause};
ghost use Rattle.host_edge.specs.Streams.{Puts, Reads};

use crate::sink::Sink;
use crate::source::{Failed, Source};
use fb_base::NoMemory;
use std::io::{ErrorKind, Read, Write};

/// A source over a reader, such as standard input. It tells nothing of the bytes that are left.
///
/// A read that a signal interrupted is made again.
#[derive(Drop)]
pub struct ReaderSource<R> {
    reader: R,
    faults: u64,
}

impl<R: Read + Drop> ReaderSource<R> {
    /// The source of what the reader gives.
    pub fn new(reader: R) -> ReaderSource<R>
        ensures reader { result.reader ≡ reader }
        ensures faults { result.faults ≡ 0 }
    {
        ReaderSource { reader, faults: 0 }
    }
}

impl<R: Read + Drop> Source for ReaderSource<R> {
    ghost left = { λ _. None };

    ghost faults = { λ s. s.faults };

    /// What the reader itself tells of its bytes holds of this read too.
    fn read(&mut self, into: &mut [u8]) -> Result<usize, Failed>
        ensures reads { Reads None None into.new result }
        ensures cause { HasCause self.old.faults self.new.faults result }
        ensures passes { ReadConsumes (R.remaining self.old.reader) (R.remaining self.new.reader) result into.new }
    {
        for _ in 0..u64::MAX {
            match self.reader.read(into) {
                Ok(count) => return Ok(count),
                Err(error) if error.kind() == ErrorKind::Interrupted => {}
                Err(_) => break,
            }
        }
        self.faults = self.faults.saturating_add(1);
        Err(Failed)
    }

    fn faults(&self) -> u64 {
        self.faults
    }
}

/// A sink over a writer, such as standard output or standard error. It tells nothing of the bytes that were written,
/// and needs no room.
///
/// A write that a signal interrupted is made again, and one that takes nothing of a piece is a fault.
#[derive(Drop)]
pub struct WriterSink<W> {
    writer: W,
    faults: u64,
}

impl<W: Write + Drop> WriterSink<W> {
    /// The sink that gives the writer what is put.
    pub fn new(writer: W) -> WriterSink<W>
        ensures writer { result.writer ≡ writer }
        ensures faults { result.faults ≡ 0 }
    {
        WriterSink { writer, faults: 0 }
    }
}

impl<W: Write + Drop> Sink for WriterSink<W> {
    ghost written = { λ _. None };

    ghost faults = { λ s. s.faults };

    ghost spare = { λ _. 2 ^ 64 - 1 };

    /// There is always room.
    fn room(&mut self, _n: usize) -> Result<(), NoMemory>
        ensures ok { OnOk result (_n ≤ 2 ^ 64 - 1) }
        ensures sure { IsOk result }
        ensures same { self.new ≡ self.old }
    {
        Ok(())
    }

    /// What the writer itself tells of its bytes holds of this put too.
    fn put(&mut self, piece: &[u8]) -> Result<usize, Failed>
        ensures puts { Puts None None piece.now result }
        ensures cause { HasCause self.old.faults self.new.faults result }
        ensures passes { WriteAppends (W.contents self.old.writer) (W.contents self.new.writer) result piece.now }
    {
        for _ in 0..u64::MAX {
            match self.writer.write(piece) {
                Ok(0) if !piece.is_empty() => break,
                Ok(count) => return Ok(count),
                Err(error) if error.kind() == ErrorKind::Interrupted => {}
                Err(_) => break,
            }
        }
        self.faults = self.faults.saturating_add(1);
        Err(Failed)
    }

    fn faults(&self) -> u64 {
        self.faults
    }
}
