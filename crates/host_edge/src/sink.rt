ghost use Rattle.std.specs.Prelude.{◌≡◌, ℕ, ◌+◌, ◌≤◌, List, length, Option, OnOk, OnErr, IfOk};
ghost use Rattle.std.specs.Io.KnownBytes.{Appends};
ghost use Rattle.host_edge.specs.Faults.{HasCause};
ghost use Rattle.host_edge.specs.Streams.{AppendsProperPrefix, Puts, SameTelling};

use crate::source::Failed;
use fb_base::NoMemory;

/// A sink failed before it took all the bytes.
#[derive(Clone, Copy, Debug, PartialEq, Eq)]
pub struct WriteFault;

/// A stream of bytes that go out.
///
/// Contracts see the bytes that were `written`, where a sink tells them, its count of `faults`, which never falls,
/// and as `spare` how many more bytes it takes without memory.
/// A count rose in a call where it is greater afterwards than before, or stands at 2^64 - 1, its last value.
pub trait Sink: Drop {
    /// The bytes that were written, where they are told.
    ghost written: { Self → Option (List ℕ) };

    /// How many faults there were.
    ghost faults: { Self → ℕ };

    /// How many more bytes it takes without memory.
    ghost spare: { Self → ℕ };

    /// Makes room for `n` bytes. The error is want of memory. All but the room is as before in both cases.
    fn room(&mut self, n: usize) -> Result<(), NoMemory>
        ensures ok { OnOk result (n ≤ spare self.new) }
        ensures spare { spare self.old ≤ spare self.new }
        ensures written { written self.new ≡ written self.old }
        ensures faults { faults self.new ≡ faults self.old };

    /// Appends first bytes of a piece for which there is room, and answers how many: at least one where the piece
    /// isn't empty. It takes no memory.
    ///
    /// `Failed` comes only where the count of faults rose; nothing was appended then.
    fn put(&mut self, piece: &[u8]) -> Result<usize, Failed>
        requires { length piece.now ≤ spare self.old }
        ensures puts { Puts (written self.old) (written self.new) piece.now result }
        ensures told { SameTelling (written self.old) (written self.new) }
        ensures cause { HasCause (faults self.old) (faults self.new) result }
        ensures spare { IfOk result (λ n. spare self.old ≤ spare self.new + n) }
        ensures spare_err { OnErr result (spare self.new ≡ spare self.old) };

    /// How many faults there were so far.
    fn faults(&self) -> u64
        ensures { result ≡ faults self.now };
}

/// How putting many bytes went.
#[derive(Clone, Copy, Debug, PartialEq, Eq)]
pub struct Written {
    /// How many calls of `put` were made.
    pub calls: usize,
    /// Whether all the bytes were taken.
    pub outcome: Result<(), WriteFault>,
}

/// Puts all the bytes, in order, into room that is there, as `put_all` does, and counts the calls of `put`: at most
/// as many as there are bytes.
pub fn put_counted<K: Sink>(sink: &mut K, bytes: &[u8]) -> Written
    requires { length bytes.now ≤ K.spare sink.old }
    ensures ok { OnOk result.outcome (Appends (K.written sink.old) (K.written sink.new) bytes.now) }
    ensures cut { OnErr result.outcome (AppendsProperPrefix (K.written sink.old) (K.written sink.new) bytes.now) }
    ensures told { SameTelling (K.written sink.old) (K.written sink.new) }
    ensures cause { HasCause (K.faults sink.old) (K.faults sink.new) result.outcome }
    ensures calls { result.calls ≤ length bytes.now }
{
    let mut done = 0;
    let mut calls = 0;
    while done < bytes.len() {
        let (_, rest) = bytes.split_at(done);
        calls += 1;
        match sink.put(rest) {
            Ok(taken) => done += taken,
            Err(Failed) => {
                return Written {
                    calls,
                    outcome: Err(WriteFault),
                };
            }
        }
    }
    Written {
        calls,
        outcome: Ok(()),
    }
}

/// Puts all the bytes, in order, into room that is there. It takes no memory.
///
/// `WriteFault` comes only where the sink's count of faults rose; some first bytes were appended then, and not all.
pub fn put_all<K: Sink>(sink: &mut K, bytes: &[u8]) -> Result<(), WriteFault>
    requires { length bytes.now ≤ K.spare sink.old }
    ensures ok { OnOk result (Appends (K.written sink.old) (K.written sink.new) bytes.now) }
    ensures cut { OnErr result (AppendsProperPrefix (K.written sink.old) (K.written sink.new) bytes.now) }
    ensures told { SameTelling (K.written sink.old) (K.written sink.new) }
    ensures cause { HasCause (K.faults sink.old) (K.faults sink.new) result }
{
    put_counted(sink, bytes).outcome
}
