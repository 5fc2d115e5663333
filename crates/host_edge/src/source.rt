ghost use Rattle.std.specs.Prelude.{◌≡◌, ℕ, List, Option};
ghost use Rattle.host_edge.specs.Faults.{HasCause};
ghost use Rattle.host_edge.specs.Streams.{Reads, SameTelling};

/// A stream or a store failed. What it was asked for didn't happen, and its count of faults says so.
#[derive(Clone, Copy, Debug, PartialEq, Eq)]
pub struct Failed;

/// A stream of bytes that come in.
///
/// Contracts see the bytes that are `left`, where a source tells them, and its count of `faults`, which never falls.
/// A count rose in a call where it is greater afterwards than before, or stands at 2^64 - 1, its last value.
pub trait Source: Drop {
    /// The bytes that are left, where they are told.
    ghost left: { Self → Option (List ℕ) };

    /// How many faults there were.
    ghost faults: { Self → ℕ };

    /// Moves bytes from the front of what is left to the front of the slice, and answers how many: at most the
    /// slice's length, and 0 for a slice that isn't empty only at the end. The rest of the slice is left open.
    ///
    /// `Failed` comes only where the count of faults rose; nothing was taken then.
    fn read(&mut self, into: &mut [u8]) -> Result<usize, Failed>
        ensures reads { Reads (left self.old) (left self.new) into.new result }
        ensures told { SameTelling (left self.old) (left self.new) }
        ensures cause { HasCause (faults self.old) (faults self.new) result };

    /// How many faults there were so far.
    fn faults(&self) -> u64
        ensures { result ≡ faults self.now };
}
