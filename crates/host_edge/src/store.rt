ghost use Rattle.std.specs.Prelude.{◌≡◌, ℕ, ◌≤◌, Option, IfOk, IfErr};
ghost use Rattle.host_edge.specs.Files.{FileMap};
ghost use Rattle.host_edge.specs.Loads.{IsLoaded, IsLoadCause};

use fb_base::{NoMemory, Text};

/// What a load found.
#[derive(Debug, Drop)]
pub enum Loaded {
    /// The file's bytes.
    Bytes(Text),
    /// There is no file of this name.
    Absent,
    /// The file has more bytes than the limit.
    TooLong,
}

/// Why a load found nothing out.
#[derive(Clone, Copy, Debug, PartialEq, Eq)]
pub enum LoadErr {
    /// The store failed.
    Failed,
    /// Memory ran out.
    NoMemory,
}

impl From<NoMemory> for LoadErr {
    ghost use Rattle.host_edge.specs.declared.store.LoadErr.TheVariants as errors;

    ghost from_gives = { λ _ e. e ≡ errors.NoMemory };

    fn from(_: NoMemory) -> LoadErr {
        LoadErr::NoMemory
    }
}

/// Files under their names.
///
/// Contracts see what is `held`, where a store tells it, and its count of `faults`, which never falls.
/// A count rose in a call where it is greater afterwards than before, or stands at 2^64 - 1, its last value.
pub trait Store: Drop {
    /// The files, where they are told.
    ghost held: { Self → Option FileMap };

    /// How many faults there were.
    ghost faults: { Self → ℕ };

    /// Loads the file of this name, if it has at most `limit` bytes. The files are as before.
    ///
    /// `Absent` comes exactly where there is no such file, and `TooLong` exactly where it has more bytes, where the
    /// files are told. `Failed` comes only where the count of faults rose. `NoMemory` is want of memory.
    fn load(&mut self, name: &str, limit: usize) -> Result<Loaded, LoadErr>
        ensures loaded { IfOk result (IsLoaded (held self.old) name.now limit) }
        ensures held { held self.new ≡ held self.old }
        ensures later { faults self.old ≤ faults self.new }
        ensures cause { IfErr result (IsLoadCause (faults self.old) (faults self.new)) };

    /// How many faults there were so far.
    fn faults(&self) -> u64
        ensures { result ≡ faults self.now };
}
