ghost use Rattle.std.specs.Prelude.{◌≡◌, ◌+◌, None, IfOk};
ghost use Rattle.host_edge.specs.Within.{IsReadWithin, TakesAtMost};

use crate::store::{LoadErr, Loaded, Store};
use fb_base::{NoMemory, Text};
use std::alloc::Global;
use std::fs;
use std::io::{ErrorKind, Read};
use std::rt::Files;

/// The files of the host, under their paths. It tells nothing of what they hold.
#[derive(Drop)]
pub struct FileStore<'a, R> {
    runtime: &'a R,
    faults: u64,
}

impl<'a, R: Files + AllocGlobal> FileStore<'a, R> {
    /// The files that the runtime reaches.
    pub fn new(runtime: &'a R) -> FileStore<'a, R>
        ensures { result.faults ≡ 0 }
    {
        FileStore { runtime, faults: 0 }
    }
}

impl<'a, R: Files + AllocGlobal> Store for FileStore<'a, R> {
    ghost held = { λ _. None };

    ghost faults = { λ s. s.faults };

    /// Takes at most `limit + 1` bytes from the file.
    fn load(&mut self, name: &str, limit: usize) -> Result<Loaded, LoadErr> {
        let loaded = match fs::open(self.runtime, name) {
            Ok(mut file) => read_within(self.runtime.alloc(), &mut file, limit),
            Err(error) if error.kind() == ErrorKind::NotFound => Ok(Loaded::Absent),
            Err(_) => Err(LoadErr::Failed),
        };
        if let Err(LoadErr::Failed) = &loaded {
            self.faults = self.faults.saturating_add(1);
        }
        loaded
    }

    fn faults(&self) -> u64 {
        self.faults
    }
}

/// Reads a file to its end, or till it turns out to be longer than the limit: never more than `limit + 1` bytes.
fn read_within<F: Read>(alloc: Global, file: &mut F, limit: usize) -> Result<Loaded, LoadErr>
    ensures loaded { IfOk result (IsReadWithin (F.remaining file.old) limit) }
    ensures taken { TakesAtMost (F.remaining file.old) (F.remaining file.new) (limit + 1) }
{
    let mut bytes = Vec::new(alloc);
    let mut buffer = [0; 8192];
    for _ in 0..u64::MAX {
        let room = limit - bytes.len();
        let wanted = room.saturating_add(1).min(buffer.len());
        match file.read(&mut buffer[..wanted]) {
            Ok(0) => return Ok(Loaded::Bytes(Text::from_vec(bytes))),
            Ok(count) if count > room => return Ok(Loaded::TooLong),
            Ok(count) => bytes
                .extend_from_slice(&buffer[..count])
                .map_err(NoMemory::from)?,
            Err(error) if error.kind() == ErrorKind::Interrupted => {}
            Err(_) => break,
        }
    }
    Err(LoadErr::Failed)
}
