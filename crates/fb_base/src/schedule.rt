ghost use Rattle.std.specs.Prelude.{◌≡◌, ◌+◌, ◌≤◌, [], ◌∷◌, ◌++◌, IfOk, OnOk};

use crate::NoMemory;
use std::alloc::Global;
use std::marker::Model;

/// The threads of the entries of a run, in order: a list of thread numbers, with room for more beside it.
///
/// Contracts see the list as `items`, and as `spare` how many more numbers it takes without memory.
#[derive(Debug, Drop)]
pub struct Schedule {
    threads: Vec<u32>,
}

impl Model for Schedule {
    ghost use Rattle.std.specs.Prelude.{◌-◌, vec_len, vec_capacity};
    ghost use Rattle.fb_base.specs.Roomy.{Roomy};

    ghost Value = { Roomy };

    ghost view = { λ s. record { items = s.threads.items; spare = vec_capacity s.threads - vec_len s.threads } };
}

impl Schedule {
    /// The schedule of a run without entries.
    pub fn new(alloc: Global) -> Schedule
        ensures { result.items ≡ [] }
    {
        Schedule {
            threads: Vec::new(alloc),
        }
    }

    /// The schedule of these entries. The error is want of memory.
    pub fn of(alloc: Global, threads: &[u32]) -> Result<Schedule, NoMemory>
        ensures { IfOk result (λ schedule. schedule.items ≡ threads.now) }
    {
        Ok(Schedule {
            threads: Vec::from_slice(alloc, threads)?,
        })
    }

    /// The threads of the entries, in order.
    pub fn threads(&self) -> &[u32]
        ensures { result.now ≡ self.now.items }
    {
        self.threads.as_slice()
    }

    /// Makes room for one more entry. The error is want of memory; the list is as before in both cases.
    pub fn room(&mut self) -> Result<(), NoMemory>
        ensures ok { OnOk result (1 ≤ self.new.spare) }
        ensures items { self.new.items ≡ self.old.items }
    {
        self.threads.reserve(1)?;
        Ok(())
    }

    /// Puts a thread last, in room that is there.
    pub fn add(&mut self, thread: u32)
        requires { 1 ≤ self.old.spare }
        ensures items { self.new.items ≡ self.old.items ++ thread ∷ [] }
        ensures spare { self.old.spare ≤ self.new.spare + 1 }
    {
        match self.threads.push(thread) {
            Ok(()) => (),
            Err(_) => unreachable!(),
        }
    }
}
