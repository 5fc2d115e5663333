//! The value that the lock keeps here.
ghost use Rattle.std.specs.Prelude.{◌≡◌, [], ◌∷◌, IfOk};
ghost use mathlib.Core.List.{IsPrefix};

use commit_lock::Kept;
use std::alloc::{AllocError, Global};

/// Numbers in the order in which they were added, under a name that stays.
#[derive(Drop)]
pub struct Tally {
    pub name: u64,
    numbers: Vec<u32>,
}

impl Kept for Tally {
    ghost base = { λ t. t.name ∷ [] };

    ghost hist = { λ t. t.numbers.items };
}

impl Tally {
    /// A tally without numbers, with room for so many.
    pub fn new(alloc: Global, name: u64, room: usize) -> Result<Tally, AllocError>
        ensures { IfOk result (λ t. (t.name ≡ name) × (t.numbers.items ≡ [])) }
    {
        Ok(Tally {
            name,
            numbers: Vec::with_capacity(alloc, room)?,
        })
    }

    /// Puts a number last. At want of memory nothing changes.
    pub fn add(&mut self, number: u32) -> Result<(), AllocError>
        ensures name { self.new.name ≡ self.old.name }
        ensures numbers { IsPrefix self.old.numbers.items self.new.numbers.items }
    {
        self.numbers.push(number)?;
        Ok(())
    }

    pub fn numbers(&self) -> &[u32]
        ensures { result.now ≡ self.now.numbers.items }
    {
        self.numbers.as_slice()
    }

    /// Whether each number from 1 to `workers` was added so often, and no other.
    pub fn has_each(&self, workers: u32, rounds: u32) -> bool {
        let numbers = self.numbers();
        let all = u64::from(workers) * u64::from(rounds);
        numbers.len() as u64 == all
            && (1..=workers).all(|k| {
                numbers.iter().filter(|number| **number == k).count() as u64 == u64::from(rounds)
            })
    }
}
