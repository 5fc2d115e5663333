ghost use Rattle.std.specs.Prelude.{◌≡◌, ℕ, List, Option};
ghost use Rattle.thread_system.specs.Memory.{Memory};
ghost use Rattle.rv_step.specs.Access.{IsWidth, IsLoad, IsStore, Access, Got, Put, Sees};

/// Why an access to memory isn't done.
#[derive(Clone, Copy, PartialEq, Eq, Debug)]
pub enum BusErr {
    /// One of its bytes may not be accessed.
    Unmapped,
    /// Want of memory.
    NoMemory,
}

/// What a thread's loads and stores outside of its own stack go to.
///
/// Its meaning `mem` is the byte at each address, where it may be accessed. The width of an access is 1, 2, 4 or 8
/// bytes; the last address is followed by address 0.
/// Its meaning `seen` lists all accesses so far, also those that aren't allowed, or tells nothing. Each has the place
/// `at` of the instruction that makes it, as whoever carries out the steps set it.
pub trait Bus {
    ghost mem: { Self → Memory };

    ghost seen: { Self → Option (List Access) };

    ghost at: { Self → ℕ };

    /// The number that so many bytes spell, the lowest first. Unmapped comes exactly where one of them isn't in
    /// memory. Memory is as before.
    fn load(&mut self, addr: u64, width: u8) -> Result<u64, BusErr>
        requires { IsWidth width }
        ensures load { IsLoad (mem self.old) addr width result }
        ensures mem { mem self.new ≡ mem self.old }
        ensures seen { Sees (Got addr width (at self.old)) (seen self.old) (seen self.new) result }
        ensures at { at self.new ≡ at self.old };

    /// Puts the low bytes of a value into memory, and changes nothing else. Unmapped comes exactly where one of
    /// them isn't in memory. After an error memory is as before.
    fn store(&mut self, addr: u64, width: u8, value: u64) -> Result<(), BusErr>
        requires { IsWidth width }
        ensures store { IsStore (mem self.old) (mem self.new) addr width value result }
        ensures seen { Sees (Put addr width value (at self.old)) (seen self.old) (seen self.new) result }
        ensures at { at self.new ≡ at self.old };
}
