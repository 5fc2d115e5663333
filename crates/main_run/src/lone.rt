ghost use Rattle.thread_system.specs.Replay.{nothing};

use rv_step::{Bus, BusErr};

/// The memory of a thread that is alone: it shares none, so no access outside of its own stack is done.
#[derive(Drop)]
pub struct Lone;

impl Bus for Lone {
    ghost use Rattle.std.specs.Prelude.{None};

    ghost mem = { λ bus. nothing };

    ghost seen = { λ bus. None };

    ghost at = { λ bus. 0 };

    #[inline]
    fn load(&mut self, _addr: u64, _width: u8) -> Result<u64, BusErr> {
        Err(BusErr::Unmapped)
    }

    #[inline]
    fn store(&mut self, _addr: u64, _width: u8, _value: u64) -> Result<(), BusErr> {
        Err(BusErr::Unmapped)
    }
}
