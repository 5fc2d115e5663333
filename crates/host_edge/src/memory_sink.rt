ghost use Rattle.std.specs.Prelude.{◌≡◌, ◌+◌, ◌≤◌, [], ◌++◌, Some, length, is_err, IfOk, OnErr, OnOk, IsOk};
ghost use Rattle.host_edge.specs.Faults.{HasCause};
ghost use Rattle.host_edge.specs.Plan.{after_call, first_plan, next_fails};
ghost use Rattle.host_edge.specs.Streams.{Puts};

use crate::fault_plan::FaultPlan;
use crate::sink::Sink;
use crate::source::Failed;
use fb_base::{NoMemory, Schedule};
use std::alloc::Global;
use std::marker::Model;

/// A sink in memory that never fails: its count of faults is 0 for ever.
///
/// Contracts see the bytes that were written as `items`, and the room for more as `spare`.
#[derive(Debug, Drop)]
pub struct SureSink {
    bytes: Vec<u8>,
}

impl Model for SureSink {
    ghost use Rattle.std.specs.Prelude.{◌-◌, vec_len, vec_capacity};
    ghost use Rattle.fb_base.specs.Roomy.{Roomy};

    ghost Value = { Roomy };

    ghost view = { λ s. record { items = s.bytes.items; spare = vec_capacity s.bytes - vec_len s.bytes } };
}

impl SureSink {
    /// A sink that nothing was written to.
    pub fn new(alloc: Global) -> SureSink
        ensures { result.items ≡ [] }
    {
        SureSink {
            bytes: Vec::new(alloc),
        }
    }

    /// The bytes that were written.
    pub fn bytes(&self) -> &[u8]
        ensures { result.now ≡ self.now.items }
    {
        self.bytes.as_slice()
    }
}

impl Sink for SureSink {
    ghost written = { λ s. Some s.items };

    ghost faults = { λ _. 0 };

    ghost spare = { λ s. s.spare };

    /// Reserves by doubling.
    fn room(&mut self, n: usize) -> Result<(), NoMemory> {
        self.bytes.reserve(n)?;
        Ok(())
    }

    /// Takes the whole piece.
    fn put(&mut self, piece: &[u8]) -> Result<usize, Failed>
        requires { length piece.now ≤ self.old.spare }
        ensures puts { Puts (Some self.old.items) (Some self.new.items) piece.now result }
        ensures cause { HasCause 0 0 result }
        ensures spare { IfOk result (λ n. self.old.spare ≤ self.new.spare + n) }
        ensures spare_err { OnErr result (self.new.spare ≡ self.old.spare) }
        ensures ok { IsOk result }
        ensures whole { IfOk result (λ n. n ≡ length piece.now) }
    {
        match self.bytes.extend_from_slice(piece) {
            Ok(()) => Ok(piece.len()),
            Err(_) => unreachable!(),
        }
    }

    fn faults(&self) -> u64 {
        0
    }
}

/// A sink in memory some of whose puts fail.
#[derive(Debug, Drop)]
pub struct MemSink {
    sink: SureSink,
    plan: FaultPlan,
}

impl MemSink {
    /// A sink that nothing was written to. Its n-th put fails where n is in `failing`, counted from 1.
    pub fn new(alloc: Global, failing: Schedule) -> MemSink
        ensures items { result.sink.items ≡ [] }
        ensures plan { result.plan ≡ first_plan failing.items }
    {
        MemSink {
            sink: SureSink::new(alloc),
            plan: FaultPlan::new(failing),
        }
    }

    /// The bytes that were written.
    pub fn bytes(&self) -> &[u8]
        ensures { result.now ≡ self.now.sink.items }
    {
        self.sink.bytes()
    }
}

impl Sink for MemSink {
    ghost written = { λ s. Some s.sink.items };

    ghost faults = { λ s. s.plan.faults };

    ghost spare = { λ s. s.sink.spare };

    /// Reserves by doubling.
    fn room(&mut self, n: usize) -> Result<(), NoMemory>
        ensures ok { OnOk result (n ≤ self.new.sink.spare) }
        ensures spare { self.old.sink.spare ≤ self.new.sink.spare }
        ensures written { Some self.new.sink.items ≡ Some self.old.sink.items }
        ensures faults { self.new.plan.faults ≡ self.old.plan.faults }
        ensures plan { self.new.plan ≡ self.old.plan }
    {
        self.sink.room(n)
    }

    /// Takes the whole piece, or fails.
    fn put(&mut self, piece: &[u8]) -> Result<usize, Failed>
        requires { length piece.now ≤ self.old.sink.spare }
        ensures puts { Puts (Some self.old.sink.items) (Some self.new.sink.items) piece.now result }
        ensures cause { HasCause self.old.plan.faults self.new.plan.faults result }
        ensures spare { IfOk result (λ n. self.old.sink.spare ≤ self.new.sink.spare + n) }
        ensures spare_err { OnErr result (self.new.sink.spare ≡ self.old.sink.spare) }
        ensures fails { is_err result ≡ next_fails self.old.plan }
        ensures plan { self.new.plan ≡ after_call self.old.plan }
        ensures whole { IfOk result (λ n. n ≡ length piece.now) }
    {
        self.plan.call()?;
        self.sink.put(piece)
    }

    fn faults(&self) -> u64 {
        self.plan.faults()
    }
}
