ghost use Rattle.std.specs.Prelude.{◌≡◌, ◌≤◌, Some, min, length, is_err, IfOk, IsOk};
ghost use Rattle.host_edge.specs.Faults.{HasCause};
ghost use Rattle.host_edge.specs.Plan.{after_call, first_plan, next_fails};
ghost use Rattle.host_edge.specs.Streams.{Reads};

use crate::fault_plan::FaultPlan;
use crate::source::{Failed, Source};
use fb_base::{Schedule, Text};
use std::marker::Model;

/// A source in memory that never fails: its count of faults is 0 for ever.
#[derive(Debug, Drop)]
pub struct SureSource {
    bytes: Text,
    piece: usize,
    taken: usize,
}

impl Model for SureSource {
    ghost use Rattle.std.specs.Prelude.{◌≤◌, drop, length};
    ghost use Rattle.host_edge.specs.Memory.{Pieces};

    ghost Value = { Pieces };

    ghost view = { λ s. record { left = drop s.taken s.bytes; piece = s.piece } };

    ghost invariant = { λ s. (s.taken ≤ length s.bytes) × (1 ≤ s.piece) };
}

impl SureSource {
    /// The source of these bytes, which gives at most `piece` of them in a call, at least 1.
    pub fn new(bytes: Text, piece: usize) -> SureSource
        requires { 1 ≤ piece }
        ensures left { result.left ≡ bytes }
        ensures piece { result.piece ≡ piece }
    {
        SureSource {
            bytes,
            piece,
            taken: 0,
        }
    }
}

impl Source for SureSource {
    ghost left = { λ s. Some s.left };

    ghost faults = { λ _. 0 };

    /// As many bytes as the slice, the piece and what is left allow.
    fn read(&mut self, into: &mut [u8]) -> Result<usize, Failed>
        ensures reads { Reads (Some self.old.left) (Some self.new.left) into.new result }
        ensures cause { HasCause 0 0 result }
        ensures ok { IsOk result }
        ensures count { IfOk result (λ n. n ≡ min self.old.piece (min (length into.old) (length self.old.left))) }
        ensures piece { self.new.piece ≡ self.old.piece }
    {
        let (_, left) = self.bytes.bytes().split_at(self.taken);
        let count = self.piece.min(into.len().min(left.len()));
        let (moved, _) = left.split_at(count);
        let (target, _) = into.split_at_mut(count);
        target.copy_from_slice(moved);
        self.taken += count;
        Ok(count)
    }

    fn faults(&self) -> u64 {
        0
    }
}

/// A source in memory some of whose reads fail.
#[derive(Debug, Drop)]
pub struct MemSource {
    source: SureSource,
    plan: FaultPlan,
}

impl MemSource {
    /// The source of these bytes, which gives at most `piece` of them in a call, at least 1. Its n-th read fails where
    /// n is in `failing`, counted from 1.
    pub fn new(bytes: Text, piece: usize, failing: Schedule) -> MemSource
        requires { 1 ≤ piece }
        ensures left { result.source.left ≡ bytes }
        ensures piece { result.source.piece ≡ piece }
        ensures plan { result.plan ≡ first_plan failing.items }
    {
        MemSource {
            source: SureSource::new(bytes, piece),
            plan: FaultPlan::new(failing),
        }
    }
}

impl Source for MemSource {
    ghost left = { λ s. Some s.source.left };

    ghost faults = { λ s. s.plan.faults };

    /// As many bytes as the slice, the piece and what is left allow.
    fn read(&mut self, into: &mut [u8]) -> Result<usize, Failed>
        ensures reads { Reads (Some self.old.source.left) (Some self.new.source.left) into.new result }
        ensures cause { HasCause self.old.plan.faults self.new.plan.faults result }
        ensures fails { is_err result ≡ next_fails self.old.plan }
        ensures plan { self.new.plan ≡ after_call self.old.plan }
        ensures count { IfOk result (λ n. n ≡ min self.old.source.piece (min (length into.old) (length self.old.source.left))) }
        ensures piece { self.new.source.piece ≡ self.old.source.piece }
    {
        self.plan.call()?;
        self.source.read(into)
    }

    fn faults(&self) -> u64 {
        self.plan.faults()
    }
}
