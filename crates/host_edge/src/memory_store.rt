ghost use Rattle.std.specs.Prelude.{◌≡◌, ◌≤◌, Some, Ok, Err, false, IfOk, IfErr};
ghost use Rattle.host_edge.specs.Loads.{IsLoaded, IsLoadCause, load_fails};
ghost use Rattle.host_edge.specs.Plan.{after_call, first_plan, next_fails};

use crate::fault_plan::FaultPlan;
use crate::files::Files;
use crate::store::{LoadErr, Loaded, Store};
use fb_base::{Schedule, Text};
use std::alloc::Global;

/// A store in memory that never fails: its count of faults is 0 for ever.
#[derive(Drop)]
pub struct SureStore {
    files: Files,
    alloc: Global,
}

impl SureStore {
    /// The store of these files.
    pub fn new(alloc: Global, held: Files) -> SureStore
        ensures { result.files ≡ held }
    {
        SureStore { files: held, alloc }
    }
}

impl Store for SureStore {
    ghost held = { λ s. Some s.files };

    ghost faults = { λ _. 0 };

    fn load(&mut self, name: &str, limit: usize) -> Result<Loaded, LoadErr>
        ensures loaded { IfOk result (IsLoaded (Some self.old.files) name.now limit) }
        ensures held { Some self.new.files ≡ Some self.old.files }
        ensures cause { IfErr result (IsLoadCause 0 0) }
        ensures sure { load_fails result ≡ false }
    {
        match self.files.get(name) {
            None => Ok(Loaded::Absent),
            Some(bytes) if bytes.len() > limit => Ok(Loaded::TooLong),
            Some(bytes) => Ok(Loaded::Bytes(Text::of(self.alloc, bytes)?)),
        }
    }

    fn faults(&self) -> u64 {
        0
    }
}

/// A store in memory some of whose loads fail.
#[derive(Drop)]
pub struct MemStore {
    store: SureStore,
    plan: FaultPlan,
}

impl MemStore {
    /// The store of these files. Its n-th load fails where n is in `failing`, counted from 1.
    pub fn new(alloc: Global, held: Files, failing: Schedule) -> MemStore
        ensures held { result.store.files ≡ held }
        ensures plan { result.plan ≡ first_plan failing.items }
    {
        MemStore {
            store: SureStore::new(alloc, held),
            plan: FaultPlan::new(failing),
        }
    }
}

impl Store for MemStore {
    ghost held = { λ s. Some s.store.files };

    ghost faults = { λ s. s.plan.faults };

    fn load(&mut self, name: &str, limit: usize) -> Result<Loaded, LoadErr>
        ensures loaded { IfOk result (IsLoaded (Some self.old.store.files) name.now limit) }
        ensures held { Some self.new.store.files ≡ Some self.old.store.files }
        ensures later { self.old.plan.faults ≤ self.new.plan.faults }
        ensures cause { IfErr result (IsLoadCause self.old.plan.faults self.new.plan.faults) }
        ensures fails { load_fails result ≡ next_fails self.old.plan }
        ensures plan { self.new.plan ≡ after_call self.old.plan }
    {
        if self.plan.call().is_err() {
            return Err(LoadErr::Failed);
        }
        self.store.load(name, limit)
    }

    fn faults(&self) -> u64 {
        self.plan.faults()
    }
}
