ghost use Rattle.std.specs.Prelude.{◌≡◌, ◌==◌, is_err};
ghost use Rattle.std.specs.List.{list_any};
ghost use Rattle.host_edge.specs.Faults.{HasCause};
ghost use Rattle.host_edge.specs.Plan.{after_call, first_plan, next_fails};

use crate::source::Failed;
use fb_base::Schedule;
use std::marker::Model;

/// Counts calls, some of which fail.
#[derive(Debug, Drop)]
pub(crate) struct FaultPlan {
    calls: u64,
    failing: Schedule,
    faults: u64,
}

impl Model for FaultPlan {
    ghost use Rattle.host_edge.specs.Plan.{Plan};

    ghost Value = { Plan };

    ghost view = { λ p. record { calls = p.calls; failing = p.failing.items; faults = p.faults } };
}

impl FaultPlan {
    /// No call was made yet. The n-th one fails where n is in the list, counted from 1.
    pub(crate) fn new(failing: Schedule) -> FaultPlan
        ensures { result ≡ first_plan failing.items }
    {
        FaultPlan {
            calls: 0,
            failing,
            faults: 0,
        }
    }

    /// Makes a call, which fails where its number is in the list.
    pub(crate) fn call(&mut self) -> Result<(), Failed>
        ensures fails { is_err result ≡ next_fails self.old }
        ensures after { self.new ≡ after_call self.old }
        ensures cause { HasCause self.old.faults self.new.faults result }
    {
        self.calls = self.calls.saturating_add(1);
        if is_among(self.failing.threads(), self.calls) {
            self.faults = self.faults.saturating_add(1);
            return Err(Failed);
        }
        Ok(())
    }

    /// How many calls failed.
    pub(crate) fn faults(&self) -> u64
        ensures { result ≡ self.now.faults }
    {
        self.faults
    }
}

/// Whether a number is in the list.
fn is_among(numbers: &[u32], number: u64) -> bool
    ensures { result ≡ list_any (λ n. n == number) numbers.now }
{
    numbers.iter().any(|n| u64::from(*n) == number)
}
