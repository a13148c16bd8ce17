//! The calls of an object in memory that are to fail.
ghost use Rattle.std.specs.Prelude.{◌≡◌, ℕ, ◌+◌, ◌-◌, ◌*◌, ◌^◌, ◌<◌, ◌≤◌, IsTrue};
ghost use Rattle.fluid_io.specs.Causes.{Rose, one_more};
ghost use Rattle.fluid_io.specs.Plan.{next_fails, called_by_plan, faulted};

use std::marker::Model;

/// Which calls of an object are to fail, by their numbers from 1, with its counts of calls and of faults.
/// Both counts stand still at `u64::MAX`.
#[derive(Drop)]
pub struct FaultPlan {
    failing: Vec<u64>,
    calls: u64,
    faults: u64,
}

impl Model for FaultPlan {
    ghost use Rattle.fluid_io.specs.Causes.{Rose, one_more};
    ghost use Rattle.fluid_io.specs.Plan.{Planned};

    ghost Value = { Planned };

    ghost view = { λ p. record { failing = p.failing.items; calls = p.calls; faults = p.faults } };
}

impl FaultPlan {
    /// No call was made, and no fault was counted.
    pub fn new(failing: Vec<u64>) -> FaultPlan
        ensures { result ≡ record { failing = failing.items; calls = 0; faults = 0 } }
    {
        FaultPlan {
            failing,
            calls: 0,
            faults: 0,
        }
    }

    /// Counts a call, and says whether it is to fail. Such a call's fault is counted.
    pub fn fails(&mut self) -> bool
        ensures answer { result ≡ next_fails self.old }
        ensures after { self.new ≡ called_by_plan self.old }
        ensures calls { self.new.calls ≡ one_more self.old.calls }
        ensures later { self.old.faults ≤ self.new.faults }
        ensures rose { IsTrue result → Rose self.old.faults self.new.faults }
    {
        let next = self.calls.saturating_add(1);
        let fails = self.failing.contains(&next);
        self.calls = next;
        if fails {
            self.faults = self.faults.saturating_add(1);
        }
        fails
    }

    /// Counts a fault that no plan foresaw.
    pub fn count_fault(&mut self)
        ensures after { self.new ≡ faulted self.old }
        ensures rose { Rose self.old.faults self.new.faults }
        ensures later { self.old.faults ≤ self.new.faults }
    {
        self.faults = self.faults.saturating_add(1);
    }

    /// How many calls were made.
    pub fn calls(&self) -> u64
        ensures { result ≡ self.now.calls }
    {
        self.calls
    }

    /// How many faults were counted.
    pub fn faults(&self) -> u64
        ensures { result ≡ self.now.faults }
    {
        self.faults
    }
}
