//! The count of edge faults, and which calls are to fail.

ghost use Rattle.std.specs.Prelude.{◌≡◌, ◌≤◌, ◌↔◌, IsErr, OnOk, OnErr};
ghost use Rattle.edge_streams.specs.Faults.{Rises, next_count};
ghost use Rattle.edge_streams.specs.Memory.{new_plan, NextFails, without_faults};
ghost use Rattle.edge_streams.specs.Memory.{after_call, after_fault, after_failed_call};

use crate::source::Failed;
use std::marker::Model;

/// The count that follows. At its type's end a count stands still.
pub fn one_more(count: u64) -> u64
    ensures value { result ≡ next_count count }
    ensures rises { Rises count result }
    ensures never_falls { count ≤ result }
{
    count.saturating_add(1)
}

/// Which calls on an object in memory are to fail, and how many did.
#[derive(Drop)]
pub struct FaultPlan {
    /// The calls that are to fail, counted from 1.
    fails: Vec<u64>,
    /// How many calls were made. At its type's end it stands still.
    calls: u64,
    /// How many calls failed. At its type's end it stands still.
    faults: u64,
}

impl Model for FaultPlan {
    ghost use Rattle.edge_streams.specs.Memory.{Plan};

    ghost Value = { Plan };

    ghost view = { λ p. record { fails = p.fails.items; calls = p.calls; faults = p.faults } };
}

impl FaultPlan {
    /// The plan of an object that was never called.
    pub fn new(fails: Vec<u64>) -> FaultPlan
        ensures { result ≡ new_plan fails.items }
    {
        FaultPlan {
            fails,
            calls: 0,
            faults: 0,
        }
    }

    /// How many calls failed.
    pub fn faults(&self) -> u64
        ensures { result ≡ self.now.faults }
    {
        self.faults
    }

    /// Counts a call, and a fault too where this call is to fail.
    pub fn next_call(&mut self) -> Result<(), Failed>
        ensures planned { IsErr result ↔ NextFails self.old }
        ensures called { OnOk result (self.new ≡ after_call self.old) }
        ensures failed { OnErr result (self.new ≡ after_failed_call self.old) }
        ensures rises { OnErr result (Rises self.old.faults self.new.faults) }
        ensures never_falls { self.old.faults ≤ self.new.faults }
    {
        self.calls = one_more(self.calls);
        if self.fails.contains(&self.calls) {
            self.faults = one_more(self.faults);
            return Err(Failed);
        }
        Ok(())
    }

    /// Begins the count of faults anew.
    pub fn forget_faults(&mut self)
        ensures { self.new ≡ without_faults self.old }
    {
        self.faults = 0;
    }

    /// Counts a fault of a call that was not to fail.
    pub fn add_fault(&mut self) -> Failed
        ensures counted { self.new ≡ after_fault self.old }
        ensures rises { Rises self.old.faults self.new.faults }
        ensures never_falls { self.old.faults ≤ self.new.faults }
    {
        self.faults = one_more(self.faults);
        Failed
    }
}
