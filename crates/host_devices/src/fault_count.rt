ghost use Rattle.std.specs.Prelude.{◌≡◌, ◌≤◌, ◌==◌, IfOk, OnOk, OnErr, IsErr, Ok};
ghost use Rattle.side_world.specs.Faults.{Rose, RoseWith};

use side_world::Failed;
use std::marker::Model;

/// How often a device has failed. The count stops at 2^64 - 1. Contracts see it as that number.
#[derive(Debug, Drop)]
pub struct FaultCount {
    count: u64,
}

impl Model for FaultCount {
    ghost use Rattle.std.specs.Prelude.{ℕ};

    ghost Value = { ℕ };

    ghost view = { λ f. f.count };
}

impl FaultCount {
    /// None so far.
    pub fn none() -> Self
        ensures { result ≡ 0 }
    {
        FaultCount { count: 0 }
    }

    /// Whether there was none.
    pub fn is_none(&self) -> bool
        ensures { result ≡ (self.now == 0) }
    {
        self.count == 0
    }

    /// Counts one.
    pub fn fail(&mut self) -> Failed
        ensures rose { Rose self.old self.new }
        ensures no_fewer { self.old ≤ self.new }
    {
        self.count = self.count.saturating_add(1);
        Failed
    }

    /// Counts one where what came back has failed.
    pub fn count_back(&mut self, back: &FaultCount)
        ensures rose { RoseWith back.now self.old self.new }
        ensures no_fewer { self.old ≤ self.new }
    {
        if !back.is_none() {
            let Failed = self.fail();
        }
    }

    /// What a call of the host answered, whose error is counted.
    pub fn counted<T, E: Drop>(&mut self, outcome: Result<T, E>) -> Result<T, Failed>
        ensures same { IfOk result (λ x. outcome ≡ Ok x) }
        ensures error { OnErr result (IsErr outcome) }
        ensures no_fault { OnOk result (self.new ≡ self.old) }
        ensures failed { OnErr result (Rose self.old self.new) }
        ensures no_fewer { self.old ≤ self.new }
    {
        match outcome {
            Ok(x) => Ok(x),
            Err(_) => Err(self.fail()),
        }
    }
}
