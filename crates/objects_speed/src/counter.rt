ghost use Rattle.std.specs.Prelude.{◌≡◌, ◌+◌, ◌^◌, ◌<◌, length};
ghost use Rattle.std.proofs.Common.{rules};

use std::thread::sleep;
use std::time::Duration;
use turn_cell::Object;

/// How long a first step takes that sleeps, in milliseconds.
const HOLD_MS: u64 = 20;

/// Some work: so many rounds of a few instructions, each of which waits for the one before. A round takes some 2.5 nanoseconds.
pub(crate) fn rounds(value: u64, count: u32) -> u64 {
    let mut value = value;
    for _ in 0..count {
        value ^= value << 13;
        value ^= value >> 7;
        value ^= value << 17;
    }
    value
}

/// What a counter does: it adds the amount, and works for so many rounds.
#[derive(Clone, Copy)]
pub(crate) struct Step {
    pub(crate) amount: u64,
    pub(crate) rounds: u32,
}

/// A counter whose step takes as long as it is told, and whose first one sleeps where it is given a clock.
#[derive(Clone, Copy)]
pub(crate) struct Counter {
    value: u64,
    steps: u64,
    clock: Option<HostRuntime>,
}

impl Counter {
    /// A counter at 1.
    pub(crate) fn new(clock: Option<HostRuntime>) -> Counter
        ensures { result.steps ≡ 0 }
    {
        Counter {
            value: 1,
            steps: 0,
            clock,
        }
    }

    /// Makes the step, and returns the value.
    pub(crate) fn make(&mut self, step: Step) -> u64
        ensures { self.old.steps < 2 ^ 62 → self.new.steps ≡ self.old.steps + 1 }
    {
        if let Some(clock) = self.clock.take() {
            sleep(&clock, Duration::from_millis(HOLD_MS));
        }
        self.value = rounds(self.value.wrapping_add(step.amount), step.rounds);
        self.steps = self.steps.wrapping_add(1);
        self.value
    }
}

impl Object for Counter {
    type Cmd = Step;

    type Reply = u64;

    ghost takes = { λ _ _. Unit {0} };

    ghost steps = { λ _ _ _. Unit {0} };

    ghost stands = { λ _ history counter. counter.steps ≡ length history };

    ghost used = { λ counter. counter.steps };

    ghost mark = { λ _. 0 };

    fn apply(&mut self, cmd: &Step) -> u64 {
        self.make(*cmd)
    }

    fn used(&self) -> u64 {
        self.steps
    }

    ghost opens = { Prim.search rules };

    ghost counts = { Prim.search rules };
}
