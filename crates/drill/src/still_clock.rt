ghost use Rattle.std.specs.Prelude.{◌≡◌};

use side_base::Moment;
use side_world::Clock;
use std::marker::Model;

/// A clock that stands at the first moment of all, so that no run differs from another by its time. A pause ends at once.
#[derive(Debug, Drop)]
pub struct StillClock {
    paused: u64,
}

impl Model for StillClock {
    ghost use Rattle.std.specs.Prelude.{ℕ};

    ghost Value = { ℕ };

    ghost view = { λ c. c.paused };
}

impl StillClock {
    /// One that was never asked to wait.
    pub fn new() -> Self
        ensures { result ≡ 0 }
    {
        StillClock { paused: 0 }
    }
}

impl Clock for StillClock {
    ghost use Rattle.std.specs.Prelude.{None};

    ghost last = { λ _. 0 };

    ghost paused = { λ c. c };

    ghost ticks = { λ _. None };

    fn now(&mut self) -> Moment {
        match Moment::at(0) {
            Some(first) => first,
            None => unreachable!(),
        }
    }

    fn pause(&mut self, ms: u64) {
        self.paused = self.paused.saturating_add(ms);
    }
}
