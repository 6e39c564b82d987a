ghost use Rattle.std.specs.Prelude.{◌≡◌};

use side_base::{LinkRequest, Response};
use side_world::{Link, LinkErr};
use std::marker::Model;

/// A link that reaches nothing: each call fails.
#[derive(Debug, Drop)]
pub struct NoLink {
    faults: u64,
}

impl Model for NoLink {
    ghost use Rattle.std.specs.Prelude.{ℕ};

    ghost Value = { ℕ };

    ghost view = { λ l. l.faults };
}

impl NoLink {
    /// One that was never called.
    pub fn new() -> Self
        ensures { result ≡ 0 }
    {
        NoLink { faults: 0 }
    }
}

impl Link for NoLink {
    ghost use Rattle.std.specs.Prelude.{None};

    ghost calls = { λ _. None };

    ghost faults = { λ l. l };

    ghost expiries = { λ _. 0 };

    fn call(&mut self, _request: &LinkRequest, _limit_ms: u64) -> Result<Response, LinkErr> {
        self.faults = self.faults.saturating_add(1);
        Err(LinkErr::Failed)
    }
}
