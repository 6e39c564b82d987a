ghost use Rattle.std.specs.Prelude.{◌≡◌, None};

use crate::fault_count::FaultCount;
use side_base::{LinkRequest, Response};
use side_world::{Failed, Link, LinkErr};

/// A link that reaches nobody: each call fails. It tells no calls.
#[derive(Drop)]
pub struct NoLink {
    faults: FaultCount,
}

impl NoLink {
    /// A link of which no call has failed.
    pub fn new() -> Self
        ensures no_faults { ⟦<NoLink as Link>⟧.faults result ≡ 0 }
        ensures no_expiries { ⟦<NoLink as Link>⟧.expiries result ≡ 0 }
    {
        NoLink {
            faults: FaultCount::none(),
        }
    }
}

impl Link for NoLink {
    ghost calls = { λ _. None };

    ghost faults = { λ l. l.faults };

    ghost expiries = { λ _. 0 };

    fn call(&mut self, _request: &LinkRequest, _limit_ms: u64) -> Result<Response, LinkErr> {
        let Failed = self.faults.fail();
        Err(LinkErr::Failed)
    }
}
