ghost use Rattle.std.specs.Prelude.{◌≡◌, ◌<◌};
ghost use Rattle.side_base.specs.declared.moment.TheConstants.{MOMENT_LIMIT};
ghost use Rattle.breaker_core.specs.Course.{moment_of};
ghost use Rattle.breaker_core.specs.Present.{IsBounded, IsFresh};

use crate::present::{Present, found};
use crate::{BreakerCmd, BreakerReply};
use retry_core::BreakerPolicy;
use turn_cell::Object;

/// A circuit breaker. It takes no memory, and none of its commands does.
#[derive(Debug, Drop)]
pub struct Breaker {
    pub(crate) policy: BreakerPolicy,
    pub(crate) used: u64,
    /// The greatest moment so far, in milliseconds since 1970.
    pub(crate) latest: u64,
    /// The present generation; there is none before the first command.
    pub(crate) present: Option<Present>,
    ghost bounded: { IsBounded policy used latest present },
    ghost fresh: { IsFresh used latest present },
}

impl Breaker {
    ghost use Rattle.std.specs.Prelude.{◌≡◌};
    ghost use Rattle.retry_core.specs.BreakerPolicy.{IsWithinLimit};
    ghost use Rattle.breaker_core.specs.Breaker.{policy_of};

    /// A closed breaker in its generation 0, whose history is empty.
    pub fn new(policy: &BreakerPolicy) -> Breaker
        requires { IsWithinLimit policy.now }
        ensures policy { policy_of result ≡ policy.now }
        ensures unused { ⟦<Breaker as Object>⟧.used result ≡ 0 }
    {
        Breaker {
            policy: *policy,
            used: 0,
            latest: 0,
            present: None,
        }
    }
}

impl Object for Breaker {
    ghost use Rattle.std.specs.Prelude.{◌≡◌};
    ghost use Rattle.breaker_core.specs.Course.{IsStep};
    ghost use Rattle.breaker_core.specs.Breaker.{Stands, opens};

    type Cmd = BreakerCmd;

    type Reply = BreakerReply;

    ghost takes = { λ _ _. Unit {0} };

    ghost steps = { λ first history entry. IsStep first.policy history entry };

    ghost stands = { Stands };

    ghost used = { λ breaker. breaker.used };

    ghost mark = { λ _. 0 };

    fn apply(&mut self, cmd: &BreakerCmd) -> BreakerReply {
        let now = self.latest.max(moment_of(cmd));
        let present = found(self.present, &self.policy, now);
        let (reply, after) = present.answered(&self.policy, now, cmd);
        self.latest = now;
        self.present = Some(after);
        self.used += 1;
        reply
    }

    fn used(&self) -> u64 {
        self.used
    }

    ghost opens = { opens };

    ghost counts = { λ first history breaker stands. stands.used };
}

/// The moment of a command, in milliseconds since 1970.
fn moment_of(cmd: &BreakerCmd) -> u64
    ensures moment { result ≡ moment_of cmd.now }
    ensures limit { result < MOMENT_LIMIT }
{
    match cmd {
        BreakerCmd::Admit { now } | BreakerCmd::Report { now, .. } => now.ms(),
    }
}
