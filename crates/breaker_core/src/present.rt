ghost use Rattle.std.specs.Prelude.{◌≡◌, ◌+◌, ◌≤◌, ℕ, List};
ghost use Rattle.std.specs.Option.{ForSome};
ghost use Rattle.retry_core.specs.BreakerPolicy.{IsWithinLimit};
ghost use Rattle.breaker_core.specs.Course.{Generation, found, phase_after};
ghost use Rattle.breaker_core.specs.Present.{shown_of, HasAtMost, IsSmall};

use crate::{BreakerCmd, BreakerReply, Phase};
use retry_core::{BreakerPolicy, Counts};

/// What is kept of the present generation: counters in place of its entries.
#[derive(Clone, Copy, Debug)]
pub(crate) struct Present {
    /// The number of the generation.
    pub(crate) generation: u64,
    pub(crate) phase: Phase,
    /// The moment at which it began.
    pub(crate) start: u64,
    pub(crate) counts: Counts,
    /// The good reports.
    pub(crate) good: u64,
}

impl Present {
    ghost use Rattle.std.specs.Prelude.{◌≡◌, ◌+◌, ◌<◌, ◌≤◌, ℕ, List, ◌∷◌, length, count_by, Some};
    ghost use Rattle.side_base.specs.declared.moment.TheConstants.{MOMENT_LIMIT};
    ghost use Rattle.retry_core.specs.BreakerPolicy.{IsWithinLimit};
    ghost use Rattle.breaker_core.specs.declared.command.BreakerCmd.TheVariants.{Admit, Report};
    ghost use Rattle.breaker_core.specs.Course.{Generation, begun, over_in, phase_after, found, added, reply_in};
    ghost use Rattle.breaker_core.specs.Present.{shown, shown_of, HasAtMost, IsSmall, WithReport, IsReported, IsLedTo};

    /// A generation that begins at `start`.
    pub(crate) fn begun(generation: u64, phase: Phase, start: u64) -> Self
        ensures { result ≡ shown (begun phase start) generation }
    {
        Present {
            generation,
            phase,
            start,
            counts: Counts {
                consecutive_failures: 0,
                requests: 0,
                total_failures: 0,
            },
            good: 0,
        }
    }

    /// The generation that a command at `now` finds, where this one is the present one.
    fn next(self, policy: &BreakerPolicy, now: u64) -> Self
        requires policy { IsWithinLimit policy.now }
        requires small { IsSmall self }
        ensures few { (most latest : ℕ) → HasAtMost most latest self → latest ≤ now → HasAtMost (most + 1) now result }
        ensures found { (g : Generation) (gs : List Generation) → self ≡ shown g (length gs) → Some result ≡ shown_of (found policy.now now (g ∷ gs)) }
    {
        if self.is_over(policy, now) {
            return Present::begun(self.generation + 1, phase_after(self.phase), now);
        }
        self
    }

    /// Whether the generation has ended before `now`.
    fn is_over(&self, policy: &BreakerPolicy, now: u64) -> bool
        requires policy { IsWithinLimit policy.now }
        requires small { IsSmall self.now }
        ensures { result ≡ over_in policy.now now self.now.start self.now.phase }
    {
        match self.phase {
            Phase::Closed => policy.interval_ms != 0 && self.start + policy.interval_ms < now,
            Phase::Open { until } => until < now,
            Phase::HalfOpen => false,
        }
    }

    /// The reply to a command at `now`, and what is kept then.
    pub(crate) fn answered(
        self,
        policy: &BreakerPolicy,
        now: u64,
        cmd: &BreakerCmd,
    ) -> (BreakerReply, Self)
        requires policy { IsWithinLimit policy.now }
        requires small { IsSmall self }
        requires moment { now < MOMENT_LIMIT }
        ensures few { (most : ℕ) → HasAtMost most now self → HasAtMost (most + 1) now result.1 }
        ensures reply { (g : Generation) (gs : List Generation) → self ≡ shown g (length gs) → result.0 ≡ reply_in policy.now g.phase g.entries (length gs) cmd.now }
        ensures after { (g : Generation) (gs : List Generation) (seat : ℕ) → self ≡ shown g (length gs) → Some result.1 ≡ shown_of (added policy.now now (record { seat = seat; cmd = cmd.now; reply = result.0; mark = 0 }) (g ∷ gs)) }
    {
        match cmd {
            BreakerCmd::Admit { .. } => self.admitted(policy),
            BreakerCmd::Report {
                generation,
                good,
                ..
            } => self.reported(policy, now, *generation, *good),
        }
    }

    /// The reply to a call that asks to be let through, and what is kept then.
    fn admitted(self, policy: &BreakerPolicy) -> (BreakerReply, Self)
        requires small { IsSmall self }
        ensures few { (most latest : ℕ) → HasAtMost most latest self → HasAtMost (most + 1) latest result.1 }
        ensures reply { (g : Generation) (gs : List Generation) (now : ℕ) → self ≡ shown g (length gs) → result.0 ≡ reply_in policy.now g.phase g.entries (length gs) (Admit now) }
        ensures after { (g : Generation) (gs : List Generation) (seat now at : ℕ) → self ≡ shown g (length gs) → Some result.1 ≡ shown_of (added policy.now at (record { seat = seat; cmd = Admit now; reply = result.0; mark = 0 }) (g ∷ gs)) }
    {
        let generation = self.generation;
        match self.phase {
            Phase::Closed => {
                let half = false;
                (
                    BreakerReply::Admitted { generation, half },
                    self.with_admission(),
                )
            }
            Phase::Open { until } => (BreakerReply::Opened { until }, self),
            Phase::HalfOpen if self.counts.requests == u64::from(policy.max_requests) => {
                let out = policy.max_requests;
                (BreakerReply::TooMany { out }, self)
            }
            Phase::HalfOpen => {
                let half = true;
                (
                    BreakerReply::Admitted { generation, half },
                    self.with_admission(),
                )
            }
        }
    }

    /// The counters with one admission more.
    fn with_admission(self) -> Self
        requires { IsSmall self }
        ensures { result ≡ record self { counts = record self.counts { requests = self.counts.requests + 1 } } }
    {
        let mut after = self;
        after.counts.requests += 1;
        after
    }

    /// The reply to a report at `now` for a generation, and what is kept then.
    fn reported(
        self,
        policy: &BreakerPolicy,
        now: u64,
        generation: u64,
        good: bool,
    ) -> (BreakerReply, Self)
        requires policy { IsWithinLimit policy.now }
        requires small { IsSmall self }
        requires moment { now < MOMENT_LIMIT }
        ensures few { (most : ℕ) → HasAtMost most now self → HasAtMost (most + 1) now result.1 }
        ensures reply { (g : Generation) (gs : List Generation) (moment : ℕ) → self ≡ shown g (length gs) → result.0 ≡ reply_in policy.now g.phase g.entries (length gs) (Report generation moment good) }
        ensures after { IsReported policy.now now generation good self result }
    {
        if generation != self.generation {
            let stale = BreakerReply::Stale {
                current: self.generation,
            };
            return (stale, self);
        }
        let counted = self.with_report(good);
        let after = match counted.led_to(policy, now, good) {
            Some(phase) => Present::begun(counted.generation + 1, phase, now),
            None => counted,
        };
        (BreakerReply::Counted, after)
    }

    /// The counters with one report more.
    fn with_report(self, good: bool) -> Self
        requires { IsSmall self }
        ensures { WithReport self good result }
    {
        let mut counts = self.counts;
        if good {
            counts.consecutive_failures = 0;
            return Present {
                counts,
                good: self.good + 1,
                ..self
            };
        }
        counts.consecutive_failures += 1;
        counts.total_failures += 1;
        Present { counts, ..self }
    }

    /// The phase that a report leads to, which the counters have already.
    fn led_to(&self, policy: &BreakerPolicy, now: u64, good: bool) -> Option<Phase>
        requires policy { IsWithinLimit policy.now }
        requires moment { now < MOMENT_LIMIT }
        ensures { IsLedTo policy.now now good self.now result }
    {
        let opened = Phase::Open {
            until: now + policy.timeout_ms,
        };
        match self.phase {
            Phase::Closed if !good && policy.trip.is_true_of(&self.counts) => Some(opened),
            Phase::HalfOpen if !good => Some(opened),
            Phase::HalfOpen if self.good == u64::from(policy.max_requests) => Some(Phase::Closed),
            _ => None,
        }
    }
}

/// The generation that a command at `now` finds; the first command begins the first one.
pub(crate) fn found(present: Option<Present>, policy: &BreakerPolicy, now: u64) -> Present
    requires policy { IsWithinLimit policy.now }
    requires small { ForSome present IsSmall }
    ensures few { (most latest : ℕ) → ForSome present (HasAtMost most latest) → latest ≤ now → HasAtMost (most + 1) now result }
    ensures found { (generations : List Generation) → present ≡ shown_of generations → Some result ≡ shown_of (found policy.now now generations) }
{
    match present {
        Some(present) => present.next(policy, now),
        None => Present::begun(0, Phase::Closed, now),
    }
}

/// The phase that follows where a generation ends in time.
fn phase_after(phase: Phase) -> Phase
    ensures { result ≡ phase_after phase }
{
    match phase {
        Phase::Closed => Phase::Closed,
        Phase::Open { .. } | Phase::HalfOpen => Phase::HalfOpen,
    }
}
