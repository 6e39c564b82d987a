ghost use Rattle.std.specs.Prelude.{◌≡◌, ℕ, List, Some, is_some};
ghost use Rattle.retry_core.specs.Bound.{IsWithinLimit};
ghost use Rattle.retry_core.specs.RetryPolicy.{IsWithinLimit as IsRetryWithinLimit};
ghost use Rattle.retry_core.specs.RetryRun.{run_after};
ghost use Rattle.retry_core.specs.declared.policy.RetryPolicy.{RetryPolicy};
ghost use Rattle.policy_run.specs.Effects.{AreNone, Draws, Made, Runs, times};
ghost use Rattle.policy_run.specs.Attempts.{Attempts, Attempted, Decides, last_outcome};

use crate::turn::{Turned, turn};
use crate::{Guard, Operation, Outcome};
use rand_core::Rng;
use retry_core::{Bound, Next, RetryPolicy, RetryRun};
use side_world::Clock;
use std::sync::Wait;

/// Makes attempts of `op` until one ends the call, as the policies that are bound say (Dapr's resiliency policies): each is let
/// through by the breaker, if there is one, made, and reported to it.
///
/// The guard has a breaker exactly where one is bound. After a failing attempt under a retry policy one random word is drawn, which decides how long to wait before the next one;
/// without such a policy, or where it gives up, the call ends with the last failing answer.
pub fn run_call<P: Operation, G: Guard, C: Clock, R: Rng, W: Wait>(
    rt: &W,
    bound: &Bound,
    guard: &mut G,
    op: &mut P,
    clock: &mut C,
    rng: &mut R,
) -> Outcome<P::Good, P::Bad>
    requires limits { IsWithinLimit bound.now }
    requires breaker { G.there guard.old ≡ is_some bound.now.breaker }
    requires guard { G.ready guard.old }
    requires op { P.ready op.old }
    ensures attempts { Made (Attempts bound.now (P.makes op.old) result) (Runs P.did op.old op.new) (Runs G.held guard.old guard.new) (times C.Clock clock.old clock.new) (Draws R.stream rng.old rng.new) }
    ensures there { G.there guard.new ≡ G.there guard.old }
    ensures shows { (count : ℕ) → result ≡ Outcome.Exhausted count → G.shows guard.new count }
    ensures shown { (good : P.Good) → result ≡ Outcome.Good good → P.shown op.new good }
{
    let limit = bound.timeout_ms.unwrap_or(0);
    match &bound.retry {
        None => outcome_of_last(turn(rt, limit, guard, op, clock)),
        Some(policy) => run_with(rt, limit, policy, guard, op, clock, rng),
    }
}

/// The outcome of a call whose last turn this was.
fn outcome_of_last<A: Drop, B: Drop>(turned: Turned<A, B>) -> Outcome<A, B>
    ensures { result ≡ last_outcome turned }
{
    match turned {
        Turned::Failed(bad) => Outcome::Bad(bad),
        Turned::Ended(outcome) => outcome,
    }
}

/// Makes attempts under a retry policy.
fn run_with<P: Operation, G: Guard, C: Clock, R: Rng, W: Wait>(
    rt: &W,
    limit: u64,
    policy: &RetryPolicy,
    guard: &mut G,
    op: &mut P,
    clock: &mut C,
    rng: &mut R,
) -> Outcome<P::Good, P::Bad>
    requires limits { IsRetryWithinLimit policy.now }
    requires guard { G.ready guard.old }
    requires op { P.ready op.old }
    ensures attempts { Made (Attempted (Some policy.now) (G.there guard.old) (P.makes op.old limit) result) (Runs P.did op.old op.new) (Runs G.held guard.old guard.new) (times C.Clock clock.old clock.new) (Draws R.stream rng.old rng.new) }
    ensures there { G.there guard.new ≡ G.there guard.old }
    ensures shows { (count : ℕ) → result ≡ Outcome.Exhausted count → G.shows guard.new count }
    ensures shown { (good : P.Good) → result ≡ Outcome.Good good → P.shown op.new good }
{
    let mut run = RetryRun::start(policy);
    for _ in rt.forever() {
        match turn(rt, limit, guard, op, clock) {
            Turned::Failed(bad) => {
                if !goes_on::<P, C, R>(&mut run, clock, rng) {
                    return Outcome::Bad(bad);
                }
            }
            Turned::Ended(outcome) => return outcome,
        }
    }
    unreachable!()
}

/// Decides after a failing attempt by one random word: waits before the next one, or says that none follows.
fn goes_on<P: Operation, C: Clock, R: Rng>(run: &mut RetryRun, clock: &mut C, rng: &mut R) -> bool
    ensures { (policy : RetryPolicy) (words : List ℕ) → run.old ≡ run_after policy words → Made {E = P.Own} (Decides policy words result run.new) AreNone AreNone (times C.Clock clock.old clock.new) (Draws R.stream rng.old rng.new) }
{
    match run.next(rng.next_u64()) {
        Next::GiveUp { .. } => false,
        Next::Wait(ms) => {
            clock.pause(ms);
            true
        }
    }
}
