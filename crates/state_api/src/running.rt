ghost use Rattle.std.specs.Prelude.{◌≡◌, ℕ, Err, Some, is_some, IfOk, ◌⊎◌};
ghost use Rattle.retry_core.specs.Bound.{IsWithinLimit};
ghost use Rattle.turn_cell.specs.Sitting.{IsSeatOf};
ghost use Rattle.state_core.specs.Taken.{IsTaken};
ghost use Rattle.policy_run.specs.Effects.{Draws, Runs, times};
ghost use Rattle.state_api.specs.Moment.{IsSame};
ghost use Rattle.state_api.specs.Ran.{ran_of, Grows, IsAnswer, RunsBy};

use crate::{StateAnswer, StoreCall};
use keeper_core::Keeper;
use policy_run::{Guard, Outcome, Refusal, run_call};
use rand_core::Rng;
use retry_core::Bound;
use side_world::Clock;
use state_core::{Cmd, Reply, Store};
use std::sync::Wait;
use turn_cell::{ApiErr, Object, Seat, TurnCell};

/// What a state call came to.
#[derive(Debug, Drop)]
pub enum Ran {
    /// The store's last reply.
    Replied(Reply),
    /// The breaker did not let an attempt through.
    Refused(Refusal),
}

/// Gives a command to a store under the policies that are bound to it: each attempt is one step of the store, at the moment of the
/// clock, and fails exactly where the store answers that its keeper failed. The command is left at the moment of the last attempt.
pub fn run<K: Keeper, G: Guard, C: Clock, R: Rng, W: Wait>(
    rt: &W,
    cmd: &mut Cmd,
    cell: &TurnCell<Store<K>>,
    seat: &mut Seat<Store<K>>,
    bound: &Bound,
    guard: &mut G,
    clock: &mut C,
    rng: &mut R,
) -> Result<Ran, ApiErr>
    requires limits { IsWithinLimit bound.now }
    requires breaker { G.there guard.old ≡ is_some bound.now.breaker }
    requires seat { IsSeatOf cell.now seat.old }
    requires taken { IsTaken cmd.old }
    requires guard { G.ready guard.old }
    ensures ran { RunsBy bound.now cmd.old result (Grows ⟦<Store<K> as Object>⟧ cell.now seat.old seat.new) (Runs G.held guard.old guard.new) (times C.Clock clock.old clock.new) (Draws R.stream rng.old rng.new) }
    ensures answer { IfOk result (IsAnswer cmd.old) }
    ensures same { IsSame cmd.old cmd.new }
    ensures there { G.there guard.new ≡ G.there guard.old }
    ensures shows { (count : ℕ) → result ≡ Err (ApiErr.Exhausted count) → G.shows guard.new count ⊎ (seat.new.count ≡ Some count) }
{
    let mut call = StoreCall { cell, seat, cmd };
    ran_of(run_call(rt, bound, guard, &mut call, clock, rng))
}

/// What an outcome is as an answer.
fn ran_of(outcome: Outcome<StateAnswer, ()>) -> Result<Ran, ApiErr>
    ensures { result ≡ ran_of outcome }
{
    match outcome {
        Outcome::Good(StateAnswer::Replied(reply)) => Ok(Ran::Replied(reply)),
        Outcome::Good(StateAnswer::Exhausted { count }) => Err(ApiErr::Exhausted { count }),
        Outcome::Bad(()) => Ok(Ran::Replied(Reply::Failed)),
        Outcome::Refused(refusal) => Ok(Ran::Refused(refusal)),
        Outcome::Exhausted { count } => Err(ApiErr::Exhausted { count }),
        Outcome::NoMemory => Err(ApiErr::NoMemory),
    }
}
