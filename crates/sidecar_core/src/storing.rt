ghost use Rattle.std.specs.Prelude.{◌≡◌, ◌<◌, ◌⊎◌, ℕ, length, Some, None, is_some, Err, IfOk};
ghost use Rattle.retry_core.specs.Bound.{IsWithinLimit};
ghost use Rattle.turn_cell.specs.Sitting.{IsSeatOf};
ghost use Rattle.turn_cell.specs.Passes.{EachSeated};
ghost use Rattle.state_core.specs.Taken.{IsTaken};
ghost use Rattle.policy_run.specs.Effects.{AreNone, Draws, times};
ghost use Rattle.state_api.specs.Moment.{IsSame};
ghost use Rattle.state_api.specs.Ran.{Grows, IsAnswer, RunsBy};
ghost use Rattle.sidecar_objects.specs.Pass.{RunsStore};
ghost use Rattle.sidecar_core.specs.Ran.{IsShown, StoreRan};
ghost use Rattle.sidecar_core.specs.Sites.{HasBreakerOf};

use breaker_core::Breaker;
use keeper_core::Keeper;
use policy_run::{BreakerAt, NoBreaker};
use rand_core::Rng;
use retry_core::Bound;
use side_world::Clock;
use sidecar_objects::{ObjectKinds, Objects, Pass};
use state_api::{Ran, run};
use state_core::{Cmd, Store};
use std::sync::Wait;
use turn_cell::{ApiErr, Object, Seat, TurnCell};

/// Makes a state call at the store of this place, under what is bound to it: each attempt is one step of the store, let through by the breaker that is bound, if
/// one is, and reported to it. The command is left as it was but for its moment.
pub fn run_store<K: Keeper, C: Clock, R: Rng, W: Wait>(
    rt: &W,
    objects: &Objects<K>,
    pass: &mut Pass<K>,
    place: usize,
    bound: &Bound,
    cmd: &mut Cmd,
    clock: &mut C,
    rng: &mut R,
) -> Result<Ran, ApiErr>
    requires limits { IsWithinLimit bound.now }
    requires place { place < length objects.now.stores.items }
    requires breaker { HasBreakerOf (length objects.now.breakers.items) bound.now }
    requires stores { EachSeated objects.now.stores.items pass.old.stores.items }
    requires breakers { EachSeated objects.now.breakers.items pass.old.breakers.items }
    requires taken { IsTaken cmd.old }
    ensures ran { RunsStore ⟦<Store<K> as ObjectKinds>⟧.kinds C.Clock R.stream objects.now pass.old pass.new clock.old clock.new rng.old rng.new (StoreRan place bound.now cmd.old) result }
    ensures answer { IfOk result (IsAnswer cmd.old) }
    ensures same { IsSame cmd.old cmd.new }
    ensures shows { (count : ℕ) → result ≡ Err (ApiErr.Exhausted count) → IsShown place bound.now pass.new.stores.items pass.new.breakers.items count }
{
    match bound.breaker {
        None => plain(
            rt,
            cmd,
            &objects.stores[place],
            &mut pass.stores[place],
            bound,
            clock,
            rng,
        ),
        Some(k) => gated(
            rt,
            cmd,
            &objects.stores[place],
            &mut pass.stores[place],
            bound,
            &objects.breakers[k as usize],
            &mut pass.breakers[k as usize],
            clock,
            rng,
        ),
    }
}

/// The call without a breaker.
fn plain<K: Keeper, C: Clock, R: Rng, W: Wait>(
    rt: &W,
    cmd: &mut Cmd,
    cell: &TurnCell<Store<K>>,
    seat: &mut Seat<Store<K>>,
    bound: &Bound,
    clock: &mut C,
    rng: &mut R,
) -> Result<Ran, ApiErr>
    requires limits { IsWithinLimit bound.now }
    requires breaker { bound.now.breaker ≡ None }
    requires seat { IsSeatOf cell.now seat.old }
    requires taken { IsTaken cmd.old }
    ensures ran { RunsBy bound.now cmd.old result (Grows ⟦<Store<K> as Object>⟧ cell.now seat.old seat.new) AreNone (times C.Clock clock.old clock.new) (Draws R.stream rng.old rng.new) }
    ensures answer { IfOk result (IsAnswer cmd.old) }
    ensures same { IsSame cmd.old cmd.new }
    ensures shows { (count : ℕ) → result ≡ Err (ApiErr.Exhausted count) → seat.new.count ≡ Some count }
{
    run(rt, cmd, cell, seat, bound, &mut NoBreaker, clock, rng)
}

/// The call behind its breaker.
fn gated<K: Keeper, C: Clock, R: Rng, W: Wait>(
    rt: &W,
    cmd: &mut Cmd,
    cell: &TurnCell<Store<K>>,
    seat: &mut Seat<Store<K>>,
    bound: &Bound,
    gate: &TurnCell<Breaker>,
    key: &mut Seat<Breaker>,
    clock: &mut C,
    rng: &mut R,
) -> Result<Ran, ApiErr>
    requires limits { IsWithinLimit bound.now }
    requires breaker { (k : ℕ) × (bound.now.breaker ≡ Some k) }
    requires seat { IsSeatOf cell.now seat.old }
    requires key { IsSeatOf gate.now key.old }
    requires taken { IsTaken cmd.old }
    ensures ran { RunsBy bound.now cmd.old result (Grows ⟦<Store<K> as Object>⟧ cell.now seat.old seat.new) (Grows ⟦<Breaker as Object>⟧ gate.now key.old key.new) (times C.Clock clock.old clock.new) (Draws R.stream rng.old rng.new) }
    ensures answer { IfOk result (IsAnswer cmd.old) }
    ensures same { IsSame cmd.old cmd.new }
    ensures shows { (count : ℕ) → result ≡ Err (ApiErr.Exhausted count) → (key.new.count ≡ Some count) ⊎ (seat.new.count ≡ Some count) }
{
    let mut guard = BreakerAt {
        cell: gate,
        seat: key,
    };
    run(rt, cmd, cell, seat, bound, &mut guard, clock, rng)
}
