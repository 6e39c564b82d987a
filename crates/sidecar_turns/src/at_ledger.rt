//! A turn of delivery on one of the ledgers.
ghost use Rattle.std.specs.Prelude.{◌≡◌, ◌<◌, ◌⊎◌, ℕ, length, Some, None, All};
ghost use Rattle.retry_core.specs.Bound.{IsWithinLimit};
ghost use Rattle.turn_cell.specs.Sitting.{IsSeatOf};
ghost use Rattle.turn_cell.specs.Passes.{EachSeated};
ghost use Rattle.ledger_core.specs.Ledger.{plans_of};
ghost use Rattle.policy_run.specs.Effects.{AreNone, Draws, times};
ghost use Rattle.link_call.specs.LinkAt.{links};
ghost use Rattle.delivery_turn.specs.declared.ending.Turn.TheVariants as ended;
ghost use Rattle.delivery_turn.specs.Stepping.{DidBy};
ghost use Rattle.delivery_turn.specs.Turning.{DeliversBy, setting_of};
ghost use Rattle.sidecar_objects.specs.Pass.{DoesBy, seats_of};
ghost use Rattle.sidecar_turns.specs.Brokers.{HasBreakerOf, IsPlannedFor};
ghost use Rattle.sidecar_turns.specs.Delivering.{DeliversAt, ShowsTurn};
ghost use Rattle.sidecar_turns.specs.Stepping.{Grows};

use breaker_core::Breaker;
use delivery_turn::{Deliveries, Turn, turn};
use keeper_core::Keeper;
use ledger_core::Ledger;
use policy_run::{BreakerAt, NoBreaker};
use rand_core::Rng;
use side_world::{Clock, Link};
use sidecar_objects::{ObjectKinds, Objects, Pass};
use state_core::Store;
use std::sync::Wait;
use turn_cell::{Object, Seat, TurnCell};

/// Takes a turn of delivery on the ledger at a place, let through by the breaker that is bound to its broker, if one is.
pub(crate) fn turn_at<K: Keeper, L: Link, C: Clock, R: Rng, W: Wait>(
    rt: &W,
    what: &Deliveries<'_>,
    objects: &Objects<K>,
    pass: &mut Pass<K>,
    place: usize,
    link: &mut L,
    clock: &mut C,
    rng: &mut R,
) -> Turn
    requires limits { IsWithinLimit what.now.bound.now }
    requires place { place < length objects.now.ledgers.items }
    requires planned { All (λ cell. IsPlannedFor what.now.subs.now cell.first) objects.now.ledgers.items }
    requires breaker { HasBreakerOf (length objects.now.breakers.items) what.now.bound.now }
    requires ledgers { EachSeated objects.now.ledgers.items pass.old.ledgers.items }
    requires breakers { EachSeated objects.now.breakers.items pass.old.breakers.items }
    ensures does { DoesBy ⟦<Store<K> as ObjectKinds>⟧.kinds L.Link C.Clock R.stream objects.now pass.old pass.new link.old link.new clock.old clock.new rng.old rng.new (DeliversAt place (setting_of what.now)) result }
    ensures shows { (count : ℕ) → result ≡ ended.Exhausted count → ShowsTurn place what.now.bound.now (seats_of pass.new) count }
{
    match what.bound.breaker {
        None => plain(
            rt,
            what,
            &objects.ledgers[place],
            &mut pass.ledgers[place],
            link,
            clock,
            rng,
        ),
        Some(k) => gated(
            rt,
            what,
            &objects.ledgers[place],
            &mut pass.ledgers[place],
            &objects.breakers[k as usize],
            &mut pass.breakers[k as usize],
            link,
            clock,
            rng,
        ),
    }
}

/// The turn without a breaker.
fn plain<L: Link, C: Clock, R: Rng, W: Wait>(
    rt: &W,
    what: &Deliveries<'_>,
    cell: &TurnCell<Ledger>,
    seat: &mut Seat<Ledger>,
    link: &mut L,
    clock: &mut C,
    rng: &mut R,
) -> Turn
    requires limits { IsWithinLimit what.now.bound.now }
    requires breaker { what.now.bound.now.breaker ≡ None }
    requires seat { IsSeatOf cell.now seat.old }
    requires plans { length (plans_of cell.now.first) ≡ length what.now.subs.now }
    ensures delivers { DeliversBy (setting_of what.now) result (DidBy ⟦<Ledger as Object>⟧ cell.now seat.old seat.new (links L.Link link.old link.new)) AreNone (times C.Clock clock.old clock.new) (Draws R.stream rng.old rng.new) }
    ensures shows { (count : ℕ) → result ≡ ended.Exhausted count → seat.new.count ≡ Some count }
{
    turn(rt, what, cell, seat, &mut NoBreaker, link, clock, rng)
}

/// The turn behind its breaker.
fn gated<L: Link, C: Clock, R: Rng, W: Wait>(
    rt: &W,
    what: &Deliveries<'_>,
    cell: &TurnCell<Ledger>,
    seat: &mut Seat<Ledger>,
    gate: &TurnCell<Breaker>,
    key: &mut Seat<Breaker>,
    link: &mut L,
    clock: &mut C,
    rng: &mut R,
) -> Turn
    requires limits { IsWithinLimit what.now.bound.now }
    requires breaker { (k : ℕ) × (what.now.bound.now.breaker ≡ Some k) }
    requires seat { IsSeatOf cell.now seat.old }
    requires key { IsSeatOf gate.now key.old }
    requires plans { length (plans_of cell.now.first) ≡ length what.now.subs.now }
    ensures delivers { DeliversBy (setting_of what.now) result (DidBy ⟦<Ledger as Object>⟧ cell.now seat.old seat.new (links L.Link link.old link.new))
        (Grows ⟦<Breaker as Object>⟧ gate.now key.old key.new) (times C.Clock clock.old clock.new) (Draws R.stream rng.old rng.new) }
    ensures shows { (count : ℕ) → result ≡ ended.Exhausted count → (key.new.count ≡ Some count) ⊎ (seat.new.count ≡ Some count) }
{
    let mut guard = BreakerAt {
        cell: gate,
        seat: key,
    };
    turn(rt, what, cell, seat, &mut guard, link, clock, rng)
}
