//! What a worker does when no connection came: part after part, up to the first that ends the turn.
ghost use Rattle.std.specs.Prelude.{◌≡◌, ℕ, IsTrue, ◌↔◌};
ghost use Rattle.sidecar_objects.specs.Passes.{IsPassOf};
ghost use Rattle.sidecar_objects.specs.Pass.{DoesBy, cells_of, seats_of};
ghost use Rattle.sidecar_turns.specs.Brokers.{AreOf};
ghost use Rattle.sidecar_turns.specs.Crons.{AreTicksOf};
ghost use Rattle.sidecar_turns.specs.Delivering.{ShowsOne};
ghost use Rattle.sidecar_turns.specs.Ticking.{ShowsTick};
ghost use Rattle.sidecar_turns.specs.Idling.{DeliveryPart, Ends, Idles, ShowsIdle, TickPart, both, of_delivery, of_tick, until};

use crate::delivering::earlier;
use crate::{Brokers, Crons, TickTurn, deliver, tick};
use delivery_turn::Turn;
use keeper_core::Keeper;
use rand_core::Rng;
use side_world::{Clock, Link};
use sidecar_objects::{ObjectKinds, Objects, Pass};
use state_core::Store;
use std::sync::Wait;
use topic_spec::Subs;

/// What a sidecar has to do of itself: which bindings tick, and to which subscriptions the messages of which brokers are delivered.
#[derive(Clone, Copy)]
pub struct Duties<'a> {
    pub crons: &'a Crons,
    pub brokers: &'a Brokers,
    pub subs: &'a Subs,
}

/// What an idle turn came to.
#[derive(Clone, Copy, Debug, PartialEq, Eq)]
pub enum IdleTurn {
    /// A tick was taken, or a delivery was made: more may be due.
    Did,
    /// Nothing is due. `next` is when the first tick or delivery will be, in milliseconds since 1970.
    Idle { next: Option<u64> },
    /// There was no memory.
    Held,
    /// A cell has no ticket left; `count` was read in it, and its seat shows it.
    Exhausted { count: u64 },
}

/// What a worker does when no connection came: the tick that is due first is taken, and the app is called for it; then one turn of delivery
/// is taken. Where there is no memory for the tick, or a cell is exhausted, nothing follows.
///
/// What comes to stand between both is a further part.
pub fn idle_turn<K: Keeper, L: Link, C: Clock, R: Rng, W: Wait>(
    rt: &W,
    duties: &Duties<'_>,
    objects: &Objects<K>,
    pass: &mut Pass<K>,
    link: &mut L,
    clock: &mut C,
    rng: &mut R,
) -> IdleTurn
    requires pass { IsPassOf (cells_of objects.now) (seats_of pass.old) }
    requires ticks { AreTicksOf (cells_of objects.now) duties.now.crons.now }
    requires cells { AreOf (cells_of objects.now) duties.now.brokers.now duties.now.subs.now }
    ensures does { DoesBy ⟦<Store<K> as ObjectKinds>⟧.kinds L.Link C.Clock R.stream objects.now pass.old pass.new link.old link.new clock.old clock.new rng.old rng.new (Idles duties.now.crons.now duties.now.brokers.now duties.now.subs.now) result }
    ensures shows { (count : ℕ) → result ≡ IdleTurn.Exhausted count → ShowsIdle duties.now.crons.now.crons duties.now.brokers.now.inbound (seats_of pass.new) count }
{
    let ticked = tick_part(rt, duties, objects, pass, link, clock, rng);
    if is_end(ticked) {
        return ticked;
    }
    let delivered = delivery_part(rt, duties, objects, pass, link, clock, rng);
    both(ticked, delivered)
}

/// Takes the tick that is due first, and calls the app for it.
fn tick_part<K: Keeper, L: Link, C: Clock, R: Rng, W: Wait>(
    rt: &W,
    duties: &Duties<'_>,
    objects: &Objects<K>,
    pass: &mut Pass<K>,
    link: &mut L,
    clock: &mut C,
    rng: &mut R,
) -> IdleTurn
    requires pass { IsPassOf (cells_of objects.now) (seats_of pass.old) }
    requires ticks { AreTicksOf (cells_of objects.now) duties.now.crons.now }
    ensures does { DoesBy ⟦<Store<K> as ObjectKinds>⟧.kinds L.Link C.Clock R.stream objects.now pass.old pass.new link.old link.new clock.old clock.new rng.old rng.new (TickPart duties.now.crons.now) result }
    ensures shows { (count : ℕ) → result ≡ IdleTurn.Exhausted count → ShowsTick duties.now.crons.now.crons (seats_of pass.new) count }
{
    of_tick(tick(rt, duties.crons, objects, pass, link, clock, rng))
}

/// Takes one turn of delivery.
fn delivery_part<K: Keeper, L: Link, C: Clock, R: Rng, W: Wait>(
    rt: &W,
    duties: &Duties<'_>,
    objects: &Objects<K>,
    pass: &mut Pass<K>,
    link: &mut L,
    clock: &mut C,
    rng: &mut R,
) -> IdleTurn
    requires pass { IsPassOf (cells_of objects.now) (seats_of pass.old) }
    requires cells { AreOf (cells_of objects.now) duties.now.brokers.now duties.now.subs.now }
    ensures does { DoesBy ⟦<Store<K> as ObjectKinds>⟧.kinds L.Link C.Clock R.stream objects.now pass.old pass.new link.old link.new clock.old clock.new rng.old rng.new (DeliveryPart duties.now.brokers.now duties.now.subs.now) result }
    ensures shows { (count : ℕ) → result ≡ IdleTurn.Exhausted count → ShowsOne duties.now.brokers.now.inbound (seats_of pass.new) count }
{
    of_delivery(deliver(
        rt,
        duties.brokers,
        duties.subs,
        objects,
        pass,
        link,
        clock,
        rng,
    ))
}

/// What a tick is as a part of the turn.
fn of_tick(turn: TickTurn) -> IdleTurn
    ensures { result ≡ of_tick turn }
{
    match turn {
        TickTurn::Ticked(_) => IdleTurn::Did,
        TickTurn::Idle { next } => IdleTurn::Idle { next },
        TickTurn::Held => IdleTurn::Held,
        TickTurn::Exhausted { count } => IdleTurn::Exhausted { count },
    }
}

/// What a turn of delivery is as a part of it.
fn of_delivery(turn: Turn) -> IdleTurn
    ensures { result ≡ of_delivery turn }
{
    match turn {
        Turn::Delivered { .. } => IdleTurn::Did,
        Turn::Idle { next } => IdleTurn::Idle { next },
        Turn::Held => IdleTurn::Held,
        Turn::Exhausted { count } => IdleTurn::Exhausted { count },
    }
}

/// Whether a part that came to this ends the turn.
fn is_end(part: IdleTurn) -> bool
    ensures { IsTrue result ↔ Ends part }
{
    match part {
        IdleTurn::Held | IdleTurn::Exhausted { .. } => true,
        IdleTurn::Did | IdleTurn::Idle { .. } => false,
    }
}

/// What a part and the one behind it came to.
fn both(part: IdleTurn, later: IdleTurn) -> IdleTurn
    ensures { result ≡ both part later }
{
    match later {
        IdleTurn::Idle { next } => until(part, next),
        other => other,
    }
}

/// What a part came to, where nothing is due behind it before `later`.
fn until(part: IdleTurn, later: Option<u64>) -> IdleTurn
    ensures { result ≡ until part later }
{
    match part {
        IdleTurn::Idle { next } => IdleTurn::Idle {
            next: earlier(next, later),
        },
        other => other,
    }
}
