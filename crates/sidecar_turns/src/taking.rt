//! The ticks that are due are taken, one after the other.
ghost use Rattle.std.specs.Prelude.{◌≡◌, ℕ, Some};
ghost use Rattle.sidecar_objects.specs.Passes.{IsPassOf};
ghost use Rattle.sidecar_objects.specs.Pass.{DoesBy, cells_of, seats_of};
ghost use Rattle.sidecar_turns.specs.Crons.{AreTicksOf};
ghost use Rattle.sidecar_turns.specs.Repeating.{StepsOn};
ghost use Rattle.sidecar_turns.specs.Taking.{IsLastTick, TakesTicks, TicksEnd, TicksOn};
ghost use Rattle.sidecar_turns.specs.Ticking.{ShowsTick, Ticks};

use crate::{Crons, Drained, TickTurn, tick};
use keeper_core::Keeper;
use rand_core::Rng;
use side_world::{Clock, Link};
use sidecar_objects::{ObjectKinds, Objects, Pass};
use state_core::Store;
use std::sync::Wait;

/// How many ticks are taken at most.
const TICKS: u32 = 4096;

/// Takes ticks, and calls the app for each, until none is due: at most 4,096 of them.
///
/// `Held` and `Spent` end it at once.
pub fn take_ticks<K: Keeper, L: Link, C: Clock, R: Rng, W: Wait>(
    rt: &W,
    crons: &Crons,
    objects: &Objects<K>,
    pass: &mut Pass<K>,
    link: &mut L,
    clock: &mut C,
    rng: &mut R,
) -> Drained
    requires pass { IsPassOf (cells_of objects.now) (seats_of pass.old) }
    requires cells { AreTicksOf (cells_of objects.now) crons.now }
    ensures does { DoesBy ⟦<Store<K> as ObjectKinds>⟧.kinds L.Link C.Clock R.stream objects.now pass.old pass.new link.old link.new clock.old clock.new rng.old rng.new (TakesTicks crons.now) result }
    ensures shows { (count : ℕ) → result ≡ Drained.Spent count → ShowsTick crons.now.crons (seats_of pass.new) count }
{
    for _taken in 0..TICKS {
        if let Some(how) = take_once(rt, crons, objects, pass, link, clock, rng) {
            return how;
        }
    }
    Drained::UsedUp
}

/// Takes one tick, if one is due. `None` where the next one is to be asked for.
fn take_once<K: Keeper, L: Link, C: Clock, R: Rng, W: Wait>(
    rt: &W,
    crons: &Crons,
    objects: &Objects<K>,
    pass: &mut Pass<K>,
    link: &mut L,
    clock: &mut C,
    rng: &mut R,
) -> Option<Drained>
    requires pass { IsPassOf (cells_of objects.now) (seats_of pass.old) }
    requires cells { AreTicksOf (cells_of objects.now) crons.now }
    ensures does { DoesBy ⟦<Store<K> as ObjectKinds>⟧.kinds L.Link C.Clock R.stream objects.now pass.old pass.new link.old link.new clock.old clock.new rng.old rng.new (StepsOn (Ticks crons.now) TicksOn TicksEnd) result }
    ensures shows { (count : ℕ) → result ≡ Some (Drained.Spent count) → ShowsTick crons.now.crons (seats_of pass.new) count }
{
    end_of(tick(rt, crons, objects, pass, link, clock, rng))
}

/// How this answer ends the ticks, if it does.
fn end_of(turn: TickTurn) -> Option<Drained>
    ensures { IsLastTick turn result }
{
    match turn {
        TickTurn::Ticked(_) => None,
        TickTurn::Idle { .. } => Some(Drained::Done),
        TickTurn::Held => Some(Drained::Held),
        TickTurn::Exhausted { count } => Some(Drained::Spent { count }),
    }
}
