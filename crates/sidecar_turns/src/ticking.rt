//! The next tick that is due is taken, and the app is called for it.
ghost use Rattle.std.specs.Prelude.{◌≡◌, ◌<◌, ℕ, Some, length};
ghost use Rattle.side_world.specs.declared.clock.Clock.{Ghosts as Times};
ghost use Rattle.turn_cell.specs.declared.error.ApiErr.TheVariants as error;
ghost use Rattle.policy_run.specs.Effects.{clocked};
ghost use Rattle.link_call.specs.LinkAt.{link_at};
ghost use Rattle.cron_ticks.specs.Ticks.{schedule_of};
ghost use Rattle.sidecar_objects.specs.Passes.{IsPassOf};
ghost use Rattle.sidecar_objects.specs.Pass.{DoesBy, cells_of, seats_of};
ghost use Rattle.sidecar_turns.specs.Crons.{AreTicksOf, AreWithinLimits};
ghost use Rattle.sidecar_turns.specs.Ticking.{DoesByClock, ShowsTick, TakesBy, Ticks, TicksSome, taking_of, turn_of};

use crate::Crons;
use crate::at_cron::{Call, post_at};
use crate::cron::Cron;
use cron_bind::Posted;
use cron_ticks::{TicksCmd, TicksReply};
use keeper_core::Keeper;
use rand_core::Rng;
use side_world::{Clock, Link};
use sidecar_objects::{ObjectKinds, Objects, Pass};
use state_core::Store;
use std::alloc::Global;
use std::sync::Wait;
use turn_cell::{ApiErr, Exhausted};

/// What came of taking a tick.
#[derive(Clone, Copy, Debug, PartialEq, Eq)]
pub enum TickTurn {
    /// A tick was taken, and the app was called for it. It isn't taken again, whatever came of the call.
    Ticked(Posted),
    /// None is due. `next` is when the first one will be, in milliseconds since 1970; there is none without an app port, and where nothing ticks.
    Idle { next: Option<u64> },
    /// A tick was taken, and there was no memory to call the app.
    Held,
    /// A cell has no ticket left; `count` was read in it, and its seat shows it. Where it is a breaker's, the tick was taken.
    Exhausted { count: u64 },
}

/// Takes the tick that is due first, of those that are due at the moment which is read, and calls the app for it under what is bound to
/// what comes from its binding. Without an app port no tick is taken, and there is no step; nor is there where nothing ticks.
///
/// The cells fit the bindings.
pub fn tick<K: Keeper, L: Link, C: Clock, R: Rng, W: Wait>(
    rt: &W,
    crons: &Crons,
    objects: &Objects<K>,
    pass: &mut Pass<K>,
    link: &mut L,
    clock: &mut C,
    rng: &mut R,
) -> TickTurn
    requires pass { IsPassOf (cells_of objects.now) (seats_of pass.old) }
    requires cells { AreTicksOf (cells_of objects.now) crons.now }
    ensures does { DoesBy ⟦<Store<K> as ObjectKinds>⟧.kinds L.Link C.Clock R.stream objects.now pass.old pass.new link.old link.new clock.old clock.new rng.old rng.new (Ticks crons.now) result }
    ensures shows { (count : ℕ) → result ≡ TickTurn.Exhausted count → ShowsTick crons.now.crons (seats_of pass.new) count }
{
    match crons.app_port() {
        None => TickTurn::Idle { next: None },
        Some(port) => {
            let app = App {
                alloc: crons.alloc,
                port,
                crons: crons.each(),
            };
            tick_app(rt, &app, objects, pass, link, clock, rng)
        }
    }
}

/// The app that is called, and the bindings that tick.
#[derive(Clone, Copy)]
struct App<'a> {
    alloc: Global,
    port: u16,
    crons: &'a [Cron],
}

/// Takes the tick that is due first, and calls the app for it; where nothing ticks there is no step.
fn tick_app<K: Keeper, L: Link, C: Clock, R: Rng, W: Wait>(
    rt: &W,
    app: &App<'_>,
    objects: &Objects<K>,
    pass: &mut Pass<K>,
    link: &mut L,
    clock: &mut C,
    rng: &mut R,
) -> TickTurn
    requires pass { IsPassOf (cells_of objects.now) (seats_of pass.old) }
    requires cells { AreTicksOf (cells_of objects.now) (record { port = Some app.now.port; crons = app.now.crons.now }) }
    requires limits { AreWithinLimits app.now.crons.now }
    ensures does { DoesBy ⟦<Store<K> as ObjectKinds>⟧.kinds L.Link C.Clock R.stream objects.now pass.old pass.new link.old link.new clock.old clock.new rng.old rng.new (TicksSome app.now.port app.now.crons.now) result }
    ensures shows { (count : ℕ) → result ≡ TickTurn.Exhausted count → ShowsTick app.now.crons.now (seats_of pass.new) count }
{
    if app.crons.is_empty() {
        return TickTurn::Idle { next: None };
    }
    match take_tick(rt, objects, pass, clock) {
        Taking::Tick { place } => {
            let call = Call {
                alloc: app.alloc,
                port: app.port,
                cron: &app.crons[place as usize],
            };
            turn_of(post_at(rt, &call, objects, pass, link, clock, rng))
        }
        Taking::Ended(turn) => turn,
    }
}

/// What came of asking for a tick.
#[derive(Clone, Copy)]
enum Taking {
    /// One of the binding at a place is taken.
    Tick { place: u32 },
    /// None is, and so it ends.
    Ended(TickTurn),
}

/// Asks for the tick that is due first, at the moment which is read.
fn take_tick<K: Keeper, C: Clock, W: Wait>(
    rt: &W,
    objects: &Objects<K>,
    pass: &mut Pass<K>,
    clock: &mut C,
) -> Taking
    requires pass { IsPassOf (cells_of objects.now) (seats_of pass.old) }
    ensures does { DoesByClock ⟦<Store<K> as ObjectKinds>⟧.kinds C.Clock objects.now pass.old pass.new clock.old clock.new (TakesBy result) }
    ensures there { (place : ℕ) → result ≡ Taking.Tick place → place < length (schedule_of objects.now.ticks.first).periods }
    ensures shows { (count : ℕ) → result ≡ Taking.Ended (TickTurn.Exhausted count) → pass.new.ticks.count ≡ Some count }
{
    let now = clock.now();
    match objects
        .ticks
        .call(rt, &mut pass.ticks, &TicksCmd::Take { now })
    {
        Ok(reply) => taking_of(reply),
        Err(Exhausted { count }) => Taking::Ended(TickTurn::Exhausted { count }),
    }
}

/// What a reply of the ticks means.
fn taking_of(reply: TicksReply) -> Taking
    ensures { result ≡ taking_of reply }
{
    match reply {
        TicksReply::Tick {
            place,
            number: _,
            due: _,
        } => Taking::Tick { place },
        TicksReply::Idle { next } => Taking::Ended(TickTurn::Idle { next }),
    }
}

/// What a call of the app comes to for its tick.
fn turn_of(came: Result<Posted, ApiErr>) -> TickTurn
    ensures { result ≡ turn_of came }
{
    match came {
        Ok(posted) => TickTurn::Ticked(posted),
        Err(ApiErr::NoMemory) => TickTurn::Held,
        Err(ApiErr::Exhausted { count }) => TickTurn::Exhausted { count },
    }
}
