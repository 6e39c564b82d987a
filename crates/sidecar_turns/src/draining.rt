//! What is due is delivered, and what soon will be.
ghost use Rattle.std.specs.Prelude.{◌≡◌, ℕ, Option, Some};
ghost use Rattle.policy_run.specs.Effects.{clocked};
ghost use Rattle.delivery_turn.specs.declared.ending.Turn.TheVariants as ended;
ghost use Rattle.sidecar_objects.specs.Passes.{IsPassOf};
ghost use Rattle.sidecar_objects.specs.Pass.{DoesBy, cells_of, seats_of};
ghost use Rattle.sidecar_turns.specs.Brokers.{AreOf};
ghost use Rattle.sidecar_turns.specs.Delivering.{Delivers, ShowsOne};
ghost use Rattle.sidecar_turns.specs.Draining.{Drains, GoesOn, IsFollowed, Pausing, Stops};
ghost use Rattle.sidecar_turns.specs.Repeating.{StepsOn};

use crate::{Brokers, deliver};
use delivery_turn::Turn;
use keeper_core::Keeper;
use rand_core::Rng;
use side_base::Moment;
use side_world::{Clock, Link};
use sidecar_objects::{ObjectKinds, Objects, Pass};
use state_core::Store;
use std::sync::Wait;
use topic_spec::Subs;

/// How many turns a drain takes at most.
const TURNS: u32 = 4096;

/// How long after its beginning a drain waits for what will be due, in milliseconds.
const SOON_MS: u64 = 60_000;

/// How a drain ended, and how the taking of ticks did.
#[derive(Clone, Copy, Debug, PartialEq, Eq)]
pub enum Drained {
    /// Nothing is due; and of deliveries none will be soon.
    Done,
    /// There was no memory. A delivery is due again, and a tick is not.
    Held,
    /// A cell has no ticket left; `count` was read in it, and its seat shows it.
    Spent { count: u64 },
    /// As many turns were taken as may be.
    UsedUp,
}

/// Delivers what is due, and waits for what will be due within 60,000 ms of the moment `began`: turns of delivery, at most 4,096 of them,
/// until nothing more is due so soon.
///
/// `Held` and `Spent` end it at once.
pub fn drain<K: Keeper, L: Link, C: Clock, R: Rng, W: Wait>(
    rt: &W,
    brokers: &Brokers,
    subs: &Subs,
    objects: &Objects<K>,
    pass: &mut Pass<K>,
    began: Moment,
    link: &mut L,
    clock: &mut C,
    rng: &mut R,
) -> Drained
    requires pass { IsPassOf (cells_of objects.now) (seats_of pass.old) }
    requires cells { AreOf (cells_of objects.now) brokers.now subs.now }
    ensures does { DoesBy ⟦<Store<K> as ObjectKinds>⟧.kinds L.Link C.Clock R.stream objects.now pass.old pass.new link.old link.new clock.old clock.new rng.old rng.new (Drains brokers.now subs.now began) result }
    ensures shows { (count : ℕ) → result ≡ Drained.Spent count → ShowsOne brokers.now.inbound (seats_of pass.new) count }
{
    let duty = Duty {
        brokers,
        subs,
        objects,
        began,
    };
    for _taken in 0..TURNS {
        if let Some(how) = drain_once(rt, &duty, pass, link, clock, rng) {
            return how;
        }
    }
    Drained::UsedUp
}

/// What a drain has to do: over which ledgers, and from which moment on.
#[derive(Drop)]
struct Duty<'a, K: Keeper> {
    brokers: &'a Brokers,
    subs: &'a Subs,
    objects: &'a Objects<K>,
    began: Moment,
}

/// Takes one turn of a drain, and pauses up to what will be due soon. `None` where a further turn follows.
fn drain_once<K: Keeper, L: Link, C: Clock, R: Rng, W: Wait>(
    rt: &W,
    duty: &Duty<'_, K>,
    pass: &mut Pass<K>,
    link: &mut L,
    clock: &mut C,
    rng: &mut R,
) -> Option<Drained>
    requires pass { IsPassOf (cells_of duty.now.objects.now) (seats_of pass.old) }
    requires cells { AreOf (cells_of duty.now.objects.now) duty.now.brokers.now duty.now.subs.now }
    ensures does { DoesBy ⟦<Store<K> as ObjectKinds>⟧.kinds L.Link C.Clock R.stream duty.now.objects.now pass.old pass.new link.old link.new clock.old clock.new rng.old rng.new
        (StepsOn (Delivers duty.now.brokers.now duty.now.subs.now) (GoesOn duty.now.began) (Stops duty.now.began)) result }
    ensures shows { (count : ℕ) → result ≡ Some (Drained.Spent count) → ShowsOne duty.now.brokers.now.inbound (seats_of pass.new) count }
{
    let turn = deliver(
        rt,
        duty.brokers,
        duty.subs,
        duty.objects,
        pass,
        link,
        clock,
        rng,
    );
    match next_after(duty.began, turn) {
        Following::Another => None,
        Following::Waiting { due } => {
            pause_until(clock, due);
            None
        }
        Following::End(how) => Some(how),
    }
}

/// What follows a turn of a drain.
#[derive(Clone, Copy)]
enum Following {
    /// A further turn.
    Another,
    /// A further turn, once the moment `due` has come.
    Waiting { due: u64 },
    /// Nothing.
    End(Drained),
}

/// What follows this turn in a drain that began at a moment.
fn next_after(began: Moment, turn: Turn) -> Following
    ensures { IsFollowed began turn result }
{
    match turn {
        Turn::Delivered { .. } => Following::Another,
        Turn::Idle { next } => next_after_idle(began, next),
        Turn::Held => Following::End(Drained::Held),
        Turn::Exhausted { count } => Following::End(Drained::Spent { count }),
    }
}

/// What follows a turn where nothing is due before `next`.
fn next_after_idle(began: Moment, next: Option<u64>) -> Following
    ensures { IsFollowed began (ended.Idle next) result }
{
    match next {
        Some(due) => {
            if due <= began.ms() + SOON_MS {
                Following::Waiting { due }
            } else {
                Following::End(Drained::Done)
            }
        }
        None => Following::End(Drained::Done),
    }
}

/// Pauses the clock by what a moment is past the one that it tells.
fn pause_until<C: Clock>(clock: &mut C, due: u64)
    ensures { Pausing due (clocked C.Clock clock.old) (clocked C.Clock clock.new) }
{
    let last = clock.now();
    clock.pause(due.saturating_sub(last.ms()));
}
