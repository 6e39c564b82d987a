//! A call of the app for a tick of one of the bindings.
ghost use Rattle.std.specs.Prelude.{◌≡◌, ℕ, Err, Some, None, length};
ghost use Rattle.retry_core.specs.Bound.{IsWithinLimit};
ghost use Rattle.turn_cell.specs.declared.error.ApiErr.TheVariants as error;
ghost use Rattle.turn_cell.specs.Sitting.{IsSeatOf};
ghost use Rattle.turn_cell.specs.Passes.{EachSeated};
ghost use Rattle.policy_run.specs.Effects.{AreNone, Draws, times};
ghost use Rattle.link_call.specs.Came.{Calls};
ghost use Rattle.link_call.specs.LinkAt.{links};
ghost use Rattle.cron_bind.specs.Posting.{PostsBy};
ghost use Rattle.sidecar_objects.specs.Pass.{DoesBy, seats_of};
ghost use Rattle.sidecar_turns.specs.Brokers.{HasBreakerOf};
ghost use Rattle.sidecar_turns.specs.Ticking.{PostsFor, ShowsGate};
ghost use Rattle.sidecar_turns.specs.Stepping.{Grows};

use crate::cron::Cron;
use breaker_core::Breaker;
use cron_bind::{Posted, post};
use keeper_core::Keeper;
use policy_run::{BreakerAt, NoBreaker};
use rand_core::Rng;
use side_world::{Clock, Link};
use sidecar_objects::{ObjectKinds, Objects, Pass};
use state_core::Store;
use std::alloc::Global;
use std::sync::Wait;
use turn_cell::{ApiErr, Object, Seat, TurnCell};

/// A call of the app at a port, for a tick of a binding.
#[derive(Clone, Copy)]
pub(crate) struct Call<'a> {
    pub(crate) alloc: Global,
    pub(crate) port: u16,
    pub(crate) cron: &'a Cron,
}

/// Calls the app for a tick of a binding, let through by the breaker that is bound to what comes from it, if one is.
pub(crate) fn post_at<K: Keeper, L: Link, C: Clock, R: Rng, W: Wait>(
    rt: &W,
    call: &Call<'_>,
    objects: &Objects<K>,
    pass: &mut Pass<K>,
    link: &mut L,
    clock: &mut C,
    rng: &mut R,
) -> Result<Posted, ApiErr>
    requires limits { IsWithinLimit call.now.cron.now.bound }
    requires breaker { HasBreakerOf (length objects.now.breakers.items) call.now.cron.now.bound }
    requires breakers { EachSeated objects.now.breakers.items pass.old.breakers.items }
    ensures does { DoesBy ⟦<Store<K> as ObjectKinds>⟧.kinds L.Link C.Clock R.stream objects.now pass.old pass.new link.old link.new clock.old clock.new rng.old rng.new (PostsFor call.now.port call.now.cron.now) result }
    ensures shows { (count : ℕ) → result ≡ Err (error.Exhausted count) → ShowsGate call.now.cron.now.bound (seats_of pass.new) count }
{
    match call.cron.bound.breaker {
        None => plain(rt, call, link, clock, rng),
        Some(k) => gated(
            rt,
            call,
            &objects.breakers[k as usize],
            &mut pass.breakers[k as usize],
            link,
            clock,
            rng,
        ),
    }
}

/// The call without a breaker.
fn plain<L: Link, C: Clock, R: Rng, W: Wait>(
    rt: &W,
    call: &Call<'_>,
    link: &mut L,
    clock: &mut C,
    rng: &mut R,
) -> Result<Posted, ApiErr>
    requires limits { IsWithinLimit call.now.cron.now.bound }
    requires breaker { call.now.cron.now.bound.breaker ≡ None }
    ensures posts { Calls (PostsBy call.now.cron.now.bound call.now.port call.now.cron.now.name result) (links L.Link link.old link.new) AreNone (times C.Clock clock.old clock.new) (Draws R.stream rng.old rng.new) }
    ensures shows { (count : ℕ) → result ≡ Err (error.Exhausted count) → ⊥ }
{
    let cron = call.cron;
    post(
        rt,
        call.alloc,
        &cron.name,
        call.port,
        &cron.bound,
        &mut NoBreaker,
        link,
        clock,
        rng,
    )
}

/// The call behind its breaker.
fn gated<L: Link, C: Clock, R: Rng, W: Wait>(
    rt: &W,
    call: &Call<'_>,
    gate: &TurnCell<Breaker>,
    key: &mut Seat<Breaker>,
    link: &mut L,
    clock: &mut C,
    rng: &mut R,
) -> Result<Posted, ApiErr>
    requires limits { IsWithinLimit call.now.cron.now.bound }
    requires breaker { (k : ℕ) × (call.now.cron.now.bound.breaker ≡ Some k) }
    requires key { IsSeatOf gate.now key.old }
    ensures posts { Calls (PostsBy call.now.cron.now.bound call.now.port call.now.cron.now.name result) (links L.Link link.old link.new) (Grows ⟦<Breaker as Object>⟧ gate.now key.old key.new) (times C.Clock clock.old clock.new) (Draws R.stream rng.old rng.new) }
    ensures shows { (count : ℕ) → result ≡ Err (error.Exhausted count) → key.new.count ≡ Some count }
{
    let mut guard = BreakerAt {
        cell: gate,
        seat: key,
    };
    let cron = call.cron;
    post(
        rt,
        call.alloc,
        &cron.name,
        call.port,
        &cron.bound,
        &mut guard,
        link,
        clock,
        rng,
    )
}
