//! Calls of the methods of apps.
ghost use Rattle.std.specs.Prelude.{◌≡◌, ◌≤◌, ℕ, Some, Err, IfOk};
ghost use Rattle.turn_cell.specs.declared.error.ApiErr.TheVariants as error;
ghost use Rattle.turn_cell.specs.Sitting.{IsSeatOf};
ghost use Rattle.retry_core.specs.Bound.{IsWithinLimit};
ghost use Rattle.policy_spec.specs.Policies as aim;
ghost use Rattle.policy_spec.specs.Policies.{bound_by};
ghost use Rattle.policy_run.specs.Effects.{Draws, times};
ghost use Rattle.link_call.specs.Came.{Calls};
ghost use Rattle.link_call.specs.LinkAt.{links};
ghost use Rattle.invoke_api.specs.Invoking.{InvokesBy};
ghost use Rattle.invoke_api.specs.Places.{call_of};
ghost use Rattle.state_api.specs.Ran.{Grows};
ghost use Rattle.sidecar_objects.specs.Passes.{IsPassOf};
ghost use Rattle.sidecar_objects.specs.Pass.{DoesBy, cells_of, seats_of};
ghost use Rattle.sidecar_core.specs.Called.{AtApp};
ghost use Rattle.sidecar_core.specs.Shown.{BreakerShows};

use crate::Shared;
use breaker_core::Breaker;
use invoke_api::{Peers, invoke};
use keeper_core::Keeper;
use policy_run::{BreakerAt, NoBreaker};
use policy_spec::{Target, bind};
use rand_core::Rng;
use retry_core::Bound;
use side_base::{Blob, Request, Response, Text};
use side_world::{Clock, Link};
use sidecar_objects::{ObjectKinds, Pass};
use state_core::Store;
use std::alloc::Global;
use std::sync::Wait;
use turn_cell::{ApiErr, Object, Seat, TurnCell};

/// Answers a call of a method of an app: it is called under what is bound to it. `rest` is the target behind `method/`.
pub(crate) fn at_app<K: Keeper, L: Link, C: Clock, R: Rng, W: Wait>(
    rt: &W,
    shared: &Shared<K>,
    pass: &mut Pass<K>,
    request: &Request,
    app: &Text,
    rest: &Blob,
    link: &mut L,
    clock: &mut C,
    rng: &mut R,
) -> Result<Response, ApiErr>
    requires pass { IsPassOf (cells_of shared.now.objects) (seats_of pass.old) }
    ensures does { DoesBy ⟦<Store<K> as ObjectKinds>⟧.kinds L.Link C.Clock R.stream shared.now.objects pass.old pass.new link.old link.new clock.old clock.new rng.old rng.new (AtApp shared.now.config request.now app.now rest.now) result }
    ensures shows { (count : ℕ) → result ≡ Err (error.Exhausted count) → BreakerShows (seats_of pass.new) (bound_by shared.now.config.policies (aim.app app.now)) count }
    ensures status { IfOk result (λ response. (200 ≤ response.status) × (response.status ≤ 599)) }
{
    let peers = Peers {
        app: &shared.config.app,
        app_port: shared.config.app_port,
        others: &shared.config.peers,
    };
    let bound = bind(&shared.config.policies, &Target::App { id: app });
    match bound.breaker {
        None => invoke(
            rt,
            shared.alloc,
            peers,
            request,
            app,
            rest,
            &bound,
            &mut NoBreaker,
            link,
            clock,
            rng,
        ),
        Some(k) => gated(
            rt,
            shared.alloc,
            peers,
            request,
            app,
            rest,
            &bound,
            &shared.objects.breakers[k as usize],
            &mut pass.breakers[k as usize],
            link,
            clock,
            rng,
        ),
    }
}

/// The call behind its breaker.
fn gated<L: Link, C: Clock, R: Rng, W: Wait>(
    rt: &W,
    alloc: Global,
    peers: Peers<'_>,
    request: &Request,
    app: &Text,
    rest: &Blob,
    bound: &Bound,
    gate: &TurnCell<Breaker>,
    key: &mut Seat<Breaker>,
    link: &mut L,
    clock: &mut C,
    rng: &mut R,
) -> Result<Response, ApiErr>
    requires limits { IsWithinLimit bound.now }
    requires breaker { (k : ℕ) × (bound.now.breaker ≡ Some k) }
    requires key { IsSeatOf gate.now key.old }
    ensures invokes { Calls (InvokesBy bound.now (call_of peers.entry request.now app.now rest.now) result) (links L.Link link.old link.new) (Grows ⟦<Breaker as Object>⟧ gate.now key.old key.new) (times C.Clock clock.old clock.new) (Draws R.stream rng.old rng.new) }
    ensures shows { (count : ℕ) → result ≡ Err (error.Exhausted count) → key.new.count ≡ Some count }
    ensures status { IfOk result (λ response. (200 ≤ response.status) × (response.status ≤ 599)) }
{
    let mut guard = BreakerAt {
        cell: gate,
        seat: key,
    };
    invoke(
        rt, alloc, peers, request, app, rest, bound, &mut guard, link, clock, rng,
    )
}
