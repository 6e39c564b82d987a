//! Requests to output bindings.
ghost use Rattle.std.specs.Prelude.{◌≡◌, ◌≤◌, ℕ, Some, Err, IfOk};
ghost use Rattle.turn_cell.specs.declared.error.ApiErr.TheVariants as error;
ghost use Rattle.resource_spec.specs.declared.component.ComponentKind.TheVariants as kinds;
ghost use Rattle.turn_cell.specs.Sitting.{IsSeatOf};
ghost use Rattle.retry_core.specs.Bound.{IsWithinLimit};
ghost use Rattle.policy_spec.specs.Policies as aim;
ghost use Rattle.policy_spec.specs.Policies.{bound_by};
ghost use Rattle.policy_run.specs.Effects.{Draws, times};
ghost use Rattle.link_call.specs.Came.{Calls};
ghost use Rattle.link_call.specs.LinkAt.{links};
ghost use Rattle.bind_api.specs.Binding.{BindsBy};
ghost use Rattle.state_api.specs.Ran.{Grows};
ghost use Rattle.sidecar_objects.specs.Passes.{IsPassOf};
ghost use Rattle.sidecar_objects.specs.Pass.{DoesBy, cells_of, seats_of};
ghost use Rattle.sidecar_core.specs.Called.{AtBinding, AtService};
ghost use Rattle.sidecar_core.specs.Shown.{BreakerShows};

use crate::Shared;
use bind_api::{invoke, unknown_binding};
use breaker_core::Breaker;
use keeper_core::Keeper;
use link_call::given;
use policy_run::{BreakerAt, NoBreaker};
use policy_spec::{Target, bind};
use rand_core::Rng;
use resource_spec::Component;
use retry_core::Bound;
use side_base::{Request, Response, Text};
use side_world::{Clock, Link};
use sidecar_objects::{ObjectKinds, Pass};
use state_core::Store;
use std::alloc::Global;
use std::sync::Wait;
use turn_cell::{ApiErr, Object, Seat, TurnCell};

/// Answers a request to an output binding: the component of its name is looked for first.
pub(crate) fn at_binding<K: Keeper, L: Link, C: Clock, R: Rng, W: Wait>(
    rt: &W,
    shared: &Shared<K>,
    pass: &mut Pass<K>,
    request: &Request,
    name: &Text,
    link: &mut L,
    clock: &mut C,
    rng: &mut R,
) -> Result<Response, ApiErr>
    requires pass { IsPassOf (cells_of shared.now.objects) (seats_of pass.old) }
    ensures does { DoesBy ⟦<Store<K> as ObjectKinds>⟧.kinds L.Link C.Clock R.stream shared.now.objects pass.old pass.new link.old link.new clock.old clock.new rng.old rng.new (AtBinding shared.now.config request.now name.now) result }
    ensures shows { (count : ℕ) → result ≡ Err (error.Exhausted count) → BreakerShows (seats_of pass.new) (bound_by shared.now.config.policies (aim.outbound name.now)) count }
    ensures status { IfOk result (λ response. (200 ≤ response.status) × (response.status ≤ 599)) }
{
    match shared.binding_named(name) {
        Some(place) => at_service(
            rt,
            shared,
            pass,
            request,
            name,
            shared.config.components.at(place),
            link,
            clock,
            rng,
        ),
        None => given(unknown_binding(shared.alloc, name)),
    }
}

/// Calls the service at the address of the component of this name, under what is bound to what is sent to it.
fn at_service<K: Keeper, L: Link, C: Clock, R: Rng, W: Wait>(
    rt: &W,
    shared: &Shared<K>,
    pass: &mut Pass<K>,
    request: &Request,
    name: &Text,
    component: &Component,
    link: &mut L,
    clock: &mut C,
    rng: &mut R,
) -> Result<Response, ApiErr>
    requires pass { IsPassOf (cells_of shared.now.objects) (seats_of pass.old) }
    requires kind { component.now.kind ≡ kinds.BindingHttp }
    ensures does { DoesBy ⟦<Store<K> as ObjectKinds>⟧.kinds L.Link C.Clock R.stream shared.now.objects pass.old pass.new link.old link.new clock.old clock.new rng.old rng.new (AtService shared.now.config request.now name.now component.now) result }
    ensures shows { (count : ℕ) → result ≡ Err (error.Exhausted count) → BreakerShows (seats_of pass.new) (bound_by shared.now.config.policies (aim.outbound name.now)) count }
    ensures status { IfOk result (λ response. (200 ≤ response.status) × (response.status ≤ 599)) }
{
    let bound = bind(&shared.config.policies, &Target::Outbound { name });
    match bound.breaker {
        None => invoke(
            rt,
            shared.alloc,
            component,
            request,
            &bound,
            &mut NoBreaker,
            link,
            clock,
            rng,
        ),
        Some(k) => gated(
            rt,
            shared.alloc,
            component,
            request,
            &bound,
            &shared.objects.breakers[k as usize],
            &mut pass.breakers[k as usize],
            link,
            clock,
            rng,
        ),
    }
}

/// The call behind its breaker.
fn gated<L: Link, C: Clock, R: Rng, W: Wait>(
    rt: &W,
    alloc: Global,
    component: &Component,
    request: &Request,
    bound: &Bound,
    gate: &TurnCell<Breaker>,
    key: &mut Seat<Breaker>,
    link: &mut L,
    clock: &mut C,
    rng: &mut R,
) -> Result<Response, ApiErr>
    requires kind { component.now.kind ≡ kinds.BindingHttp }
    requires limits { IsWithinLimit bound.now }
    requires breaker { (k : ℕ) × (bound.now.breaker ≡ Some k) }
    requires key { IsSeatOf gate.now key.old }
    ensures binds { Calls (BindsBy bound.now component.now request.now result) (links L.Link link.old link.new) (Grows ⟦<Breaker as Object>⟧ gate.now key.old key.new) (times C.Clock clock.old clock.new) (Draws R.stream rng.old rng.new) }
    ensures shows { (count : ℕ) → result ≡ Err (error.Exhausted count) → key.new.count ≡ Some count }
    ensures status { IfOk result (λ response. (200 ≤ response.status) × (response.status ≤ 599)) }
{
    let mut guard = BreakerAt {
        cell: gate,
        seat: key,
    };
    invoke(
        rt, alloc, component, request, bound, &mut guard, link, clock, rng,
    )
}
