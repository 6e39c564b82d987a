ghost use Rattle.std.specs.Prelude.{◌≡◌, ◌≤◌, ℕ, List, [], Ok, Err, IfOk, length};
ghost use Rattle.http.specs.StatusCode.{IsStatusCode};
ghost use Rattle.api_routes.specs.declared.route.Route.TheVariants as ways;
ghost use Rattle.side_base.specs.declared.message.Request.{Request as RequestRecord};
ghost use Rattle.turn_cell.specs.declared.error.ApiErr.TheVariants as error;
ghost use Rattle.sidecar_objects.specs.Passes.{IsPassOf};
ghost use Rattle.sidecar_core.specs.declared.config.Config.{Config as ConfigRecord};
ghost use Rattle.sidecar_objects.specs.Pass.{DoesBy, cells_of, seats_of};
ghost use Rattle.sidecar_core.specs.Exchange.{Answered, Replied};
ghost use Rattle.sidecar_core.specs.Shown.{RouteShows, ShownFor};

use crate::Shared;
use crate::actor_request::at_actor;
use crate::actor_state_request::at_actor_state;
use crate::app_request::at_app;
use crate::binding_request::at_binding;
use crate::note_request::{list, put};
use crate::publish_request::at_broker;
use crate::refusing::{bad_escape, no_route, not_allowed};
use crate::state_request::at_store;
use api_routes::{Route, RouteErr};
use keeper_core::Keeper;
use link_call::given;
use meta_api::health;
use rand_core::Rng;
use side_base::{Request, Response};
use side_world::{Clock, Link};
use sidecar_objects::{ObjectKinds, Pass};
use state_core::Store;
use std::alloc::Global;
use std::sync::Wait;
use turn_cell::ApiErr;

/// Answers a request: its route is looked for first, then the name of its component, then its body is judged, and then its steps are made.
///
/// Where there is no memory, or a cell is exhausted, the request has ended early: what was done until then stays done. An exhausted cell is one that this
/// request calls, and its seat shows the count. The status of the response is from 100 to 999.
pub fn respond<K: Keeper, L: Link, C: Clock, R: Rng, W: Wait>(
    rt: &W,
    shared: &Shared<K>,
    pass: &mut Pass<K>,
    request: &Request,
    link: &mut L,
    clock: &mut C,
    rng: &mut R,
) -> Result<Response, ApiErr>
    requires pass { IsPassOf (cells_of shared.now.objects) (seats_of pass.old) }
    ensures exchange { DoesBy ⟦<Store<K> as ObjectKinds>⟧.kinds L.Link C.Clock R.stream shared.now.objects pass.old pass.new link.old link.new clock.old clock.new rng.old rng.new (Replied shared.now.config request.now) result }
    ensures pass { IsPassOf (cells_of shared.now.objects) (seats_of pass.new) }
    ensures shows { (count : ℕ) → result ≡ Err (error.Exhausted count) → ShownFor shared.now.config (seats_of pass.new) request.now count }
    ensures status { IfOk result (λ response. IsStatusCode response.status) }
{
    match shared.route(request) {
        Ok(route) => answer(rt, shared, pass, request, &route, link, clock, rng),
        Err(error) => given_refusal(shared.alloc, error),
    }
}

/// Answers a request of this route.
fn answer<K: Keeper, L: Link, C: Clock, R: Rng, W: Wait>(
    rt: &W,
    shared: &Shared<K>,
    pass: &mut Pass<K>,
    request: &Request,
    route: &Route,
    link: &mut L,
    clock: &mut C,
    rng: &mut R,
) -> Result<Response, ApiErr>
    requires pass { IsPassOf (cells_of shared.now.objects) (seats_of pass.old) }
    requires target { (actor id : List ℕ) → route.now ≡ ways.ActorCall actor id → 13 ≤ length request.now.target }
    ensures does { DoesBy ⟦<Store<K> as ObjectKinds>⟧.kinds L.Link C.Clock R.stream shared.now.objects pass.old pass.new link.old link.new clock.old clock.new rng.old rng.new (Answered shared.now.config request.now (Ok route.now)) result }
    ensures shows { (count : ℕ) → result ≡ Err (error.Exhausted count) → RouteShows shared.now.config (seats_of pass.new) route.now count }
    ensures status { IfOk result (λ response. IsStatusCode response.status) }
{
    match route {
        Route::Save { store }
        | Route::Get { store, .. }
        | Route::Delete { store, .. }
        | Route::Bulk { store }
        | Route::Transact { store } => {
            at_store(rt, shared, pass, request, route, store, clock, rng)
        }
        Route::Invoke { app, rest } => {
            at_app(rt, shared, pass, request, app, rest, link, clock, rng)
        }
        Route::Publish { pubsub, topic } => {
            at_broker(rt, shared, pass, request, pubsub, topic, clock, rng)
        }
        Route::Binding { name } => at_binding(rt, shared, pass, request, name, link, clock, rng),
        Route::Metadata => list(rt, shared, pass),
        Route::SetMetadata { name } => put(rt, shared, pass, name, request.body.bytes()),
        Route::Health | Route::Shutdown => Ok(health(shared.alloc)),
        Route::ActorCall { kind, id } => {
            at_actor(rt, shared, pass, request, kind, id, link, clock)
        }
        Route::ActorGet { kind, id, .. } | Route::ActorChange { kind, id } => {
            at_actor_state(rt, shared, pass, request, route, kind, id, clock, rng)
        }
    }
}

/// Answers a request that has no route.
fn given_refusal(alloc: Global, error: RouteErr) -> Result<Response, ApiErr>
    ensures { (config : ConfigRecord) (request : RequestRecord) → Answered config request (Err error) [] result }
{
    match error {
        RouteErr::NotFound => given(no_route(alloc)),
        RouteErr::MethodNotAllowed { allow } => given(not_allowed(alloc, allow)),
        RouteErr::BadEscape { at } => given(bad_escape(alloc, at)),
        RouteErr::NoMemory => Err(ApiErr::NoMemory),
    }
}
