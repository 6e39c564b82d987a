//! Requests of the state of actors, at the store of actors.
ghost use Rattle.std.specs.Prelude.{◌≡◌, ◌<◌, ℕ, length, Err};
ghost use Rattle.turn_cell.specs.declared.error.ApiErr.TheVariants as error;
ghost use Rattle.state_api.specs.Asked.{AsksActor, IsActorState};
ghost use Rattle.sidecar_objects.specs.Passes.{IsPassOf};
ghost use Rattle.sidecar_objects.specs.Pass.{DoesUncalled, cells_of, seats_of};
ghost use Rattle.sidecar_core.specs.Exchange.{AtActorState, AtSite};
ghost use Rattle.sidecar_core.specs.Ran.{IsShown};
ghost use Rattle.sidecar_core.specs.Shown.{ActorStoreShows};
ghost use Rattle.sidecar_core.specs.Sites.{HasBreakerOf};

use crate::choosing::actor_store;
use crate::naming::names_an_actor;
use crate::refusing::{bad_actor, no_actor_store};
use crate::state_request::{call, given_fault};
use crate::{Shared, StoreSite};
use api_routes::Route;
use keeper_core::Keeper;
use link_call::given;
use rand_core::Rng;
use side_base::{Request, Response, Text};
use side_world::Clock;
use sidecar_objects::{ObjectKinds, Pass};
use state_api::actor_command;
use state_core::Store;
use std::sync::Wait;
use turn_cell::ApiErr;

/// Answers a request of the state of an actor, if no bar stands in its kind and its id: the store of actors is looked for first.
pub(crate) fn at_actor_state<K: Keeper, C: Clock, R: Rng, W: Wait>(
    rt: &W,
    shared: &Shared<K>,
    pass: &mut Pass<K>,
    request: &Request,
    route: &Route,
    kind: &Text,
    id: &Text,
    clock: &mut C,
    rng: &mut R,
) -> Result<Response, ApiErr>
    requires pass { IsPassOf (cells_of shared.now.objects) (seats_of pass.old) }
    requires state { IsActorState route.now }
    ensures does { DoesUncalled ⟦<Store<K> as ObjectKinds>⟧.kinds C.Clock R.stream shared.now.objects pass.old pass.new clock.old clock.new rng.old rng.new (AtActorState shared.now.config request.now route.now kind.now id.now) result }
    ensures shows { (count : ℕ) → result ≡ Err (error.Exhausted count) → ActorStoreShows shared.now.config (seats_of pass.new) count }
{
    if !names_an_actor(kind, id) {
        return given(bad_actor(shared.alloc));
    }
    match actor_store(&shared.config.components) {
        None => given(no_actor_store(shared.alloc)),
        Some(place) => at_actor_site(
            rt,
            shared,
            pass,
            place,
            &shared.sites[place],
            request,
            route,
            clock,
            rng,
        ),
    }
}

/// Answers a request of the state of an actor at the store of this place.
fn at_actor_site<K: Keeper, C: Clock, R: Rng, W: Wait>(
    rt: &W,
    shared: &Shared<K>,
    pass: &mut Pass<K>,
    place: usize,
    site: &StoreSite,
    request: &Request,
    route: &Route,
    clock: &mut C,
    rng: &mut R,
) -> Result<Response, ApiErr>
    requires pass { IsPassOf (cells_of shared.now.objects) (seats_of pass.old) }
    requires place { place < length shared.now.objects.stores.items }
    requires breaker { HasBreakerOf (length shared.now.objects.breakers.items) site.now.bound }
    requires state { IsActorState route.now }
    ensures does { DoesUncalled ⟦<Store<K> as ObjectKinds>⟧.kinds C.Clock R.stream shared.now.objects pass.old pass.new clock.old clock.new rng.old rng.new (AtSite (AsksActor shared.now.config.app request.now route.now) place site.now.bound) result }
    ensures shows { (count : ℕ) → result ≡ Err (error.Exhausted count) → IsShown place site.now.bound pass.new.stores.items pass.new.breakers.items count }
{
    match actor_command(shared.alloc, route, request, &shared.config.app) {
        Ok(mut cmd) => call(rt, shared, pass, place, site.bound(), &mut cmd, clock, rng),
        Err(error) => given_fault(shared.alloc, error),
    }
}
