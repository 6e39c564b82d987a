//! Requests of the state API, at the store of their name.
ghost use Rattle.std.specs.Prelude.{◌≡◌, ◌<◌, ℕ, length, Some, Err};
ghost use Rattle.turn_cell.specs.declared.error.ApiErr.TheVariants as error;
ghost use Rattle.state_core.specs.Taken.{IsTaken};
ghost use Rattle.state_api.specs.Asked.{Asks, IsState};
ghost use Rattle.state_api.specs.Response.{IsCut};
ghost use Rattle.retry_core.specs.Bound.{IsWithinLimit};
ghost use Rattle.sidecar_objects.specs.Passes.{IsPassOf};
ghost use Rattle.sidecar_objects.specs.Pass.{DoesUncalled, cells_of, seats_of};
ghost use Rattle.sidecar_core.specs.Exchange.{AtSite, AtStore, Called, FaultGives, store_in};
ghost use Rattle.sidecar_core.specs.Ran.{IsShown};
ghost use Rattle.sidecar_core.specs.Shown.{StoreShows};
ghost use Rattle.sidecar_core.specs.Sites.{HasBreakerOf};

use crate::refusing::no_store;
use crate::storing::run_store;
use crate::{Shared, StoreSite};
use api_routes::Route;
use keeper_core::Keeper;
use link_call::given;
use rand_core::Rng;
use retry_core::Bound;
use side_base::{Request, Response, Text};
use side_world::Clock;
use sidecar_objects::{ObjectKinds, Pass};
use state_api::laws::the_moment_changes_no_response;
use state_api::{StateErr, command, malformed_response, response};
use state_core::{Cmd, Store};
use std::alloc::Global;
use std::sync::Wait;
use turn_cell::ApiErr;

/// Answers a request of the state API: the store of its name is looked for first.
pub(crate) fn at_store<K: Keeper, C: Clock, R: Rng, W: Wait>(
    rt: &W,
    shared: &Shared<K>,
    pass: &mut Pass<K>,
    request: &Request,
    route: &Route,
    name: &Text,
    clock: &mut C,
    rng: &mut R,
) -> Result<Response, ApiErr>
    requires pass { IsPassOf (cells_of shared.now.objects) (seats_of pass.old) }
    requires store { store_in route.now ≡ Some name.now }
    ensures does { DoesUncalled ⟦<Store<K> as ObjectKinds>⟧.kinds C.Clock R.stream shared.now.objects pass.old pass.new clock.old clock.new rng.old rng.new (AtStore shared.now.config request.now route.now name.now) result }
    ensures shows { (count : ℕ) → result ≡ Err (error.Exhausted count) → StoreShows shared.now.config (seats_of pass.new) name.now count }
{
    match shared.place_of(name) {
        None => given(no_store(shared.alloc, name)),
        Some(place) => at_site(
            rt,
            shared,
            pass,
            place,
            &shared.sites[place],
            request,
            route,
            clock,
            rng,
        ),
    }
}

/// Answers a request of the state API at the store of this place.
fn at_site<K: Keeper, C: Clock, R: Rng, W: Wait>(
    rt: &W,
    shared: &Shared<K>,
    pass: &mut Pass<K>,
    place: usize,
    site: &StoreSite,
    request: &Request,
    route: &Route,
    clock: &mut C,
    rng: &mut R,
) -> Result<Response, ApiErr>
    requires pass { IsPassOf (cells_of shared.now.objects) (seats_of pass.old) }
    requires place { place < length shared.now.objects.stores.items }
    requires breaker { HasBreakerOf (length shared.now.objects.breakers.items) site.now.bound }
    requires state { IsState route.now }
    ensures does { DoesUncalled ⟦<Store<K> as ObjectKinds>⟧.kinds C.Clock R.stream shared.now.objects pass.old pass.new clock.old clock.new rng.old rng.new (AtSite (Asks site.now.prefix request.now route.now) place site.now.bound) result }
    ensures shows { (count : ℕ) → result ≡ Err (error.Exhausted count) → IsShown place site.now.bound pass.new.stores.items pass.new.breakers.items count }
{
    match command(shared.alloc, route, request, site.prefix()) {
        Ok(mut cmd) => call(rt, shared, pass, place, site.bound(), &mut cmd, clock, rng),
        Err(error) => given_fault(shared.alloc, error),
    }
}

/// Gives a command to the store of this place, under what is bound to it, and answers what it came to.
pub(crate) fn call<K: Keeper, C: Clock, R: Rng, W: Wait>(
    rt: &W,
    shared: &Shared<K>,
    pass: &mut Pass<K>,
    place: usize,
    bound: &Bound,
    cmd: &mut Cmd,
    clock: &mut C,
    rng: &mut R,
) -> Result<Response, ApiErr>
    requires pass { IsPassOf (cells_of shared.now.objects) (seats_of pass.old) }
    requires place { place < length shared.now.objects.stores.items }
    requires limits { IsWithinLimit bound.now }
    requires breaker { HasBreakerOf (length shared.now.objects.breakers.items) bound.now }
    requires taken { IsTaken cmd.old }
    requires cut { IsCut cmd.old }
    ensures does { DoesUncalled ⟦<Store<K> as ObjectKinds>⟧.kinds C.Clock R.stream shared.now.objects pass.old pass.new clock.old clock.new rng.old rng.new (Called place bound.now cmd.old) result }
    ensures shows { (count : ℕ) → result ≡ Err (error.Exhausted count) → IsShown place bound.now pass.new.stores.items pass.new.breakers.items count }
{
    the_moment_changes_no_response();
    match run_store(rt, &shared.objects, pass, place, bound, cmd, clock, rng) {
        Ok(ran) => given(response(shared.alloc, cmd, ran)),
        Err(error) => Err(error),
    }
}

/// Answers a request that gives no command.
pub(crate) fn given_fault(alloc: Global, error: StateErr) -> Result<Response, ApiErr>
    ensures { FaultGives error result }
{
    match error {
        StateErr::Malformed { what } => given(malformed_response(alloc, what)),
        StateErr::NoMemory => Err(ApiErr::NoMemory),
    }
}
