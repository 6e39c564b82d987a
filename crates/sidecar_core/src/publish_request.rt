//! Requests to publish.
ghost use Rattle.std.specs.Prelude.{◌≡◌, ◌≤◌, ◌<◌, ℕ, Err, IfOk, length};
ghost use Rattle.turn_cell.specs.declared.error.ApiErr.TheVariants as error;
ghost use Rattle.sidecar_objects.specs.Passes.{IsPassOf};
ghost use Rattle.sidecar_objects.specs.Pass.{DoesUncalled, cells_of, seats_of};
ghost use Rattle.sidecar_objects.specs.Shown.{ShowsAt};
ghost use Rattle.sidecar_core.specs.Called.{AtBroker, AtLedger};
ghost use Rattle.sidecar_core.specs.Shown.{LedgerShows};

use crate::Shared;
use keeper_core::Keeper;
use link_call::given;
use pubsub_api::{Publication, publish, unknown_pubsub};
use rand_core::Rng;
use resource_spec::Component;
use side_base::{Request, Response, Text};
use side_world::Clock;
use sidecar_objects::{ObjectKinds, Pass};
use state_core::Store;
use std::sync::Wait;
use turn_cell::ApiErr;

/// Answers a request to publish to a topic: the pub/sub component of its name is looked for first.
pub(crate) fn at_broker<K: Keeper, C: Clock, R: Rng, W: Wait>(
    rt: &W,
    shared: &Shared<K>,
    pass: &mut Pass<K>,
    request: &Request,
    name: &Text,
    topic: &Text,
    clock: &mut C,
    rng: &mut R,
) -> Result<Response, ApiErr>
    requires pass { IsPassOf (cells_of shared.now.objects) (seats_of pass.old) }
    ensures does { DoesUncalled ⟦<Store<K> as ObjectKinds>⟧.kinds C.Clock R.stream shared.now.objects pass.old pass.new clock.old clock.new rng.old rng.new (AtBroker shared.now.config request.now name.now topic.now) result }
    ensures shows { (count : ℕ) → result ≡ Err (error.Exhausted count) → LedgerShows shared.now.config (seats_of pass.new) name.now count }
    ensures status { IfOk result (λ response. (200 ≤ response.status) × (response.status ≤ 599)) }
{
    match shared.broker_named(name) {
        Some(place) => at_ledger(
            rt,
            shared,
            pass,
            request,
            shared.config.components.at(place),
            topic,
            shared.ledger_of(place),
            clock,
            rng,
        ),
        None => given(unknown_pubsub(shared.alloc, name)),
    }
}

/// Publishes to a topic of a component, whose ledger stands at this place.
fn at_ledger<K: Keeper, C: Clock, R: Rng, W: Wait>(
    rt: &W,
    shared: &Shared<K>,
    pass: &mut Pass<K>,
    request: &Request,
    component: &Component,
    topic: &Text,
    ledger: usize,
    clock: &mut C,
    rng: &mut R,
) -> Result<Response, ApiErr>
    requires pass { IsPassOf (cells_of shared.now.objects) (seats_of pass.old) }
    requires ledger { ledger < length shared.now.objects.ledgers.items }
    ensures does { DoesUncalled ⟦<Store<K> as ObjectKinds>⟧.kinds C.Clock R.stream shared.now.objects pass.old pass.new clock.old clock.new rng.old rng.new (AtLedger shared.now.config request.now component.now topic.now ledger) result }
    ensures shows { (count : ℕ) → result ≡ Err (error.Exhausted count) → ShowsAt ledger count pass.new.ledgers.items }
    ensures status { IfOk result (λ response. (200 ≤ response.status) × (response.status ≤ 599)) }
{
    let what = Publication {
        request,
        component,
        topic,
        app: &shared.config.app,
        subs: &shared.config.subs,
    };
    publish(
        rt,
        shared.alloc,
        &what,
        &shared.objects.ledgers[ledger],
        &mut pass.ledgers[ledger],
        clock,
        rng,
    )
}
