ghost use Rattle.std.specs.Prelude.{◌≡◌, ◌<◌, ℕ, All, length};
ghost use Rattle.ledger_core.specs.Ledger.{plans_of};
ghost use Rattle.sidecar_core.specs.Plans.{plans_in};
ghost use Rattle.sidecar_turns.specs.Brokers.{HaveBreakers};
ghost use Rattle.cron_ticks.specs.Ticks.{schedule_of};
ghost use Rattle.sidecar_turns.specs.Crons.{HaveGates, periods_of};
ghost use Rattle.sidecar_core.specs.Delivery.{brokers_in, crons_in};
ghost use mathlib.Core.Option.{some};
ghost use lib.ListN.{get_elem?};
ghost use Rattle.sidecar_core.specs.Site.{Site};
ghost use Rattle.sidecar_turns.specs.Brokers.{brokers_of};
ghost use Rattle.sidecar_core.specs.Sites.{sites_of, notes_of, sub_notes_of, HasBreakerOf};

use crate::{Config, StoreSite};
use api_routes::{Route, RouteErr, Routers};
use keeper_core::Keeper;
use meta_api::{ComponentNotes, SubscriptionNotes};
use side_base::{Request, Text};
use sidecar_objects::Objects;
use sidecar_turns::{Brokers, Crons};
use std::alloc::Global;

/// What all passes share: the configuration, and a cell for each store, each ledger, each breaker, for the book of metadata, for the turns of
/// actors and for the ticks of input bindings.
#[derive(Drop)]
pub struct Shared<K: Keeper> {
    pub config: Config,
    pub objects: Objects<K>,
    pub(crate) alloc: Global,
    pub(crate) routers: Routers,
    /// The stores, at the places of their cells.
    pub(crate) sites: Vec<StoreSite>,
    /// What deliveries need of the brokers.
    pub(crate) brokers: Brokers,
    /// What ticks need of the cron components.
    pub(crate) crons: Crons,
    /// The components, as metadata tells them.
    pub(crate) notes: ComponentNotes,
    /// The subscriptions, as metadata tells them.
    pub(crate) sub_notes: SubscriptionNotes,
    ghost has_sites: { sites.items ≡ sites_of config },
    ghost has_notes: { notes ≡ notes_of config },
    ghost has_sub_notes: { sub_notes ≡ sub_notes_of config },
    ghost has_brokers: { brokers ≡ brokers_in config },
    ghost has_crons: { crons ≡ crons_in config },
    ghost stores: { length objects.stores.items ≡ length sites.items },
    ghost ledgers: { length objects.ledgers.items ≡ length (brokers_of config.components) },
    ghost plans: { All (λ cell. plans_of cell.first ≡ plans_in config) objects.ledgers.items },
    ghost breakers: { length objects.breakers.items ≡ length config.policies.breakers },
    ghost inbound: { HaveBreakers (length config.policies.breakers) brokers.inbound },
    ghost periods: { (schedule_of objects.ticks.first).periods ≡ periods_of config.components },
    ghost gates: { HaveGates (length config.policies.breakers) crons.crons },
    ghost bounds: { (k : ℕ) (site : Site) → get_elem? sites.items k ≡ some site → HasBreakerOf (length config.policies.breakers) site.bound },
}

impl<K: Keeper> Shared<K> {
    ghost use Rattle.std.specs.Prelude.{◌≡◌};
    ghost use Rattle.api_routes.specs.Route.{Answers};
    ghost use Rattle.sidecar_core.specs.Sites.{place_named, sites_of};

    /// The route of a request.
    pub(crate) fn route(&self, request: &Request) -> Result<Route, RouteErr>
        ensures { Answers request.now.method request.now.target result }
    {
        self.routers
            .route(self.alloc, request.method, request.target.bytes())
    }

    /// The place of the store of this name.
    pub(crate) fn place_of(&self, name: &Text) -> Option<usize>
        ensures { result ≡ place_named name.now (sites_of self.now.config) }
    {
        self.sites
            .iter()
            .position(|site| site.name().bytes() == name.bytes())
    }
}
