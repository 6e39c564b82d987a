ghost use Rattle.std.specs.Prelude.{◌≡◌, ◌<◌, ◌≤◌, ◌+◌, ◌++◌, ◌∷◌, [], length, map, All, IfOk, OnOk, option_map};
ghost use Rattle.std.specs.Option.{ForSome};
ghost use Rattle.retry_core.specs.BreakerPolicy.{IsWithinLimit};
ghost use Rattle.turn_cell.specs.Sitting.{root_of};
ghost use Rattle.state_core.specs.Store.{keeper_of};
ghost use Rattle.retry_core.specs.RetryPolicy.{IsWithinLimit as IsRetryWithinLimit};
ghost use Rattle.ledger_core.specs.Plan.{AreWithinLimit};
ghost use Rattle.ledger_core.specs.Ledger.{plans_of};
ghost use Rattle.breaker_core.specs.Breaker.{policy_of};
ghost use Rattle.meta_api.specs.Notes.{pairs_of};
ghost use Rattle.sidecar_turns.specs.Brokers.{HaveBreakers as HaveInbound};
ghost use Rattle.sidecar_turns.specs.Crons.{HaveGates};
ghost use Rattle.sidecar_core.specs.Delivery.{brokers_in, crons_in};
ghost use Rattle.sidecar_core.specs.Plans.{plan_of, plans_in};
ghost use Rattle.sidecar_turns.specs.Brokers.{is_broker, brokers_of};
ghost use Rattle.sidecar_core.specs.Sites.{HasBreakerOf, HaveBreakers, is_store, notes_of, note_of, site_of, sites_of, stores_of, sub_note_of, sub_notes_of};
ghost use Rattle.sidecar_objects.specs.Passes.{IsPassOf, IsLone, IsSoundPass};
ghost use Rattle.sidecar_objects.specs.Pass.{cells_of, seats_of};
ghost use Rattle.sidecar_core.specs.Started.{IsStarted, IsRoomFor};

use crate::{Config, Room, Shared, StoreSite};
use actor_turns::Turns;
use api_routes::Routers;
use breaker_core::Breaker;
use cron_ticks::Ticks;
use keeper_core::Keeper;
use ledger_core::{Ledger, Plan, Plans};
use meta_api::{ComponentNote, ComponentNotes, Notes, SubscriptionNote, SubscriptionNotes};
use policy_spec::{BreakerPolicies, Policies, Target, bind, breakers};
use resource_spec::{Component, ComponentKind, Components};
use side_base::{Moment, NoMemory, Text};
use sidecar_objects::{ObjectKinds, Objects, Pass};
use sidecar_turns::{Brokers, Crons, periods_of};
use state_core::{Prefix, Store};
use std::alloc::Global;
use topic_spec::{Sub, Subs};
use turn_cell::Object;

impl<K: Keeper> Shared<K> {
    /// Starts all objects of a configuration, with one keeper for each state component, in their order: a ledger for each pub/sub component, with
    /// the plans of all subscriptions, a breaker for each target that names one, an empty book of metadata, turns without a
    /// ticket, and ticks of the cron components, in their order, which are counted from the moment `start` on. The pass is that of the root seats, and is alone. The room is for `close`.
    ///
    /// Without memory the keepers are dropped.
    pub fn start(
        alloc: Global,
        config: Config,
        keepers: Vec<K>,
        start: Moment,
    ) -> Result<(Shared<K>, Pass<K>, Room<K>), NoMemory>
        requires { length keepers.items ≡ length (stores_of config.components) }
        ensures started { IfOk result (λ made. IsStarted config keepers.items start made.0.config made.0.objects made.1) }
        ensures pass { IfOk result (λ made. IsPassOf (cells_of made.0.objects) (seats_of made.1)) }
        ensures lone { IfOk result (λ made. IsLone (cells_of made.0.objects) (seats_of made.1)) }
        ensures sound { IfOk result (λ made. IsSoundPass ⟦<Store<K> as ObjectKinds>⟧.kinds (cells_of made.0.objects) (seats_of made.1)) }
        ensures room { IfOk result (λ made. IsRoomFor (length made.0.objects.stores.items) made.2) }
    {
        let room = room_for(alloc, keepers.len())?;
        let tables = tables_for(alloc, &config)?;
        let (objects, pass) = objects_for(alloc, &config, keepers, start)?;
        let Tables {
            routers,
            sites,
            brokers,
            crons,
            notes,
            sub_notes,
        } = tables;
        let shared = Shared {
            config,
            objects,
            alloc,
            routers,
            sites,
            brokers,
            crons,
            notes,
            sub_notes,
        };
        Ok((shared, pass, room))
    }
}

/// What requests find of a configuration.
#[derive(Drop)]
struct Tables {
    routers: Routers,
    sites: Vec<StoreSite>,
    brokers: Brokers,
    crons: Crons,
    notes: ComponentNotes,
    sub_notes: SubscriptionNotes,
}

/// What requests find of a configuration, made of it.
fn tables_for(alloc: Global, config: &Config) -> Result<Tables, NoMemory>
    ensures sites { IfOk result (λ tables. tables.sites.items ≡ sites_of config.now) }
    ensures bounds { IfOk result (λ tables. HaveBreakers config.now tables.sites.items) }
    ensures brokers { IfOk result (λ tables. tables.brokers ≡ brokers_in config.now) }
    ensures inbound { IfOk result (λ tables. HaveInbound (length config.now.policies.breakers) tables.brokers.inbound) }
    ensures crons { IfOk result (λ tables. tables.crons ≡ crons_in config.now) }
    ensures gates { IfOk result (λ tables. HaveGates (length config.now.policies.breakers) tables.crons.crons) }
    ensures notes { IfOk result (λ tables. tables.notes ≡ notes_of config.now) }
    ensures sub_notes { IfOk result (λ tables. tables.sub_notes ≡ sub_notes_of config.now) }
{
    let sites = sites_for(alloc, config)?;
    let brokers = Brokers::new(alloc, config.app_port, &config.components, &config.policies)?;
    let crons = Crons::new(alloc, config.app_port, &config.components, &config.policies)?;
    let notes = notes_for(alloc, &config.components)?;
    let sub_notes = sub_notes_for(alloc, &config.subs)?;
    let routers = Routers::new(alloc)?;
    Ok(Tables {
        routers,
        sites,
        brokers,
        crons,
        notes,
        sub_notes,
    })
}

/// The cells of all objects of a configuration, and the pass of their root seats.
fn objects_for<K: Keeper>(
    alloc: Global,
    config: &Config,
    keepers: Vec<K>,
    start: Moment,
) -> Result<(Objects<K>, Pass<K>), NoMemory>
    ensures started { IfOk result (λ made. IsStarted config.now keepers.items start config.now made.0 made.1) }
    ensures sound { IfOk result (λ made. IsSoundPass ⟦<Store<K> as ObjectKinds>⟧.kinds (cells_of made.0) (seats_of made.1)) }
{
    let ledgers = ledgers_for(alloc, config)?;
    let breakers = breakers_for(alloc, breakers(&config.policies))?;
    let stores = stores_for(alloc, keepers)?;
    let periods = periods_of(alloc, &config.components)?;
    let (objects, pass) = Objects::start(
        alloc,
        stores,
        ledgers,
        breakers,
        Notes::new(alloc),
        Turns::new(alloc),
        Ticks::new(periods, start),
    )?;
    Ok((objects, pass))
}

/// Room for the end of so many stores.
fn room_for<K: Keeper>(alloc: Global, stores: usize) -> Result<Room<K>, NoMemory>
    ensures { IfOk result (IsRoomFor stores) }
{
    let closed = Vec::with_capacity(alloc, stores)?;
    let kept = Vec::with_capacity(alloc, stores)?;
    Ok(Room { closed, kept })
}

/// How many state components there are: as many keepers as `Shared::start` takes. Takes no memory.
pub fn count_of_stores(components: &Components) -> usize
    ensures { result ≡ length (stores_of components.now) }
{
    let mut count = 0;
    for place in 0..components.len() {
        count += count_of(components.at(place));
    }
    count
}

/// 1 for a store, and 0 for another component.
pub(crate) fn count_of(component: &Component) -> usize
    ensures exact { result ≡ length (stores_of (component.now ∷ [])) }
    ensures within { result ≤ 1 }
{
    if is_store(component.kind()) { 1 } else { 0 }
}

/// The stores of a configuration, as requests find them.
fn sites_for(alloc: Global, config: &Config) -> Result<Vec<StoreSite>, NoMemory>
    ensures exact { IfOk result (λ sites. sites.items ≡ sites_of config.now) }
    ensures bounds { IfOk result (λ sites. HaveBreakers config.now sites.items) }
{
    let mut sites = Vec::new(alloc);
    for place in 0..config.components.len() {
        add_site(config, config.components.at(place), &mut sites)?;
    }
    Ok(sites)
}

/// Adds a component to the stores, if it is one.
fn add_site(
    config: &Config,
    component: &Component,
    sites: &mut Vec<StoreSite>,
) -> Result<(), NoMemory>
    ensures added { OnOk result (sites.new.items ≡ sites.old.items ++ map (site_of config.now) (stores_of (component.now ∷ []))) }
    ensures bounds { OnOk result (HaveBreakers config.now sites.old.items → HaveBreakers config.now sites.new.items) }
{
    if !is_store(component.kind()) {
        return Ok(());
    }
    sites.push(site_for(config, component)?)?;
    Ok(())
}

/// A store, as requests find it.
fn site_for(config: &Config, component: &Component) -> Result<StoreSite, NoMemory>
    ensures exact { IfOk result (λ site. site ≡ site_of config.now component.now) }
    ensures bound { IfOk result (λ site. HasBreakerOf (length config.now.policies.breakers) site.bound) }
{
    let name = component.name();
    let text = copied(component.key_prefix(&config.app))?;
    let bound = bind(&config.policies, &Target::Outbound { name });
    Ok(StoreSite::new(name.copy()?, Prefix { text }, bound))
}

/// A copy of a text, if there is one.
fn copied(text: Option<&Text>) -> Result<Option<Text>, NoMemory>
    ensures { IfOk result (λ copy. copy ≡ option_map (λ t. t.now) text.entry) }
{
    match text {
        Some(text) => Ok(Some(text.copy()?)),
        None => Ok(None),
    }
}

/// Whether it is a store.
pub(crate) fn is_store(kind: ComponentKind) -> bool
    ensures { result ≡ is_store kind }
{
    match kind {
        ComponentKind::StateMemory | ComponentKind::StateJournal => true,
        ComponentKind::PubsubMemory | ComponentKind::BindingHttp | ComponentKind::BindingCron =>
            false,
    }
}

/// Whether it is a broker.
pub(crate) fn is_broker(kind: ComponentKind) -> bool
    ensures { result ≡ is_broker kind }
{
    match kind {
        ComponentKind::PubsubMemory => true,
        ComponentKind::StateMemory
        | ComponentKind::StateJournal
        | ComponentKind::BindingHttp
        | ComponentKind::BindingCron => { false }
    }
}

/// What metadata tells of the components.
fn notes_for(alloc: Global, components: &Components) -> Result<ComponentNotes, NoMemory>
    ensures { IfOk result (λ notes. notes ≡ map note_of components.now) }
{
    let mut notes = ComponentNotes::new(alloc);
    for place in 0..components.len() {
        notes.push(note_for(alloc, components.at(place))?)?;
    }
    Ok(notes)
}

/// What metadata tells of a component.
fn note_for(alloc: Global, component: &Component) -> Result<ComponentNote, NoMemory>
    ensures { IfOk result (λ note. note ≡ note_of component.now) }
{
    Ok(ComponentNote {
        name: component.name().copy()?,
        kind: Text::from_static(alloc, component.kind().name()),
        version: component.version().copy()?,
    })
}

/// A store over each keeper.
fn stores_for<K: Keeper>(alloc: Global, keepers: Vec<K>) -> Result<Vec<Store<K>>, NoMemory>
    ensures keepers { IfOk result (λ stores. map keeper_of stores.items ≡ keepers.items) }
    ensures unused { IfOk result (λ stores. All (λ store. ⟦<Store<K> as Object>⟧.used store ≡ 0) stores.items) }
{
    let mut stores = Vec::with_capacity(alloc, keepers.len())?;
    for keeper in keepers {
        stores.push_reserved(Store::new(alloc, keeper));
    }
    Ok(stores)
}

/// What metadata tells of the subscriptions.
fn sub_notes_for(alloc: Global, subs: &Subs) -> Result<SubscriptionNotes, NoMemory>
    ensures { IfOk result (λ notes. notes ≡ map sub_note_of subs.now) }
{
    let mut notes = SubscriptionNotes::new(alloc);
    for place in 0..subs.len() {
        notes.push(sub_note_for(subs.at(place))?)?;
    }
    Ok(notes)
}

/// What metadata tells of a subscription.
fn sub_note_for(sub: &Sub) -> Result<SubscriptionNote, NoMemory>
    ensures { IfOk result (λ note. note ≡ sub_note_of sub.now) }
{
    Ok(SubscriptionNote {
        pubsub: sub.pubsub.copy()?,
        topic: sub.topic.copy()?,
        dead: copied(sub.dead.as_ref())?,
    })
}

/// A ledger for each broker, with the plans of all subscriptions.
fn ledgers_for(alloc: Global, config: &Config) -> Result<Vec<Ledger>, NoMemory>
    ensures wide { IfOk result (λ ledgers. length ledgers.items ≡ length (brokers_of config.now.components)) }
    ensures planned { IfOk result (λ ledgers. All (λ ledger. plans_of ledger ≡ plans_in config.now) ledgers.items) }
    ensures unused { IfOk result (λ ledgers. All (λ ledger. ⟦<Ledger as Object>⟧.used ledger ≡ 0) ledgers.items) }
{
    let mut ledgers = Vec::new(alloc);
    for place in 0..config.components.len() {
        add_ledger(alloc, config, config.components.at(place), &mut ledgers)?;
    }
    Ok(ledgers)
}

/// Adds a ledger with the plans of all subscriptions for a component, if it is a broker.
fn add_ledger(
    alloc: Global,
    config: &Config,
    component: &Component,
    ledgers: &mut Vec<Ledger>,
) -> Result<(), NoMemory>
    ensures wide { OnOk result (length ledgers.new.items ≡ length ledgers.old.items + length (brokers_of (component.now ∷ []))) }
    ensures planned { OnOk result (All (λ ledger. plans_of ledger ≡ plans_in config.now) ledgers.old.items → All (λ ledger. plans_of ledger ≡ plans_in config.now) ledgers.new.items) }
    ensures unused { OnOk result (All (λ ledger. ⟦<Ledger as Object>⟧.used ledger ≡ 0) ledgers.old.items → All (λ ledger. ⟦<Ledger as Object>⟧.used ledger ≡ 0) ledgers.new.items) }
{
    if !is_broker(component.kind()) {
        return Ok(());
    }
    let plans = plans_for(alloc, &config.policies, &config.subs)?;
    ledgers.push(Ledger::new(alloc, plans))?;
    Ok(())
}

/// The plan of each subscription, at its place.
fn plans_for(alloc: Global, policies: &Policies, subs: &Subs) -> Result<Plans, NoMemory>
    ensures exact { IfOk result (λ plans. plans ≡ map (plan_of policies.now) subs.now) }
    ensures within { IfOk result AreWithinLimit }
{
    let mut plans = Plans::new(alloc);
    for place in 0..subs.len() {
        plans.push(plan_for(policies, subs.at(place)))?;
    }
    Ok(plans)
}

/// The plan of a subscription: the retries that are bound to what comes from its broker, and whether it has a dead-letter topic.
fn plan_for(policies: &Policies, sub: &Sub) -> Plan
    ensures exact { result ≡ plan_of policies.now sub.now }
    ensures within { ForSome result.retry IsRetryWithinLimit }
{
    let bound = bind(policies, &Target::Inbound { name: &sub.pubsub });
    Plan {
        retry: bound.retry,
        dead: sub.dead.is_some(),
    }
}

/// A closed breaker of each policy.
fn breakers_for(alloc: Global, policies: &BreakerPolicies) -> Result<Vec<Breaker>, NoMemory>
    requires { All IsWithinLimit policies.now }
    ensures policies { IfOk result (λ breakers. map policy_of breakers.items ≡ policies.now) }
    ensures unused { IfOk result (λ breakers. All (λ breaker. ⟦<Breaker as Object>⟧.used breaker ≡ 0) breakers.items) }
{
    let mut breakers = Vec::with_capacity(alloc, policies.len())?;
    for place in 0..policies.len() {
        breakers.push_reserved(Breaker::new(policies.at(place)));
    }
    Ok(breakers)
}
