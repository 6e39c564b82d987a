ghost use Rattle.std.specs.Prelude.{◌≡◌, ◌++◌, ◌∷◌, [], All, IfOk, OnOk, length, map};
ghost use Rattle.retry_core.specs.Bound.{IsWithinLimit};
ghost use Rattle.sidecar_turns.specs.Brokers.{HasBreakerOf, HaveBreakers, inbound_of, is_broker, brokers_of, sites_of};

use policy_spec::{Policies, Target, bind};
use resource_spec::{Component, ComponentKind, Components};
use retry_core::Bound;
use side_base::NoMemory;
use std::alloc::Global;
use std::marker::Model;

/// What deliveries need of a configuration: the port at which the app listens, if it has one, and what is bound to what comes from each
/// broker. The brokers stand in the order of their components, and so do their ledgers.
///
/// Contracts see it as the record of its parts.
#[derive(Drop)]
pub struct Brokers {
    pub(crate) alloc: Global,
    app_port: Option<u16>,
    inbound: Vec<Bound>,
}

impl Model for Brokers {
    ghost use Rattle.std.specs.Prelude.{All};
    ghost use Rattle.retry_core.specs.Bound.{IsWithinLimit};
    ghost use Rattle.sidecar_turns.specs.Brokers.{Sites};

    ghost Value = { Sites };

    ghost view = { λ b. record { port = b.app_port; inbound = b.inbound.items } };

    ghost invariant = { λ b. All IsWithinLimit b.inbound.items };
}

impl Brokers {
    /// What deliveries need where these components are loaded and these policies are bound.
    pub fn new(
        alloc: Global,
        app_port: Option<u16>,
        components: &Components,
        policies: &Policies,
    ) -> Result<Brokers, NoMemory>
        ensures exact { IfOk result (λ brokers. brokers ≡ sites_of app_port components.now policies.now) }
        ensures breakers { IfOk result (λ brokers. HaveBreakers (length policies.now.breakers) brokers.inbound) }
    {
        let inbound = inbound_for(alloc, components, policies)?;
        Ok(Brokers {
            alloc,
            app_port,
            inbound,
        })
    }

    /// The port at which the app listens on 127.0.0.1.
    pub fn app_port(&self) -> Option<u16>
        ensures { result ≡ self.now.port }
    {
        self.app_port
    }

    /// What is bound to what comes from each broker.
    pub(crate) fn inbound(&self) -> &[Bound]
        ensures exact { result.now ≡ self.now.inbound }
        ensures within { All IsWithinLimit result.now }
    {
        &self.inbound
    }
}

/// What is bound to what comes from each broker among the components, in their order.
fn inbound_for(
    alloc: Global,
    components: &Components,
    policies: &Policies,
) -> Result<Vec<Bound>, NoMemory>
    ensures exact { IfOk result (λ inbound. inbound.items ≡ map (inbound_of policies.now) (brokers_of components.now)) }
    ensures within { IfOk result (λ inbound. All IsWithinLimit inbound.items) }
    ensures breakers { IfOk result (λ inbound. HaveBreakers (length policies.now.breakers) inbound.items) }
{
    let mut inbound = Vec::new(alloc);
    for place in 0..components.len() {
        add_broker(policies, components.at(place), &mut inbound)?;
    }
    Ok(inbound)
}

/// Adds what is bound to what comes from a component, if it is a broker.
fn add_broker(
    policies: &Policies,
    component: &Component,
    inbound: &mut Vec<Bound>,
) -> Result<(), NoMemory>
    ensures added { OnOk result (inbound.new.items ≡ inbound.old.items ++ map (inbound_of policies.now) (brokers_of (component.now ∷ []))) }
    ensures within { OnOk result (All IsWithinLimit inbound.old.items → All IsWithinLimit inbound.new.items) }
    ensures breakers { OnOk result (HaveBreakers (length policies.now.breakers) inbound.old.items → HaveBreakers (length policies.now.breakers) inbound.new.items) }
{
    if !is_broker(component.kind()) {
        return Ok(());
    }
    inbound.push(inbound_of(policies, component))?;
    Ok(())
}

/// What is bound to what comes from a component.
fn inbound_of(policies: &Policies, component: &Component) -> Bound
    ensures exact { result ≡ inbound_of policies.now component.now }
    ensures within { IsWithinLimit result }
    ensures breaker { HasBreakerOf (length policies.now.breakers) result }
{
    let name = component.name();
    bind(policies, &Target::Inbound { name })
}

/// Whether it is a broker.
fn is_broker(kind: ComponentKind) -> bool
    ensures { result ≡ is_broker kind }
{
    match kind {
        ComponentKind::PubsubMemory => true,
        ComponentKind::StateMemory
        | ComponentKind::StateJournal
        | ComponentKind::BindingHttp
        | ComponentKind::BindingCron => { false }
    }
}
