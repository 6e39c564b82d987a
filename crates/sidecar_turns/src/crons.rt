ghost use Rattle.std.specs.Prelude.{◌≡◌, ◌<◌, ◌≤◌, ◌+◌, ◌^◌, ◌++◌, ◌∷◌, [], true, All, IfOk, OnOk, length, map};
ghost use Rattle.retry_core.specs.Bound.{IsWithinLimit};
ghost use Rattle.resource_spec.specs.Component.{HasNeeds};
ghost use Rattle.cron_ticks.specs.Schedule.{IsPeriod};
ghost use Rattle.sidecar_turns.specs.Brokers.{HasBreakerOf};
ghost use Rattle.sidecar_turns.specs.Crons.{AreWithinLimits, HaveGates, cron_by, crons_among, crons_of, is_cron, period_of, periods_of};

use crate::cron::Cron;
use cron_ticks::Periods;
use policy_spec::{Policies, Target, bind};
use resource_spec::{Component, ComponentKind, Components};
use side_base::{NoMemory, Sequence};
use std::alloc::Global;
use std::marker::Model;

/// What ticks need of a configuration: the port at which the app listens, if it has one, and each binding that ticks, with what is bound
/// to what comes from it. The bindings stand in the order of their components, and so do the periods of the ticks.
///
/// Contracts see it as the record of its parts.
#[derive(Drop)]
pub struct Crons {
    pub(crate) alloc: Global,
    app_port: Option<u16>,
    each: Vec<Cron>,
}

impl Model for Crons {
    ghost use Rattle.sidecar_turns.specs.Crons.{AreWithinLimits, Inputs};

    ghost Value = { Inputs };

    ghost view = { λ c. record { port = c.app_port; crons = c.each.items } };

    ghost invariant = { λ c. AreWithinLimits c.each.items };
}

impl Crons {
    /// What ticks need where these components are loaded and these policies are bound.
    pub fn new(
        alloc: Global,
        app_port: Option<u16>,
        components: &Components,
        policies: &Policies,
    ) -> Result<Crons, NoMemory>
        ensures exact { IfOk result (λ crons. crons ≡ crons_of app_port components.now policies.now) }
        ensures breakers { IfOk result (λ crons. HaveGates (length policies.now.breakers) crons.crons) }
    {
        let each = crons_among(alloc, components, policies)?;
        Ok(Crons {
            alloc,
            app_port,
            each,
        })
    }

    /// The port at which the app listens on 127.0.0.1.
    pub fn app_port(&self) -> Option<u16>
        ensures { result ≡ self.now.port }
    {
        self.app_port
    }

    /// The bindings that tick.
    pub(crate) fn each(&self) -> &[Cron]
        ensures exact { result.now ≡ self.now.crons }
        ensures within { AreWithinLimits result.now }
    {
        &self.each
    }
}

/// The bindings that tick among the components, in their order.
fn crons_among(
    alloc: Global,
    components: &Components,
    policies: &Policies,
) -> Result<Vec<Cron>, NoMemory>
    ensures exact { IfOk result (λ crons. crons.items ≡ map (cron_by policies.now) (crons_among components.now)) }
    ensures within { IfOk result (λ crons. AreWithinLimits crons.items) }
    ensures breakers { IfOk result (λ crons. HaveGates (length policies.now.breakers) crons.items) }
{
    let mut crons = Vec::new(alloc);
    for place in 0..components.len() {
        add_cron(policies, components.at(place), &mut crons)?;
    }
    Ok(crons)
}

/// Adds a component, if it is a binding that ticks.
fn add_cron(
    policies: &Policies,
    component: &Component,
    crons: &mut Vec<Cron>,
) -> Result<(), NoMemory>
    ensures added { OnOk result (crons.new.items ≡ crons.old.items ++ map (cron_by policies.now) (crons_among (component.now ∷ []))) }
    ensures within { OnOk result (AreWithinLimits crons.old.items → AreWithinLimits crons.new.items) }
    ensures breakers { OnOk result (HaveGates (length policies.now.breakers) crons.old.items → HaveGates (length policies.now.breakers) crons.new.items) }
{
    if !is_cron(component.kind()) {
        return Ok(());
    }
    crons.push(cron_of(policies, component)?)?;
    Ok(())
}

/// A component as a binding that ticks.
fn cron_of(policies: &Policies, component: &Component) -> Result<Cron, NoMemory>
    ensures exact { IfOk result (λ cron. cron ≡ cron_by policies.now component.now) }
    ensures within { IfOk result (λ cron. IsWithinLimit cron.bound) }
    ensures breaker { IfOk result (λ cron. HasBreakerOf (length policies.now.breakers) cron.bound) }
{
    let name = component.name();
    let bound = bind(policies, &Target::Inbound { name });
    Ok(Cron {
        name: name.copy()?,
        bound,
    })
}

/// Whether it ticks.
fn is_cron(kind: ComponentKind) -> bool
    ensures { result ≡ is_cron kind }
{
    match kind {
        ComponentKind::BindingCron => true,
        ComponentKind::StateMemory
        | ComponentKind::StateJournal
        | ComponentKind::PubsubMemory
        | ComponentKind::BindingHttp => { false }
    }
}

/// How often each binding ticks that stands among the components, in milliseconds, in their order.
pub fn periods_of(alloc: Global, components: &Components) -> Result<Periods, NoMemory>
    ensures exact { IfOk result (λ periods. periods ≡ periods_of components.now) }
    ensures each { IfOk result (λ periods. All IsPeriod periods) }
    ensures few { IfOk result (λ periods. length periods < 2 ^ 32) }
{
    let mut periods = Sequence::new(alloc);
    for place in 0..components.len() {
        add_period(components.at(place), &mut periods)?;
    }
    Ok(periods)
}

/// Adds how often a component ticks, if it does.
fn add_period(component: &Component, periods: &mut Periods) -> Result<(), NoMemory>
    ensures added { OnOk result (periods.new ≡ periods.old ++ map period_of (crons_among (component.now ∷ []))) }
    ensures each { OnOk result (All IsPeriod periods.old → All IsPeriod periods.new) }
    ensures few { OnOk result (length periods.new ≤ length periods.old + 1) }
{
    if !is_cron(component.kind()) {
        return Ok(());
    }
    periods.push(period_of(component))?;
    Ok(())
}

/// How often a component ticks.
fn period_of(component: &Component) -> u64
    requires kind { is_cron component.now.kind ≡ true }
    requires needs { HasNeeds component.now }
    ensures exact { result ≡ period_of component.now }
    ensures each { IsPeriod result }
{
    component.period()
}
