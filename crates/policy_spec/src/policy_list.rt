ghost use Rattle.std.specs.Prelude.{◌≡◌, ◌⊎◌, ◌++◌, ℕ, List, [], Some, length, is_some, option_to_list, OnOk, OnErr};
ghost use Rattle.std.specs.String.{string_bytes};
ghost use Rattle.policy_spec.specs.Named.{under, put_under, AreNames};
ghost use Rattle.policy_spec.specs.Resiliency.{aim_for, with_bound, bound_for, breaker_of, choice_put, IsChange};
ghost use Rattle.std.specs.List.{All};
ghost use Rattle.std.specs.Option.{ForSome};
ghost use Rattle.retry_core.specs.BreakerPolicy.{IsWithinLimit};
ghost use Rattle.policy_spec.specs.Policies.{aim_of, named_bound, bound_by, nothing, IsBoundWithin, IsSound};

use crate::choice::{Choice, Side, bound_of};
use crate::named::Named;
use crate::policy_err::PolicyErr;
use crate::target::Target;
use retry_core::{Bound, BreakerPolicy};
use side_base::{NoMemory, Sequence, Text};
use std::alloc::Global;
use std::marker::Model;

/// A list of breakers.
pub type BreakerPolicies = Sequence<BreakerPolicy>;

/// What is bound to targets. Contracts see it as a record of what is bound to apps, outbound and inbound, by name, and the list
/// of breakers. What is bound has its durations within their limit, and its breaker in that list; so have the breakers theirs.
#[derive(Drop)]
pub struct Policies {
    pub(crate) apps: Named<Bound>,
    pub(crate) outbound: Named<Bound>,
    pub(crate) inbound: Named<Bound>,
    pub(crate) breakers: BreakerPolicies,
}

impl Model for Policies {
    ghost use Rattle.policy_spec.specs.Policies.{Binding, IsSound};

    ghost Value = { Binding };

    ghost view = { λ p. record { apps = p.apps; outbound = p.outbound; inbound = p.inbound; breakers = p.breakers } };

    ghost invariant = { λ p. IsSound (record { apps = p.apps; outbound = p.outbound; inbound = p.inbound; breakers = p.breakers }) };
}

impl Policies {
    /// Nothing is bound to any target. Takes no memory.
    pub fn new(alloc: Global) -> Policies
        ensures { result ≡ record { apps = []; outbound = []; inbound = []; breakers = [] } }
    {
        Policies {
            apps: Named::new(alloc),
            outbound: Named::new(alloc),
            inbound: Named::new(alloc),
            breakers: Sequence::new(alloc),
        }
    }

    fn is_bound(&self, side: Side, name: &str) -> bool
        ensures { result ≡ is_some (named_bound self.now (aim_for side name.now)) }
    {
        match side {
            Side::App => self.apps.find(name).is_some(),
            Side::Outbound => self.outbound.find(name).is_some(),
            Side::Inbound => self.inbound.find(name).is_some(),
        }
    }

    // Binds what a target names, and adds its breaker.
    fn bind_new(&mut self, side: Side, name: String, choice: Choice) -> Result<(), NoMemory>
        ensures { OnOk result (self.new ≡ with_bound self.old side (string_bytes name) (bound_for (length self.old.breakers) choice) (self.old.breakers ++ option_to_list (breaker_of choice.breaker))) }
    {
        let place = self.breakers.len();
        if place >= 4294967295 {
            return Err(NoMemory);
        }
        let (bound, breaker) = bound_of(choice, place as u32);
        push_breaker(&mut self.breakers, breaker)?;
        match side {
            Side::App => put_bound(&mut self.apps, name, bound),
            Side::Outbound => put_bound(&mut self.outbound, name, bound),
            Side::Inbound => put_bound(&mut self.inbound, name, bound),
        }
    }

    /// Binds what a target names, and adds its breaker; a target that is bound already is refused.
    pub(crate) fn put(
        &mut self,
        alloc: Global,
        side: Side,
        name: &str,
        choice: Choice,
    ) -> Result<(), PolicyErr>
        ensures { IsChange result self.new (choice_put self.old side name.now choice) }
    {
        if self.is_bound(side, name) {
            return match Text::from_str(alloc, name) {
                Ok(name) => Err(PolicyErr::Repeated { name }),
                Err(_) => Err(PolicyErr::NoMemory),
            };
        }
        match String::from_str(alloc, name) {
            Ok(name) => match self.bind_new(side, name, choice) {
                Ok(()) => Ok(()),
                Err(_) => Err(PolicyErr::NoMemory),
            },
            Err(_) => Err(PolicyErr::NoMemory),
        }
    }

    // What is bound to a target, if it is named.
    fn named(&self, target: &Target<'_>) -> Option<Bound>
        ensures exact { result ≡ named_bound self.now (aim_of target.now) }
        ensures within { ForSome result (IsBoundWithin (length self.now.breakers)) }
    {
        match target {
            Target::App { id } => self.apps.find(id.as_str()),
            Target::Outbound { name } => self.outbound.find(name.as_str()),
            Target::Inbound { name } => self.inbound.find(name.as_str()),
        }
    }
}

fn push_breaker(
    breakers: &mut BreakerPolicies,
    breaker: Option<BreakerPolicy>,
) -> Result<(), NoMemory>
    ensures ok { OnOk result (breakers.new ≡ breakers.old ++ option_to_list breaker) }
    ensures err { OnErr result (breakers.new ≡ breakers.old) }
{
    match breaker {
        Some(breaker) => breakers.push(breaker),
        None => Ok(()),
    }
}

// Binds this to a name.
fn put_bound(table: &mut Named<Bound>, name: String, bound: Bound) -> Result<(), NoMemory>
    ensures ok { OnOk result (table.new ≡ put_under table.old (string_bytes name) bound) }
    ensures names { AreNames table.new }
    ensures kept { (other : List ℕ) (x : Bound) → under other table.new ≡ Some x → (under other table.old ≡ Some x) ⊎ (x ≡ bound) }
{
    table.put(name, bound)
}

fn nothing_bound() -> Bound
    ensures { result ≡ nothing }
{
    Bound {
        timeout_ms: None,
        retry: None,
        breaker: None,
    }
}

/// What is bound to a target: nothing where it isn't named. Takes no memory.
pub fn bind(policies: &Policies, target: &Target<'_>) -> Bound
    ensures exact { result ≡ bound_by policies.now (aim_of target.now) }
    ensures within { IsBoundWithin (length policies.now.breakers) result }
{
    match policies.named(target) {
        Some(bound) => bound,
        None => nothing_bound(),
    }
}

/// The breakers, one for each target that names one: what a bound's `breaker` counts in.
pub fn breakers(policies: &Policies) -> &BreakerPolicies
    ensures exact { result.now ≡ policies.now.breakers }
    ensures within { All IsWithinLimit policies.now.breakers }
    ensures sound { IsSound policies.now }
{
    &policies.breakers
}
