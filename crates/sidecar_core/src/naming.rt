//! Components as requests find them, by their names; and the names of actors.
ghost use Rattle.std.specs.Prelude.{◌≡◌, ◌≤◌, ◌∷◌, [], ℕ, Some, None, length};
ghost use Rattle.resource_spec.specs.Component.{Loaded};
ghost use Rattle.resource_spec.specs.declared.component.ComponentKind.TheVariants as kinds;
ghost use Rattle.sidecar_core.specs.Actors.{has_bar, is_actor_name};
ghost use Rattle.sidecar_core.specs.Named.{IsNamed, IsNone, ledger_of};
ghost use Rattle.sidecar_turns.specs.Brokers.{brokers_of};

use crate::Shared;
use crate::starting::is_broker;
use keeper_core::Keeper;
use resource_spec::{Component, ComponentKind};
use side_base::Text;

impl<K: Keeper> Shared<K> {
    /// The place of the output binding of this name; `None` exactly where no component of the name is one.
    pub(crate) fn binding_named(&self, name: &Text) -> Option<usize>
        ensures found { (place : ℕ) → result ≡ Some place → (component : Loaded) × IsNamed self.now.config name.now place component × (component.kind ≡ kinds.BindingHttp) }
        ensures none { result ≡ None → IsNone kinds.BindingHttp self.now.config name.now }
    {
        let place = self.config.components.place_of(name.bytes())?;
        match self.config.components.at(place).kind() {
            ComponentKind::BindingHttp => Some(place),
            ComponentKind::StateMemory
            | ComponentKind::StateJournal
            | ComponentKind::PubsubMemory
            | ComponentKind::BindingCron => None,
        }
    }

    /// The place of the pub/sub component of this name; `None` exactly where no component of the name is one.
    pub(crate) fn broker_named(&self, name: &Text) -> Option<usize>
        ensures found { (place : ℕ) → result ≡ Some place → (component : Loaded) × IsNamed self.now.config name.now place component × (component.kind ≡ kinds.PubsubMemory) }
        ensures none { result ≡ None → IsNone kinds.PubsubMemory self.now.config name.now }
    {
        let place = self.config.components.place_of(name.bytes())?;
        match self.config.components.at(place).kind() {
            ComponentKind::PubsubMemory => Some(place),
            ComponentKind::StateMemory
            | ComponentKind::StateJournal
            | ComponentKind::BindingHttp
            | ComponentKind::BindingCron => None,
        }
    }

    /// The place of the ledger of the pub/sub component at this place.
    pub(crate) fn ledger_of(&self, place: usize) -> usize
        requires { place ≤ length self.now.config.components }
        ensures { result ≡ ledger_of self.now.config place }
    {
        let mut ledger = 0;
        for before in 0..place {
            ledger += brokers_in(self.config.components.at(before));
        }
        ledger
    }
}

/// 1 for a pub/sub component, and 0 for another.
fn brokers_in(component: &Component) -> usize
    ensures exact { result ≡ length (brokers_of (component.now ∷ [])) }
    ensures within { result ≤ 1 }
{
    if is_broker(component.kind()) { 1 } else { 0 }
}

/// Whether this may be the kind and the id of an actor: neither holds a bar.
pub(crate) fn names_an_actor(kind: &Text, id: &Text) -> bool
    ensures { result ≡ is_actor_name kind.now id.now }
{
    !has_bar(kind.bytes()) && !has_bar(id.bytes())
}

fn has_bar(bytes: &[u8]) -> bool
    ensures { result ≡ has_bar bytes.now }
{
    bytes.iter().any(|byte| *byte == b'|')
}
