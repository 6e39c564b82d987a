use actor_turns::Turns;
use breaker_core::Breaker;
use cron_ticks::Ticks;
use keeper_core::Keeper;
use ledger_core::Ledger;
use meta_api::Notes;
use state_core::Store;
use turn_cell::Object;

/// What the objects of each kind are, as contracts see them, beside stores of this type.
pub trait ObjectKinds {
    ghost use Rattle.sidecar_objects.specs.Kind.{Kinds};

    ghost kinds: { Kinds Self };
}

impl<K: Keeper> ObjectKinds for Store<K> {
    ghost use Rattle.sidecar_objects.specs.Kind.{kinds_of};

    ghost kinds = { kinds_of ⟦<Store<K> as Object>⟧ ⟦<Ledger as Object>⟧ ⟦<Breaker as Object>⟧ ⟦<Notes as Object>⟧ ⟦<Turns as Object>⟧ ⟦<Ticks as Object>⟧ };
}
