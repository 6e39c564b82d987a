ghost use Rattle.std.specs.Prelude.{◌≡◌};
ghost use Rattle.sidecar_objects.specs.Shown.{spent_of};
ghost use Rattle.sidecar_objects.specs.Pass.{seats_of};

use actor_turns::Turns;
use breaker_core::Breaker;
use cron_ticks::Ticks;
use keeper_core::Keeper;
use ledger_core::Ledger;
use meta_api::Notes;
use state_core::Store;
use turn_cell::{Seat, TurnCell};
use turn_pass::count_shown;

/// The shared objects, each in a cell of its own: the stores and the ledgers in the order of their components, the breakers in the order of the policies, the
/// book of metadata, the turns of actors, and the ticks of input bindings.
#[derive(Drop)]
pub struct Objects<K: Keeper> {
    pub stores: Vec<TurnCell<Store<K>>>,
    pub ledgers: Vec<TurnCell<Ledger>>,
    pub breakers: Vec<TurnCell<Breaker>>,
    pub notes: TurnCell<Notes>,
    pub turns: TurnCell<Turns>,
    pub ticks: TurnCell<Ticks>,
}

/// A pass: a seat of each cell, at the same places.
#[derive(Drop)]
pub struct Pass<K: Keeper> {
    pub stores: Vec<Seat<Store<K>>>,
    pub ledgers: Vec<Seat<Ledger>>,
    pub breakers: Vec<Seat<Breaker>>,
    pub notes: Seat<Notes>,
    pub turns: Seat<Turns>,
    pub ticks: Seat<Ticks>,
}

impl<K: Keeper> Pass<K> {
    /// The first count that a seat of the pass shows, of the stores, the ledgers, the breakers, then of the book, of the turns and of the ticks: its
    /// cell was found exhausted.
    /// Takes no memory.
    pub fn spent(&self) -> Option<u64>
        ensures { result ≡ spent_of (seats_of self.now) }
    {
        let stores = count_shown(&self.stores);
        let ledgers = count_shown(&self.ledgers);
        let breakers = count_shown(&self.breakers);
        let notes = self.notes.count();
        let turns = self.turns.count();
        stores.or(ledgers.or(breakers.or(notes.or(turns.or(self.ticks.count())))))
    }
}
