ghost use Rattle.std.specs.Prelude.{◌≡◌, ◌≤◌, [], All, IfOk, OnErr, length, map};
ghost use Rattle.std.specs.Vec.{vec_capacity};
ghost use Rattle.turn_cell.specs.Passes.{EachAlone};
ghost use Rattle.turn_pass.specs.Pass.{AreClosed};
ghost use Rattle.sidecar_objects.specs.Passes.{AreRoots, IsSoundPass, IsSplitOffPass, MayMeet, MaySplit, MetPass, SplitPass};
ghost use Rattle.sidecar_objects.specs.Pass.{cells_of, seats_of};

use crate::kinds::ObjectKinds;
use crate::{Objects, Pass};
use actor_turns::Turns;
use breaker_core::Breaker;
use cron_ticks::Ticks;
use keeper_core::Keeper;
use ledger_core::Ledger;
use meta_api::Notes;
use side_base::NoMemory;
use state_core::Store;
use std::alloc::Global;
use turn_cell::{Object, TurnCell};
use turn_pass::{close_each, meet_each, split_each, start_each};

impl<K: Keeper> Objects<K> {
    /// A cell for each of these objects, which have made no step, and the pass of their root seats.
    ///
    /// Without memory the objects are dropped.
    pub fn start(
        alloc: Global,
        stores: Vec<Store<K>>,
        ledgers: Vec<Ledger>,
        breakers: Vec<Breaker>,
        notes: Notes,
        turns: Turns,
        ticks: Ticks,
    ) -> Result<(Objects<K>, Pass<K>), NoMemory>
        requires stores { All (λ first. ⟦<Store<K> as Object>⟧.used first ≡ 0) stores.items }
        requires ledgers { All (λ first. ⟦<Ledger as Object>⟧.used first ≡ 0) ledgers.items }
        requires breakers { All (λ first. ⟦<Breaker as Object>⟧.used first ≡ 0) breakers.items }
        requires notes { ⟦<Notes as Object>⟧.used notes ≡ 0 }
        requires turns { ⟦<Turns as Object>⟧.used turns ≡ 0 }
        requires ticks { ⟦<Ticks as Object>⟧.used ticks ≡ 0 }
        ensures stores { IfOk result (λ made. map (λ cell. cell.first) made.0.stores.items ≡ stores.items) }
        ensures ledgers { IfOk result (λ made. map (λ cell. cell.first) made.0.ledgers.items ≡ ledgers.items) }
        ensures breakers { IfOk result (λ made. map (λ cell. cell.first) made.0.breakers.items ≡ breakers.items) }
        ensures notes { IfOk result (λ made. made.0.notes.first ≡ notes) }
        ensures turns { IfOk result (λ made. made.0.turns.first ≡ turns) }
        ensures ticks { IfOk result (λ made. made.0.ticks.first ≡ ticks) }
        ensures roots { IfOk result (λ made. AreRoots (cells_of made.0) (seats_of made.1)) }
        ensures sound { IfOk result (λ made. IsSoundPass ⟦<Store<K> as ObjectKinds>⟧.kinds (cells_of made.0) (seats_of made.1)) }
    {
        let (store_cells, store_seats) = start_each(alloc, stores)?;
        let (ledger_cells, ledger_seats) = start_each(alloc, ledgers)?;
        let (breaker_cells, breaker_seats) = start_each(alloc, breakers)?;
        let (notes_cell, notes_seat) = TurnCell::start(alloc, notes)?;
        let (turns_cell, turns_seat) = TurnCell::start(alloc, turns)?;
        let (ticks_cell, ticks_seat) = TurnCell::start(alloc, ticks)?;
        let objects = Objects {
            stores: store_cells,
            ledgers: ledger_cells,
            breakers: breaker_cells,
            notes: notes_cell,
            turns: turns_cell,
            ticks: ticks_cell,
        };
        let pass = Pass {
            stores: store_seats,
            ledgers: ledger_seats,
            breakers: breaker_seats,
            notes: notes_seat,
            turns: turns_seat,
            ticks: ticks_seat,
        };
        Ok((objects, pass))
    }

    /// A further pass, split off the one of the root seats, of each of which fewer than 65,536 seats were made: it has seen what they have seen, and has made no calls.
    ///
    /// Without memory `pass` is as it was.
    pub fn split(&self, alloc: Global, pass: &mut Pass<K>) -> Result<Pass<K>, NoMemory>
        requires roots { MaySplit (cells_of self.now) (seats_of pass.old) }
        ensures split { IfOk result (λ other. SplitPass (seats_of pass.old) (seats_of pass.new) (seats_of other)) }
        ensures err { OnErr result (pass.new ≡ pass.old) }
    {
        let mut stores = Vec::with_capacity(alloc, self.stores.len())?;
        let mut ledgers = Vec::with_capacity(alloc, self.ledgers.len())?;
        let mut breakers = Vec::with_capacity(alloc, self.breakers.len())?;
        split_each(&self.stores, &mut pass.stores, &mut stores);
        split_each(&self.ledgers, &mut pass.ledgers, &mut ledgers);
        split_each(&self.breakers, &mut pass.breakers, &mut breakers);
        let notes = self.notes.split(&mut pass.notes);
        let turns = self.turns.split(&mut pass.turns);
        let ticks = self.ticks.split(&mut pass.ticks);
        Ok(Pass {
            stores,
            ledgers,
            breakers,
            notes,
            turns,
            ticks,
        })
    }

    /// Takes a pass back into the one of the root seats, which has then seen what both had seen. Takes no memory.
    pub fn meet(&self, pass: &mut Pass<K>, other: Pass<K>)
        requires roots { MayMeet (cells_of self.now) (seats_of pass.old) }
        requires other { IsSplitOffPass (cells_of self.now) (seats_of other) }
        ensures { MetPass ⟦<Store<K> as ObjectKinds>⟧.kinds (cells_of self.now) (seats_of pass.old) (seats_of other) (seats_of pass.new) }
    {
        let Pass {
            stores,
            ledgers,
            breakers,
            notes,
            turns,
            ticks,
        } = other;
        meet_each(&self.stores, &mut pass.stores, stores);
        meet_each(&self.ledgers, &mut pass.ledgers, ledgers);
        meet_each(&self.breakers, &mut pass.breakers, breakers);
        self.notes.meet(&mut pass.notes, notes);
        self.turns.meet(&mut pass.turns, turns);
        self.ticks.meet(&mut pass.ticks, ticks);
    }

    /// Ends all cells by a pass that is alone, and gives the stores back in order: they are put into the empty list `stores`, whose room was taken before. Takes
    /// no memory.
    pub fn close(self, pass: Pass<K>, stores: &mut Vec<Store<K>>)
        requires alone { EachAlone self.stores.items pass.stores.items }
        requires bare { stores.old.items ≡ [] }
        requires room { length self.stores.items ≤ vec_capacity stores.old }
        ensures { AreClosed ⟦<Store<K> as Object>⟧.stands self.stores.items pass.stores.items stores.new.items }
    {
        close_each(self.stores, pass.stores, stores);
    }
}
