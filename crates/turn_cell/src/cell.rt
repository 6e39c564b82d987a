ghost use Rattle.std.specs.Prelude.{◌≡◌, ℕ, ◌^◌, ◌<◌, ◌↔◌, true, false, length, Some, IfOk, IfErr, IsErr};
ghost use Rattle.turn_cell.specs.Sitting.{IsSeatOf, IsAlone, IsSound, Extends, Exhausts, Meets, root_of, parent_of, child_of, either_count};

use crate::error::Exhausted;
use crate::object::Object;
use crate::sleepers::Sleepers;
use crate::table::{Gather, Grow, Meet, OBJECT, SERVING, Store, Token};
use crate::turn::take_turn;
use atomic_table::{Refused, Table};
use side_base::NoMemory;
use std::alloc::{AllocError, AllocFailed, Global};
use std::marker::Model;
use std::snapshot::Snapshot;
use std::sync::Wait;

/// An object that threads share, each by a seat of its own.
///
/// Contracts see it as the table that it is and the object that it began with.
#[derive(Drop)]
pub struct TurnCell<O: Object> {
    store: Store<O>,
    sleepers: Sleepers,
}

impl<O: Object> Model for TurnCell<O> {
    ghost use Rattle.turn_cell.specs.Sitting.{Begun};
    ghost use Rattle.turn_cell.specs.Play.{IsSized};

    ghost Value = { Begun O };

    ghost view = { λ cell. record { table = cell.store.shared.table_id; first = cell.store.shared.key.value } };

    ghost invariant = { λ cell. IsSized cell.store.shared.table_id };
}

/// What one caller knows of a cell, and its right to call it. While a program runs it is two numbers: how many seats were made, and the count that it read in an
/// exhausted cell.
///
/// Contracts see it as a record of what it has seen and done.
#[derive(Drop)]
pub struct Seat<O: Object> {
    token: Token<O>,
    made: u64,
    count: Option<u64>,
}

impl<O: Object> Model for Seat<O> {
    ghost use Rattle.turn_cell.specs.Sitting.{Sitting};
    ghost use Rattle.turn_cell.specs.Play.{Rests, sitting};

    ghost Value = { Sitting O O.Cmd O.Reply };

    ghost view = { λ seat. sitting seat.token };

    ghost invariant = { λ seat. Rests O.Object seat.token seat.made seat.count };
}

impl<O: Object> Seat<O> {
    /// How many seats of the cell were made so far, itself included; 0 where the seat isn't the root. Takes no memory.
    pub fn made(&self) -> u64
        ensures count { result ≡ self.now.made }
        ensures sound { (first : O) → self.now.first ≡ Some first → IsSound O.Object first self.now }
    {
        self.made
    }

    /// The count that was read in the cell where this seat, or one that it met, found it exhausted. Takes no memory.
    pub fn count(&self) -> Option<u64>
        ensures { result ≡ self.now.count }
    {
        self.count
    }
}

/// The first of two counts that is there.
fn either_count(one: Option<u64>, other: Option<u64>) -> Option<u64>
    ensures { result ≡ either_count one other }
{
    match one {
        Some(count) => Some(count),
        None => other,
    }
}

impl<O: Object> TurnCell<O> {
    /// A cell whose history is empty, and its root seat.
    pub fn start(alloc: Global, first: O) -> Result<(TurnCell<O>, Seat<O>), NoMemory>
        requires { O.used first ≡ 0 }
        ensures first { IfOk result (λ made. made.0.first ≡ first) }
        ensures root { IfOk result (λ made. made.1 ≡ root_of made.0) }
        ensures sound { IfOk result (λ made. IsSound O.Object first made.1) }
    {
        let key = Snapshot::of(&first);
        let mut slots = Vec::with_capacity(alloc, 1)?;
        if let Err(failed) = slots.push(Some(first)) {
            let AllocFailed { value: _ } = failed;
            return Err(AllocError);
        }
        let (store, token) = match Table::new(
            alloc,
            &[0, 0, 0, 0, 0, 0, 0, 0, 0, 0, 0, 0, 0, 0, 0, 0],
            slots,
            &key,
        ) {
            Ok(made) => made,
            Err(Refused { slots: _ }) => return Err(AllocError),
        };
        let seat = Seat {
            token,
            made: 1,
            count: None,
        };
        Ok((
            TurnCell {
                store,
                sleepers: Sleepers::none(),
            },
            seat,
        ))
    }

    /// A further seat, split off the root `seat`: it has seen what the root has seen, and has made no calls. Takes no memory.
    pub fn split(&self, seat: &mut Seat<O>) -> Seat<O>
        requires seat { IsSeatOf self.now seat.old }
        requires root { seat.old.is_root ≡ true }
        requires room { seat.old.made < 65536 }
        ensures parent { seat.new ≡ parent_of seat.old }
        ensures child { result ≡ child_of seat.old }
        ensures sound { IsSound O.Object self.now.first seat.new × IsSound O.Object self.now.first result }
    {
        let token = self.store.shared.split_seat::<Grow>(&mut seat.token);
        seat.made += 1;
        Seat {
            token,
            made: 0,
            count: None,
        }
    }

    /// One command, as one step of the object: waits for its turn, and returns the reply. Takes no memory beside what the object takes.
    ///
    /// `Exhausted` makes no step. It comes where a word of the cell showed `count`, from 2^62 on, which the seat then shows too;
    /// for a seat that is alone exactly where it has seen 2^62 entries.
    pub fn call<R: Wait>(
        &self,
        rt: &R,
        seat: &mut Seat<O>,
        cmd: &O::Cmd,
    ) -> Result<O::Reply, Exhausted>
        requires seat { IsSeatOf self.now seat.old }
        requires takes { O.takes self.now.first cmd.now }
        ensures ok { IfOk result (λ reply. Extends O.Object self.now.first seat.old cmd.now reply seat.new) }
        ensures err { IfErr result (λ e. Exhausts O.Object self.now.first seat.old e.count seat.new) }
        ensures exact { IsAlone seat.old → (IsErr result ↔ (length seat.old.seen ≡ 2 ^ 62)) }
    {
        match take_turn(rt, &self.store.shared, &self.sleepers, &mut seat.token, cmd) {
            Ok(reply) => Ok(reply),
            Err(exhausted) => {
                seat.count = Some(exhausted.count);
                Err(exhausted)
            }
        }
    }

    /// Takes `other` back into the root `seat`, which has then seen what both had seen. Takes no memory.
    pub fn meet(&self, seat: &mut Seat<O>, other: Seat<O>)
        requires seat { IsSeatOf self.now seat.old }
        requires root { seat.old.is_root ≡ true }
        requires other { IsSeatOf self.now other × (other.is_root ≡ false) }
        ensures { Meets O.Object self.now.first seat.old other seat.new }
    {
        let Seat {
            token,
            made: _,
            count,
        } = other;
        seat.count = either_count(seat.count, count);
        let table = &self.store.shared;
        table.join_seat::<Gather>(&mut seat.token, token);
        table.load::<Meet>(&mut seat.token, SERVING);
    }

    /// Ends the cell, and gives its object back. Takes no memory.
    pub fn close(self, seat: Seat<O>) -> O
        requires seat { IsSeatOf self seat }
        requires alone { IsAlone seat }
        ensures { O.stands self.first seat.seen result }
    {
        let Seat { token, .. } = seat;
        let mut closed = self.store.close_with(token);
        let object = closed.take(OBJECT).unwrap();
        closed.free();
        object
    }
}
