ghost use Rattle.std.specs.Prelude.{◌≡◌, Some, true, false, IfOk};
ghost use Rattle.sidecar_workers.specs.StopPlay.{ended_view};
ghost use Rattle.sidecar_workers.specs.StopSeat.{root_of, parent_of, child_of, looked_as, HasMet};

use crate::Reason;
use crate::seat::StopSeat;
use crate::word::{Gather, Grow, Halt, Look, Token, WORD, Why, Words};
use atomic_table::Table;
use side_base::NoMemory;
use std::alloc::Global;
use std::marker::{Brand, Model};

/// A word that asks all workers to stop. It is not set at first, and never unset.
///
/// Contracts see which word it is.
#[derive(Drop)]
pub struct Stop {
    words: Words,
}

impl Model for Stop {
    ghost use Rattle.std.specs.Prelude.{◌≡◌};
    ghost use Rattle.atomic_table.specs.Seated.{TableId};

    ghost Value = { TableId };

    ghost view = { λ stop. stop.words.shared.table_id };

    ghost invariant = { λ stop. stop.words.shared.table_id.words ≡ 1 };
}

impl Stop {
    /// A word that is not set, and its root seat.
    pub fn start(alloc: Global) -> Result<(Stop, StopSeat), NoMemory>
        ensures { IfOk result (λ made. made.1 ≡ root_of made.0) }
    {
        let (words, token) = Table::of_words(alloc, &[0], &())?;
        Ok((Stop { words }, StopSeat { token }))
    }

    /// A further seat, split off the root `seat`. Takes no memory.
    pub fn split(&self, seat: &mut StopSeat) -> StopSeat
        requires seat { seat.old.table ≡ self.now }
        requires root { seat.old.is_root ≡ true }
        ensures parent { seat.new ≡ parent_of seat.old }
        ensures child { result ≡ child_of self.now }
    {
        let token = self.words.shared.split_seat::<Grow>(&mut seat.token);
        StopSeat { token }
    }

    /// Whether the word is set, which the seat then shows; it counts the looks that found it not set. A seat that has found it set
    /// finds it set from then on. Takes no memory.
    pub fn look(&self, seat: &mut StopSeat) -> bool
        requires { seat.old.table ≡ self.now }
        ensures found { result ≡ seat.new.found }
        ensures same { seat.new ≡ looked_as result seat.old }
        ensures never_unset { seat.old.found ≡ true → result ≡ true }
    {
        self.words.shared.load::<Look>(&mut seat.token, WORD) != 0
    }

    /// Sets the word: the seat has ended, for this reason. Takes no memory.
    pub fn set(&self, seat: &mut StopSeat, reason: Reason)
        requires { seat.old.table ≡ self.now }
        ensures { seat.new ≡ record seat.old { ended = Some reason } }
    {
        halt::<Brand>(&self.words, &mut seat.token, &reason);
    }

    /// Takes `other` back into the root `seat`, which then looks at the word. Takes no memory.
    pub fn meet(&self, seat: &mut StopSeat, other: StopSeat)
        requires seat { seat.old.table ≡ self.now }
        requires root { seat.old.is_root ≡ true }
        requires other { other.table ≡ self.now }
        requires branch { other.is_root ≡ false }
        ensures { HasMet seat.old other seat.new }
    {
        let StopSeat { token } = other;
        self.words
            .shared
            .join_seat::<Gather>(&mut seat.token, token);
        self.words.shared.load::<Look>(&mut seat.token, WORD);
    }
}

/// Stores 1 for a reason that the proof picks.
fn halt<W: Why>(words: &Words, token: &mut Token, reason: &Reason)
    requires table { (token.old.table_id ≡ words.now.shared.table_id) × (words.now.shared.table_id.words ≡ 1) }
    requires lives { token.old.me.0.spent ≡ false }
    requires reason { W.reason ≡ Some reason.now }
    ensures table { token.new.table_id ≡ token.old.table_id }
    ensures ended { token.new.me ≡ (ended_view token.old.me.0 reason.now, token.old.me.1) }
{
    let _ = reason;
    words.shared.store::<Halt<W>>(token, WORD, 1);
}
