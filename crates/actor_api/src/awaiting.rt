//! A ticket waits for its turn.
ghost use Rattle.std.specs.Prelude.{◌≡◌, ℕ, Some};
ghost use Rattle.turn_cell.specs.Sitting.{IsSeatOf};
ghost use Rattle.policy_run.specs.Effects.{clocked};
ghost use Rattle.link_call.specs.LinkAt.{LinkAt};
ghost use Rattle.actor_api.specs.Calling.{Awaits, Looks};
ghost use Rattle.actor_api.specs.Stepping.{Does};

use crate::stepping::ask;
use actor_turns::{Turns, TurnsCmd, TurnsReply};
use side_world::Clock;
use std::sync::Wait;
use turn_cell::{Exhausted, Object, Seat, TurnCell};

/// How often a ticket is looked at.
const LOOKS: u32 = 6000;

/// How long a call waits between two looks, in milliseconds.
const PAUSE_MS: u64 = 10;

/// How the waiting for a turn ended.
#[derive(Clone, Copy, Debug)]
pub(crate) enum Awaited {
    /// It is the ticket's turn.
    Yours,
    /// So many were before it at the last look.
    Behind { ahead: u64 },
    /// The ticket is not open.
    Lost,
    /// The turns' cell has no step left.
    Exhausted { count: u64 },
}

/// What came of one look.
#[derive(Clone, Copy, Debug)]
pub(crate) enum Looked {
    /// So many are before the ticket.
    Behind { ahead: u64 },
    /// The waiting is over.
    Over(Awaited),
}

/// Looks until it is the ticket's turn, at most 6,000 times, and pauses behind each look that says that others are before it.
pub(crate) fn await_turn<C: Clock, W: Wait>(
    rt: &W,
    ticket: u64,
    cell: &TurnCell<Turns>,
    seat: &mut Seat<Turns>,
    clock: &mut C,
) -> Awaited
    requires { IsSeatOf cell.now seat.old }
    ensures waits { (link : LinkAt) → Does ⟦<Turns as Object>⟧ cell.now (record { seat = seat.old; link = link; clock = clocked C.Clock clock.old }) (record { seat = seat.new; link = link; clock = clocked C.Clock clock.new }) (Awaits ticket result) }
    ensures shows { (count : ℕ) → result ≡ Awaited.Exhausted count → seat.new.count ≡ Some count }
{
    let mut last = 0;
    for _looks in 0..LOOKS {
        match look(rt, ticket, cell, seat, clock) {
            Looked::Behind { ahead } => last = ahead,
            Looked::Over(how) => return how,
        }
    }
    Awaited::Behind { ahead: last }
}

/// Looks once, and pauses if others are before the ticket.
fn look<C: Clock, W: Wait>(
    rt: &W,
    ticket: u64,
    cell: &TurnCell<Turns>,
    seat: &mut Seat<Turns>,
    clock: &mut C,
) -> Looked
    requires { IsSeatOf cell.now seat.old }
    ensures looks { (link : LinkAt) → Does ⟦<Turns as Object>⟧ cell.now (record { seat = seat.old; link = link; clock = clocked C.Clock clock.old }) (record { seat = seat.new; link = link; clock = clocked C.Clock clock.new }) (Looks ticket result) }
    ensures shows { (count : ℕ) → result ≡ Looked.Over (Awaited.Exhausted count) → seat.new.count ≡ Some count }
{
    match ask(rt, cell, seat, &TurnsCmd::Look { ticket }) {
        Ok(TurnsReply::Behind { ahead }) => {
            clock.pause(PAUSE_MS);
            Looked::Behind { ahead }
        }
        Ok(TurnsReply::Yours) => Looked::Over(Awaited::Yours),
        Ok(TurnsReply::NotOpen) => Looked::Over(Awaited::Lost),
        Ok(_) => unreachable!(),
        Err(Exhausted { count }) => Looked::Over(Awaited::Exhausted { count }),
    }
}
