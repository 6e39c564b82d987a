//! A row is taken, if one is due.
ghost use Rattle.std.specs.Prelude.{◌≡◌, ℕ, Some, ◌<◌, length};
ghost use Rattle.turn_cell.specs.Sitting.{IsSeatOf};
ghost use Rattle.ledger_core.specs.Ledger.{plans_of};
ghost use Rattle.policy_run.specs.Effects.{clocked};
ghost use Rattle.delivery_turn.specs.declared.ending.Turn.TheVariants as ended;
ghost use Rattle.delivery_turn.specs.declared.row.Row.{Row as RowRecord};
ghost use Rattle.delivery_turn.specs.Stepping.{AsksLedger, IsTakeReply};
ghost use Rattle.delivery_turn.specs.Turning.{TakesBy, taking_of};

use crate::Turn;
use crate::row::Row;
use crate::stepping::step;
use ledger_core::{Ledger, LedgerCmd, LedgerReply};
use side_world::Clock;
use std::sync::Wait;
use turn_cell::{Exhausted, Object, Seat, TurnCell};

/// What came of taking a row.
#[derive(Debug, Drop)]
pub(crate) enum Taking {
    /// A row is held.
    Row(Row),
    /// None is, and the turn is over.
    Ended(Turn),
}

/// Takes the row that is due first at the moment.
pub(crate) fn take<C: Clock, W: Wait>(
    rt: &W,
    cell: &TurnCell<Ledger>,
    seat: &mut Seat<Ledger>,
    clock: &mut C,
) -> Taking
    requires seat { IsSeatOf cell.now seat.old }
    ensures takes { AsksLedger ⟦<Ledger as Object>⟧ cell.now seat.old seat.new (clocked C.Clock clock.old) (clocked C.Clock clock.new) (TakesBy result) }
    ensures planned { (row : RowRecord) → result ≡ Taking.Row row → row.sub < length (plans_of cell.now.first) }
    ensures shows { (count : ℕ) → result ≡ Taking.Ended (ended.Exhausted count) → seat.new.count ≡ Some count }
{
    let now = clock.now();
    match step(rt, cell, seat, &LedgerCmd::Take { now }) {
        Ok(reply) => taking_of(reply),
        Err(Exhausted { count }) => Taking::Ended(Turn::Exhausted { count }),
    }
}

/// What a reply to a taking means.
fn taking_of(reply: LedgerReply) -> Taking
    requires { IsTakeReply reply }
    ensures { result ≡ taking_of reply }
{
    match reply {
        LedgerReply::Taken {
            no,
            sub,
            claim,
            event,
            path,
            attempt: _,
        } => Taking::Row(Row {
            no,
            sub,
            claim,
            event,
            path,
        }),
        LedgerReply::Idle { next } => Taking::Ended(Turn::Idle { next }),
        LedgerReply::NoMemory => Taking::Ended(Turn::Held),
        _ => unreachable!(),
    }
}
