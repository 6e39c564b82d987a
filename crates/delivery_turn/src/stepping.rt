//! One step of the ledger's cell.
ghost use Rattle.std.specs.Prelude.{length};
ghost use Rattle.turn_cell.specs.Sitting.{IsSeatOf};
ghost use Rattle.ledger_core.specs.Aims.{IsGiven};
ghost use Rattle.ledger_core.specs.Ledger.{plans_of};
ghost use Rattle.delivery_turn.specs.Stepping.{StepsBy};

use ledger_core::laws::{replies_fit_their_commands, what_is_taken_has_a_plan};
use ledger_core::{Ledger, LedgerCmd, LedgerReply};
use std::sync::Wait;
use turn_cell::{Exhausted, Object, Seat, TurnCell};

/// One step of the ledger with this command; what it takes is of a subscription that has a plan.
pub(crate) fn step<W: Wait>(
    rt: &W,
    cell: &TurnCell<Ledger>,
    seat: &mut Seat<Ledger>,
    cmd: &LedgerCmd,
) -> Result<LedgerReply, Exhausted>
    requires seat { IsSeatOf cell.now seat.old }
    requires given { IsGiven (length (plans_of cell.now.first)) cmd.now }
    ensures { StepsBy ⟦<Ledger as Object>⟧ cell.now seat.old seat.new cmd.now result }
{
    replies_fit_their_commands();
    what_is_taken_has_a_plan();
    cell.call(rt, seat, cmd)
}
