//! One step of the turns.
ghost use Rattle.turn_cell.specs.Sitting.{IsSeatOf};
ghost use Rattle.actor_api.specs.Stepping.{StepsBy};

use actor_turns::{Turns, TurnsCmd, TurnsReply};
use std::sync::Wait;
use turn_cell::{Exhausted, Object, Seat, TurnCell};

/// One step of the turns with this command; its reply is one that fits it.
pub(crate) fn ask<W: Wait>(
    rt: &W,
    cell: &TurnCell<Turns>,
    seat: &mut Seat<Turns>,
    cmd: &TurnsCmd,
) -> Result<TurnsReply, Exhausted>
    requires { IsSeatOf cell.now seat.old }
    ensures { StepsBy ⟦<Turns as Object>⟧ cell.now seat.old seat.new cmd.now result }
{
    cell.call(rt, seat, cmd)
}
