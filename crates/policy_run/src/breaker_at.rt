ghost use Rattle.std.specs.Prelude.{◌≡◌};
ghost use Rattle.policy_run.specs.BreakerAt.{stepped_of};

use crate::{Guard, Stepped};
use breaker_core::laws::replies_fit_their_commands;
use breaker_core::{Breaker, BreakerCmd, BreakerReply};
use std::sync::Wait;
use turn_cell::{Exhausted, Object, Seat, TurnCell};

/// The breaker of a target: its cell, and the caller's seat of it.
#[derive(Drop)]
pub struct BreakerAt<'a> {
    pub cell: &'a TurnCell<Breaker>,
    pub seat: &'a mut Seat<Breaker>,
}

impl Guard for BreakerAt<'_> {
    ghost use Rattle.std.specs.Prelude.{◌≡◌, true, Some};
    ghost use Rattle.turn_cell.specs.Sitting.{IsSeatOf};
    ghost use Rattle.policy_run.specs.BreakerAt.{Kept, kept_none, kept_more, kept_stays};

    ghost there = { λ _. true };

    ghost ready = { λ at. IsSeatOf at.cell.now at.seat.now };

    ghost held = { λ at steps after. Kept ⟦<Breaker as Object>⟧ at.cell.now at.seat.ghost_name at.seat.now steps after.cell.now after.seat.ghost_name after.seat.now };

    ghost shows = { λ at count. at.seat.now.count ≡ Some count };

    fn is_there(&self) -> bool {
        true
    }

    fn step<W: Wait>(&mut self, rt: &W, cmd: &BreakerCmd) -> Stepped {
        replies_fit_their_commands();
        stepped_by(self.cell.call(rt, self.seat, cmd))
    }

    ghost none = { λ at _. kept_none ⟦<Breaker as Object>⟧ at.cell.now at.seat.ghost_name at.seat.now };

    ghost more = { λ a b c xs ys. kept_more ⟦<Breaker as Object>⟧ a.cell.now a.seat.ghost_name a.seat.now xs b.cell.now b.seat.ghost_name b.seat.now ys c.cell.now c.seat.ghost_name c.seat.now };

    ghost stays = { λ a b xs. kept_stays ⟦<Breaker as Object>⟧ a.cell.now a.seat.ghost_name a.seat.now xs b.cell.now b.seat.ghost_name b.seat.now };
}

/// What a call of the breaker's cell came to.
fn stepped_by(answer: Result<BreakerReply, Exhausted>) -> Stepped
    ensures { result ≡ stepped_of answer }
{
    match answer {
        Ok(reply) => Stepped::Answered(reply),
        Err(Exhausted { count }) => Stepped::Exhausted { count },
    }
}
