//! The turn of a ticket.
ghost use Rattle.std.specs.Prelude.{◌≡◌, ℕ, Some, Err};
ghost use Rattle.turn_cell.specs.Sitting.{IsSeatOf};
ghost use Rattle.turn_cell.specs.declared.error.ApiErr.TheVariants as error;
ghost use Rattle.policy_run.specs.Effects.{Clocked};
ghost use Rattle.link_call.specs.LinkAt.{link_at};
ghost use Rattle.actor_api.specs.Calling.{Finishes};
ghost use Rattle.actor_api.specs.Stepping.{Does};

use crate::awaiting::Awaited;
use crate::replying::{not_invoked, not_invoked_by, replied};
use crate::stepping::ask;
use actor_turns::{Turns, TurnsCmd};
use link_call::given;
use side_base::{LinkRequest, Response};
use side_world::Link;
use std::alloc::Global;
use std::sync::Wait;
use turn_cell::{ApiErr, Exhausted, Object, Seat, TurnCell};

/// What follows the waiting: at its turn the app is asked, and the ticket is left, whatever the link answers.
pub(crate) fn finish<L: Link, W: Wait>(
    rt: &W,
    alloc: Global,
    asked: &LinkRequest,
    ticket: u64,
    how: Awaited,
    cell: &TurnCell<Turns>,
    seat: &mut Seat<Turns>,
    link: &mut L,
) -> Result<Response, ApiErr>
    requires { IsSeatOf cell.now seat.old }
    ensures finishes { (clock : Clocked) → Does ⟦<Turns as Object>⟧ cell.now (record { seat = seat.old; link = link_at L.Link link.old; clock = clock }) (record { seat = seat.new; link = link_at L.Link link.new; clock = clock }) (λ events. Finishes asked.now ticket how events result) }
    ensures shows { (count : ℕ) → result ≡ Err (error.Exhausted count) → (how ≡ Awaited.Exhausted count → seat.old.count ≡ Some count) → seat.new.count ≡ Some count }
{
    match how {
        Awaited::Yours => {
            let answer = link.call(asked, 0);
            match ask(rt, cell, seat, &TurnsCmd::Leave { ticket }) {
                Ok(_) => replied(alloc, answer),
                Err(Exhausted { count }) => Err(ApiErr::Exhausted { count }),
            }
        }
        Awaited::Behind { ahead } => match ask(rt, cell, seat, &TurnsCmd::Leave { ticket }) {
            Ok(_) => given(not_invoked_by(alloc, "waits behind ", ahead)),
            Err(Exhausted { count }) => Err(ApiErr::Exhausted { count }),
        },
        Awaited::Lost => given(not_invoked(alloc, "turn lost")),
        Awaited::Exhausted { count } => Err(ApiErr::Exhausted { count }),
    }
}
