//! A request to publish: what is done for it, and what it is answered.
ghost use Rattle.std.specs.Prelude.{◌≡◌, ◌≤◌, ℕ, Err, Some, IfOk, length};
ghost use Rattle.turn_cell.specs.declared.error.ApiErr.TheVariants as error;
ghost use Rattle.turn_cell.specs.Sitting.{IsSeatOf};
ghost use Rattle.ledger_core.specs.Aims.{IsGiven};
ghost use Rattle.ledger_core.specs.Ledger.{plans_of};
ghost use Rattle.policy_run.specs.Effects.{AreNone, Draws, Made, times};
ghost use Rattle.pubsub_api.specs.Publishing.{Publishes};
ghost use Rattle.pubsub_api.specs.Stepping.{Accepts, Grows, IsAcceptCmd, StepsBy};

use crate::message::prepare;
use crate::replying::{accepted, refused};
use crate::{PubErr, Publication};
use ledger_core::laws::replies_fit_their_commands;
use ledger_core::{Ledger, LedgerCmd, LedgerReply};
use rand_core::Rng;
use side_base::Response;
use side_world::Clock;
use std::alloc::Global;
use std::sync::Wait;
use turn_cell::{ApiErr, Exhausted, Object, Seat, TurnCell};

/// Publishes to a topic of a pub/sub component (Dapr's publish API), and answers the request.
///
/// Where the scopes of the component let the app publish to the topic, the message is stamped with two random words and a moment,
/// its body is made an event, and the event is given to the ledger in one step, for each subscription that it matches. 204 says
/// that the ledger took it.
pub fn publish<C: Clock, R: Rng, W: Wait>(
    rt: &W,
    alloc: Global,
    what: &Publication<'_>,
    cell: &TurnCell<Ledger>,
    seat: &mut Seat<Ledger>,
    clock: &mut C,
    rng: &mut R,
) -> Result<Response, ApiErr>
    requires seat { IsSeatOf cell.now seat.old }
    requires plans { length (plans_of cell.now.first) ≡ length what.now.subs.now }
    ensures publishes { Made (λ events. Publishes what.now events result) (Grows ⟦<Ledger as Object>⟧ cell.now seat.old seat.new) AreNone (times C.Clock clock.old clock.new) (Draws R.stream rng.old rng.new) }
    ensures shows { (count : ℕ) → result ≡ Err (error.Exhausted count) → seat.new.count ≡ Some count }
    ensures status { IfOk result (λ response. (200 ≤ response.status) × (response.status ≤ 599)) }
{
    match prepare(alloc, what, clock, rng) {
        Ok(cmd) => accept(rt, alloc, cell, seat, &cmd),
        Err(error) => refused(alloc, what.topic, error),
    }
}

/// Gives the command to the ledger, and answers its reply.
fn accept<W: Wait>(
    rt: &W,
    alloc: Global,
    cell: &TurnCell<Ledger>,
    seat: &mut Seat<Ledger>,
    cmd: &LedgerCmd,
) -> Result<Response, ApiErr>
    requires seat { IsSeatOf cell.now seat.old }
    requires given { IsGiven (length (plans_of cell.now.first)) cmd.now }
    requires accept { IsAcceptCmd cmd.now }
    ensures accepts { Accepts ⟦<Ledger as Object>⟧ cell.now seat.old seat.new cmd.now result }
    ensures shows { (count : ℕ) → result ≡ Err (error.Exhausted count) → seat.new.count ≡ Some count }
    ensures status { IfOk result (λ response. (200 ≤ response.status) × (response.status ≤ 599)) }
{
    match step(rt, cell, seat, cmd) {
        Ok(reply) => accepted(alloc, &reply),
        Err(Exhausted { count }) => Err(ApiErr::Exhausted { count }),
    }
}

/// One step of the ledger.
fn step<W: Wait>(
    rt: &W,
    cell: &TurnCell<Ledger>,
    seat: &mut Seat<Ledger>,
    cmd: &LedgerCmd,
) -> Result<LedgerReply, Exhausted>
    requires seat { IsSeatOf cell.now seat.old }
    requires given { IsGiven (length (plans_of cell.now.first)) cmd.now }
    ensures { StepsBy ⟦<Ledger as Object>⟧ cell.now seat.old seat.new cmd.now result }
{
    replies_fit_their_commands();
    cell.call(rt, seat, cmd)
}
