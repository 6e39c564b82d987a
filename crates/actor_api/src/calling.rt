ghost use Rattle.std.specs.Prelude.{◌≡◌, ◌≤◌, ◌⊎◌, ℕ, Some, Err, length};
ghost use Rattle.turn_cell.specs.Sitting.{IsSeatOf};
ghost use Rattle.turn_cell.specs.declared.error.ApiErr.TheVariants as error;
ghost use Rattle.policy_run.specs.Effects.{clocked};
ghost use Rattle.link_call.specs.Came.{Lacks};
ghost use Rattle.link_call.specs.LinkAt.{link_at};
ghost use Rattle.actor_api.specs.Calling.{Invokes, Joins, TakesTurn};
ghost use Rattle.actor_api.specs.Stepping.{Does};

use crate::awaiting::await_turn;
use crate::replying::{not_invoked, not_invoked_by};
use crate::requesting::request_for;
use crate::stepping::ask;
use crate::taking::finish;
use actor_turns::{Turns, TurnsCmd, TurnsReply};
use link_call::given;
use side_base::{LinkRequest, NoMemory, Request, Response, Text};
use side_world::{Clock, Link};
use std::alloc::Global;
use std::sync::Wait;
use turn_cell::{ApiErr, Exhausted, Object, Seat, TurnCell};

/// A request to call a method of an actor.
#[derive(Clone, Copy)]
pub struct ActorCall<'a> {
    /// The request; its target begins with `/v1.0/actors/`.
    pub request: &'a Request,
    /// The actor: its kind, two bars and its id.
    pub actor: &'a Text,
    /// The port at which the app listens on 127.0.0.1, if it has one.
    pub app_port: Option<u16>,
}

/// Calls a method of an actor: calls of one actor are taken one at a time, in the order in which they joined its line. The app is asked once, by `PUT`, without a
/// limit; its reply is passed on, whatever its status is. A call whose turn does not come within 6,000 looks, 10 ms apart, leaves the line.
///
/// Errors are 500: `no app port`, `full at N`, `waits behind N`, `call failed`, `call expired`, `turn lost`.
pub fn invoke<L: Link, C: Clock, W: Wait>(
    rt: &W,
    alloc: Global,
    what: &ActorCall<'_>,
    cell: &TurnCell<Turns>,
    seat: &mut Seat<Turns>,
    link: &mut L,
    clock: &mut C,
) -> Result<Response, ApiErr>
    requires seat { IsSeatOf cell.now seat.old }
    requires target { 13 ≤ length what.now.request.now.target }
    ensures invokes { Does ⟦<Turns as Object>⟧ cell.now (record { seat = seat.old; link = link_at L.Link link.old; clock = clocked C.Clock clock.old }) (record { seat = seat.new; link = link_at L.Link link.new; clock = clocked C.Clock clock.new })
        (λ events. Invokes what.now.app_port what.now.request.now what.now.actor.now events result) }
    ensures shows { (count : ℕ) → result ≡ Err (error.Exhausted count) → seat.new.count ≡ Some count }
{
    match what.app_port {
        None => given(not_invoked(alloc, "no app port")),
        Some(port) => match request_for(alloc, port, what.request) {
            Ok(asked) => join(rt, alloc, &asked, what.actor, cell, seat, link, clock),
            Err(NoMemory) => Err(ApiErr::NoMemory),
        },
    }
}

/// Joins the line of an actor, and takes its turn there.
fn join<L: Link, C: Clock, W: Wait>(
    rt: &W,
    alloc: Global,
    asked: &LinkRequest,
    actor: &Text,
    cell: &TurnCell<Turns>,
    seat: &mut Seat<Turns>,
    link: &mut L,
    clock: &mut C,
) -> Result<Response, ApiErr>
    requires { IsSeatOf cell.now seat.old }
    ensures joins { Does ⟦<Turns as Object>⟧ cell.now (record { seat = seat.old; link = link_at L.Link link.old; clock = clocked C.Clock clock.old }) (record { seat = seat.new; link = link_at L.Link link.new; clock = clocked C.Clock clock.new })
        (λ events. Lacks events result ⊎ Joins asked.now actor.now events result) }
    ensures shows { (count : ℕ) → result ≡ Err (error.Exhausted count) → seat.new.count ≡ Some count }
{
    let Ok(name) = actor.copy() else {
        return Err(ApiErr::NoMemory);
    };
    match ask(rt, cell, seat, &TurnsCmd::Join { actor: name }) {
        Ok(TurnsReply::Joined { ticket }) => {
            take_turn(rt, alloc, asked, ticket, cell, seat, link, clock)
        }
        Ok(TurnsReply::Full { waiting }) => given(not_invoked_by(alloc, "full at ", waiting)),
        Ok(TurnsReply::NoMemory) => Err(ApiErr::NoMemory),
        Ok(_) => unreachable!(),
        Err(Exhausted { count }) => Err(ApiErr::Exhausted { count }),
    }
}

/// Waits for the turn of a ticket, and takes it.
fn take_turn<L: Link, C: Clock, W: Wait>(
    rt: &W,
    alloc: Global,
    asked: &LinkRequest,
    ticket: u64,
    cell: &TurnCell<Turns>,
    seat: &mut Seat<Turns>,
    link: &mut L,
    clock: &mut C,
) -> Result<Response, ApiErr>
    requires { IsSeatOf cell.now seat.old }
    ensures takes { Does ⟦<Turns as Object>⟧ cell.now (record { seat = seat.old; link = link_at L.Link link.old; clock = clocked C.Clock clock.old }) (record { seat = seat.new; link = link_at L.Link link.new; clock = clocked C.Clock clock.new })
        (λ events. TakesTurn asked.now ticket events result) }
    ensures shows { (count : ℕ) → result ≡ Err (error.Exhausted count) → seat.new.count ≡ Some count }
{
    let how = await_turn(rt, ticket, cell, seat, clock);
    finish(rt, alloc, asked, ticket, how, cell, seat, link)
}
