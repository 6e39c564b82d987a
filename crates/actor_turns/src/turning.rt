// A ticket is given, looked at, closed.
ghost use Rattle.std.specs.Prelude.{◌≡◌, ◌<◌, ◌++◌, ◌∷◌, [], None, List, OnOk, OnErr};
ghost use Rattle.actor_turns.specs.declared.command.TurnsCmd.TheVariants.{Join, Look, Leave};
ghost use Rattle.actor_turns.specs.Course.{Open, Answers, actor_of};
ghost use Rattle.actor_turns.specs.Turns.{HasOpen};
ghost use Rattle.actor_turns.specs.Kept.{HasKept};
ghost use Rattle.actor_turns.specs.Turned.{Answered};

use crate::lines::{Lines, ahead, enter, leave};
use crate::{Turns, TurnsReply};
use side_base::{NoMemory, Text};
use std::alloc::Global;
use std::collections::BTreeMap;

const OPEN_LIMIT: usize = 4_096;

/// Gives a ticket for a call of this actor.
pub(crate) fn join(turns: &mut Turns, actor: &Text) -> TurnsReply
    requires { turns.old.given < turns.old.used }
    ensures { Answered turns.old (Join actor.now) result turns.new }
{
    let waiting = turns.actors.len();
    if waiting >= OPEN_LIMIT {
        return TurnsReply::Full {
            waiting: waiting as u64,
        };
    }
    let ticket = turns.given + 1;
    match admit(
        turns.alloc,
        &mut turns.actors,
        &mut turns.lines,
        actor,
        ticket,
    ) {
        Ok(()) => {
            turns.given = ticket;
            TurnsReply::Joined { ticket }
        }
        Err(_) => TurnsReply::NoMemory,
    }
}

/// Keeps a ticket of this actor; without memory all stays as it was.
fn admit(
    alloc: Global,
    actors: &mut BTreeMap<u64, Text>,
    lines: &mut Lines,
    actor: &Text,
    ticket: u64,
) -> Result<(), NoMemory>
    ensures ok { OnOk result ((held : List Open) → HasKept held actors.old lines.old → actor_of ticket held ≡ None → HasKept (held ++ record { ticket = ticket; actor = actor.now } ∷ []) actors.new lines.new) }
    ensures err { OnErr result ((held : List Open) → HasKept held actors.old lines.old → actor_of ticket held ≡ None → HasKept held actors.new lines.new) }
{
    actors.insert(ticket, actor.copy()?)?;
    match enter(alloc, lines, actor, ticket) {
        Ok(()) => Ok(()),
        Err(error) => {
            actors.remove(&ticket);
            Err(error)
        }
    }
}

/// Whether it is the ticket's turn.
pub(crate) fn look(turns: &Turns, ticket: u64) -> TurnsReply
    ensures { (held : List Open) → HasOpen held turns.now → Answers held turns.now.given (Look ticket) result }
{
    match turns.actors.get(&ticket) {
        Some(actor) => match ahead(&turns.lines, actor.as_str(), ticket) {
            0 => TurnsReply::Yours,
            ahead => TurnsReply::Behind {
                ahead: ahead as u64,
            },
        },
        None => TurnsReply::NotOpen,
    }
}

/// Closes a ticket.
pub(crate) fn close(turns: &mut Turns, ticket: u64) -> TurnsReply
    requires { turns.old.given < turns.old.used }
    ensures { Answered turns.old (Leave ticket) result turns.new }
{
    match turns.actors.remove(&ticket) {
        Some(actor) => {
            leave(&mut turns.lines, actor.as_str(), ticket);
            TurnsReply::Left
        }
        None => TurnsReply::NotOpen,
    }
}
