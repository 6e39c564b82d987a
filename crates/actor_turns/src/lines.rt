// The open tickets of each actor, in the order in which they were given.
ghost use Rattle.std.specs.Prelude.{◌≡◌, ◌<◌, ◌++◌, ◌∷◌, [], ℕ, List, OnOk, OnErr, if◌then◌else◌, bytes_eq, length, filter};
ghost use Rattle.actor_turns.specs.Lines.{line_at, tickets_at, line, without, before};

use side_base::{NoMemory, Text};
use std::alloc::Global;
use std::collections::BTreeMap;

/// The tickets of each actor that has one.
pub(crate) type Lines = BTreeMap<String, Vec<u64>>;

/// Puts a ticket behind those of its actor; without memory all stays as it was.
pub(crate) fn enter(
    alloc: Global,
    lines: &mut Lines,
    actor: &Text,
    ticket: u64,
) -> Result<(), NoMemory>
    ensures ok { OnOk result ((name : List ℕ) → line_at lines.new name ≡ (if bytes_eq actor.now name then line (tickets_at lines.old actor.now ++ ticket ∷ []) else line_at lines.old name)) }
    ensures err { OnErr result ((name : List ℕ) → line_at lines.new name ≡ line_at lines.old name) }
{
    match lines.get_mut(actor.as_str()) {
        Some(tickets) => {
            tickets.push(ticket)?;
            Ok(())
        }
        None => {
            let mut tickets = Vec::new(alloc);
            tickets.push(ticket)?;
            lines.insert(String::from_str(alloc, actor.as_str())?, tickets)?;
            Ok(())
        }
    }
}

/// Takes a ticket out of the line of its actor, and the line with it where it was the only one.
pub(crate) fn leave(lines: &mut Lines, actor: &str, ticket: u64)
    ensures { (name : List ℕ) → line_at lines.new name ≡ (if bytes_eq actor.now name then line (without ticket (tickets_at lines.old name)) else line_at lines.old name) }
{
    let Some(tickets) = lines.get_mut(actor) else {
        return;
    };
    tickets.retain(|other| *other != ticket);
    if tickets.is_empty() {
        lines.remove(actor);
    }
}

/// How many tickets of the actor are less than this one.
pub(crate) fn ahead(lines: &Lines, actor: &str, ticket: u64) -> usize
    ensures { result ≡ length (before ticket (tickets_at lines.now actor.now)) }
{
    match lines.get(actor) {
        Some(tickets) => tickets.iter().filter(|other| **other < ticket).count(),
        None => 0,
    }
}
