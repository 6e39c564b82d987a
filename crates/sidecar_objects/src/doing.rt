use actor_turns::{TurnsCmd, TurnsReply};
use breaker_core::{BreakerCmd, BreakerReply};
use cron_ticks::{TicksCmd, TicksReply};
use ledger_core::{LedgerCmd, LedgerReply};
use meta_api::{NotesCmd, NotesReply};
use side_world::LinkCall;
use state_core::{Cmd, Reply};
use turn_cell::Entry;

/// A step of one of the objects: which one, by its kind and its place, and the entry of its history. It stands in contracts alone.
pub enum SlotStep {
    /// Of the store at a place.
    Store(usize, Entry<Cmd, Reply>),
    /// Of the ledger at a place.
    Ledger(usize, Entry<LedgerCmd, LedgerReply>),
    /// Of the breaker at a place.
    Breaker(usize, Entry<BreakerCmd, BreakerReply>),
    /// Of the book of metadata.
    Book(Entry<NotesCmd, NotesReply>),
    /// Of the turns of actors.
    Turns(Entry<TurnsCmd, TurnsReply>),
    /// Of the ticks of input bindings.
    Ticks(Entry<TicksCmd, TicksReply>),
}

/// What is done for a request, as one event. It stands in contracts alone: no program makes one.
pub enum Doing {
    /// A step of one of the objects.
    Stepped(SlotStep),
    /// A call of the link, with its answer.
    Asked(LinkCall),
    /// A random word that was drawn.
    Drew(u64),
    /// A moment that was read, in milliseconds since 1970.
    Timed(u64),
    /// A pause of so many milliseconds.
    Waited(u64),
}
