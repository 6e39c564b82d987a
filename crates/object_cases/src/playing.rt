// A case, played and compared. The word of its first section says what it is about.

use crate::breaker_case::play_breaker;
use crate::keeper_case::play_keeper;
use crate::ledger_case::play_ledger;
use crate::retry_case::play_retry;
use crate::store_case::play_store;
use crate::ticks_case::play_ticks;
use crate::trip_case::play_trip;
use crate::turns_case::play_turns;
use case_text::{Lines, Piece, Player, Section, sections};
use std::alloc::Global;
use std::sync::Wait;

fn kind_of<'a>(sections: &[Section<'a>]) -> &'a str {
    match sections.first() {
        Some(section) => section.word,
        None => "",
    }
}

// Adds what is wrong of a case whose sections are these.
fn judge<W: Wait>(rt: &W, alloc: Global, sections: &[Section<'_>], lines: &mut Lines) {
    match kind_of(sections) {
        "store" => play_store(alloc, sections, lines),
        "keeper" => play_keeper(alloc, sections, lines),
        "breaker" => play_breaker(rt, alloc, sections, lines),
        "retry" => play_retry(alloc, sections, lines),
        "ledger" => play_ledger(alloc, sections, lines),
        "trip" => play_trip(alloc, sections, lines),
        "turns" => play_turns(rt, alloc, sections, lines),
        "ticks" => play_ticks(rt, alloc, sections, lines),
        _ => lines.add("no such case\n"),
    }
    if sections.len() < 2 {
        lines.add("nothing is asked\n");
    }
}

/// The cases of stores, keepers, breakers, ledgers, turns of actors, ticks of bindings, retries and trips, whose calls may wait.
#[derive(Drop)]
pub(crate) struct Cases<'a, W> {
    pub(crate) rt: &'a W,
}

impl<W: Wait> Player for Cases<'_, W> {
    fn play(&self, alloc: Global, case: &Piece<'_>, lines: &mut Lines) {
        match sections(alloc, case) {
            Ok(sections) => judge(self.rt, alloc, &sections, lines),
            Err(_) => lines.lack(),
        }
    }
}
