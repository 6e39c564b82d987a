//! Plays the cases of the files that its words name: histories of stores, keepers, breakers, ledgers, turns of actors and ticks of bindings, runs of
//! retries, and trips, each with what must come of it. Prints each case that differs, and at the end how many there were.
#![tactic(auto)]

mod aimed;
mod breaker_case;
mod keeper_case;
mod ledger_case;
mod ledger_text;
mod ledger_words;
mod playing;
mod retry_case;
mod store_case;
mod store_text;
mod store_words;
mod taken;
mod ticks_case;
mod trip_case;
mod turns_case;
mod words;

use crate::playing::Cases;
use case_text::play_cases;
use std::io;

fn main(rt: HostRuntime) -> io::Result<()> {
    play_cases(&rt, &Cases { rt: &rt })
}
