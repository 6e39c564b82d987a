//! Plays the cases of the files that its words name: calls of apps, of output bindings and of actors over a link and a clock in memory, with what is asked and what
//! is answered. Prints each case that differs, and at the end how many there were.
#![tactic(auto)]

mod actors;
mod calls;
mod crowded_clock;
mod given;
mod playing;

use crate::playing::Cases;
use case_text::play_cases;
use std::io;

fn main(rt: HostRuntime) -> io::Result<()> {
    play_cases(&rt, &Cases { rt: &rt })
}
