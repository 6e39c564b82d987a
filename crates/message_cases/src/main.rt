//! Plays the cases of the files that its words name: messages that are published to the brokers of a folder, and turns of their deliveries, over a link
//! and a clock in memory. Prints each case that differs, and at the end how many there were.
#![tactic(auto)]

mod broker;
mod given;
mod playing;
mod stepping;
mod told;

use crate::playing::Cases;
use case_text::play_cases;
use std::io;

fn main(rt: HostRuntime) -> io::Result<()> {
    play_cases(&rt, &Cases { rt: &rt })
}
