//! Plays the cases of the files that its words name: requests with the commands that they ask for, and replies with their responses. Prints
//! each case that differs, and at the end how many there were.
#![tactic(auto)]

mod asked;
mod command_text;
mod errors;
mod given;
mod noted;
mod playing;
mod replied;
mod response_text;

use crate::playing::Cases;
use case_text::play_cases;
use std::io;

fn main(rt: HostRuntime) -> io::Result<()> {
    play_cases(&rt, &Cases { rt: &rt })
}
