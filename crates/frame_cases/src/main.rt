//! Plays the cases of the files that its words name: streams of requests and what a framer gives for them, responses and the bytes that
//! are written, targets and their routes. Prints each case that differs, and at the end how many there were.
#![tactic(auto)]

mod given;
mod held;
mod messages;
mod midway;
mod playing;
mod routing;
mod sets;
mod streams;

use crate::playing::Cases;
use case_text::play_cases;
use std::io;

fn main(rt: HostRuntime) -> io::Result<()> {
    play_cases(&rt, &Cases)
}
