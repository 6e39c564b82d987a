//! Plays the cases of the files that its words name: documents and lists of subscriptions, and what they must come to. Prints each
//! case that differs, and at the end how many there were.
#![tactic(auto)]

mod asked;
mod given;
mod playing;
mod refusal_text;
mod subs_text;

use crate::playing::Cases;
use case_text::play_cases;
use std::io;

fn main(rt: HostRuntime) -> io::Result<()> {
    play_cases(&rt, &Cases)
}
