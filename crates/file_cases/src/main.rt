//! Plays the cases of the files that its words name: folders of resource files, and what reading them must come to. Prints each case
//! that differs, and at the end how many there were.
#![tactic(auto)]

mod asked;
mod bound_text;
mod component_text;
mod each;
mod given;
mod playing;
mod subscription_text;
mod trip_text;

use crate::playing::Cases;
use case_text::play_cases;
use std::io;

fn main(rt: HostRuntime) -> io::Result<()> {
    play_cases(&rt, &Cases)
}
