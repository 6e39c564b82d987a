//! Plays the cases of the files that its words name: files of the YAML subset, and the trees that they say, what is found in them, or how
//! they are refused. Prints each case that differs, and at the end how many there were.
#![tactic(auto)]

mod asked;
mod found;
mod given;
mod playing;
mod tree;

use crate::playing::Cases;
use case_text::play_cases;
use std::io;

fn main(rt: HostRuntime) -> io::Result<()> {
    play_cases(&rt, &Cases)
}
