//! Plays the cases of the files that its words name: journals and keepers over a disk in memory, the device calls that fail, and what a
//! crash at each moment leaves, however its writes are torn. Prints each case that differs, and at the end how many there were.
#![tactic(auto)]

mod bodies;
mod crashes;
mod disks;
mod journals;
mod keepers;
mod playing;
mod report;
mod rows;
mod saving;
mod words;

use crate::journals::laws_hold;
use crate::playing::Cases;
use case_text::play_cases;
use std::io;

fn main(rt: HostRuntime) -> io::Result<()> {
    laws_hold();
    play_cases(&rt, &Cases)
}
