//! Plays the cases of the files that its words name: bodies with the events that they become, and replies with their verdicts. Prints each
//! that differs, and at the end how many there were.
#![tactic(auto)]

mod asked;
mod told;

use crate::asked::answer;
use case_text::{Answerer, Section, play_lines};
use side_base::{NoMemory, Text};
use std::alloc::Global;
use std::io;

/// The words of the sections say which call answers their lines.
#[derive(Drop)]
struct Calls;

impl Answerer for Calls {
    fn answer(
        &self,
        alloc: Global,
        _sections: &[Section<'_>],
        section: &Section<'_>,
        given: &[u8],
    ) -> Result<Text, NoMemory> {
        answer(alloc, section.word, section.name, given)
    }
}

fn main(rt: HostRuntime) -> io::Result<()> {
    play_lines(&rt, &Calls)
}
