//! Plays the cases of the files that its words name: texts, each with what reading it must come to. Prints each that differs, and at
//! the end how many there were.
#![tactic(auto)]

mod asked;
mod blobs;
mod built;
mod copies;
mod fields;
mod json;
mod lanes;
mod members;
mod numbers;
mod sequences;
mod texts;
mod told;

use crate::asked::answer;
use case_text::{Answerer, Section, play_lines};
use side_base::{NoMemory, Text};
use std::alloc::Global;
use std::io;

/// The words of the sections say which call answers their lines.
#[derive(Drop)]
struct Calls;

impl Answerer for Calls {
    fn answer(
        &self,
        alloc: Global,
        _sections: &[Section<'_>],
        section: &Section<'_>,
        given: &[u8],
    ) -> Result<Text, NoMemory> {
        answer(alloc, section.word, given)
    }
}

fn main(rt: HostRuntime) -> io::Result<()> {
    play_lines(&rt, &Calls)
}
