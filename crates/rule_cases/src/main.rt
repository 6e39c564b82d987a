//! Plays the cases of the files that its words name: rules, each with what it answers over an event, or why it is refused. Prints each
//! that differs, and at the end how many there were.
#![tactic(auto)]

mod answered;

use crate::answered::answer;
use case_text::{Answerer, Section, play_lines};
use side_base::{NoMemory, Text};
use std::alloc::Global;
use std::io;

/// The rules of a case over its event.
#[derive(Drop)]
struct Rules;

// The event of a case: an empty map where it has none.
fn event_in<'a>(sections: &[Section<'a>]) -> &'a [u8] {
    match sections.iter().find(|section| section.word == "event") {
        Some(section) => section.text,
        None => b"{}",
    }
}

impl Answerer for Rules {
    fn asks(&self, word: &str) -> bool {
        word != "event"
    }

    fn answer(
        &self,
        alloc: Global,
        sections: &[Section<'_>],
        section: &Section<'_>,
        given: &[u8],
    ) -> Result<Text, NoMemory> {
        answer(alloc, section.word, event_in(sections), given)
    }
}

fn main(rt: HostRuntime) -> io::Result<()> {
    play_lines(&rt, &Rules)
}
