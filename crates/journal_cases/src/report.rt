// What is said of a case that differs.

use case_text::{Lines, Section, said, without_blank_end};
use side_base::{NoMemory, Text};
use std::alloc::Global;

/// What differs so far.
#[derive(Drop)]
pub(crate) struct Report {
    alloc: Global,
    lines: Lines,
}

impl Report {
    pub(crate) fn new(alloc: Global) -> Report {
        Report {
            alloc,
            lines: Lines::new(alloc),
        }
    }

    /// Memory lacked for the case itself.
    pub(crate) fn lack(&mut self) {
        self.lines.lack();
    }

    /// Says where a section wants something else than this.
    pub(crate) fn judge_text(&mut self, section: &Section<'_>, came: &str) {
        match said(self.alloc, without_blank_end(section.text)) {
            Ok(wanted) => {
                self.lines
                    .compare(section.word, wanted.bytes(), came.as_bytes())
            }
            Err(_) => self.lack(),
        }
    }

    /// The same of lines, of which the last may lack its end.
    pub(crate) fn judge(&mut self, section: &Section<'_>, mut came: Lines) {
        if !came.as_str().ends_with('\n') {
            came.add("\n");
        }
        match came.done() {
            Ok(came) => self.judge_text(section, came.as_str()),
            Err(_) => self.lack(),
        }
    }

    /// Says that nothing is asked.
    pub(crate) fn miss(&mut self) {
        self.lines.add("nothing is asked\n");
    }

    /// What differs; want of memory where it lacked for the case itself.
    pub(crate) fn done(self) -> Result<Text, NoMemory> {
        self.lines.done()
    }
}
