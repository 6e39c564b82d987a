use crate::SameWord;
use crate::script::{clock_of, link_of};
use crate::words::number_named;
use case_text::Section;
use side_memory::{MemoryClock, MemoryLink};
use std::alloc::Global;

/// What the calls of a case work with: the link, the clock and the random words.
#[derive(Drop)]
pub struct World {
    pub link: MemoryLink,
    pub clock: MemoryClock,
    pub word: SameWord,
}

impl World {
    /// The world of a case, as its sections say it.
    pub fn new(alloc: Global, sections: &[Section<'_>]) -> World {
        World {
            link: link_of(alloc, sections),
            clock: clock_of(alloc, sections),
            word: SameWord {
                word: number_named(sections, "word"),
            },
        }
    }
}
