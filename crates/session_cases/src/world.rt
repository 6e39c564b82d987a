// The world of a case, in memory.

use crate::given::{places, steps};
use crate::link::link_of;
use case_text::{Section, joined_text, text_of};
use side_base::{Moment, Places, Text};
use side_memory::{
    MemoryClock, MemoryFiles, MemoryLink, MemoryOutside, MemorySink, MemorySource, Numbers, Sizes,
};
use sidecar_cli::World;
use std::alloc::Global;

/// A world in memory.
pub(crate) type Made = World<
    MemorySource,
    MemorySink,
    MemorySink,
    MemoryFiles,
    MemoryLink,
    MemoryClock,
    MemoryOutside,
>;

fn add_file(alloc: Global, files: &mut MemoryFiles, section: &Section<'_>) {
    if let Ok(name) = Text::from_str(alloc, section.name) {
        let _ = files.add_file(b"d", name, text_of(alloc, section));
    }
}

// The folder `d`, with the files of a case.
fn files(alloc: Global, sections: &[Section<'_>]) -> MemoryFiles {
    let mut files = MemoryFiles::new(alloc, places(alloc, sections, "files-fail"));
    let _ = files.add_folder(b"d");
    for section in sections {
        if section.word == "file" {
            add_file(alloc, &mut files, section);
        }
    }
    files
}

fn add_disk(alloc: Global, outside: &mut MemoryOutside, section: &Section<'_>, failing: Places) {
    let bytes = text_of(alloc, section);
    let _ = outside.add_disk(section.name.as_bytes(), bytes.bytes(), failing);
}

// An outside with the disks of a case.
fn outside(alloc: Global, sections: &[Section<'_>]) -> MemoryOutside {
    let failing = places(alloc, sections, "outside-fails");
    let mut outside = MemoryOutside::new(alloc, Numbers::new(alloc), failing);
    for section in sections {
        if section.word == "disk" {
            let failing = places(alloc, sections, "disk-fails");
            add_disk(alloc, &mut outside, section, failing);
        }
    }
    outside
}

fn source(alloc: Global, sections: &[Section<'_>], reads: Sizes) -> MemorySource {
    let input = joined_text(alloc, sections, "input");
    MemorySource::new(input, reads, places(alloc, sections, "source-fails"))
}

// A sink of which the calls behind this word fail.
fn sink(alloc: Global, sections: &[Section<'_>], word: &str) -> MemorySink {
    MemorySink::new(alloc, Sizes::new(alloc), places(alloc, sections, word))
}

// The beginning of 1970.
fn first_moment() -> Moment {
    match Moment::at(0) {
        Some(moment) => moment,
        None => unreachable!(),
    }
}

/// The world of a case, whose reads bring so many bytes at most.
pub(crate) fn world(alloc: Global, sections: &[Section<'_>], reads: Sizes) -> Made {
    World {
        source: source(alloc, sections, reads),
        sink: sink(alloc, sections, "sink-fails"),
        note: sink(alloc, sections, "note-fails"),
        files: files(alloc, sections),
        link: link_of(alloc, sections),
        clock: MemoryClock::new(alloc, first_moment(), steps(alloc, sections)),
        outside: outside(alloc, sections),
    }
}
