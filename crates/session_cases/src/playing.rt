// A case, played and compared.

use crate::given::{sizes, words};
use crate::link::asked;
use crate::world::{Made, world};
use case_text::{Lines, Piece, Section, add_broken, joined_text, name_in, sections, text_of};
use itoa::Buffer;
use side_base::{NoMemory, Text};
use side_memory::Sizes;
use sidecar_cli::sidecar_main;
use std::alloc::Global;
use std::sync::Wait;
use std::thread::Threads;

// Compares what a disk holds afterwards.
fn compare_disk(alloc: Global, lines: &mut Lines, section: &Section<'_>, world: &Made) {
    match world.outside.disk(section.name.as_bytes()) {
        Some(disk) => lines.compare("kept", text_of(alloc, section).bytes(), disk.bytes()),
        None => lines.add_line("no disk ", section.name),
    }
}

fn is_known(word: &str) -> bool {
    match word {
        "words"
        | "file"
        | "disk"
        | "input"
        | "reads"
        | "cuts"
        | "steps"
        | "source-fails"
        | "sink-fails"
        | "note-fails"
        | "files-fail"
        | "outside-fails"
        | "disk-fails"
        | "link-fails"
        | "replies"
        | "with"
        | "fails"
        | "expires"
        | "lacks"
        | "asked"
        | "output"
        | "note"
        | "status" => true,
        _ => false,
    }
}

// Compares what each section wants that no other of its word is joined to.
fn compare_each(alloc: Global, lines: &mut Lines, sections: &[Section<'_>], world: &Made) {
    for section in sections {
        if section.word == "kept" {
            compare_disk(alloc, lines, section, world);
        } else if !is_known(section.word) {
            lines.add_line("no such section: ", section.word);
        }
    }
}

// Compares what the link was asked.
fn compare_asked(alloc: Global, lines: &mut Lines, sections: &[Section<'_>], world: &Made) {
    let wanted = joined_text(alloc, sections, "asked");
    let got = asked(alloc, &world.link);
    lines.compare("asked", wanted.bytes(), got.as_str().as_bytes());
}

// Compares what was written, what the link was asked, and the status.
fn compare_all(
    alloc: Global,
    lines: &mut Lines,
    sections: &[Section<'_>],
    world: &Made,
    status: u8,
) {
    let output = joined_text(alloc, sections, "output");
    let note = joined_text(alloc, sections, "note");
    let wanted = name_in(sections, "status").unwrap_or("0");
    let mut buffer = Buffer::new();
    lines.compare("output", output.bytes(), world.sink.bytes());
    lines.compare("note", note.bytes(), world.note.bytes());
    compare_asked(alloc, lines, sections, world);
    lines.compare(
        "status",
        wanted.as_bytes(),
        buffer.format(status).as_bytes(),
    );
    compare_each(alloc, lines, sections, world);
}

// Adds what is wrong of a case whose sections are these, where the reads bring so many bytes at most.
fn judge<W: Threads + Wait + Sync>(
    rt: &W,
    alloc: Global,
    sections: &[Section<'_>],
    reads: Sizes,
    lines: &mut Lines,
) {
    let mut world = world(alloc, sections, reads);
    let words = words(alloc, sections);
    let status = sidecar_main(rt, alloc, words.as_slice(), &mut world);
    compare_all(alloc, lines, sections, &world, status.code());
}

// Adds what is wrong where each read brings a byte of the input.
fn judge_bytes<W: Threads + Wait + Sync>(
    rt: &W,
    alloc: Global,
    sections: &[Section<'_>],
    lines: &mut Lines,
) {
    let mut reads = Sizes::new(alloc);
    for _ in 0..joined_text(alloc, sections, "input").len() {
        if reads.push(1).is_err() {
            lines.lack();
        }
    }
    judge(rt, alloc, sections, reads, lines);
}

// Adds what is wrong where the input comes in two pieces, cut behind each of its bytes in turn.
fn judge_cuts<W: Threads + Wait + Sync>(
    rt: &W,
    alloc: Global,
    sections: &[Section<'_>],
    lines: &mut Lines,
) {
    for place in 1..=joined_text(alloc, sections, "input").len().max(1) {
        let mut reads = Sizes::new(alloc);
        if reads.push(place).is_err() {
            lines.lack();
        }
        judge(rt, alloc, sections, reads, lines);
    }
}

// Adds what is wrong of a case, whose input comes as is said, or in two pieces and byte by byte.
fn judge_case<W: Threads + Wait + Sync>(
    rt: &W,
    alloc: Global,
    sections: &[Section<'_>],
    lines: &mut Lines,
) {
    if name_in(sections, "cuts").is_some() {
        judge_cuts(rt, alloc, sections, lines);
        judge_bytes(rt, alloc, sections, lines);
    } else {
        judge(rt, alloc, sections, sizes(alloc, sections), lines);
    }
}

// What is wrong of a case; nothing where it is right.
fn wrong<W: Threads + Wait + Sync>(
    rt: &W,
    alloc: Global,
    case: &Piece<'_>,
) -> Result<Text, NoMemory> {
    let mut lines = Lines::new(alloc);
    let sections = sections(alloc, case)?;
    add_broken(alloc, &sections, &mut lines);
    judge_case(rt, alloc, &sections, &mut lines);
    lines.done()
}

// The same, with want of memory as a difference.
fn wrong_at_last<W: Threads + Wait + Sync>(rt: &W, alloc: Global, case: &Piece<'_>) -> Text {
    match wrong(rt, alloc, case) {
        Ok(wrong) => wrong,
        Err(_) => Text::from_static(alloc, "no memory\n"),
    }
}

/// What is wrong of a case, and whether it was played again: one that differs is, since memory may have lacked.
pub(crate) fn played<W: Threads + Wait + Sync>(
    rt: &W,
    alloc: Global,
    case: &Piece<'_>,
) -> (Text, bool) {
    match wrong(rt, alloc, case) {
        Ok(wrong) if wrong.is_empty() => (wrong, false),
        _ => (wrong_at_last(rt, alloc, case), true),
    }
}
