// How much of a stream is held.

use crate::given::{has, named};
use crate::streams::{ask_all, feed};
use case_text::{Lines, Section, number_in, text_of};
use http_frames::Framer;
use std::alloc::Global;

// Feeds a piece so many times, and writes what the framer gives. The most bytes held behind a piece, before the framer was asked.
fn most_of_piece(framer: &mut Framer, text: &mut Lines, piece: &[u8], times: u32) -> usize {
    let mut most = 0;
    for _ in 0..times {
        if feed(framer, piece).is_err() {
            text.add("no memory");
            return most;
        }
        most = framer.held().max(most);
        ask_all(framer, text);
    }
    most
}

// How often the text of a section comes.
fn times_of(section: &Section<'_>) -> u32 {
    if section.name.is_empty() {
        1
    } else {
        number_in(section.name)
    }
}

// The same of the sections of a stream, each of them a piece as many times as its name says, or once.
fn most_held(
    alloc: Global,
    framer: &mut Framer,
    text: &mut Lines,
    sections: &[Section<'_>],
) -> usize {
    let mut most = 0;
    for section in sections {
        if section.word == "stream" {
            let piece = text_of(alloc, section);
            most = most_of_piece(framer, text, piece.bytes(), times_of(section)).max(most);
            drop(piece);
        }
    }
    most
}

// The same of a framer of its own.
fn most_anew(alloc: Global, text: &mut Lines, sections: &[Section<'_>]) -> usize {
    let mut framer = Framer::new(alloc);
    let most = most_held(alloc, &mut framer, text, sections);
    drop(framer);
    most
}

// Adds which sections stand beside `held` that mean nothing there.
fn add_beside(sections: &[Section<'_>], lines: &mut Lines) {
    for word in ["pieces", "cut", "first"] {
        if has(sections, word) {
            lines.add_line("not beside held: ", word);
        }
    }
}

/// Adds where a stream whose sections come as they stand does not give what it should, or not as many bytes are held of it at most.
pub(crate) fn play_held(alloc: Global, sections: &[Section<'_>], wanted: &[u8], lines: &mut Lines) {
    add_beside(sections, lines);
    let mut text = Lines::new(alloc);
    let most = most_anew(alloc, &mut text, sections);
    lines.compare("gives", wanted, text.as_str().as_bytes());
    drop(text);
    let mut held = Lines::new(alloc);
    held.add_number("", most as u64);
    let wanted = named(alloc, sections, "held");
    lines.compare("held", wanted.bytes(), held.as_str().as_bytes());
    drop(wanted);
    drop(held);
}
