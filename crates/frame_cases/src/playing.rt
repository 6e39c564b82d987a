// A case, played and compared. Where memory lacks for a part, that part is missing, and the case differs.

use crate::given::is_among;
use crate::messages::{play_request, play_response};
use crate::routing::{play_error, play_routes, play_target};
use crate::sets::{is_method, play_set};
use crate::streams::play_stream;
use case_text::{Lines, Piece, Player, Section, sections};
use std::alloc::Global;

/// The words of sections, but for the methods.
const WORDS: &str =
    "stream pieces cut held first gives response field body head-only close written request closes target answer shutdown query set has allow error text";

fn add_unknown(sections: &[Section<'_>], lines: &mut Lines) {
    for section in sections {
        if !is_among(WORDS, section.word) && !is_method(section.word) {
            lines.add_line("no such section: ", section.word);
        }
    }
}

// Plays a case whose first section has this word.
fn play_of(alloc: Global, word: &str, sections: &[Section<'_>], lines: &mut Lines) {
    match word {
        "stream" => play_stream(alloc, sections, lines),
        "response" => play_response(alloc, sections, lines),
        "request" => play_request(alloc, sections, lines),
        "target" => play_target(alloc, sections, lines),
        "set" => play_set(alloc, sections, lines),
        "error" => play_error(alloc, sections, lines),
        _ => play_method(alloc, word, sections, lines),
    }
}

// Plays a case whose first section has this word, which is a method.
fn play_method(alloc: Global, word: &str, sections: &[Section<'_>], lines: &mut Lines) {
    if is_method(word) {
        play_routes(alloc, sections, lines);
    } else {
        lines.add_line("nothing is asked", "");
    }
}

fn first_word<'a>(sections: &[Section<'a>]) -> &'a str {
    match sections.first() {
        Some(section) => section.word,
        None => "",
    }
}

fn play_sections(alloc: Global, sections: &[Section<'_>], lines: &mut Lines) {
    add_unknown(sections, lines);
    play_of(alloc, first_word(sections), sections, lines);
}

/// The cases of streams, messages, targets and routes.
#[derive(Drop)]
pub(crate) struct Cases;

impl Player for Cases {
    fn play(&self, alloc: Global, case: &Piece<'_>, lines: &mut Lines) {
        match sections(alloc, case) {
            Ok(sections) => play_sections(alloc, &sections, lines),
            Err(_) => lines.lack(),
        }
    }
}
