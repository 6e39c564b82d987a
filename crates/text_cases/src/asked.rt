// Which call a section asks for.

use crate::blobs::{add_blob, add_literal};
use crate::built::add_built;
use crate::copies::add_copies;
use crate::fields::{add_first_item, add_has_item, add_value};
use crate::json::{add_asked, asked_by};
use crate::lanes::{add_above, add_each_byte, add_escaped, add_lanes, add_special};
use crate::members::add_written;
use crate::numbers::{add_digits, add_duration, add_moment};
use crate::sequences::add_sequence;
use crate::texts::{add_into_text, add_utf8};
use case_text::Lines;
use side_base::{NoMemory, Text};
use std::alloc::Global;

/// The two parts of what is given, between which ` ? ` stands.
pub(crate) fn parts(given: &[u8]) -> (&[u8], &[u8]) {
    for at in 0..given.len() {
        let (front, behind) = given.split_at(at);
        if let [b' ', b'?', b' ', rest @ ..] = behind {
            return (front, rest);
        }
    }
    (given, b"")
}

fn of_whole(alloc: Global, word: &str, given: &[u8], lines: &mut Lines) -> bool {
    match word {
        "duration" => add_duration(alloc, given, lines),
        "digits" => add_digits(given, lines),
        "moment" => add_moment(given, lines),
        "utf8" => add_utf8(alloc, given, lines),
        "into-text" => add_into_text(alloc, given, lines),
        "blob" => add_blob(alloc, given, lines),
        "copies" => add_copies(alloc, given, lines),
        "literal" => add_literal(alloc, given, lines),
        "sequence" => add_sequence(alloc, given, lines),
        "built-json" => add_built(alloc, given, lines),
        "written" => add_written(alloc, given, lines),
        _ => return false,
    }
    true
}

fn of_parts(alloc: Global, word: &str, given: &[u8], lines: &mut Lines) -> bool {
    let (one, other) = parts(given);
    match word {
        "special" => add_special(one, other, lines),
        "above" => add_above(one, other, lines),
        "escaped" => add_escaped(given, lines),
        "lanes" => add_lanes(given, lines),
        "each-byte" => add_each_byte(lines),
        "first-item" => add_first_item(given, lines),
        "has-item" => add_has_item(one, other, lines),
        "value" => add_value(alloc, one, other, lines),
        _ => return false,
    }
    true
}

fn of_json(alloc: Global, word: &str, given: &[u8], lines: &mut Lines) -> bool {
    match asked_by(word) {
        Some(asked) => add_asked(alloc, asked, given, lines),
        None => return false,
    }
    true
}

/// The answer to a line of a section of this word.
pub(crate) fn answer(alloc: Global, word: &str, given: &[u8]) -> Result<Text, NoMemory> {
    let mut lines = Lines::new(alloc);
    let known = of_whole(alloc, word, given, &mut lines)
        || of_parts(alloc, word, given, &mut lines)
        || of_json(alloc, word, given, &mut lines);
    if !known {
        lines.add("no such section");
    }
    lines.done()
}
