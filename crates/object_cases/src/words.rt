// Words of a case. What finds no memory is left out: then the case differs, and is played again.

use case_text::{Lines, Section, long_number_in, name_in, number_in, said};
use itoa::Buffer;
use side_base::{Blob, Moment, Places, Text};
use std::alloc::Global;

/// The number that a text begins with.
pub(crate) fn number(text: &str) -> u64 {
    long_number_in(text.as_bytes())
}

/// The moment that a text says, in milliseconds.
pub(crate) fn moment(text: &str) -> Moment {
    match Moment::at(number(text)) {
        Some(moment) => moment,
        None => first_moment(),
    }
}

/// The moment of the steps behind a section: `at` sets it.
pub(crate) fn moment_behind(section: &Section<'_>, now: Moment) -> Moment {
    if section.word == "at" {
        moment(section.name)
    } else {
        now
    }
}

/// The beginning of 1970.
pub(crate) fn first_moment() -> Moment {
    match Moment::at(0) {
        Some(moment) => moment,
        None => unreachable!(),
    }
}

/// A copy of a text.
pub(crate) fn text(alloc: Global, text: &str) -> Text {
    match Text::from_str(alloc, text) {
        Ok(copy) => copy,
        Err(_) => Text::from_static(alloc, "no memory"),
    }
}

/// A copy of the bytes of a text.
pub(crate) fn blob(alloc: Global, text: &str) -> Blob {
    let mut blob = Blob::new(alloc);
    let _ = blob.push(text.as_bytes());
    blob
}

/// So many bytes `x`.
pub(crate) fn long_blob(alloc: Global, len: u64) -> Blob {
    let mut blob = Blob::new(alloc);
    for _ in 0..len {
        let _ = blob.push_byte(b'x');
    }
    blob
}

/// The bytes that a text means once its escapes are undone.
pub(crate) fn bytes(alloc: Global, text: &str) -> Blob {
    said(alloc, text.as_bytes()).unwrap_or(Blob::new(alloc))
}

/// Adds words and a number behind them; one past 2^64 is told as the greatest below it.
pub(crate) fn add_len(lines: &mut Lines, words: &str, len: u128) {
    lines.add_number(words, u64::try_from(len).unwrap_or(u64::MAX));
}

/// A number in decimal digits.
pub(crate) fn digits(alloc: Global, number: u64) -> Text {
    let mut buffer = Buffer::new();
    text(alloc, buffer.format(number))
}

/// What stands before the first `;`, and what stands after it.
pub(crate) fn first_part(words: &str) -> (&str, &str) {
    words.split_once(';').unwrap_or((words, ""))
}

/// The commits that fail, counted from 0.
pub(crate) fn failing(alloc: Global, sections: &[Section<'_>]) -> Places {
    let mut places = Places::new(alloc);
    if let Some(words) = name_in(sections, "failing") {
        for word in words.split(' ') {
            let _ = places.push(number_in(word));
        }
    }
    places
}
