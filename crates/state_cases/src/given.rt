// What the words of a case say. What finds no memory is left out: then the case differs, and is played again.

use case_text::{Section, long_number_in, push_times, text_of};
use side_base::{Blob, Text};
use std::alloc::Global;

/// The number that a text begins with.
pub(crate) fn number(text: &str) -> u64 {
    long_number_in(text.as_bytes())
}

/// The text of a section, as often as some words say; once where they say nothing.
pub(crate) fn repeated(alloc: Global, section: &Section<'_>, times: &str) -> Blob {
    let text = text_of(alloc, section);
    if times.is_empty() {
        return text;
    }
    let mut all = Blob::new(alloc);
    let _ = push_times(&mut all, text.bytes(), number(times));
    all
}

/// A copy of a text.
pub(crate) fn text(alloc: Global, text: &str) -> Text {
    match Text::from_str(alloc, text) {
        Ok(copy) => copy,
        Err(_) => Text::from_static(alloc, "no memory"),
    }
}

/// A text of bytes, which are UTF-8.
pub(crate) fn text_in(alloc: Global, bytes: &[u8]) -> Text {
    text(alloc, str::from_utf8(bytes).unwrap_or("no text"))
}
