// What the sections of a case say.

use case_text::{Section, name_in, said};
use side_base::{Blob, Field, Fields, NoMemory, Text};
use std::alloc::Global;

/// Whether a word is one of these, with a space between each.
pub(crate) fn is_among(words: &str, word: &str) -> bool {
    for one in words.split(' ') {
        if one == word {
            return true;
        }
    }
    false
}

/// Whether there is a section of this word.
pub(crate) fn has(sections: &[Section<'_>], word: &str) -> bool {
    name_in(sections, word).is_some()
}

/// What a text says, its escapes undone; nothing where memory lacks.
pub(crate) fn said_of(alloc: Global, text: &str) -> Blob {
    said(alloc, text.as_bytes()).unwrap_or(Blob::new(alloc))
}

/// What stands behind the first section's word, its escapes undone; nothing without one.
pub(crate) fn named(alloc: Global, sections: &[Section<'_>], word: &str) -> Blob {
    said_of(alloc, name_in(sections, word).unwrap_or(""))
}

// Adds the field of this name and value.
fn add_field(alloc: Global, name: &str, value: &str, fields: &mut Fields) -> Result<(), NoMemory> {
    let name = Text::from_str(alloc, name)?;
    fields.push(Field {
        name,
        value: said_of(alloc, value),
    })
}

// Adds the field that a section's name gives: its own name up to the first space, and its value.
fn add_line(alloc: Global, line: &str, fields: &mut Fields) -> Result<(), NoMemory> {
    match line.split_once(' ') {
        Some((name, value)) => add_field(alloc, name, value, fields),
        None => add_field(alloc, line, "", fields),
    }
}

/// Adds the fields of the sections `field`.
pub(crate) fn add_fields(
    alloc: Global,
    sections: &[Section<'_>],
    fields: &mut Fields,
) -> Result<(), NoMemory> {
    for section in sections {
        if section.word == "field" {
            add_line(alloc, section.name, fields)?;
        }
    }
    Ok(())
}
