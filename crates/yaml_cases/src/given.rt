// What a case gives: a file.

use case_text::{Section, number_in, text_of};
use side_base::{Blob, NoMemory};
use std::alloc::Global;

fn add_spaces(file: &mut Blob, count: u32) -> Result<(), NoMemory> {
    for _ in 0..count {
        file.push_byte(b' ')?;
    }
    Ok(())
}

// So many sequences within one another, and this in the innermost.
fn add_nested(file: &mut Blob, levels: u32, last: &[u8]) -> Result<(), NoMemory> {
    for level in 0..levels {
        add_spaces(file, level)?;
        file.push(b"-\n")?;
    }
    add_spaces(file, levels)?;
    file.push(last)
}

/// Whether a section of this word gives something, and asks nothing.
pub(crate) fn is_given(word: &str) -> bool {
    match word {
        "file" | "cut" | "nested" => true,
        _ => false,
    }
}

// Lines of which the last one has no end.
fn cut(text: &[u8]) -> &[u8] {
    match text.split_last() {
        Some((_, front)) => front,
        None => text,
    }
}

// The bytes of the file that a section of this word and text is.
fn add_bytes(file: &mut Blob, section: &Section<'_>, text: &[u8]) -> Result<(), NoMemory> {
    match section.word {
        "nested" => add_nested(file, number_in(section.name), cut(text)),
        "cut" => file.push(cut(text)),
        _ => file.push(text),
    }
}

fn add_section(alloc: Global, section: &Section<'_>, file: &mut Blob) -> Result<(), NoMemory> {
    let text = text_of(alloc, section);
    let added = add_bytes(file, section, text.bytes());
    drop(text);
    added
}

/// Adds the bytes of a case's file; none where it has no file.
pub(crate) fn add_file(
    alloc: Global,
    sections: &[Section<'_>],
    file: &mut Blob,
) -> Result<(), NoMemory> {
    for section in sections {
        if is_given(section.word) {
            return add_section(alloc, section, file);
        }
    }
    Ok(())
}
