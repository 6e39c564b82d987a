// The sections of a case, and what they say.
ghost use Rattle.std.specs.Prelude.{◌≡◌, ◌++◌, option_map, IfOk, OnOk};
ghost use Rattle.case_text.specs.Lines.{Added};
ghost use Rattle.case_text.specs.Section.{name_of, said_in, said_of, times_of, repeated, joined_of, broken_line, broken_lines, IsOrLacks};

use crate::SECTION;
use crate::escape::unescaped;
use crate::lines::Lines;
use crate::piece::{Piece, pieces, without_blank_end};
use crate::words::{first_word, number_in, push_times};
use side_base::{Blob, NoMemory};
use std::alloc::Global;

/// A section of a case: the first word of its line, what stands behind that, and its text.
#[derive(Clone, Copy, Debug)]
pub struct Section<'a> {
    pub word: &'a str,
    pub name: &'a str,
    pub text: &'a [u8],
}

// The section that a piece is; one whose line is no text has no word.
fn section_of<'a>(piece: &Piece<'a>) -> Section<'a> {
    let line = match str::from_utf8(piece.head) {
        Ok(line) => line,
        Err(_) => "",
    };
    let (word, name) = first_word(line);
    Section {
        word,
        name,
        text: piece.text,
    }
}

/// The sections of a case, in order.
pub fn sections<'a>(alloc: Global, case: &Piece<'a>) -> Result<Vec<Section<'a>>, NoMemory> {
    let mut all = Vec::new(alloc);
    for piece in pieces(alloc, case.text, SECTION)? {
        all.push(section_of(&piece))?;
    }
    Ok(all)
}

/// The name in the first section of this word.
pub fn name_in<'a>(sections: &[Section<'a>], word: &str) -> Option<&'a str>
    ensures { option_map (λ name. name.now) result ≡ name_of word.now sections.now }
{
    match sections.iter().find(|section| section.word == word) {
        Some(section) => Some(section.name),
        None => None,
    }
}

/// What bytes say, their escapes undone; the words `no escape` where a backslash begins none.
pub fn said(alloc: Global, bytes: &[u8]) -> Result<Blob, NoMemory>
    ensures { IfOk result (λ text. text ≡ said_in bytes.now) }
{
    match unescaped(alloc, bytes)? {
        Some(text) => Ok(text),
        None => Blob::from_bytes(alloc, b"no escape"),
    }
}

/// The text of a section without the empty lines at its end, its escapes undone; nothing where memory lacks.
pub fn text_of(alloc: Global, section: &Section<'_>) -> Blob
    ensures { IsOrLacks (said_of section.now) result }
{
    said(alloc, without_blank_end(section.text)).unwrap_or(Blob::new(alloc))
}

// How often the text of a section stands: the number in its name, or once.
fn times_of(section: &Section<'_>) -> u32
    ensures { result ≡ times_of section.now.name.now }
{
    if section.name.is_empty() {
        1
    } else {
        number_in(section.name)
    }
}

// Adds what a section says, as many times as its name says.
fn add_section(all: &mut Blob, alloc: Global, section: &Section<'_>) -> Result<(), NoMemory>
    ensures { OnOk result (all.new ≡ all.old ++ repeated (times_of section.now.name.now) (said_of section.now)) }
{
    let text = said(alloc, without_blank_end(section.text))?;
    push_times(all, text.bytes(), u64::from(times_of(section)))
}

// What the sections of this word say, one behind the other, each as many times as the number in its name says.
fn joined(alloc: Global, sections: &[Section<'_>], word: &str) -> Result<Blob, NoMemory>
    ensures { IfOk result (λ all. all ≡ joined_of word.now sections.now) }
{
    let mut all = Blob::new(alloc);
    for section in sections {
        if section.word == word {
            add_section(&mut all, alloc, section)?;
        }
    }
    Ok(all)
}

/// What the sections of this word say, one behind the other, each as many times as the number in its name says; nothing where memory
/// lacks.
pub fn joined_text(alloc: Global, sections: &[Section<'_>], word: &str) -> Blob
    ensures { IsOrLacks (joined_of word.now sections.now) result }
{
    joined(alloc, sections, word).unwrap_or(Blob::new(alloc))
}

// Adds a line where the text of a section has a backslash that begins no escape.
fn add_broken_of(alloc: Global, section: &Section<'_>, lines: &mut Lines)
    ensures { Added (broken_line section.now) lines.old lines.new }
{
    match unescaped(alloc, without_blank_end(section.text)) {
        Ok(Some(_)) => {}
        Ok(None) => lines.add_line("a broken escape in section ", section.word),
        Err(_) => lines.lack(),
    }
}

/// Adds a line for each section in whose text a backslash begins no escape.
pub fn add_broken(alloc: Global, sections: &[Section<'_>], lines: &mut Lines)
    ensures { Added (broken_lines sections.now) lines.old lines.new }
{
    for section in sections {
        add_broken_of(alloc, section, lines);
    }
}
