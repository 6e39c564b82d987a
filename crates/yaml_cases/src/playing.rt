// A case, played and compared. Where memory lacks for a part, that part is missing, and the case differs.

use crate::asked::add_answer;
use crate::given::{add_file, is_given};
use case_text::{Lines, Piece, Player, Section, sections, text_of};
use side_base::Blob;
use std::alloc::Global;
use yaml_subset::{Docs, YamlErr, read_docs};

// Adds where what is wanted of a section is not this answer.
fn compare(alloc: Global, section: &Section<'_>, got: &str, lines: &mut Lines) {
    let wanted = text_of(alloc, section);
    lines.compare(section.word, wanted.bytes(), got.as_bytes());
    drop(wanted);
}

// Adds where what is wanted of a section is not what is answered.
fn judge(alloc: Global, read: &Result<Docs, YamlErr>, section: &Section<'_>, lines: &mut Lines) {
    let mut got = Lines::new(alloc);
    add_answer(alloc, read, section, &mut got);
    compare(alloc, section, got.as_str(), lines);
    drop(got);
}

// Adds what is wrong of the sections that ask; whether there is one.
fn judge_all(
    alloc: Global,
    read: &Result<Docs, YamlErr>,
    sections: &[Section<'_>],
    lines: &mut Lines,
) -> bool {
    let mut asks = false;
    for section in sections {
        if !is_given(section.word) {
            judge(alloc, read, section, lines);
            asks = true;
        }
    }
    asks
}

// Adds what is wrong of the sections of a file that is read.
fn judge_read(
    alloc: Global,
    read: &Result<Docs, YamlErr>,
    sections: &[Section<'_>],
    lines: &mut Lines,
) {
    if !judge_all(alloc, read, sections, lines) {
        lines.add_line("nothing is asked", "");
    }
}

fn play_file(alloc: Global, file: &[u8], sections: &[Section<'_>], lines: &mut Lines) {
    let read = read_docs(alloc, file);
    judge_read(alloc, &read, sections, lines);
}

fn play_sections(alloc: Global, sections: &[Section<'_>], lines: &mut Lines) {
    let mut file = Blob::new(alloc);
    match add_file(alloc, sections, &mut file) {
        Ok(()) => play_file(alloc, file.bytes(), sections, lines),
        Err(_) => lines.add_line("no memory", ""),
    }
    drop(file);
}

/// The cases of files of the YAML subset.
#[derive(Drop)]
pub(crate) struct Cases;

impl Player for Cases {
    fn play(&self, alloc: Global, case: &Piece<'_>, lines: &mut Lines) {
        match sections(alloc, case) {
            Ok(sections) => play_sections(alloc, &sections, lines),
            Err(_) => lines.lack(),
        }
    }
}
