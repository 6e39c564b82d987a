// A case, played and compared.

use crate::asked::answer;
use crate::given::{World, app_of, is_given, read};
use crate::subs_text::names_text;
use case_text::{Lines, Piece, Player, Section, sections, text_of};
use side_base::{NoMemory, Text};
use std::alloc::Global;
use topic_spec::allowed;

// Adds where what is wanted of a section is not what is answered.
fn judge(
    alloc: Global,
    world: &World,
    kept: &Text,
    sections: &[Section<'_>],
    app: &Text,
    section: &Section<'_>,
    lines: &mut Lines,
) -> Result<(), NoMemory> {
    let got = answer(alloc, world, kept, sections, app, section)?;
    let wanted = text_of(alloc, section);
    lines.compare(section.word, wanted.bytes(), got.bytes());
    Ok(())
}

// Adds what is wrong of the sections that ask.
fn judge_all(
    alloc: Global,
    world: &World,
    kept: &Text,
    sections: &[Section<'_>],
    app: &Text,
    lines: &mut Lines,
) -> Result<(), NoMemory> {
    for section in sections {
        if !is_given(section.word) {
            judge(alloc, world, kept, sections, app, section, lines)?;
        }
    }
    Ok(())
}

fn asks(sections: &[Section<'_>]) -> bool {
    sections.iter().any(|section| !is_given(section.word))
}

// The subscriptions of a case that the app may have.
fn kept_of(alloc: Global, sections: &[Section<'_>], app: &Text) -> Result<Text, NoMemory> {
    let world = read(alloc, sections, app)?;
    let kept = allowed(world.subs, &world.components, app);
    names_text(alloc, &kept)
}

// Adds what is wrong of a case whose sections are these.
fn judge_case(alloc: Global, sections: &[Section<'_>], lines: &mut Lines) -> Result<(), NoMemory> {
    if !asks(sections) {
        lines.add_line("nothing is asked", "");
        return Ok(());
    }
    let app = app_of(alloc, sections)?;
    let kept = kept_of(alloc, sections, &app)?;
    let world = read(alloc, sections, &app)?;
    judge_all(alloc, &world, &kept, sections, &app, lines)
}

fn play(alloc: Global, case: &Piece<'_>, lines: &mut Lines) -> Result<(), NoMemory> {
    let sections = sections(alloc, case)?;
    judge_case(alloc, &sections, lines)
}

/// The cases of documents and lists of subscriptions.
#[derive(Drop)]
pub(crate) struct Cases;

impl Player for Cases {
    fn play(&self, alloc: Global, case: &Piece<'_>, lines: &mut Lines) {
        if play(alloc, case, lines).is_err() {
            lines.lack();
        }
    }
}
