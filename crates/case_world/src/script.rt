//! The link and the clock of a case, by what it says that they answer.

use crate::words::{add_field, moment, number, number_named};
use case_text::{Section, first_word, push_times, text_of};
use side_base::{Blob, Fields, NoMemory, Places, Response};
use side_memory::{LinkAnswers, MemoryClock, MemoryLink, Steps};
use side_world::LinkErr;
use std::alloc::Global;

// The fields of a reply, which the sections behind it say.
fn fields_of(alloc: Global, behind: &[Section<'_>]) -> Fields {
    let mut fields = Fields::new(alloc);
    for section in behind {
        if section.word != "with" {
            return fields;
        }
        add_field(alloc, &mut fields, section);
    }
    fields
}

// The text of a section, so many times.
fn repeated(alloc: Global, section: &Section<'_>, times: u64) -> Result<Blob, NoMemory> {
    let text = text_of(alloc, section);
    let mut body = Blob::new(alloc);
    push_times(&mut body, text.bytes(), times)?;
    Ok(body)
}

/// The text of a section, as many times as these words say, or once where they say nothing; nothing where memory lacks.
pub fn body_of(alloc: Global, section: &Section<'_>, times: &str) -> Blob {
    let times = if times.is_empty() { 1 } else { number(times) };
    repeated(alloc, section, times).unwrap_or(Blob::new(alloc))
}

fn reply(alloc: Global, section: &Section<'_>, behind: &[Section<'_>]) -> Response {
    let (status, times) = first_word(section.name);
    Response {
        status: u16::try_from(number(status)).unwrap_or(0),
        fields: fields_of(alloc, behind),
        body: body_of(alloc, section, times),
    }
}

fn answer(
    alloc: Global,
    section: &Section<'_>,
    behind: &[Section<'_>],
) -> Option<Result<Response, LinkErr>> {
    match section.word {
        "replies" => Some(Ok(reply(alloc, section, behind))),
        "fails" => Some(Err(LinkErr::Failed)),
        "expires" => Some(Err(LinkErr::Expired)),
        "lacks" => Some(Err(LinkErr::NoMemory)),
        _ => None,
    }
}

// What the link answers, in order.
fn answers_of(alloc: Global, sections: &[Section<'_>]) -> LinkAnswers {
    let mut answers = LinkAnswers::new(alloc);
    for i in 0..sections.len() {
        if let Some(answer) = answer(alloc, &sections[i], &sections[i + 1..]) {
            let _ = answers.push(answer);
        }
    }
    answers
}

fn add_steps(steps: &mut Steps, words: &str) {
    for word in words.split(' ') {
        let _ = steps.push(number(word));
    }
}

// How far each reading moves the clock on.
fn steps_of(alloc: Global, sections: &[Section<'_>]) -> Steps {
    let mut steps = Steps::new(alloc);
    for section in sections {
        if section.word == "steps" {
            add_steps(&mut steps, section.name);
        }
    }
    steps
}

/// The link of a case.
pub(crate) fn link_of(alloc: Global, sections: &[Section<'_>]) -> MemoryLink {
    MemoryLink::new(alloc, answers_of(alloc, sections), Places::new(alloc))
}

/// The clock of a case.
pub(crate) fn clock_of(alloc: Global, sections: &[Section<'_>]) -> MemoryClock {
    let start = moment(number_named(sections, "start"));
    MemoryClock::new(alloc, start, steps_of(alloc, sections))
}
