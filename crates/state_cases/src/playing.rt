// A case, played and compared.

use crate::asked::asked;
use crate::command_text::{command_text, count_of};
use crate::errors::error;
use crate::given::text_in;
use crate::noted::noted;
use crate::replied::replied;
use crate::response_text::told;
use api_error::no_memory_response;
use case_text::{Lines, Piece, Player, Section, joined_text, name_in, sections, text_of};
use meta_api::health;
use side_base::Text;
use state_api::{StateErr, malformed_response};
use std::alloc::Global;
use std::sync::Wait;

/// What the response to a malformed request begins with.
const MALFORMED: &str =
    "400\nContent-Type: application/json\n\n{\"errorCode\":\"ERR_MALFORMED_REQUEST\",\"message\":\"";

/// What it ends with, behind its message.
const MALFORMED_END: &str = "\"}";

// Why there is no command, as a text.
fn fault_text(alloc: Global, error: StateErr) -> Text {
    match error {
        StateErr::Malformed { what } => told(alloc, malformed_response(alloc, what)),
        StateErr::NoMemory => Text::from_static(alloc, "no memory\n"),
    }
}

fn number_text(alloc: Global, count: usize) -> Text {
    let mut lines = Lines::new(alloc);
    lines.add_number_line("", count as u64);
    lines.into_text()
}

// What a section asks of the request of a case.
fn of_request(alloc: Global, sections: &[Section<'_>], section: &Section<'_>) -> Text {
    match asked(alloc, sections, name_in(sections, "request").unwrap_or("")) {
        Some(Ok(cmd)) => match section.word {
            "command" => command_text(alloc, &cmd),
            "count" => number_text(alloc, count_of(&cmd)),
            "to" => replied(alloc, &cmd, section.name, sections),
            _ => Text::from_static(alloc, "a command\n"),
        },
        Some(Err(error)) => fault_text(alloc, error),
        None => Text::from_static(alloc, "no request\n"),
    }
}

fn answer<W: Wait>(rt: &W, alloc: Global, sections: &[Section<'_>], section: &Section<'_>) -> Text {
    match section.word {
        "command" | "count" | "to" | "refused" => of_request(alloc, sections, section),
        "noted" => noted(rt, alloc, sections, true),
        "metadata" => noted(rt, alloc, sections, false),
        "health" => told(alloc, Ok(health(alloc))),
        "error" => error(
            alloc,
            section.name,
            joined_text(alloc, sections, "message").bytes(),
        ),
        "no-memory" => text_in(alloc, no_memory_response()),
        _ => Text::from_static(alloc, "no such section\n"),
    }
}

// What is wanted of a section.
fn wanted(alloc: Global, sections: &[Section<'_>], section: &Section<'_>) -> Text {
    match section.word {
        "command" => text_in(alloc, joined_text(alloc, sections, "command").bytes()),
        "refused" => {
            let mut lines = Lines::new(alloc);
            lines.add(MALFORMED);
            lines.add(section.name);
            lines.add_line(MALFORMED_END, "");
            lines.into_text()
        }
        _ => text_in(alloc, text_of(alloc, section).bytes()),
    }
}

fn is_given(word: &str) -> bool {
    match word {
        "prefix"
        | "request"
        | "key"
        | "target"
        | "field"
        | "body"
        | "found"
        | "absent"
        | "note"
        | "notes"
        | "app"
        | "component"
        | "subscription"
        | "message" => true,
        _ => false,
    }
}

fn judge<W: Wait>(
    rt: &W,
    alloc: Global,
    sections: &[Section<'_>],
    section: &Section<'_>,
    lines: &mut Lines,
) {
    let wanted = wanted(alloc, sections, section);
    let got = answer(rt, alloc, sections, section);
    lines.compare(section.word, wanted.bytes(), got.bytes());
}

// Adds what is wrong of a case whose sections are these.
fn judge_case<W: Wait>(rt: &W, alloc: Global, sections: &[Section<'_>], lines: &mut Lines) {
    let mut asks = false;
    for section in sections {
        if !is_given(section.word) {
            asks = true;
            judge(rt, alloc, sections, section, lines);
        }
    }
    if !asks {
        lines.add("nothing is asked\n");
    }
}

/// The cases of requests and replies; a cell is called for some, which may wait.
#[derive(Drop)]
pub(crate) struct Cases<'a, W> {
    pub(crate) rt: &'a W,
}

impl<W: Wait> Player for Cases<'_, W> {
    fn play(&self, alloc: Global, case: &Piece<'_>, lines: &mut Lines) {
        match sections(alloc, case) {
            Ok(sections) => judge_case(self.rt, alloc, &sections, lines),
            Err(_) => lines.lack(),
        }
    }
}
