// The link of a case: what it answers, and what it was asked.

use crate::given::places;
use case_text::{Lines, Section, number_in, text_of};
use side_base::{Field, Fields, LinkRequest, Method, Response, Text};
use side_memory::{LinkAnswers, MemoryLink};
use side_world::{LinkCall, LinkErr};
use std::alloc::Global;

fn add_field(alloc: Global, fields: &mut Fields, section: &Section<'_>) {
    if let Ok(name) = Text::from_str(alloc, section.name) {
        let _ = fields.push(Field {
            name,
            value: text_of(alloc, section),
        });
    }
}

// The fields of a reply, which the sections behind it say.
fn fields_of(alloc: Global, behind: &[Section<'_>]) -> Fields {
    let mut fields = Fields::new(alloc);
    for section in behind {
        if section.word != "with" {
            return fields;
        }
        add_field(alloc, &mut fields, section);
    }
    fields
}

fn reply(alloc: Global, section: &Section<'_>, behind: &[Section<'_>]) -> Response {
    Response {
        status: u16::try_from(number_in(section.name)).unwrap_or(0),
        fields: fields_of(alloc, behind),
        body: text_of(alloc, section),
    }
}

fn answer(
    alloc: Global,
    section: &Section<'_>,
    behind: &[Section<'_>],
) -> Option<Result<Response, LinkErr>> {
    match section.word {
        "replies" => Some(Ok(reply(alloc, section, behind))),
        "fails" => Some(Err(LinkErr::Failed)),
        "expires" => Some(Err(LinkErr::Expired)),
        "lacks" => Some(Err(LinkErr::NoMemory)),
        _ => None,
    }
}

// What the link answers, in order.
fn answers_of(alloc: Global, sections: &[Section<'_>]) -> LinkAnswers {
    let mut answers = LinkAnswers::new(alloc);
    for i in 0..sections.len() {
        if let Some(answer) = answer(alloc, &sections[i], &sections[i + 1..]) {
            let _ = answers.push(answer);
        }
    }
    answers
}

/// The link of a case.
pub(crate) fn link_of(alloc: Global, sections: &[Section<'_>]) -> MemoryLink {
    MemoryLink::new(
        alloc,
        answers_of(alloc, sections),
        places(alloc, sections, "link-fails"),
    )
}

fn method_name(method: Method) -> &'static str {
    match method {
        Method::Get => "GET ",
        Method::Head => "HEAD ",
        Method::Post => "POST ",
        Method::Put => "PUT ",
        Method::Patch => "PATCH ",
        Method::Delete => "DELETE ",
        Method::Options => "OPTIONS ",
        Method::Other => "OTHER ",
    }
}

fn add_fields(lines: &mut Lines, fields: &Fields) {
    for place in 0..fields.len() {
        let field = fields.at(place);
        lines.add(field.name.as_str());
        lines.add_shown(": ", field.value.bytes());
        lines.add("\n");
    }
}

fn add_request(lines: &mut Lines, request: &LinkRequest, limit_ms: u64) {
    lines.add(method_name(request.method));
    lines.add(request.host.as_str());
    lines.add_number(" ", u64::from(request.port));
    lines.add_shown(" ", request.target.bytes());
    lines.add_number_line(" within ", limit_ms);
    add_fields(lines, &request.fields);
    if !request.body.bytes().is_empty() {
        lines.add_shown("> ", request.body.bytes());
        lines.add("\n");
    }
}

fn add_calls(lines: &mut Lines, calls: &[LinkCall]) {
    for call in calls {
        add_request(lines, &call.request, call.limit_ms);
    }
}

/// What a link was asked, in order.
pub(crate) fn asked(alloc: Global, link: &MemoryLink) -> Lines {
    let mut lines = Lines::new(alloc);
    match link.calls() {
        Some(calls) => add_calls(&mut lines, calls),
        None => lines.lack(),
    }
    lines
}
