// Responses as texts: the status, a line for each field, and the body behind an empty line.

use case_text::Lines;
use side_base::{Fields, NoMemory, Response, Text};
use std::alloc::Global;

fn add_fields(lines: &mut Lines, fields: &Fields) {
    for place in 0..fields.len() {
        lines.add(fields.at(place).name.as_str());
        lines.add_bytes(": ", fields.at(place).value.bytes());
    }
}

/// A response, as a text.
pub(crate) fn response_text(alloc: Global, response: &Response) -> Text {
    let mut lines = Lines::new(alloc);
    lines.add_number_line("", u64::from(response.status));
    add_fields(&mut lines, &response.fields);
    if !response.body.is_empty() {
        lines.add_bytes("\n", response.body.bytes());
    }
    lines.into_text()
}

/// A response, if there was memory for it, as a text.
pub(crate) fn told(alloc: Global, response: Result<Response, NoMemory>) -> Text {
    match response {
        Ok(response) => response_text(alloc, &response),
        Err(_) => Text::from_static(alloc, "no memory\n"),
    }
}
