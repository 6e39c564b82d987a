//! What came of a case, as a text: each response, what was asked of the link, and where the clock stands.

use case_text::Lines;
use side_base::{Fields, LinkRequest, Method, Response};
use side_memory::{MemoryClock, MemoryLink};
use side_world::{Clock, LinkCall};
use turn_cell::ApiErr;

// Adds bytes: they themselves, if they are a text, and else their numbers.
fn add_bytes(lines: &mut Lines, words: &str, bytes: &[u8]) {
    lines.add(words);
    match str::from_utf8(bytes) {
        Ok(text) => lines.add(text),
        Err(_) => add_numbers(lines, bytes),
    }
    lines.add("\n");
}

fn add_numbers(lines: &mut Lines, bytes: &[u8]) {
    lines.add("bytes");
    for byte in bytes {
        lines.add_number(" ", u64::from(*byte));
    }
}

fn add_fields(lines: &mut Lines, fields: &Fields) {
    for place in 0..fields.len() {
        lines.add(fields.at(place).name.as_str());
        add_bytes(lines, ": ", fields.at(place).value.bytes());
    }
}

// Adds a content, if there is any.
fn add_body(lines: &mut Lines, body: &[u8]) {
    if !body.is_empty() {
        add_bytes(lines, "> ", body);
    }
}

fn method_name(method: Method) -> &'static str {
    match method {
        Method::Get => "GET ",
        Method::Head => "HEAD ",
        Method::Post => "POST ",
        Method::Put => "PUT ",
        Method::Patch => "PATCH ",
        Method::Delete => "DELETE ",
        Method::Options => "OPTIONS ",
        Method::Other => "OTHER ",
    }
}

fn add_head(lines: &mut Lines, request: &LinkRequest, limit_ms: u64) {
    lines.add(method_name(request.method));
    lines.add(request.host.as_str());
    lines.add_number(" ", u64::from(request.port));
    lines.add_shown(" ", request.target.bytes());
    lines.add_number_line(" within ", limit_ms);
}

fn add_request(lines: &mut Lines, request: &LinkRequest, limit_ms: u64) {
    add_head(lines, request, limit_ms);
    add_fields(lines, &request.fields);
    add_body(lines, request.body.bytes());
}

fn add_response(lines: &mut Lines, response: &Response) {
    lines.add_number_line("", u64::from(response.status));
    add_fields(lines, &response.fields);
    add_body(lines, response.body.bytes());
}

/// Adds what a call was answered.
pub fn add_answer(lines: &mut Lines, answer: &Result<Response, ApiErr>) {
    match answer {
        Ok(response) => add_response(lines, response),
        Err(ApiErr::NoMemory) => lines.add("no memory\n"),
        Err(ApiErr::Exhausted { .. }) => lines.add("exhausted\n"),
    }
}

/// Adds what the link was asked.
pub fn add_asked(lines: &mut Lines, link: &MemoryLink) {
    match link.calls() {
        Some(calls) => add_calls(lines, calls),
        None => lines.lack(),
    }
}

fn add_calls(lines: &mut Lines, calls: &[LinkCall]) {
    for call in calls {
        add_request(lines, &call.request, call.limit_ms);
    }
}

/// Adds what the link was asked, each without its fields and its content.
pub fn add_asked_briefly(lines: &mut Lines, link: &MemoryLink) {
    match link.calls() {
        Some(calls) => add_heads(lines, calls),
        None => lines.lack(),
    }
}

fn add_heads(lines: &mut Lines, calls: &[LinkCall]) {
    for call in calls {
        add_head(lines, &call.request, call.limit_ms);
    }
}

/// Adds where the clock stands, if it isn't at the beginning of 1970.
pub fn add_clock(lines: &mut Lines, clock: &mut MemoryClock) {
    let now = clock.now().ms();
    if now != 0 {
        lines.add_number_line("at ", now);
    }
}
