// Responses as they are written, and requests that end a connection.

use crate::given::{add_fields, has};
use case_text::{Lines, Section, joined_text, name_in, number_in};
use http_frames::{closes, push_response};
use side_base::{Blob, Fields, Method, NoMemory, Request, Response};
use std::alloc::Global;

/// What stands before the response in what it is appended to.
const BEFORE: &[u8] = b"before";

// The status of a response, from 100 to 999.
fn status_of(sections: &[Section<'_>]) -> u16 {
    let status = number_in(name_in(sections, "response").unwrap_or(""));
    u16::try_from(status).unwrap_or(0)
}

// Appends a response. A call that found no memory is made again.
fn push(out: &mut Blob, response: &Response, head_only: bool, close: bool) -> Result<(), NoMemory> {
    if response.status < 100 || response.status > 999 {
        return out.push(b"no status");
    }
    match push_response(out, response, head_only, close) {
        Ok(()) => Ok(()),
        Err(_) => push_response(out, response, head_only, close),
    }
}

// Writes the response behind what stands there.
fn write(out: &mut Blob, response: &Response, sections: &[Section<'_>]) -> Result<(), NoMemory> {
    out.push(BEFORE)?;
    push(
        out,
        response,
        has(sections, "head-only"),
        has(sections, "close"),
    )
}

fn compare_written(out: &[u8], wanted: &[u8], lines: &mut Lines) {
    match out.strip_prefix(BEFORE) {
        Some(written) => lines.compare("written", wanted, written),
        None => lines.add_line("what stood there is changed", ""),
    }
}

fn compare_response(
    alloc: Global,
    response: &Response,
    sections: &[Section<'_>],
    lines: &mut Lines,
) {
    let wanted = joined_text(alloc, sections, "written");
    let mut out = Blob::new(alloc);
    let _ = write(&mut out, response, sections);
    compare_written(out.bytes(), wanted.bytes(), lines);
    drop(out);
    drop(wanted);
}

/// Adds where a response is not written as it should.
pub(crate) fn play_response(alloc: Global, sections: &[Section<'_>], lines: &mut Lines) {
    let mut response = Response {
        status: status_of(sections),
        fields: Fields::new(alloc),
        body: joined_text(alloc, sections, "body"),
    };
    let _ = add_fields(alloc, sections, &mut response.fields);
    compare_response(alloc, &response, sections, lines);
    drop(response);
}

// Whether a request of this minor version and these fields ends the connection.
fn ends(alloc: Global, minor: u8, sections: &[Section<'_>]) -> bool {
    let mut request = Request {
        method: Method::Get,
        target: Blob::new(alloc),
        minor,
        fields: Fields::new(alloc),
        body: Blob::new(alloc),
    };
    let _ = add_fields(alloc, sections, &mut request.fields);
    let ends = closes(&request);
    drop(request);
    ends
}

/// Adds where a request does not end the connection as it should.
pub(crate) fn play_request(alloc: Global, sections: &[Section<'_>], lines: &mut Lines) {
    let minor = number_in(name_in(sections, "request").unwrap_or(""));
    let minor = u8::try_from(minor).unwrap_or(1);
    let got = if ends(alloc, minor, sections) {
        "yes"
    } else {
        "no"
    };
    let wanted = name_in(sections, "closes").unwrap_or("");
    lines.compare("closes", wanted.as_bytes(), got.as_bytes());
}
