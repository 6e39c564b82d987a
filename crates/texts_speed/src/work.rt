//! The work that is measured: the requests of a piece are read, and what is done with each.
use crate::rows::Part;
use api_routes::Routers;
use http_frames::{Framer, Step, push_response};
use httparse::Status;
use httparse::spans::{HeaderSpan, parse_request};
use side_base::{Blob, Field, Fields, NoMemory, Request, Response, Text};
use std::alloc::Global;

/// How much of a piece is fed at a time.
const READ: usize = 16_384;

/// What the work takes beside a framer: routers, and the response that is written.
#[derive(Clone, Copy)]
pub(crate) struct Desk<'a> {
    pub(crate) alloc: Global,
    pub(crate) routers: &'a Routers,
    pub(crate) response: &'a Response,
}

/// The field of a response that tells its type.
fn type_field(alloc: Global) -> Result<Field, NoMemory> {
    let value = Blob::from_bytes(alloc, b"application/json")?;
    let name = Text::from_static(alloc, "Content-Type");
    Ok(Field { name, value })
}

fn fields(alloc: Global) -> Result<Fields, NoMemory> {
    let mut fields = Fields::new(alloc);
    fields.push(type_field(alloc)?)?;
    Ok(fields)
}

/// A response with the content of a get of 100 bytes.
pub(crate) fn response(alloc: Global) -> Result<Response, NoMemory> {
    let body = Blob::from_bytes(alloc, &[b'x'; 100])?;
    Ok(Response {
        status: 200,
        fields: fields(alloc)?,
        body,
    })
}

/// Whether a request has a route.
fn is_found(desk: Desk<'_>, request: &Request) -> bool {
    let target = request.target.bytes();
    match desk.routers.route(desk.alloc, request.method, target) {
        Ok(route) => {
            drop(route);
            true
        }
        Err(_) => false,
    }
}

/// Whether the response is written, in place of what stood there.
fn is_written(response: &Response, out: &mut Blob) -> bool {
    out.clear();
    if response.status < 100 || response.status > 999 {
        return false;
    }
    push_response(out, response, false, false).is_ok()
}

/// Whether the work with a request is done.
fn is_done(desk: Desk<'_>, part: Part, request: &Request, out: &mut Blob) -> bool {
    (!part.is_routed || is_found(desk, request))
        && (!part.is_answered || is_written(desk.response, out))
}

/// Whether the work is done with the next request that a framer gives; `None` where it gives none.
fn next_done(desk: Desk<'_>, part: Part, framer: &mut Framer, out: &mut Blob) -> Option<bool> {
    match framer.next() {
        Ok(Step::Request(request)) => {
            let done = is_done(desk, part, &request, out);
            drop(request);
            Some(done)
        }
        _ => None,
    }
}

/// With how many of the requests that a framer gives the work is done.
fn count_given(desk: Desk<'_>, part: Part, framer: &mut Framer, out: &mut Blob) -> u64 {
    let mut count: u64 = 0;
    for _ in 0..u64::MAX {
        match next_done(desk, part, framer, out) {
            Some(done) => count = count.saturating_add(u64::from(done)),
            None => return count,
        }
    }
    count
}

/// With how many of the requests of a piece the work is done.
pub(crate) fn count_framed(
    desk: Desk<'_>,
    part: Part,
    framer: &mut Framer,
    out: &mut Blob,
    piece: &[u8],
) -> u64 {
    let mut count: u64 = 0;
    for read in piece.chunks(READ) {
        if framer.feed(read).is_ok() {
            count = count.saturating_add(count_given(desk, part, framer, out));
        }
    }
    count
}

/// How many bytes a head has; 0 where none begins the bytes.
fn head_len(bytes: &[u8], headers: &mut [HeaderSpan]) -> usize {
    match parse_request(bytes, headers) {
        Ok(Status::Complete(spans)) => spans.len,
        Ok(Status::Partial) | Err(_) => 0,
    }
}

/// How many heads `httparse` finds in a piece, with as many bytes behind each, which it leaves.
pub(crate) fn count_heads(piece: &[u8], behind: usize, headers: &mut [HeaderSpan]) -> u64 {
    let mut count: u64 = 0;
    let mut rest = piece;
    for _ in 0..u64::MAX {
        let len = head_len(rest, headers);
        if len == 0 {
            return count;
        }
        count = count.saturating_add(1);
        let (_, left) = rest.split_at(len.saturating_add(behind).min(rest.len()));
        rest = left;
    }
    count
}
