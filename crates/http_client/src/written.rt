//! The bytes of a request to another program.
ghost use Rattle.std.specs.Prelude.{◌≡◌, ◌≤◌, ◌++◌, ◌∷◌, [], Some, IfOk, OnOk, OnErr, option_copied, length};
ghost use Rattle.std.specs.List.{flat_map, list_all};
ghost use Rattle.httparse.specs.Grammar.{is_uri_byte};
ghost use Rattle.side_world.specs.Faults.{Rose};
ghost use Rattle.http_client.specs.Written.{token_of, takes_content, request_line, host_line, is_said, own_line, length_line, head, is_visible, is_field, is_sendable, prepared_with, prepared, Sends, SendsSome};

use crate::framing::{is_of_connection, is_of_framing};
use httparse::{is_header_value, is_token, is_uri_token};
use itoa::Buffer;
use side_base::{Blob, Field, Fields, LinkRequest, Method, NoMemory, is_same_word};
use side_world::{Failed, Sink, send};
use std::alloc::Global;

const SPACE: &[u8] = b" ";

const COLON: &[u8] = b":";

const COLON_SPACE: &[u8] = b": ";

const LINE_END: &[u8] = b"\r\n";

const VERSION: &[u8] = b" HTTP/1.1\r\n";

const HOST: &[u8] = b"Host: ";

const CONTENT_LENGTH: &[u8] = b"Content-Length: ";

/// The most bytes that go out by one write, where the head has no more.
const FIRST_LIMIT: usize = 16_384;

/// How many bytes most heads have at most.
const HEAD_ROOM: usize = 512;

/// A request that may be sent.
#[derive(Debug, Drop)]
pub struct Prepared {
    /// What goes out first: the whole request, or its head alone.
    first: Blob,
    is_whole: bool,
}

/// Prepares a request, which says its host and port and the length of its content. Its connection is kept.
///
/// `None` where the method is `Other`, or a part of the request has a byte that it may not have, so that the bytes would be another
/// request.
pub fn prepare(alloc: Global, request: &LinkRequest) -> Result<Option<Prepared>, NoMemory>
    ensures { IfOk result (λ it. it ≡ prepared request.now) }
{
    if !is_sendable(request) {
        return Ok(None);
    }
    match token_of(request.method) {
        Some(token) => Ok(Some(prepared_with(alloc, token, request)?)),
        None => Ok(None),
    }
}

/// Prepares a request of this token: its content goes out with its head, in 16,384 bytes at most, or else behind it.
fn prepared_with(alloc: Global, token: &[u8], request: &LinkRequest) -> Result<Prepared, NoMemory>
    ensures { IfOk result (λ it. it ≡ prepared_with token.now request.now) }
{
    let mut first = Blob::new(alloc);
    first.reserve(HEAD_ROOM)?;
    push_head(&mut first, token, request)?;
    let is_whole = request.body.len() <= FIRST_LIMIT.saturating_sub(first.len());
    if is_whole {
        first.push(request.body.bytes())?;
    }
    Ok(Prepared { first, is_whole })
}

/// Sends a request that was prepared, once.
pub(crate) fn send_prepared<N: Sink>(
    sink: &mut N,
    ready: &Prepared,
    request: &LinkRequest,
) -> Result<(), Failed>
    requires { prepared request.now ≡ Some ready.now }
    ensures all { OnOk result (Sends request.now (N.contents sink.old) (N.contents sink.new)) }
    ensures no_fault { OnOk result (N.faults sink.new ≡ N.faults sink.old) }
    ensures some { OnErr result (SendsSome request.now (N.contents sink.old) (N.contents sink.new)) }
    ensures failed { OnErr result (Rose (N.faults sink.old) (N.faults sink.new)) }
    ensures no_fewer { N.faults sink.old ≤ N.faults sink.new }
{
    send(sink, ready.first.bytes())?;
    if ready.is_whole {
        return Ok(());
    }
    send(sink, request.body.bytes())
}

/// The token of a method; `None` for any other.
#[tactic(auto, unfolding(crate::specs::Written::token_of))]
fn token_of(method: Method) -> Option<&'static [u8]>
    ensures { option_copied result ≡ token_of method }
{
    match method {
        Method::Get => Some(b"GET"),
        Method::Head => Some(b"HEAD"),
        Method::Post => Some(b"POST"),
        Method::Put => Some(b"PUT"),
        Method::Patch => Some(b"PATCH"),
        Method::Delete => Some(b"DELETE"),
        Method::Options => Some(b"OPTIONS"),
        Method::Other => None,
    }
}

/// Whether each part of the request has only bytes that it may have.
#[tactic(auto, unfolding(crate::specs::Written::is_sendable))]
fn is_sendable(request: &LinkRequest) -> bool
    ensures { result ≡ is_sendable request.now }
{
    is_visible(request.host.bytes())
        && is_visible(request.target.bytes())
        && are_fields(&request.fields)
}

#[tactic(auto, unfolding(crate::specs::Written::is_visible))]
fn is_visible(bytes: &[u8]) -> bool
    ensures { result ≡ is_visible bytes.now }
{
    !bytes.is_empty() && are_visible(bytes)
}

fn are_visible(bytes: &[u8]) -> bool
    ensures { result ≡ list_all is_uri_byte bytes.now }
{
    bytes.iter().all(|byte| is_uri_token(*byte))
}

fn are_fields(fields: &Fields) -> bool
    ensures { result ≡ list_all is_field fields.now }
{
    for i in 0..fields.len() {
        if !is_field(fields.at(i)) {
            return false;
        }
    }
    true
}

#[tactic(auto, unfolding(crate::specs::Written::is_field))]
fn is_field(field: &Field) -> bool
    ensures { result ≡ is_field field.now }
{
    is_token(field.name.bytes()) && is_header_value(field.value.bytes())
}

fn push_head(out: &mut Blob, token: &[u8], request: &LinkRequest) -> Result<(), NoMemory>
    ensures { OnOk result (out.new ≡ out.old ++ head token.now request.now) }
{
    push_request_line(out, token, request)?;
    push_host_line(out, request)?;
    push_fields(out, &request.fields)?;
    push_length_line(out, request)?;
    out.push(LINE_END)
}

fn push_request_line(out: &mut Blob, token: &[u8], request: &LinkRequest) -> Result<(), NoMemory>
    ensures { OnOk result (out.new ≡ out.old ++ request_line token.now request.now.target) }
{
    out.push(token)?;
    out.push(SPACE)?;
    out.push(request.target.bytes())?;
    out.push(VERSION)
}

fn push_host_line(out: &mut Blob, request: &LinkRequest) -> Result<(), NoMemory>
    ensures { OnOk result (out.new ≡ out.old ++ host_line request.now.host request.now.port) }
{
    out.push(HOST)?;
    out.push(request.host.bytes())?;
    out.push(COLON)?;
    out.push(Buffer::new().format(request.port).as_bytes())?;
    out.push(LINE_END)
}

fn push_fields(out: &mut Blob, fields: &Fields) -> Result<(), NoMemory>
    ensures { OnOk result (out.new ≡ out.old ++ flat_map own_line fields.now) }
{
    for i in 0..fields.len() {
        push_own_line(out, fields.at(i))?;
    }
    Ok(())
}

/// Appends a field, unless it is the link's to say.
fn push_own_line(out: &mut Blob, field: &Field) -> Result<(), NoMemory>
    ensures { OnOk result (out.new ≡ out.old ++ own_line field.now) }
{
    if is_said(field.name.bytes()) {
        return Ok(());
    }
    out.push(field.name.bytes())?;
    out.push(COLON_SPACE)?;
    out.push(field.value.bytes())?;
    out.push(LINE_END)
}

/// Whether it is the link's to say the field of this name: who is asked, or what concerns the connection alone.
#[tactic(auto, unfolding(crate::specs::Written::is_said))]
fn is_said(name: &[u8]) -> bool
    ensures { result ≡ is_said name.now }
{
    is_same_word(name, b"host") || is_of_connection(name) || is_of_framing(name)
}

fn push_length_line(out: &mut Blob, request: &LinkRequest) -> Result<(), NoMemory>
    ensures { OnOk result (out.new ≡ out.old ++ length_line request.now.method (length request.now.body)) }
{
    let len = request.body.len();
    if !takes_content(request.method) && len == 0 {
        return Ok(());
    }
    out.push(CONTENT_LENGTH)?;
    out.push(Buffer::new().format(len).as_bytes())?;
    out.push(LINE_END)
}

/// Whether the length of the content is said even where it is none.
#[tactic(auto, unfolding(crate::specs::Written::takes_content))]
fn takes_content(method: Method) -> bool
    ensures { result ≡ takes_content method }
{
    matches!(method, Method::Post | Method::Put | Method::Patch)
}
