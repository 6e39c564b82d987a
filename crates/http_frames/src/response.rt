ghost use Rattle.std.specs.Prelude.{◌≡◌, ◌++◌, length, take, OnOk, OnErr};
ghost use Rattle.std.specs.List.{flat_map};
ghost use Rattle.http.specs.StatusCode.{IsStatusCode};
ghost use Rattle.http_frames.specs.Written.{written, continue_bytes, phrase, status_line, field_line, length_line, close_line, content, is_bare};

use http::StatusCode;
use itoa::Buffer;
use side_base::{Blob, Field, Fields, NoMemory, Response};

const VERSION: &[u8] = b"HTTP/1.1 ";

const SPACE: &[u8] = b" ";

const COLON: &[u8] = b": ";

const LINE_END: &[u8] = b"\r\n";

const CONTENT_LENGTH: &[u8] = b"Content-Length: ";

const CONNECTION_CLOSE: &[u8] = b"Connection: close\r\n";

const CONTINUE: &[u8] = b"HTTP/1.1 100 Continue\r\n\r\n";

/// At least the bytes of a head without the response's own fields.
const HEAD_ROOM: usize = 128;

/// The bytes of the response that tells that the content of a request is wanted, `100 Continue` (RFC 9110, section 15.2.1). Takes no memory.
pub fn continue_bytes() -> &'static [u8]
    ensures { result.now ≡ continue_bytes }
{
    CONTINUE
}

/// Appends the bytes of `response` to `out` (RFC 9112, sections 4 to 6).
///
/// The status is from 100 to 999. The length of the content is written, except at 204 and 304, which have none.
/// `head_only` leaves the content out, as the answer to HEAD does; `close` writes `Connection: close`.
/// Without memory `out` stays as it was.
pub fn push_response(
    out: &mut Blob,
    response: &Response,
    head_only: bool,
    close: bool,
) -> Result<(), NoMemory>
    requires { IsStatusCode response.now.status }
    ensures ok { OnOk result (out.new ≡ out.old ++ written response.now head_only close) }
    ensures err { OnErr result (out.new ≡ out.old) }
{
    out.reserve(room_for(response, head_only))?;
    let before = out.len();
    let pushed = push_parts(out, response, head_only, close);
    if pushed.is_err() {
        out.truncate(before);
    }
    pushed
}

/// Room for the bytes of the response, so that they are appended without a second allocation. The number is a hint.
fn room_for(response: &Response, head_only: bool) -> usize {
    let mut room = HEAD_ROOM;
    for i in 0..response.fields.len() {
        let field = response.fields.at(i);
        let name_and_value = field.name.bytes().len().saturating_add(field.value.len());
        room = room
            .saturating_add(name_and_value)
            .saturating_add(COLON.len() + LINE_END.len());
    }
    if head_only {
        room
    } else {
        room.saturating_add(response.body.len())
    }
}

fn push_parts(
    out: &mut Blob,
    response: &Response,
    head_only: bool,
    close: bool,
) -> Result<(), NoMemory>
    requires { IsStatusCode response.now.status }
    ensures ok { OnOk result (out.new ≡ out.old ++ written response.now head_only close) }
    ensures err { OnErr result (take (length out.old) out.new ≡ out.old) }
{
    push_status_line(out, response.status)?;
    push_fields(out, &response.fields)?;
    push_length_line(out, response)?;
    push_close_line(out, close)?;
    out.push(LINE_END)?;
    push_content(out, response, head_only)?;
    Ok(())
}

fn push_status_line(out: &mut Blob, status: u16) -> Result<(), NoMemory>
    requires { IsStatusCode status }
    ensures ok { OnOk result (out.new ≡ out.old ++ status_line status) }
    ensures err { OnErr result (take (length out.old) out.new ≡ out.old) }
{
    out.push(VERSION)?;
    out.push(Buffer::new().format(status).as_bytes())?;
    out.push(SPACE)?;
    out.push(phrase(status).as_bytes())?;
    out.push(LINE_END)
}

/// The phrase that belongs to a status code, or the empty text.
fn phrase(status: u16) -> &'static str
    requires { IsStatusCode status }
    ensures { result.now ≡ phrase status }
{
    match StatusCode::from_u16(status) {
        Ok(code) => match code.canonical_reason() {
            Some(reason) => reason,
            None => "",
        },
        Err(_) => "",
    }
}

fn push_fields(out: &mut Blob, fields: &Fields) -> Result<(), NoMemory>
    ensures ok { OnOk result (out.new ≡ out.old ++ flat_map field_line fields.now) }
    ensures err { OnErr result (take (length out.old) out.new ≡ out.old) }
{
    for i in 0..fields.len() {
        push_field(out, fields.at(i))?;
    }
    Ok(())
}

fn push_field(out: &mut Blob, field: &Field) -> Result<(), NoMemory>
    ensures ok { OnOk result (out.new ≡ out.old ++ field_line field.now) }
    ensures err { OnErr result (take (length out.old) out.new ≡ out.old) }
{
    out.push(field.name.bytes())?;
    out.push(COLON)?;
    out.push(field.value.bytes())?;
    out.push(LINE_END)
}

fn push_length_line(out: &mut Blob, response: &Response) -> Result<(), NoMemory>
    ensures ok { OnOk result (out.new ≡ out.old ++ length_line response.now) }
    ensures err { OnErr result (take (length out.old) out.new ≡ out.old) }
{
    if is_bare(response.status) {
        return Ok(());
    }
    out.push(CONTENT_LENGTH)?;
    out.push(Buffer::new().format(response.body.len()).as_bytes())?;
    out.push(LINE_END)
}

fn push_close_line(out: &mut Blob, close: bool) -> Result<(), NoMemory>
    ensures ok { OnOk result (out.new ≡ out.old ++ close_line close) }
    ensures err { OnErr result (out.new ≡ out.old) }
{
    if close {
        out.push(CONNECTION_CLOSE)
    } else {
        Ok(())
    }
}

fn push_content(out: &mut Blob, response: &Response, head_only: bool) -> Result<(), NoMemory>
    ensures ok { OnOk result (out.new ≡ out.old ++ content response.now head_only) }
    ensures err { OnErr result (out.new ≡ out.old) }
{
    if is_bare(response.status) || head_only {
        Ok(())
    } else {
        out.push(response.body.bytes())
    }
}

/// Whether a response with this status has no content and says no length.
fn is_bare(status: u16) -> bool
    ensures { result ≡ is_bare status }
{
    status == 204 || status == 304
}
