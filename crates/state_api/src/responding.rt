ghost use Rattle.std.specs.Prelude.{◌≡◌, ◌++◌, ◌∷◌, [], ℕ, List, map, codes, decimal, IfOk, OnOk, All, Some};
ghost use Rattle.std.specs.Str.{IsCharBoundary};
ghost use Rattle.api_error.specs.Body.{error_response, json_type};
ghost use Rattle.state_api.specs.Ran.{IsAnswer};
ghost use Rattle.state_api.specs.Response.{IsCut, bulk_text, code_of, done, etag_field, found_text, joined, json, mismatch_text, next_text, refusal_text, response_of, response_to, row_text, skip_of};

use crate::Ran;
use api_error::{Code, error_response, json_fields};
use itoa::{Buffer, Integer};
use json_text::push_string_of;
use policy_run::Refusal;
use side_base::{Blob, Field, NoMemory, Places, Response, Sequence, Text};
use state_core::{BulkRow, Cmd, Found, Reply, Rows};
use std::alloc::Global;

/// The response to what a command came to. What the reply owns moves into it.
///
/// The reply is one that the command may have, and no want of memory. Of a bulk get each key has a character's end, or its own, behind its
/// first `skip` bytes.
pub fn response(alloc: Global, cmd: &Cmd, ran: Ran) -> Result<Response, NoMemory>
    requires answer { IsAnswer cmd.now ran }
    requires cut { IsCut cmd.now }
    ensures { IfOk result (λ response. response ≡ response_of cmd.now ran) }
{
    match ran {
        Ran::Replied(reply) => response_to(alloc, cmd, reply),
        Ran::Refused(refusal) => refused(alloc, code_of(cmd), refusal),
    }
}

/// The response to a store's reply.
fn response_to(alloc: Global, cmd: &Cmd, reply: Reply) -> Result<Response, NoMemory>
    requires answer { IsAnswer cmd.now (Ran.Replied reply) }
    requires cut { IsCut cmd.now }
    ensures { IfOk result (λ response. response ≡ response_to cmd.now reply) }
{
    let code = code_of(cmd);
    match reply {
        Reply::Value { value, version } => value_response(alloc, value, version),
        Reply::Absent | Reply::Saved | Reply::Deleted | Reply::Committed => Ok(done(alloc)),
        Reply::SomeRefused { places } => places_response(alloc, code, places),
        Reply::Mismatch { place } => mismatch_response(alloc, cmd, place),
        Reply::Rows { rows } => bulk_response(alloc, skip_of(cmd), rows),
        Reply::TooLong { len } => numbered(alloc, 500, code, "too long ", len),
        Reply::Failed => error_response(alloc, 500, code, "store failed"),
        Reply::Full { len } => numbered(alloc, 500, code, "store full at ", len),
        Reply::Spent { next } => numbered(alloc, 500, code, "versions spent at ", next),
        Reply::NoMemory => unreachable!(),
    }
}

/// The code of a command's errors.
fn code_of(cmd: &Cmd) -> Code
    ensures { result ≡ code_of cmd.now }
{
    match cmd {
        Cmd::Get { .. } => Code::StateGet,
        Cmd::Bulk { .. } => Code::StateBulkGet,
        Cmd::Save { .. } => Code::StateSave,
        Cmd::Delete { .. } => Code::StateDelete,
        Cmd::Transact { .. } => Code::StateTransaction,
    }
}

/// How many bytes of a bulk get's keys stand before those of the request.
fn skip_of(cmd: &Cmd) -> usize
    ensures { result ≡ skip_of cmd.now }
{
    match cmd {
        Cmd::Bulk { skip, .. } => *skip,
        _ => 0,
    }
}

/// A success without content.
fn done(alloc: Global) -> Response
    ensures { result ≡ done }
{
    Response {
        status: 204,
        fields: Sequence::new(alloc),
        body: Blob::new(alloc),
    }
}

/// A value with its version.
fn value_response(alloc: Global, value: Blob, version: u64) -> Result<Response, NoMemory>
    ensures { IfOk result (λ response. response ≡ json (etag_field version ∷ []) value) }
{
    let mut fields = json_fields(alloc)?;
    let mut digits = Buffer::new();
    fields.push(Field {
        name: Text::from_static(alloc, "ETag"),
        value: Blob::from_bytes(alloc, digits.format(version).as_bytes())?,
    })?;
    Ok(Response {
        status: 200,
        fields,
        body: value,
    })
}

/// An error whose message ends with a number.
fn numbered<I: Integer>(
    alloc: Global,
    status: u16,
    code: Code,
    message: &str,
    number: I,
) -> Result<Response, NoMemory>
    ensures { IfOk result (λ response. response ≡ error_response status code (message.now ++ I.text number)) }
{
    let mut text = Text::new(alloc);
    text.push(message)?;
    let mut digits = Buffer::new();
    text.push(digits.format(number))?;
    error_response(alloc, status, code, text.as_str())
}

/// The breaker did not let the call through.
fn refused(alloc: Global, code: Code, refusal: Refusal) -> Result<Response, NoMemory>
    ensures { IfOk result (λ response. response ≡ error_response 500 code (refusal_text refusal)) }
{
    match refusal {
        Refusal::Opened { until } => numbered(alloc, 500, code, "breaker open until ", until),
        Refusal::TooMany { out } => numbered(alloc, 500, code, "breaker half-open with ", out),
    }
}

/// The first operation that is not current; a delete has one alone.
fn mismatch_response(alloc: Global, cmd: &Cmd, place: u32) -> Result<Response, NoMemory>
    ensures { IfOk result (λ response. response ≡ error_response 409 (code_of cmd.now) (mismatch_text cmd.now place)) }
{
    match cmd {
        Cmd::Transact { .. } => numbered(
            alloc,
            409,
            Code::StateTransaction,
            "etag mismatch at ",
            place,
        ),
        _ => error_response(alloc, 409, code_of(cmd), "etag mismatch"),
    }
}

/// The places of the items of a save that are not current.
fn places_response(alloc: Global, code: Code, places: Places) -> Result<Response, NoMemory>
    ensures { IfOk result (λ response. response ≡ error_response 409 code (codes "refused " ++ joined (map decimal places))) }
{
    let mut text = Text::new(alloc);
    text.push("refused ")?;
    let mut digits = Buffer::new();
    for i in 0..places.len() {
        push_next(&mut text, i == 0, digits.format(*places.at(i)))?;
    }
    error_response(alloc, 409, code, text.as_str())
}

/// Appends a text to those before it, with a comma between them.
fn push_next(text: &mut Text, is_first: bool, piece: &str) -> Result<(), NoMemory>
    ensures { OnOk result (text.new ≡ text.old ++ next_text is_first piece.now) }
{
    if is_first {
        text.push(piece)
    } else {
        text.push(",")?;
        text.push(piece)
    }
}

/// The rows of a bulk get.
fn bulk_response(alloc: Global, skip: usize, rows: Rows) -> Result<Response, NoMemory>
    requires { All (λ row. IsCharBoundary row.key skip) rows }
    ensures { IfOk result (λ response. response ≡ json [] (bulk_text skip rows)) }
{
    let mut body = Blob::new(alloc);
    body.push(b"[")?;
    for i in 0..rows.len() {
        push_row(&mut body, i == 0, skip, rows.at(i))?;
    }
    body.push(b"]")?;
    Ok(Response {
        status: 200,
        fields: json_fields(alloc)?,
        body,
    })
}

/// Appends a row of a bulk get to those before it.
fn push_row(body: &mut Blob, is_first: bool, skip: usize, row: &BulkRow) -> Result<(), NoMemory>
    requires { IsCharBoundary row.now.key skip }
    ensures { OnOk result (body.new ≡ body.old ++ next_text is_first (row_text skip row.now)) }
{
    let front: &[u8] = if is_first {
        b"{\"key\":"
    } else {
        b",{\"key\":"
    };
    body.push(front)?;
    push_string_of(body, &row.key.as_str()[skip..])?;
    if let Some(found) = &row.found {
        push_found(body, found)?;
    }
    body.push(b"}")
}

/// Appends a value and its version.
fn push_found(body: &mut Blob, found: &Found) -> Result<(), NoMemory>
    ensures { OnOk result (body.new ≡ body.old ++ found_text (Some found.now)) }
{
    body.push(b",\"data\":")?;
    body.push(found.value.bytes())?;
    body.push(b",\"etag\":\"")?;
    let mut digits = Buffer::new();
    body.push(digits.format(found.version).as_bytes())?;
    body.push(b"\"")
}
