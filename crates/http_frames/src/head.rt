ghost use Rattle.std.specs.Prelude.{◌≡◌, ℕ, ◌≤◌, List, length, take, drop, map, Some, All, IsUtf8, IfOk, IsNone, IfSome, OnOk};
ghost use Rattle.httparse.specs.Grammar.{RequestHead, HasNoRequest, NeverHasRequest, ReadsRequest};
ghost use Rattle.httparse.specs.Spans.{span_bytes, IsWithin, IsHeaderWithin, IsRequestOf, IsRequestWithin, RequestExceeds};
ghost use Rattle.http_frames.specs.HeadRules.{HEAD_LIMIT, method_of, fields_of};
ghost use Rattle.http_frames.specs.Lines.{IsPlace};
ghost use Rattle.http_frames.specs.HeadReading.{IsHeadRead, IsHeadStep, IsReadOf, head_of, header_field};

use crate::FrameErr;
use crate::lines::{Place, place_after, read_behind};
use crate::rules::{Said, fields_refusal, said_by};
use crate::target::ends_in_target;
use httparse::spans::{EMPTY_HEADER_SPAN, HeaderSpan, RequestSpans, parse_request};
use httparse::{Error, Status};
use side_base::{Blob, Field, Fields, Method, NoMemory, Sequence, Text};
use std::alloc::Global;

/// The most bytes of a head.
pub(crate) const HEAD_LIMIT: usize = 16_384;
/// The fields for which there is room without memory.
const FIELD_ROOM: usize = 64;
/// More fields than a head of 16,384 bytes can have, each of which takes three bytes at least.
const MOST_FIELDS: usize = 5_462;

const GET: &[u8] = b"GET";

const HEAD: &[u8] = b"HEAD";

const POST: &[u8] = b"POST";

const PUT: &[u8] = b"PUT";

const PATCH: &[u8] = b"PATCH";

const DELETE: &[u8] = b"DELETE";

const OPTIONS: &[u8] = b"OPTIONS";

/// A whole head: its parts, and how many bytes it takes.
#[derive(Debug, Drop)]
pub(crate) struct Head {
    pub(crate) method: Method,
    pub(crate) target: Blob,
    pub(crate) minor: u8,
    pub(crate) fields: Fields,
    pub(crate) len: usize,
}

/// What stands at the front of the bytes that came so far.
#[derive(Debug, Drop)]
pub(crate) enum HeadRead {
    /// A whole head.
    Whole(Head),
    /// Bytes that may begin a head, and hold no whole one.
    Partial,
    /// Bytes that begin no head.
    Invalid,
}

/// The method that a token names (RFC 9110, section 9.1), which has no case to ignore.
#[tactic(auto, unfolding(crate::specs::HeadRules::method_of))]
fn method_of(token: &[u8]) -> Method
    ensures { result ≡ method_of token.now }
{
    if token == GET {
        Method::Get
    } else if token == HEAD {
        Method::Head
    } else if token == POST {
        Method::Post
    } else if token == PUT {
        Method::Put
    } else if token == PATCH {
        Method::Patch
    } else if token == DELETE {
        Method::Delete
    } else if token == OPTIONS {
        Method::Options
    } else {
        Method::Other
    }
}

/// The head that the spans cover.
fn head_of(
    alloc: Global,
    text: &[u8],
    spans: &RequestSpans,
    headers: &[HeaderSpan],
) -> Result<Head, NoMemory>
    requires within { IsRequestWithin text.now headers.now spans.now }
    requires head { IsRequestOf text.now headers.now spans.now }
    ensures { IfOk result (λ head. IsHeadRead text.now (HeadRead.Whole head)) }
{
    Ok(Head {
        method: method_of(spans.method.of(text)),
        target: Blob::from_bytes(alloc, spans.path.of(text))?,
        minor: spans.version,
        fields: fields_of(alloc, text, &headers[..spans.headers])?,
        len: spans.len,
    })
}

/// The fields that the spans cover.
fn fields_of(alloc: Global, text: &[u8], headers: &[HeaderSpan]) -> Result<Fields, NoMemory>
    requires within { All (IsHeaderWithin (length text.now)) headers.now }
    requires names { All (λ header. IsUtf8 (span_bytes text.now header.name)) headers.now }
    ensures { IfOk result (λ fields. fields ≡ map (header_field text.now) headers.now) }
{
    let mut fields = Sequence::new(alloc);
    for header in headers {
        fields.push(field_of(alloc, text, header)?)?;
    }
    Ok(fields)
}

/// The field that a span's two parts cover.
fn field_of(alloc: Global, text: &[u8], header: &HeaderSpan) -> Result<Field, NoMemory>
    requires within { IsHeaderWithin (length text.now) header.now }
    requires name { IsUtf8 (span_bytes text.now header.now.name) }
    ensures { IfOk result (λ field. field ≡ header_field text.now header.now) }
{
    let name = match str::from_utf8(header.name.of(text)) {
        Ok(name) => Text::from_str(alloc, name)?,
        Err(_) => unreachable!(),
    };
    let value = Blob::from_bytes(alloc, header.value.of(text))?;
    Ok(Field { name, value })
}

/// What stands at the front of the text; `None` where there is no room for its fields.
fn read_within(
    alloc: Global,
    text: &[u8],
    headers: &mut [HeaderSpan],
) -> Result<Option<HeadRead>, NoMemory>
    ensures { IfOk result (λ read. IsReadOf text.now (length headers.old) read) }
{
    match parse_request(text, headers) {
        Ok(Status::Complete(spans)) => {
            let head = head_of(alloc, text, &spans, headers)?;
            Ok(Some(HeadRead::Whole(head)))
        }
        Ok(Status::Partial) => Ok(Some(HeadRead::Partial)),
        Err(Error::TooManyHeaders) => Ok(None),
        Err(_) => Ok(Some(unless_in_target(text))),
    }
}

/// What stands at the front of a text that begins no head.
pub(crate) fn unless_in_target(text: &[u8]) -> HeadRead
    requires { NeverHasRequest text.now }
    ensures { IsHeadRead text.now result }
{
    if ends_in_target(text) {
        HeadRead::Partial
    } else {
        HeadRead::Invalid
    }
}

/// What stands at the front of a text of at most 16,384 bytes.
pub(crate) fn read_head(alloc: Global, text: &[u8]) -> Result<HeadRead, NoMemory>
    requires { length text.now ≤ HEAD_LIMIT }
    ensures { IfOk result (λ read. IsHeadRead text.now read) }
{
    if text.is_empty() {
        return read_in_room(alloc, text, &mut [EMPTY_HEADER_SPAN; 1]);
    }
    read_in_room(alloc, text, &mut [EMPTY_HEADER_SPAN; FIELD_ROOM])
}

/// The same, with room for some fields at hand.
fn read_in_room(
    alloc: Global,
    text: &[u8],
    headers: &mut [HeaderSpan],
) -> Result<HeadRead, NoMemory>
    requires { length text.now ≤ HEAD_LIMIT }
    ensures { IfOk result (λ read. IsHeadRead text.now read) }
{
    match read_within(alloc, text, headers)? {
        Some(read) => Ok(read),
        None => read_long_head(alloc, text),
    }
}

/// The same, with room for the fields of every such text.
fn read_long_head(alloc: Global, text: &[u8]) -> Result<HeadRead, NoMemory>
    requires { length text.now ≤ HEAD_LIMIT }
    ensures { IfOk result (λ read. IsHeadRead text.now read) }
{
    let mut headers = vec![in alloc; EMPTY_HEADER_SPAN; MOST_FIELDS]?;
    match read_within(alloc, text, &mut headers)? {
        Some(read) => Ok(read),
        None => unreachable!(),
    }
}

/// What the bytes of a request that came so far lead to, as long as its head is not taken.
#[derive(Debug, Drop)]
pub(crate) enum HeadStep {
    /// A whole head that breaks no rule, and what its fields say.
    Taken { head: Head, said: Said },
    /// A refusal.
    Refused(FrameErr),
    /// More bytes are needed; the head was read so far.
    Need(Place),
}

/// Takes the head at the front of the bytes, which was read so far before.
pub(crate) fn take_head(alloc: Global, pending: &[u8], place: Place) -> Result<HeadStep, NoMemory>
    requires { IsPlace pending.now place }
    ensures { IfOk result (λ step. IsHeadStep pending.now step) }
{
    let text = &pending[..HEAD_LIMIT.min(pending.len())];
    let read = read_behind(alloc, text, place)?;
    Ok(judged(pending, place, read))
}

/// What was read at the front of the bytes, or of their first 16,384, leads to.
fn judged(pending: &[u8], place: Place, read: HeadRead) -> HeadStep
    requires place { IsPlace pending.now place }
    requires read { IsHeadRead (take HEAD_LIMIT pending.now) read }
    ensures { IsHeadStep pending.now result }
{
    match read {
        HeadRead::Whole(head) => judged_head(pending, head),
        HeadRead::Partial => {
            if pending.len() < HEAD_LIMIT {
                HeadStep::Need(place_after(pending, place))
            } else {
                HeadStep::Refused(FrameErr::HeadTooLong)
            }
        }
        HeadRead::Invalid => HeadStep::Refused(FrameErr::BadHead),
    }
}

/// What a whole head leads to.
fn judged_head(pending: &[u8], head: Head) -> HeadStep
    requires { IsHeadRead (take HEAD_LIMIT pending.now) (HeadRead.Whole head) }
    ensures { IsHeadStep pending.now result }
{
    let said = said_by(&head.fields);
    let refusal = fields_refusal(head.minor, &head.fields, &said);
    match refusal {
        Some(error) => HeadStep::Refused(error),
        None => HeadStep::Taken { head, said },
    }
}
