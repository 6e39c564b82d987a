//! Whether a whole request may be at hand: a hint, which may be wrong where it says so, and not where it says that some lacks.
ghost use Rattle.std.specs.Prelude.{◌≡◌, ◌≤◌, true, length, All};
ghost use Rattle.httparse.specs.Spans.{IsHeaderWithin};
ghost use Rattle.net_edge.specs.AtHand.{IfLacks, LacksSome};

use httparse::Status;
use httparse::spans::{EMPTY_HEADER_SPAN, HeaderSpan, parse_request};
use side_base::is_same_word;

/// The most bytes of a head that is waited for.
const HEAD_LIMIT: usize = 16_384;

/// The most bytes of content that are waited for: a request that has more is refused.
const CONTENT_LIMIT: u64 = 4_194_304;

/// How many fields of a head are looked at. One that has more is at hand.
const FIELD_ROOM: usize = 64;

/// How many requests are looked at in one piece. What stands behind them is at hand.
const REQUESTS_AT_ONCE: u32 = 64;

/// The most digits of a length.
const LENGTH_DIGITS: usize = 18;

const GET: &[u8] = b"GET ";

const BLANK_LINE: &[u8] = b"\r\n\r\n";

const CONTENT_LENGTH: &[u8] = b"content-length";

const TRANSFER_ENCODING: &[u8] = b"transfer-encoding";

const EXPECT: &[u8] = b"expect";

const CHUNKED: &[u8] = b"chunked";

/// What a head says of its content.
#[derive(Clone, Copy)]
enum Content {
    /// It has none.
    Nothing,
    /// It has so many bytes.
    Counted { bytes: u64 },
    /// It comes in chunks.
    Chunked,
    /// It is for the reader of the head to say.
    Other,
}

/// The request at the front of some bytes.
#[derive(Clone, Copy)]
pub(crate) enum First {
    /// More of it has to come.
    Lacks,
    /// It ends there.
    Whole { end: usize },
    /// It may be at hand.
    Other,
}

/// How many of these bytes are for a reader now: all, but for those of the last request where more of it has to come.
pub(crate) fn whole_part(bytes: &[u8]) -> usize
    ensures { result ≤ length bytes.now }
{
    if bytes.starts_with(GET) && bytes.ends_with(BLANK_LINE) {
        return bytes.len();
    }
    let mut rest = bytes;
    for _ in 0..REQUESTS_AT_ONCE {
        match first_of(rest, 0) {
            First::Lacks => return bytes.len().saturating_sub(rest.len()),
            First::Whole { end } if end < rest.len() => rest = &rest[end..],
            First::Whole { .. } | First::Other => return bytes.len(),
        }
    }
    bytes.len()
}

/// Whether these bytes begin a request of which more has to come, where so many of them were looked at before, and more had to come then.
pub(crate) fn lacks_rest(bytes: &[u8], seen: usize) -> bool
    ensures { result ≡ true → LacksSome bytes.now }
{
    match first_of(bytes, seen) {
        First::Lacks => true,
        First::Whole { .. } | First::Other => false,
    }
}

/// The request at the front of these bytes.
fn first_of(bytes: &[u8], seen: usize) -> First
    ensures { IfLacks result (LacksSome bytes.now) }
{
    let mut headers = [EMPTY_HEADER_SPAN; FIELD_ROOM];
    match parse_request(bytes, &mut headers) {
        Ok(Status::Partial) if bytes.len() < HEAD_LIMIT => First::Lacks,
        Ok(Status::Complete(spans)) => {
            let content = content_of(bytes, &headers[..spans.headers]);
            let seen = seen.saturating_sub(spans.len);
            behind(spans.len, with_content(&bytes[spans.len..], seen, content))
        }
        _ => First::Other,
    }
}
/// Where a request ends, of which this was found behind its head.
fn behind(head: usize, content: First) -> First {
    match content {
        First::Whole { end } => match head.checked_add(end) {
            Some(end) => First::Whole { end },
            None => First::Other,
        },
        other => other,
    }
}

/// Whether this content is among these bytes, of which so many were looked at before.
fn with_content(rest: &[u8], seen: usize, content: Content) -> First {
    match content {
        Content::Nothing => First::Whole { end: 0 },
        Content::Counted { bytes } if bytes > CONTENT_LIMIT => First::Other,
        Content::Counted { bytes } if bytes > rest.len() as u64 => First::Lacks,
        Content::Counted { bytes } => First::Whole {
            end: bytes as usize,
        },
        Content::Chunked => {
            if has_blank_line(&rest[seen.saturating_sub(2).min(rest.len())..]) {
                First::Other
            } else {
                First::Lacks
            }
        }
        Content::Other => First::Other,
    }
}

/// Whether a line without bytes stands behind the end of another, as it does at the end of chunks.
fn has_blank_line(bytes: &[u8]) -> bool {
    let mut is_at_end = false;
    for byte in bytes {
        if *byte == b'\n' && is_at_end {
            return true;
        }
        is_at_end = *byte == b'\n' || is_at_end && *byte == b'\r';
    }
    false
}

/// What these fields of a head say of its content.
fn content_of(bytes: &[u8], headers: &[HeaderSpan]) -> Content
    requires { All (IsHeaderWithin (length bytes.now)) headers.now }
{
    let mut content = Content::Nothing;
    for header in headers {
        content = with_field(header.name.of(bytes), header.value.of(bytes), content);
    }
    content
}

/// What a field says of the content, behind those that said this.
fn with_field(name: &[u8], value: &[u8], content: Content) -> Content {
    if is_same_word(name, CONTENT_LENGTH) {
        return only(content, counted(value));
    }
    if is_same_word(name, TRANSFER_ENCODING) {
        return only(content, coded(value));
    }
    if is_same_word(name, EXPECT) {
        return Content::Other;
    }
    content
}

/// What the only field says that speaks of the content.
fn only(before: Content, said: Content) -> Content {
    match before {
        Content::Nothing => said,
        _ => Content::Other,
    }
}

/// What a length says.
fn counted(value: &[u8]) -> Content {
    if value.len() > LENGTH_DIGITS || !value.iter().all(|byte| byte.is_ascii_digit()) {
        return Content::Other;
    }
    match str::from_utf8(value).unwrap_or("").parse() {
        Ok(bytes) => Content::Counted { bytes },
        Err(_) => Content::Other,
    }
}

/// What a coding says.
fn coded(value: &[u8]) -> Content {
    if is_same_word(value, CHUNKED) {
        Content::Chunked
    } else {
        Content::Other
    }
}
