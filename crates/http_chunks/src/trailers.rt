ghost use Rattle.std.specs.Prelude.{◌≡◌, ◌<◌, ◌≤◌, ◌+◌, length, take, IfOk};
ghost use Rattle.httparse.specs.Grammar.{HasNoSection, MayBecomeSection};
ghost use Rattle.http_chunks.specs.ChunkReading.{EndsSection, IsSectionRead, IsSectionWithin, AreTrailersRead};

use crate::LINE_LIMIT;
use httparse::spans::{EMPTY_HEADER_SPAN, HeaderSpan, parse_headers};
use httparse::{Error, Status};
use side_base::NoMemory;
use std::alloc::Global;

/// The trailers for which there is room without memory.
const FIELD_ROOM: usize = 8;
/// The least bytes of a trailer.
const FIELD_LEN: usize = 3;

const ONE_FEED: &[u8] = b"\n";

const TWO_FEEDS: &[u8] = b"\n\n";

/// What stands where trailers are due.
#[derive(Clone, Copy, Debug)]
pub enum TrailersRead {
    /// Whole trailers, with the empty line that ends them: how many bytes they take.
    Whole { len: usize },
    /// Bytes that may become trailers of at most 16,384 bytes.
    Partial,
    /// Bytes that cannot.
    Invalid,
}

/// Reads the trailers at the front of the bytes.
pub(crate) fn read_trailers(alloc: Global, rest: &[u8]) -> Result<TrailersRead, NoMemory>
    ensures { IfOk result (λ read. AreTrailersRead rest.now read) }
{
    let text = &rest[..LINE_LIMIT.min(rest.len())];
    let read = short_trailers(alloc, text)?;
    Ok(read)
}

/// The same of at most 16,384 bytes.
fn short_trailers(alloc: Global, text: &[u8]) -> Result<TrailersRead, NoMemory>
    requires { length text.now ≤ LINE_LIMIT }
    ensures { IfOk result (λ read. AreTrailersRead text.now read) }
{
    let read = read_section(alloc, text)?;
    match read {
        TrailersRead::Whole { len } => Ok(TrailersRead::Whole { len }),
        TrailersRead::Partial => partial_trailers(alloc, text),
        TrailersRead::Invalid => Ok(TrailersRead::Invalid),
    }
}

/// What a part of trailers may become.
fn partial_trailers(alloc: Global, text: &[u8]) -> Result<TrailersRead, NoMemory>
    requires short { length text.now ≤ LINE_LIMIT }
    requires none { HasNoSection text.now }
    requires may { MayBecomeSection text.now }
    ensures { IfOk result (λ read. AreTrailersRead text.now read) }
{
    if text.len() + 3 <= LINE_LIMIT {
        return Ok(TrailersRead::Partial);
    }
    if text.len() == LINE_LIMIT {
        return Ok(TrailersRead::Invalid);
    }
    let one = ends_section(alloc, text, ONE_FEED)?;
    if one {
        return Ok(TrailersRead::Partial);
    }
    if text.len() + 1 == LINE_LIMIT {
        return Ok(TrailersRead::Invalid);
    }
    let two = ends_section(alloc, text, TWO_FEEDS)?;
    if two {
        Ok(TrailersRead::Partial)
    } else {
        Ok(TrailersRead::Invalid)
    }
}

/// Whether some of the bytes `more` make the text a section.
fn ends_section(alloc: Global, text: &[u8], more: &[u8]) -> Result<bool, NoMemory>
    requires short { length text.now + length more.now ≤ LINE_LIMIT }
    requires none { HasNoSection text.now }
    ensures { IfOk result (λ ends. EndsSection ends text.now more.now) }
{
    let mut section = Vec::from_slice(alloc, text)?;
    section.extend_from_slice(more)?;
    let read = read_section(alloc, &section)?;
    match read {
        TrailersRead::Whole { len: _ } => Ok(true),
        TrailersRead::Partial => Ok(false),
        TrailersRead::Invalid => Ok(false),
    }
}

/// Reads the section at the front of at most 16,384 bytes; of more than eight fields with room for as many as so many bytes can be.
pub fn read_section(alloc: Global, text: &[u8]) -> Result<TrailersRead, NoMemory>
    requires { length text.now ≤ LINE_LIMIT }
    ensures { IfOk result (λ read. IsSectionRead text.now read) }
{
    let mut headers = [EMPTY_HEADER_SPAN; FIELD_ROOM];
    match section_within(text, &mut headers) {
        Some(read) => Ok(read),
        None => read_long_section(alloc, text),
    }
}

/// The same, with room for as many fields as the text can have.
fn read_long_section(alloc: Global, text: &[u8]) -> Result<TrailersRead, NoMemory>
    requires { length text.now ≤ LINE_LIMIT }
    ensures { IfOk result (λ read. IsSectionRead text.now read) }
{
    let mut headers = vec![in alloc; EMPTY_HEADER_SPAN; text.len() / FIELD_LEN + 1]?;
    match section_within(text, &mut headers) {
        Some(read) => Ok(read),
        None => unreachable!(),
    }
}

/// What stands at the front of the text; `None` where there is no room for its fields.
pub(crate) fn section_within(text: &[u8], headers: &mut [HeaderSpan]) -> Option<TrailersRead>
    ensures { IsSectionWithin text.now (length headers.old) result }
{
    match parse_headers(text, headers) {
        Ok(Status::Complete((len, _))) => Some(TrailersRead::Whole { len }),
        Ok(Status::Partial) => Some(TrailersRead::Partial),
        Err(Error::TooManyHeaders) => None,
        Err(_) => Some(TrailersRead::Invalid),
    }
}
