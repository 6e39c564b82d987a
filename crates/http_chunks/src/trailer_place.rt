ghost use Rattle.std.specs.Prelude.{◌≡◌, ◌<◌, ◌≤◌, ◌+◌, ℕ, IfSome, IsTrue, length, slice_index};
ghost use Rattle.httparse.specs.Grammar.{HasNoSection, MayBecomeSection};
ghost use Rattle.http_chunks.specs.Chunked.{LINE_LIMIT};
ghost use Rattle.http_chunks.specs.ChunkSteps.{IsOnAt};
ghost use Rattle.http_chunks.specs.LinePlaces.{AreTrailers, HasRoom, IsLinePlace};

use crate::fields::field_part;
use crate::line_place::{LinePart, LinePlace, goes_on, has_room};
use crate::trailers::{TrailersRead, section_within};
use httparse::spans::EMPTY_HEADER_SPAN;

const LF: u8 = b'\n';

/// How far the bytes were read, where they were read so far before, and what they end in goes on; `None` where they are to be
/// read anew. Only bytes that are new are read, and those of a trailer that was not whole.
pub(crate) fn place_on(rest: &[u8], place: LinePlace) -> Option<LinePlace>
    ensures short { IfSome result (λ next. length rest.now < LINE_LIMIT + LINE_LIMIT) }
    ensures next { IfSome result (λ next. IsLinePlace rest.now place → IsOnAt rest.now next) }
{
    if goes_on(rest, place) {
        return Some(LinePlace {
            trailers: place.trailers,
            lines: place.lines,
            end: rest.len(),
            part: place.part,
        });
    }
    if 0 < place.trailers && place.lines <= rest.len() && has_room(rest, place.trailers) {
        trailers_on(rest, place.trailers, place.lines)
    } else {
        None
    }
}

/// The same behind trailers that are whole lines up to `from`.
fn trailers_on(rest: &[u8], trailers: usize, from: usize) -> Option<LinePlace>
    requires within { from ≤ length rest.now }
    requires room { HasRoom rest.now trailers }
    ensures short { IfSome result (λ next. length rest.now < LINE_LIMIT + LINE_LIMIT) }
    ensures next { IfSome result (λ next. AreTrailers rest.now trailers from → IsOnAt rest.now next) }
{
    match whole_trailers(rest, from) {
        Some(lines) => trailer_on(rest, trailers, lines),
        None => None,
    }
}

/// The same behind all trailers that are whole lines.
fn trailer_on(rest: &[u8], trailers: usize, lines: usize) -> Option<LinePlace>
    requires within { lines ≤ length rest.now }
    requires room { HasRoom rest.now trailers }
    ensures short { IfSome result (λ next. length rest.now < LINE_LIMIT + LINE_LIMIT) }
    ensures next { IfSome result (λ next. AreTrailers rest.now trailers lines → IsOnAt rest.now next) }
{
    if let Some(part) = field_part(&rest[lines..]) {
        return Some(LinePlace {
            trailers,
            lines,
            end: rest.len(),
            part: LinePart::Trailer(part),
        });
    }
    if is_partial(&rest[lines..]) {
        Some(LinePlace {
            trailers,
            lines,
            end: 0,
            part: LinePart::Size,
        })
    } else {
        None
    }
}

/// Up to where trailers are whole lines that are so up to `from`; `None` where a line is none of a trailer.
fn whole_trailers(rest: &[u8], from: usize) -> Option<usize>
    requires { from ≤ length rest.now }
    ensures within { IfSome result (λ lines. lines ≤ length rest.now) }
    ensures lines { IfSome result (λ lines. (start : ℕ) → AreTrailers rest.now start from → AreTrailers rest.now start lines) }
{
    let mut lines = from;
    while let Some(behind) = feed_at(&rest[lines..]) {
        let next = lines + behind + 1;
        if !is_partial(&rest[lines..next]) {
            return None;
        }
        lines = next;
    }
    Some(lines)
}

/// The place of the first line feed.
fn feed_at(bytes: &[u8]) -> Option<usize>
    ensures { IfSome result (λ at. (at < length bytes.now) × (slice_index bytes.now at ≡ 10)) }
{
    for at in 0..bytes.len() {
        if bytes[at] == LF {
            return Some(at);
        }
    }
    None
}

/// Whether the bytes, which hold one line at most, are no whole section, and may become one.
fn is_partial(bytes: &[u8]) -> bool
    ensures { IsTrue result → HasNoSection bytes.now × MayBecomeSection bytes.now }
{
    match section_within(bytes, &mut [EMPTY_HEADER_SPAN; 1]) {
        Some(TrailersRead::Partial) => true,
        Some(TrailersRead::Whole { len: _ }) => false,
        Some(TrailersRead::Invalid) => false,
        None => false,
    }
}
