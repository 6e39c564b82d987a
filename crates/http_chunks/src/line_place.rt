ghost use Rattle.std.specs.Prelude.{◌≡◌, ◌==◌, IsTrue};
ghost use Rattle.std.specs.List.{list_all, list_any};
ghost use Rattle.httparse.specs.Grammar.{is_ows, is_extension_byte};
ghost use Rattle.http_chunks.specs.ChunkSteps.{MayEnd};
ghost use Rattle.http_chunks.specs.LinePlaces.{HasRoom, IsLinePart, IsLinePlace, beginning_of_line, is_part_byte, last_line};

use crate::LINE_LIMIT;
use crate::fields::{FieldPart, are_of_field};

/// The bytes that a trailer that was begun may lack of the end of the trailers: a colon and two line feeds.
const MOST_LACKING: usize = 3;

const TAB: u8 = b'\t';

const LF: u8 = b'\n';

const CR: u8 = b'\r';

const SPACE: u8 = b' ';

const SEMICOLON: u8 = b';';

/// What a chunk line or a trailer begins with, which bytes of one kind may follow in any number.
#[derive(Clone, Copy, Debug)]
pub enum LinePart {
    /// The size, and white space behind it.
    Size,
    /// The size, white space, a semicolon, and bytes of an extension.
    Extension,
    /// Behind whole trailers, this part of one more.
    Trailer(FieldPart),
}

/// How far a chunk line, or the trailers behind the last one, were read that are not whole yet.
#[derive(Clone, Copy, Debug)]
pub struct LinePlace {
    /// Where the trailers begin, behind the line of the last chunk; 0 where that is not whole.
    pub trailers: usize,
    /// Up to here the trailers are whole lines.
    pub lines: usize,
    /// Up to here the bytes are this part; 0 where they are something else.
    pub end: usize,
    pub part: LinePart,
}

/// Of a line of which nothing was read.
pub fn start_of_line() -> LinePlace
    ensures { result ≡ beginning_of_line }
{
    behind_last(0)
}

/// Behind the line of the last chunk, of so many bytes.
pub(crate) fn behind_last(len: usize) -> LinePlace
    ensures { result ≡ last_line len }
{
    LinePlace {
        trailers: len,
        lines: len,
        end: 0,
        part: LinePart::Size,
    }
}

/// How far the bytes were read, which hold no whole line, and in which content in chunks may go on.
pub(crate) fn place_of(rest: &[u8]) -> LinePlace
    requires { MayEnd rest.now }
    ensures { IsLinePlace rest.now result }
{
    if holds(rest, CR) {
        return start_of_line();
    }
    let end = rest.len();
    if holds(rest, SEMICOLON) {
        LinePlace {
            trailers: 0,
            lines: 0,
            end,
            part: LinePart::Extension,
        }
    } else {
        LinePlace {
            trailers: 0,
            lines: 0,
            end,
            part: LinePart::Size,
        }
    }
}

/// Whether the part of a line that the bytes were goes on to their end, and the line or the trailers may still end within
/// their limit. Only bytes that are new are read.
pub(crate) fn goes_on(rest: &[u8], place: LinePlace) -> bool
    ensures room { IsTrue result → HasRoom rest.now place.trailers }
    ensures part { IsTrue result → IsLinePlace rest.now place → IsLinePart place.part place.trailers rest.now }
{
    0 < place.end
        && place.end <= rest.len()
        && has_room(rest, place.trailers)
        && are_of_part(place.part, &rest[place.end..])
}

/// Whether a line that is not whole, or trailers from this place on, may end within their limit, whatever part of them the bytes end in.
pub(crate) fn has_room(rest: &[u8], trailers: usize) -> bool
    ensures { IsTrue result → HasRoom rest.now trailers }
{
    trailers <= LINE_LIMIT && rest.len() + MOST_LACKING <= LINE_LIMIT + trailers
}

/// Whether the bytes may follow in the part.
fn are_of_part(part: LinePart, bytes: &[u8]) -> bool
    ensures { result ≡ list_all (is_part_byte part) bytes.now }
{
    match part {
        LinePart::Size => are_blank(bytes),
        LinePart::Extension => are_extension_bytes(bytes),
        LinePart::Trailer(field) => are_of_field(field, bytes),
    }
}

fn are_blank(bytes: &[u8]) -> bool
    ensures { result ≡ list_all is_ows bytes.now }
{
    bytes.iter().all(|byte| *byte == SPACE || *byte == TAB)
}

fn are_extension_bytes(bytes: &[u8]) -> bool
    ensures { result ≡ list_all is_extension_byte bytes.now }
{
    bytes.iter().all(|byte| !(*byte == CR || *byte == LF))
}

fn holds(bytes: &[u8], byte: u8) -> bool
    ensures { result ≡ list_any (λ other. other == byte) bytes.now }
{
    bytes.iter().any(|other| *other == byte)
}
