ghost use Rattle.std.specs.Prelude.{◌≡◌, ◌<◌, ◌≤◌, ℕ, length, take, drop, IfOk, IfSome, IsTrue, slice_index};
ghost use Rattle.std.specs.List.{list_all};
ghost use Rattle.httparse.specs.Grammar.{HasNoRequest, MayBecomeRequest};
ghost use Rattle.httparse.specs.Pieces.{is_newline};
ghost use Rattle.http_frames.specs.HeadReading.{IsHeadRead};
ghost use Rattle.http_frames.specs.HeadRules.{HEAD_LIMIT};
ghost use Rattle.http_frames.specs.Lines.{AreLines, IsBegunEnd, IsBlank, IsInBlank, IsOpen, IsPlace, beginning};

use crate::head::{HeadRead, read_head, unless_in_target};
use crate::target::{after_blank, are_uri_bytes, ends_in_target};
use http_chunks::{FieldPart, TrailersRead, are_of_field, field_part, read_section};
use httparse::is_token;
use side_base::NoMemory;
use std::alloc::Global;

const CR: u8 = b'\r';

const LF: u8 = b'\n';

/// What stands behind the whole lines of a head, and may go on in any number of bytes.
#[derive(Clone, Copy, Debug)]
pub(crate) enum Part {
    /// Empty lines, and maybe the carriage return of one more.
    Blank,
    /// Empty lines, and bytes of a method.
    Method,
    /// Empty lines, a method, a space, and bytes of a target.
    Target,
    /// A part of a field.
    Field(FieldPart),
}

/// How far a head was read that is not whole yet.
#[derive(Clone, Copy, Debug)]
pub(crate) struct Place {
    /// Up to here its lines are whole; 0 where none are.
    pub(crate) lines: usize,
    /// Up to here what follows them is this part; 0 where it is something else.
    pub(crate) end: usize,
    pub(crate) part: Part,
}

/// Of a head of which nothing was read.
pub(crate) fn start() -> Place
    ensures { result ≡ beginning }
{
    Place {
        lines: 0,
        end: 0,
        part: Part::Blank,
    }
}

/// What stands at the front of a text of at most 16,384 bytes, of whose head so much was read. As long as the head is not
/// whole, only what follows its lines is read, and where that is a part that goes on only what is new.
pub(crate) fn read_behind(alloc: Global, text: &[u8], place: Place) -> Result<HeadRead, NoMemory>
    requires short { length text.now ≤ HEAD_LIMIT }
    requires place { IsPlace text.now place }
    ensures { IfOk result (λ read. IsHeadRead text.now read) }
{
    if goes_on(text, place) {
        return Ok(HeadRead::Partial);
    }
    if place.lines == 0 {
        return read_head(alloc, text);
    }
    let read = read_section(alloc, &text[place.lines..])?;
    match read {
        TrailersRead::Partial => Ok(HeadRead::Partial),
        TrailersRead::Invalid => Ok(unless_in_target(text)),
        TrailersRead::Whole { len: _ } => read_head(alloc, text),
    }
}

/// How far a head of fewer bytes that is not whole was read, where it had been read so far before.
pub(crate) fn place_after(text: &[u8], place: Place) -> Place
    requires short { length text.now < HEAD_LIMIT }
    requires place { IsPlace text.now place }
    requires none { HasNoRequest text.now }
    requires may { MayBecomeRequest text.now }
    ensures { IsPlace text.now result }
{
    if goes_on(text, place) {
        return Place {
            lines: place.lines,
            end: text.len(),
            part: place.part,
        };
    }
    place_of(text, whole_lines(text, place.lines))
}

/// The place in a text that may become a head, up to `lines` of which its lines are whole.
fn place_of(text: &[u8], lines: usize) -> Place
    requires short { length text.now < HEAD_LIMIT }
    requires lines { AreLines text.now lines }
    ensures { IsPlace text.now result }
{
    match part_of(text, lines) {
        Some(part) => Place {
            lines,
            end: text.len(),
            part,
        },
        None => Place {
            lines,
            end: 0,
            part: Part::Blank,
        },
    }
}

/// The part that a text ends in, up to `lines` of which its lines are whole.
fn part_of(text: &[u8], lines: usize) -> Option<Part>
    requires { lines ≤ length text.now }
    ensures { IfSome result (λ part. IsOpen part lines (drop lines text.now)) }
{
    if lines == 0 {
        start_part(text)
    } else {
        open_field(&text[lines..])
    }
}

/// The part of a start line that a text ends in.
fn start_part(text: &[u8]) -> Option<Part>
    ensures { IfSome result (λ part. IsOpen part 0 text.now) }
{
    if is_in_blank(text) {
        Some(Part::Blank)
    } else if ends_in_target(text) {
        Some(Part::Target)
    } else if is_token(after_blank(text)) {
        Some(Part::Method)
    } else {
        None
    }
}

/// The part of a field that the bytes are.
fn open_field(bytes: &[u8]) -> Option<Part>
    ensures { IfSome result (λ part. (lines : ℕ) → 0 < lines → IsOpen part lines bytes.now) }
{
    match field_part(bytes) {
        Some(part) => Some(Part::Field(part)),
        None => None,
    }
}

/// Whether the part that the text ended in goes on to its end.
fn goes_on(text: &[u8], place: Place) -> bool
    requires { IsPlace text.now place }
    ensures { IsTrue result → IsOpen place.part place.lines (drop place.lines text.now) }
{
    place.lines < place.end && is_on(place.part, text, place.end)
}

/// Whether a part that ends at this place goes on to the end of the text. Only bytes behind it are read.
fn is_on(part: Part, text: &[u8], end: usize) -> bool
    requires { end ≤ length text.now }
    ensures { IsTrue result → (lines : ℕ) → lines ≤ end → IsOpen part lines (drop lines (take end text.now)) → IsOpen part lines (drop lines text.now) }
{
    match part {
        Part::Blank => is_in_blank(&text[blank_end(text, end)..]),
        Part::Method => are_of_field(FieldPart::Name, &text[end..]),
        Part::Target => are_uri_bytes(&text[end..]),
        Part::Field(field) => are_of_field(field, &text[end..]),
    }
}

/// Up to where empty lines are whole, where they end at this place, and maybe the carriage return of one more does.
fn blank_end(text: &[u8], end: usize) -> usize
    requires { end ≤ length text.now }
    ensures within { result ≤ end }
    ensures blank { IsInBlank (take end text.now) → IsBlank (take result text.now) }
{
    if end == 0 {
        return 0;
    }
    if text[end - 1] == CR { end - 1 } else { end }
}

/// Whether the text is empty lines, and maybe the carriage return of one more.
fn is_in_blank(text: &[u8]) -> bool
    ensures { IsTrue result → IsInBlank text.now }
{
    is_begun_end(after_blank(text))
}

/// Whether the bytes are none, or a carriage return.
fn is_begun_end(bytes: &[u8]) -> bool
    ensures { IsTrue result → IsBegunEnd bytes.now }
{
    if bytes.is_empty() {
        return true;
    }
    bytes.len() == 1 && bytes[0] == CR
}

/// The place of the last line feed.
fn last_feed(bytes: &[u8]) -> Option<usize>
    ensures { IfSome result (λ at. (at < length bytes.now) × (slice_index bytes.now at ≡ 10)) }
{
    for at in (0..bytes.len()).rev() {
        if bytes[at] == LF {
            return Some(at);
        }
    }
    None
}

/// Up to where a text that may become a head has whole lines of it; up to `lines` it has.
fn whole_lines(text: &[u8], lines: usize) -> usize
    requires short { length text.now < HEAD_LIMIT }
    requires lines { AreLines text.now lines }
    requires none { HasNoRequest text.now }
    requires may { MayBecomeRequest text.now }
    ensures { AreLines text.now result }
{
    match last_feed(&text[lines..]) {
        Some(behind) => {
            let at = lines + behind;
            if is_blank_before(text, lines, at) {
                lines
            } else {
                at + 1
            }
        }
        None => lines,
    }
}

/// Whether line ends alone stand before a place; where whole lines do, none of their bytes is read.
fn is_blank_before(text: &[u8], lines: usize, at: usize) -> bool
    requires lines { AreLines text.now lines }
    requires behind { lines ≤ at }
    requires within { at ≤ length text.now }
    ensures { result ≡ list_all is_newline (take at text.now) }
{
    if lines > 0 {
        return false;
    }
    are_line_ends(&text[..at])
}

fn are_line_ends(bytes: &[u8]) -> bool
    ensures { result ≡ list_all is_newline bytes.now }
{
    bytes.iter().all(|byte| *byte == CR || *byte == LF)
}
