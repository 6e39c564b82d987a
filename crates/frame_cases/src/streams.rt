// What a framer gives for a stream.

use crate::given::{has, named};
use crate::held::play_held;
use crate::midway::play_first;
use case_text::{Lines, Section, joined_text, name_in, number_in};
use http_frames::{FrameErr, Framer, Step, closes};
use side_base::{NoMemory, Request};
use std::alloc::Global;

/// Sizes of the pieces in which a stream comes whose case names none.
const SIZES: &str = "1 2 3 7 4096";

/// Whether more is to be asked of a framer.
#[derive(Clone, Copy)]
enum After {
    More,
    Need,
    Over,
}

/// How a stream comes.
#[derive(Clone, Copy)]
enum Way {
    /// In pieces of this size.
    Pieces(usize),
    /// In two pieces, of which the first has this length.
    Cut(usize),
}

// Writes a request: `<length>` of its content, with `!` where it closes the connection.
fn write_request(text: &mut Lines, request: &Request) {
    text.add_number("<", request.body.len() as u64);
    text.add(if closes(request) { "!>" } else { ">" });
}

// Writes a step: a request, or `+` for `Continue`.
fn write_step(text: &mut Lines, step: &Step) -> After {
    match step {
        Step::Request(request) => {
            write_request(text, request);
            After::More
        }
        Step::Continue => {
            text.add("+");
            After::More
        }
        Step::Need => After::Need,
    }
}

// Writes a step, and lets it go.
fn tell_step(text: &mut Lines, step: Step) -> After {
    let after = write_step(text, &step);
    drop(step);
    after
}

// Writes the name of a refusal, with `?` where it is not given again.
fn write_refusal(text: &mut Lines, error: FrameErr, again: Option<FrameErr>) -> After {
    text.add(error.name());
    if again != Some(error) {
        text.add("?");
    }
    After::Over
}

// What a framer gives next. A call that found no memory is made again.
fn next(framer: &mut Framer) -> Result<Step, FrameErr> {
    match framer.next() {
        Ok(step) => Ok(step),
        Err(FrameErr::NoMemory) => framer.next(),
        Err(error) => Err(error),
    }
}

/// Feeds a piece. A call that found no memory is made again.
pub(crate) fn feed(framer: &mut Framer, piece: &[u8]) -> Result<(), NoMemory> {
    match framer.feed(piece) {
        Ok(()) => Ok(()),
        Err(_) => framer.feed(piece),
    }
}

// Asks a framer once and writes its answer.
fn ask(framer: &mut Framer, text: &mut Lines) -> After {
    match next(framer) {
        Ok(step) => tell_step(text, step),
        Err(error) => write_refusal(text, error, framer.next().err()),
    }
}

/// Writes what a framer gives, up to where it needs more. Whether the stream goes on.
pub(crate) fn ask_all(framer: &mut Framer, text: &mut Lines) -> bool {
    for _ in 0..u64::MAX {
        match ask(framer, text) {
            After::More => {}
            After::Need => return true,
            After::Over => return false,
        }
    }
    true
}

// Feeds a piece and writes what the framer gives then. Whether the stream goes on.
fn tell(framer: &mut Framer, text: &mut Lines, piece: &[u8]) -> bool {
    if feed(framer, piece).is_err() {
        text.add("no memory");
        return false;
    }
    ask_all(framer, text)
}

// Writes `.` where no byte is held.
fn tell_end(framer: &Framer, text: &mut Lines) {
    if framer.is_between() {
        text.add(".");
    }
}

// Writes what a framer gives for the bytes, fed in pieces of this size, and `.` at the end where no byte is held.
fn tell_in_pieces(framer: &mut Framer, text: &mut Lines, bytes: &[u8], size: usize) {
    for piece in bytes.chunks(size.max(1)) {
        if !tell(framer, text, piece) {
            return;
        }
    }
    tell_end(framer, text);
}

// The same, fed in two pieces, of which the first has this length.
fn tell_in_two(framer: &mut Framer, text: &mut Lines, bytes: &[u8], at: usize) {
    let (front, back) = bytes.split_at(at.min(bytes.len()));
    if tell(framer, text, front) {
        tell(framer, text, back);
    }
    tell_end(framer, text);
}

fn tell_in(framer: &mut Framer, text: &mut Lines, bytes: &[u8], way: Way) {
    match way {
        Way::Pieces(size) => tell_in_pieces(framer, text, bytes, size),
        Way::Cut(at) => tell_in_two(framer, text, bytes, at),
    }
}

// Writes what a framer of its own gives for the bytes.
fn tell_anew(alloc: Global, text: &mut Lines, bytes: &[u8], way: Way) {
    let mut framer = Framer::new(alloc);
    tell_in(&mut framer, text, bytes, way);
    drop(framer);
}

// Adds where a stream that comes in this way does not give what it should.
fn play_way(alloc: Global, bytes: &[u8], way: Way, name: &str, wanted: &[u8], lines: &mut Lines) {
    let mut text = Lines::new(alloc);
    tell_anew(alloc, &mut text, bytes, way);
    lines.compare(name, wanted, text.as_str().as_bytes());
    drop(text);
}

fn play_cuts(alloc: Global, bytes: &[u8], wanted: &[u8], lines: &mut Lines) {
    for at in 0..bytes.len() {
        play_way(alloc, bytes, Way::Cut(at), "in two pieces", wanted, lines);
    }
}

fn play_sizes(alloc: Global, bytes: &[u8], sizes: &str, wanted: &[u8], lines: &mut Lines) {
    for size in sizes.split(' ') {
        let way = Way::Pieces(number_in(size) as usize);
        play_way(alloc, bytes, way, size, wanted, lines);
    }
}

fn play_ways(
    alloc: Global,
    sections: &[Section<'_>],
    bytes: &[u8],
    wanted: &[u8],
    lines: &mut Lines,
) {
    if has(sections, "cut") {
        play_cuts(alloc, bytes, wanted, lines);
    }
    let sizes = name_in(sections, "pieces").unwrap_or(SIZES);
    play_sizes(alloc, bytes, sizes, wanted, lines);
    play_first(alloc, sections, bytes, lines);
}

// Adds where a stream does not give what it should, in pieces of each size and, where the case says so, cut in two at each place.
fn play_whole(alloc: Global, sections: &[Section<'_>], wanted: &[u8], lines: &mut Lines) {
    let bytes = joined_text(alloc, sections, "stream");
    play_ways(alloc, sections, bytes.bytes(), wanted, lines);
    drop(bytes);
}

/// Adds where a stream does not give what it should, or more or less of it is held than the case says.
pub(crate) fn play_stream(alloc: Global, sections: &[Section<'_>], lines: &mut Lines) {
    let wanted = named(alloc, sections, "gives");
    if has(sections, "held") {
        play_held(alloc, sections, wanted.bytes(), lines);
    } else {
        play_whole(alloc, sections, wanted.bytes(), lines);
    }
    drop(wanted);
}
