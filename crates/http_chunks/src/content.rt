ghost use Rattle.std.specs.Prelude.{◌≡◌, ◌<◌, ◌≤◌, Some, None, IfOk, IfSome, IsNone, OnErr, length, drop};
ghost use Rattle.http_chunks.specs.ContentSteps.{IsBounded, IsTaken, EndsIn, KeepsChunks, KeepsLooked, LeadsTo};

use crate::chunks::{ChunkStep, DataRead, read_chunk, read_line_end};
use crate::line_place::{LinePlace, start_of_line};
use crate::trailer_place::place_on;
use side_base::{Blob, NoMemory};
use std::alloc::Global;

/// The bytes of the line end after a chunk.
const LINE_END_LEN: usize = 2;

/// What came of the content of a request.
#[derive(Debug, Drop)]
pub struct Body {
    pub bytes: Blob,
    /// The bytes that have not come of the chunk that was begun, or of content of a known length; `None` between chunks.
    pub left: Option<usize>,
    /// Between chunks, how far the line or the trailers were read that stand there.
    pub looked: LinePlace,
}

/// What the chunks that came so far lead to.
#[derive(Clone, Copy, Debug)]
pub enum ContentStep {
    /// The content is whole; its end takes so many bytes.
    Whole { len: usize },
    /// More bytes are needed.
    Need,
    /// The content is too long.
    TooLong,
    /// The bytes are no content in chunks.
    Bad,
}

/// Reads chunks from the place `at` on and moves it behind what it has read, and appends their bytes to the body. Each
/// byte is read once, however the text goes on, but for those of a line or of trailers that are not whole: of these only bytes that are new are read, and
/// those of one trailer that ends in a carriage return; near their limit they are read anew.
pub fn read_content(
    alloc: Global,
    text: &[u8],
    at: &mut usize,
    body: &mut Body,
) -> Result<ContentStep, NoMemory>
    requires within { at.old ≤ length text.now }
    requires bounded { IsBounded body.old }
    ensures within { at.new ≤ length text.now }
    ensures bounded { IsBounded body.new }
    ensures looked { KeepsLooked (drop at.old text.now) body.old (drop at.new text.now) body.new }
    ensures kept { KeepsChunks (drop at.old text.now) body.old (drop at.new text.now) body.new }
    ensures ends { IfOk result (λ step. EndsIn (drop at.new text.now) step) }
    ensures step { IfOk result (λ step. LeadsTo (drop at.old text.now) body.old (drop at.new text.now) body.new step) }
{
    loop {
        let found = take_step(alloc, text, at, body)?;
        if let Some(step) = found {
            return Ok(step);
        }
    }
}

/// Takes what is left of a chunk that was begun, or the next line; `None` where the chunks go on behind it.
fn take_step(
    alloc: Global,
    text: &[u8],
    at: &mut usize,
    body: &mut Body,
) -> Result<Option<ContentStep>, NoMemory>
    requires within { at.old ≤ length text.now }
    requires bounded { IsBounded body.old }
    ensures within { at.new ≤ length text.now }
    ensures bounded { IsBounded body.new }
    ensures on { IfOk result (λ found. IsNone found → at.old < at.new) }
    ensures looked { KeepsLooked (drop at.old text.now) body.old (drop at.new text.now) body.new }
    ensures kept { KeepsChunks (drop at.old text.now) body.old (drop at.new text.now) body.new }
    ensures ends { IfOk result (λ found. IfSome found (λ step. EndsIn (drop at.new text.now) step)) }
    ensures step { IfOk result (λ found. IfSome found (λ step. LeadsTo (drop at.old text.now) body.old (drop at.new text.now) body.new step)) }
{
    match body.left {
        Some(left) => take_data(text, at, body, left),
        None => take_line(alloc, text, at, body),
    }
}

/// Takes the line of the next chunk.
fn take_line(
    alloc: Global,
    text: &[u8],
    at: &mut usize,
    body: &mut Body,
) -> Result<Option<ContentStep>, NoMemory>
    requires within { at.old ≤ length text.now }
    requires bounded { IsBounded body.old }
    requires between { body.old.left ≡ None }
    ensures within { at.new ≤ length text.now }
    ensures bounded { IsBounded body.new }
    ensures on { IfOk result (λ found. IsNone found → at.old < at.new) }
    ensures looked { KeepsLooked (drop at.old text.now) body.old (drop at.new text.now) body.new }
    ensures kept { KeepsChunks (drop at.old text.now) body.old (drop at.new text.now) body.new }
    ensures ends { IfOk result (λ found. IfSome found (λ step. EndsIn (drop at.new text.now) step)) }
    ensures step { IfOk result (λ found. IfSome found (λ step. LeadsTo (drop at.old text.now) body.old (drop at.new text.now) body.new step)) }
{
    if let Some(place) = place_on(&text[*at..], body.looked) {
        body.looked = place;
        return Ok(Some(ContentStep::Need));
    }
    let step = read_chunk(alloc, &text[*at..], body.bytes.len() as u64)?;
    match step {
        ChunkStep::Chunk { len, size } => {
            *at += len;
            body.left = Some(size);
            Ok(None)
        }
        ChunkStep::End { len } => Ok(Some(ContentStep::Whole { len })),
        ChunkStep::Need(place) => {
            body.looked = place;
            Ok(Some(ContentStep::Need))
        }
        ChunkStep::TooLong => Ok(Some(ContentStep::TooLong)),
        ChunkStep::Bad => Ok(Some(ContentStep::Bad)),
    }
}

/// Takes what came of the bytes that are left of a chunk, and behind the last one its line end.
fn take_data(
    text: &[u8],
    at: &mut usize,
    body: &mut Body,
    left: usize,
) -> Result<Option<ContentStep>, NoMemory>
    requires within { at.old ≤ length text.now }
    requires bounded { IsBounded body.old }
    requires left { body.old.left ≡ Some left }
    ensures within { at.new ≤ length text.now }
    ensures bounded { IsBounded body.new }
    ensures on { IfOk result (λ found. IsNone found → at.old < at.new) }
    ensures looked { KeepsLooked (drop at.old text.now) body.old (drop at.new text.now) body.new }
    ensures kept { KeepsChunks (drop at.old text.now) body.old (drop at.new text.now) body.new }
    ensures ends { IfOk result (λ found. IfSome found (λ step. EndsIn (drop at.new text.now) step)) }
    ensures step { IfOk result (λ found. IfSome found (λ step. LeadsTo (drop at.old text.now) body.old (drop at.new text.now) body.new step)) }
{
    let due = take_due(text, at, body, left)?;
    if due > 0 {
        return Ok(Some(ContentStep::Need));
    }
    match read_line_end(&text[*at..]) {
        DataRead::Whole => {
            *at += LINE_END_LEN;
            body.left = None;
            body.looked = start_of_line();
            Ok(None)
        }
        DataRead::Partial => Ok(Some(ContentStep::Need)),
        DataRead::Invalid => Ok(Some(ContentStep::Bad)),
    }
}

/// Appends what came of the bytes that are left to the body and moves the place behind them. How many are left then.
pub fn take_due(
    text: &[u8],
    at: &mut usize,
    body: &mut Body,
    left: usize,
) -> Result<usize, NoMemory>
    requires within { at.old ≤ length text.now }
    requires left { body.old.left ≡ Some left }
    ensures ok { IfOk result (λ due. IsTaken text.now at.old at.new body.old body.new left due) }
    ensures err { OnErr result ((at.new ≡ at.old) × (body.new ≡ body.old)) }
{
    let end = *at + left.min(text.len() - *at);
    let count = end - *at;
    body.bytes.push(&text[*at..end])?;
    *at = end;
    body.left = Some(left - count);
    Ok(left - count)
}
