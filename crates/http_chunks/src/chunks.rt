ghost use Rattle.std.specs.Prelude.{◌≡◌, ◌+◌, ◌<◌, ◌≤◌, IfOk, length};
ghost use Rattle.http_chunks.specs.ChunkReading.{IsLineOf};
ghost use Rattle.http_chunks.specs.ChunkSteps.{IsDataRead, IsChunkStep};

use crate::BODY_LIMIT;
use crate::chunk_line::{LineRead, read_line};
use crate::front::after_front;
use crate::line_place::{LinePlace, behind_last, place_of};
use crate::trailers::{TrailersRead, read_trailers};
use side_base::NoMemory;
use std::alloc::Global;

const LINE_END: &[u8] = b"\r\n";

/// What stands where a chunk, or the end of the chunks, is due.
#[derive(Clone, Copy, Debug)]
pub(crate) enum ChunkStep {
    /// The line of a chunk: how many bytes it takes, and how many bytes of content follow it.
    Chunk { len: usize, size: usize },
    /// The last chunk with the trailers: how many bytes they take.
    End { len: usize },
    /// Bytes that may become one of these, which were read so far.
    Need(LinePlace),
    /// A line whose chunk makes the content too long.
    TooLong,
    /// Bytes that cannot become one of these.
    Bad,
}

/// What stands where the line end behind the bytes of a chunk is due.
#[derive(Clone, Copy, Debug)]
pub(crate) enum DataRead {
    Whole,
    Partial,
    Invalid,
}

/// Reads the line of a chunk, or the end of the chunks, at the front of the bytes, where `sum` bytes of content came before.
pub(crate) fn read_chunk(alloc: Global, rest: &[u8], sum: u64) -> Result<ChunkStep, NoMemory>
    requires { sum ≤ BODY_LIMIT }
    ensures { IfOk result (λ step. IsChunkStep rest.now sum step) }
{
    let read = read_line(alloc, rest)?;
    match read {
        LineRead::Whole { len, size } => after_line(alloc, rest, sum, len, size),
        LineRead::Partial => Ok(ChunkStep::Need(place_of(rest))),
        LineRead::Invalid => Ok(ChunkStep::Bad),
    }
}

/// What follows a whole line of this length and size.
fn after_line(
    alloc: Global,
    rest: &[u8],
    sum: u64,
    len: usize,
    size: u64,
) -> Result<ChunkStep, NoMemory>
    requires sum { sum ≤ BODY_LIMIT }
    requires line { IsLineOf rest.now len size }
    ensures { IfOk result (λ step. IsChunkStep rest.now sum step) }
{
    if size > BODY_LIMIT - sum {
        Ok(ChunkStep::TooLong)
    } else if size == 0 {
        after_last(alloc, rest, sum, len)
    } else {
        Ok(ChunkStep::Chunk {
            len,
            size: size as usize,
        })
    }
}

/// What follows the line of the last chunk.
fn after_last(alloc: Global, rest: &[u8], sum: u64, len: usize) -> Result<ChunkStep, NoMemory>
    requires sum { sum ≤ BODY_LIMIT }
    requires line { IsLineOf rest.now len 0 }
    ensures { IfOk result (λ step. IsChunkStep rest.now sum step) }
{
    let read = read_trailers(alloc, &rest[len..])?;
    match read {
        TrailersRead::Whole { len: trailers } => Ok(ChunkStep::End {
            len: len + trailers,
        }),
        TrailersRead::Partial => Ok(ChunkStep::Need(behind_last(len))),
        TrailersRead::Invalid => Ok(ChunkStep::Bad),
    }
}

/// Reads a line end.
pub(crate) fn read_line_end(text: &[u8]) -> DataRead
    ensures { IsDataRead text.now 0 result }
{
    match after_front(LINE_END, text) {
        Some(_) => DataRead::Whole,
        None => match after_front(text, LINE_END) {
            Some(_) => DataRead::Partial,
            None => DataRead::Invalid,
        },
    }
}
