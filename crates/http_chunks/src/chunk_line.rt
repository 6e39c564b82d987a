ghost use Rattle.std.specs.Prelude.{◌≡◌, ℕ, ◌<◌, ◌≤◌, length, take, IfOk};
ghost use Rattle.httparse.specs.Grammar.{HasNoChunkLine, MayBecomeChunkLine};
ghost use Rattle.http_chunks.specs.ChunkReading.{EndsLine, IsLineRead};

use crate::LINE_LIMIT;
use httparse::{Status, parse_chunk_size};
use side_base::NoMemory;
use std::alloc::Global;

const LF: u8 = b'\n';

/// What stands where a chunk line is due.
#[derive(Clone, Copy, Debug)]
pub(crate) enum LineRead {
    /// A whole line: how many bytes it takes, and how many it counts.
    Whole { len: usize, size: u64 },
    /// Bytes that may become a line of at most 16,384 bytes.
    Partial,
    /// Bytes that cannot.
    Invalid,
}

/// Reads the chunk line at the front of the bytes.
pub(crate) fn read_line(alloc: Global, rest: &[u8]) -> Result<LineRead, NoMemory>
    ensures { IfOk result (λ read. IsLineRead rest.now read) }
{
    let text = &rest[..LINE_LIMIT.min(rest.len())];
    let read = short_line(alloc, text)?;
    Ok(read)
}

/// The same of at most 16,384 bytes.
fn short_line(alloc: Global, text: &[u8]) -> Result<LineRead, NoMemory>
    requires { length text.now ≤ LINE_LIMIT }
    ensures { IfOk result (λ read. IsLineRead text.now read) }
{
    match parse_chunk_size(text) {
        Ok(Status::Complete((len, size))) => Ok(LineRead::Whole { len, size }),
        Ok(Status::Partial) => partial_line(alloc, text),
        Err(_) => Ok(LineRead::Invalid),
    }
}

/// What a part of a line may become.
fn partial_line(alloc: Global, text: &[u8]) -> Result<LineRead, NoMemory>
    requires short { length text.now ≤ LINE_LIMIT }
    requires none { HasNoChunkLine text.now }
    requires may { MayBecomeChunkLine text.now }
    ensures { IfOk result (λ read. IsLineRead text.now read) }
{
    if text.len() + 2 <= LINE_LIMIT {
        return Ok(LineRead::Partial);
    }
    if text.len() == LINE_LIMIT {
        return Ok(LineRead::Invalid);
    }
    let ends = ends_line(alloc, text)?;
    if ends {
        Ok(LineRead::Partial)
    } else {
        Ok(LineRead::Invalid)
    }
}

/// Whether a line feed makes the text a line.
fn ends_line(alloc: Global, text: &[u8]) -> Result<bool, NoMemory>
    requires { HasNoChunkLine text.now }
    ensures { IfOk result (λ ends. EndsLine ends text.now) }
{
    let mut line = Vec::from_slice(alloc, text)?;
    line.push(LF)?;
    match parse_chunk_size(&line) {
        Ok(Status::Complete((_, _))) => Ok(true),
        Ok(Status::Partial) => Ok(false),
        Err(_) => Ok(false),
    }
}
