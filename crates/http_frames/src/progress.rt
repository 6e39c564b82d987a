ghost use Rattle.std.specs.Prelude.{◌≡◌, ◌≤◌, ◌+◌, ◌++◌, ℕ, List, Some, true, false, IfOk, OnOk, OnErr, length, drop};
ghost use Rattle.http_frames.specs.HeadRules.{is_chunked};
ghost use Rattle.http_frames.specs.Progress.{HoldsContent, IsSound, EndsWithin, LeadsTo};

use crate::FrameErr;
use crate::head::Head;
use crate::rules::Said;
use http_chunks::{Body, ContentStep, read_content, take_due};
use side_base::NoMemory;
use std::alloc::Global;

/// A request whose head was taken, what its fields say, and what came of its content.
#[derive(Debug, Drop)]
pub(crate) struct Content {
    pub(crate) head: Head,
    pub(crate) said: Said,
    pub(crate) body: Body,
}

/// What the content that came so far leads to.
#[derive(Clone, Copy, Debug)]
pub(crate) enum Progress {
    /// The request is whole; its end takes so many bytes.
    Whole { len: usize },
    /// More bytes are needed.
    Need,
    /// A refusal.
    Refused(FrameErr),
}

/// Takes what came of the content of a request from the place `at` on, and moves it behind what it has taken.
pub(crate) fn take_content(
    alloc: Global,
    text: &[u8],
    at: &mut usize,
    content: &mut Content,
) -> Result<Progress, NoMemory>
    requires within { at.old ≤ length text.now }
    requires sound { IsSound content.old }
    ensures within { at.new ≤ length text.now }
    ensures sound { IsSound content.new }
    ensures ends { IfOk result (λ progress. EndsWithin (drop at.new text.now) progress) }
    ensures progress { LeadsTo (drop at.old text.now) content.old (drop at.new text.now) content.new result }
{
    if is_chunked(content) {
        take_chunks(alloc, text, at, content)
    } else {
        take_length(text, at, content)
    }
}

/// Whether the content comes in chunks.
fn is_chunked(content: &Content) -> bool
    requires { IsSound content.now }
    ensures { result ≡ is_chunked content.now.head.fields }
{
    content.said.codings > 0
}

/// The same of content in chunks.
fn take_chunks(
    alloc: Global,
    text: &[u8],
    at: &mut usize,
    content: &mut Content,
) -> Result<Progress, NoMemory>
    requires within { at.old ≤ length text.now }
    requires sound { IsSound content.old }
    requires chunked { is_chunked content.old.head.fields ≡ true }
    ensures within { at.new ≤ length text.now }
    ensures sound { IsSound content.new }
    ensures ends { IfOk result (λ progress. EndsWithin (drop at.new text.now) progress) }
    ensures progress { LeadsTo (drop at.old text.now) content.old (drop at.new text.now) content.new result }
{
    let step = read_content(alloc, text, at, &mut content.body)?;
    match step {
        ContentStep::Whole { len } => Ok(Progress::Whole { len }),
        ContentStep::Need => Ok(Progress::Need),
        ContentStep::TooLong => Ok(Progress::Refused(FrameErr::TooLong)),
        ContentStep::Bad => Ok(Progress::Refused(FrameErr::BadChunk)),
    }
}

/// The same of content of a known length.
fn take_length(text: &[u8], at: &mut usize, content: &mut Content) -> Result<Progress, NoMemory>
    requires within { at.old ≤ length text.now }
    requires sound { IsSound content.old }
    requires plain { is_chunked content.old.head.fields ≡ false }
    ensures within { at.new ≤ length text.now }
    ensures sound { IsSound content.new }
    ensures ends { IfOk result (λ progress. EndsWithin (drop at.new text.now) progress) }
    ensures progress { LeadsTo (drop at.old text.now) content.old (drop at.new text.now) content.new result }
{
    match content.body.left {
        Some(left) => take_rest(text, at, content, left),
        None => Ok(Progress::Whole { len: 0 }),
    }
}

/// The same of content of which so many bytes are left.
fn take_rest(
    text: &[u8],
    at: &mut usize,
    content: &mut Content,
    left: usize,
) -> Result<Progress, NoMemory>
    requires within { at.old ≤ length text.now }
    requires sound { IsSound content.old }
    requires plain { is_chunked content.old.head.fields ≡ false }
    requires left { content.old.body.left ≡ Some left }
    ensures within { at.new ≤ length text.now }
    ensures sound { IsSound content.new }
    ensures ends { IfOk result (λ progress. EndsWithin (drop at.new text.now) progress) }
    ensures progress { LeadsTo (drop at.old text.now) content.old (drop at.new text.now) content.new result }
{
    let due = take_due(text, at, &mut content.body, left)?;
    if due > 0 {
        return Ok(Progress::Need);
    }
    Ok(Progress::Whole { len: 0 })
}

/// Takes a piece of the stream behind bytes that were not read yet. Where there are none, what is due of the content goes into the body at once, and the
/// rest of the piece behind it is kept. Without memory nothing has changed.
pub(crate) fn feed_content(
    bytes: &mut Vec<u8>,
    content: &mut Content,
    piece: &[u8],
) -> Result<(), NoMemory>
    requires { IsSound content.old }
    ensures sound { IsSound content.new }
    ensures ok { OnOk result ((pending : List ℕ) → HoldsContent pending bytes.old.items content.old → HoldsContent (pending ++ piece.now) bytes.new.items content.new) }
    ensures err { OnErr result ((pending : List ℕ) → HoldsContent pending bytes.old.items content.old → HoldsContent pending bytes.new.items content.new) }
    ensures room { length bytes.new.items + length content.new.body.bytes ≤ length bytes.old.items + length content.old.body.bytes + length piece.now }
{
    match content.body.left {
        Some(left) => feed_left(bytes, content, piece, left),
        None => bytes.extend_from_slice(piece),
    }
}

/// The same, where so many bytes of the content are due.
fn feed_left(
    bytes: &mut Vec<u8>,
    content: &mut Content,
    piece: &[u8],
    left: usize,
) -> Result<(), NoMemory>
    requires sound { IsSound content.old }
    requires left { content.old.body.left ≡ Some left }
    ensures sound { IsSound content.new }
    ensures ok { OnOk result ((pending : List ℕ) → HoldsContent pending bytes.old.items content.old → HoldsContent (pending ++ piece.now) bytes.new.items content.new) }
    ensures err { OnErr result ((pending : List ℕ) → HoldsContent pending bytes.old.items content.old → HoldsContent pending bytes.new.items content.new) }
    ensures room { length bytes.new.items + length content.new.body.bytes ≤ length bytes.old.items + length content.old.body.bytes + length piece.now }
{
    if !bytes.is_empty() {
        return bytes.extend_from_slice(piece);
    }
    let (_, rest) = piece.split_at(left.min(piece.len()));
    bytes.extend_from_slice(rest)?;
    let mut at = 0;
    match take_due(piece, &mut at, &mut content.body, left) {
        Ok(_) => Ok(()),
        Err(error) => {
            bytes.clear();
            Err(error)
        }
    }
}
