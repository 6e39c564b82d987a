ghost use Rattle.std.specs.Prelude.{◌≡◌, ◌≤◌, ℕ, List, [], Some, None, IfOk, false, nat_lt, if◌then◌else◌, not, ◌&&◌, length, drop};
ghost use Rattle.http_frames.specs.Framer.{IsStage};
ghost use Rattle.http_frames.specs.Lines.{IsPlace};
ghost use Rattle.httparse.specs.Grammar.{RequestHead};
ghost use Rattle.http_frames.specs.HeadReading.{head_of, IsHeadStep};
ghost use Rattle.http_frames.specs.HeadRules.{request_of};
ghost use Rattle.http_frames.specs.Progress.{HoldsContent, IsSound};
ghost use Rattle.http_frames.specs.Said.{asks};
ghost use Rattle.http_chunks.specs.LinePlaces.{beginning_of_line};
ghost use Rattle.http_frames.specs.Turns.{IsTurn, TakesTurn, Leaves};

use crate::FrameErr;
use crate::framer::Stage;
use crate::head::{Head, HeadStep, take_head};
use crate::lines::{Place, start};
use crate::progress::{Content, Progress, take_content};
use crate::rules::{Said, asks_to_continue};
use http_chunks::{Body, start_of_line};
use side_base::{Blob, NoMemory, Request};
use std::alloc::Global;

/// What the bytes of a stream hold next.
#[derive(Debug, Drop)]
pub(crate) enum Turn {
    /// A whole request, whose end takes so many bytes.
    Request { request: Request, end: usize },
    /// A head that asks for `100 Continue`.
    Continue,
    /// Nothing further.
    Need,
    /// A refusal.
    Refused(FrameErr),
}

/// What the bytes hold next, of which those before the place `at` were read. It moves behind what is read.
pub(crate) fn take_turn(
    alloc: Global,
    bytes: &[u8],
    at: &mut usize,
    continued: bool,
    stage: Stage,
) -> (Stage, Result<Turn, NoMemory>)
    requires within { at.old ≤ length bytes.now }
    requires stage { IsStage (drop at.old bytes.now) continued stage }
    ensures within { at.new ≤ length bytes.now }
    ensures left { Leaves (drop at.new bytes.now) continued result }
    ensures turn { (pending : List ℕ) → TakesTurn pending (drop at.old bytes.now) (drop at.new bytes.now) continued stage result }
{
    match stage {
        Stage::Head(place) => head_turn(alloc, bytes, at, place),
        Stage::Content(content) => content_turn(alloc, bytes, at, continued, content),
        Stage::Refused(error) => (Stage::Refused(error), Ok(Turn::Refused(error))),
    }
}

/// What the bytes hold next, where no head was taken and one was read so far before.
fn head_turn(
    alloc: Global,
    bytes: &[u8],
    at: &mut usize,
    place: Place,
) -> (Stage, Result<Turn, NoMemory>)
    requires within { at.old ≤ length bytes.now }
    requires place { IsPlace (drop at.old bytes.now) place }
    ensures within { at.new ≤ length bytes.now }
    ensures left { Leaves (drop at.new bytes.now) false result }
    ensures turn { IsTurn (drop at.old bytes.now) (drop at.new bytes.now) false result }
{
    match take_head(alloc, &bytes[*at..], place) {
        Ok(step) => turn_of(alloc, bytes, at, step),
        Err(error) => (Stage::Head(place), Err(error)),
    }
}

/// What the bytes hold next, from what stands at their front.
fn turn_of(
    alloc: Global,
    bytes: &[u8],
    at: &mut usize,
    step: HeadStep,
) -> (Stage, Result<Turn, NoMemory>)
    requires within { at.old ≤ length bytes.now }
    requires step { IsHeadStep (drop at.old bytes.now) step }
    ensures within { at.new ≤ length bytes.now }
    ensures left { Leaves (drop at.new bytes.now) false result }
    ensures turn { IsTurn (drop at.old bytes.now) (drop at.new bytes.now) false result }
{
    match step {
        HeadStep::Taken { head, said } => match first_body(alloc, &said) {
            Ok(body) => {
                *at += head.len;
                content_turn(alloc, bytes, at, false, Content { head, said, body })
            }
            Err(error) => (Stage::Head(start()), Err(error)),
        },
        HeadStep::Refused(error) => (Stage::Refused(error), Ok(Turn::Refused(error))),
        HeadStep::Need(place) => (Stage::Head(place), Ok(Turn::Need)),
    }
}

/// The body behind a head, of which nothing came; it has room for content of a known length, which is due.
fn first_body(alloc: Global, said: &Said) -> Result<Body, NoMemory>
    ensures { IfOk result (λ body. (body.bytes ≡ []) × (body.left ≡ (if nat_lt 0 said.now.codings then None else Some said.now.length)) × (body.looked ≡ beginning_of_line)) }
{
    let mut bytes = Blob::new(alloc);
    if said.codings > 0 {
        return Ok(Body {
            bytes,
            left: None,
            looked: start_of_line(),
        });
    }
    let len = said.length as usize;
    bytes.reserve(len)?;
    Ok(Body {
        bytes,
        left: Some(len),
        looked: start_of_line(),
    })
}

/// What the bytes hold next, where a head was taken.
fn content_turn(
    alloc: Global,
    bytes: &[u8],
    at: &mut usize,
    continued: bool,
    mut content: Content,
) -> (Stage, Result<Turn, NoMemory>)
    requires within { at.old ≤ length bytes.now }
    requires sound { IsSound content }
    ensures within { at.new ≤ length bytes.now }
    ensures left { Leaves (drop at.new bytes.now) continued result }
    ensures turn { (pending : List ℕ) → HoldsContent pending (drop at.old bytes.now) content → IsTurn pending (drop at.new bytes.now) continued result }
{
    if is_due(continued, &content) {
        return (Stage::Content(content), Ok(Turn::Continue));
    }
    match take_content(alloc, bytes, at, &mut content) {
        Ok(Progress::Whole { len }) => {
            let request = request_of(content);
            (
                Stage::Head(start()),
                Ok(Turn::Request { request, end: len }),
            )
        }
        Ok(Progress::Need) => (Stage::Content(content), Ok(Turn::Need)),
        Ok(Progress::Refused(error)) => (Stage::Refused(error), Ok(Turn::Refused(error))),
        Err(error) => (Stage::Content(content), Err(error)),
    }
}

/// Whether the head asks for `100 Continue` and was not answered yet.
fn is_due(continued: bool, content: &Content) -> bool
    ensures { result ≡ (not continued && asks content.now.head.minor content.now.said) }
{
    !continued && asks_to_continue(content.head.minor, &content.said)
}

/// The request of a head and its content.
fn request_of(content: Content) -> Request
    ensures { (head : RequestHead) → content.head ≡ head_of head → result ≡ request_of head content.body.bytes }
{
    let Content {
        head,
        said: _,
        body,
    } = content;
    let Head {
        method,
        target,
        minor,
        fields,
        len: _,
    } = head;
    Request {
        method,
        target,
        minor,
        fields,
        body: body.bytes,
    }
}
