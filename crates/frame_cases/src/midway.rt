// A stream that is left behind its first request.
ghost use Rattle.std.specs.Prelude.{◌≡◌, ℕ, List, [], ◌∷◌, IfOk, IfSome};
ghost use Rattle.http_frames.specs.HeadRules.{request_of};
ghost use Rattle.http_frames.specs.Streams.{Whole, Begins};

use crate::given::{has, named};
use case_text::{Lines, Section};
use http_frames::laws::{answers_go_on, bytes_go_on};
use http_frames::{FrameErr, Framer, Step};
use side_base::Request;
use std::alloc::Global;

/// The first request of the bytes, where it is whole and does not ask for `Continue`: what it gives begins the bytes, and the stream ends there, whatever
/// follows.
fn first_request(alloc: Global, bytes: &[u8]) -> Result<Option<Request>, FrameErr>
    ensures { IfOk result (λ found. IfSome found (λ request. (whole : Whole) × (rest : List ℕ) × Begins bytes.now (whole ∷ []) rest × (request ≡ request_of whole.head whole.body))) }
{
    bytes_go_on();
    answers_go_on();
    let mut framer = Framer::new(alloc);
    framer.feed(bytes)?;
    match framer.next()? {
        Step::Request(request) => Ok(Some(request)),
        Step::Continue => Ok(None),
        Step::Need => Ok(None),
    }
}

// The target of the first request, `none`, or the name of a refusal.
fn text_of(first: &Result<Option<Request>, FrameErr>) -> &[u8] {
    match first {
        Ok(Some(request)) => request.target.bytes(),
        Ok(None) => b"none",
        Err(error) => error.name().as_bytes(),
    }
}

/// Adds where a case names the target of a stream's first request and another comes.
pub(crate) fn play_first(alloc: Global, sections: &[Section<'_>], bytes: &[u8], lines: &mut Lines) {
    if has(sections, "first") {
        let first = first_request(alloc, bytes);
        let wanted = named(alloc, sections, "first");
        lines.compare("first", wanted.bytes(), text_of(&first));
        drop(wanted);
        drop(first);
    }
}
