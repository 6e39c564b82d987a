ghost use Rattle.std.specs.Prelude.{◌≡◌, ◌≤◌, ◌+◌, [], false, IsTrue, ◌↔◌, OnOk, OnErr, length, drop};
ghost use Rattle.http_frames.specs.Framing.{State, Stands, Answers, waiting, fed, held, stored};

use crate::lines::{Place, start};
use crate::progress::{Content, feed_content};
use crate::turn::{Turn, take_turn};
use crate::{FrameErr, Step};
use side_base::NoMemory;
use std::alloc::Global;
use std::marker::Model;
use std::mem;

/// Where the stream stands.
#[derive(Debug, Drop)]
pub(crate) enum Stage {
    /// The head of the next request is not whole; it was read so far.
    Head(Place),
    /// The head of a request was taken.
    Content(Content),
    /// The stream is refused.
    Refused(FrameErr),
}

/// Takes requests out of a stream of bytes that comes in pieces.
///
/// `feed` brings the bytes, and `next` gives what they hold. What it gives depends on the bytes alone, and not on how
/// they were cut into pieces. Contracts speak of the state of the stream for which a framer stands.
#[derive(Debug, Drop)]
pub struct Framer {
    alloc: Global,
    bytes: Vec<u8>,
    /// Up to here the bytes were read: those of requests that were given out, and what was taken of the next one.
    start: usize,
    continued: bool,
    stage: Stage,
}

impl Model for Framer {
    ghost use Rattle.http_frames.specs.Framing.{Kept};

    ghost Value = { Kept };

    ghost use Rattle.http_frames.specs.Framer.{kept_of, IsFramer};

    ghost view = { kept_of };

    ghost invariant = { IsFramer };
}

impl Framer {
    /// A framer that was fed nothing; takes no memory.
    pub fn new(alloc: Global) -> Self
        ensures { Stands (waiting [] false) result }
    {
        Framer {
            alloc,
            bytes: Vec::new(alloc),
            start: 0,
            continued: false,
            stage: Stage::Head(start()),
        }
    }

    /// Takes the bytes that came: those of a content that are due move into it once. A refused stream takes none. Without memory nothing has changed.
    pub fn feed(&mut self, piece: &[u8]) -> Result<(), NoMemory>
        ensures ok { OnOk result ((state : State) → Stands state self.old → Stands (fed state piece.now) self.new) }
        ensures err { OnErr result ((state : State) → Stands state self.old → Stands state self.new) }
        ensures room { held self.new ≤ held self.old + length piece.now }
        ensures dropped { stored self.new ≤ held self.old + length piece.now }
    {
        if let Stage::Refused(_) = self.stage {
            return Ok(());
        }
        remove_front(&mut self.bytes, self.start);
        self.start = 0;
        if let Stage::Content(content) = &mut self.stage {
            return feed_content(&mut self.bytes, content, piece);
        }
        self.bytes.extend_from_slice(piece)
    }

    /// What the bytes that were fed hold next.
    ///
    /// A refusal is given again by each further call. After `NoMemory` nothing has changed, and the call may be made
    /// again.
    pub fn next(&mut self) -> Result<Step, FrameErr>
        ensures { (state : State) → Stands state self.old → Answers state result self.new }
    {
        let stage = mem::replace(&mut self.stage, Stage::Head(start()));
        let (stage, turn) = take_turn(
            self.alloc,
            &self.bytes,
            &mut self.start,
            self.continued,
            stage,
        );
        self.stage = stage;
        match turn? {
            Turn::Request { request, end } => {
                self.start += end;
                self.continued = false;
                Ok(Step::Request(request))
            }
            Turn::Continue => {
                self.continued = true;
                Ok(Step::Continue)
            }
            Turn::Need => Ok(Step::Need),
            Turn::Refused(error) => {
                self.bytes.clear();
                self.start = 0;
                Err(error)
            }
        }
    }

    /// The number of bytes that are held: of a content that came in part, and of what was not read yet. Takes no memory.
    ///
    /// Where `next` answers `Step::Need` there are fewer than 4,227,072: the content, a chunk line and trailers.
    pub fn held(&self) -> usize
        ensures { result ≡ held self.now }
    {
        let rest = self.bytes.len() - self.start;
        match &self.stage {
            Stage::Head(_) => rest,
            Stage::Content(content) => rest + content.body.bytes.len(),
            Stage::Refused(_) => 0,
        }
    }

    /// Whether no byte of an unfinished request is held. Takes no memory.
    pub fn is_between(&self) -> bool
        ensures { (state : State) → Stands state self.now → IsTrue result ↔ (state ≡ waiting [] false) }
    {
        match self.stage {
            Stage::Head(_) => self.start == self.bytes.len(),
            Stage::Content(_) => false,
            Stage::Refused(_) => false,
        }
    }
}

/// Removes the first bytes.
fn remove_front(bytes: &mut Vec<u8>, count: usize)
    requires { count ≤ length bytes.old.items }
    ensures { bytes.new.items ≡ drop count bytes.old.items }
{
    if count > 0 {
        let len = bytes.len();
        bytes.copy_within(count..len, 0);
        bytes.truncate(len - count);
    }
}
