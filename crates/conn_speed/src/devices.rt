//! A source that gives the same bytes again and again, a sink that counts, a link that nobody asks, and a clock that stands still.
ghost use Rattle.std.specs.Prelude.{◌≤◌, length};

use side_base::{LinkRequest, Moment, Response};
use side_world::{Clock, Failed, Link, LinkErr, Sink, Source};

/// Gives the bytes of `piece` so many times; no read goes over the end of one.
#[derive(Drop)]
pub struct Again<'a> {
    pub piece: &'a [u8],
    pub left: u32,
    /// How many bytes of the piece were read.
    pub at: usize,
    pub ended: bool,
}

impl Source for Again<'_> {
    ghost use Rattle.std.specs.Prelude.{None};

    ghost left = { λ _. None };

    ghost taken = { λ _. None };

    ghost earlier = { λ _. None };

    ghost ended = { λ s. s.ended };

    ghost faults = { λ _. 0 };

    fn read(&mut self, into: &mut [u8]) -> Result<usize, Failed> {
        if self.left == 0 {
            self.ended = true;
            return Ok(0);
        }
        let n = copy_front(self.piece, self.at, into);
        if n == 0 {
            self.ended = true;
            return Ok(0);
        }
        self.at = self.at.saturating_add(n);
        if self.at >= self.piece.len() {
            self.at = 0;
            self.left -= 1;
        }
        Ok(n)
    }
}

/// Copies what stands behind a place to the front of `into`, and answers how many bytes.
fn copy_front(bytes: &[u8], at: usize, into: &mut [u8]) -> usize
    ensures within { result ≤ length into.old }
{
    let rest = &bytes[at.min(bytes.len())..];
    let n = into.len().min(rest.len());
    into[..n].copy_from_slice(&rest[..n]);
    n
}

/// Takes all bytes, and counts the writes, those of them that begin with a response of success, and the bytes.
#[derive(Drop)]
pub struct Counted {
    pub writes: u64,
    pub good: u64,
    pub bytes: u64,
}

impl Sink for Counted {
    ghost use Rattle.std.specs.Prelude.{None};

    ghost contents = { λ _. None };

    ghost faults = { λ _. 0 };

    fn write(&mut self, piece: &[u8]) -> Result<usize, Failed> {
        self.writes = self.writes.saturating_add(1);
        if piece.starts_with(b"HTTP/1.1 2") {
            self.good = self.good.saturating_add(1);
        }
        self.bytes = self.bytes.saturating_add(piece.len() as u64);
        Ok(piece.len())
    }
}

/// A link that has no memory.
#[derive(Drop)]
pub struct NoLink;

impl Link for NoLink {
    ghost use Rattle.std.specs.Prelude.{None};

    ghost calls = { λ _. None };

    ghost faults = { λ _. 0 };

    ghost expiries = { λ _. 0 };

    fn call(&mut self, _request: &LinkRequest, _limit_ms: u64) -> Result<Response, LinkErr> {
        Err(LinkErr::NoMemory)
    }
}

/// A clock that stands still at a moment.
#[derive(Drop)]
pub struct StillClock {
    pub at: Moment,
    pub paused: u64,
}

impl Clock for StillClock {
    ghost use Rattle.std.specs.Prelude.{None};

    ghost last = { λ c. c.at };

    ghost paused = { λ c. c.paused };

    ghost ticks = { λ _. None };

    fn now(&mut self) -> Moment {
        self.at
    }

    fn pause(&mut self, ms: u64) {
        self.paused = self.paused.saturating_add(ms);
    }
}
