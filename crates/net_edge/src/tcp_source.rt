ghost use Rattle.std.specs.Prelude.{◌≡◌, None, true};

use crate::begun_request::BegunRequest;
use crate::connection::{read_in_time, read_now};
use crate::door::Door;
use crate::pace::Pace;
use crate::places::Taken;
use crate::waiting::now_ms;
use host_devices::FaultCount;
use side_world::{Failed, Source};
use std::io;
use std::net::TcpStream;
use std::sync::Arc;

/// How often one connection is looked at between requests before others have their turn.
const LOOKS_AT_ONCE: u32 = 64;

/// For how many milliseconds, in the same way.
const MS_AT_ONCE: u64 = 100;

/// What the peer of a connection sends in one stretch: from a moment at which something is there until one at which, between
/// two requests, nothing more is, or it is others' turn: after 64 looks, or 100 milliseconds, or where all workers end. It tells no
/// content.
///
/// Between two requests, of which `between` tells it, a read answers 0 where nothing is there: without a look where the last read
/// left nothing, since what comes later is reported anew. Where more of the last request that came has to come, its reader gets none of
/// it: it goes back to the door with the connection, and is the beginning of another stretch. Within a request it waits, and answers 0 where it has waited too long in
/// this stretch, or where its peer has sent for too long without a moment between two requests. Each error of the connection is a
/// fault.
pub struct TcpSource {
    door: Arc<Door>,
    /// The bit of its worker.
    worker: u64,
    stream: Arc<TcpStream>,
    /// What the reader has yet to be given of a request that is at hand, or has been told nothing of, since more of it has to come.
    begun: BegunRequest,
    /// More of that has to come.
    waits: bool,
    /// The reader holds no part of a request.
    is_between: bool,
    /// The last read answered that the stretch ended between two requests.
    pub(crate) rests: bool,
    ended: bool,
    /// How many looks there were between two requests.
    looks: u32,
    /// The moment at which it was first read within a request, or for a second time between two, in milliseconds; 0 where it wasn't.
    since: u64,
    /// The door counts its worker among those that a peer holds.
    is_counted: bool,
    /// The report of this stretch said that the peer sends no more, so that no other will come.
    has_no_more: bool,
    /// The last read left nothing.
    is_drained: bool,
    /// How what it sends within requests comes.
    pace: Pace,
    pub(crate) faults: FaultCount,
    ghost rest_ends: { rests ≡ true → ended ≡ true },
    ghost rests_between: { rests ≡ true → is_between ≡ true },
}

impl TcpSource {
    ghost use Rattle.std.specs.Prelude.{◌≡◌, ◌≤◌, ◌↔◌, length, true, false, None, IfOk, IfSome};

    /// A stretch that begins, which the worker with this bit serves.
    pub(crate) fn new(door: Arc<Door>, worker: u64, taken: Taken, has_no_more: bool) -> Self
        ensures no_faults { ⟦<TcpSource as Source>⟧.faults result ≡ 0 }
        ensures not_ended { ⟦<TcpSource as Source>⟧.ended result ≡ false }
        ensures does_not_rest { result.rests ≡ false }
    {
        let Taken { stream, begun } = taken;
        TcpSource {
            door,
            worker,
            stream,
            begun,
            waits: false,
            is_between: true,
            rests: false,
            ended: false,
            looks: 0,
            since: 0,
            is_counted: false,
            has_no_more,
            is_drained: false,
            pace: Pace::new(),
            faults: FaultCount::none(),
        }
    }

    /// Whether a report will say where there is something to read.
    pub(crate) fn is_awaited(&self) -> bool {
        self.is_drained && !self.has_no_more
    }

    /// Whether its peer may send more than was read: it hasn't ended, and nothing failed.
    pub(crate) fn may_send(&self) -> bool
        ensures { result ≡ true ↔ ((self.now.ended ≡ false) × (self.now.faults ≡ 0)) }
    {
        !self.ended && self.faults.is_none()
    }

    /// The door and the connection with what it has of a request, and whether its stretch ended between two requests and it didn't fail.
    pub(crate) fn into_parts(self) -> ((Arc<Door>, Taken), bool)
        ensures { result.1 ≡ true ↔ ((self.rests ≡ true) × (self.faults ≡ 0)) }
    {
        let TcpSource {
            door,
            worker,
            stream,
            begun,
            waits: _,
            is_between: _,
            rests,
            ended: _,
            looks: _,
            since: _,
            is_counted,
            has_no_more: _,
            is_drained: _,
            pace: _,
            faults,
        } = self;
        if is_counted {
            door.end_hold(worker);
        }
        ((door, Taken { stream, begun }), rests && faults.is_none())
    }

    /// What comes next of a request that has begun; no bytes where its peer's time is over.
    fn rest_of_request(&mut self, into: &mut [u8]) -> io::Result<usize>
        ensures within { IfOk result (λ n. n ≤ length into.new) }
        ensures is_between { self.new.is_between ≡ self.old.is_between }
        ensures does_not_rest { self.new.rests ≡ self.old.rests }
        ensures ended { self.new.ended ≡ self.old.ended }
        ensures faults { self.new.faults ≡ self.old.faults }
    {
        if self.has_had_its_time() {
            return Ok(0);
        }
        let n = read_in_time(&self.door, self.worker, &self.stream, &mut self.pace, into)?;
        self.pace.note(n);
        self.is_drained = n < into.len();
        Ok(n)
    }

    /// For how many milliseconds it has lasted since the first call.
    fn lasted(&mut self) -> u64
        ensures is_between { self.new.is_between ≡ self.old.is_between }
        ensures does_not_rest { self.new.rests ≡ self.old.rests }
        ensures ended { self.new.ended ≡ self.old.ended }
        ensures faults { self.new.faults ≡ self.old.faults }
    {
        let now = now_ms();
        if self.since == 0 {
            self.since = now;
        }
        now.saturating_sub(self.since)
    }

    /// Whether its peer has sent for too long without a moment between two requests, so that others have their turn.
    fn has_had_its_time(&mut self) -> bool
        ensures is_between { self.new.is_between ≡ self.old.is_between }
        ensures does_not_rest { self.new.rests ≡ self.old.rests }
        ensures ended { self.new.ended ≡ self.old.ended }
        ensures faults { self.new.faults ≡ self.old.faults }
    {
        let ms = self.lasted();
        if !self.is_counted && self.door.is_long(ms) {
            self.is_counted = self.door.begin_hold(self.worker, &self.stream);
        }
        self.door.is_too_long(ms)
    }

    /// Whether others have their turn, or all workers end, before it is looked at once more between two requests.
    fn has_had_its_turn(&mut self) -> bool
        ensures is_between { self.new.is_between ≡ self.old.is_between }
        ensures does_not_rest { self.new.rests ≡ self.old.rests }
        ensures ended { self.new.ended ≡ self.old.ended }
        ensures faults { self.new.faults ≡ self.old.faults }
    {
        let looks = self.looks;
        self.looks = looks.saturating_add(1);
        looks >= LOOKS_AT_ONCE
            || looks > 0 && (self.door.is_ending() || self.lasted() >= MS_AT_ONCE)
    }

    /// What comes next; `None` where the stretch ends between two requests.
    fn next_bytes(&mut self, into: &mut [u8]) -> io::Result<Option<usize>>
        ensures within { IfOk result (λ found. IfSome found (λ n. n ≤ length into.new)) }
        ensures rests { IfOk result (λ found. found ≡ None → self.old.is_between ≡ true) }
        ensures is_between { self.new.is_between ≡ self.old.is_between }
        ensures does_not_rest { self.new.rests ≡ self.old.rests }
        ensures ended { self.new.ended ≡ self.old.ended }
        ensures faults { self.new.faults ≡ self.old.faults }
    {
        if self.is_between && self.waits {
            return Ok(None);
        }
        if !self.begun.is_none() {
            return Ok(Some(self.begun.give(into)));
        }
        if !self.is_between {
            return Ok(Some(self.rest_of_request(into)?));
        }
        if self.is_awaited() || self.has_had_its_turn() {
            return Ok(None);
        }
        self.first_of_request(into)
    }

    /// What comes next between two requests; `None` where there is nothing, or where more of a request has to come, which goes back to the door.
    fn first_of_request(&mut self, into: &mut [u8]) -> io::Result<Option<usize>>
        ensures within { IfOk result (λ found. IfSome found (λ n. n ≤ length into.new)) }
        ensures is_between { self.new.is_between ≡ self.old.is_between }
        ensures does_not_rest { self.new.rests ≡ self.old.rests }
        ensures ended { self.new.ended ≡ self.old.ended }
        ensures faults { self.new.faults ≡ self.old.faults }
    {
        let found = read_now(&self.stream, into)?;
        self.is_drained = found.is_none_or(|n| n < into.len());
        match found {
            Some(n) if n > 0 && !self.has_no_more => Ok(self.whole_of(&into[..n])),
            _ => Ok(found),
        }
    }

    /// How many of these bytes are for the reader now, if any: the last request goes back to the door where more of it has to come.
    fn whole_of(&mut self, piece: &[u8]) -> Option<usize>
        ensures within { IfSome result (λ n. n ≤ length piece.now) }
        ensures is_between { self.new.is_between ≡ self.old.is_between }
        ensures does_not_rest { self.new.rests ≡ self.old.rests }
        ensures ended { self.new.ended ≡ self.old.ended }
        ensures faults { self.new.faults ≡ self.old.faults }
    {
        if !self.door.takes_back() {
            return Some(piece.len());
        }
        let count = self.begun.take_back(piece);
        self.waits = count < piece.len();
        if count > 0 { Some(count) } else { None }
    }
}

impl Source for TcpSource {
    ghost left = { λ _. None };

    ghost taken = { λ _. None };

    ghost earlier = { λ _. None };

    ghost ended = { λ s. s.ended };

    ghost faults = { λ s. s.faults };

    fn read(&mut self, into: &mut [u8]) -> Result<usize, Failed> {
        self.rests = false;
        let found = self.next_bytes(into);
        match self.faults.counted(found)? {
            Some(n) => {
                self.ended = self.ended || n == 0;
                Ok(n)
            }
            None => {
                self.ended = true;
                self.rests = true;
                Ok(0)
            }
        }
    }

    fn between(&mut self, is_between: bool) {
        self.rests = self.rests && is_between;
        self.is_between = is_between;
    }
}
