ghost use Rattle.std.specs.Prelude.{◌≡◌, ◌<◌, ◌+◌, ◌*◌, IfSome};

use crate::begun_request::{Begun, BegunRequest};
use crate::parting::{Parted, read_on};
use crate::ready_set::{ReadySet, Report, When};
use crate::waiting::now_ms;
use std::alloc::{AllocError, Global};
use std::mem;
use std::net::TcpStream;
use std::os::fd::{AsRawFd, RawFd};
use std::sync::atomic::{AtomicU64, Ordering};
use std::sync::{Arc, Mutex, Wait};

/// How many turns' numbers there are, and one past the greatest place.
const TURNS: u64 = 1 << 32;

/// How many places are swept at a time.
const SWEPT_AT_ONCE: usize = 256;

/// For how many milliseconds the peer of a connection that ends is read on.
const PARTING_MS: u64 = 1_000;

/// How many bytes of it are read and dropped at most.
const PARTING_BYTES: u64 = 16_777_216;

/// How many bytes of begun requests wait at all places together before others of them go to workers.
const MOST_WAITING: u64 = 67_108_864;

/// The place of a connection that no worker serves.
#[derive(Drop)]
struct Place {
    /// Raised with each new connection, so that a report of an earlier one is known.
    turn: u32,
    /// Something came while a worker served the connection, or the set no longer reports it.
    was_missed: bool,
    /// The moment at which it came here, in milliseconds.
    since: u64,
    /// How many bytes of it are still read and dropped, where it has ended; 0 where it goes on.
    dropped: u64,
    stream: Option<Arc<TcpStream>>,
    /// What its peer has sent of a request.
    begun: BegunRequest,
}

/// A connection that a worker serves now, and what its peer has sent of a request.
#[derive(Drop)]
pub(crate) struct Taken {
    pub(crate) stream: Arc<TcpStream>,
    pub(crate) begun: BegunRequest,
}

/// What came before these moments is closed.
#[derive(Clone, Copy)]
pub(crate) struct Ages {
    /// What idles between two requests.
    pub(crate) idle: u64,
    /// What waits for the rest of a request.
    pub(crate) begun: u64,
}

impl Place {
    /// Closes its connection where it came before the moment for such a one. How many bytes of a request went with it.
    fn close_old(&mut self, ages: Ages, now: u64) -> u64 {
        let before = if self.dropped > 0 {
            now.saturating_sub(PARTING_MS)
        } else if self.begun.is_none() {
            ages.idle
        } else {
            ages.begun
        };
        if self.since < before {
            return self.close();
        }
        0
    }

    /// Closes its connection. How many bytes of a request went with it.
    fn close(&mut self) -> u64 {
        self.stream = None;
        self.begun.let_go()
    }

    /// Reads on what the peer of its connection sends, whose request has begun. Whether it waits for more still; its worker has to read on where it doesn't.
    fn waits_on(&mut self, set: &ReadySet, number: u64) -> bool {
        let begun = match &self.stream {
            Some(stream) => self.begun.read_on(stream),
            None => Begun::Lost,
        };
        match begun {
            Begun::AtHand => false,
            Begun::Quiet => true,
            Begun::Lost => {
                self.stream = None;
                true
            }
            Begun::More => {
                self.report_again(set, number);
                true
            }
        }
    }

    /// Has the set report its connection by this number again, where something can be read.
    fn report_again(&mut self, set: &ReadySet, number: u64) {
        let is_reported = match &self.stream {
            Some(stream) => set.arm(stream.as_raw_fd(), number, When::More).is_ok(),
            None => true,
        };
        if !is_reported {
            self.stream = None;
        }
    }

    /// Reads on what the peer of its connection sends, which has ended, and lets that go where it is time. Whether more is there at once.
    fn read_on(&mut self, now: u64) -> bool {
        let is_late = now.saturating_sub(self.since) >= PARTING_MS;
        let parted = match &self.stream {
            Some(stream) if !is_late => read_on(stream, self.dropped),
            _ => Parted::Over,
        };
        match parted {
            Parted::Over => {
                self.stream = None;
                false
            }
            Parted::Quiet { left } => {
                self.dropped = left;
                false
            }
            Parted::More { left } => {
                self.dropped = left;
                true
            }
        }
    }
}

/// The connections that no worker serves, each at the place that has the number of its descriptor.
#[derive(Drop)]
pub(crate) struct Places {
    places: Vec<Mutex<Place>>,
    /// How many bytes of begun requests wait at them.
    waiting: AtomicU64,
}

impl Places {
    /// So many empty places.
    pub(crate) fn new(alloc: Global, count: usize) -> Result<Self, AllocError> {
        let mut places = Vec::with_capacity(alloc, count)?;
        for _ in 0..count {
            places.push(Mutex::new(Place {
                turn: 0,
                was_missed: false,
                since: 0,
                dropped: 0,
                stream: None,
                begun: BegunRequest::none(alloc),
            }))?;
        }
        Ok(Places {
            places,
            waiting: AtomicU64::new(0),
        })
    }

    /// Has a new connection awaited by the set, at its place. Where it has no place below `most`, or the set no room, it is let go: `false`.
    pub(crate) fn admit<R: Wait>(
        &self,
        rt: &R,
        set: &ReadySet,
        stream: Arc<TcpStream>,
        most: usize,
        now: u64,
    ) -> bool {
        let fd = stream.as_raw_fd();
        let Some(at) = place_of(fd, self.places.len().min(most)) else {
            return false;
        };
        let mut place = self.places[at as usize].lock(rt);
        let turn = place.turn.wrapping_add(1);
        place.turn = turn;
        place.was_missed = false;
        if set.add(fd, number_of(turn, at), When::More).is_err() {
            return false;
        }
        self.waiting
            .fetch_sub(place.begun.let_go(), Ordering::SeqCst);
        place.since = now;
        place.dropped = 0;
        place.stream = Some(stream);
        true
    }

    /// Puts a connection that was served back to its place. The set is asked about it only where something may be there that it
    /// reported already; where it then has no room, the connection is let go.
    pub(crate) fn put_back<R: Wait>(
        &self,
        rt: &R,
        set: &ReadySet,
        taken: Taken,
        is_drained: bool,
        now: u64,
    ) {
        let Taken { stream, begun } = taken;
        let fd = stream.as_raw_fd();
        let Some(at) = place_of(fd, self.places.len()) else {
            return;
        };
        let mut place = self.places[at as usize].lock(rt);
        if place.was_missed || !is_drained {
            place.was_missed = false;
            if set.arm(fd, number_of(place.turn, at), When::More).is_err() {
                return;
            }
        }
        place.since = now;
        place.dropped = 0;
        place.stream = Some(stream);
        self.waiting.fetch_add(begun.len() as u64, Ordering::SeqCst);
        place.begun = begun;
    }

    /// Puts a connection that has ended to its place, where what its peer sends is read and dropped. Where the set has no room for that, it is let go.
    pub(crate) fn part<R: Wait>(&self, rt: &R, set: &ReadySet, stream: Arc<TcpStream>, now: u64) {
        let fd = stream.as_raw_fd();
        let Some(at) = place_of(fd, self.places.len()) else {
            return;
        };
        let mut place = self.places[at as usize].lock(rt);
        if set.arm(fd, number_of(place.turn, at), When::More).is_err() {
            return;
        }
        place.was_missed = false;
        place.since = now;
        place.dropped = PARTING_BYTES;
        place.stream = Some(stream);
    }

    /// Has a connection that is served no longer reported, until it is put back: `false` where that wasn't done, since another
    /// works at its place.
    pub(crate) fn mute(&self, set: &ReadySet, fd: RawFd) -> bool {
        let Some(at) = place_of(fd, self.places.len()) else {
            return false;
        };
        if let Some(mut place) = self.places[at as usize].try_lock() {
            place.was_missed = true;
            return set.arm(fd, number_of(place.turn, at), When::Never).is_ok();
        }
        false
    }

    /// The connection that a report of the set speaks of, of this number, which is no longer at its place. A report of an earlier connection gives
    /// none, nor does one of a connection that is served, which is noted, nor of one whose peer is read on: since it has ended, or since a request
    /// has begun on it of which more has to come, also behind what is there now.
    pub(crate) fn take<R: Wait + AllocGlobal>(
        &self,
        rt: &R,
        set: &ReadySet,
        report: Report,
    ) -> Option<Taken> {
        let number = report.number;
        let at = (number % TURNS) as usize;
        if at >= self.places.len() {
            return None;
        }
        let mut place = self.places[at].lock(rt);
        if u64::from(place.turn) != number / TURNS {
            return None;
        }
        if place.dropped > 0 {
            if place.read_on(now_ms()) {
                place.report_again(set, number);
            }
            return None;
        }
        let before = place.begun.len() as u64;
        let may_wait = before > 0 && !report.has_ended && self.has_room();
        if may_wait && place.waits_on(set, number) {
            let after = place.begun.len() as u64;
            self.waiting
                .fetch_add(after.saturating_sub(before), Ordering::SeqCst);
            return None;
        }
        self.waiting.fetch_sub(before, Ordering::SeqCst);
        let stream = place.stream.take();
        place.was_missed = stream.is_none();
        Some(Taken {
            stream: stream?,
            begun: mem::replace(&mut place.begun, BegunRequest::none(rt.alloc())),
        })
    }

    /// Whether more of begun requests may wait here.
    pub(crate) fn has_room(&self) -> bool {
        self.waiting.load(Ordering::SeqCst) < MOST_WAITING
    }

    /// Closes all that rest.
    pub(crate) fn let_all_go<R: Wait>(&self, rt: &R) {
        for place in self.places.iter() {
            let mut place = place.lock(rt);
            self.waiting.fetch_sub(place.close(), Ordering::SeqCst);
        }
    }

    /// Closes what came before these moments, and now what has ended and was read on for long. A place at which another works is passed over.
    pub(crate) fn sweep(&self, ages: Ages, now: u64) {
        for place in self.places.iter() {
            self.close_old(place, ages, now);
        }
    }

    fn close_old(&self, place: &Mutex<Place>, ages: Ages, now: u64) {
        if let Some(mut place) = place.try_lock() {
            self.waiting
                .fetch_sub(place.close_old(ages, now), Ordering::SeqCst);
        }
    }

    /// How many pieces the places have.
    pub(crate) fn pieces(&self) -> u64
        ensures { 0 < result }
    {
        (self.places.len() / SWEPT_AT_ONCE + 1) as u64
    }

    /// The same for one piece of the places; each has its turn, by rising numbers.
    pub(crate) fn sweep_piece(&self, number: u64, ages: Ages, now: u64) {
        let piece = (number % self.pieces()) as usize;
        let first = piece.saturating_mul(SWEPT_AT_ONCE);
        let end = first.saturating_add(SWEPT_AT_ONCE).min(self.places.len());
        for place in first..end {
            self.close_old(&self.places[place], ages, now);
        }
    }
}

/// The place of a descriptor, where it is below `count`.
fn place_of(fd: i32, count: usize) -> Option<u32>
    ensures { IfSome result (λ at. at < count) }
{
    match u32::try_from(fd) {
        Ok(at) if (at as usize) < count => Some(at),
        _ => None,
    }
}

/// What the set reports a connection by, which is at this place in this turn.
fn number_of(turn: u32, at: u32) -> u64
    ensures { result ≡ turn * 4294967296 + at }
{
    turn as u64 * TURNS + at as u64
}
