use crate::call_time::end_behind;
use crate::connection::part_with;
use crate::door_limits::DoorLimits;
use crate::entrance::{Entrance, LISTENER};
use crate::holders::{Holders, Resting};
use crate::other_work::{OtherWork, REST_MS};
use crate::pace::Pace;
use crate::places::{Ages, Places, Taken};
use crate::ready_set::{Bell, ReadySet, When};
use crate::waiting::now_ms;
use std::io;
use std::net::{Net, TcpListener, TcpStream};
use std::os::fd::AsRawFd;
use std::sync::atomic::{AtomicBool, AtomicU64, Ordering};
use std::sync::{Arc, Wait};

/// What the set reports the bell by: no number of a connection.
const BELL: u64 = u64::MAX - 1;

/// How often a piece of the places is swept, in milliseconds.
const SWEEP_MS: u64 = 50;

/// The longest that a peer or a call is waited for before another look, in milliseconds.
pub(crate) const LOOK_MS: i32 = 50;

/// What all workers share of a door: the set of what they wait for, and the connections that none of them serves.
#[derive(Drop)]
pub(crate) struct Door {
    set: ReadySet,
    bell: Bell,
    entrance: Entrance,
    places: Places,
    limits: DoorLimits,
    /// How many acceptors there are.
    workers: AtomicU64,
    holders: Holders,
    resting: Resting,
    other_work: OtherWork,
    /// The moment at which all calls are over, since all workers end; one that never comes before.
    calls_end: AtomicU64,
    /// The moment of the last sweep, and how many pieces were swept by then.
    swept_at: AtomicU64,
    sweeps: AtomicU64,
    /// A worker ended for a reason of its own, and so all end.
    is_ending: AtomicBool,
    is_shut: AtomicBool,
}

/// What one look at a door gave.
#[derive(Drop)]
pub(crate) enum Look {
    /// A connection on which there is something to read, or a request of which all may be there, and whether its peer sends no more.
    Conn { taken: Taken, has_ended: bool },
    /// Something else was done.
    Went,
    /// There was nothing for as long as was waited.
    Quiet,
}

impl Door {
    ghost use Rattle.std.specs.Prelude.{◌≡◌, ◌≤◌, ◌↔◌, ◌⊎◌, min, pos, true, IfOk};
    ghost use Rattle.net_edge.specs.Patience.{left_alone, left_while_pressed};

    /// A door at this port of 127.0.0.1.
    pub(crate) fn open<R: Net<Listener = TcpListener, Stream = TcpStream> + AllocGlobal>(
        rt: &R,
        port: u16,
        limits: DoorLimits,
    ) -> io::Result<Self>
        ensures { IfOk result (λ door. door.limits ≡ limits) }
    {
        let set = ReadySet::new()?;
        let entrance = Entrance::open(rt, port, &set)?;
        let bell = Bell::new()?;
        set.add(bell.fd(), BELL, When::Once)?;
        Ok(Door {
            set,
            bell,
            entrance,
            places: Places::new(rt.alloc(), limits.places)?,
            limits,
            workers: AtomicU64::new(0),
            holders: Holders::none(),
            resting: Resting::nobody(),
            other_work: OtherWork::none(),
            calls_end: AtomicU64::new(u64::MAX),
            swept_at: AtomicU64::new(now_ms()),
            sweeps: AtomicU64::new(0),
            is_ending: AtomicBool::new(false),
            is_shut: AtomicBool::new(false),
        })
    }

    /// The port at which it listens.
    pub(crate) fn port(&self) -> u16 {
        self.entrance.port()
    }

    /// One worker more waits at the door: its bit among those of all, of which there are 64.
    pub(crate) fn add_worker(&self) -> u64 {
        let others = self.workers.fetch_add(1, Ordering::SeqCst);
        match u32::try_from(others) {
            Ok(others) => 1u64.checked_shl(others).unwrap_or(0),
            Err(_) => 0,
        }
    }

    /// Whether its workers leave a descriptor to a connection. The bell's is the greatest of those that stood open before any came.
    pub(crate) fn has_room(&self) -> bool {
        let workers = self.workers.load(Ordering::SeqCst);
        match usize::try_from(self.bell.fd()) {
            Ok(last) => self.limits.has_room_behind(last, workers),
            Err(_) => false,
        }
    }

    /// No connection comes from now on.
    pub(crate) fn shut(&self) {
        self.is_shut.store(true, Ordering::SeqCst);
        self.bell.ring();
    }

    /// Says that all workers end, and wakes those that rest: nobody comes in any more, and who waits between two requests is let go. Calls that
    /// are under way have some seconds more.
    pub(crate) fn leave<R: Wait>(&self, rt: &R) {
        self.entrance.close(rt);
        self.calls_end
            .fetch_min(end_behind(now_ms()), Ordering::SeqCst);
        self.is_ending.store(true, Ordering::SeqCst);
        self.bell.ring();
        self.places.let_all_go(rt);
    }

    /// Whether all workers end.
    pub(crate) fn is_ending(&self) -> bool {
        self.is_ending.load(Ordering::SeqCst)
    }

    /// Whether no connection comes any more.
    pub(crate) fn is_over(&self) -> bool {
        self.is_shut.load(Ordering::SeqCst) || self.is_ending()
    }

    /// There is one piece more of other work. The worker with this bit tells of it, and looks for it next; where more waits than workers come
    /// for, another comes as well.
    pub(crate) fn wake(&self, worker: u64) {
        self.other_work.tell(worker);
        self.call_another();
    }

    /// How many pieces of other work were told.
    pub(crate) fn told(&self) -> u64 {
        self.other_work.told()
    }

    /// A worker found no other work, who began when so many pieces were told; the next falls due at this moment.
    pub(crate) fn tell_due(&self, told: u64, moment: u64) {
        if self.other_work.tell_due(told, moment) {
            self.resting.surprise();
        }
    }

    /// Has the worker with this bit do other work, where there is some that it may do, or where it may look for some. Whether it does.
    pub(crate) fn begin_work(&self, worker: u64, looks: bool) -> bool {
        let workers = self.workers.load(Ordering::SeqCst);
        let begins = self.other_work.begin(worker, workers, looks);
        if begins {
            self.call_another();
        }
        begins
    }

    /// The worker with this bit does no other work.
    pub(crate) fn end_work(&self, worker: u64) {
        self.other_work.end(worker);
    }

    /// Rings for one of those that rest, where it is needed: since other work waits that it may do, or since nobody would look in time at what
    /// falls due.
    pub(crate) fn call_another(&self) {
        if self.resting.has_any()
            && (self.wants_another() || self.has_moment() && self.resting.is_unwatched())
        {
            self.bell.ring();
        }
    }

    /// Whether other work waits for which nobody comes, and which one worker more may do.
    fn wants_another(&self) -> bool {
        let workers = self.workers.load(Ordering::SeqCst);
        self.other_work.wants_another(workers)
    }

    /// Whether other work waits that one worker more may do.
    pub(crate) fn has_open_work(&self) -> bool {
        let workers = self.workers.load(Ordering::SeqCst);
        self.other_work.is_open(workers)
    }

    /// Whether something is to be done at a moment.
    fn has_moment(&self) -> bool {
        self.other_work.has_due() || self.entrance.is_paused()
    }

    /// Has the worker with this bit wait for one thing, to this moment at most, and do what is to be done for it. It doesn't wait past what falls
    /// due, nor where there is other work for it.
    pub(crate) fn rest<R: Wait + AllocGlobal>(
        &self,
        rt: &R,
        worker: u64,
        until: u64,
    ) -> io::Result<Look> {
        self.resting.begin(worker, self.has_moment());
        let look = self.look(rt, self.rest_ms(until));
        self.resting.end(worker);
        look
    }

    /// For how many milliseconds a worker may wait now, to this moment at most.
    fn rest_ms(&self, until: u64) -> i32 {
        if self.is_over() || self.has_open_work() {
            return 0;
        }
        let now = now_ms();
        until
            .saturating_sub(now)
            .min(self.entrance.rest_ms(now))
            .min(self.other_work.rest_ms())
            .min(REST_MS) as i32
    }

    /// Waits at most so many milliseconds for one thing, and does what is to be done for it.
    pub(crate) fn look<R: Wait + AllocGlobal>(&self, rt: &R, ms: i32) -> io::Result<Look> {
        self.sweep(now_ms());
        self.entrance.resume(&self.set)?;
        let Some(report) = self.set.wait(ms)? else {
            return Ok(Look::Quiet);
        };
        match report.number {
            LISTENER => {
                self.admit(rt)?;
                Ok(Look::Went)
            }
            BELL => {
                self.hear()?;
                Ok(Look::Went)
            }
            _ => Ok(match self.places.take(rt, &self.set, report) {
                Some(taken) => Look::Conn {
                    taken,
                    has_ended: report.has_ended,
                },
                None => Look::Went,
            }),
        }
    }

    /// Lets a connection rest until something comes on it, or is there already where it isn't drained; one that can't is closed. Where all
    /// workers end, its peer is to read the last response before.
    pub(crate) fn let_rest<R: Wait>(&self, rt: &R, taken: Taken, is_drained: bool) {
        if self.is_ending() {
            part_with(&taken.stream);
        } else {
            self.places
                .put_back(rt, &self.set, taken, is_drained, now_ms());
        }
    }

    /// Whether the door takes back what has come of a request of which more has to come.
    pub(crate) fn takes_back(&self) -> bool {
        self.places.has_room() && !self.is_ending()
    }

    /// Ends a connection whose peer may send still, so that it reads the last response before: what it sends is read and dropped for a while.
    pub(crate) fn part<R: Wait>(&self, rt: &R, stream: Arc<TcpStream>) {
        let goes_on = part_with(&stream);
        if goes_on && !self.is_ending() {
            self.places.part(rt, &self.set, stream, now_ms());
        }
    }

    /// Has the bell awaited again. That of a shut door, or of one that all leave, goes on ringing, so that all hear it.
    fn hear(&self) -> io::Result<()> {
        if !self.is_over() {
            self.bell.hush();
        }
        self.set.arm(self.bell.fd(), BELL, When::Once)
    }

    /// Accepts those that wait. Where there was no room for one, what has idled for long is closed.
    fn admit<R: Wait + AllocGlobal>(&self, rt: &R) -> io::Result<()> {
        let workers = self.workers.load(Ordering::SeqCst);
        let most = self.limits.places_beside(workers);
        if !self.entrance.admit(rt, &self.set, &self.places, most)? {
            self.resting.surprise();
            let now = now_ms();
            let before = now.saturating_sub(self.limits.crowded_ms);
            let ages = Ages {
                idle: before,
                begun: before,
            };
            self.places.sweep(ages, now);
        }
        Ok(())
    }

    /// Closes some of what has idled for too long, as many pieces of the places as it is time for.
    fn sweep(&self, now: u64) {
        let last = self.swept_at.load(Ordering::SeqCst);
        let count = now.saturating_sub(last) / SWEEP_MS;
        if count == 0 || self.swept_at.swap(now, Ordering::SeqCst) != last {
            return;
        }
        let count = count.min(self.places.pieces());
        let first = self.sweeps.fetch_add(count, Ordering::SeqCst);
        let ages = Ages {
            idle: now.saturating_sub(self.limits.idle_ms),
            begun: now.saturating_sub(self.limits.patience_ms),
        };
        for i in 0..count {
            self.places.sweep_piece(first.wrapping_add(i), ages, now);
        }
    }

    /// The worker with this bit begins to wait for a slow peer, whose connection is no longer reported.
    pub(crate) fn begin_wait(&self, worker: u64, stream: &TcpStream) {
        self.places.mute(&self.set, stream.as_raw_fd());
        self.holders.begin_wait(worker);
    }

    /// It no longer waits.
    pub(crate) fn end_wait(&self, worker: u64) {
        self.holders.end_wait(worker);
    }

    /// Whether a peer that has sent within requests for so many milliseconds counts among those that hold a worker.
    pub(crate) fn is_long(&self, ms: u64) -> bool
        ensures { result ≡ true ↔ self.now.limits.pressed_ms ≤ ms }
    {
        ms >= self.limits.pressed_ms
    }

    /// Whether a peer that has sent within requests for so many milliseconds has to leave its worker to others now.
    pub(crate) fn is_too_long(&self, ms: u64) -> bool
        ensures { result ≡ true → self.now.limits.held_ms ≤ ms }
    {
        ms >= self.limits.held_ms && self.is_pressed()
    }

    /// The peer of the worker with this bit has sent for long, and its connection is no longer reported, so that what it sends
    /// wants no other worker: `false` where that wasn't done, and the peer doesn't count yet.
    pub(crate) fn begin_hold(&self, worker: u64, stream: &TcpStream) -> bool {
        let is_mute = self.places.mute(&self.set, stream.as_raw_fd());
        if is_mute {
            self.holders.begin_hold(worker);
        }
        is_mute
    }

    /// It no longer holds the worker.
    pub(crate) fn end_hold(&self, worker: u64) {
        self.holders.end_hold(worker);
    }

    /// The worker with this bit calls another program.
    pub(crate) fn begin_call(&self, worker: u64) {
        self.holders.begin_call(worker);
    }

    /// Its call has ended.
    pub(crate) fn end_call(&self, worker: u64) {
        self.holders.end_call(worker);
    }

    /// The moment at which all calls are over.
    pub(crate) fn calls_end(&self) -> u64 {
        self.calls_end.load(Ordering::SeqCst)
    }

    /// For how many milliseconds a peer may be waited for before another look; 0 where its time is over.
    pub(crate) fn patience(&self, pace: &Pace) -> i32
        ensures { (result ≡ pos (min (left_while_pressed self.now.limits pace.now) 50)) ⊎ (result ≡ pos (min (left_alone self.now.limits pace.now) 50)) }
    {
        let left = self.limits.left(pace, self.is_pressed());
        left.min(LOOK_MS as u64) as i32
    }

    /// Whether all workers end, or peers and calls hold them all and something else wants one of them.
    fn is_pressed(&self) -> bool {
        if self.is_ending() {
            return true;
        }
        self.holders.count() >= self.workers.load(Ordering::SeqCst) && self.is_wanted()
    }

    /// Whether something wants a worker: other work that one more may do, or what the set has ready. Where a pause of accepting is over and
    /// no worker has looked since, those who wait to connect are among that only from now on.
    fn is_wanted(&self) -> bool {
        self.has_open_work() || self.entrance.resume(&self.set).is_err() || self.set.has_ready()
    }
}
