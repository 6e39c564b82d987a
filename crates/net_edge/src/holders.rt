//! Which workers of a door can't be had, and which rest at it, by their bits among those of all.
use std::sync::atomic::{AtomicU64, Ordering};

/// Workers whom a peer or a call holds.
#[derive(Drop)]
pub(crate) struct Holders {
    /// Those that wait for a slow peer.
    waiting: AtomicU64,
    /// Those whose peer has sent for long within requests.
    held: AtomicU64,
    /// Those that call another program.
    calling: AtomicU64,
}

impl Holders {
    /// Nobody is held.
    pub(crate) fn none() -> Self {
        Holders {
            waiting: AtomicU64::new(0),
            held: AtomicU64::new(0),
            calling: AtomicU64::new(0),
        }
    }

    /// The worker with this bit begins to wait for a slow peer.
    pub(crate) fn begin_wait(&self, worker: u64) {
        self.waiting.fetch_or(worker, Ordering::SeqCst);
    }

    /// It no longer waits.
    pub(crate) fn end_wait(&self, worker: u64) {
        self.waiting.fetch_and(!worker, Ordering::SeqCst);
    }

    /// The peer of the worker with this bit has sent for long.
    pub(crate) fn begin_hold(&self, worker: u64) {
        self.held.fetch_or(worker, Ordering::SeqCst);
    }

    /// It no longer holds the worker.
    pub(crate) fn end_hold(&self, worker: u64) {
        self.held.fetch_and(!worker, Ordering::SeqCst);
    }

    /// The worker with this bit calls another program.
    pub(crate) fn begin_call(&self, worker: u64) {
        self.calling.fetch_or(worker, Ordering::SeqCst);
    }

    /// Its call has ended.
    pub(crate) fn end_call(&self, worker: u64) {
        self.calling.fetch_and(!worker, Ordering::SeqCst);
    }

    /// How many are held.
    pub(crate) fn count(&self) -> u64 {
        let held = self.waiting.load(Ordering::SeqCst)
            | self.held.load(Ordering::SeqCst)
            | self.calling.load(Ordering::SeqCst);
        u64::from(held.count_ones())
    }
}

/// Workers that wait at the door for anything at all.
#[derive(Drop)]
pub(crate) struct Resting {
    resting: AtomicU64,
    /// Those of them who will look in time at what is to be done at a moment.
    watching: AtomicU64,
}

impl Resting {
    /// Nobody rests.
    pub(crate) fn nobody() -> Self {
        Resting {
            resting: AtomicU64::new(0),
            watching: AtomicU64::new(0),
        }
    }

    /// The worker with this bit begins to rest, and where `watches` it will look in time: what it looks at is read after this.
    pub(crate) fn begin(&self, worker: u64, watches: bool) {
        self.resting.fetch_or(worker, Ordering::SeqCst);
        if watches {
            self.watching.fetch_or(worker, Ordering::SeqCst);
        }
    }

    /// It rests no longer.
    pub(crate) fn end(&self, worker: u64) {
        self.resting.fetch_and(!worker, Ordering::SeqCst);
        if self.watching.load(Ordering::SeqCst) & worker != 0 {
            self.watching.fetch_and(!worker, Ordering::SeqCst);
        }
    }

    /// The moment is another, of which those who rest don't know.
    pub(crate) fn surprise(&self) {
        self.watching.store(0, Ordering::SeqCst);
    }

    /// Whether anybody rests.
    pub(crate) fn has_any(&self) -> bool {
        self.resting.load(Ordering::SeqCst) != 0
    }

    /// Whether nobody of them will look in time.
    pub(crate) fn is_unwatched(&self) -> bool {
        self.watching.load(Ordering::SeqCst) == 0
    }
}
