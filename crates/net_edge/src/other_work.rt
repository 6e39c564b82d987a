//! Work other than connections, as the workers of a door tell of it.
ghost use Rattle.std.specs.Prelude.{◌≡◌};
ghost use Rattle.net_edge.specs.Turns.{most_at_work, rest_until};

use crate::waiting::moment_ms;
use std::sync::atomic::{AtomicU64, Ordering};

/// A moment that never comes.
pub(crate) const NEVER: u64 = u64::MAX;

/// The longest that a worker rests before it looks again, in milliseconds: the clock of the day may be set.
pub(crate) const REST_MS: u64 = 1_000;

/// How often a worker tries to change what others change at the same time.
const TRIES: u32 = 1_000;

/// The work that is told and not yet taken, the least moment at which some falls due, and who does other work.
#[derive(Drop)]
pub(crate) struct OtherWork {
    /// How many pieces were told, and how many of them were taken, or looked for by a worker that found nothing.
    told: AtomicU64,
    taken: AtomicU64,
    /// The least moment that was told and not yet taken, in milliseconds since 1970; `NEVER` where there is none.
    due_at: AtomicU64,
    /// The bits of those who do other work, and of those who told of a piece and will look for one before anything else.
    at_work: AtomicU64,
    coming: AtomicU64,
}

impl OtherWork {
    /// None is told.
    pub(crate) fn none() -> Self {
        OtherWork {
            told: AtomicU64::new(0),
            taken: AtomicU64::new(0),
            due_at: AtomicU64::new(NEVER),
            at_work: AtomicU64::new(0),
            coming: AtomicU64::new(0),
        }
    }

    /// There is one piece more, for which the worker with this bit will come.
    pub(crate) fn tell(&self, worker: u64) {
        self.coming.fetch_or(worker, Ordering::SeqCst);
        self.told.fetch_add(1, Ordering::SeqCst);
    }

    /// How many pieces were told.
    pub(crate) fn told(&self) -> u64 {
        self.told.load(Ordering::SeqCst)
    }

    /// A worker found nothing, who began when so many pieces were told, so that none of these is left; the next falls due at this moment. Whether
    /// that is before what was told by now.
    pub(crate) fn tell_due(&self, told: u64, moment: u64) -> bool {
        self.taken.fetch_max(told, Ordering::SeqCst);
        moment < self.due_at.fetch_min(moment, Ordering::SeqCst)
    }

    /// Whether a piece waits, or something is due, of which one worker more may do some, where there are so many.
    pub(crate) fn is_open(&self, workers: u64) -> bool {
        let at_work = self.at_work.load(Ordering::SeqCst);
        u64::from(at_work.count_ones()) < most_at_work(workers)
            && (self.has_told() || self.has_due() && self.is_due())
    }

    /// Whether one worker more may do some for which nobody comes.
    pub(crate) fn wants_another(&self, workers: u64) -> bool {
        self.is_open(workers) && (self.waiting() > self.comers() || self.has_due() && self.is_due())
    }

    /// Whether something falls due at some moment.
    pub(crate) fn has_due(&self) -> bool {
        self.due_at.load(Ordering::SeqCst) != NEVER
    }

    /// For how many milliseconds nothing falls due, `REST_MS` at most.
    pub(crate) fn rest_ms(&self) -> u64 {
        let at = self.due_at.load(Ordering::SeqCst);
        if at == NEVER {
            return REST_MS;
        }
        rest_until(moment_ms(), at)
    }

    /// Has the worker with this bit do some of it, where as many as there are leave it that: a piece that waits, or what is due, or, where
    /// `looks`, whatever it finds. Whether it does.
    pub(crate) fn begin(&self, worker: u64, workers: u64, looks: bool) -> bool {
        if !looks && !self.is_open(workers) || !self.go_to_work(worker, workers) {
            return false;
        }
        let has_some = self.take_told() || self.has_due() && self.take_due();
        if !has_some && !looks {
            self.end(worker);
            return false;
        }
        true
    }

    /// The worker with this bit does no other work, and has come for more.
    pub(crate) fn end(&self, worker: u64) {
        take_out(&self.at_work, worker);
        take_out(&self.coming, worker);
    }

    /// How many pieces wait.
    fn waiting(&self) -> u64 {
        let taken = self.taken.load(Ordering::SeqCst);
        self.told().saturating_sub(taken)
    }

    fn has_told(&self) -> bool {
        self.waiting() > 0
    }

    /// How many workers come.
    fn comers(&self) -> u64 {
        u64::from(self.coming.load(Ordering::SeqCst).count_ones())
    }

    fn is_due(&self) -> bool {
        self.due_at.load(Ordering::SeqCst) <= moment_ms()
    }

    /// Counts a worker among those who do other work, where there is room for one more.
    fn go_to_work(&self, worker: u64, workers: u64) -> bool {
        let most = most_at_work(workers);
        for _ in 0..TRIES {
            let before = self.at_work.load(Ordering::SeqCst);
            if u64::from(before.count_ones()) >= most {
                return false;
            }
            if exchanged(&self.at_work, before, before | worker) {
                return true;
            }
        }
        false
    }

    /// Takes a piece that waits.
    fn take_told(&self) -> bool {
        for _ in 0..TRIES {
            let taken = self.taken.load(Ordering::SeqCst);
            if taken >= self.told() {
                return false;
            }
            if exchanged(&self.taken, taken, taken.saturating_add(1)) {
                return true;
            }
        }
        false
    }

    /// Takes what is due.
    fn take_due(&self) -> bool {
        let at = self.due_at.load(Ordering::SeqCst);
        at <= moment_ms() && exchanged(&self.due_at, at, NEVER)
    }
}

/// Takes a worker's bit out of a word.
fn take_out(word: &AtomicU64, worker: u64) {
    if word.load(Ordering::SeqCst) & worker != 0 {
        word.fetch_and(!worker, Ordering::SeqCst);
    }
}

/// Whether a word was this one, which is another now.
fn exchanged(word: &AtomicU64, before: u64, after: u64) -> bool {
    word.compare_exchange(before, after, Ordering::SeqCst, Ordering::SeqCst)
        .is_ok()
}

/// How many of so many workers do other work at a time at most.
fn most_at_work(workers: u64) -> u64
    ensures { result ≡ most_at_work workers }
{
    workers.saturating_sub(1).max(1)
}

/// For how many milliseconds from this moment on a worker may rest that looks again at another.
pub(crate) fn rest_until(now: u64, at: u64) -> u64
    ensures { result ≡ rest_until now at }
{
    at.saturating_sub(now).min(REST_MS)
}
