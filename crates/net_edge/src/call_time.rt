ghost use Rattle.std.specs.Prelude.{◌≡◌};
ghost use Rattle.net_edge.specs.CallTimes.{call_end, end_behind, share_end};

use crate::door::{Door, LOOK_MS};
use crate::waiting::now_ms;
use std::io;
use std::sync::Arc;

/// The limit of a call without one, in milliseconds.
const USUAL_LIMIT_MS: u64 = 60_000;

/// How much longer a call may last once all workers leave, in milliseconds.
const LAST_MS: u64 = 5_000;

/// Who makes calls: a worker of a door, or somebody else.
#[derive(Drop)]
pub(crate) struct Caller {
    worker: Option<Worker>,
}

/// A worker of a door, by its bit.
#[derive(Drop)]
struct Worker {
    door: Arc<Door>,
    bit: u64,
}

impl Caller {
    /// One that is no worker.
    pub(crate) fn nobody() -> Self {
        Caller { worker: None }
    }

    /// The worker with this bit of this door.
    pub(crate) fn worker(door: Arc<Door>, bit: u64) -> Self {
        Caller {
            worker: Some(Worker { door, bit }),
        }
    }

    /// The same once more.
    pub(crate) fn share(&self) -> io::Result<Self> {
        Ok(match &self.worker {
            Some(worker) => Caller::worker(Arc::try_clone(&worker.door)?, worker.bit),
            None => Caller::nobody(),
        })
    }

    /// A call begins.
    pub(crate) fn begin_call(&self) {
        if let Some(worker) = &self.worker {
            worker.door.begin_call(worker.bit);
        }
    }

    /// It ends.
    pub(crate) fn end_call(&self) {
        if let Some(worker) = &self.worker {
            worker.door.end_call(worker.bit);
        }
    }

    /// For how many milliseconds more a call may last that is over at this moment: less once all workers leave.
    fn left_ms(&self, end: u64) -> u64 {
        let end = match &self.worker {
            Some(worker) => end.min(worker.door.calls_end()),
            None => end,
        };
        end.saturating_sub(now_ms())
    }

    /// For how many milliseconds it may be waited for before another look; 0 where its time is over.
    pub(crate) fn wait_ms(&self, end: u64) -> u64 {
        self.left_ms(end).min(LOOK_MS as u64)
    }

    /// For how many milliseconds one try to connect may take; 0 where its time is over.
    pub(crate) fn connect_ms(&self, end: u64) -> u64 {
        self.left_ms(end).min(LAST_MS)
    }
}

/// When a call begins and by when it is over, in milliseconds.
#[derive(Clone, Copy, Debug)]
pub(crate) struct CallTime {
    pub(crate) begin: u64,
    pub(crate) end: u64,
}

impl CallTime {
    /// That of a call that begins now, within this limit, or within the usual one where it is 0.
    pub(crate) fn of(now: u64, limit_ms: u64) -> Self
        ensures begin { result.begin ≡ now }
        ensures end { result.end ≡ call_end now limit_ms }
    {
        CallTime {
            begin: now,
            end: call_end(now, limit_ms),
        }
    }
}

/// The moment at which a call is over that begins now.
fn call_end(now: u64, limit_ms: u64) -> u64
    ensures { result ≡ call_end now limit_ms }
{
    let limit = if limit_ms == 0 {
        USUAL_LIMIT_MS
    } else {
        limit_ms
    };
    now.saturating_add(limit)
}

/// The moment up to which one of so many addresses that are left is tried, where the call is over at that moment.
pub(crate) fn share_end(now: u64, end: u64, left: usize) -> u64
    ensures { result ≡ share_end now end left }
{
    now + end.saturating_sub(now) / (left as u64).max(1)
}

/// The moment at which all calls are over where all workers leave now.
pub(crate) fn end_behind(now: u64) -> u64
    ensures { result ≡ end_behind now }
{
    now.saturating_add(LAST_MS)
}
