ghost use Rattle.std.specs.Prelude.{◌≤◌};

use crate::pace::Pace;
use libc::types::rlimit;
use libc::{RLIMIT_NOFILE, getrlimit};

/// The most places of a door.
const MOST_PLACES: u64 = 16_384;

/// How long a door waits, in milliseconds, and how many connections it may have.
#[derive(Clone, Copy)]
pub struct DoorLimits {
    /// One past the greatest descriptor of a connection.
    pub places: usize,
    /// A connection on which nothing comes for so long between two requests is closed.
    pub idle_ms: u64,
    /// The same where there is no room for a new one.
    pub crowded_ms: u64,
    /// In one stretch a worker waits so long for the rest of requests, and so long for a peer that doesn't read; each byte that comes
    /// then, or is taken, gives a millisecond of that back.
    pub patience_ms: u64,
    /// The same where peers hold all workers, and another connection, or other work, wants one of them, and where all workers end;
    /// there it takes 1,024 bytes to give one back.
    pub pressed_ms: u64,
    /// The most of a worker's time that a peer then has for what it sends without a moment between two requests, and once more for
    /// what it takes, whatever its bytes are worth. The answers to what one read asked for come on top.
    pub held_ms: u64,
    /// So many of the greatest places are left to each worker, for the connections by which it calls other programs.
    pub left_to_worker: usize,
    /// So many are left to the disks.
    pub left_to_disks: usize,
}

impl DoorLimits {
    ghost use Rattle.std.specs.Prelude.{◌≡◌, ◌≤◌, ◌<◌, ◌+◌, ◌↔◌, true, false};
    ghost use Rattle.net_edge.specs.Patience.{left_alone, left_while_pressed};
    ghost use Rattle.net_edge.specs.Room.{places_beside};

    /// The limits of the program.
    pub fn standard() -> Self
        ensures places { result.places ≤ 16384 }
        ensures idle { result.idle_ms ≡ 60000 }
        ensures crowded { result.crowded_ms ≡ 1000 }
        ensures patience { result.patience_ms ≡ 30000 }
        ensures pressed { result.pressed_ms ≡ 100 }
        ensures held { result.held_ms ≡ 1000 }
        ensures left { result.left_to_worker ≡ 9 }
        ensures none_left { result.left_to_disks ≡ 0 }
    {
        DoorLimits {
            places: places(),
            idle_ms: 60_000,
            crowded_ms: 1_000,
            patience_ms: 30_000,
            pressed_ms: 100,
            held_ms: 1_000,
            left_to_worker: 9,
            left_to_disks: 0,
        }
    }

    /// One past the greatest descriptor that a connection may have beside those of so many workers.
    pub(crate) fn places_beside(&self, workers: u64) -> usize
        ensures { result ≡ places_beside self.now workers }
    {
        self.places
            .saturating_sub(self.left_to_worker.saturating_mul(workers as usize))
            .saturating_sub(self.left_to_disks)
    }

    /// Whether a connection may have the descriptor behind this one, beside so many workers.
    pub(crate) fn has_room_behind(&self, last: usize, workers: u64) -> bool
        ensures { result ≡ true ↔ last + 1 < places_beside self.now workers }
    {
        last < self.places_beside(workers).saturating_sub(1)
    }

    /// For how many milliseconds more a peer of this pace is waited for, where something else wants its worker and where not.
    pub(crate) fn left(&self, pace: &Pace, is_pressed: bool) -> u64
        ensures pressed { is_pressed ≡ true → result ≡ left_while_pressed self.now pace.now }
        ensures alone { is_pressed ≡ false → result ≡ left_alone self.now pace.now }
    {
        if is_pressed {
            self.pressed_ms
                .saturating_sub(pace.owed_while_pressed())
                .min(self.held_ms.saturating_sub(pace.waited()))
        } else {
            self.patience_ms.saturating_sub(pace.owed())
        }
    }
}

/// As many places as the process may have descriptors.
fn places() -> usize
    ensures { result ≤ 16384 }
{
    let mut limit = rlimit {
        rlim_cur: 0,
        rlim_max: 0,
    };
    if getrlimit(RLIMIT_NOFILE, &mut limit) < 0 {
        return MOST_PLACES as usize;
    }
    limit.rlim_cur.min(MOST_PLACES) as usize
}
