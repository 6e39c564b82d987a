//! Who sleeps while others have their turn. Nothing here is a step on a cell's table, so no seat learns from it.

use std::sync::Wait;
use std::sync::atomic::{AtomicU64, Ordering};

/// Who may sleep beside a cell's table, so that a wake-up is paid only where somebody does.
#[derive(Drop)]
pub(crate) struct Sleepers {
    // 1 where a seat without a ticket may sleep, else 0. It is also the word that such seats sleep on.
    comers: AtomicU64,
    // How many seats sleep, or are about to, that have a ticket.
    heirs: AtomicU64,
}

impl Sleepers {
    /// Nobody.
    pub(crate) fn none() -> Sleepers {
        Sleepers {
            comers: AtomicU64::new(0),
            heirs: AtomicU64::new(0),
        }
    }

    /// Says that a seat without a ticket may sleep. It looks once more before it does, since a turn that ended before this was said wakes nobody.
    pub(crate) fn announce(&self) {
        self.comers.store(1, Ordering::SeqCst);
    }

    /// Sleeps until a turn ends.
    pub(crate) fn sleep<R: Wait>(&self, rt: &R) {
        self.comers.park(rt, 1);
    }

    /// Wakes one seat without a ticket, where one may sleep.
    pub(crate) fn wake_one(&self) {
        if self.comers.load(Ordering::SeqCst) != 0 && self.comers.swap(0, Ordering::SeqCst) != 0 {
            self.comers.wake_one();
        }
    }

    /// Whether a seat without a ticket may sleep.
    pub(crate) fn has_comers(&self) -> bool {
        self.comers.load(Ordering::SeqCst) != 0
    }

    /// Says that a seat with a ticket is about to sleep.
    pub(crate) fn enter(&self) {
        self.heirs.fetch_add(1, Ordering::SeqCst);
    }

    /// Says that it is awake.
    pub(crate) fn leave(&self) {
        self.heirs.fetch_sub(1, Ordering::SeqCst);
    }

    /// Whether a seat with a ticket may sleep.
    pub(crate) fn has_heirs(&self) -> bool {
        self.heirs.load(Ordering::SeqCst) != 0
    }
}
