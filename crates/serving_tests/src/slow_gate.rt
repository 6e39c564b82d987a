//! A gate at which calls are slow.
use side_world::{Gate, Point};
use std::sync::Wait;
use std::sync::atomic::{AtomicBool, AtomicU32, Ordering};
use std::thread::sleep;
use std::time::Duration;

/// How often a worker that is held looks whether it may go on, a millisecond apart.
const TURNS: u32 = 20_000;

/// Holds the first workers that pass it with a connection, so many, until they may go on.
#[derive(Drop)]
pub(crate) struct SlowGate {
    clock: HostRuntime,
    most: u32,
    held: AtomicU32,
    free: AtomicBool,
}

impl SlowGate {
    pub(crate) fn new(clock: HostRuntime, most: u32) -> SlowGate {
        SlowGate {
            clock,
            most,
            held: AtomicU32::new(0),
            free: AtomicBool::new(false),
        }
    }

    /// Waits until as many are held as may be, and answers whether they are.
    pub(crate) fn is_full(&self) -> bool {
        for _ in 0..TURNS {
            if self.held.load(Ordering::SeqCst) >= self.most {
                return true;
            }
            sleep(&self.clock, Duration::from_millis(1));
        }
        false
    }

    /// Lets all go on.
    pub(crate) fn open(&self) {
        self.free.store(true, Ordering::SeqCst);
    }

    /// Holds a worker until it may go on.
    fn hold(&self) {
        for _ in 0..TURNS {
            if self.free.load(Ordering::SeqCst) {
                return;
            }
            sleep(&self.clock, Duration::from_millis(1));
        }
    }
}

impl Gate for SlowGate {
    fn pass<R: Wait>(&self, _rt: &R, _worker: u32, point: Point) {
        if point == Point::Accepted && self.held.fetch_add(1, Ordering::SeqCst) < self.most {
            self.hold();
        }
    }
}
