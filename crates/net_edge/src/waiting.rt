use libc::net::{self, MSG_DONTWAIT, MSG_PEEK, POLLIN, POLLOUT};
use libc::types::{pollfd, timespec};
use libc::{CLOCK_MONOTONIC, CLOCK_REALTIME, EAGAIN, clock_gettime};
use os::errno;
use std::os::fd::RawFd;

/// The milliseconds since some start, by the system's clock that is never set back.
pub(crate) fn now_ms() -> u64 {
    ms_of(CLOCK_MONOTONIC)
}

/// The milliseconds since 1970 in UTC, by the clock of the day.
pub(crate) fn moment_ms() -> u64 {
    ms_of(CLOCK_REALTIME)
}

fn ms_of(clock: i32) -> u64 {
    let mut time = timespec {
        tv_sec: 0,
        tv_nsec: 0,
    };
    clock_gettime(clock, &mut time);
    let nanos = time.tv_nsec.unsigned_abs();
    time.tv_sec
        .unsigned_abs()
        .saturating_mul(1_000)
        .saturating_add(nanos / 1_000_000)
}

/// Waits until something can be read, or the connection has ended, or the milliseconds are up.
pub(crate) fn wait_for_bytes(fd: RawFd, ms: i32) {
    wait_for(fd, POLLIN, ms);
}

/// Waits until something can be written, or the connection has ended, or the milliseconds are up.
pub(crate) fn wait_for_room(fd: RawFd, ms: i32) {
    wait_for(fd, POLLOUT, ms);
}

/// Whether something can be read now.
pub(crate) fn has_bytes(fd: RawFd) -> bool {
    wait_for(fd, POLLIN, 0) > 0
}

/// Whether nothing has come on a connection, and it hasn't ended. It doesn't wait.
pub(crate) fn is_quiet(fd: RawFd) -> bool {
    let mut piece = [0u8; 1];
    let found = unsafe { net::recv(fd, &mut piece, MSG_PEEK | MSG_DONTWAIT) };
    found < 0 && errno() == EAGAIN
}

fn wait_for(fd: RawFd, events: i16, ms: i32) -> i32 {
    let mut asked = [pollfd {
        fd,
        events,
        revents: 0,
    }];
    net::poll(&mut asked, ms)
}
