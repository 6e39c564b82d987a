use std::rt::Clock;
use std::time::Duration;

/// A time in nanoseconds.
pub(crate) fn nanos(time: Duration) -> u64 {
    u64::try_from(time.as_nanos()).unwrap_or(u64::MAX)
}

/// What a clock shows, in nanoseconds; 0 where it fails.
pub(crate) fn now<R: Clock>(rt: &R) -> u64 {
    match rt.monotonic() {
        Ok(time) => nanos(time),
        Err(_) => 0,
    }
}
