ghost use Rattle.std.specs.Prelude.{◌≡◌, None, IfOk};

use side_base::{MOMENT_LIMIT, Moment};
use side_world::Clock;
use std::thread::sleep;
use std::time::{Duration, SystemTime};
use std::{io, time};

/// The clock of the host, in UTC. Where the host's clock is set back, or can't be read, it stands still.
#[derive(Drop)]
pub struct HostClock<R> {
    rt: R,
    last: Moment,
    paused: u64,
}

impl<R: time::Clock + Drop> HostClock<R> {
    /// A clock that begins with the host's moment.
    pub fn new(rt: R) -> io::Result<Self>
        ensures { IfOk result (λ clock. ⟦<HostClock<R> as Clock>⟧.paused clock ≡ 0) }
    {
        let last = host_moment(&rt)?;
        Ok(HostClock {
            rt,
            last,
            paused: 0,
        })
    }
}

impl<R: time::Clock> Clock for HostClock<R> {
    ghost last = { λ c. c.last };

    ghost paused = { λ c. c.paused };

    ghost ticks = { λ _. None };

    fn now(&mut self) -> Moment {
        if let Ok(moment) = host_moment(&self.rt) {
            if moment.ms() > self.last.ms() {
                self.last = moment;
            }
        }
        self.last
    }

    fn pause(&mut self, ms: u64) {
        sleep(&self.rt, Duration::from_millis(ms));
        self.paused = self.paused.saturating_add(ms);
    }
}

/// The host's moment, at most the greatest one.
fn host_moment<R: time::Clock>(rt: &R) -> io::Result<Moment> {
    let ms = match SystemTime::now(rt)?.duration_since(SystemTime::UNIX_EPOCH) {
        Ok(since) => since.as_millis(),
        Err(_) => 0,
    };
    match Moment::at(ms.min(MOMENT_LIMIT as u128 - 1) as u64) {
        Some(moment) => Ok(moment),
        None => unreachable!(),
    }
}
