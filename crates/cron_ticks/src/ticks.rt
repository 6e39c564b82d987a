ghost use Rattle.std.specs.Prelude.{◌≡◌, ◌<◌, ◌^◌, All, length};
ghost use Rattle.side_base.specs.declared.moment.TheConstants.{MOMENT_LIMIT};
ghost use Rattle.cron_ticks.specs.Schedule.{IsPeriod, moment_of};
ghost use Rattle.cron_ticks.specs.Kept.{IsBounded, IsFresh};

use crate::answering::answered;
use crate::following::{Pending, following};
use crate::{TicksCmd, TicksReply};
use side_base::{Moment, Sequence};
use turn_cell::Object;

/// Periods in milliseconds.
pub type Periods = Sequence<u64>;

/// The ticks of bindings, each at its period from a start on. It takes no memory, and its command takes none.
#[derive(Debug, Drop)]
pub struct Ticks {
    pub(crate) periods: Periods,
    /// In milliseconds since 1970.
    pub(crate) start: u64,
    /// The greatest moment so far, in milliseconds since 1970.
    pub(crate) latest: u64,
    /// The tick that is to be taken next: all before it, by when they are due and then by their places, are taken, and no other is.
    pub(crate) next: Option<Pending>,
    pub(crate) used: u64,
    ghost bounded: { IsBounded periods start latest next },
    ghost fresh: { IsFresh periods start latest used next },
}

impl Ticks {
    ghost use Rattle.std.specs.Prelude.{◌≡◌, ◌<◌, ◌^◌, All, length};
    ghost use Rattle.cron_ticks.specs.Schedule.{IsPeriod};
    ghost use Rattle.cron_ticks.specs.Ticks.{schedule_of};

    /// The ticks of a binding for each period, which is from 1,000 to 31,536,000,000, in order, of which none is taken: the first of each is due a period
    /// after the start.
    pub fn new(periods: Periods, start: Moment) -> Ticks
        requires periods { All IsPeriod periods }
        requires few { length periods < 2 ^ 32 }
        ensures schedule { schedule_of result ≡ record { periods = periods; start = start } }
        ensures unused { ⟦<Ticks as Object>⟧.used result ≡ 0 }
    {
        let start = start.ms();
        let next = following(&periods, start, start, 0);
        Ticks {
            periods,
            start,
            latest: start,
            next,
            used: 0,
        }
    }
}

impl Object for Ticks {
    ghost use Rattle.std.specs.Prelude.{◌≡◌};
    ghost use Rattle.cron_ticks.specs.Course.{IsStep};
    ghost use Rattle.cron_ticks.specs.Ticks.{Stands, opens, schedule_of};

    type Cmd = TicksCmd;

    type Reply = TicksReply;

    ghost takes = { λ _ _. Unit {0} };

    ghost steps = { λ first history entry. IsStep (schedule_of first) history entry };

    ghost stands = { Stands };

    ghost used = { λ ticks. ticks.used };

    ghost mark = { λ _. 0 };

    fn apply(&mut self, cmd: &TicksCmd) -> TicksReply {
        let now = self.latest.max(moment_of(cmd));
        let (reply, next) = answered(&self.periods, self.start, self.next, now);
        self.latest = now;
        self.next = next;
        self.used += 1;
        reply
    }

    fn used(&self) -> u64 {
        self.used
    }

    ghost opens = { opens };

    ghost counts = { λ first history ticks stands. stands.used };
}

/// The moment of a command, in milliseconds since 1970.
fn moment_of(cmd: &TicksCmd) -> u64
    ensures moment { result ≡ moment_of cmd.now }
    ensures limit { result < MOMENT_LIMIT }
{
    match cmd {
        TicksCmd::Take { now } => now.ms(),
    }
}
