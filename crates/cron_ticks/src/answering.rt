ghost use Rattle.std.specs.Prelude.{◌≡◌, ◌≤◌, ◌<◌, ◌^◌, All, length};
ghost use Rattle.std.specs.Option.{ForSome};
ghost use Rattle.side_base.specs.declared.moment.TheConstants.{MOMENT_LIMIT};
ghost use Rattle.cron_ticks.specs.declared.following.Pending.{Pending};
ghost use Rattle.cron_ticks.specs.Following.{IsAnswered, schedule};
ghost use Rattle.cron_ticks.specs.Schedule.{IsPeriod};

use crate::following::{Pending, following};
use crate::{Periods, TicksReply};

/// What is answered at a moment, and which tick is to be taken next behind it.
pub(crate) fn answered(
    periods: &Periods,
    start: u64,
    next: Option<Pending>,
    now: u64,
) -> (TicksReply, Option<Pending>)
    requires periods { All IsPeriod periods.now }
    requires few { length periods.now < 2 ^ 32 }
    requires begun { ForSome next (λ (tick : Pending). start ≤ tick.due) }
    requires moment { now < MOMENT_LIMIT }
    ensures { IsAnswered (schedule periods.now start) next now result }
{
    match next {
        Some(tick) => {
            if tick.due <= now {
                (given(tick), following(periods, start, tick.due, tick.place))
            } else {
                (
                    TicksReply::Idle {
                        next: Some(tick.due),
                    },
                    next,
                )
            }
        }
        None => (TicksReply::Idle { next: None }, None),
    }
}

fn given(tick: Pending) -> TicksReply
    ensures { result ≡ TicksReply.Tick tick.place tick.number tick.due }
{
    TicksReply::Tick {
        place: tick.place,
        number: tick.number,
        due: tick.due,
    }
}
