// The tick that is due next after another one.
ghost use Rattle.std.specs.Prelude.{◌≡◌, ◌≤◌, ◌<◌, ◌^◌, All, length};
ghost use Rattle.side_base.specs.declared.moment.TheConstants.{MOMENT_LIMIT};
ghost use Rattle.cron_ticks.specs.Following.{IsFollowing, IsFirstLater, IsEarlier, schedule};
ghost use Rattle.cron_ticks.specs.Schedule.{IsPeriod};

use crate::Periods;

/// A tick: the place of its binding, its number, and when it is due.
#[derive(Clone, Copy, Debug, PartialEq, Eq)]
pub(crate) struct Pending {
    pub(crate) place: u32,
    pub(crate) number: u64,
    pub(crate) due: u64,
}

/// A tick of one binding.
#[derive(Clone, Copy)]
pub(crate) struct Turn {
    number: u64,
    due: u64,
}

/// Of all ticks behind `due` and `place`, by when they are due and then by their places, the first; there is none where there are no bindings.
pub(crate) fn following(periods: &Periods, start: u64, due: u64, place: u32) -> Option<Pending>
    requires periods { All IsPeriod periods.now }
    requires few { length periods.now < 2 ^ 32 }
    requires begun { start ≤ due }
    requires moment { due < MOMENT_LIMIT }
    ensures { IsFollowing (schedule periods.now start) due place result }
{
    let mut first = None;
    for at in 0..periods.len() {
        let turn = first_later(*periods.at(at), start, due, at > place as usize);
        first = earlier(first, tick_at(at, turn));
    }
    first
}

fn tick_at(place: usize, turn: Turn) -> Pending
    requires { place < 2 ^ 32 }
    ensures { result ≡ record { place = place; number = turn.number; due = turn.due } }
{
    Pending {
        place: place as u32,
        number: turn.number,
        due: turn.due,
    }
}

/// The first tick of a binding that is due later, or, where `counts_there` says so, just then.
fn first_later(period: u64, start: u64, due: u64, counts_there: bool) -> Turn
    requires period { IsPeriod period }
    requires begun { start ≤ due }
    requires moment { due < MOMENT_LIMIT }
    ensures { IsFirstLater period start due counts_there result }
{
    let passed = (due - start) / period;
    let latest = start + passed * period;
    if counts_there && passed > 0 && latest == due {
        Turn {
            number: passed,
            due,
        }
    } else {
        Turn {
            number: passed + 1,
            due: latest + period,
        }
    }
}

/// The tick that was found before, unless the other one is due earlier.
fn earlier(found: Option<Pending>, other: Pending) -> Option<Pending>
    ensures { IsEarlier found other result }
{
    match found {
        Some(found) if found.due <= other.due => Some(found),
        _ => Some(other),
    }
}
