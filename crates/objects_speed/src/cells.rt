//! What is measured of cells beside mutexes, and written as lines of standard error.
ghost use Rattle.std.specs.Prelude.{◌≡◌, true};
ghost use Rattle.turn_cell.specs.Sitting.{IsSeatOf};

use crate::callers::{Caller, Own, fresh, locks, owns, places};
use crate::clock::{nanos, now};
use crate::counter::{Counter, Step, rounds};
use crate::line::{behind, tell};
use std::alloc::{AllocError, Global};
use std::io::{self, ErrorKind};
use std::rt::Clock;
use std::sync::{Mutex, Wait};
use std::thread::{Threads, map_vec};
use std::time::CpuClock;
use turn_cell::{Seat, TurnCell};

/// What a thread does: so many calls, and the rounds of work before each and in each.
#[derive(Clone, Copy)]
struct Pace {
    calls: u32,
    work: u32,
    turn: u32,
}

/// Rounds of work between two calls: some 10 microseconds.
const WORK: u32 = 4000;

/// How often as many calls, the rounds between two, and those in a turn: nothing, and then turns of some 0.2, 1 and 100 microseconds.
const ROWS: [Pace; 4] = [
    Pace {
        calls: 50,
        work: 0,
        turn: 0,
    },
    Pace {
        calls: 1,
        work: WORK,
        turn: 80,
    },
    Pace {
        calls: 1,
        work: WORK,
        turn: 400,
    },
    Pace {
        calls: 1,
        work: WORK,
        turn: 40000,
    },
];

/// The calls that a thread made.
#[derive(Drop)]
struct Calls {
    made: u64,
    /// How many nanoseconds each took, where there is work between calls: a call by itself would be small beside two looks at the clock.
    took: Vec<u64>,
}

/// Makes a step; whether it was made, and what it took was noted where there is work between calls.
fn timed<R: Wait + Clock, C: Caller>(
    rt: &R,
    caller: &mut C,
    step: Step,
    work: u32,
    took: &mut Vec<u64>,
) -> bool {
    if work == 0 {
        return caller.step(rt, step);
    }
    let begin = now(rt);
    caller.step(rt, step) && took.push(now(rt).saturating_sub(begin)).is_ok()
}

/// Makes steps as often as the pace says, or until one can't be made.
fn often<R: Wait + Clock, C: Caller + Drop>(
    rt: &R,
    alloc: Global,
    mut caller: C,
    pace: Pace,
) -> Calls {
    let mut made = 0;
    let mut took = Vec::new(alloc);
    for call in 1..=pace.calls {
        let step = Step {
            amount: rounds(u64::from(call), pace.work),
            rounds: pace.turn,
        };
        if !timed(rt, &mut caller, step, pace.work, &mut took) {
            break;
        }
        made = u64::from(call);
    }
    Calls { made, took }
}

/// How many calls a second were made, and what 99 of 100 took at most, in nanoseconds; both 0 where memory lacks.
#[derive(Clone, Copy)]
struct Figures {
    rate: u64,
    late: u64,
}

const NONE: Figures = Figures { rate: 0, late: 0 };

/// The figures of the calls of all threads, in so many nanoseconds; `took` is empty before.
fn figured(all: &mut [Calls], time: u64, took: &mut Vec<u64>) -> Figures {
    let mut made: u64 = 0;
    for calls in all {
        if took.append(&mut calls.took).is_ok() {
            made = made.saturating_add(calls.made);
        }
    }
    took.sort_unstable();
    Figures {
        rate: made.saturating_mul(1_000_000_000) / time.max(1),
        late: took.get(took.len() / 100 * 99).copied().unwrap_or(0),
    }
}

/// The figures of threads, one for each who calls.
fn called<R: Threads + Wait + Sync + Clock, C: Caller + Send + Drop>(
    rt: &R,
    alloc: Global,
    callers: Result<Vec<C>, AllocError>,
    pace: Pace,
) -> Figures {
    let Ok(callers) = callers else {
        return NONE;
    };
    let begin = now(rt);
    match map_vec(rt, callers, &|caller| often(rt, alloc, caller, pace)) {
        Ok(mut all) => {
            let time = now(rt).saturating_sub(begin);
            figured(all.as_mut_slice(), time, &mut Vec::new(alloc))
        }
        Err(_) => NONE,
    }
}

/// So many threads on this cell.
fn on_cell<R: Threads + Wait + Sync + Clock>(
    rt: &R,
    alloc: Global,
    cell: &TurnCell<Counter>,
    root: &mut Seat<Counter>,
    threads: u8,
    pace: Pace,
) -> Figures
    requires seat { IsSeatOf cell.now root.old }
    requires root { root.old.is_root ≡ true }
    requires made { root.old.made ≡ 1 }
{
    called(rt, alloc, places(alloc, cell, root, threads), pace)
}

/// So many threads on one cell, of which the first that has its turn sleeps in it where there is a clock.
fn on_one_cell<R: Threads + Wait + Sync + Clock>(
    rt: &R,
    alloc: Global,
    threads: u8,
    clock: Option<HostRuntime>,
    pace: Pace,
) -> Figures {
    match fresh(alloc, Counter::new(clock)) {
        Ok(Own { cell, mut seat, .. }) => on_cell(rt, alloc, &cell, &mut seat, threads, pace),
        Err(_) => NONE,
    }
}

/// So many threads on one mutex.
fn on_one_mutex<R: Threads + Wait + Sync + Clock>(
    rt: &R,
    alloc: Global,
    threads: u8,
    pace: Pace,
) -> Figures {
    let lock = Mutex::new(Counter::new(None));
    called(rt, alloc, vec![in alloc; &lock; threads as usize], pace)
}

/// An error where calls were to be made and there are no figures, since memory lacked.
fn check(pace: Pace, figures: Figures) -> io::Result<()> {
    if pace.calls > 0 && figures.rate == 0 {
        Err(io::Error::from(ErrorKind::OutOfMemory))
    } else {
        Ok(())
    }
}

/// Writes what so many threads did at the same pace, on a cell and on a mutex.
fn tell_both<R: Eprint>(
    rt: &R,
    threads: u8,
    which: &'static str,
    pace: Pace,
    cell: Figures,
    mutex: Figures,
) -> io::Result<()> {
    check(pace, cell)?;
    check(pace, mutex)?;
    let parts = [
        behind("", u64::from(threads)),
        behind(which, u64::from(pace.work)),
        behind(" and ", u64::from(pace.turn)),
        behind(" rounds: ", cell.rate),
        behind(" calls a second, 99 of 100 in ", cell.late),
        behind(" ns; with a mutex ", mutex.rate),
        behind(", ", mutex.late),
    ];
    tell(rt, &parts, " ns")
}

/// A cell beside a mutex, with so many threads, all on one.
fn on_one<R: Threads + Wait + Sync + Clock + Eprint>(
    rt: &R,
    alloc: Global,
    threads: u8,
    pace: Pace,
) -> io::Result<()> {
    let cell = on_one_cell(rt, alloc, threads, None, pace);
    let mutex = on_one_mutex(rt, alloc, threads, pace);
    tell_both(rt, threads, " on one, ", pace, cell, mutex)
}

/// The same, each on one of its own, which moves to its thread.
fn on_own<R: Threads + Wait + Sync + Clock + Eprint>(
    rt: &R,
    alloc: Global,
    threads: u8,
    pace: Pace,
) -> io::Result<()> {
    let cells = called(rt, alloc, owns(alloc, threads), pace);
    let mutexes = called(rt, alloc, locks(alloc, threads), pace);
    tell_both(rt, threads, " on their own, ", pace, cells, mutexes)
}

/// The pace of one of so many threads, of a row that says how often as many calls are made.
fn pace_of(row: Pace, calls: u32, threads: u8) -> Pace {
    let each = calls / u32::from(threads).max(1);
    Pace {
        calls: each.saturating_mul(row.calls),
        ..row
    }
}

/// Cells beside mutexes, with so many threads, at each of these paces; the calls of all threads, and of a row how often as many.
fn at_each<R: Threads + Wait + Sync + Clock + Eprint>(
    rt: &R,
    alloc: Global,
    threads: u8,
    calls: u32,
    rows: &[Pace],
) -> io::Result<()> {
    for row in rows {
        let pace = pace_of(*row, calls, threads);
        on_one(rt, alloc, threads, pace)?;
        on_own(rt, alloc, threads, pace)?;
    }
    Ok(())
}

/// Cells beside mutexes, with 1, 4 and 16 threads, which make so many calls together, and in rows without work 50 times as many.
pub(crate) fn beside<R: Threads + Wait + Sync + Clock + Eprint>(
    rt: &R,
    alloc: Global,
    calls: u32,
) -> io::Result<()> {
    at_each(rt, alloc, 1, calls, &ROWS)?;
    at_each(rt, alloc, 4, calls, &ROWS)?;
    at_each(rt, alloc, 16, calls, &ROWS)
}

/// The processor time of all threads so far, in nanoseconds; 0 where it isn't told.
fn burnt<R: CpuClock>(rt: &R) -> u64 {
    match rt.process_cpu_time() {
        Ok(time) => nanos(time),
        Err(_) => 0,
    }
}

/// Eight threads, of which one sleeps in its turn and seven wait.
pub(crate) fn held<R: Threads + Wait + Sync + Clock + CpuClock + Eprint>(
    rt: &R,
    alloc: Global,
    clock: HostRuntime,
) -> io::Result<()> {
    let pace = Pace {
        calls: 1,
        work: 0,
        turn: 0,
    };
    let (begin, before) = (now(rt), burnt(rt));
    check(pace, on_one_cell(rt, alloc, 8, Some(clock), pace))?;
    let parts = [
        behind(
            "8 threads, one of which holds its turn: ",
            now(rt).saturating_sub(begin) / 1000,
        ),
        behind(" us, and ", burnt(rt).saturating_sub(before) / 1000),
    ];
    tell(rt, &parts, " us of processor time by all")
}
