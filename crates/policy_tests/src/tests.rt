ghost use Rattle.std.specs.Prelude.{◌≡◌, true, is_some, OnOk};
ghost use Rattle.turn_cell.specs.Sitting.{IsSeatOf};
ghost use Rattle.retry_core.specs.Bound.{IsWithinLimit};

use crate::script::Script;
use breaker_core::{Breaker, BreakerCmd};
use policy_run::{BreakerAt, NoBreaker, Outcome, Refusal, run_call};
use rand_core::{Rng, SeedableRng};
use rand_pcg::Pcg64;
use retry_core::{Bound, BreakerPolicy, RetryKind, RetryPolicy, trip_of};
use side_base::{Moment, Sequence};
use side_memory::MemoryClock;
use side_world::Clock;
use std::process::Abort;
use std::sync::Wait;
use std::test::Fail;
use turn_cell::{Seat, TurnCell};

/// How a call ended, as a letter and a number: good `g` and failing `b` with the number of the attempt, refused by an open
/// breaker `o` with its last moment or by a half-open one `h` with its count, exhausted `x`, want of memory `m`.
fn told(outcome: &Outcome<usize, usize>) -> (u8, u64) {
    match outcome {
        Outcome::Good(made) => (b'g', *made as u64),
        Outcome::Bad(made) => (b'b', *made as u64),
        Outcome::Refused(refusal) => refused(*refusal),
        Outcome::Exhausted { count } => (b'x', *count),
        Outcome::NoMemory => (b'm', 0),
    }
}

fn refused(refusal: Refusal) -> (u8, u64) {
    match refusal {
        Refusal::Opened { until } => (b'o', until),
        Refusal::TooMany { out } => (b'h', u64::from(out)),
    }
}

/// How long a call waits before it is made again.
#[derive(Clone, Copy)]
enum Waits {
    /// It isn't made again.
    Never,
    /// 100 ms each.
    Constant,
    /// 1 ms each, whatever the random word: at least 1, and at most the greatest wait.
    Shortest,
}

fn bound_of(waits: Waits, max_retries: Option<u32>, breaker: Option<u32>) -> Bound
    ensures limits { IsWithinLimit result }
    ensures breaker { result.breaker ≡ breaker }
{
    let kind = match waits {
        Waits::Never => {
            return Bound {
                timeout_ms: None,
                retry: None,
                breaker,
            };
        }
        Waits::Constant => RetryKind::Constant { duration_ms: 100 },
        Waits::Shortest => RetryKind::Exponential { max_interval_ms: 1 },
    };
    Bound {
        timeout_ms: None,
        retry: Some(RetryPolicy { kind, max_retries }),
        breaker,
    }
}

/// A call without a breaker: the policy, if there is one, and what the attempts answer; then how it ended, how many attempts were
/// made, for how many milliseconds the clock was paused, and how many random words were drawn.
#[derive(Clone, Copy)]
struct Case {
    waits: Waits,
    max_retries: Option<u32>,
    answers: &'static [u8],
    ended: (u8, u64),
    made: usize,
    paused: u64,
    words: usize,
}

const CASES: [Case; 11] = [
    Case {
        waits: Waits::Never,
        max_retries: None,
        answers: b"g",
        ended: (b'g', 1),
        made: 1,
        paused: 0,
        words: 0,
    },
    Case {
        waits: Waits::Never,
        max_retries: None,
        answers: b"bg",
        ended: (b'b', 1),
        made: 1,
        paused: 0,
        words: 0,
    },
    Case {
        waits: Waits::Never,
        max_retries: None,
        answers: b"m",
        ended: (b'm', 0),
        made: 1,
        paused: 0,
        words: 0,
    },
    Case {
        waits: Waits::Constant,
        max_retries: None,
        answers: b"g",
        ended: (b'g', 1),
        made: 1,
        paused: 0,
        words: 0,
    },
    Case {
        waits: Waits::Constant,
        max_retries: None,
        answers: b"bbg",
        ended: (b'g', 3),
        made: 3,
        paused: 200,
        words: 2,
    },
    Case {
        waits: Waits::Constant,
        max_retries: Some(2),
        answers: b"bbbg",
        ended: (b'b', 3),
        made: 3,
        paused: 200,
        words: 3,
    },
    Case {
        waits: Waits::Constant,
        max_retries: Some(0),
        answers: b"bg",
        ended: (b'b', 1),
        made: 1,
        paused: 0,
        words: 1,
    },
    Case {
        waits: Waits::Constant,
        max_retries: Some(2),
        answers: b"bbg",
        ended: (b'g', 3),
        made: 3,
        paused: 200,
        words: 2,
    },
    Case {
        waits: Waits::Constant,
        max_retries: Some(5),
        answers: b"bm",
        ended: (b'm', 0),
        made: 2,
        paused: 100,
        words: 1,
    },
    Case {
        waits: Waits::Shortest,
        max_retries: None,
        answers: b"bbbg",
        ended: (b'g', 4),
        made: 4,
        paused: 3,
        words: 3,
    },
    Case {
        waits: Waits::Shortest,
        max_retries: Some(1),
        answers: b"bbg",
        ended: (b'b', 2),
        made: 2,
        paused: 1,
        words: 2,
    },
];

#[test]
fn attempts_follow_the_policy(rt: HostRuntime) -> Result<(), Fail> {
    for case in CASES {
        let bound = bound_of(case.waits, case.max_retries, None);
        let mut script = Script::new(case.answers);
        let mut clock = MemoryClock::new(rt.alloc(), moment(0)?, Sequence::new(rt.alloc()));
        let mut words = Pcg64::seed_from_u64(7);
        let outcome = run_call(
            &rt,
            &bound,
            &mut NoBreaker,
            &mut script,
            &mut clock,
            &mut words,
        );
        assert_eq!(rt; told(&outcome), case.ended);
        assert_eq!(rt; script.made(), case.made);
        assert_eq!(rt; clock.now().ms(), case.paused);
        assert_eq!(rt; words.next_u64(), word_of(7, case.words));
    }
    Ok(())
}

fn moment(ms: u64) -> Result<Moment, Fail> {
    Ok(Moment::at(ms).ok_or("no moment")?)
}

/// The random word of this number, from 0.
fn word_of(seed: u64, number: usize) -> u64 {
    let mut words = Pcg64::seed_from_u64(seed);
    for _ in 0..number {
        words.next_u64();
    }
    words.next_u64()
}

const FAILING: [u8; 5000] = [b'b'; 5000];

#[test]
fn every_policy_gives_up_after_4096_attempts(rt: HostRuntime) -> Result<(), Fail> {
    let bound = bound_of(Waits::Shortest, None, None);
    let mut script = Script::new(&FAILING);
    let mut clock = MemoryClock::new(rt.alloc(), moment(0)?, Sequence::new(rt.alloc()));
    let mut words = Pcg64::seed_from_u64(7);
    let outcome = run_call(
        &rt,
        &bound,
        &mut NoBreaker,
        &mut script,
        &mut clock,
        &mut words,
    );
    assert_eq!(rt; told(&outcome), (b'b', 4096));
    assert_eq!(rt; clock.now().ms(), 4095);
    Ok(())
}

/// A call by a breaker's seat: for how many milliseconds the clock is paused before it, what its attempts answer, how it ends, and
/// how many attempts it makes.
#[derive(Clone, Copy)]
struct Guarded {
    before: u64,
    answers: &'static [u8],
    ended: (u8, u64),
    made: usize,
}

/// The breaker of these calls opens at the second failing attempt in a row, for 45 seconds, and lets one attempt through then. A
/// failing attempt is made again after 100 ms, five times at most.
const GUARDED: [Guarded; 8] = [
    Guarded {
        before: 0,
        answers: b"g",
        ended: (b'g', 1),
        made: 1,
    },
    Guarded {
        before: 0,
        answers: b"bg",
        ended: (b'g', 2),
        made: 2,
    },
    // It opens in the middle of a call, at the report at 200.
    Guarded {
        before: 0,
        answers: b"bbg",
        ended: (b'o', 45_200),
        made: 2,
    },
    Guarded {
        before: 0,
        answers: b"g",
        ended: (b'o', 45_200),
        made: 0,
    },
    // At 45,300 it is half-open, fails, and is open again; the call waits and is refused.
    Guarded {
        before: 45_000,
        answers: b"bg",
        ended: (b'o', 90_300),
        made: 1,
    },
    // Want of memory is reported as good: it closes.
    Guarded {
        before: 45_000,
        answers: b"m",
        ended: (b'm', 0),
        made: 1,
    },
    Guarded {
        before: 0,
        answers: b"bg",
        ended: (b'g', 2),
        made: 2,
    },
    Guarded {
        before: 0,
        answers: b"g",
        ended: (b'g', 1),
        made: 1,
    },
];

#[test]
fn a_breaker_is_asked_and_told(rt: HostRuntime) -> Result<(), Fail> {
    let policy = BreakerPolicy {
        max_requests: 1,
        interval_ms: 0,
        timeout_ms: 45_000,
        trip: trip_of(b"consecutiveFailures > 1")?,
    };
    let bound = bound_of(Waits::Constant, Some(5), Some(0));
    let (cell, mut seat) = TurnCell::start(rt.alloc(), Breaker::new(&policy))?;
    let mut clock = MemoryClock::new(rt.alloc(), moment(0)?, Sequence::new(rt.alloc()));
    let mut words = Pcg64::seed_from_u64(7);
    make_calls(
        &rt, &cell, &mut seat, &bound, &mut clock, &mut words, &GUARDED,
    )?;
    let now = clock.now();
    // The breaker closed again; it opens by two failing calls, and lets one attempt through behind its last moment.
    let (ended, _) = call_guarded(&rt, &cell, &mut seat, &bound, b"bb", &mut clock, &mut words);
    assert_eq!(rt; ended, (b'o', now.ms() + 100 + 45_000));
    clock.pause(45_001);
    let late = clock.now();
    cell.call(&rt, &mut seat, &BreakerCmd::Admit { now: late })?;
    let (ended, made) = call_guarded(&rt, &cell, &mut seat, &bound, b"g", &mut clock, &mut words);
    assert_eq!(rt; ended, (b'h', 1));
    assert_eq!(rt; made, 0);
    Ok(())
}

// One call by the breaker's seat: how it ended, and how many attempts it made.
fn call_guarded<W: Wait>(
    rt: &W,
    cell: &TurnCell<Breaker>,
    seat: &mut Seat<Breaker>,
    bound: &Bound,
    answers: &'static [u8],
    clock: &mut MemoryClock,
    words: &mut Pcg64,
) -> ((u8, u64), usize)
    requires seat { IsSeatOf cell.now seat.old }
    requires limits { IsWithinLimit bound.now }
    requires breaker { is_some bound.now.breaker ≡ true }
    ensures { IsSeatOf cell.now seat.new }
{
    let mut script = Script::new(answers);
    let mut guard = BreakerAt { cell, seat };
    let outcome = run_call(rt, bound, &mut guard, &mut script, clock, words);
    (told(&outcome), script.made())
}

// The calls, one after the other.
fn make_calls<W: Wait + Abort>(
    rt: &W,
    cell: &TurnCell<Breaker>,
    seat: &mut Seat<Breaker>,
    bound: &Bound,
    clock: &mut MemoryClock,
    words: &mut Pcg64,
    calls: &[Guarded],
) -> Result<(), Fail>
    requires seat { IsSeatOf cell.now seat.old }
    requires limits { IsWithinLimit bound.now }
    requires breaker { is_some bound.now.breaker ≡ true }
    ensures { OnOk result (IsSeatOf cell.now seat.new) }
{
    for call in calls {
        clock.pause(call.before);
        let (ended, made) = call_guarded(rt, cell, seat, bound, call.answers, clock, words);
        assert_eq!(rt; ended, call.ended);
        assert_eq!(rt; made, call.made);
    }
    Ok(())
}
