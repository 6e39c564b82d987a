//! What is bound to the target of a case's calls.
ghost use Rattle.std.specs.Prelude.{◌≡◌, ◌≤◌, IfSome};
ghost use Rattle.std.specs.Option.{ForSome};
ghost use Rattle.retry_core.specs.Bound.{IsWithinLimit};
ghost use Rattle.retry_core.specs.RetryPolicy.{IsKindWithinLimit, IsWithinLimit as IsRetryWithinLimit};
ghost use Rattle.retry_core.specs.BreakerPolicy.{IsWithinLimit as IsBreakerWithinLimit};

use crate::words::number;
use case_text::{Section, first_word, name_in, number_in};
use retry_core::{Bound, BreakerPolicy, RetryKind, RetryPolicy, Trip, trip_of};

/// The most milliseconds of a policy.
const MOST_MS: u64 = 31_536_000_000;

// A kind of waits of so many milliseconds, or of so many at most.
fn kind_of(word: &str, ms: u64) -> RetryKind
    requires { ms ≤ 31536000000 }
    ensures { IsKindWithinLimit result }
{
    match word {
        "exponential" => RetryKind::Exponential {
            max_interval_ms: ms,
        },
        _ => RetryKind::Constant { duration_ms: ms },
    }
}

// How often a failing attempt is made again; without a number for ever.
fn most_of(words: &str) -> Option<u32> {
    if words.is_empty() {
        None
    } else {
        Some(number_in(words))
    }
}

// A retry policy, as its kind, its milliseconds and how often it makes an attempt again.
fn retry_of(words: &str) -> RetryPolicy
    ensures { IsRetryWithinLimit result }
{
    let (word, words) = first_word(words);
    let (ms, most) = first_word(words);
    RetryPolicy {
        kind: kind_of(word, number(ms).min(MOST_MS)),
        max_retries: most_of(most),
    }
}

fn retry_in(sections: &[Section<'_>]) -> Option<RetryPolicy>
    ensures { ForSome result IsRetryWithinLimit }
{
    match name_in(sections, "retry") {
        Some(words) => Some(retry_of(words)),
        None => None,
    }
}

fn timeout_in(sections: &[Section<'_>]) -> Option<u64>
    ensures { ForSome result (λ ms. ms ≤ 31536000000) }
{
    match name_in(sections, "timeout") {
        Some(ms) => Some(number(ms).min(MOST_MS)),
        None => None,
    }
}

/// What is bound, with this breaker.
pub fn bound_in(sections: &[Section<'_>], breaker: Option<u32>) -> Bound
    ensures limits { IsWithinLimit result }
    ensures breaker { result.breaker ≡ breaker }
{
    Bound {
        timeout_ms: timeout_in(sections),
        retry: retry_in(sections),
        breaker,
    }
}

fn breaker(timeout_ms: u64, trip: Trip) -> BreakerPolicy
    ensures { IsBreakerWithinLimit result }
{
    BreakerPolicy {
        max_requests: 1,
        interval_ms: 0,
        timeout_ms: timeout_ms.min(MOST_MS),
        trip,
    }
}

/// The policy of the breaker, as its timeout and its trip; `None` where a case has none.
pub fn breaker_in(sections: &[Section<'_>]) -> Option<BreakerPolicy>
    ensures { IfSome result IsBreakerWithinLimit }
{
    let (timeout, trip) = first_word(name_in(sections, "breaker")?);
    match trip_of(trip.as_bytes()) {
        Ok(trip) => Some(breaker(number(timeout), trip)),
        Err(_) => None,
    }
}
