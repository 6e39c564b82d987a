// What a target names, and what is bound by it.
ghost use Rattle.std.specs.Prelude.{◌≡◌, ◌≤◌, if◌then◌else◌};
ghost use Rattle.std.specs.Option.{ForSome};
ghost use Rattle.retry_core.specs.RetryPolicy.{IsWithinLimit as IsRetryWithinLimit};
ghost use Rattle.retry_core.specs.BreakerPolicy.{IsWithinLimit as IsBreakerWithinLimit};
ghost use Rattle.retry_core.specs.Bound.{IsWithinLimit};
ghost use Rattle.policy_spec.specs.Resiliency.{timeout_of, retry_of, breaker_of, bound_for};

use crate::policy::Policy;
use retry_core::{Bound, BreakerPolicy, RetryKind, RetryPolicy};

/// The policies that a target names.
#[derive(Clone, Copy, Debug)]
pub struct Choice {
    pub timeout: Option<Policy>,
    pub retry: Option<Policy>,
    pub breaker: Option<Policy>,
}

/// Which calls of a name something is bound to.
#[derive(Clone, Copy, Debug)]
pub enum Side {
    App,
    Outbound,
    Inbound,
}

fn timeout_ms(policy: Option<Policy>) -> Option<u64>
    ensures exact { result ≡ timeout_of policy }
    ensures within { ForSome result (λ ms. ms ≤ 31536000000) }
{
    match policy {
        Some(policy) => match policy {
            Policy::Timeout(ms) => Some(ms.count()),
            Policy::Retry { .. } => None,
            Policy::Breaker { .. } => None,
        },
        None => None,
    }
}

fn kind_of(exponential: bool, wait: u64, most: u64) -> RetryKind
    ensures { result ≡ (if exponential then RetryKind.Exponential most else RetryKind.Constant wait) }
{
    if exponential {
        RetryKind::Exponential {
            max_interval_ms: most,
        }
    } else {
        RetryKind::Constant { duration_ms: wait }
    }
}

fn retry_policy(policy: Option<Policy>) -> Option<RetryPolicy>
    ensures exact { result ≡ retry_of policy }
    ensures within { ForSome result IsRetryWithinLimit }
{
    match policy {
        Some(policy) => match policy {
            Policy::Timeout(_) => None,
            Policy::Retry {
                exponential,
                wait,
                most,
                max_retries,
            } => Some(RetryPolicy {
                kind: kind_of(exponential, wait.count(), most.count()),
                max_retries,
            }),
            Policy::Breaker { .. } => None,
        },
        None => None,
    }
}

fn breaker_policy(policy: Option<Policy>) -> Option<BreakerPolicy>
    ensures exact { result ≡ breaker_of policy }
    ensures within { ForSome result IsBreakerWithinLimit }
{
    match policy {
        Some(policy) => match policy {
            Policy::Timeout(_) => None,
            Policy::Retry { .. } => None,
            Policy::Breaker {
                max_requests,
                interval,
                timeout,
                trip,
            } => Some(BreakerPolicy {
                max_requests,
                interval_ms: interval.count(),
                timeout_ms: timeout.count(),
                trip,
            }),
        },
        None => None,
    }
}

/// What is bound by these policies, with a breaker of this place if there is one, and the breaker.
pub(crate) fn bound_of(choice: Choice, place: u32) -> (Bound, Option<BreakerPolicy>)
    ensures exact { result.0 ≡ bound_for place choice }
    ensures breaker { result.1 ≡ breaker_of choice.breaker }
    ensures within { IsWithinLimit result.0 }
    ensures limit { ForSome result.1 IsBreakerWithinLimit }
{
    let policy = breaker_policy(choice.breaker);
    let breaker = match policy {
        Some(_) => Some(place),
        None => None,
    };
    let bound = Bound {
        timeout_ms: timeout_ms(choice.timeout),
        retry: retry_policy(choice.retry),
        breaker,
    };
    (bound, policy)
}
