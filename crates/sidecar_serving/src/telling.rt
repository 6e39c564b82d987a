//! What a worker tells its acceptor of other work, so that some worker's next answer is that nothing came.
ghost use Rattle.std.specs.Prelude.{◌≡◌, min};
ghost use Rattle.sidecar_serving.specs.Ending.{did_something, last_moment, next_due};

use side_base::{MOMENT_LIMIT, Moment};
use sidecar_core::IdleTurn;

/// Whether a tick was taken or something was delivered: behind it more may wait.
pub(crate) fn did_something(turn: &IdleTurn) -> bool
    ensures { result ≡ did_something turn.now }
{
    match turn {
        IdleTurn::Did => true,
        IdleTurn::Idle { .. } | IdleTurn::Held | IdleTurn::Exhausted { .. } => false,
    }
}

/// When the next tick or delivery will be due: the last moment that there is where none is known.
pub(crate) fn next_due(turn: &IdleTurn) -> Moment
    ensures { result ≡ next_due turn.now }
{
    match turn {
        IdleTurn::Idle { next: Some(next) } => moment_or_last(*next),
        IdleTurn::Did
        | IdleTurn::Idle { next: None }
        | IdleTurn::Held
        | IdleTurn::Exhausted { .. } => moment_or_last(MOMENT_LIMIT),
    }
}

/// The moment so many milliseconds after the beginning of 1970, or the last one that there is.
fn moment_or_last(ms: u64) -> Moment
    ensures { result ≡ min ms last_moment }
{
    match Moment::at(ms.min(MOMENT_LIMIT - 1)) {
        Some(moment) => moment,
        None => unreachable!(),
    }
}
