ghost use Rattle.std.specs.Prelude.{◌≡◌};
ghost use Rattle.sidecar_serving.specs.Ending.{end_of, is_failed, served_of, spent_by, turned_of};

use crate::End;
use conn_serve::Ended;
use sidecar_core::IdleTurn;
use sidecar_workers::{Exit, Served, Turned};

/// What a worker's `serve` answers after a connection that ended so.
pub(crate) fn served_of(ended: Ended) -> Served
    ensures { result ≡ served_of ended }
{
    match ended {
        Ended::Asked => Served::Asked,
        Ended::Spent { count } => Served::Spent { count },
        Ended::NoMemory => Served::NoMemory,
        Ended::Done
        | Ended::Closed
        | Ended::ClosedByPeer
        | Ended::Refused(_)
        | Ended::Limit
        | Ended::SourceFailed
        | Ended::SinkFailed => Served::Next,
    }
}

/// What a worker's `turn` answers after one that came to this.
pub(crate) fn turned_of(turn: &IdleTurn) -> Turned
    ensures { result ≡ turned_of turn.now }
{
    match turn {
        IdleTurn::Did | IdleTurn::Idle { .. } => Turned::Went,
        IdleTurn::Held => Turned::NoMemory,
        IdleTurn::Exhausted { count } => Turned::Spent { count: *count },
    }
}

/// What was read in the cell that ended a worker, if one did.
pub(crate) fn spent_by(exit: Option<Exit>) -> Option<u64>
    ensures { result ≡ spent_by exit }
{
    match exit {
        Some(Exit::Spent { count }) => Some(count),
        Some(Exit::Asked | Exit::Stopped | Exit::Closed | Exit::Failed) | None => None,
    }
}

/// Whether the acceptor of a worker failed.
pub(crate) fn is_failed(exit: Option<Exit>) -> bool
    ensures { result ≡ is_failed exit }
{
    match exit {
        Some(Exit::Failed) => true,
        Some(Exit::Asked | Exit::Stopped | Exit::Closed | Exit::Spent { .. }) | None => false,
    }
}

/// How serving ends: an exhausted cell stands before a failed acceptor, and that before all else.
pub(crate) fn end_of(spent: Option<u64>, failed: bool) -> End
    ensures { result ≡ end_of spent failed }
{
    match spent {
        Some(count) => End::Spent { count },
        None if failed => End::AcceptorFailed,
        None => End::Done,
    }
}
