ghost use Rattle.std.specs.Prelude.{◌≡◌};
ghost use Rattle.sidecar_workers.specs.Works.{reason_of, exit_of_served, exit_of_turned};

use crate::{Reason, Served, Turned};

/// How a worker ended.
#[derive(Clone, Copy, Debug, PartialEq, Eq)]
pub enum Exit {
    /// A shutdown was asked for.
    Asked,
    /// It found the stop word set.
    Stopped,
    /// The acceptor is closed.
    Closed,
    /// The acceptor failed.
    Failed,
    /// A cell has no ticket left; `count` was read in it.
    Spent { count: u64 },
}

/// Why a worker that ended so stops all others; `None` where it doesn't.
pub(crate) fn reason_of(exit: Exit) -> Option<Reason>
    ensures { result ≡ reason_of exit }
{
    match exit {
        Exit::Asked => Some(Reason::Asked),
        Exit::Failed => Some(Reason::Failed),
        Exit::Spent { count } => Some(Reason::Spent { count }),
        Exit::Stopped | Exit::Closed => None,
    }
}

/// How a worker ends after such a `serve`; `None` where it goes on.
pub fn after_serve(served: Served) -> Option<Exit>
    ensures { result ≡ exit_of_served served }
{
    match served {
        Served::Asked => Some(Exit::Asked),
        Served::Spent { count } => Some(Exit::Spent { count }),
        Served::Next | Served::NoMemory => None,
    }
}

/// How a worker ends after such a `turn`; `None` where it goes on.
pub fn after_turn(turned: Turned) -> Option<Exit>
    ensures { result ≡ exit_of_turned turned }
{
    match turned {
        Turned::Spent { count } => Some(Exit::Spent { count }),
        Turned::Went | Turned::NoMemory => None,
    }
}
