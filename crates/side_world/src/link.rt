ghost use Rattle.std.specs.Prelude.{◌≤◌, ℕ, List, [], ◌∷◌, Option, IfOk};
ghost use Rattle.side_world.specs.Told.{Tells};

use side_base::{LinkRequest, Response};
use std::error::Error;
use std::fmt;

/// Why a call of a link has no answer.
#[derive(Clone, Copy, Debug, PartialEq, Eq)]
pub enum LinkErr {
    /// There was no connection, or no reply that may be answered: the link's count of faults rose.
    Failed,
    /// The time limit was over: the link's count of expiries rose.
    Expired,
    /// There is no room for the request or the reply.
    NoMemory,
}

impl fmt::Display for LinkErr {
    fn fmt<W: fmt::Write>(&self, f: &mut fmt::Formatter<W>) -> fmt::Result {
        f.write_str(match self {
            LinkErr::Failed => "the call failed",
            LinkErr::Expired => "the call expired",
            LinkErr::NoMemory => "no memory",
        })
    }
}

impl Error for LinkErr {}

/// A call of a link: what was asked, within how many milliseconds (0: no limit), and what was answered.
#[derive(Debug, Drop)]
pub struct LinkCall {
    pub request: LinkRequest,
    pub limit_ms: u64,
    pub answer: Result<Response, LinkErr>,
}

/// A way to ask other programs over HTTP.
///
/// A call is one attempt: nothing is sent twice.
pub trait Link {
    ghost use Rattle.side_world.specs.declared.link.LinkCall.{LinkCall};
    ghost use Rattle.side_world.specs.Link.{IsReply, CountsFault, CountsExpiry};

    // The calls with their answers, in order, where the link tells them.
    ghost calls: { Self → Option (List LinkCall) };

    // How often a call has failed. The count stops at 2^64 - 1.
    ghost faults: { Self → ℕ };

    // How often a call has expired. The count stops at 2^64 - 1.
    ghost expiries: { Self → ℕ };

    /// Asks, and answers the reply: its status is from 200 to 599, and its content has at most 4,194,304 bytes.
    ///
    /// A `limit_ms` of 0 is no limit. `Failed` comes only where the count of faults rose, `Expired` only where that of
    /// expiries did.
    fn call(&mut self, request: &LinkRequest, limit_ms: u64) -> Result<Response, LinkErr>
        ensures reply { IfOk result IsReply }
        ensures calls { Tells (calls self.old) (calls self.new) (record { request = request.now; limit_ms = limit_ms; answer = result } ∷ []) }
        ensures faults { CountsFault result (faults self.old) (faults self.new) }
        ensures no_fewer { faults self.old ≤ faults self.new }
        ensures expiries { CountsExpiry result (expiries self.old) (expiries self.new) }
        ensures no_fewer_expiries { expiries self.old ≤ expiries self.new };
}
