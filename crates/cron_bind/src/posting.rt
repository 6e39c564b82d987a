ghost use Rattle.std.specs.Prelude.{◌≡◌, ℕ, Err, is_some};
ghost use Rattle.turn_cell.specs.declared.error.ApiErr.TheVariants as error;
ghost use Rattle.retry_core.specs.Bound.{IsWithinLimit};
ghost use Rattle.policy_run.specs.Effects.{Draws, Runs, clocked, times};
ghost use Rattle.link_call.specs.Came.{Calls};
ghost use Rattle.link_call.specs.LinkAt.{link_at, links};
ghost use Rattle.cron_bind.specs.Posting.{HasPosted, PostsBy, told_of};

use crate::requesting::request_for;
use link_call::{Miss, call_link};
use policy_run::{Guard, Outcome, Refusal};
use rand_core::Rng;
use retry_core::Bound;
use side_base::{NoMemory, Response, Text};
use side_world::{Clock, Link};
use std::alloc::Global;
use std::sync::Wait;
use turn_cell::ApiErr;

/// What the call of the app for a tick came to. The tick is taken, whatever it is.
#[derive(Clone, Copy, Debug, PartialEq, Eq)]
pub enum Posted {
    /// The app replied in time, with this status, which is below 500.
    Good { status: u16 },
    /// The last attempt failed: the link failed, or it expired or took too long, or the reply has a status of 500 or more.
    Bad,
    /// The breaker let no attempt through.
    Refused(Refusal),
}

/// Calls the own app for a tick of a binding, under the policies that are bound to it: each attempt is a `POST` without content to 127.0.0.1 and the app's port,
/// with the target `/` and the binding's name, whose bytes are escaped but for those that a URI leaves as they are (RFC 3986, section 2.3).
pub fn post<L: Link, G: Guard, C: Clock, R: Rng, W: Wait>(
    rt: &W,
    alloc: Global,
    name: &Text,
    app_port: u16,
    bound: &Bound,
    guard: &mut G,
    link: &mut L,
    clock: &mut C,
    rng: &mut R,
) -> Result<Posted, ApiErr>
    requires limits { IsWithinLimit bound.now }
    requires breaker { G.there guard.old ≡ is_some bound.now.breaker }
    requires guard { G.ready guard.old }
    ensures posts { Calls (PostsBy bound.now app_port name.now result) (links L.Link link.old link.new) (Runs G.held guard.old guard.new) (times C.Clock clock.old clock.new) (Draws R.stream rng.old rng.new) }
    ensures cause { HasPosted bound.now result (link_at L.Link link.old) (link_at L.Link link.new) (clocked C.Clock clock.old) (clocked C.Clock clock.new) }
    ensures there { G.there guard.new ≡ G.there guard.old }
    ensures shows { (count : ℕ) → result ≡ Err (error.Exhausted count) → G.shows guard.new count }
{
    match request_for(alloc, app_port, name) {
        Ok(asked) => told_of(call_link(rt, &asked, bound, guard, link, clock, rng)),
        Err(NoMemory) => Err(ApiErr::NoMemory),
    }
}

/// What the attempts came to, as what became of the tick.
fn told_of(outcome: Outcome<Response, Miss>) -> Result<Posted, ApiErr>
    ensures { result ≡ told_of outcome }
{
    match outcome {
        Outcome::Good(response) => Ok(Posted::Good {
            status: response.status,
        }),
        Outcome::Bad(_miss) => Ok(Posted::Bad),
        Outcome::Refused(refusal) => Ok(Posted::Refused(refusal)),
        Outcome::Exhausted { count } => Err(ApiErr::Exhausted { count }),
        Outcome::NoMemory => Err(ApiErr::NoMemory),
    }
}
