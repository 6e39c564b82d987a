ghost use Rattle.std.specs.Prelude.{◌≡◌, ℕ, is_some};
ghost use Rattle.retry_core.specs.Bound.{IsWithinLimit};
ghost use Rattle.policy_run.specs.Effects.{Draws, Runs, clocked, times};
ghost use Rattle.link_call.specs.Came.{Calls, CameTo};
ghost use Rattle.link_call.specs.Cause.{HasCause};
ghost use Rattle.link_call.specs.LinkAt.{link_at, links};

use crate::{Asking, Miss};
use policy_run::{Guard, Outcome, run_call};
use rand_core::Rng;
use retry_core::Bound;
use side_base::{LinkRequest, Response};
use side_world::{Clock, Link};
use std::sync::Wait;

/// Sends a request by the link, under the policies that are bound to its target: each attempt is one call of the link, and is good
/// exactly where the reply came in time and has a status below 500.
///
/// The limit of each call is the bound timeout, 0 where none is bound; where one is, a moment is read right before the call and one right after
/// it. What a failing attempt comes to has its cause: the link's count of faults rose, or its count of expiries did, or the clock moved by more
/// than the limit, or the reply has a status from 500 to 599.
pub fn call_link<L: Link, G: Guard, C: Clock, R: Rng, W: Wait>(
    rt: &W,
    request: &LinkRequest,
    bound: &Bound,
    guard: &mut G,
    link: &mut L,
    clock: &mut C,
    rng: &mut R,
) -> Outcome<Response, Miss>
    requires limits { IsWithinLimit bound.now }
    requires breaker { G.there guard.old ≡ is_some bound.now.breaker }
    requires guard { G.ready guard.old }
    ensures came { Calls (CameTo bound.now request.now result) (links L.Link link.old link.new) (Runs G.held guard.old guard.new) (times C.Clock clock.old clock.new) (Draws R.stream rng.old rng.new) }
    ensures cause { HasCause bound.now result (link_at L.Link link.old) (link_at L.Link link.new) (clocked C.Clock clock.old) (clocked C.Clock clock.new) }
    ensures there { G.there guard.new ≡ G.there guard.old }
    ensures shows { (count : ℕ) → result ≡ Outcome.Exhausted count → G.shows guard.new count }
{
    let mut asking = Asking { link, request };
    run_call(rt, bound, guard, &mut asking, clock, rng)
}
