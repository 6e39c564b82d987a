ghost use Rattle.std.specs.Prelude.{◌≡◌, ◌≤◌, ℕ, Err, is_some, IfOk};
ghost use Rattle.turn_cell.specs.declared.error.ApiErr.TheVariants as error;
ghost use Rattle.retry_core.specs.Bound.{IsWithinLimit};
ghost use Rattle.policy_run.specs.Effects.{Draws, Runs, times};
ghost use Rattle.link_call.specs.Came.{Calls};
ghost use Rattle.link_call.specs.LinkAt.{links};
ghost use Rattle.invoke_api.specs.Invoking.{InvokesBy};
ghost use Rattle.invoke_api.specs.Places.{call_of};

use crate::Peers;
use crate::placing::request_for;
use crate::replying::{replied, unplaced};
use link_call::call_link;
use policy_run::Guard;
use rand_core::Rng;
use retry_core::Bound;
use side_base::{Blob, Request, Response, Text};
use side_world::{Clock, Link};
use std::alloc::Global;
use std::sync::Wait;
use turn_cell::ApiErr;

/// Calls a method of an app, under the policies that are bound to it, and answers what it replies. `rest` is the target of the request behind `method/`.
///
/// The own app is asked at 127.0.0.1 and its port, with the target `/` and `rest`, another one at its sidecar, with the target of the request. The
/// request's method, its body and those of its fields that are passed on go with it; the reply's status and body are answered with those of its fields
/// that are passed on. Nothing is asked where the own app takes no calls, or no app has the id.
pub fn invoke<L: Link, G: Guard, C: Clock, R: Rng, W: Wait>(
    rt: &W,
    alloc: Global,
    peers: Peers<'_>,
    request: &Request,
    app: &Text,
    rest: &Blob,
    bound: &Bound,
    guard: &mut G,
    link: &mut L,
    clock: &mut C,
    rng: &mut R,
) -> Result<Response, ApiErr>
    requires limits { IsWithinLimit bound.now }
    requires breaker { G.there guard.old ≡ is_some bound.now.breaker }
    requires guard { G.ready guard.old }
    ensures invokes { Calls (InvokesBy bound.now (call_of peers.entry request.now app.now rest.now) result)
        (links L.Link link.old link.new) (Runs G.held guard.old guard.new) (times C.Clock clock.old clock.new) (Draws R.stream rng.old rng.new) }
    ensures there { G.there guard.new ≡ G.there guard.old }
    ensures shows { (count : ℕ) → result ≡ Err (error.Exhausted count) → G.shows guard.new count }
    ensures status { IfOk result (λ response. (200 ≤ response.status) × (response.status ≤ 599)) }
{
    match request_for(alloc, peers, request, app, rest) {
        Ok(asked) => {
            let outcome = call_link(rt, &asked, bound, guard, link, clock, rng);
            replied(alloc, outcome)
        }
        Err(why) => unplaced(alloc, app, why),
    }
}
