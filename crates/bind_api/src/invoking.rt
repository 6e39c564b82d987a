ghost use Rattle.std.specs.Prelude.{◌≡◌, ◌≤◌, ℕ, Err, is_some, IfOk};
ghost use Rattle.turn_cell.specs.declared.error.ApiErr.TheVariants as error;
ghost use Rattle.resource_spec.specs.declared.component.ComponentKind.TheVariants as kinds;
ghost use Rattle.retry_core.specs.Bound.{IsWithinLimit};
ghost use Rattle.policy_run.specs.Effects.{Draws, Runs, times};
ghost use Rattle.link_call.specs.Came.{Calls};
ghost use Rattle.link_call.specs.LinkAt.{links};
ghost use Rattle.bind_api.specs.Binding.{AsksOf, BindsBy, UnaskedReplies};

use crate::asking::ask_of;
use crate::malformed::{AskErr, malformed_response};
use crate::replying::replied;
use crate::requesting::{request_to, url_of};
use link_call::{call_link, given};
use policy_run::Guard;
use rand_core::Rng;
use resource_spec::Component;
use retry_core::Bound;
use side_base::{LinkRequest, Request, Response};
use side_world::{Clock, Link};
use std::alloc::Global;
use std::sync::Wait;
use turn_cell::ApiErr;

/// Sends a request to an output binding, under the policies that are bound to it, and answers what it replies.
///
/// The body says the operation, a path behind that of the component's address, and the data. A reply of 200 to 299 is answered with its
/// content, the first type that it says, and its status, or as 204 where it has no content; any other is told by its status.
pub fn invoke<L: Link, G: Guard, C: Clock, R: Rng, W: Wait>(
    rt: &W,
    alloc: Global,
    component: &Component,
    request: &Request,
    bound: &Bound,
    guard: &mut G,
    link: &mut L,
    clock: &mut C,
    rng: &mut R,
) -> Result<Response, ApiErr>
    requires kind { component.now.kind ≡ kinds.BindingHttp }
    requires limits { IsWithinLimit bound.now }
    requires breaker { G.there guard.old ≡ is_some bound.now.breaker }
    requires guard { G.ready guard.old }
    ensures binds { Calls (BindsBy bound.now component.now request.now result) (links L.Link link.old link.new) (Runs G.held guard.old guard.new) (times C.Clock clock.old clock.new) (Draws R.stream rng.old rng.new) }
    ensures there { G.there guard.new ≡ G.there guard.old }
    ensures shows { (count : ℕ) → result ≡ Err (error.Exhausted count) → G.shows guard.new count }
    ensures status { IfOk result (λ response. (200 ≤ response.status) × (response.status ≤ 599)) }
{
    match request_for(alloc, component, request) {
        Ok(asked) => {
            let outcome = call_link(rt, &asked, bound, guard, link, clock, rng);
            replied(alloc, outcome)
        }
        Err(error) => unasked(alloc, error),
    }
}

/// The request to the program at the component's address that a request to the binding asks for.
fn request_for(
    alloc: Global,
    component: &Component,
    request: &Request,
) -> Result<LinkRequest, AskErr>
    requires { component.now.kind ≡ kinds.BindingHttp }
    ensures { AsksOf component.now request.now.body result }
{
    let url = url_of(component);
    match ask_of(alloc, request.body.bytes()) {
        Ok(ask) => match request_to(alloc, url, ask) {
            Ok(asked) => Ok(asked),
            Err(_) => Err(AskErr::NoMemory),
        },
        Err(error) => Err(error),
    }
}

/// The response where nothing was asked.
fn unasked(alloc: Global, error: AskErr) -> Result<Response, ApiErr>
    ensures { UnaskedReplies error result }
{
    match error {
        AskErr::Malformed { what } => given(malformed_response(alloc, what)),
        AskErr::NoMemory => Err(ApiErr::NoMemory),
    }
}
