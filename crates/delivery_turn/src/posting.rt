//! The event of a row is posted to the app once.
ghost use Rattle.std.specs.Prelude.{◌≡◌, ◌<◌, ◌+◌, ◌∷◌, [], ℕ, codes, is_some, IfOk};
ghost use Rattle.retry_core.specs.Bound.{IsWithinLimit};
ghost use Rattle.policy_run.specs.declared.outcome.Refusal.TheVariants as why;
ghost use Rattle.policy_run.specs.Effects.{Draws, Runs, times};
ghost use Rattle.link_call.specs.LinkAt.{links};
ghost use Rattle.delivery_turn.specs.Posting.{request_of};
ghost use Rattle.delivery_turn.specs.Turning.{PostedBy, once, setting_of};

use crate::Deliveries;
use crate::row::Row;
use link_call::{Miss, call_link};
use policy_run::{Guard, Outcome};
use rand_core::Rng;
use retry_core::Bound;
use side_base::{Blob, Field, Fields, LinkRequest, Method, NoMemory, Response, Sequence, Text};
use side_world::{Clock, Link};
use std::alloc::Global;
use std::sync::Wait;

/// Posts the event of a row to the app, if the breaker lets it through, and tells the breaker how it went.
pub(crate) fn post<L: Link, G: Guard, C: Clock, R: Rng, W: Wait>(
    rt: &W,
    what: &Deliveries<'_>,
    row: &Row,
    guard: &mut G,
    link: &mut L,
    clock: &mut C,
    rng: &mut R,
) -> Outcome<Response, Miss>
    requires limits { IsWithinLimit what.now.bound.now }
    requires breaker { G.there guard.old ≡ is_some what.now.bound.now.breaker }
    requires guard { G.ready guard.old }
    ensures posts { PostedBy (setting_of what.now) row.now result (links L.Link link.old link.new) (Runs G.held guard.old guard.new) (times C.Clock clock.old clock.new) (Draws R.stream rng.old rng.new) }
    ensures there { G.there guard.new ≡ G.there guard.old }
    ensures shows { (count : ℕ) → result ≡ Outcome.Exhausted count → G.shows guard.new count }
    ensures until { (until : ℕ) → result ≡ Outcome.Refused (why.Opened until) → until < 253402300800000 + 31536000000 }
{
    match request_of(what.alloc, what.port, row) {
        Ok(request) => call_link(rt, &request, &once(what.bound), guard, link, clock, rng),
        Err(_) => Outcome::NoMemory,
    }
}

/// What is bound to one attempt: no further one follows it.
fn once(bound: &Bound) -> Bound
    ensures { result ≡ once bound.now }
{
    Bound {
        timeout_ms: bound.timeout_ms,
        retry: None,
        breaker: bound.breaker,
    }
}

/// The request that posts the event of a row to the app. An event of 4 KiB and more is not copied.
fn request_of(alloc: Global, port: u16, row: &Row) -> Result<LinkRequest, NoMemory>
    ensures { IfOk result (λ request. request ≡ request_of port row.now) }
{
    let fields = event_fields(alloc)?;
    let target = target_of(&row.path)?;
    let body = row.event.copy()?;
    Ok(LinkRequest {
        host: Text::from_static(alloc, "127.0.0.1"),
        port,
        method: Method::Post,
        target,
        fields,
        body,
    })
}

/// The path as a target.
fn target_of(path: &Text) -> Result<Blob, NoMemory>
    ensures { IfOk result (λ target. target ≡ path.now) }
{
    let copy = path.copy()?;
    copy.into_blob()
}

/// The field that says what is posted: CloudEvents 1.0 in its JSON format.
fn event_fields(alloc: Global) -> Result<Fields, NoMemory>
    ensures { IfOk result (λ fields. fields ≡ record { name = codes "Content-Type"; value = codes "application/cloudevents+json" } ∷ []) }
{
    let value = Blob::from_bytes(alloc, b"application/cloudevents+json")?;
    let mut fields = Sequence::new(alloc);
    fields.push(Field {
        name: Text::from_static(alloc, "Content-Type"),
        value,
    })?;
    Ok(fields)
}
