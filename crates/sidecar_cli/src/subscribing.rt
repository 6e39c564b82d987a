//! What an app subscribes to: it is asked for its list once, at the start.
ghost use Rattle.std.specs.Prelude.{◌≡◌, ◌++◌, IfOk, Ok, codes};
ghost use Rattle.link_call.specs.LinkAt.{link_at};
ghost use Rattle.resource_files.specs.Refusals.{told_as};
ghost use Rattle.sidecar_cli.specs.Subscribed.{Hears, IsSubscribed, IsToldOfList, Lists, list_request};
ghost use Rattle.topic_spec.specs.Loading.{IsLoad};

use crate::configuring::placed;
use crate::{Device, Status};
use pubsub_api::app_subscriptions;
use resource_files::{Refusal, refusal_text};
use side_base::{Blob, Fields, LinkRequest, Method, NoMemory, Response, Text};
use side_world::{Link, LinkErr};
use std::alloc::Global;
use topic_spec::{SubErr, Subs, join};

/// The declared subscriptions, and behind them those that the app lists; or how the run ends. Without a port of the app there are none.
pub(crate) fn subscribed<L: Link>(
    alloc: Global,
    app_port: Option<u16>,
    declared: Subs,
    link: &mut L,
) -> Result<Subs, Status>
    ensures { IsSubscribed app_port declared (link_at L.Link link.old) (link_at L.Link link.new) result }
{
    match app_port {
        Some(port) => match list_request(alloc, port) {
            Ok(request) => heard(alloc, declared, link.call(&request, 0)),
            Err(NoMemory) => Err(Status::NoMemory),
        },
        None => Ok(Subs::new(alloc)),
    }
}

/// The question for the list of the app at a port.
fn list_request(alloc: Global, port: u16) -> Result<LinkRequest, NoMemory>
    ensures { IfOk result (λ request. request ≡ list_request port) }
{
    Ok(LinkRequest {
        host: Text::from_static(alloc, "127.0.0.1"),
        port,
        method: Method::Get,
        target: Blob::from_bytes(alloc, b"/dapr/subscribe")?,
        fields: Fields::new(alloc),
        body: Blob::new(alloc),
    })
}

/// What comes of the answer to the question.
fn heard(alloc: Global, declared: Subs, answer: Result<Response, LinkErr>) -> Result<Subs, Status>
    ensures { Hears declared answer result }
{
    match answer {
        Ok(reply) => match listed(alloc, declared, &reply) {
            Ok(subs) => Ok(subs),
            Err(error) => Err(without_list(alloc, error)),
        },
        Err(LinkErr::Failed | LinkErr::Expired) => Err(Status::OutsideFailed(Device::Link)),
        Err(LinkErr::NoMemory) => Err(Status::NoMemory),
    }
}

/// The list that a reply says, behind the declared subscriptions.
fn listed(alloc: Global, mut declared: Subs, reply: &Response) -> Result<Subs, SubErr>
    ensures { IsLoad (Lists declared reply.now) result }
{
    let said = app_subscriptions(alloc, reply)?;
    join(&mut declared, said)?;
    Ok(declared)
}

/// How a run ends whose app's list is refused.
fn without_list(alloc: Global, error: SubErr) -> Status
    ensures { IsToldOfList error result }
{
    match error {
        SubErr::NoMemory => Status::NoMemory,
        error => match refused(alloc, Refusal::Subscriptions(error)) {
            Ok(text) => Status::BadResources { text },
            Err(NoMemory) => Status::NoMemory,
        },
    }
}

/// Why a list is refused.
fn refused(alloc: Global, refusal: Refusal) -> Result<Blob, NoMemory>
    ensures { IfOk result (λ text. text ≡ codes "subscribe" ++ (codes ": " ++ told_as refusal)) }
{
    let told = refusal_text(alloc, &refusal)?;
    placed(alloc, &Text::from_static(alloc, "subscribe"), &told)
}
