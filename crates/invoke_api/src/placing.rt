//! Where the methods of apps are called, and what is asked there.
ghost use Rattle.std.specs.Prelude.{◌≡◌, IfOk};
ghost use Rattle.invoke_api.specs.Places.{AsksFor, apps_of, own_place, peer_place, request_at};

use app_peers::{Peer, PeerList, peer_of};
use link_call::passed_fields;
use side_base::{Blob, LinkRequest, NoMemory, Request, Text};
use std::alloc::Global;

/// Where the own app listens.
const OWN_HOST: &str = "127.0.0.1";

/// Where apps are reached: the own one, and others at their sidecars.
#[derive(Clone, Copy, Debug)]
pub struct Peers<'a> {
    /// The id of the own app.
    pub app: &'a Text,
    /// The port at which the own app takes calls, if it takes any.
    pub app_port: Option<u16>,
    /// The others.
    pub others: &'a PeerList,
}

/// Where a method is called.
#[derive(Debug, Drop)]
pub struct Place {
    pub host: Text,
    pub port: u16,
    /// The target of the request.
    pub target: Blob,
}

/// Why there is no request to an app.
#[derive(Clone, Copy, Debug, PartialEq, Eq)]
pub enum Unplaced {
    /// The own app takes no calls.
    NoPort,
    /// No app of the id is known.
    Unknown,
    /// There is no memory for it.
    NoMemory,
}

/// The request to the app of this id that passes a request on. `rest` is the target behind `method/`.
pub(crate) fn request_for(
    alloc: Global,
    peers: Peers<'_>,
    request: &Request,
    app: &Text,
    rest: &Blob,
) -> Result<LinkRequest, Unplaced>
    ensures { AsksFor (apps_of peers.entry) request.now app.now rest.now result }
{
    if app.bytes() == peers.app.bytes() {
        return match peers.app_port {
            Some(port) => Ok(own_request(alloc, port, request, rest)?),
            None => Err(Unplaced::NoPort),
        };
    }
    match peer_of(peers.others, app.bytes()) {
        Some(peer) => Ok(peer_request(alloc, peer, request, rest)?),
        None => Err(Unplaced::Unknown),
    }
}

/// The request to the own app at this port.
fn own_request(
    alloc: Global,
    port: u16,
    request: &Request,
    rest: &Blob,
) -> Result<LinkRequest, NoMemory>
    ensures { IfOk result (λ asked. asked ≡ request_at (own_place port rest.now) request.now) }
{
    let mut target = Blob::from_bytes(alloc, b"/")?;
    target.push(rest.bytes())?;
    let place = Place {
        host: Text::from_static(alloc, OWN_HOST),
        port,
        target,
    };
    request_at(alloc, place, request)
}

/// The request to the sidecar of another app.
fn peer_request(
    alloc: Global,
    peer: &Peer,
    request: &Request,
    rest: &Blob,
) -> Result<LinkRequest, NoMemory>
    ensures { IfOk result (λ asked. asked ≡ request_at (peer_place peer.now rest.now) request.now) }
{
    let mut target = Blob::from_bytes(alloc, b"/v1.0/invoke/")?;
    target.push(peer.id.bytes())?;
    target.push(b"/method/")?;
    target.push(rest.bytes())?;
    let place = Place {
        host: peer.host.copy()?,
        port: peer.port,
        target,
    };
    request_at(alloc, place, request)
}

/// The request at a place: its method, the fields that are passed on, and its content, which a long one shares with it.
fn request_at(alloc: Global, place: Place, request: &Request) -> Result<LinkRequest, NoMemory>
    ensures { IfOk result (λ asked. asked ≡ request_at place request.now) }
{
    Ok(LinkRequest {
        host: place.host,
        port: place.port,
        method: request.method,
        target: place.target,
        fields: passed_fields(alloc, &request.fields)?,
        body: request.body.copy()?,
    })
}

impl From<NoMemory> for Unplaced {
    ghost use Rattle.std.specs.Prelude.{◌≡◌};
    ghost use Rattle.invoke_api.specs.declared.placing.Unplaced.TheVariants.{NoMemory as out_of_memory};

    ghost from_gives = { λ _ why. why ≡ out_of_memory };

    fn from(_: NoMemory) -> Unplaced {
        Unplaced::NoMemory
    }
}
