//! The requests that are made commands of.
ghost use Rattle.std.specs.Prelude.{IfOk};
ghost use Rattle.state_api.specs.Asked.{IsState};
ghost use Rattle.state_api.specs.Response.{IsCut};

use api_routes::Route;
use side_base::{Blob, Fields, Method, NoMemory, Request, Text};
use state_api::{StateErr, command};
use state_core::{Cmd, Prefix};
use std::alloc::Global;

/// What a request asks for.
#[derive(Clone, Copy)]
pub enum Kind {
    /// The value of a key.
    Get,
    /// To save a text of so many bytes under it.
    Save(u32),
    /// The values of so many keys.
    Bulk(u32),
}

/// The route of a kind. Takes no memory.
fn route_of(alloc: Global, kind: Kind) -> Route
    ensures { IsState result }
{
    let store = Text::from_static(alloc, "statestore");
    match kind {
        Kind::Get => Route::Get {
            store,
            key: Text::from_static(alloc, "a"),
        },
        Kind::Save(_) => Route::Save { store },
        Kind::Bulk(_) => Route::Bulk { store },
    }
}

/// The content of a save of a text of so many bytes.
fn save(alloc: Global, len: u32) -> Result<Blob, NoMemory> {
    let mut body = Blob::from_bytes(alloc, b"[{\"key\":\"a\",\"value\":\"")?;
    for _ in 0..len {
        body.push_byte(b'x')?;
    }
    body.push(b"\"}]")?;
    Ok(body)
}

/// The content of a bulk get of so many keys.
fn bulk(alloc: Global, keys: u32) -> Result<Blob, NoMemory> {
    let mut body = Blob::from_bytes(alloc, b"{\"keys\":[\"key 0\"")?;
    for _ in 1..keys {
        body.push(b",\"key 1\"")?;
    }
    body.push(b"]}")?;
    Ok(body)
}

fn body(alloc: Global, kind: Kind) -> Result<Blob, NoMemory> {
    match kind {
        Kind::Get => Ok(Blob::new(alloc)),
        Kind::Save(len) => save(alloc, len),
        Kind::Bulk(keys) => bulk(alloc, keys),
    }
}

/// A request of a kind.
pub fn request(alloc: Global, kind: Kind) -> Result<Request, NoMemory> {
    Ok(Request {
        method: Method::Post,
        target: Blob::from_bytes(alloc, b"/v1.0/state/statestore")?,
        minor: 1,
        fields: Fields::new(alloc),
        body: body(alloc, kind)?,
    })
}

/// The command of a request of this kind.
pub fn asked(alloc: Global, kind: Kind, request: &Request, prefix: &Prefix) -> Result<Cmd, StateErr>
    ensures { IfOk result IsCut }
{
    command(alloc, &route_of(alloc, kind), request, prefix)
}
