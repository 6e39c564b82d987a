//! The requests that are made, as bytes.
use side_base::{Blob, NoMemory};
use std::alloc::Global;

/// What a request asks of the store.
#[derive(Clone, Copy)]
pub enum Kind {
    /// The value of a key.
    Get,
    /// To save a text of so many bytes under it.
    Save(u32),
}

/// A row of what is measured: requests of this kind, of which so many come together, on one connection or with a connection each time.
#[derive(Clone, Copy)]
pub struct Asked {
    pub name: &'static str,
    pub kind: Kind,
    pub group: u32,
    pub is_apart: bool,
}

/// So many requests of a kind, one behind the other.
pub(crate) fn together(alloc: Global, kind: Kind, group: u32) -> Result<Blob, NoMemory> {
    let one = request(alloc, kind)?;
    let mut bytes = Blob::new(alloc);
    for _ in 0..group {
        bytes.push(one.bytes())?;
    }
    Ok(bytes)
}

/// One request of a kind.
fn request(alloc: Global, kind: Kind) -> Result<Blob, NoMemory> {
    match kind {
        Kind::Get => Blob::from_bytes(
            alloc,
            b"GET /v1.0/state/statestore/a HTTP/1.1\r\nHost: a\r\n\r\n",
        ),
        Kind::Save(len) => save(alloc, len),
    }
}

/// A save of a text of so many bytes.
fn save(alloc: Global, len: u32) -> Result<Blob, NoMemory> {
    let body = body(alloc, len)?;
    let len = body.len();
    let head = format!(in alloc;
        "POST /v1.0/state/statestore HTTP/1.1\r\nHost: a\r\nContent-Length: {len}\r\n\r\n"
    )?;
    let mut bytes = Blob::from_bytes(alloc, head.as_bytes())?;
    bytes.push(body.bytes())?;
    Ok(bytes)
}

/// The content of such a save.
fn body(alloc: Global, len: u32) -> Result<Blob, NoMemory> {
    let mut body = Blob::from_bytes(alloc, b"[{\"key\":\"a\",\"value\":\"")?;
    for _ in 0..len {
        body.push(b"x")?;
    }
    body.push(b"\"}]")?;
    Ok(body)
}
