//! From a request to the command of the store.
ghost use Rattle.std.specs.Prelude.{◌≡◌, IfOk, option_copied};
ghost use Rattle.json_text.specs.Doc.{IsNode, bytes_read};
ghost use Rattle.state_core.specs.Taken.{IsTaken};
ghost use Rattle.state_api.specs.Given.{Gives, Tells};
ghost use Rattle.state_api.specs.Values.{IsAt, Value};
ghost use Rattle.state_api.specs.Words.{mode_of};
ghost use Rattle.state_api.specs.Response.{IsCut};
ghost use Rattle.state_api.specs.Asked.{Asks, BodyAsks, IsState, bulk_in, concurrency_of, delete_of, fault_of, field_text, get_of, query_of, save_in, transact_in};

use crate::part::{ask_all, read_list, read_listed};
use crate::raw::{RawItem, RawOp};
use crate::values::SHAPE;
use crate::words::{etag_of, front_len, mode_in, stored_key};
use crate::{StateErr, What};
use api_routes::Route;
use form_urlencoded::parse;
use json_text::{Doc, JsonErr, Node, read};
use side_base::{Moment, Request, Text, TextErr, first_value};
use state_core::{Cmd, Mode, Prefix};
use std::alloc::Global;

/// The command that a request of the state API asks for, at the beginning of 1970. Keys are stored behind the prefix.
///
/// Tested are, in this order: that the body is JSON, the form of all of it, the number of items, and then of each item in order its
/// key, its concurrency, its operation and its time to live. The first fault is the one that is told.
pub fn command(
    alloc: Global,
    route: &Route,
    request: &Request,
    prefix: &Prefix,
) -> Result<Cmd, StateErr>
    requires { IsState route.now }
    ensures asks { Tells result (Asks prefix.now request.now route.now) }
    ensures taken { IfOk result IsTaken }
    ensures cut { IfOk result IsCut }
{
    match route {
        Route::Save { .. } => save(alloc, request.body.bytes(), prefix),
        Route::Get { key, .. } => get(alloc, key, prefix),
        Route::Delete { key, .. } => delete(alloc, key, request, prefix),
        Route::Bulk { .. } => bulk(alloc, request.body.bytes(), prefix),
        Route::Transact { .. } => transact(alloc, request.body.bytes(), prefix),
        Route::Invoke { .. }
        | Route::Publish { .. }
        | Route::Binding { .. }
        | Route::ActorCall { .. }
        | Route::ActorGet { .. }
        | Route::ActorChange { .. }
        | Route::Health
        | Route::Metadata
        | Route::SetMetadata { .. }
        | Route::Shutdown => unreachable!(),
    }
}

/// The command of a save.
fn save(alloc: Global, body: &[u8], prefix: &Prefix) -> Result<Cmd, StateErr>
    ensures asks { Tells result (BodyAsks (save_in prefix.now) body.now) }
    ensures taken { IfOk result IsTaken }
    ensures cut { IfOk result IsCut }
{
    match read(alloc, body) {
        Ok(doc) => save_of(alloc, &doc, doc.root(), prefix),
        Err(error) => Err(fault_of(error)),
    }
}

/// The command of a bulk get.
fn bulk(alloc: Global, body: &[u8], prefix: &Prefix) -> Result<Cmd, StateErr>
    ensures asks { Tells result (BodyAsks (bulk_in prefix.now) body.now) }
    ensures taken { IfOk result IsTaken }
    ensures cut { IfOk result IsCut }
{
    match read(alloc, body) {
        Ok(doc) => bulk_of(alloc, &doc, doc.root(), prefix),
        Err(error) => Err(fault_of(error)),
    }
}

/// The command of a transaction.
fn transact(alloc: Global, body: &[u8], prefix: &Prefix) -> Result<Cmd, StateErr>
    ensures asks { Tells result (BodyAsks (transact_in prefix.now) body.now) }
    ensures taken { IfOk result IsTaken }
    ensures cut { IfOk result IsCut }
{
    match read(alloc, body) {
        Ok(doc) => transact_of(alloc, &doc, doc.root(), prefix),
        Err(error) => Err(fault_of(error)),
    }
}

/// What is told of a body that is no JSON text.
pub(crate) fn fault_of(error: JsonErr) -> StateErr
    ensures { result ≡ fault_of error }
{
    match error {
        JsonErr::Bad { at } => StateErr::Malformed {
            what: What::Json { at },
        },
        JsonErr::Deep { at } => StateErr::Malformed {
            what: What::Json { at },
        },
        JsonErr::NoMemory => StateErr::NoMemory,
    }
}

/// The save that a value means.
fn save_of(alloc: Global, doc: &Doc<'_>, n: Node, prefix: &Prefix) -> Result<Cmd, StateErr>
    requires { IsNode doc.now n }
    ensures gives { (value : Value) → IsAt doc.now n value → Gives result (save_in prefix.now (bytes_read doc.now) value) }
    ensures taken { IfOk result IsTaken }
    ensures cut { IfOk result IsCut }
{
    let raws = read_list::<RawItem>(alloc, doc, n)?;
    let items = ask_all(alloc, prefix, raws)?;
    Ok(Cmd::Save {
        items,
        now: first_moment(),
    })
}

/// The bulk get that a value means.
fn bulk_of(alloc: Global, doc: &Doc<'_>, n: Node, prefix: &Prefix) -> Result<Cmd, StateErr>
    requires { IsNode doc.now n }
    ensures gives { (value : Value) → IsAt doc.now n value → Gives result (bulk_in prefix.now (bytes_read doc.now) value) }
    ensures taken { IfOk result IsTaken }
    ensures cut { IfOk result IsCut }
{
    let raws = read_listed::<Text>(alloc, doc, n, b"keys")?;
    let keys = ask_all(alloc, prefix, raws)?;
    Ok(Cmd::Bulk {
        keys,
        skip: front_len(prefix),
        now: first_moment(),
    })
}

/// The transaction that a value means.
fn transact_of(alloc: Global, doc: &Doc<'_>, n: Node, prefix: &Prefix) -> Result<Cmd, StateErr>
    requires { IsNode doc.now n }
    ensures gives { (value : Value) → IsAt doc.now n value → Gives result (transact_in prefix.now (bytes_read doc.now) value) }
    ensures taken { IfOk result IsTaken }
    ensures cut { IfOk result IsCut }
{
    let raws = read_listed::<RawOp>(alloc, doc, n, b"operations")?;
    let ops = ask_all(alloc, prefix, raws)?;
    Ok(Cmd::Transact {
        ops,
        now: first_moment(),
    })
}

/// The command of a get.
pub(crate) fn get(alloc: Global, key: &Text, prefix: &Prefix) -> Result<Cmd, StateErr>
    ensures gives { Gives result (get_of prefix.now key.now) }
    ensures taken { IfOk result IsTaken }
    ensures cut { IfOk result IsCut }
{
    Ok(Cmd::Get {
        key: stored_key(alloc, prefix, key)?,
        now: first_moment(),
    })
}

/// The command of a delete.
fn delete(alloc: Global, key: &Text, request: &Request, prefix: &Prefix) -> Result<Cmd, StateErr>
    ensures gives { Gives result (delete_of prefix.now key.now request.now) }
    ensures taken { IfOk result IsTaken }
    ensures cut { IfOk result IsCut }
{
    let etag = field_text(alloc, first_value(&request.fields, b"If-Match"))?;
    let key = stored_key(alloc, prefix, key)?;
    let mode = mode_in_query(alloc, query_of(request.target.bytes()))?;
    let etag = etag_of(alloc, etag)?;
    Ok(Cmd::Delete {
        key,
        etag,
        mode,
        now: first_moment(),
    })
}

/// A field's value as a text.
fn field_text(alloc: Global, value: Option<&[u8]>) -> Result<Option<Text>, StateErr>
    ensures { Gives result (field_text (option_copied value.entry)) }
{
    match value {
        Some(bytes) => match Text::from_bytes(alloc, bytes) {
            Ok(text) => Ok(Some(text)),
            Err(TextErr::NotUtf8 { .. }) => Err(SHAPE),
            Err(TextErr::NoMemory) => Err(StateErr::NoMemory),
        },
        None => Ok(None),
    }
}

/// What stands behind the first question mark.
fn query_of(target: &[u8]) -> &[u8]
    ensures { result.now ≡ query_of target.now }
{
    let mut rest = target;
    while let [first, after @ ..] = rest {
        if *first == b'?' {
            return after;
        }
        rest = after;
    }
    b""
}

/// The mode that the first concurrency of a query means.
fn mode_in_query(alloc: Global, query: &[u8]) -> Result<Mode, StateErr>
    ensures { Gives result (mode_of (concurrency_of query.now)) }
{
    let mut pairs = parse(alloc, query);
    while let Some(pair) = pairs.next() {
        match pair {
            Ok((name, value)) => {
                if name.as_bytes() == b"concurrency".as_slice() {
                    return mode_in(value.as_bytes());
                }
            }
            Err(_) => return Err(StateErr::NoMemory),
        }
    }
    Ok(Mode::Unsaid)
}

/// The beginning of 1970.
pub(crate) fn first_moment() -> Moment
    ensures { result ≡ 0 }
{
    match Moment::at(0) {
        Some(now) => now,
        None => unreachable!(),
    }
}
