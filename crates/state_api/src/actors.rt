//! From a request for an actor's state to the command of the store.
ghost use Rattle.std.specs.Prelude.{◌≡◌, IfOk};
ghost use Rattle.json_text.specs.Doc.{IsNode, bytes_read};
ghost use Rattle.state_core.specs.Taken.{HasTtl, IsTaken};
ghost use Rattle.state_api.specs.Given.{Gives, Tells};
ghost use Rattle.state_api.specs.Values.{IsAt, Value};
ghost use Rattle.state_api.specs.Response.{IsCut};
ghost use Rattle.state_api.specs.Asked.{AsksActor, BodyAsks, IsActorState, actor_front, change_of, changes_in, unconditional};

use crate::StateErr;
use crate::asking::op_of;
use crate::commanding::{fault_of, first_moment, get};
use crate::part::{Part, ask_all, read_list};
use crate::raw::{RawOp, read_op};
use crate::words::SEPARATOR;
use api_routes::Route;
use json_text::{Doc, Node, read};
use side_base::{NoMemory, Request, Text};
use state_core::{Cmd, Item, Mode, Op, Prefix};
use std::alloc::Global;
use std::marker::Model;

/// The command that a request for an actor's state asks for, at the beginning of 1970. `app` is the id of the app whose actor it is. Keys are stored behind
/// it, the kind and the id of the actor, each with `||` after it.
///
/// A change is a transaction that is made whatever stands under its keys. Its body is the list of its operations; they are tested as those of a transaction, in
/// the same order, with their ETags and concurrencies, which are then let go.
pub fn actor_command(
    alloc: Global,
    route: &Route,
    request: &Request,
    app: &Text,
) -> Result<Cmd, StateErr>
    requires { IsActorState route.now }
    ensures asks { Tells result (AsksActor app.now request.now route.now) }
    ensures taken { IfOk result IsTaken }
    ensures cut { IfOk result IsCut }
{
    match route {
        Route::ActorGet { kind, id, key } => match actor_front(alloc, app, kind, id) {
            Ok(front) => get(alloc, key, &front),
            Err(_) => Err(StateErr::NoMemory),
        },
        Route::ActorChange { kind, id } => match actor_front(alloc, app, kind, id) {
            Ok(front) => change(alloc, request.body.bytes(), &front),
            Err(_) => Err(StateErr::NoMemory),
        },
        Route::Save { .. }
        | Route::Get { .. }
        | Route::Delete { .. }
        | Route::Bulk { .. }
        | Route::Transact { .. }
        | Route::Invoke { .. }
        | Route::Publish { .. }
        | Route::Binding { .. }
        | Route::ActorCall { .. }
        | Route::Health
        | Route::Metadata
        | Route::SetMetadata { .. }
        | Route::Shutdown => unreachable!(),
    }
}

/// What stands before the keys of an actor.
fn actor_front(alloc: Global, app: &Text, kind: &Text, id: &Text) -> Result<Prefix, NoMemory>
    ensures { IfOk result (λ front. front ≡ actor_front app.now kind.now id.now) }
{
    let mut front = String::with_capacity(alloc, app.bytes().len())?;
    front.push_str(app.as_str())?;
    front.push_str(SEPARATOR)?;
    front.push_str(kind.as_str())?;
    front.push_str(SEPARATOR)?;
    front.push_str(id.as_str())?;
    Ok(Prefix {
        text: Some(Text::from_string(front)),
    })
}

/// The command of a change.
fn change(alloc: Global, body: &[u8], front: &Prefix) -> Result<Cmd, StateErr>
    ensures asks { Tells result (BodyAsks (changes_in front.now) body.now) }
    ensures taken { IfOk result IsTaken }
    ensures cut { IfOk result IsCut }
{
    match read(alloc, body) {
        Ok(doc) => changes_of(alloc, &doc, doc.root(), front),
        Err(error) => Err(fault_of(error)),
    }
}

/// The transaction that a value means.
fn changes_of(alloc: Global, doc: &Doc<'_>, n: Node, front: &Prefix) -> Result<Cmd, StateErr>
    requires { IsNode doc.now n }
    ensures gives { (value : Value) → IsAt doc.now n value → Gives result (changes_in front.now (bytes_read doc.now) value) }
    ensures taken { IfOk result IsTaken }
    ensures cut { IfOk result IsCut }
{
    let raws = read_list::<RawChange>(alloc, doc, n)?;
    let ops = ask_all(alloc, front, raws)?;
    Ok(Cmd::Transact {
        ops,
        now: first_moment(),
    })
}

/// An operation of a change, before its words are judged.
#[derive(Debug, Drop)]
pub(crate) struct RawChange {
    op: RawOp,
}

impl Model for RawChange {
    ghost use Rattle.state_api.specs.declared.raw.RawOp.{RawOp};

    ghost Value = { RawOp };

    ghost view = { λ change. change.op };
}

impl Part for RawChange {
    ghost use Rattle.state_core.specs.Taken.{HasTtl};
    ghost use Rattle.state_api.specs.Raw.{op_in};
    ghost use Rattle.state_api.specs.Asked.{change_of};

    type Asked = Op;

    ghost says = { op_in };

    ghost means = { change_of };

    ghost fine = { λ _ op. HasTtl op };

    fn read(alloc: Global, doc: &Doc<'_>, n: Node) -> Result<RawChange, StateErr> {
        match read_op(alloc, doc, n) {
            Ok(op) => Ok(RawChange { op }),
            Err(error) => Err(error),
        }
    }

    fn ask(self, alloc: Global, prefix: &Prefix) -> Result<Op, StateErr> {
        let RawChange { op } = self;
        change_of(alloc, prefix, op)
    }
}

/// The operation that is to be made, whatever stands under its key.
fn change_of(alloc: Global, front: &Prefix, raw: RawOp) -> Result<Op, StateErr>
    ensures gives { Gives result (change_of front.now raw) }
    ensures ttl { IfOk result HasTtl }
{
    match op_of(alloc, front, raw) {
        Ok(op) => Ok(unconditional(op)),
        Err(error) => Err(error),
    }
}

/// The operation without its ETag, and with the mode of a write that is always current.
fn unconditional(op: Op) -> Op
    ensures exact { result ≡ unconditional op }
    ensures ttl { HasTtl op → HasTtl result }
{
    match op {
        Op::Upsert(item) => {
            let Item {
                key,
                value,
                ttl,
                etag: _,
                mode: _,
            } = item;
            Op::Upsert(Item {
                key,
                value,
                etag: None,
                mode: Mode::LastWrite,
                ttl,
            })
        }
        Op::Remove {
            key,
            etag: _,
            mode: _,
        } => Op::Remove {
            key,
            etag: None,
            mode: Mode::LastWrite,
        },
    }
}
