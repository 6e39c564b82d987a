//! Calls of the methods of actors.
ghost use Rattle.std.specs.Prelude.{◌≡◌, ◌≤◌, ℕ, List, Some, Err, IfOk, length};
ghost use Rattle.http.specs.StatusCode.{IsStatusCode};
ghost use Rattle.turn_cell.specs.declared.error.ApiErr.TheVariants as error;
ghost use Rattle.sidecar_objects.specs.Passes.{IsPassOf};
ghost use Rattle.sidecar_objects.specs.Pass.{DoesUndrawn, cells_of, seats_of};
ghost use Rattle.sidecar_core.specs.Actors.{AtActor, AtTurns, actor_name};

use crate::Shared;
use crate::naming::names_an_actor;
use crate::refusing::bad_actor;
use actor_api::{ActorCall, invoke};
use keeper_core::Keeper;
use link_call::given;
use side_base::{NoMemory, Request, Response, Text};
use side_world::{Clock, Link};
use sidecar_objects::{ObjectKinds, Pass};
use state_core::Store;
use std::alloc::Global;
use std::sync::Wait;
use turn_cell::ApiErr;

/// Answers a call of a method of an actor, if no bar stands in its kind and its id: the app is asked in the actor's turn.
pub(crate) fn at_actor<K: Keeper, L: Link, C: Clock, W: Wait>(
    rt: &W,
    shared: &Shared<K>,
    pass: &mut Pass<K>,
    request: &Request,
    kind: &Text,
    id: &Text,
    link: &mut L,
    clock: &mut C,
) -> Result<Response, ApiErr>
    requires pass { IsPassOf (cells_of shared.now.objects) (seats_of pass.old) }
    requires target { 13 ≤ length request.now.target }
    ensures does { DoesUndrawn ⟦<Store<K> as ObjectKinds>⟧.kinds L.Link C.Clock shared.now.objects pass.old pass.new link.old link.new clock.old clock.new (AtActor shared.now.config request.now kind.now id.now) result }
    ensures shows { (count : ℕ) → result ≡ Err (error.Exhausted count) → pass.new.turns.count ≡ Some count }
    ensures status { IfOk result (λ response. IsStatusCode response.status) }
{
    if !names_an_actor(kind, id) {
        return given(bad_actor(shared.alloc));
    }
    match name_of(shared.alloc, kind, id) {
        Ok(actor) => in_turn(rt, shared, pass, request, &actor, link, clock),
        Err(NoMemory) => Err(ApiErr::NoMemory),
    }
}

/// Calls a method of the actor of this name, in its turn.
fn in_turn<K: Keeper, L: Link, C: Clock, W: Wait>(
    rt: &W,
    shared: &Shared<K>,
    pass: &mut Pass<K>,
    request: &Request,
    actor: &Text,
    link: &mut L,
    clock: &mut C,
) -> Result<Response, ApiErr>
    requires pass { IsPassOf (cells_of shared.now.objects) (seats_of pass.old) }
    requires target { 13 ≤ length request.now.target }
    ensures does { DoesUndrawn ⟦<Store<K> as ObjectKinds>⟧.kinds L.Link C.Clock shared.now.objects pass.old pass.new link.old link.new clock.old clock.new (AtTurns shared.now.config request.now actor.now) result }
    ensures shows { (count : ℕ) → result ≡ Err (error.Exhausted count) → pass.new.turns.count ≡ Some count }
    ensures status { IfOk result (λ response. IsStatusCode response.status) }
{
    let what = ActorCall {
        request,
        actor,
        app_port: shared.config.app_port,
    };
    invoke(
        rt,
        shared.alloc,
        &what,
        &shared.objects.turns,
        &mut pass.turns,
        link,
        clock,
    )
}

/// The name of an actor: its kind, two bars and its id.
fn name_of(alloc: Global, kind: &Text, id: &Text) -> Result<Text, NoMemory>
    ensures { IfOk result (λ name. name ≡ actor_name kind.now id.now) }
{
    let mut name = Text::from_str(alloc, kind.as_str())?;
    name.push("||")?;
    name.push(id.as_str())?;
    Ok(name)
}
