// The calls of a case, one after the other.
ghost use Rattle.std.specs.Prelude.{◌≡◌, is_some};
ghost use Rattle.retry_core.specs.Bound.{IsWithinLimit};

use crate::given::{OwnApp, binding_of, own_app, peers_of, request_of};
use app_peers::PeerList;
use case_text::{Lines, Section, first_word};
use case_world::{World, add_answer, bound_in, text};
use invoke_api::Peers;
use policy_run::Guard;
use retry_core::Bound;
use side_base::{Blob, Request, Response};
use std::alloc::Global;
use std::sync::Wait;
use turn_cell::ApiErr;

/// What the calls of a case have in common.
#[derive(Drop)]
pub(crate) struct Common {
    pub(crate) own: OwnApp,
    pub(crate) peers: PeerList,
    pub(crate) request: Request,
    pub(crate) bound: Bound,
}

/// What a case gives, with this breaker.
pub(crate) fn common_to(alloc: Global, sections: &[Section<'_>], breaker: Option<u32>) -> Common
    ensures limits { IsWithinLimit result.bound }
    ensures breaker { result.bound.breaker ≡ breaker }
{
    let bound = bound_in(sections, breaker);
    Common {
        own: own_app(alloc, sections),
        peers: peers_of(alloc, sections),
        request: request_of(alloc, sections),
        bound,
    }
}

fn rest_of(alloc: Global, words: &str) -> Blob {
    Blob::from_bytes(alloc, words.as_bytes()).unwrap_or(Blob::new(alloc))
}

// Calls a method of an app; the words are the app's id and the method's name.
fn call<G: Guard, W: Wait>(
    rt: &W,
    alloc: Global,
    common: &Common,
    words: &str,
    guard: &mut G,
    world: &mut World,
) -> Result<Response, ApiErr>
    requires limits { IsWithinLimit common.now.bound }
    requires breaker { G.there guard.old ≡ is_some common.now.bound.breaker }
    requires guard { G.ready guard.old }
    ensures there { G.there guard.new ≡ G.there guard.old }
    ensures guard { G.ready guard.new }
{
    let (app, rest) = first_word(words);
    let app = text(alloc, app);
    let rest = rest_of(alloc, rest);
    let peers = Peers {
        app: &common.own.id,
        app_port: common.own.port,
        others: &common.peers,
    };
    invoke_api::invoke(
        rt,
        alloc,
        peers,
        &common.request,
        &app,
        &rest,
        &common.bound,
        guard,
        &mut world.link,
        &mut world.clock,
        &mut world.word,
    )
}

// Sends the request to a binding of this address.
fn bind<G: Guard, W: Wait>(
    rt: &W,
    alloc: Global,
    common: &Common,
    url: &str,
    guard: &mut G,
    world: &mut World,
) -> Result<Response, ApiErr>
    requires limits { IsWithinLimit common.now.bound }
    requires breaker { G.there guard.old ≡ is_some common.now.bound.breaker }
    requires guard { G.ready guard.old }
    ensures there { G.there guard.new ≡ G.there guard.old }
    ensures guard { G.ready guard.new }
{
    let Some(component) = binding_of(alloc, url) else {
        return Err(ApiErr::NoMemory);
    };
    bind_api::invoke(
        rt,
        alloc,
        &component,
        &common.request,
        &common.bound,
        guard,
        &mut world.link,
        &mut world.clock,
        &mut world.word,
    )
}

// Makes the call that a section says, if it says one.
fn one<G: Guard, W: Wait>(
    rt: &W,
    alloc: Global,
    common: &Common,
    section: &Section<'_>,
    guard: &mut G,
    world: &mut World,
    lines: &mut Lines,
)
    requires limits { IsWithinLimit common.now.bound }
    requires breaker { G.there guard.old ≡ is_some common.now.bound.breaker }
    requires guard { G.ready guard.old }
    ensures there { G.there guard.new ≡ G.there guard.old }
    ensures guard { G.ready guard.new }
{
    match section.word {
        "call" => add_answer(lines, &call(rt, alloc, common, section.name, guard, world)),
        "bind" => add_answer(lines, &bind(rt, alloc, common, section.name, guard, world)),
        "unknown" => add_answer(lines, &unknown(alloc, section.name)),
        _ => {}
    }
}

// The response where no binding has the name.
fn unknown(alloc: Global, name: &str) -> Result<Response, ApiErr> {
    link_call::given(bind_api::unknown_binding(alloc, &text(alloc, name)))
}

/// Makes the calls of a case, and adds what each is answered.
pub(crate) fn calls<G: Guard, W: Wait>(
    rt: &W,
    alloc: Global,
    common: &Common,
    sections: &[Section<'_>],
    guard: &mut G,
    world: &mut World,
    lines: &mut Lines,
)
    requires limits { IsWithinLimit common.now.bound }
    requires breaker { G.there guard.old ≡ is_some common.now.bound.breaker }
    requires guard { G.ready guard.old }
{
    for section in sections {
        one(rt, alloc, common, section, guard, world, lines);
    }
}
