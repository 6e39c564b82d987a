// What a case does with a broker: it publishes, delivers, and counts.
ghost use Rattle.std.specs.Prelude.{◌≡◌, is_some, length};
ghost use Rattle.retry_core.specs.Bound.{IsWithinLimit};
ghost use Rattle.turn_cell.specs.Sitting.{IsSeatOf};
ghost use Rattle.ledger_core.specs.Ledger.{plans_of};

use crate::given::Common;
use crate::told::{add_counts, add_turn};
use case_text::{Lines, Section, first_word};
use case_world::{World, add_answer, body_of, number, request_fields, text};
use delivery_turn::{Deliveries, Turn, turn};
use ledger_core::{Ledger, LedgerCmd};
use policy_run::Guard;
use pubsub_api::{Publication, publish};
use rand_core::Rng;
use resource_spec::Component;
use side_base::{Blob, Method, Request, Response};
use side_world::{Clock, Link};
use std::alloc::Global;
use std::sync::Wait;
use turn_cell::{ApiErr, Seat, TurnCell};

/// The port at which the own app listens.
const APP_PORT: u16 = 3000;

/// A broker, and what a case says.
#[derive(Clone, Copy)]
pub(crate) struct Broker<'a, 'b, 'c> {
    pub(crate) common: &'a Common,
    pub(crate) component: &'a Component,
    pub(crate) sections: &'b [Section<'c>],
}

/// What a case works with, and what it told so far.
#[derive(Drop)]
pub(crate) struct Scene {
    pub(crate) world: World,
    pub(crate) told: Lines,
}

// The request of a section, whose content is the section's text so many times.
fn request_of(
    alloc: Global,
    sections: &[Section<'_>],
    section: &Section<'_>,
    times: &str,
) -> Request {
    Request {
        method: Method::Post,
        target: Blob::new(alloc),
        minor: 1,
        fields: request_fields(alloc, sections),
        body: body_of(alloc, section, times),
    }
}

// Publishes to a topic.
fn publish_to<C: Clock, R: Rng, W: Wait>(
    rt: &W,
    broker: &Broker<'_, '_, '_>,
    topic: &str,
    request: &Request,
    cell: &TurnCell<Ledger>,
    seat: &mut Seat<Ledger>,
    clock: &mut C,
    rng: &mut R,
) -> Result<Response, ApiErr>
    requires seat { IsSeatOf cell.now seat.old }
    requires plans { length (plans_of cell.now.first) ≡ length broker.now.common.now.subs }
    ensures { IsSeatOf cell.now seat.new }
{
    let alloc = broker.common.alloc;
    let topic = text(alloc, topic);
    let what = Publication {
        request,
        component: broker.component,
        topic: &topic,
        app: &broker.common.app,
        subs: &broker.common.subs,
    };
    publish(rt, alloc, &what, cell, seat, clock, rng)
}

// Publishes what a section says: the topic, how often its text stands in the content, and how often it is published; the last answer is told.
fn publish_section<W: Wait>(
    rt: &W,
    broker: &Broker<'_, '_, '_>,
    section: &Section<'_>,
    words: &str,
    cell: &TurnCell<Ledger>,
    seat: &mut Seat<Ledger>,
    scene: &mut Scene,
)
    requires seat { IsSeatOf cell.now seat.old }
    requires plans { length (plans_of cell.now.first) ≡ length broker.now.common.now.subs }
    ensures { IsSeatOf cell.now seat.new }
{
    let (topic, words) = first_word(words);
    let (long, often) = first_word(words);
    let request = request_of(broker.common.alloc, broker.sections, section, long);
    let mut answer = Err(ApiErr::NoMemory);
    for _ in 0..number(often).max(1) {
        let world = &mut scene.world;
        answer = publish_to(
            rt,
            broker,
            topic,
            &request,
            cell,
            seat,
            &mut world.clock,
            &mut world.word,
        );
    }
    add_answer(&mut scene.told, &answer);
}

// Makes one turn of delivery.
fn deliver<L: Link, G: Guard, C: Clock, R: Rng, W: Wait>(
    rt: &W,
    broker: &Broker<'_, '_, '_>,
    cell: &TurnCell<Ledger>,
    seat: &mut Seat<Ledger>,
    guard: &mut G,
    link: &mut L,
    clock: &mut C,
    rng: &mut R,
) -> Turn
    requires seat { IsSeatOf cell.now seat.old }
    requires plans { length (plans_of cell.now.first) ≡ length broker.now.common.now.subs }
    requires limits { IsWithinLimit broker.now.common.now.bound }
    requires breaker { G.there guard.old ≡ is_some broker.now.common.now.bound.breaker }
    requires guard { G.ready guard.old }
    ensures seat { IsSeatOf cell.now seat.new }
    ensures there { G.there guard.new ≡ G.there guard.old }
    ensures guard { G.ready guard.new }
{
    let what = Deliveries {
        alloc: broker.common.alloc,
        port: APP_PORT,
        subs: &broker.common.subs,
        bound: &broker.common.bound,
    };
    turn(rt, &what, cell, seat, guard, link, clock, rng)
}

// Makes so many turns, and tells what each came to.
fn deliver_often<G: Guard, W: Wait>(
    rt: &W,
    broker: &Broker<'_, '_, '_>,
    times: u64,
    cell: &TurnCell<Ledger>,
    seat: &mut Seat<Ledger>,
    guard: &mut G,
    scene: &mut Scene,
)
    requires seat { IsSeatOf cell.now seat.old }
    requires plans { length (plans_of cell.now.first) ≡ length broker.now.common.now.subs }
    requires limits { IsWithinLimit broker.now.common.now.bound }
    requires breaker { G.there guard.old ≡ is_some broker.now.common.now.bound.breaker }
    requires guard { G.ready guard.old }
    ensures seat { IsSeatOf cell.now seat.new }
    ensures there { G.there guard.new ≡ G.there guard.old }
    ensures guard { G.ready guard.new }
{
    for _ in 0..times.max(1) {
        let world = &mut scene.world;
        let came = deliver(
            rt,
            broker,
            cell,
            seat,
            guard,
            &mut world.link,
            &mut world.clock,
            &mut world.word,
        );
        add_turn(&mut scene.told, &came);
    }
}

// Tells how many deliveries there are of each status.
fn count<W: Wait>(rt: &W, cell: &TurnCell<Ledger>, seat: &mut Seat<Ledger>, told: &mut Lines)
    requires { IsSeatOf cell.now seat.old }
    ensures { IsSeatOf cell.now seat.new }
{
    match cell.call(rt, seat, &LedgerCmd::Counts) {
        Ok(reply) => add_counts(told, &reply),
        Err(_) => told.add("exhausted\n"),
    }
}

// Does what a section says, behind the broker's name.
fn step<G: Guard, W: Wait>(
    rt: &W,
    broker: &Broker<'_, '_, '_>,
    section: &Section<'_>,
    words: &str,
    cell: &TurnCell<Ledger>,
    seat: &mut Seat<Ledger>,
    guard: &mut G,
    scene: &mut Scene,
)
    requires seat { IsSeatOf cell.now seat.old }
    requires plans { length (plans_of cell.now.first) ≡ length broker.now.common.now.subs }
    requires limits { IsWithinLimit broker.now.common.now.bound }
    requires breaker { G.there guard.old ≡ is_some broker.now.common.now.bound.breaker }
    requires guard { G.ready guard.old }
    ensures seat { IsSeatOf cell.now seat.new }
    ensures there { G.there guard.new ≡ G.there guard.old }
    ensures guard { G.ready guard.new }
{
    match section.word {
        "publish" => publish_section(rt, broker, section, words, cell, seat, scene),
        "deliver" => deliver_often(rt, broker, number(words), cell, seat, guard, scene),
        "count" => count(rt, cell, seat, &mut scene.told),
        "pause" => scene.world.clock.pause(number(words)),
        _ => {}
    }
}

/// Does what the sections say that name a broker.
pub(crate) fn steps<G: Guard, W: Wait>(
    rt: &W,
    broker: &Broker<'_, '_, '_>,
    cell: &TurnCell<Ledger>,
    seat: &mut Seat<Ledger>,
    guard: &mut G,
    scene: &mut Scene,
)
    requires seat { IsSeatOf cell.now seat.old }
    requires plans { length (plans_of cell.now.first) ≡ length broker.now.common.now.subs }
    requires limits { IsWithinLimit broker.now.common.now.bound }
    requires breaker { G.there guard.old ≡ is_some broker.now.common.now.bound.breaker }
    requires guard { G.ready guard.old }
    ensures there { G.there guard.new ≡ G.there guard.old }
    ensures guard { G.ready guard.new }
{
    for section in broker.sections {
        let (name, words) = first_word(section.name);
        if name.as_bytes() == broker.component.name().bytes() {
            step(rt, broker, section, words, cell, seat, guard, scene);
        }
    }
}
