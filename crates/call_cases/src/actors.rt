// The calls of actors of a case, and the others in their lines.
ghost use Rattle.std.specs.Prelude.{◌≤◌, IfSome, length};
ghost use Rattle.turn_cell.specs.Sitting.{IsSeatOf};

use crate::crowded_clock::CrowdedClock;
use crate::given::{own_app, request_of};
use actor_api::ActorCall;
use actor_turns::{Turns, TurnsCmd};
use case_text::{Lines, Section, first_word};
use case_world::{add_answer, number, text};
use side_base::{Blob, Request, Response};
use side_memory::MemoryLink;
use std::alloc::Global;
use std::sync::Wait;
use turn_cell::{ApiErr, Seat, TurnCell};

// The request to this target behind `/v1.0/actors/`; `None` where memory lacks.
fn request_to(alloc: Global, sections: &[Section<'_>], target: &str) -> Option<Request>
    ensures { IfSome result (λ request. 13 ≤ length request.target) }
{
    let mut whole = Blob::from_bytes(alloc, b"/v1.0/actors/").ok()?;
    whole.push(target.as_bytes()).ok()?;
    let mut request = request_of(alloc, sections);
    request.target = whole;
    Some(request)
}

// Others join the line of an actor; the words are its name and how many they are.
fn join<W: Wait>(rt: &W, alloc: Global, words: &str, cell: &TurnCell<Turns>, seat: &mut Seat<Turns>)
    requires { IsSeatOf cell.now seat.old }
    ensures { IsSeatOf cell.now seat.new }
{
    let (actor, times) = first_word(words);
    for _ in 0..number(times) {
        let cmd = TurnsCmd::Join {
            actor: text(alloc, actor),
        };
        let _ = cell.call(rt, seat, &cmd);
    }
}

// Makes a call of an actor.
fn invoke<W: Wait>(
    rt: &W,
    alloc: Global,
    what: &ActorCall<'_>,
    cell: &TurnCell<Turns>,
    seat: &mut Seat<Turns>,
    link: &mut MemoryLink,
    clock: &mut CrowdedClock<'_, W>,
) -> Result<Response, ApiErr>
    requires seat { IsSeatOf cell.now seat.old }
    requires target { 13 ≤ length what.now.request.now.target }
    ensures { IsSeatOf cell.now seat.new }
{
    actor_api::invoke(rt, alloc, what, cell, seat, link, clock)
}

// Calls the method of an actor; the words are its name and the target behind `/v1.0/actors/`.
fn call<W: Wait>(
    rt: &W,
    alloc: Global,
    sections: &[Section<'_>],
    words: &str,
    cell: &TurnCell<Turns>,
    seat: &mut Seat<Turns>,
    link: &mut MemoryLink,
    clock: &mut CrowdedClock<'_, W>,
    lines: &mut Lines,
)
    requires { IsSeatOf cell.now seat.old }
    ensures { IsSeatOf cell.now seat.new }
{
    let (actor, target) = first_word(words);
    match request_to(alloc, sections, target) {
        Some(request) => {
            let what = ActorCall {
                request: &request,
                actor: &text(alloc, actor),
                app_port: own_app(alloc, sections).port,
            };
            add_answer(lines, &invoke(rt, alloc, &what, cell, seat, link, clock));
        }
        None => lines.lack(),
    }
}

/// Does what the sections of a case say of actors, in order.
pub(crate) fn actors<W: Wait>(
    rt: &W,
    alloc: Global,
    sections: &[Section<'_>],
    cell: &TurnCell<Turns>,
    seat: &mut Seat<Turns>,
    link: &mut MemoryLink,
    clock: &mut CrowdedClock<'_, W>,
    lines: &mut Lines,
)
    requires { IsSeatOf cell.now seat.old }
{
    for section in sections {
        match section.word {
            "joins" => join(rt, alloc, section.name, cell, seat),
            "actor" => call(
                rt,
                alloc,
                sections,
                section.name,
                cell,
                seat,
                link,
                clock,
                lines,
            ),
            _ => {}
        }
    }
}
