// A case, played and compared.
ghost use Rattle.turn_cell.specs.Sitting.{IsSeatOf};

use crate::actors::actors;
use crate::calls::{calls, common_to};
use crate::crowded_clock::CrowdedClock;
use actor_turns::Turns;
use breaker_core::Breaker;
use case_text::{Lines, Piece, Player, Section, joined_text, name_in, sections};
use case_world::{World, add_asked, add_clock, breaker_in, let_another_out};
use policy_run::{BreakerAt, NoBreaker};
use std::alloc::Global;
use std::sync::Wait;
use turn_cell::{Seat, TurnCell};

// The calls without a breaker.
fn unguarded<W: Wait>(
    rt: &W,
    alloc: Global,
    sections: &[Section<'_>],
    world: &mut World,
    lines: &mut Lines,
) {
    let common = common_to(alloc, sections, None);
    calls(rt, alloc, &common, sections, &mut NoBreaker, world, lines);
}

// The calls by a breaker's seat.
fn guarded<W: Wait>(
    rt: &W,
    alloc: Global,
    sections: &[Section<'_>],
    cell: &TurnCell<Breaker>,
    seat: &mut Seat<Breaker>,
    world: &mut World,
    lines: &mut Lines,
)
    requires { IsSeatOf cell.now seat.old }
{
    let common = common_to(alloc, sections, Some(0));
    let_another_out(rt, sections, cell, seat);
    let mut guard = BreakerAt { cell, seat };
    calls(rt, alloc, &common, sections, &mut guard, world, lines);
}

fn play_calls<W: Wait>(
    rt: &W,
    alloc: Global,
    sections: &[Section<'_>],
    world: &mut World,
    lines: &mut Lines,
) {
    match breaker_in(sections) {
        Some(policy) => match TurnCell::start(alloc, Breaker::new(&policy)) {
            Ok((cell, mut seat)) => guarded(rt, alloc, sections, &cell, &mut seat, world, lines),
            Err(_) => lines.lack(),
        },
        None => unguarded(rt, alloc, sections, world, lines),
    }
}

// All that came of a case of apps and bindings.
fn came<W: Wait>(rt: &W, alloc: Global, sections: &[Section<'_>], lines: &mut Lines) {
    let mut world = World::new(alloc, sections);
    play_calls(rt, alloc, sections, &mut world, lines);
    add_asked(lines, &world.link);
    add_clock(lines, &mut world.clock);
}

// The calls of actors by a seat of their cell; the others in their lines have a seat of their own.
fn among_others<W: Wait>(
    rt: &W,
    alloc: Global,
    sections: &[Section<'_>],
    cell: &TurnCell<Turns>,
    seat: &mut Seat<Turns>,
    others: Seat<Turns>,
    lines: &mut Lines,
)
    requires seat { IsSeatOf cell.now seat.old }
    requires others { IsSeatOf cell.now others }
{
    let World {
        mut link,
        clock,
        ..
    } = World::new(alloc, sections);
    let mut clock = CrowdedClock {
        rt,
        clock,
        cell,
        seat: others,
        sections,
        pauses: 0,
    };
    actors(
        rt, alloc, sections, cell, seat, &mut link, &mut clock, lines,
    );
    add_asked(lines, &link);
    add_clock(lines, &mut clock.clock);
}

// All that came of a case of actors.
fn came_of_actors<W: Wait>(rt: &W, alloc: Global, sections: &[Section<'_>], lines: &mut Lines) {
    match TurnCell::start(alloc, Turns::new(alloc)) {
        Ok((cell, mut seat)) => {
            let others = cell.split(&mut seat);
            among_others(rt, alloc, sections, &cell, &mut seat, others, lines);
        }
        Err(_) => lines.lack(),
    }
}

fn judge<W: Wait>(rt: &W, alloc: Global, sections: &[Section<'_>], lines: &mut Lines) {
    let mut got = Lines::new(alloc);
    if name_in(sections, "actor").is_some() {
        came_of_actors(rt, alloc, sections, &mut got);
    } else {
        came(rt, alloc, sections, &mut got);
    }
    let wanted = joined_text(alloc, sections, "comes");
    lines.compare("comes", wanted.bytes(), got.as_str().as_bytes());
}

/// The cases of calls; a breaker's cell is called for some, which may wait.
#[derive(Drop)]
pub(crate) struct Cases<'a, W> {
    pub(crate) rt: &'a W,
}

impl<W: Wait> Player for Cases<'_, W> {
    fn play(&self, alloc: Global, case: &Piece<'_>, lines: &mut Lines) {
        match sections(alloc, case) {
            Ok(sections) => judge(self.rt, alloc, &sections, lines),
            Err(_) => lines.lack(),
        }
    }
}
