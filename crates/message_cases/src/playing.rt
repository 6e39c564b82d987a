// A case, played and compared.
ghost use Rattle.turn_cell.specs.Sitting.{IsSeatOf};

use crate::broker::play_brokers;
use crate::given::common_to;
use crate::stepping::Scene;
use breaker_core::Breaker;
use case_text::{Lines, Piece, Player, Section, joined_text, name_in, sections};
use case_world::{
    World, add_answer, add_asked, add_asked_briefly, add_clock, breaker_in, let_another_out, text,
};
use link_call::given;
use policy_run::{BreakerAt, NoBreaker};
use pubsub_api::unknown_pubsub;
use std::alloc::Global;
use std::sync::Wait;
use turn_cell::{Seat, TurnCell};

// The deliveries without a breaker.
fn unguarded<W: Wait>(rt: &W, alloc: Global, sections: &[Section<'_>], scene: &mut Scene) {
    let common = common_to(alloc, sections, None, &mut scene.told);
    play_brokers(rt, &common, sections, &mut NoBreaker, scene);
}

// The deliveries by a breaker's seat.
fn guarded<W: Wait>(
    rt: &W,
    alloc: Global,
    sections: &[Section<'_>],
    cell: &TurnCell<Breaker>,
    seat: &mut Seat<Breaker>,
    scene: &mut Scene,
)
    requires { IsSeatOf cell.now seat.old }
{
    let common = common_to(alloc, sections, Some(0), &mut scene.told);
    let_another_out(rt, sections, cell, seat);
    let mut guard = BreakerAt { cell, seat };
    play_brokers(rt, &common, sections, &mut guard, scene);
}

fn play_case<W: Wait>(rt: &W, alloc: Global, sections: &[Section<'_>], scene: &mut Scene) {
    match breaker_in(sections) {
        Some(policy) => match TurnCell::start(alloc, Breaker::new(&policy)) {
            Ok((cell, mut seat)) => guarded(rt, alloc, sections, &cell, &mut seat, scene),
            Err(_) => scene.told.lack(),
        },
        None => unguarded(rt, alloc, sections, scene),
    }
}

// Adds the response where no broker has the name that a case asks for.
fn add_unknown(alloc: Global, sections: &[Section<'_>], lines: &mut Lines) {
    if let Some(name) = name_in(sections, "unknown") {
        add_answer(lines, &given(unknown_pubsub(alloc, &text(alloc, name))));
    }
}

// Adds what the link was asked, and where the clock stands.
fn add_world(sections: &[Section<'_>], scene: &mut Scene) {
    if name_in(sections, "brief").is_some() {
        add_asked_briefly(&mut scene.told, &scene.world.link);
    } else {
        add_asked(&mut scene.told, &scene.world.link);
    }
    add_clock(&mut scene.told, &mut scene.world.clock);
}

fn judge<W: Wait>(rt: &W, alloc: Global, sections: &[Section<'_>], lines: &mut Lines) {
    let mut scene = Scene {
        world: World::new(alloc, sections),
        told: Lines::new(alloc),
    };
    play_case(rt, alloc, sections, &mut scene);
    add_unknown(alloc, sections, &mut scene.told);
    add_world(sections, &mut scene);
    let wanted = joined_text(alloc, sections, "comes");
    lines.compare("comes", wanted.bytes(), scene.told.as_str().as_bytes());
}

/// The cases of messages; cells are called for them, which may wait.
#[derive(Drop)]
pub(crate) struct Cases<'a, W> {
    pub(crate) rt: &'a W,
}

impl<W: Wait> Player for Cases<'_, W> {
    fn play(&self, alloc: Global, case: &Piece<'_>, lines: &mut Lines) {
        match sections(alloc, case) {
            Ok(sections) => judge(self.rt, alloc, &sections, lines),
            Err(_) => lines.lack(),
        }
    }
}
