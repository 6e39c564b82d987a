ghost use Rattle.turn_cell.specs.Sitting.{IsSeatOf};

use actor_turns::{Turns, TurnsCmd};
use case_text::{Section, first_word};
use case_world::number;
use side_base::Moment;
use side_memory::MemoryClock;
use side_world::Clock;
use std::sync::Wait;
use turn_cell::{Seat, TurnCell};

// A ticket is left, if this pause is the one that the words say: the ticket and the number of the pause.
fn leave<W: Wait>(rt: &W, words: &str, pause: u64, cell: &TurnCell<Turns>, seat: &mut Seat<Turns>)
    requires { IsSeatOf cell.now seat.old }
    ensures { IsSeatOf cell.now seat.new }
{
    let (ticket, when) = first_word(words);
    if number(when) == pause {
        let cmd = TurnsCmd::Leave {
            ticket: number(ticket),
        };
        let _ = cell.call(rt, seat, &cmd);
    }
}

// The tickets are left that a case says of this pause.
fn leave_all<W: Wait>(
    rt: &W,
    sections: &[Section<'_>],
    pause: u64,
    cell: &TurnCell<Turns>,
    seat: &mut Seat<Turns>,
)
    requires { IsSeatOf cell.now seat.old }
    ensures { IsSeatOf cell.now seat.new }
{
    for section in sections {
        if section.word == "leaves" {
            leave(rt, section.name, pause, cell, seat);
        }
    }
}

/// A clock in whose pauses others leave their tickets, as a case says.
#[derive(Drop)]
pub(crate) struct CrowdedClock<'a, W> {
    pub(crate) rt: &'a W,
    pub(crate) clock: MemoryClock,
    pub(crate) cell: &'a TurnCell<Turns>,
    /// The seat of the others.
    pub(crate) seat: Seat<Turns>,
    pub(crate) sections: &'a [Section<'a>],
    /// How many pauses were made.
    pub(crate) pauses: u64,
    ghost seated: { IsSeatOf cell.now seat },
}

impl<W: Wait> Clock for CrowdedClock<'_, W> {
    ghost last = { λ crowded. crowded.clock.last };

    ghost paused = { λ crowded. crowded.clock.paused };

    ghost ticks = { λ crowded. crowded.clock.ticks };

    fn now(&mut self) -> Moment {
        self.clock.now()
    }

    fn pause(&mut self, ms: u64) {
        self.clock.pause(ms);
        self.pauses = self.pauses.saturating_add(1);
        leave_all(
            self.rt,
            self.sections,
            self.pauses,
            self.cell,
            &mut self.seat,
        );
    }
}
