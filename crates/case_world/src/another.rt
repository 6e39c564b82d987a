//! A call of another caller, which the breaker of a case has let through.
ghost use Rattle.turn_cell.specs.Sitting.{IsSeatOf};

use crate::words::{moment, number_named};
use breaker_core::{Breaker, BreakerCmd};
use case_text::{Section, name_in};
use std::sync::Wait;
use turn_cell::{Seat, TurnCell};

fn ask<W: Wait>(rt: &W, cell: &TurnCell<Breaker>, seat: &mut Seat<Breaker>, cmd: BreakerCmd)
    requires { IsSeatOf cell.now seat.old }
    ensures { IsSeatOf cell.now seat.new }
{
    let _ = cell.call(rt, seat, &cmd);
}

// A call fails at the beginning of 1970, and one is let through at this moment, of which the breaker is not told.
fn another_is_out<W: Wait>(rt: &W, cell: &TurnCell<Breaker>, seat: &mut Seat<Breaker>, ms: u64)
    requires { IsSeatOf cell.now seat.old }
    ensures { IsSeatOf cell.now seat.new }
{
    let now = moment(0);
    ask(rt, cell, seat, BreakerCmd::Admit { now });
    let report = BreakerCmd::Report {
        generation: 0,
        now,
        good: false,
    };
    ask(rt, cell, seat, report);
    ask(rt, cell, seat, BreakerCmd::Admit { now: moment(ms) });
}

/// Where a case has a section `out MS`: another caller's call fails at the beginning of 1970, and one is let through at this moment, of which the breaker is not told.
pub fn let_another_out<W: Wait>(
    rt: &W,
    sections: &[Section<'_>],
    cell: &TurnCell<Breaker>,
    seat: &mut Seat<Breaker>,
)
    requires { IsSeatOf cell.now seat.old }
    ensures { IsSeatOf cell.now seat.new }
{
    if name_in(sections, "out").is_some() {
        another_is_out(rt, cell, seat, number_named(sections, "out"));
    }
}
