// A history of the ticks of bindings, played step by step.
ghost use Rattle.std.specs.Prelude.{◌≡◌, ◌<◌, ◌≤◌, ◌+◌, ◌^◌, All, length};
ghost use Rattle.turn_cell.specs.Sitting.{IsSeatOf};
ghost use Rattle.turn_cell.specs.Growth.{Stays};
ghost use Rattle.cron_ticks.specs.Schedule.{IsPeriod};

use crate::words::{moment, number};
use case_text::{Lines, Section, first_word, text_of};
use cron_ticks::{Periods, Ticks, TicksCmd, TicksReply};
use side_base::Text;
use std::alloc::Global;
use std::sync::Wait;
use turn_cell::{Object, Seat, TurnCell};

/// How many bindings a case has at most.
const BINDINGS: usize = 1000;

// Adds a period, if it is one.
fn add_period(periods: &mut Periods, period: u64)
    requires each { All IsPeriod periods.old }
    ensures each { All IsPeriod periods.new }
    ensures few { length periods.new ≤ length periods.old + 1 }
{
    if period < 1000 || period > 31_536_000_000 {
        return;
    }
    let _ = periods.push(period);
}

// The periods that the words say.
fn periods_of(alloc: Global, words: &str) -> Periods
    ensures each { All IsPeriod result }
    ensures few { length result < 2 ^ 32 }
{
    let mut periods = Periods::new(alloc);
    for word in words.split(' ') {
        if periods.len() >= BINDINGS {
            return Periods::new(alloc);
        }
        add_period(&mut periods, number(word));
    }
    periods
}

fn reply_text(alloc: Global, reply: &TicksReply) -> Text {
    let mut lines = Lines::new(alloc);
    match *reply {
        TicksReply::Tick { place, number, due } => {
            lines.add_number("place ", u64::from(place));
            lines.add_number(" number ", number);
            lines.add_number_line(" due ", due);
        }
        TicksReply::Idle { next: Some(next) } => lines.add_number_line("idle until ", next),
        TicksReply::Idle { next: None } => lines.add("idle\n"),
    }
    lines.into_text()
}

fn told<W: Wait>(
    rt: &W,
    alloc: Global,
    cell: &TurnCell<Ticks>,
    seat: &mut Seat<Ticks>,
    cmd: &TicksCmd,
) -> Text
    requires { IsSeatOf cell.now seat.old }
    ensures same { IsSeatOf cell.now seat.new }
    ensures stays { Stays seat.old seat.new }
{
    match cell.call(rt, seat, cmd) {
        Ok(reply) => reply_text(alloc, &reply),
        Err(_) => Text::from_static(alloc, "exhausted\n"),
    }
}

// What is asked so many times; what it comes to the last time is told.
fn told_last<W: Wait>(
    rt: &W,
    alloc: Global,
    cell: &TurnCell<Ticks>,
    seat: &mut Seat<Ticks>,
    cmd: &TicksCmd,
    times: u64,
) -> Text
    requires { IsSeatOf cell.now seat.old }
    ensures same { IsSeatOf cell.now seat.new }
    ensures stays { Stays seat.old seat.new }
{
    for _ in 1..times {
        let _ = cell.call(rt, seat, cmd);
    }
    told(rt, alloc, cell, seat, cmd)
}

fn step<W: Wait>(
    rt: &W,
    alloc: Global,
    cell: &TurnCell<Ticks>,
    seat: &mut Seat<Ticks>,
    section: &Section<'_>,
    lines: &mut Lines,
)
    requires { IsSeatOf cell.now seat.old }
    ensures same { IsSeatOf cell.now seat.new }
    ensures stays { Stays seat.old seat.new }
{
    if section.word != "take" {
        return;
    }
    let (now, times) = first_word(section.name);
    let cmd = TicksCmd::Take { now: moment(now) };
    let told = told_last(rt, alloc, cell, seat, &cmd, number(times));
    lines.compare(section.word, text_of(alloc, section).bytes(), told.bytes());
}

// Plays the steps of a case over its ticks, in a cell.
fn play_steps<W: Wait>(
    rt: &W,
    alloc: Global,
    ticks: Ticks,
    sections: &[Section<'_>],
    lines: &mut Lines,
)
    requires { ⟦<Ticks as Object>⟧.used ticks ≡ 0 }
{
    match TurnCell::start(alloc, ticks) {
        Ok((cell, mut seat)) => {
            for section in sections {
                step(rt, alloc, &cell, &mut seat, section, lines);
            }
        }
        Err(_) => lines.add("no memory\n"),
    }
}

/// Plays a case over ticks of its own: its first section says the start and the periods.
pub(crate) fn play_ticks<W: Wait>(
    rt: &W,
    alloc: Global,
    sections: &[Section<'_>],
    lines: &mut Lines,
) {
    if let Some(first) = sections.first() {
        let (start, periods) = first_word(first.name);
        let ticks = Ticks::new(periods_of(alloc, periods), moment(start));
        play_steps(rt, alloc, ticks, sections, lines);
    }
}
