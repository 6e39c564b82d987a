// A history of the turns of actors, played step by step.
ghost use Rattle.turn_cell.specs.Sitting.{IsSeatOf};
ghost use Rattle.turn_cell.specs.Growth.{Stays};

use crate::words::{number, text};
use actor_turns::{Turns, TurnsCmd, TurnsReply};
use case_text::{Lines, Section, first_word, text_of};
use side_base::Text;
use std::alloc::Global;
use std::sync::Wait;
use turn_cell::{Object, Seat, TurnCell};

fn cmd_of(alloc: Global, word: &str, words: &str) -> Option<TurnsCmd> {
    match word {
        "join" => Some(TurnsCmd::Join {
            actor: text(alloc, words),
        }),
        "look" => Some(TurnsCmd::Look {
            ticket: number(words),
        }),
        "leave" => Some(TurnsCmd::Leave {
            ticket: number(words),
        }),
        _ => None,
    }
}

fn reply_text(alloc: Global, reply: &TurnsReply) -> Text {
    let mut lines = Lines::new(alloc);
    match reply {
        TurnsReply::Joined { ticket } => lines.add_number_line("joined with ", *ticket),
        TurnsReply::Full { waiting } => lines.add_number_line("full with ", *waiting),
        TurnsReply::NoMemory => lines.add("no memory\n"),
        TurnsReply::Yours => lines.add("yours\n"),
        TurnsReply::Behind { ahead } => lines.add_number_line("behind ", *ahead),
        TurnsReply::Left => lines.add("left\n"),
        TurnsReply::NotOpen => lines.add("not open\n"),
    }
    lines.into_text()
}

fn told<W: Wait>(
    rt: &W,
    alloc: Global,
    cell: &TurnCell<Turns>,
    seat: &mut Seat<Turns>,
    cmd: &TurnsCmd,
) -> Text
    requires { IsSeatOf cell.now seat.old }
    ensures same { IsSeatOf cell.now seat.new }
    ensures stays { Stays seat.old seat.new }
{
    match cell.call(rt, seat, cmd) {
        Ok(reply) => reply_text(alloc, &reply),
        Err(_) => Text::from_static(alloc, "exhausted\n"),
    }
}

// What a section asks, so many times; what it comes to the last time is told.
fn told_last<W: Wait>(
    rt: &W,
    alloc: Global,
    cell: &TurnCell<Turns>,
    seat: &mut Seat<Turns>,
    cmd: &TurnsCmd,
    times: u64,
) -> Text
    requires { IsSeatOf cell.now seat.old }
    ensures same { IsSeatOf cell.now seat.new }
    ensures stays { Stays seat.old seat.new }
{
    for _ in 1..times {
        let _ = cell.call(rt, seat, cmd);
    }
    told(rt, alloc, cell, seat, cmd)
}

fn step<W: Wait>(
    rt: &W,
    alloc: Global,
    cell: &TurnCell<Turns>,
    seat: &mut Seat<Turns>,
    section: &Section<'_>,
    lines: &mut Lines,
)
    requires { IsSeatOf cell.now seat.old }
    ensures same { IsSeatOf cell.now seat.new }
    ensures stays { Stays seat.old seat.new }
{
    let (words, times) = first_word(section.name);
    match cmd_of(alloc, section.word, words) {
        Some(cmd) => {
            let told = told_last(rt, alloc, cell, seat, &cmd, number(times));
            lines.compare(section.word, text_of(alloc, section).bytes(), told.bytes());
        }
        None => {}
    }
}

/// Plays the steps of a case over turns of its own, in a cell.
pub(crate) fn play_turns<W: Wait>(
    rt: &W,
    alloc: Global,
    sections: &[Section<'_>],
    lines: &mut Lines,
) {
    match TurnCell::start(alloc, Turns::new(alloc)) {
        Ok((cell, mut seat)) => {
            for section in sections {
                step(rt, alloc, &cell, &mut seat, section, lines);
            }
        }
        Err(_) => lines.add("no memory\n"),
    }
}
