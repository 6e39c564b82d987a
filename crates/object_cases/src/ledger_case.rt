// A ledger's history, played step by step.
ghost use Rattle.std.specs.Prelude.{◌<◌, ◌^◌, length, IsTrue};
ghost use Rattle.ledger_core.specs.Aims.{IsGiven};
ghost use Rattle.ledger_core.specs.Plan.{AreWithinLimit};
ghost use Rattle.ledger_core.specs.Ledger.{IsReached};

use crate::aimed::is_given;
use crate::ledger_text::reply_text;
use crate::ledger_words::{cmd_of, plans_of};
use crate::words::{first_moment, moment_behind, number};
use case_text::{Lines, Section, first_word, name_in, text_of};
use ledger_core::{Ledger, LedgerCmd, LedgerReply, Plans};
use side_base::{Moment, Text};
use std::alloc::Global;
use turn_cell::Object;

// A ledger to which nothing was said.
fn fresh(alloc: Global, plans: Plans) -> Ledger
    requires { AreWithinLimit plans }
    ensures { IsReached (length plans) result }
{
    Ledger::new(alloc, plans)
}

// Whether a ledger for so many subscriptions may be given a command.
fn may_be_given(ledger: &Ledger, plans: usize, cmd: &LedgerCmd) -> bool
    ensures given { IsTrue result → IsGiven plans cmd.now }
    ensures room { IsTrue result → ⟦<Ledger as Object>⟧.used ledger.now < 2 ^ 62 }
{
    is_given(cmd, plans) && ledger.used() < 1 << 62
}

// Gives a ledger for so many subscriptions a command that it may be given.
fn applied(ledger: &mut Ledger, plans: usize, cmd: &LedgerCmd) -> LedgerReply
    requires reached { IsReached plans ledger.old }
    requires given { IsGiven plans cmd.now }
    requires room { ⟦<Ledger as Object>⟧.used ledger.old < 2 ^ 62 }
    ensures { IsReached plans ledger.new }
{
    ledger.apply(cmd)
}

// What a ledger answers to a command.
fn asked(alloc: Global, ledger: &mut Ledger, plans: usize, cmd: &LedgerCmd) -> Text
    requires { IsReached plans ledger.old }
    ensures { IsReached plans ledger.new }
{
    if !may_be_given(ledger, plans, cmd) {
        return Text::from_static(alloc, "not given\n");
    }
    let reply = applied(ledger, plans, cmd);
    reply_text(alloc, &reply)
}

// What a ledger answers to the last of so many times the same command.
fn asked_often(
    alloc: Global,
    ledger: &mut Ledger,
    plans: usize,
    cmd: &LedgerCmd,
    times: u64,
) -> Text
    requires { IsReached plans ledger.old }
    ensures { IsReached plans ledger.new }
{
    for _ in 1..times {
        let _ = asked(alloc, ledger, plans, cmd);
    }
    asked(alloc, ledger, plans, cmd)
}

// How often a section's command is given, and the words that say it.
fn times_in<'a>(section: &Section<'a>) -> (u64, &'a str) {
    if section.word == "accept-often" {
        let (times, words) = first_word(section.name);
        (number(times), words)
    } else {
        (1, section.name)
    }
}

// What a section's step comes to.
fn step(
    alloc: Global,
    ledger: &mut Ledger,
    plans: usize,
    section: &Section<'_>,
    now: Moment,
) -> Text
    requires { IsReached plans ledger.old }
    ensures { IsReached plans ledger.new }
{
    let (times, words) = times_in(section);
    match cmd_of(alloc, section.word, words, now) {
        Some(cmd) => asked_often(alloc, ledger, plans, &cmd, times),
        None => Text::from_static(alloc, "no such step\n"),
    }
}

fn is_step(word: &str) -> bool {
    word != "ledger" && word != "at"
}

// Plays a section, if it is a step, and compares.
fn turn(
    alloc: Global,
    ledger: &mut Ledger,
    plans: usize,
    section: &Section<'_>,
    now: Moment,
    lines: &mut Lines,
)
    requires { IsReached plans ledger.old }
    ensures { IsReached plans ledger.new }
{
    if is_step(section.word) {
        let told = step(alloc, ledger, plans, section, now);
        lines.compare(section.word, text_of(alloc, section).bytes(), told.bytes());
    }
}

// Plays the steps of a case over a ledger. `at` sets the moment of those that follow.
fn steps(
    alloc: Global,
    ledger: &mut Ledger,
    plans: usize,
    sections: &[Section<'_>],
    lines: &mut Lines,
)
    requires { IsReached plans ledger.old }
{
    let mut now = first_moment();
    for section in sections {
        now = moment_behind(section, now);
        turn(alloc, ledger, plans, section, now, lines);
    }
}

// A ledger may go from thread to thread, as a cell's object does.
fn may_be_sent<T: Send>(_value: &T) {}

/// Plays the steps of a case over a ledger of its own.
pub(crate) fn play_ledger(alloc: Global, sections: &[Section<'_>], lines: &mut Lines) {
    let plans = plans_of(alloc, name_in(sections, "ledger").unwrap_or(""));
    let len = plans.len();
    let mut ledger = fresh(alloc, plans);
    may_be_sent(&ledger);
    steps(alloc, &mut ledger, len, sections, lines);
}
