//! What is measured of ledgers, and written as lines of standard error.
ghost use Rattle.ledger_core.specs.Aims.{IsGiven};

use crate::clock::now;
use crate::line::{behind, tell};
use crate::messages::message;
use crate::queue::Queue;
use ledger_core::LedgerCmd;
use side_base::NoMemory;
use std::alloc::Global;
use std::io;
use std::rt::Clock;

/// How many messages are accepted, taken and settled.
const ROUNDS: u32 = 100_000;

/// How many of so many messages a ledger accepts.
fn fill(queue: &mut Queue, message: &LedgerCmd, rows: u32) -> u32
    requires { IsGiven 1 message.now }
{
    let mut owed: u32 = 0;
    for _ in 0..rows {
        owed = owed.wrapping_add(u32::from(queue.accepts(message)));
    }
    owed
}

/// Whether a message is accepted, and the first row is taken and done.
fn is_done(alloc: Global, queue: &mut Queue, message: &LedgerCmd) -> bool
    requires { IsGiven 1 message.now }
{
    let is_accepted = queue.accepts(message);
    queue.delivers(alloc) && is_accepted
}

/// In how many of so many rounds a message is accepted, and the first row is taken and done.
fn rounds(alloc: Global, queue: &mut Queue, message: &LedgerCmd, count: u32) -> u32
    requires { IsGiven 1 message.now }
{
    let mut good: u32 = 0;
    for _ in 0..count {
        good = good.wrapping_add(u32::from(is_done(alloc, queue, message)));
    }
    good
}

/// How many rows are owed, and what a message costs beside them, in nanoseconds, in so many rounds.
#[derive(Clone, Copy)]
struct Figures {
    owed: u32,
    cost: u64,
    good: u32,
}

/// The figures of a message, where so many are accepted before.
fn figures_in<R: Clock>(
    rt: &R,
    alloc: Global,
    queue: &mut Queue,
    message: &LedgerCmd,
    rows: u32,
) -> Figures
    requires { IsGiven 1 message.now }
{
    let owed = fill(queue, message, rows);
    let begin = now(rt);
    let good = rounds(alloc, queue, message, ROUNDS);
    let took = now(rt).saturating_sub(begin);
    Figures {
        owed,
        cost: took / u64::from(good.max(1)),
        good,
    }
}

/// The same in a ledger of its own.
fn figures_anew<R: Clock>(
    rt: &R,
    alloc: Global,
    message: &LedgerCmd,
    rows: u32,
) -> Result<Figures, NoMemory>
    requires { IsGiven 1 message.now }
{
    let mut queue = Queue::new(alloc)?;
    let figures = figures_in(rt, alloc, &mut queue, message, rows);
    drop(queue);
    Ok(figures)
}

/// What a message costs where so many rows are owed.
pub(crate) fn among<R: Clock + Eprint>(rt: &R, alloc: Global, rows: u32) -> io::Result<()> {
    let message = message(alloc)?;
    let figures = figures_anew(rt, alloc, &message, rows);
    drop(message);
    tell_figures(rt, figures?)
}

fn tell_figures<R: Eprint>(rt: &R, figures: Figures) -> io::Result<()> {
    let parts = [
        behind("", u64::from(figures.owed)),
        behind(
            " rows owed: to accept, take and settle a message takes ",
            figures.cost,
        ),
        behind(" ns, ", u64::from(figures.good)),
    ];
    tell(rt, &parts, " times")
}
