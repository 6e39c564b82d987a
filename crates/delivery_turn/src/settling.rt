//! A row that was taken is settled.
ghost use Rattle.std.specs.Prelude.{◌≡◌, ◌⊎◌, ℕ, Some, length};
ghost use Rattle.turn_cell.specs.Sitting.{IsSeatOf};
ghost use Rattle.ledger_core.specs.declared.command.LedgerCmd.TheVariants.{Settle};
ghost use Rattle.ledger_core.specs.Ledger.{plans_of};
ghost use Rattle.policy_run.specs.Effects.{clocked};
ghost use Rattle.delivery_turn.specs.declared.ending.Turn.TheVariants as ended;
ghost use Rattle.delivery_turn.specs.declared.settling.Early.TheVariants as early;
ghost use Rattle.delivery_turn.specs.Settling.{postponed};
ghost use Rattle.delivery_turn.specs.Stepping.{AsksLedger};
ghost use Rattle.delivery_turn.specs.Turning.{AreSettlingAims, IsWithinYears, SettlesSo, delivered, early_of, settle_by, turn_by};

use crate::Turn;
use crate::row::Row;
use crate::stepping::step;
use ledger_core::{Aims, Finish, Ledger, LedgerCmd, LedgerReply};
use policy_run::Refusal;
use side_base::{Moment, Sequence};
use side_world::Clock;
use std::alloc::Global;
use std::sync::Wait;
use turn_cell::{Exhausted, Object, Seat, TurnCell};

/// How long a delivery waits that a half-open breaker refused, in milliseconds.
const CROWDED_MS: u64 = 1000;

/// Why a turn ends before its row is settled by what was heard.
#[derive(Clone, Copy, Debug)]
pub(crate) enum Early {
    /// There was no memory.
    Held,
    /// The breaker's cell has no ticket left.
    Exhausted { count: u64 },
}

/// How a row is settled.
#[derive(Debug, Drop)]
pub(crate) enum Settling {
    /// By what was heard of the app.
    Concluded {
        finish: Finish,
        word: u64,
        dead_aims: Aims,
    },
    /// The breaker did not let it through.
    Postponed(Refusal),
    /// It is due again at once.
    LetGo(Early),
}

/// Settles a row, at the moment.
pub(crate) fn settle<C: Clock, W: Wait>(
    rt: &W,
    alloc: Global,
    cell: &TurnCell<Ledger>,
    seat: &mut Seat<Ledger>,
    clock: &mut C,
    row: &Row,
    settling: Settling,
) -> Turn
    requires seat { IsSeatOf cell.now seat.old }
    requires given { AreSettlingAims (length (plans_of cell.now.first)) settling }
    requires until { IsWithinYears settling }
    ensures settles { AsksLedger ⟦<Ledger as Object>⟧ cell.now seat.old seat.new (clocked C.Clock clock.old) (clocked C.Clock clock.new) (SettlesSo row.now settling result) }
    ensures shows { (count : ℕ) → result ≡ ended.Exhausted count → (early_of settling ≡ Some (early.Exhausted count)) ⊎ (seat.new.count ≡ Some count) }
{
    let early = early_of(&settling);
    let now = clock.now();
    let cmd = command_of(alloc, row, settling, now);
    match step(rt, cell, seat, &cmd) {
        Ok(reply) => turn_by(row, early, reply),
        Err(Exhausted { count }) => Turn::Exhausted { count },
    }
}

/// Why the turn ends early, if it does.
fn early_of(settling: &Settling) -> Option<Early>
    ensures { result ≡ early_of settling.now }
{
    match settling {
        Settling::Concluded { .. } => None,
        Settling::Postponed(_) => None,
        Settling::LetGo(early) => Some(*early),
    }
}

/// The command that settles a row at a moment.
fn command_of(alloc: Global, row: &Row, settling: Settling, now: Moment) -> LedgerCmd
    requires { IsWithinYears settling }
    ensures { result ≡ settle_by row.now settling now }
{
    match settling {
        Settling::Concluded {
            finish,
            word,
            dead_aims,
        } => command(row, finish, now, word, dead_aims),
        Settling::Postponed(refusal) => {
            command(row, postponed(refusal, now), now, 0, Sequence::new(alloc))
        }
        Settling::LetGo(_) => command(
            row,
            Finish::Later { at: now.ms() },
            now,
            0,
            Sequence::new(alloc),
        ),
    }
}

fn command(row: &Row, finish: Finish, now: Moment, word: u64, dead_aims: Aims) -> LedgerCmd
    ensures { result ≡ Settle row.now.no row.now.sub row.now.claim finish now word dead_aims }
{
    LedgerCmd::Settle {
        no: row.no,
        sub: row.sub,
        claim: row.claim,
        finish,
        now,
        word,
        dead_aims,
    }
}

/// When a delivery is due again that the breaker refused: one past the moment up to which it is open, or 1,000 ms later.
fn postponed(refusal: Refusal, now: Moment) -> Finish
    requires { IsWithinYears (Settling.Postponed refusal) }
    ensures { result ≡ postponed refusal now }
{
    match refusal {
        Refusal::Opened { until } => Finish::Later { at: until + 1 },
        Refusal::TooMany { .. } => Finish::Later {
            at: now.ms() + CROWDED_MS,
        },
    }
}

/// What the turn comes to, by the ledger's reply.
fn turn_by(row: &Row, early: Option<Early>, reply: LedgerReply) -> Turn
    ensures { result ≡ turn_by row.now early reply }
{
    match early {
        Some(Early::Held) => Turn::Held,
        Some(Early::Exhausted { count }) => Turn::Exhausted { count },
        None => delivered(row, reply),
    }
}

fn delivered(row: &Row, reply: LedgerReply) -> Turn
    ensures { result ≡ delivered row.now reply }
{
    match reply {
        LedgerReply::NoMemory => Turn::Held,
        settled => Turn::Delivered {
            no: row.no,
            sub: row.sub,
            settled,
        },
    }
}
