ghost use Rattle.std.specs.Prelude.{◌≡◌, length};
ghost use Rattle.ledger_core.specs.Aims.{IsGiven};
ghost use Rattle.ledger_core.specs.Books.{AreSorted, HasRoom, IsBounded};
ghost use Rattle.ledger_core.specs.Empty.{AreEmpty};
ghost use Rattle.ledger_core.specs.After.{Answers, Grows};

use crate::accepting::accept;
use crate::books::Books;
use crate::place::Place;
use crate::plan::PlanTable;
use crate::settling::{Failure, settle};
use crate::taking::take;
use crate::{LedgerCmd, LedgerReply, Plans};
use std::alloc::Global;
use turn_cell::Object;

/// What is owed to subscriptions. Each command is one step of its history.
///
/// `Take` that finds no row, `Settle` but to a dead-letter topic, and `Counts` take no memory.
#[derive(Drop)]
pub struct Ledger {
    alloc: Global,
    pub(crate) plans: PlanTable,
    pub(crate) books: Books,
    pub(crate) used: u64,
    ghost bounded: { IsBounded used books },
    ghost sorted: { AreSorted books },
    ghost fresh: { used ≡ 0 → AreEmpty books },
}

impl Ledger {
    ghost use Rattle.std.specs.Prelude.{◌≡◌};
    ghost use Rattle.ledger_core.specs.Plan.{AreWithinLimit};
    ghost use Rattle.ledger_core.specs.Ledger.{plans_of};

    /// A ledger to which nothing was said, for subscriptions with these plans, whose milliseconds are those of a duration. Takes
    /// no memory.
    pub fn new(alloc: Global, plans: Plans) -> Ledger
        requires { AreWithinLimit plans }
        ensures plans { plans_of result ≡ plans }
        ensures unused { ⟦<Ledger as Object>⟧.used result ≡ 0 }
    {
        Ledger {
            alloc,
            plans: PlanTable::new(plans),
            books: Books::new(),
            used: 0,
        }
    }
}

impl Object for Ledger {
    ghost use Rattle.std.specs.Prelude.{◌≡◌, length};
    ghost use Rattle.ledger_core.specs.Aims.{IsGiven};
    ghost use Rattle.ledger_core.specs.Ledger.{IsStep, Stands, opens, plans_of};

    type Cmd = LedgerCmd;

    type Reply = LedgerReply;

    ghost takes = { λ first cmd. IsGiven (length (plans_of first)) cmd };

    ghost steps = { λ first history entry. IsStep (plans_of first) history entry };

    ghost stands = { Stands };

    ghost used = { λ ledger. ledger.used };

    ghost mark = { λ _. 0 };

    fn apply(&mut self, cmd: &LedgerCmd) -> LedgerReply {
        let reply = answered(self.alloc, &self.plans, &mut self.books, cmd);
        self.used += 1;
        reply
    }

    fn used(&self) -> u64 {
        self.used
    }

    ghost opens = { opens };

    ghost counts = { λ first history ledger stands. stands.used };
}

/// The reply to a command.
fn answered(alloc: Global, plans: &PlanTable, books: &mut Books, cmd: &LedgerCmd) -> LedgerReply
    requires room { HasRoom books.old }
    requires sorted { AreSorted books.old }
    requires given { IsGiven (length plans.now) cmd.now }
    ensures grown { Grows books.old books.new }
    ensures step { Answers plans.now books.old books.new cmd.now result }
{
    match cmd {
        LedgerCmd::Accept { event, aims, now } => {
            accept(alloc, plans, books, event, aims, now.ms())
        }
        LedgerCmd::Take { now } => take(books, now.ms()),
        LedgerCmd::Settle {
            no,
            sub,
            claim,
            finish,
            now,
            word,
            dead_aims,
        } => {
            let place = Place {
                at: *claim,
                no: *no,
                sub: *sub,
            };
            let failure = Failure {
                moment: now.ms(),
                word: *word,
                dead_aims,
            };
            settle(alloc, plans, books, &place, *finish, &failure)
        }
        LedgerCmd::Counts => LedgerReply::Counts {
            owed: books.owed,
            done: books.done,
            dropped: books.dropped,
            dead: books.dead,
        },
    }
}
