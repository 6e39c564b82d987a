//! A ledger for one subscription, and commands to it, one after the other.
ghost use Rattle.ledger_core.specs.Aims.{IsGiven};

use crate::messages::{Held, settling, taking};
use ledger_core::{Ledger, LedgerCmd, LedgerReply, Plan, Plans};
use side_base::NoMemory;
use std::alloc::Global;
use std::marker::Model;
use turn_cell::Object;

/// A ledger for one subscription, to which some history leads.
#[derive(Drop)]
pub(crate) struct Queue {
    ledger: Ledger,
}

impl Model for Queue {
    ghost use Rattle.ledger_core.specs.Ledger.{IsReached};

    ghost Value = { Unit {0} };

    ghost view = { λ _. tt };

    ghost invariant = { λ queue. IsReached 1 queue.ledger };
}

/// What is read of a reply.
#[derive(Clone, Copy)]
enum Answer {
    Accepted,
    Taken(Held),
    Done,
    Other,
}

fn answer_of(reply: &LedgerReply) -> Answer {
    match reply {
        LedgerReply::Accepted { .. } => Answer::Accepted,
        LedgerReply::Taken { no, sub, claim, .. } => Answer::Taken(Held {
            no: *no,
            sub: *sub,
            claim: *claim,
        }),
        LedgerReply::Done => Answer::Done,
        _ => Answer::Other,
    }
}

impl Queue {
    /// A ledger to which nothing was said.
    pub(crate) fn new(alloc: Global) -> Result<Queue, NoMemory> {
        let mut plans = Plans::new(alloc);
        plans.push(Plan {
            retry: None,
            dead: false,
        })?;
        let ledger = Ledger::new(alloc, plans);
        Ok(Queue { ledger })
    }

    /// What the ledger answers. One that was asked 2^62 times is asked no more.
    fn ask(&mut self, cmd: &LedgerCmd) -> Answer
        requires { IsGiven 1 cmd.now }
    {
        if self.ledger.used() >= 1 << 62 {
            return Answer::Other;
        }
        let reply = self.ledger.apply(cmd);
        let answer = answer_of(&reply);
        drop(reply);
        answer
    }

    /// The same of a command that is given once.
    fn ask_once(&mut self, cmd: LedgerCmd) -> Answer
        requires { IsGiven 1 cmd }
    {
        let answer = self.ask(&cmd);
        drop(cmd);
        answer
    }

    /// Whether the ledger accepts a message.
    pub(crate) fn accepts(&mut self, message: &LedgerCmd) -> bool
        requires { IsGiven 1 message.now }
    {
        matches!(self.ask(message), Answer::Accepted)
    }

    /// Takes the first row and settles it; whether that is done.
    pub(crate) fn delivers(&mut self, alloc: Global) -> bool {
        match self.ask_once(taking()) {
            Answer::Taken(held) => { matches!(self.ask_once(settling(alloc, held)), Answer::Done) }
            _ => false,
        }
    }
}
