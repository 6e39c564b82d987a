//! The commands to a ledger that are measured, all of the first moment of 1970.
ghost use Rattle.std.specs.Prelude.{IfOk};
ghost use Rattle.ledger_core.specs.Aims.{AreAims, IsGiven};

use ledger_core::{Aim, Aims, Finish, LedgerCmd};
use side_base::{Blob, Moment, NoMemory, Text};
use std::alloc::Global;

const EVENT: &[u8] =
    b"{\"specversion\":\"1.0\",\"id\":\"5\",\"source\":\"shop\",\"type\":\"order\",\"data\":{\"amount\":12.50}}";

/// A delivery that was taken.
#[derive(Clone, Copy)]
pub(crate) struct Held {
    pub(crate) no: u64,
    pub(crate) sub: u32,
    pub(crate) claim: u64,
}

fn now() -> Moment {
    match Moment::at(0) {
        Some(now) => now,
        None => unreachable!(),
    }
}

/// The one subscription, with a path.
fn aims(alloc: Global) -> Result<Aims, NoMemory>
    ensures { IfOk result (AreAims 1) }
{
    let path = Text::from_str(alloc, "/orders")?;
    let mut aims = Aims::new(alloc);
    aims.push(Aim {
        sub: 0,
        path: Some(path),
    })?;
    Ok(aims)
}

/// A message for the one subscription.
pub(crate) fn message(alloc: Global) -> Result<LedgerCmd, NoMemory>
    ensures { IfOk result (IsGiven 1) }
{
    let event = Blob::from_bytes(alloc, EVENT)?;
    Ok(LedgerCmd::Accept {
        event,
        aims: aims(alloc)?,
        now: now(),
    })
}

/// Somebody is ready to make a delivery.
pub(crate) fn taking() -> LedgerCmd
    ensures { IsGiven 1 result }
{
    LedgerCmd::Take { now: now() }
}

/// A delivery was made.
pub(crate) fn settling(alloc: Global, held: Held) -> LedgerCmd
    ensures { IsGiven 1 result }
{
    LedgerCmd::Settle {
        no: held.no,
        sub: held.sub,
        claim: held.claim,
        finish: Finish::Success,
        now: now(),
        word: 0,
        dead_aims: Aims::new(alloc),
    }
}
