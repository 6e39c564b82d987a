//! Accepting an event.
ghost use Rattle.std.specs.Prelude.{◌≡◌, ◌<◌, ◌^◌, length, IfOk};
ghost use Rattle.std.specs.List.{All};
ghost use Rattle.ledger_core.specs.Rows.{entries_in};
ghost use Rattle.ledger_core.specs.Size.{new_drops};
ghost use Rattle.ledger_core.specs.Aims.{AreAims};
ghost use Rattle.ledger_core.specs.Books.{AreSorted, HasRoom};
ghost use Rattle.ledger_core.specs.declared.command.LedgerCmd.{LedgerCmd};
ghost use Rattle.ledger_core.specs.After.{Answers, Grows, entries_for, fresh};

use crate::books::Books;
use crate::plan::PlanTable;
use crate::rows::{NewRows, Origin, new_rows};
use crate::{Aims, LedgerReply};
use side_base::{Blob, NoMemory};
use std::alloc::Global;
use std::sync::Arc;

/// The reply to an `Accept` at a moment.
pub(crate) fn accept(
    alloc: Global,
    plans: &PlanTable,
    books: &mut Books,
    event: &Blob,
    aims: &Aims,
    now: u64,
) -> LedgerReply
    requires room { HasRoom books.old }
    requires sorted { AreSorted books.old }
    requires aims { AreAims (length plans.now) aims.now }
    ensures grown { Grows books.old books.new }
    ensures step { Answers plans.now books.old books.new (LedgerCmd.Accept event.now aims.now now) result }
{
    let size = books.size().with(event.bytes().len(), aims);
    if size.is_over() {
        return LedgerReply::Full {
            rows: size.rows,
            bytes: size.bytes,
        };
    }
    match first_rows(alloc, plans, books.made + 1, event, aims, now) {
        Ok(rows) => {
            books.add(rows, size);
            LedgerReply::Accepted { no: books.made }
        }
        Err(_) => LedgerReply::NoMemory,
    }
}

/// The rows of a message that was no dead letter.
fn first_rows(
    alloc: Global,
    plans: &PlanTable,
    no: u64,
    event: &Blob,
    aims: &Aims,
    due: u64,
) -> Result<NewRows, NoMemory>
    requires { All (λ aim. aim.sub < length plans.now) aims.now }
    ensures rows { IfOk result (λ rows. entries_in rows.nodes ≡ entries_for plans.now (fresh no event.now 0 due aims.now)) }
    ensures drops { IfOk result (λ rows. rows.drops ≡ new_drops aims.now) }
    ensures few { IfOk result (λ rows. rows.drops < 2 ^ 64) }
    ensures short { IfOk result (λ rows. length rows.nodes < 2 ^ 64) }
{
    let event = Arc::new(alloc, event.copy()?)?;
    let origin = Origin {
        no,
        event,
        hops: 0,
        due,
    };
    new_rows(alloc, plans, &origin, aims)
}
