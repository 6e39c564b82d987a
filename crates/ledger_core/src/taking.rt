//! Taking a row.
ghost use Rattle.std.specs.Prelude.{◌≡◌, List, IfOk};
ghost use Rattle.std.specs.Arc.{arc_value};
ghost use Rattle.ledger_core.specs.Books.{AreSorted, HasRoom};
ghost use Rattle.ledger_core.specs.declared.command.LedgerCmd.{LedgerCmd};
ghost use Rattle.ledger_core.specs.After.{Answers, Grows};
ghost use Rattle.ledger_core.specs.declared.plan.Plan.{Plan};

use crate::LedgerReply;
use crate::books::Books;
use crate::placing::first;
use crate::tree::StoredRow;
use side_base::{Blob, NoMemory, Text};

/// The reply to a `Take` at a moment.
pub(crate) fn take(books: &mut Books, now: u64) -> LedgerReply
    requires room { HasRoom books.old }
    requires sorted { AreSorted books.old }
    ensures grown { Grows books.old books.new }
    ensures step { (plans : List Plan) → Answers plans books.old books.new (LedgerCmd.Take now) result }
{
    let Some(node) = first(&books.waiting) else {
        return LedgerReply::Idle { next: None };
    };
    let place = node.place;
    if now < place.at {
        return LedgerReply::Idle {
            next: Some(place.at),
        };
    }
    let attempt = node.row.attempt;
    match copies(&node.row) {
        Ok((event, path)) => {
            books.hold_first();
            LedgerReply::Taken {
                no: place.no,
                sub: place.sub,
                claim: books.claims,
                event,
                path,
                attempt,
            }
        }
        Err(_) => LedgerReply::NoMemory,
    }
}

/// Copies of a row's event and path.
fn copies(row: &StoredRow) -> Result<(Blob, Text), NoMemory>
    ensures { IfOk result (λ copies. (copies.0 ≡ arc_value row.now.event) × (copies.1 ≡ row.now.path)) }
{
    let event = row.event.copy()?;
    let path = row.path.copy()?;
    Ok((event, path))
}
