//! What stands at the front of a window: the header, or a record.
ghost use Rattle.std.specs.Prelude.{◌≡◌, ◌+◌, ◌≤◌, ℕ, List, ◌++◌, length, Err, IfSome, IfNone, IfOk, OnOk};
ghost use Rattle.side_world.specs.Faults.{Rose};
ghost use Rattle.disk_journal.specs.Image.{header};
ghost use Rattle.disk_journal.specs.Moments.{Reads, ChangesNothing};
ghost use Rattle.disk_journal.specs.Parsing.{IsClosed, BeginsWithOf};
ghost use Rattle.disk_journal.specs.Refusal.{IsPart, IsNoJournal};
ghost use Rattle.disk_journal.specs.Window.{disk_of, place_of, held_of};
ghost use Rattle.disk_journal.specs.declared.error.JournalErr.TheVariants.{NotAJournal, Full};

use crate::JournalErr;
use crate::formatting::{HEADER_BYTES, RECORD_BYTES};
use crate::parsing::{Found, found_in, header_fault, wanted_of};
use crate::window::Window;
use side_world::Disk;

/// Has the record at the front of a window held as a whole, and tells how long its body is; `None` where a closed gate stands there.
pub(crate) fn hold_record<D: Disk>(window: &mut Window<D>) -> Result<Option<usize>, JournalErr>
    ensures whole { IfOk result (λ found. IfSome found (BeginsWithOf (held_of window.new))) }
    ensures closed { IfOk result (λ found. IfNone found (IsClosed (held_of window.new))) }
    ensures cut { (at : ℕ) → result ≡ Err (NotAJournal at) → IsPart (held_of window.new) }
    ensures ends { (at : ℕ) → result ≡ Err (NotAJournal at) → place_of window.new + length (held_of window.new) ≡ D.size (disk_of window.new) }
    ensures at { (at : ℕ) → result ≡ Err (NotAJournal at) → at ≡ place_of window.new }
    ensures place { place_of window.new ≡ place_of window.old }
    ensures same { ChangesNothing D.Disk (disk_of window.old) (disk_of window.new) }
    ensures failed { result ≡ Err JournalErr.Failed → Rose (D.faults (disk_of window.old)) (D.faults (disk_of window.new)) }
    ensures no_fault { (result ≡ Err JournalErr.Failed → ⊥) → D.faults (disk_of window.new) ≡ D.faults (disk_of window.old) }
    ensures not_full { (len : ℕ) → result ≡ Err (Full len) → ⊥ }
    ensures no_fewer { D.faults (disk_of window.old) ≤ D.faults (disk_of window.new) }
{
    window.hold(RECORD_BYTES as u64)?;
    let wanted = wanted_of(window.held());
    window.hold(wanted)?;
    match found_in(window.held()) {
        Found::Closed => Ok(None),
        Found::Cut => Err(JournalErr::NotAJournal { at: window.place() }),
        Found::Record { body, rest: _ } => Ok(Some(body.len())),
    }
}

/// Passes the header at the front of a file.
pub(crate) fn pass_header<D: Disk>(window: &mut Window<D>) -> Result<(), JournalErr>
    requires { place_of window.old ≡ 0 }
    ensures place { OnOk result (place_of window.new ≡ 16) }
    ensures begins { OnOk result (Reads D.Disk (disk_of window.old) (λ bytes. (left : List ℕ) × (bytes ≡ header ++ left))) }
    ensures refused { (at : ℕ) → result ≡ Err (NotAJournal at) → Reads D.Disk (disk_of window.old) (λ bytes. IsNoJournal bytes at) }
    ensures same { ChangesNothing D.Disk (disk_of window.old) (disk_of window.new) }
    ensures failed { result ≡ Err JournalErr.Failed → Rose (D.faults (disk_of window.old)) (D.faults (disk_of window.new)) }
    ensures no_fault { (result ≡ Err JournalErr.Failed → ⊥) → D.faults (disk_of window.new) ≡ D.faults (disk_of window.old) }
    ensures not_full { (len : ℕ) → result ≡ Err (Full len) → ⊥ }
    ensures no_fewer { D.faults (disk_of window.old) ≤ D.faults (disk_of window.new) }
{
    window.hold(HEADER_BYTES as u64)?;
    match header_fault(window.held()) {
        Some(at) => Err(JournalErr::NotAJournal { at: at as u64 }),
        None => {
            window.pass(HEADER_BYTES);
            Ok(())
        }
    }
}
