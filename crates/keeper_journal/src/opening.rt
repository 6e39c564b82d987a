ghost use Rattle.std.specs.Prelude.{◌≡◌, ◌≤◌, ◌<◌, ◌^◌, ℕ, List, None, IfOk, IfErr};
ghost use Rattle.side_world.specs.Faults.{Rose};
ghost use Rattle.keeper_core.specs.Table.{fed};
ghost use Rattle.keeper_core.specs.declared.changes.Changes.{Changes};
ghost use Rattle.disk_journal.specs.Moments.{Reads, ChangesNothing};
ghost use Rattle.disk_journal.specs.declared.error.JournalErr.TheVariants.{Failed, NotAJournal, Full};
ghost use Rattle.keeper_journal.specs.History.{IsHistory, IsRefusedAt};
ghost use Rattle.keeper_journal.specs.JournalKeeper.{disk_in, limit_in, hasher_in};
ghost use Rattle.keeper_journal.specs.Kept.{Kept};

use crate::JournalKeeper;
use crate::replaying::replay;
use disk_journal::{Journal, JournalErr};
use side_world::Disk;
use std::alloc::Global;

/// A keeper of the commits that the file of a disk says.
pub(crate) fn opened<D: Disk>(
    alloc: Global,
    disk: D,
    limit: u64,
    secret: [u8; 16],
) -> Result<JournalKeeper<D>, (D, JournalErr)>
    requires { limit < 2 ^ 32 }
    ensures kept { IfOk result (λ keeper. (commits : List Changes) × Kept D.Disk keeper commits None × Reads D.Disk disk (λ bytes. IsHistory bytes commits)) }
    ensures only { IfOk result (λ keeper. Reads D.Disk disk (λ bytes. (commits : List Changes) → IsHistory bytes commits → Kept D.Disk keeper commits None)) }
    ensures refused { IfErr result (λ e. (at : ℕ) → e.1 ≡ NotAJournal at → Reads D.Disk disk (λ bytes. IsRefusedAt bytes at)) }
    ensures refused_only { IfErr result (λ e. (at : ℕ) → e.1 ≡ NotAJournal at → Reads D.Disk disk (λ bytes. (commits : List Changes) → IsHistory bytes commits → ⊥)) }
    ensures limit { IfOk result (λ keeper. limit_in keeper ≡ limit) }
    ensures hasher { IfOk result (λ keeper. hasher_in keeper ≡ fed secret) }
    ensures opened { IfOk result (λ keeper. ChangesNothing D.Disk disk (disk_in keeper)) }
    ensures given_back { IfErr result (λ e. ChangesNothing D.Disk disk e.0) }
    ensures failed { IfErr result (λ e. e.1 ≡ Failed → Rose (D.faults disk) (D.faults e.0)) }
    ensures not_full { IfErr result (λ e. (len : ℕ) → e.1 ≡ Full len → ⊥) }
    ensures no_fault { IfOk result (λ keeper. D.faults (disk_in keeper) ≡ D.faults disk) }
    ensures no_fault_given_back { IfErr result (λ e. (e.1 ≡ Failed → ⊥) → D.faults e.0 ≡ D.faults disk) }
    ensures no_fewer_given_back { IfErr result (λ e. D.faults disk ≤ D.faults e.0) }
{
    let mut opening = match Journal::open(alloc, disk, limit) {
        Ok(opening) => opening,
        Err(error) => return Err(error),
    };
    match replay(alloc, &mut opening, secret) {
        Ok(replay) => Ok(JournalKeeper::over(alloc, opening.into_journal(), replay)),
        Err(error) => Err((opening.into_disk(), error)),
    }
}
