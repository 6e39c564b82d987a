ghost use Rattle.std.specs.Prelude.{◌≡◌, ◌<◌, ℕ, length, Err};
ghost use Rattle.sidecar_objects.specs.Passes.{IsPassOf};
ghost use Rattle.sidecar_objects.specs.Shown.{ShowsAt};
ghost use Rattle.sidecar_objects.specs.Pass.{DoesAlone, cells_of, seats_of};
ghost use Rattle.sidecar_turns.specs.Counting.{Counted};

use keeper_core::Keeper;
use ledger_core::{LedgerCmd, LedgerReply};
use sidecar_objects::{ObjectKinds, Objects, Pass};
use state_core::Store;
use std::sync::Wait;
use turn_cell::Exhausted;

/// How many deliveries of each status the ledger at a place has, by one step of it; the ledgers stand in the order of their components.
/// Takes no memory.
///
/// `Exhausted` makes no step; the seat then shows its count.
pub fn counts<K: Keeper, W: Wait>(
    rt: &W,
    objects: &Objects<K>,
    pass: &mut Pass<K>,
    place: usize,
) -> Result<LedgerReply, Exhausted>
    requires pass { IsPassOf (cells_of objects.now) (seats_of pass.old) }
    requires place { place < length objects.now.ledgers.items }
    ensures does { DoesAlone ⟦<Store<K> as ObjectKinds>⟧.kinds objects.now pass.old pass.new (Counted place) result }
    ensures shows { (count : ℕ) → result ≡ Err (record { count = count }) → ShowsAt place count pass.new.ledgers.items }
{
    objects.ledgers[place].call(rt, &mut pass.ledgers[place], &LedgerCmd::Counts)
}
