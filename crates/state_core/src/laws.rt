//! What holds of every history of a store, as functions whose contract is the law.
ghost use Rattle.std.specs.Prelude.{◌≡◌, ℕ, List, [], ◌∷◌, ◌++◌};
ghost use Rattle.turn_cell.specs.History.{IsLegal};
ghost use Rattle.state_core.specs.declared.store.Store.{Store};
ghost use Rattle.state_core.specs.History.{Step};
ghost use Rattle.state_core.specs.Store.{held_by};
ghost use Rattle.keeper_core.specs.Rows.{Rows};
ghost use Rattle.state_core.specs.Fits.{Fits};
ghost use Rattle.state_core.specs.Write.{Write, rows_after, sweep};
ghost use Rattle.state_core.specs.Reply.{Held};
ghost use Rattle.state_core.specs.Written.{with_sweep};
ghost use Rattle.state_core.specs.Laws.{NeverReturns, IsGuardedOnce, AreWholeOrAbsent, AreAlike};

use crate::Store;
use keeper_core::Keeper;
use turn_cell::Object;

/// A version that was the live row of a key at one moment, and at a later one no longer was, never is again.
pub fn a_version_never_returns<K: Keeper>()
    ensures { (first : Store K K.Keeper) → NeverReturns (held_by K.Keeper first) }
{}

/// After a transaction that was committed, the rows that are live at its moment are those after all its operations in order, each
/// of which was current at its place; after one that was answered otherwise they are those before it.
pub fn a_transaction_is_whole_or_absent<K: Keeper>()
    ensures { (first : Store K K.Keeper) (history : List Step) → IsLegal ⟦<Store<K> as Object>⟧ first history → AreWholeOrAbsent (held_by K.Keeper first) history }
{}

/// Of all writes of a key, at most one asks for one ETag, in a mode other than `LastWrite`, and is made.
pub fn an_etag_passes_once<K: Keeper>()
    ensures { (first : Store K K.Keeper) (history : List Step) → IsLegal ⟦<Store<K> as Object>⟧ first history → IsGuardedOnce (held_by K.Keeper first) history }
{}

/// Each reply is one that fits its command.
pub fn replies_fit<K: Keeper>()
    ensures { (first : Store K K.Keeper) (history before after : List Step) (entry : Step) → IsLegal ⟦<Store<K> as Object>⟧ first history → history ≡ before ++ entry ∷ after → Fits entry.cmd entry.reply }
{}

/// A sweep changes no row that is live at its moment. So what a commit leaves of live rows is what its command's writes alone leave.
pub fn a_sweep_changes_no_live_row()
    ensures alone { (rows : Rows) (next moment : ℕ) → AreAlike moment (rows_after rows next (sweep rows moment)) rows }
    ensures before_writes { (held : Held) (moment : ℕ) (writes : List Write) → AreAlike moment (rows_after held.rows held.next (with_sweep held moment writes)) (rows_after held.rows held.next writes) }
{}
