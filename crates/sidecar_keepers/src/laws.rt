//! What holds of the keepers of a run and of their disks, as functions whose contract is the law.
ghost use Rattle.std.specs.Prelude.{ℕ, List, Option, IfOk};
ghost use Rattle.side_world.specs.Outside.{Disks};
ghost use Rattle.keeper_core.specs.declared.changes.Changes.{Changes};
ghost use Rattle.keeper_journal.specs.declared.any_keeper.AnyKeeper.{AnyKeeper};
ghost use Rattle.resource_spec.specs.Component.{Loaded};
ghost use Rattle.resource_spec.specs.Load.{loaded, joined};
ghost use Rattle.yaml_subset.specs.Trees.{Trees};
ghost use Rattle.sidecar_keepers.specs.Kinds.{AllFit};
ghost use Rattle.sidecar_keepers.specs.Made.{AreMade};
ghost use Rattle.sidecar_keepers.specs.Runs.{AreApart, FilesHaveWhatWasMade, HaveMade};
ghost use Rattle.sidecar_keepers.specs.Stores.{paths_of};

use keeper_core::Keeper;
use keeper_journal::AnyKeeper;
use side_world::Disk;

/// Keepers that a start makes are of the kinds of their components, and stay so.
pub fn keepers_keep_their_kinds<D: Disk>()
    ensures first { (stores : List Loaded) (keepers : List (AnyKeeper D D.Disk)) (before after : Option Disks) → AreMade D.Disk stores keepers before after → AllFit stores keepers }
    ensures last { (stores : List Loaded) (firsts lasts : List (AnyKeeper D D.Disk)) (made : List (List Changes)) → AllFit stores firsts → HaveMade ⟦<AnyKeeper<D> as Keeper>⟧ firsts lasts made → AllFit stores lasts }
{}

/// The file of each journal holds after a run what it said when the journal was opened, then the commits that were made, in order, and
/// then at most one more; at other paths all is as it was. The paths differ, and the disks tell what a read gives.
pub fn files_have_what_was_made<D: Disk>()
    ensures { FilesHaveWhatWasMade D.Disk ⟦<AnyKeeper<D> as Keeper>⟧ }
{}

/// The paths of journals that are loaded differ.
pub fn loaded_journals_have_own_paths()
    ensures loaded { (app : List ℕ) (doc : ℕ) (components : List Loaded) (docs : Trees) → AreApart (paths_of components) → IfOk (loaded app doc components docs) (λ all. AreApart (paths_of all)) }
    ensures joined { (count : ℕ) (components others : List Loaded) → AreApart (paths_of components) → IfOk (joined count components others) (λ all. AreApart (paths_of all)) }
{}
