//! What holds of a run, as functions whose contract is the law.
ghost use Rattle.std.specs.Prelude.{◌≡◌, ◌<◌, ◌-◌, ◌^◌, ℕ, Bool, List, Option, Ok};
ghost use Rattle.std.specs.List.{flat_map};
ghost use Rattle.side_world.specs.Told.{Told};
ghost use Rattle.conn_serve.specs.Ends.{SinkAt};
ghost use Rattle.resource_files.specs.declared.resources.Resources.{Resources};
ghost use Rattle.sidecar_keepers.specs.Runs.{AreApart};
ghost use Rattle.sidecar_keepers.specs.Stores.{paths_of, stores_of};
ghost use Rattle.sidecar_cli.specs.Causes.{ChecksWellWhereAllIsWell, EndsWellWhereAllIsWell, IsWhy, IsWhyOfCheck};
ghost use Rattle.sidecar_cli.specs.Configured.{IsConfigured};
ghost use Rattle.sidecar_cli.specs.DrillCauses.{IsWhyOfDrill};
ghost use Rattle.sidecar_cli.specs.Journals.{JournalsHaveWhatWasSaved};
ghost use Rattle.sidecar_cli.specs.Lines.{BrokersHaveOwnLines};
ghost use Rattle.sidecar_cli.specs.Note.{AreNoted};
ghost use Rattle.sidecar_cli.specs.Run.{OfEachRun};
ghost use Rattle.sidecar_cli.specs.ServeCauses.{IsWhyOfServing, ServesWellWhereAllIsWell};
ghost use Rattle.sidecar_cli.specs.World.{FilesAt};

use http_frames::laws::streams_are_unique;
use keeper_journal::AnyKeeper;
use side_world::Disk;
use sidecar_core::ObjectKinds;
use sidecar_keepers::laws::files_have_what_was_made;
use sidecar_words::Mode;
use state_core::Store;

/// A run on standard input ends with a status only where its cause is there (`IsWhy`), and so do a check (`IsWhyOfCheck`), a drill (`IsWhyOfDrill`) and a run that serves
/// (`IsWhyOfServing`); words that mean one of them are never refused. What the run did is what stands between the world and the world before the note got the text of the status.
pub fn each_status_has_its_cause<D: Disk + Send>()
    ensures stdio { OfEachRun ⟦<Store<AnyKeeper<D>> as ObjectKinds>⟧.kinds Mode.Stdio (IsWhy ⟦<Store<AnyKeeper<D>> as ObjectKinds>⟧.kinds) }
    ensures check { OfEachRun ⟦<Store<AnyKeeper<D>> as ObjectKinds>⟧.kinds Mode.Check IsWhyOfCheck }
    ensures drill { (start requests : ℕ) → OfEachRun ⟦<Store<AnyKeeper<D>> as ObjectKinds>⟧.kinds (Mode.Drill start requests) (IsWhyOfDrill ⟦<Store<AnyKeeper<D>> as ObjectKinds>⟧.kinds start requests) }
    ensures serve { OfEachRun ⟦<Store<AnyKeeper<D>> as ObjectKinds>⟧.kinds Mode.Serve (IsWhyOfServing ⟦<Store<AnyKeeper<D>> as ObjectKinds>⟧.kinds) }
{}

/// A run on standard input ends with 0, or for want of memory, where nothing is refused, no device fails, the bytes that are read are fewer than 100,000
/// whole requests, and no cell is exhausted. So does a check where no file is refused and neither files nor sink fail, and a run that serves where nothing is
/// refused, nothing fails and no cell is exhausted.
pub fn runs_end_well<D: Disk + Send>()
    ensures stdio { OfEachRun ⟦<Store<AnyKeeper<D>> as ObjectKinds>⟧.kinds Mode.Stdio (EndsWellWhereAllIsWell ⟦<Store<AnyKeeper<D>> as ObjectKinds>⟧.kinds) }
    ensures check { OfEachRun ⟦<Store<AnyKeeper<D>> as ObjectKinds>⟧.kinds Mode.Check ChecksWellWhereAllIsWell }
    ensures serve { OfEachRun ⟦<Store<AnyKeeper<D>> as ObjectKinds>⟧.kinds Mode.Serve (ServesWellWhereAllIsWell ⟦<Store<AnyKeeper<D>> as ObjectKinds>⟧.kinds) }
{
    streams_are_unique();
}

/// The journals that are configured have paths of their own, so that no disk is taken twice.
pub fn configured_journals_have_own_paths()
    ensures { (folder : Option (List ℕ)) (app : List ℕ) (subscribing : Bool) (files files' : FilesAt) (resources : Resources) → IsConfigured folder app subscribing files files' (Ok resources) → AreApart (paths_of (stores_of resources.components)) }
{}

/// The file of each journal holds after a run what it said before it, then the commits of its store's history, in order, and then at most one more; at other
/// paths all is as it was. This is so of the objects that a run starts, whatever was done between, as they are closed by this pass. The disks tell what a read
/// gives.
pub fn journals_have_what_was_saved<D: Disk + Send>()
    ensures { JournalsHaveWhatWasSaved ⟦<Store<AnyKeeper<D>> as ObjectKinds>⟧.kinds }
{
    files_have_what_was_made::<D>();
}

/// As the ledgers are counted, each broker has a line of its own: at its place among the brokers stands the text of what the ledger at the same place answered,
/// in one step that counts, and no ledger made another step.
pub fn each_broker_has_its_own_line<D: Disk + Send>()
    ensures { BrokersHaveOwnLines ⟦<Store<AnyKeeper<D>> as ObjectKinds>⟧.kinds }
{}

/// A note whose count of faults didn't rise has every text whole, in order.
pub fn notes_that_do_not_fail_have_every_text()
    ensures { (note note' : SinkAt) (texts : List (List ℕ)) → AreNoted note note' texts → note'.faults ≡ note.faults → note.faults < 2 ^ 64 - 1 → Told note.contents note'.contents (flat_map (λ (text : List ℕ). text) texts) }
{}
