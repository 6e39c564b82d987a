ghost use Rattle.std.specs.Prelude.{◌≡◌, ◌≤◌, ◌<◌, ◌+◌, ◌∷◌, ℕ, [], vec_len, IfOk, IfErr, OnOk, OnErr};
ghost use Rattle.std.specs.Vec.{vec_capacity};
ghost use Rattle.side_world.specs.Told.{Tells};
ghost use Rattle.disk_journal.specs.declared.error.JournalErr.TheVariants.{Full};
ghost use Rattle.sidecar_keepers.specs.Stores.{stores_of, takes_of};
ghost use Rattle.keeper_core.specs.Table.{fed};
ghost use Rattle.keeper_core.specs.MemoryKeeper.{hasher_in};
ghost use Rattle.keeper_journal.specs.JournalKeeper as journal;
ghost use Rattle.sidecar_keepers.specs.Made.{IsNewInMemory, IsOpened, AreMade, HasMadeMore, HashBehind};
ghost use Rattle.sidecar_keepers.specs.Refused.{Counts, IsAnswerTo, IsCause, IsRefused};

use disk_journal::JournalErr;
use keeper_core::MemoryKeeper;
use keeper_journal::{AnyKeeper, JournalKeeper};
use resource_spec::{Component, ComponentKind, Components};
use side_base::{Places, Text};
use side_world::Outside;
use std::alloc::Global;

/// The greatest size of the rows of a keeper in memory, in bytes.
const MEMORY_LIMIT: u64 = 268_435_456;

/// The greatest length of a journal's file, in bytes.
const JOURNAL_LIMIT: u64 = 402_653_184;

/// Why keepers were not started.
#[derive(Debug, Drop)]
pub enum KeepersErr {
    /// The file of the component of this name is no journal's: that shows at place `at`, in bytes from its beginning.
    NotAJournal { component: Text, at: u64 },
    /// The outside gave no disk; its count of faults rose.
    OutsideFailed,
    /// A disk failed as its journal was started; it went back, and the outside's count of faults rose.
    DiskFailed,
    /// There is no memory.
    NoMemory,
}

/// A keeper for each state component, in order: `state.in-memory` is kept in memory, and `state.journal` over the journal on the disk at
/// the component's path, which is taken. `secret` are random bytes, for the hashes of keys.
///
/// A disk of length 0 becomes a journal. At the first refusal the disk that is refused goes back to its path, and the keepers that were
/// made before are dropped, with their disks.
pub fn start_keepers<O: Outside>(
    alloc: Global,
    components: &Components,
    secret: [u8; 16],
    outside: &mut O,
) -> Result<Vec<AnyKeeper<O::Disk>>, KeepersErr>
    ensures made { IfOk result (λ keepers. AreMade O.Disk.Disk (stores_of components.now) keepers.items (O.disks outside.old) (O.disks outside.new)) }
    ensures hasher { IfOk result (λ keepers. HashBehind secret keepers.items) }
    ensures takes { OnOk result (Tells (O.calls outside.old) (O.calls outside.new) (takes_of components.now)) }
    ensures no_fault { OnOk result (O.faults outside.new ≡ O.faults outside.old) }

    ensures refused { IfErr result (λ e. IsRefused O.Disk.Disk components.now e (O.disks outside.old) (O.disks outside.new) (O.calls outside.old) (O.calls outside.new)) }
    ensures counts { IfErr result (λ e. Counts e (O.faults outside.old) (O.faults outside.new)) }

    ensures backs { O.backs outside.new ≡ O.backs outside.old }
    ensures numbers { O.numbers outside.new ≡ O.numbers outside.old }
    ensures no_fewer { O.faults outside.old ≤ O.faults outside.new }
{
    let Ok(mut keepers) = Vec::with_capacity(alloc, components.len()) else {
        return Err(KeepersErr::NoMemory);
    };
    for place in 0..components.len() {
        match add_keeper(alloc, components.at(place), secret, outside, &mut keepers) {
            Ok(()) => {}
            Err(error) => return Err(error),
        }
    }
    Ok(keepers)
}

/// Adds the keeper of a component, if it is a store.
fn add_keeper<O: Outside>(
    alloc: Global,
    component: &Component,
    secret: [u8; 16],
    outside: &mut O,
    keepers: &mut Vec<AnyKeeper<O::Disk>>,
) -> Result<(), KeepersErr>
    requires room { vec_len keepers.old < vec_capacity keepers.old }
    ensures made { OnOk result (HasMadeMore O.Disk.Disk (stores_of (component.now ∷ [])) keepers.old.items keepers.new.items (O.disks outside.old) (O.disks outside.new)) }
    ensures hasher { HashBehind secret keepers.old.items → OnOk result (HashBehind secret keepers.new.items) }
    ensures long { vec_len keepers.new ≤ vec_len keepers.old + 1 }
    ensures capacity { vec_capacity keepers.old ≤ vec_capacity keepers.new }
    ensures takes { Tells (O.calls outside.old) (O.calls outside.new) (takes_of (component.now ∷ [])) }
    ensures no_fault { OnOk result (O.faults outside.new ≡ O.faults outside.old) }
    ensures cause { IfErr result (λ e. IsCause O.Disk.Disk e component.now (O.disks outside.old) (O.disks outside.new)) }
    ensures counts { IfErr result (λ e. Counts e (O.faults outside.old) (O.faults outside.new)) }
    ensures backs { O.backs outside.new ≡ O.backs outside.old }
    ensures numbers { O.numbers outside.new ≡ O.numbers outside.old }
    ensures no_fewer { O.faults outside.old ≤ O.faults outside.new }
{
    match component.kind() {
        ComponentKind::StateMemory => {
            keepers.push_reserved(AnyKeeper::Memory(in_memory(alloc, secret)));
            Ok(())
        }
        ComponentKind::StateJournal => match over_journal(alloc, component, secret, outside) {
            Ok(keeper) => {
                keepers.push_reserved(AnyKeeper::Journal(keeper));
                Ok(())
            }
            Err(error) => Err(error),
        },
        ComponentKind::PubsubMemory | ComponentKind::BindingHttp | ComponentKind::BindingCron => Ok(
            (),
        ),
    }
}

/// A keeper in memory, without rows.
fn in_memory(alloc: Global, secret: [u8; 16]) -> MemoryKeeper
    ensures new { IsNewInMemory result }
    ensures hasher { hasher_in result ≡ fed secret }
{
    MemoryKeeper::new(alloc, MEMORY_LIMIT, Places::new(alloc), secret)
}

/// A keeper over the journal of a component, whose disk is taken.
fn over_journal<O: Outside>(
    alloc: Global,
    component: &Component,
    secret: [u8; 16],
    outside: &mut O,
) -> Result<JournalKeeper<O::Disk>, KeepersErr>
    requires { component.now.kind ≡ ComponentKind.StateJournal }
    ensures hasher { IfOk result (λ keeper. journal.hasher_in keeper ≡ fed secret) }
    ensures opened { IfOk result (λ keeper. IsOpened O.Disk.Disk component.now keeper (O.disks outside.old) (O.disks outside.new)) }
    ensures takes { Tells (O.calls outside.old) (O.calls outside.new) (takes_of (component.now ∷ [])) }
    ensures no_fault { OnOk result (O.faults outside.new ≡ O.faults outside.old) }
    ensures cause { IfErr result (λ e. IsCause O.Disk.Disk e component.now (O.disks outside.old) (O.disks outside.new)) }
    ensures counts { IfErr result (λ e. Counts e (O.faults outside.old) (O.faults outside.new)) }
    ensures backs { O.backs outside.new ≡ O.backs outside.old }
    ensures numbers { O.numbers outside.new ≡ O.numbers outside.old }
    ensures no_fewer { O.faults outside.old ≤ O.faults outside.new }
{
    let path = component.path().bytes();
    match outside.take_disk(path) {
        Ok(disk) => match JournalKeeper::start(alloc, disk, JOURNAL_LIMIT, secret) {
            Ok(keeper) => Ok(keeper),
            Err((disk, error)) => {
                outside.give_disk(path, disk);
                Err(refusal(component, error))
            }
        },
        Err(_) => Err(KeepersErr::OutsideFailed),
    }
}

/// What is answered where the journal of a component is refused.
fn refusal(component: &Component, error: JournalErr) -> KeepersErr
    requires { (len : ℕ) → error ≡ Full len → ⊥ }
    ensures { IsAnswerTo component.now error result }
{
    match error {
        JournalErr::Failed => KeepersErr::DiskFailed,
        JournalErr::NotAJournal { at } => match component.name().copy() {
            Ok(component) => KeepersErr::NotAJournal { component, at },
            Err(_) => KeepersErr::NoMemory,
        },
        JournalErr::Full { len: _ } => unreachable!(),
        JournalErr::NoMemory => KeepersErr::NoMemory,
    }
}
