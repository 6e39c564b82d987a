ghost use Rattle.std.specs.Prelude.{◌≡◌, ◌≤◌, ◌∷◌, []};
ghost use Rattle.side_world.specs.Faults.{RoseWith};
ghost use Rattle.sidecar_keepers.specs.Stores.{is_store, stores_of};
ghost use Rattle.sidecar_keepers.specs.Kinds.{Fits, AllFit};
ghost use Rattle.sidecar_keepers.specs.Given.{IsBack, AreBack, faults_on_disk, faults_on_disks};

use keeper_journal::AnyKeeper;
use resource_spec::{Component, ComponentKind, Components};
use side_base::Sequence;
use side_world::Outside;

/// Gives the disk of each keeper over a journal back to the path of its component. The keepers are those of the state components, in
/// order. Takes no memory.
pub fn give_back<O: Outside>(
    components: &Components,
    keepers: Vec<AnyKeeper<O::Disk>>,
    outside: &mut O,
)
    requires { AllFit (stores_of components.now) keepers.items }
    ensures given { AreBack O.Disk.Disk (stores_of components.now) keepers.items (O.disks outside.old) (O.disks outside.new) }
    ensures faults { RoseWith (faults_on_disks O.Disk.Disk keepers.items) (O.faults outside.old) (O.faults outside.new) }
    ensures no_fewer { O.faults outside.old ≤ O.faults outside.new }
    ensures calls { O.calls outside.new ≡ O.calls outside.old }
    ensures backs { O.backs outside.new ≡ O.backs outside.old }
    ensures numbers { O.numbers outside.new ≡ O.numbers outside.old }
{
    let mut keepers = Sequence::from_vec(keepers);
    for place in 0..components.len() {
        let component = components.at(place);
        if is_store(component.kind()) {
            match keepers.take_first() {
                Some(keeper) => give_one(component, keeper, outside),
                None => unreachable!(),
            }
        }
    }
}

/// Whether it is a store.
fn is_store(kind: ComponentKind) -> bool
    ensures { result ≡ is_store kind }
{
    match kind {
        ComponentKind::StateMemory | ComponentKind::StateJournal => true,
        ComponentKind::PubsubMemory | ComponentKind::BindingHttp | ComponentKind::BindingCron =>
            false,
    }
}

/// Gives the disk of a keeper, if it has one, back to the path of its component.
fn give_one<O: Outside>(component: &Component, keeper: AnyKeeper<O::Disk>, outside: &mut O)
    requires { Fits component.now keeper }
    ensures given { IsBack O.Disk.Disk component.now keeper (O.disks outside.old) (O.disks outside.new) }
    ensures faults { RoseWith (faults_on_disk O.Disk.Disk keeper) (O.faults outside.old) (O.faults outside.new) }
    ensures no_fewer { O.faults outside.old ≤ O.faults outside.new }
    ensures calls { O.calls outside.new ≡ O.calls outside.old }
    ensures backs { O.backs outside.new ≡ O.backs outside.old }
    ensures numbers { O.numbers outside.new ≡ O.numbers outside.old }
{
    match keeper {
        AnyKeeper::Memory(_) => {}
        AnyKeeper::Journal(keeper) => {
            outside.give_disk(component.path().bytes(), keeper.into_disk());
        }
    }
}
