ghost use Rattle.std.specs.Prelude.{◌≡◌, ◌++◌, length, map, true, IfOk, IfErr, OnOk, codes, decimal};
ghost use Rattle.state_core.specs.Store.{keeper_of};
ghost use Rattle.sidecar_objects.specs.Passes.{IsLone, IsPassOf, IsSoundPass};
ghost use Rattle.sidecar_objects.specs.Pass.{cells_of, seats_of};
ghost use Rattle.sidecar_core.specs.Started.{IsRoomFor, IsStarted};
ghost use Rattle.sidecar_keepers.specs.Kinds.{AllFit};
ghost use Rattle.sidecar_keepers.specs.Stores.{stores_of};
ghost use Rattle.policy_run.specs.Effects.{clocked};
ghost use Rattle.link_call.specs.LinkAt.{link_at};
ghost use Rattle.sidecar_cli.specs.Play.{AreKept, AreUnkept, IsConfiguredBy, IsDown, IsDownBeside, IsDownOver, IsStartedNow, IsUp, IsUpNow, SaysOfKeepers};
ghost use Rattle.sidecar_cli.specs.Fits.{all_fit};
ghost use Rattle.sidecar_cli.specs.World.{beside_at, outside_at};
ghost use Rattle.sidecar_serving.specs.Passes.{root_pass};
ghost use Rattle.sidecar_cli.specs.declared.status.Status.TheVariants as ends;

use crate::configuring::placed;
use crate::subscribing::subscribed;
use crate::{Device, Status};
use itoa::Buffer;
use keeper_core::Keeper;
use keeper_journal::AnyKeeper;
use resource_files::Resources;
use side_base::{Blob, Moment, NoMemory, Text};
use side_world::{Clock, Disk, Link, Outside};
use sidecar_core::{Config, ObjectKinds, Pass, Room, Shared};
use sidecar_keepers::{KeepersErr, give_back, start_keepers};
use sidecar_words::Words;
use state_core::Store;
use std::alloc::Global;
use topic_spec::allowed;

/// All objects of a run, the pass of their root seats, and the room for their end.
#[derive(Drop)]
pub(crate) struct Started<K: Keeper> {
    pub(crate) shared: Shared<K>,
    pub(crate) pass: Pass<K>,
    pub(crate) room: Room<K>,
}

/// Makes a keeper for each store, and starts all objects over them, with ticks from a moment on; or says how the run ends.
pub(crate) fn start_objects<O: Outside>(
    alloc: Global,
    config: Config,
    secret: [u8; 16],
    start: Moment,
    outside: &mut O,
) -> Result<Started<AnyKeeper<O::Disk>>, Status>
    ensures same { IfOk result (λ up. up.shared.config ≡ config) }
    ensures up { IfOk result (λ up. IsUp ⟦<Store<AnyKeeper<O::Disk>> as ObjectKinds>⟧.kinds config start (outside_at O.Outside outside.old) (outside_at O.Outside outside.new) up.shared.objects up.pass) }
    ensures pass { IfOk result (λ up. IsPassOf (cells_of up.shared.objects) (seats_of up.pass)) }
    ensures lone { IfOk result (λ up. IsLone (cells_of up.shared.objects) (seats_of up.pass)) }
    ensures sound { IfOk result (λ up. IsSoundPass ⟦<Store<AnyKeeper<O::Disk>> as ObjectKinds>⟧.kinds (cells_of up.shared.objects) (seats_of up.pass)) }
    ensures root { IfOk result (λ up. seats_of up.pass ≡ root_pass 0 (cells_of up.shared.objects)) }
    ensures room { IfOk result (λ up. IsRoomFor (length up.shared.objects.stores.items) up.room) }
    ensures fit { IfOk result (λ up. AllFit (stores_of up.shared.config.components) (map (λ cell. keeper_of cell.first) up.shared.objects.stores.items)) }
    ensures down { IfErr result (λ status. IsDown O.Disk.Disk config.components (outside_at O.Outside outside.old) (outside_at O.Outside outside.new) status) }
{
    match start_keepers(alloc, &config.components, secret, outside) {
        Ok(keepers) => over(alloc, config, keepers, start),
        Err(error) => Err(without_keepers(alloc, error)),
    }
}

/// Makes a keeper for each store, asks the app for its subscriptions, and starts all objects over the keepers at the moment that the clock tells then; or says how the run ends, and where a
/// list isn't had gives the disks back.
pub(crate) fn start_beside_app<L: Link, C: Clock, O: Outside>(
    alloc: Global,
    given: Words,
    resources: Resources,
    secret: [u8; 16],
    link: &mut L,
    clock: &mut C,
    outside: &mut O,
) -> Result<Started<AnyKeeper<O::Disk>>, Status>
    ensures configured { IfOk result (λ up. IsConfiguredBy given resources (link_at L.Link link.old) (link_at L.Link link.new) up.shared.config) }
    ensures up { IfOk result (λ up. IsUpNow ⟦<Store<AnyKeeper<O::Disk>> as ObjectKinds>⟧.kinds up.shared.config (beside_at L.Link C.Clock O.Outside link.old clock.old outside.old) (beside_at L.Link C.Clock O.Outside link.new clock.new outside.new) up.shared.objects up.pass) }
    ensures pass { IfOk result (λ up. IsPassOf (cells_of up.shared.objects) (seats_of up.pass)) }
    ensures lone { IfOk result (λ up. IsLone (cells_of up.shared.objects) (seats_of up.pass)) }
    ensures sound { IfOk result (λ up. IsSoundPass ⟦<Store<AnyKeeper<O::Disk>> as ObjectKinds>⟧.kinds (cells_of up.shared.objects) (seats_of up.pass)) }
    ensures root { IfOk result (λ up. seats_of up.pass ≡ root_pass 0 (cells_of up.shared.objects)) }
    ensures room { IfOk result (λ up. IsRoomFor (length up.shared.objects.stores.items) up.room) }
    ensures fit { IfOk result (λ up. AllFit (stores_of up.shared.config.components) (map (λ cell. keeper_of cell.first) up.shared.objects.stores.items)) }
    ensures down { IfErr result (λ status. IsDownBeside O.Disk.Disk given resources (beside_at L.Link C.Clock O.Outside link.old clock.old outside.old) (beside_at L.Link C.Clock O.Outside link.new clock.new outside.new) status) }
{
    match make_keepers(alloc, resources, secret, outside) {
        Ok(kept) => over_app(alloc, given, kept, link, clock, outside),
        Err(status) => Err(status),
    }
}

/// Resources, and a keeper for each store that they name.
#[derive(Drop)]
struct Kept<D: Disk> {
    resources: Resources,
    keepers: Vec<AnyKeeper<D>>,
    ghost fit: { all_fit (stores_of resources.components) keepers.items ≡ true },
}

/// Makes a keeper for each store; or says how the run ends.
fn make_keepers<O: Outside>(
    alloc: Global,
    resources: Resources,
    secret: [u8; 16],
    outside: &mut O,
) -> Result<Kept<O::Disk>, Status>
    ensures same { IfOk result (λ kept. kept.resources ≡ resources) }
    ensures kept { IfOk result (λ kept. AreKept O.Disk.Disk kept.resources.components kept.keepers.items (outside_at O.Outside outside.old) (outside_at O.Outside outside.new)) }
    ensures unkept { IfErr result (λ status. AreUnkept O.Disk.Disk resources.components (outside_at O.Outside outside.old) (outside_at O.Outside outside.new) status) }
{
    match start_keepers(alloc, &resources.components, secret, outside) {
        Ok(keepers) => Ok(Kept { resources, keepers }),
        Err(error) => Err(without_keepers(alloc, error)),
    }
}

/// Asks the app for its subscriptions, reads the clock, and starts all objects over these keepers; or says how the run ends, and where a list isn't had gives the disks back.
fn over_app<L: Link, C: Clock, O: Outside>(
    alloc: Global,
    given: Words,
    kept: Kept<O::Disk>,
    link: &mut L,
    clock: &mut C,
    outside: &mut O,
) -> Result<Started<AnyKeeper<O::Disk>>, Status>
    ensures configured { IfOk result (λ up. IsConfiguredBy given kept.resources (link_at L.Link link.old) (link_at L.Link link.new) up.shared.config) }
    ensures started { IfOk result (λ up. IsStartedNow up.shared.config kept.keepers.items (clocked C.Clock clock.old) (clocked C.Clock clock.new) up.shared.objects up.pass) }
    ensures untouched { OnOk result (outside_at O.Outside outside.new ≡ outside_at O.Outside outside.old) }
    ensures pass { IfOk result (λ up. IsPassOf (cells_of up.shared.objects) (seats_of up.pass)) }
    ensures lone { IfOk result (λ up. IsLone (cells_of up.shared.objects) (seats_of up.pass)) }
    ensures sound { IfOk result (λ up. IsSoundPass ⟦<Store<AnyKeeper<O::Disk>> as ObjectKinds>⟧.kinds (cells_of up.shared.objects) (seats_of up.pass)) }
    ensures root { IfOk result (λ up. seats_of up.pass ≡ root_pass 0 (cells_of up.shared.objects)) }
    ensures room { IfOk result (λ up. IsRoomFor (length up.shared.objects.stores.items) up.room) }
    ensures fit { IfOk result (λ up. AllFit (stores_of up.shared.config.components) (map (λ cell. keeper_of cell.first) up.shared.objects.stores.items)) }
    ensures down { IfErr result (λ status. IsDownOver O.Disk.Disk given kept.resources kept.keepers.items (beside_at L.Link C.Clock O.Outside link.old clock.old outside.old) (beside_at L.Link C.Clock O.Outside link.new clock.new outside.new) status) }
{
    let Kept { resources, keepers } = kept;
    let Resources {
        components,
        subscriptions,
        policies,
    } = resources;
    match subscribed(alloc, given.app_port, subscriptions, link) {
        Ok(subs) => {
            let config = Config {
                subs: allowed(subs, &components, &given.app),
                app: given.app,
                app_port: given.app_port,
                peers: given.peers,
                components,
                policies,
            };
            let start = clock.now();
            over(alloc, config, keepers, start)
        }
        Err(status) => {
            give_back(&components, keepers, outside);
            Err(status)
        }
    }
}

/// Starts all objects over these keepers, with ticks from a moment on.
fn over<D: Disk>(
    alloc: Global,
    config: Config,
    keepers: Vec<AnyKeeper<D>>,
    start: Moment,
) -> Result<Started<AnyKeeper<D>>, Status>
    requires { AllFit (stores_of config.components) keepers.items }
    ensures same { IfOk result (λ up. up.shared.config ≡ config) }
    ensures started { IfOk result (λ up. IsStarted config keepers.items start config up.shared.objects up.pass) }
    ensures pass { IfOk result (λ up. IsPassOf (cells_of up.shared.objects) (seats_of up.pass)) }
    ensures lone { IfOk result (λ up. IsLone (cells_of up.shared.objects) (seats_of up.pass)) }
    ensures sound { IfOk result (λ up. IsSoundPass ⟦<Store<AnyKeeper<D>> as ObjectKinds>⟧.kinds (cells_of up.shared.objects) (seats_of up.pass)) }
    ensures root { IfOk result (λ up. seats_of up.pass ≡ root_pass 0 (cells_of up.shared.objects)) }
    ensures room { IfOk result (λ up. IsRoomFor (length up.shared.objects.stores.items) up.room) }
    ensures fit { IfOk result (λ up. AllFit (stores_of up.shared.config.components) (map (λ cell. keeper_of cell.first) up.shared.objects.stores.items)) }
    ensures lacks { IfErr result (λ status. status ≡ ends.NoMemory) }
{
    match Shared::start(alloc, config, keepers, start) {
        Ok(started) => {
            let (shared, pass, room) = started;
            Ok(Started { shared, pass, room })
        }
        Err(NoMemory) => Err(Status::NoMemory),
    }
}

/// How a run ends that has no keepers.
fn without_keepers(alloc: Global, error: KeepersErr) -> Status
    ensures { SaysOfKeepers error result }
{
    match error {
        KeepersErr::NotAJournal { component, at } => match no_journal(alloc, &component, at) {
            Ok(text) => Status::BadResources { text },
            Err(NoMemory) => Status::NoMemory,
        },
        KeepersErr::OutsideFailed => Status::OutsideFailed(Device::Outside),
        KeepersErr::DiskFailed => Status::OutsideFailed(Device::Disk),
        KeepersErr::NoMemory => Status::NoMemory,
    }
}

/// A component and the place at which its file is no journal's.
fn no_journal(alloc: Global, component: &Text, at: u64) -> Result<Blob, NoMemory>
    ensures { IfOk result (λ text. text ≡ component.now ++ (codes ": " ++ (codes "NotAJournal at " ++ decimal at))) }
{
    let told = told(alloc, at)?;
    placed(alloc, component, &told)
}

/// A place at which a file is no journal's.
fn told(alloc: Global, at: u64) -> Result<Text, NoMemory>
    ensures { IfOk result (λ text. text ≡ codes "NotAJournal at " ++ decimal at) }
{
    let mut told = Text::from_str(alloc, "NotAJournal at ")?;
    told.push(Buffer::new().format(at))?;
    Ok(told)
}
