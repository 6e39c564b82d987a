ghost use Rattle.std.specs.Prelude.{◌≡◌, ◌∷◌, [], ℕ, length, map};
ghost use Rattle.side_world.specs.Told.{Tells};
ghost use Rattle.state_core.specs.Store.{keeper_of};
ghost use Rattle.sidecar_objects.specs.Passes.{IsLone, IsPassOf, IsSoundPass};
ghost use Rattle.sidecar_objects.specs.Pass.{DoesBy, cells_of, seats_of};
ghost use Rattle.sidecar_core.specs.Started.{IsRoomFor};
ghost use Rattle.sidecar_keepers.specs.Kinds.{AllFit};
ghost use Rattle.sidecar_keepers.specs.Stores.{stores_of};
ghost use Rattle.sidecar_cli.specs.Play.{DrainsFromNow, IsBegun, IsClosed, IsFinished, IsKept, IsPlay, IsServedBy, IsSession};
ghost use Rattle.sidecar_cli.specs.World.{OverOutside, OverWorld, outside_at, secret_of, words_by};

use crate::configuring::{configured, without_resources};
use crate::counting::tell_ledgers;
use crate::starting::start_beside_app;
use crate::status::{held_over, status_after, together};
use crate::{Status, World};
use conn_serve::{Buffers, Ended};
use keeper_journal::AnyKeeper;
use rand_core::{Rng, SeedableRng};
use rand_pcg::Pcg64;
use resource_files::Resources;
use side_world::{Clock, Disk, Files, Link, Outside, Sink, Source};
use sidecar_core::{Drained, ObjectKinds, Pass, Room, Shared, drain, serve_connection, take_ticks};
use sidecar_keepers::give_back;
use sidecar_words::Words;
use state_core::Store;
use std::alloc::Global;
use std::sync::Wait;

/// Answers the requests of the one connection of the source and the sink, over stores that are started for it.
pub(crate) fn play<S: Source, N: Sink, E: Sink, F: Files, L: Link, C: Clock, O: Outside, W: Wait>(
    rt: &W,
    alloc: Global,
    given: Words,
    world: &mut World<S, N, E, F, L, C, O>,
) -> Status
    ensures { OverWorld S.Source N.Sink E.Sink F.Files L.Link C.Clock O.Outside (IsPlay ⟦<Store<AnyKeeper<O::Disk>> as ObjectKinds>⟧.kinds (words_by ⟦<Pcg64 as Rng>⟧ ⟦<Pcg64 as SeedableRng>⟧) given) world.old world.new result }
{
    let (seed, secret) = start_numbers(&mut world.outside);
    let mut rng = words_from(seed);
    begin(rt, alloc, given, secret, &mut rng, world)
}

/// The number from which the random words begin, and secret bytes, of two further numbers.
pub(crate) fn start_numbers<O: Outside>(outside: &mut O) -> (u64, [u8; 16])
    ensures asked { (one : ℕ) × (other : ℕ) × Tells (O.numbers outside.old) (O.numbers outside.new) (result.0 ∷ one ∷ other ∷ []) × (result.1 ≡ secret_of one other) }
    ensures disks { O.disks outside.new ≡ O.disks outside.old }
    ensures calls { O.calls outside.new ≡ O.calls outside.old }
    ensures backs { O.backs outside.new ≡ O.backs outside.old }
    ensures faults { O.faults outside.new ≡ O.faults outside.old }
{
    let seed = outside.start_number();
    let one = outside.start_number();
    let other = outside.start_number();
    (seed, secret(one, other))
}

/// The random words that begin from a number.
pub(crate) fn words_from(seed: u64) -> Pcg64
    ensures { ⟦<Pcg64 as Rng>⟧.stream result ≡ words_by ⟦<Pcg64 as Rng>⟧ ⟦<Pcg64 as SeedableRng>⟧ seed }
{
    Pcg64::seed_from_u64(seed)
}

/// Reads the resources, and plays the session over them.
fn begin<S: Source, N: Sink, E: Sink, F: Files, L: Link, C: Clock, O: Outside, R: Rng, W: Wait>(
    rt: &W,
    alloc: Global,
    given: Words,
    secret: [u8; 16],
    rng: &mut R,
    world: &mut World<S, N, E, F, L, C, O>,
) -> Status
    ensures { OverWorld S.Source N.Sink E.Sink F.Files L.Link C.Clock O.Outside (IsBegun ⟦<Store<AnyKeeper<O::Disk>> as ObjectKinds>⟧.kinds given (R.stream rng.old)) world.old world.new result }
{
    match configured(
        alloc,
        &mut world.files,
        &given.resources,
        &given.app,
        given.app_port.is_some(),
    ) {
        Ok(resources) => keep(rt, alloc, given, resources, secret, rng, world),
        Err(error) => without_resources(alloc, error),
    }
}

/// Starts all objects, and plays the session over them.
fn keep<S: Source, N: Sink, E: Sink, F: Files, L: Link, C: Clock, O: Outside, R: Rng, W: Wait>(
    rt: &W,
    alloc: Global,
    given: Words,
    resources: Resources,
    secret: [u8; 16],
    rng: &mut R,
    world: &mut World<S, N, E, F, L, C, O>,
) -> Status
    ensures { OverWorld S.Source N.Sink E.Sink F.Files L.Link C.Clock O.Outside (IsKept ⟦<Store<AnyKeeper<O::Disk>> as ObjectKinds>⟧.kinds given resources (R.stream rng.old)) world.old world.new result }
{
    match start_beside_app(
        alloc,
        given,
        resources,
        secret,
        &mut world.link,
        &mut world.clock,
        &mut world.outside,
    ) {
        Ok(up) => session(rt, alloc, up.shared, up.pass, up.room, rng, world),
        Err(status) => status,
    }
}

/// Plays the session by a pass that is alone, takes ticks, delivers what is due, tells the counts of the ledgers, ends the cells, and gives the disks back.
fn session<S: Source, N: Sink, E: Sink, F: Files, L: Link, C: Clock, O: Outside, R: Rng, W: Wait>(
    rt: &W,
    alloc: Global,
    shared: Shared<AnyKeeper<O::Disk>>,
    mut pass: Pass<AnyKeeper<O::Disk>>,
    room: Room<AnyKeeper<O::Disk>>,
    rng: &mut R,
    world: &mut World<S, N, E, F, L, C, O>,
) -> Status
    requires pass { IsPassOf (cells_of shared.objects) (seats_of pass) }
    requires lone { IsLone (cells_of shared.objects) (seats_of pass) }
    requires sound { IsSoundPass ⟦<Store<AnyKeeper<O::Disk>> as ObjectKinds>⟧.kinds (cells_of shared.objects) (seats_of pass) }
    requires room { IsRoomFor (length shared.objects.stores.items) room }
    requires fit { AllFit (stores_of shared.config.components) (map (λ cell. keeper_of cell.first) shared.objects.stores.items) }
    ensures { OverWorld S.Source N.Sink E.Sink F.Files L.Link C.Clock O.Outside (IsSession ⟦<Store<AnyKeeper<O::Disk>> as ObjectKinds>⟧.kinds shared.config shared.objects pass (R.stream rng.old)) world.old world.new result }
{
    let ended = served(rt, alloc, &shared, &mut pass, rng, world);
    let how = drained(
        rt,
        &shared,
        &mut pass,
        &mut world.link,
        &mut world.clock,
        rng,
    );
    let spent = finish(rt, shared, pass, room, &mut world.note, &mut world.outside);
    held_over(how, status_after(ended, spent))
}

/// Answers the requests of the one connection.
fn served<S: Source, N: Sink, E: Sink, F: Files, L: Link, C: Clock, O: Outside, R: Rng, W: Wait>(
    rt: &W,
    alloc: Global,
    shared: &Shared<AnyKeeper<O::Disk>>,
    pass: &mut Pass<AnyKeeper<O::Disk>>,
    rng: &mut R,
    world: &mut World<S, N, E, F, L, C, O>,
) -> Ended
    requires { IsPassOf (cells_of shared.now.objects) (seats_of pass.old) }
    ensures served { OverWorld S.Source N.Sink E.Sink F.Files L.Link C.Clock O.Outside (IsServedBy ⟦<Store<AnyKeeper<O::Disk>> as ObjectKinds>⟧.kinds shared.now pass.old pass.new (R.stream rng.old) (R.stream rng.new)) world.old world.new result }
    ensures pass { IsPassOf (cells_of shared.now.objects) (seats_of pass.new) }
{
    let mut buffers = Buffers::new(alloc);
    serve_connection(
        rt,
        shared,
        pass,
        &mut buffers,
        &mut world.source,
        &mut world.sink,
        &mut world.link,
        &mut world.clock,
        rng,
    )
}

/// Takes the ticks that are due, and then, whatever came of them, delivers what is due, and what soon will be, from now on.
fn drained<D: Disk, L: Link, C: Clock, R: Rng, W: Wait>(
    rt: &W,
    shared: &Shared<AnyKeeper<D>>,
    pass: &mut Pass<AnyKeeper<D>>,
    link: &mut L,
    clock: &mut C,
    rng: &mut R,
) -> Drained
    requires { IsPassOf (cells_of shared.now.objects) (seats_of pass.old) }
    ensures does { DoesBy ⟦<Store<AnyKeeper<D>> as ObjectKinds>⟧.kinds L.Link C.Clock R.stream shared.now.objects pass.old pass.new link.old link.new clock.old clock.new rng.old rng.new (DrainsFromNow shared.now.config) result }
    ensures pass { IsPassOf (cells_of shared.now.objects) (seats_of pass.new) }
{
    let began = clock.now();
    let ticked = take_ticks(rt, shared, pass, link, clock, rng);
    let delivered = drain(rt, shared, pass, began, link, clock, rng);
    together(ticked, delivered)
}

/// Tells the counts of the ledgers by a pass that is alone, ends the cells, and gives the disks back. Answers the first count that a seat of the pass shows of an
/// exhausted cell, or else what was read of the first cell of a ledger that is exhausted, if one is.
pub(crate) fn finish<E: Sink, O: Outside, W: Wait>(
    rt: &W,
    shared: Shared<AnyKeeper<O::Disk>>,
    mut pass: Pass<AnyKeeper<O::Disk>>,
    room: Room<AnyKeeper<O::Disk>>,
    note: &mut E,
    outside: &mut O,
) -> Option<u64>
    requires pass { IsPassOf (cells_of shared.objects) (seats_of pass) }
    requires lone { IsLone (cells_of shared.objects) (seats_of pass) }
    requires sound { IsSoundPass ⟦<Store<AnyKeeper<O::Disk>> as ObjectKinds>⟧.kinds (cells_of shared.objects) (seats_of pass) }
    requires room { IsRoomFor (length shared.objects.stores.items) room }
    requires fit { AllFit (stores_of shared.config.components) (map (λ cell. keeper_of cell.first) shared.objects.stores.items) }
    ensures { OverOutside E.Sink O.Outside (IsFinished ⟦<Store<AnyKeeper<O::Disk>> as ObjectKinds>⟧.kinds shared.config shared.objects pass) note.old note.new outside.old outside.new result }
{
    let shown = pass.spent();
    let counted = tell_ledgers(rt, &shared, &mut pass, note);
    close(shared, pass, room, outside);
    shown.or(counted)
}

/// Ends the cells by a pass that is alone, and gives the disks back.
pub(crate) fn close<O: Outside>(
    shared: Shared<AnyKeeper<O::Disk>>,
    pass: Pass<AnyKeeper<O::Disk>>,
    room: Room<AnyKeeper<O::Disk>>,
    outside: &mut O,
)
    requires lone { IsLone (cells_of shared.objects) (seats_of pass) }
    requires room { IsRoomFor (length shared.objects.stores.items) room }
    requires fit { AllFit (stores_of shared.config.components) (map (λ cell. keeper_of cell.first) shared.objects.stores.items) }
    ensures closed { IsClosed ⟦<Store<AnyKeeper<O::Disk>> as ObjectKinds>⟧.kinds shared.config shared.objects pass (outside_at O.Outside outside.old) (outside_at O.Outside outside.new) }
{
    let (config, keepers) = shared.close(pass, room);
    give_back(&config.components, keepers, outside);
}

/// The secret bytes of two numbers.
pub(crate) fn secret(one: u64, other: u64) -> [u8; 16]
    ensures { result ≡ secret_of one other }
{
    let mut bytes = [0; 16];
    bytes[..8].copy_from_slice(&one.to_le_bytes());
    bytes[8..].copy_from_slice(&other.to_le_bytes());
    bytes
}
