ghost use Rattle.std.specs.Prelude.{◌≡◌, ◌<◌, ℕ, List, IfOk, OnErr, length, map};
ghost use Rattle.rand_core.specs.Stream.{Stream};
ghost use Rattle.side_world.specs.Told.{Tells};
ghost use Rattle.state_core.specs.Store.{keeper_of};
ghost use Rattle.sidecar_objects.specs.Passes.{IsLone, IsPassOf, IsSoundPass};
ghost use Rattle.sidecar_objects.specs.Pass.{cells_of, seats_of};
ghost use Rattle.sidecar_core.specs.Started.{IsRoomFor};
ghost use Rattle.sidecar_keepers.specs.Kinds.{AllFit};
ghost use Rattle.sidecar_keepers.specs.Stores.{stores_of};
ghost use Rattle.sidecar_serving.specs.Passes.{root_pass};
ghost use Rattle.sidecar_cli.specs.Serve.{AsksForStreams, IsBegunServing, IsKeptServing, IsServe, IsServing, refusal_of, spent_at, status_after_serving, status_at};
ghost use Rattle.sidecar_cli.specs.World.{OverOutside, OverWorld, words_by};

use crate::configuring::{configured, without_resources};
use crate::playing::{close, finish, secret};
use crate::starting::start_beside_app;
use crate::{Device, Status, World};
use keeper_journal::AnyKeeper;
use rand_core::{Rng, SeedableRng};
use rand_pcg::Pcg64;
use resource_files::Resources;
use side_base::NoMemory;
use side_world::{Clock, Files, FreeGate, Link, Outside, Sink, Source};
use sidecar_core::{ObjectKinds, Pass, Room, Shared};
use sidecar_serving::{End, serve};
use sidecar_words::Words;
use state_core::Store;
use std::alloc::Global;
use std::sync::Wait;
use std::thread::Threads;

/// What workers begin with: a generator of random words for each, and the secret bytes of the keepers.
#[derive(Drop)]
struct Numbers {
    rngs: Vec<Pcg64>,
    secret: [u8; 16],
}

/// Serves on the port, over stores that are started for it, until all workers have ended.
pub(crate) fn serve_port<
    S: Source,
    N: Sink,
    E: Sink,
    F: Files,
    L: Link,
    C: Clock,
    O: Outside,
    W: Threads + Wait + Sync,
>(rt: &W, alloc: Global, given: Words, world: &mut World<S, N, E, F, L, C, O>) -> Status
    requires { given.workers < 65535 }
    ensures { OverWorld S.Source N.Sink E.Sink F.Files L.Link C.Clock O.Outside (IsServe ⟦<Store<AnyKeeper<O::Disk>> as ObjectKinds>⟧.kinds (words_by ⟦<Pcg64 as Rng>⟧ ⟦<Pcg64 as SeedableRng>⟧) given) world.old world.new result }
{
    match worker_numbers(alloc, given.workers, &mut world.outside) {
        Ok(numbers) => begin(rt, alloc, given, numbers.secret, numbers.rngs, world),
        Err(NoMemory) => Status::NoMemory,
    }
}

/// A generator of random words for each worker, of a number each, and secret bytes, of two further numbers.
fn worker_numbers<O: Outside>(
    alloc: Global,
    workers: u32,
    outside: &mut O,
) -> Result<Numbers, NoMemory>
    ensures asked { IfOk result (λ made. AsksForStreams (words_by ⟦<Pcg64 as Rng>⟧ ⟦<Pcg64 as SeedableRng>⟧) workers (map (λ rng. ⟦<Pcg64 as Rng>⟧.stream rng) made.rngs.items) made.secret (O.numbers outside.old) (O.numbers outside.new)) }
    ensures disks { O.disks outside.new ≡ O.disks outside.old }
    ensures calls { O.calls outside.new ≡ O.calls outside.old }
    ensures backs { O.backs outside.new ≡ O.backs outside.old }
    ensures faults { O.faults outside.new ≡ O.faults outside.old }
    ensures lacks { OnErr result (O.numbers outside.new ≡ O.numbers outside.old) }
{
    let rngs = draw_all(alloc, workers, outside)?;
    let one = outside.start_number();
    let other = outside.start_number();
    Ok(Numbers {
        rngs,
        secret: secret(one, other),
    })
}

/// So many generators of random words, of a number each.
fn draw_all<O: Outside, R: Rng + SeedableRng + Drop>(
    alloc: Global,
    count: u32,
    outside: &mut O,
) -> Result<Vec<R>, NoMemory>
    ensures drawn { IfOk result (λ rngs. (seeds : List ℕ) × (length seeds ≡ count) × (map R.stream rngs.items ≡ map (λ n. R.stream (R.of_seed (R.seed_of_u64 n))) seeds) × Tells (O.numbers outside.old) (O.numbers outside.new) seeds) }
    ensures disks { O.disks outside.new ≡ O.disks outside.old }
    ensures calls { O.calls outside.new ≡ O.calls outside.old }
    ensures backs { O.backs outside.new ≡ O.backs outside.old }
    ensures faults { O.faults outside.new ≡ O.faults outside.old }
    ensures lacks { OnErr result (O.numbers outside.new ≡ O.numbers outside.old) }
{
    let mut rngs = Vec::with_capacity(alloc, count as usize)?;
    for _ in 0..count {
        rngs.push_reserved(R::seed_from_u64(outside.start_number()));
    }
    Ok(rngs)
}

/// Reads the resources, and serves over them.
fn begin<
    S: Source,
    N: Sink,
    E: Sink,
    F: Files,
    L: Link,
    C: Clock,
    O: Outside,
    R: Rng + Drop + Send,
    W: Threads + Wait + Sync,
>(
    rt: &W,
    alloc: Global,
    given: Words,
    secret: [u8; 16],
    rngs: Vec<R>,
    world: &mut World<S, N, E, F, L, C, O>,
) -> Status
    requires { length rngs.items < 65535 }
    ensures { OverWorld S.Source N.Sink E.Sink F.Files L.Link C.Clock O.Outside (IsBegunServing ⟦<Store<AnyKeeper<O::Disk>> as ObjectKinds>⟧.kinds given (map R.stream rngs.items)) world.old world.new result }
{
    match configured(
        alloc,
        &mut world.files,
        &given.resources,
        &given.app,
        given.app_port.is_some(),
    ) {
        Ok(resources) => keep(rt, alloc, given, resources, secret, rngs, world),
        Err(error) => without_resources(alloc, error),
    }
}

/// Starts all objects, and serves over them.
fn keep<
    S: Source,
    N: Sink,
    E: Sink,
    F: Files,
    L: Link,
    C: Clock,
    O: Outside,
    R: Rng + Drop + Send,
    W: Threads + Wait + Sync,
>(
    rt: &W,
    alloc: Global,
    given: Words,
    resources: Resources,
    secret: [u8; 16],
    rngs: Vec<R>,
    world: &mut World<S, N, E, F, L, C, O>,
) -> Status
    requires { length rngs.items < 65535 }
    ensures { OverWorld S.Source N.Sink E.Sink F.Files L.Link C.Clock O.Outside (IsKeptServing ⟦<Store<AnyKeeper<O::Disk>> as ObjectKinds>⟧.kinds given resources (map R.stream rngs.items)) world.old world.new result }
{
    let port = given.port;
    match start_beside_app(
        alloc,
        given,
        resources,
        secret,
        &mut world.link,
        &mut world.clock,
        &mut world.outside,
    ) {
        Ok(up) => serve_over(
            rt,
            alloc,
            up.shared,
            up.pass,
            up.room,
            port,
            rngs,
            &mut world.note,
            &mut world.outside,
        ),
        Err(status) => status,
    }
}

/// Serves over objects that were just started, tells the counts of the ledgers, ends the cells, and gives the disks back.
fn serve_over<E: Sink, O: Outside, R: Rng + Drop + Send, W: Threads + Wait + Sync>(
    rt: &W,
    alloc: Global,
    shared: Shared<AnyKeeper<O::Disk>>,
    mut pass: Pass<AnyKeeper<O::Disk>>,
    room: Room<AnyKeeper<O::Disk>>,
    port: u16,
    rngs: Vec<R>,
    note: &mut E,
    outside: &mut O,
) -> Status
    requires few { length rngs.items < 65535 }
    requires root { seats_of pass ≡ root_pass 0 (cells_of shared.objects) }
    requires sound { IsSoundPass ⟦<Store<AnyKeeper<O::Disk>> as ObjectKinds>⟧.kinds (cells_of shared.objects) (seats_of pass) }
    requires room { IsRoomFor (length shared.objects.stores.items) room }
    requires fit { AllFit (stores_of shared.config.components) (map (λ cell. keeper_of cell.first) shared.objects.stores.items) }
    ensures { OverOutside E.Sink O.Outside (IsServing ⟦<Store<AnyKeeper<O::Disk>> as ObjectKinds>⟧.kinds shared.config shared.objects pass port (map R.stream rngs.items)) note.old note.new outside.old outside.new result }
{
    let end = serve(
        rt, alloc, &shared, &mut pass, port, rngs, &FreeGate, outside,
    );
    match refusal_of(end) {
        Some(status) => {
            close(shared, pass, room, outside);
            status
        }
        None => {
            let spent = finish(rt, shared, pass, room, note, outside);
            status_after_serving(end, spent)
        }
    }
}

/// How a run ends whose workers were not opened; `None` where they were.
fn refusal_of(end: End) -> Option<Status>
    ensures { result ≡ refusal_of end }
{
    match end {
        End::Done | End::AcceptorFailed | End::Spent { .. } => None,
        End::OutsideFailed => Some(Status::OutsideFailed(Device::Outside)),
        End::NoMemory => Some(Status::NoMemory),
    }
}

/// How a run ends whose workers ended so, where this was read in an exhausted cell, if one is.
fn status_after_serving(end: End, spent: Option<u64>) -> Status
    ensures { result ≡ status_after_serving end spent }
{
    match spent_at(end).or(spent) {
        Some(count) => Status::Spent { count },
        None => status_at(end),
    }
}

/// What was read in the cell that ended serving, if one did.
fn spent_at(end: End) -> Option<u64>
    ensures { result ≡ spent_at end }
{
    match end {
        End::Spent { count } => Some(count),
        End::Done | End::AcceptorFailed | End::OutsideFailed | End::NoMemory => None,
    }
}

/// How a run ends whose workers ended so.
fn status_at(end: End) -> Status
    ensures { result ≡ status_at end }
{
    match end {
        End::Done => Status::Ok,
        End::AcceptorFailed => Status::OutsideFailed(Device::Acceptor),
        End::Spent { count } => Status::Spent { count },
        End::OutsideFailed => Status::OutsideFailed(Device::Outside),
        End::NoMemory => Status::NoMemory,
    }
}
