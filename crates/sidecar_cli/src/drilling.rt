ghost use Rattle.std.specs.Prelude.{◌≡◌, ◌++◌, IfOk, OnOk, decimal, length, map};
ghost use Rattle.state_core.specs.Store.{keeper_of};
ghost use Rattle.conn_serve.specs.Ends.{sink_at};
ghost use Rattle.sidecar_objects.specs.Passes.{IsLone, IsPassOf, IsSoundPass};
ghost use Rattle.sidecar_objects.specs.Pass.{cells_of, seats_of};
ghost use Rattle.sidecar_core.specs.Started.{IsRoomFor};
ghost use Rattle.sidecar_keepers.specs.Kinds.{AllFit};
ghost use Rattle.sidecar_keepers.specs.Stores.{stores_of};
ghost use Rattle.sidecar_cli.specs.Drill.{AreAllAnswered, IsDrill, IsDrillSession, IsDrilled, IsPrepared, IsServedByDrill, IsToldOf, drill_line, stop_of};
ghost use Rattle.sidecar_cli.specs.Status.{status_after};
ghost use Rattle.sidecar_cli.specs.World.{OverWorld, outside_at, words_by};

use crate::playing::{close, start_numbers, words_from};
use crate::starting::start_objects;
use crate::status::status_after;
use crate::{Device, Status, World};
use app_peers::PeerList;
use conn_serve::{Buffers, Ended};
use drill::{KeptSink, NoLink, StillClock, Tally, count_statuses, requests};
use itoa::Buffer;
use keeper_journal::AnyKeeper;
use rand_core::{Rng, SeedableRng};
use rand_pcg::Pcg64;
use resource_files::usual_resources;
use side_base::{Blob, NoMemory, Text};
use side_world::{BytesSource, Clock, Disk, Failed, Files, Link, Outside, Sink, Source, send};
use sidecar_core::{Config, ObjectKinds, Pass, Room, Shared, serve_connection};
use state_core::Store;
use std::alloc::Global;
use std::sync::Wait;
use topic_spec::Subs;

/// What a drill begins with: the configuration, and the bytes of its requests.
#[derive(Drop)]
struct Prepared {
    config: Config,
    bytes: Blob,
}

/// Answers generated requests over a store in memory, and says how many responses had which status.
pub(crate) fn run_drill<
    S: Source,
    N: Sink,
    E: Sink,
    F: Files,
    L: Link,
    C: Clock,
    O: Outside,
    W: Wait,
>(
    rt: &W,
    alloc: Global,
    app: Text,
    start: u64,
    count: u32,
    world: &mut World<S, N, E, F, L, C, O>,
) -> Status
    ensures { OverWorld S.Source N.Sink E.Sink F.Files L.Link C.Clock O.Outside (IsDrill ⟦<Store<AnyKeeper<O::Disk>> as ObjectKinds>⟧.kinds (words_by ⟦<Pcg64 as Rng>⟧ ⟦<Pcg64 as SeedableRng>⟧) app start count) world.old world.new result }
{
    let (seed, secret) = start_numbers(&mut world.outside);
    let mut rng = words_from(seed);
    match prepare(alloc, app, start, count) {
        Ok(ready) => answer_all(rt, alloc, ready, count, secret, &mut rng, world),
        Err(NoMemory) => Status::NoMemory,
    }
}

/// The configuration and the requests of a drill.
fn prepare(alloc: Global, app: Text, start: u64, count: u32) -> Result<Prepared, NoMemory>
    ensures { IfOk result (λ ready. IsPrepared (words_by ⟦<Pcg64 as Rng>⟧ ⟦<Pcg64 as SeedableRng>⟧) app start count ready.config ready.bytes) }
{
    let resources = usual_resources(alloc, &app)?;
    let bytes = requests(alloc, start, count)?;
    let config = Config {
        app,
        app_port: None,
        peers: PeerList::new(alloc),
        components: resources.components,
        subs: Subs::new(alloc),
        policies: resources.policies,
    };
    Ok(Prepared { config, bytes })
}

/// Answers the requests, and says how many responses had which status.
fn answer_all<
    S: Source,
    N: Sink,
    E: Sink,
    F: Files,
    L: Link,
    C: Clock,
    O: Outside,
    R: Rng,
    W: Wait,
>(
    rt: &W,
    alloc: Global,
    ready: Prepared,
    count: u32,
    secret: [u8; 16],
    rng: &mut R,
    world: &mut World<S, N, E, F, L, C, O>,
) -> Status
    ensures { OverWorld S.Source N.Sink E.Sink F.Files L.Link C.Clock O.Outside (AreAllAnswered ⟦<Store<AnyKeeper<O::Disk>> as ObjectKinds>⟧.kinds ready.config ready.bytes count (R.stream rng.old)) world.old world.new result }
{
    match drilled(rt, alloc, ready, secret, rng, &mut world.outside) {
        Ok(kept) => tell(alloc, count, &kept, &mut world.sink),
        Err(status) => status,
    }
}

/// Starts all objects, at the moment at which the clock of a drill stands, and answers the requests over them; what was written, or how the run ends without it.
fn drilled<O: Outside, R: Rng, W: Wait>(
    rt: &W,
    alloc: Global,
    ready: Prepared,
    secret: [u8; 16],
    rng: &mut R,
    outside: &mut O,
) -> Result<KeptSink, Status>
    ensures { IsDrilled ⟦<Store<AnyKeeper<O::Disk>> as ObjectKinds>⟧.kinds ready.config ready.bytes (R.stream rng.old) (outside_at O.Outside outside.old) (outside_at O.Outside outside.new) result }
{
    let mut clock = StillClock::new();
    let start = clock.now();
    match start_objects(alloc, ready.config, secret, start, outside) {
        Ok(up) => session(
            rt,
            alloc,
            up.shared,
            up.pass,
            up.room,
            ready.bytes,
            rng,
            outside,
        ),
        Err(status) => Err(status),
    }
}

/// Answers the requests by a pass that is alone, and ends the cells.
fn session<O: Outside, R: Rng, W: Wait>(
    rt: &W,
    alloc: Global,
    shared: Shared<AnyKeeper<O::Disk>>,
    mut pass: Pass<AnyKeeper<O::Disk>>,
    room: Room<AnyKeeper<O::Disk>>,
    bytes: Blob,
    rng: &mut R,
    outside: &mut O,
) -> Result<KeptSink, Status>
    requires pass { IsPassOf (cells_of shared.objects) (seats_of pass) }
    requires lone { IsLone (cells_of shared.objects) (seats_of pass) }
    requires room { IsRoomFor (length shared.objects.stores.items) room }
    requires fit { AllFit (stores_of shared.config.components) (map (λ cell. keeper_of cell.first) shared.objects.stores.items) }
    ensures { IsDrillSession ⟦<Store<AnyKeeper<O::Disk>> as ObjectKinds>⟧.kinds shared.config shared.objects pass bytes (R.stream rng.old) (outside_at O.Outside outside.old) (outside_at O.Outside outside.new) result }
{
    let mut sink = KeptSink::new(alloc);
    let ended = served(rt, alloc, &shared, &mut pass, bytes, &mut sink, rng);
    let spent = pass.spent();
    close(shared, pass, room, outside);
    match stop_of(ended, spent) {
        None => Ok(sink),
        Some(status) => Err(status),
    }
}

/// Answers the requests that these bytes are, by devices of the drill's own.
fn served<D: Disk, R: Rng, W: Wait>(
    rt: &W,
    alloc: Global,
    shared: &Shared<AnyKeeper<D>>,
    pass: &mut Pass<AnyKeeper<D>>,
    bytes: Blob,
    sink: &mut KeptSink,
    rng: &mut R,
) -> Ended
    requires { IsPassOf (cells_of shared.now.objects) (seats_of pass.old) }
    ensures { IsServedByDrill ⟦<Store<AnyKeeper<D>> as ObjectKinds>⟧.kinds shared.now.config shared.now.objects pass.old pass.new bytes (R.stream rng.old) (sink_at ⟦<KeptSink as Sink>⟧ sink.old) (sink_at ⟦<KeptSink as Sink>⟧ sink.new) result }
{
    let mut buffers = Buffers::new(alloc);
    let mut source = BytesSource::new(bytes);
    let mut link = NoLink::new();
    let mut clock = StillClock::new();
    serve_connection(
        rt,
        shared,
        pass,
        &mut buffers,
        &mut source,
        sink,
        &mut link,
        &mut clock,
        rng,
    )
}

/// How a drill ends whose connection ended so, where this was read in an exhausted cell, if one is; `None` where its responses are counted. Its sink fails only
/// for want of memory.
fn stop_of(ended: Ended, spent: Option<u64>) -> Option<Status>
    ensures { result ≡ stop_of (status_after ended spent) }
{
    match status_after(ended, spent) {
        Status::Ok => None,
        Status::OutsideFailed(Device::Sink) => Some(Status::NoMemory),
        status => Some(status),
    }
}

/// Says how many requests there were, and how many responses had which status.
fn tell<N: Sink>(alloc: Global, count: u32, kept: &KeptSink, sink: &mut N) -> Status
    ensures { IsToldOf count kept.now.contents (sink_at N.Sink sink.old) (sink_at N.Sink sink.new) result }
{
    let Ok(line) = line(alloc, count, &count_statuses(kept.bytes())) else {
        return Status::NoMemory;
    };
    match send(sink, line.bytes()) {
        Ok(()) => Status::Ok,
        Err(Failed) => Status::OutsideFailed(Device::Sink),
    }
}

/// The line of so many requests and of so many responses of each status.
#[tactic(auto, unfolding(crate::specs::Drill::drill_line))]
fn line(alloc: Global, count: u32, tally: &Tally) -> Result<Blob, NoMemory>
    ensures { IfOk result (λ line. line ≡ drill_line count tally.now) }
{
    let mut line = Blob::from_bytes(alloc, b"requests ")?;
    line.push(Buffer::new().format(count).as_bytes())?;
    push_number(&mut line, b" 200 ", tally.ok)?;
    push_number(&mut line, b" 204 ", tally.no_content)?;
    push_number(&mut line, b" 409 ", tally.conflict)?;
    push_number(&mut line, b" other ", tally.other)?;
    line.push(b"\n")?;
    Ok(line)
}

/// Appends a word and a number.
fn push_number(line: &mut Blob, word: &[u8], number: usize) -> Result<(), NoMemory>
    ensures { OnOk result (line.new ≡ line.old ++ (word.now ++ decimal number)) }
{
    line.push(word)?;
    line.push(Buffer::new().format(number).as_bytes())
}
