//! What is measured, and written as lines of standard error.
ghost use Rattle.std.specs.Prelude.{IfOk};
ghost use Rattle.sidecar_objects.specs.Passes.{IsPassOf};
ghost use Rattle.sidecar_objects.specs.Pass.{cells_of, seats_of};

use crate::devices::{Again, Counted, NoLink, StillClock};
use crate::requests::{Asked, Kind, together};
use app_peers::PeerList;
use conn_serve::{Buffers, Ended};
use keeper_core::MemoryKeeper;
use policy_spec::policies;
use rand_core::SeedableRng;
use rand_pcg::Pcg64;
use resource_spec::components;
use side_base::{Moment, NoMemory, Places, Text};
use sidecar_core::{Config, Pass, Room, Shared, count_of_stores, serve_connection};
use std::alloc::Global;
use std::io::{self, ErrorKind};
use std::rt::Clock;
use std::sync::Wait;
use std::time::{Duration, Instant};
use topic_spec::Subs;
use yaml_subset::read_docs;

/// One store in memory.
const RESOURCES: &str =
    "apiVersion: dapr.io/v1alpha1\nkind: Component\nmetadata:\n  name: statestore\nspec:\n  type: state.in-memory\n  version: v1\n";

/// How many bytes the rows of the store may have.
const LIMIT: u64 = 402_653_184;

/// How many requests are made at most: the next one would end the connection.
const MOST: u32 = 99_999;

/// Measures a row by so many requests, and writes what one of them costs.
pub(crate) fn tell<R: Clock + Wait + Eprint>(
    rt: &R,
    alloc: Global,
    asked: Asked,
    requests: u32,
) -> io::Result<()> {
    let times = requests.min(MOST) / asked.group.max(1);
    let (took, counted) = time(rt, alloc, asked, times)?;
    let made = u64::from(times) * u64::from(asked.group);
    let each = took.as_nanos() / u128::from(made.max(1));
    let (whole, part) = (each / 1000, each % 1000);
    let (name, writes, bytes) = (asked.name, counted.writes, counted.bytes);
    eprintln!(rt;
        "{name}: {whole}.{part:03} microseconds a request; {made} requests, {writes} writes of {bytes} bytes"
    )
}

/// How long it takes to serve a connection with so many groups of requests, behind a save of 100 bytes, and what was written.
fn time<R: Clock + Wait>(
    rt: &R,
    alloc: Global,
    asked: Asked,
    times: u32,
) -> io::Result<(Duration, Counted)> {
    let (shared, mut pass, _room) = started(alloc)?;
    timed(rt, alloc, &shared, &mut pass, asked, times)
}

/// The objects of a sidecar with that store, and the pass over them.
fn started(
    alloc: Global,
) -> io::Result<(Shared<MemoryKeeper>, Pass<MemoryKeeper>, Room<MemoryKeeper>)>
    ensures { IfOk result (λ made. IsPassOf (cells_of made.0.objects) (seats_of made.1)) }
{
    let config = config_of(alloc)?;
    let keepers = one_keeper(alloc)?;
    if count_of_stores(&config.components) != keepers.len() {
        return Err(unfit());
    }
    let Some(start) = Moment::at(0) else {
        return Err(unfit());
    };
    Ok(Shared::start(alloc, config, keepers, start)?)
}

/// A keeper without rows.
fn one_keeper(alloc: Global) -> Result<Vec<MemoryKeeper>, NoMemory> {
    let mut keepers = Vec::new(alloc);
    keepers.push(MemoryKeeper::new(alloc, LIMIT, Places::new(alloc), [7; 16]))?;
    Ok(keepers)
}

/// The same over these objects.
fn timed<R: Clock + Wait>(
    rt: &R,
    alloc: Global,
    shared: &Shared<MemoryKeeper>,
    pass: &mut Pass<MemoryKeeper>,
    asked: Asked,
    times: u32,
) -> io::Result<(Duration, Counted)>
    requires { IsPassOf (cells_of shared.now.objects) (seats_of pass.old) }
{
    let first = together(alloc, Kind::Save(100), 1)?;
    let piece = together(alloc, asked.kind, asked.group)?;
    let (connections, each) = if asked.is_apart {
        (times, 1)
    } else {
        (1, times)
    };
    serve_all(rt, alloc, shared, pass, first.bytes(), 1, 1)?;
    let begin = Instant::now(rt)?;
    let counted = serve_all(rt, alloc, shared, pass, piece.bytes(), connections, each)?;
    Ok((begin.elapsed(rt)?, counted))
}

/// Serves so many connections, on each of which `piece` comes so many times, and counts what they write; each write must begin with a success.
fn serve_all<R: Wait>(
    rt: &R,
    alloc: Global,
    shared: &Shared<MemoryKeeper>,
    pass: &mut Pass<MemoryKeeper>,
    piece: &[u8],
    connections: u32,
    times: u32,
) -> io::Result<Counted>
    requires { IsPassOf (cells_of shared.now.objects) (seats_of pass.old) }
    ensures { IsPassOf (cells_of shared.now.objects) (seats_of pass.new) }
{
    let mut buffers = Buffers::new(alloc);
    let mut sink = Counted {
        writes: 0,
        good: 0,
        bytes: 0,
    };
    for _ in 0..connections {
        serve_one(rt, shared, pass, &mut buffers, piece, times, &mut sink);
    }
    if sink.good == sink.writes {
        Ok(sink)
    } else {
        Err(unfit())
    }
}

/// An error of what can't be measured.
fn unfit() -> io::Error {
    io::Error::from(ErrorKind::InvalidData)
}

/// The configuration with that store.
fn config_of(alloc: Global) -> io::Result<Config> {
    let app = Text::from_static(alloc, "a");
    let docs = read_docs(alloc, RESOURCES.as_bytes()).ok().ok_or(unfit())?;
    let components = components(alloc, &docs, &app).ok().ok_or(unfit())?;
    let policies = policies(alloc, &docs, &app).ok().ok_or(unfit())?;
    Ok(Config {
        app,
        app_port: None,
        peers: PeerList::new(alloc),
        components,
        subs: Subs::new(alloc),
        policies,
    })
}

/// Serves a connection on which `piece` comes so many times; one that ends otherwise than by the end of its source counts as a write that is no success.
fn serve_one<R: Wait>(
    rt: &R,
    shared: &Shared<MemoryKeeper>,
    pass: &mut Pass<MemoryKeeper>,
    buffers: &mut Buffers,
    piece: &[u8],
    times: u32,
    sink: &mut Counted,
)
    requires { IsPassOf (cells_of shared.now.objects) (seats_of pass.old) }
    ensures { IsPassOf (cells_of shared.now.objects) (seats_of pass.new) }
{
    let mut source = Again {
        piece,
        left: times,
        at: 0,
        ended: false,
    };
    let mut clock = StillClock {
        at: beginning(),
        paused: 0,
    };
    let mut rng = Pcg64::seed_from_u64(7);
    let ended = serve_connection(
        rt,
        shared,
        pass,
        buffers,
        &mut source,
        sink,
        &mut NoLink,
        &mut clock,
        &mut rng,
    );
    if ended != Ended::Done {
        sink.writes = sink.writes.saturating_add(1);
    }
}

/// The beginning of 1970.
fn beginning() -> Moment {
    match Moment::at(0) {
        Some(moment) => moment,
        None => unreachable!(),
    }
}
