//! Serving over given keepers, or over one store in memory.
ghost use Rattle.std.specs.Prelude.{◌≡◌, IfSome};
ghost use Rattle.sidecar_objects.specs.Pass.{cells_of, seats_of};
ghost use Rattle.sidecar_serving.specs.Passes.{root_pass};

use app_peers::PeerList;
use keeper_core::{Keeper, MemoryKeeper};
use policy_spec::policies;
use rand_core::SeedableRng;
use rand_pcg::Pcg64;
use resource_spec::components;
use side_base::{Moment, NoMemory, Places, Text};
use side_world::{Gate, Outside};
use sidecar_core::{Config, Pass, Shared, count_of_stores};
use sidecar_serving::{End, serve};
use std::alloc::Global;
use std::sync::Wait;
use std::thread::Threads;
use topic_spec::Subs;
use yaml_subset::read_docs;

/// One store in memory.
const RESOURCES: &[u8] =
    b"apiVersion: dapr.io/v1alpha1\nkind: Component\nmetadata:\n  name: statestore\nspec:\n  type: state.in-memory\n  version: v1\n";

/// How many bytes the rows of the store may have.
const LIMIT: u64 = 402_653_184;

/// Fewer generators than this are served by.
const MOST_WORKERS: usize = 65_535;

/// The configuration that a resource file says.
fn config(alloc: Global, resources: &[u8]) -> Option<Config> {
    let app = Text::from_static(alloc, "a");
    let docs = read_docs(alloc, resources).ok()?;
    Some(Config {
        components: components(alloc, &docs, &app).ok()?,
        subs: Subs::new(alloc),
        policies: policies(alloc, &docs, &app).ok()?,
        app_port: None,
        peers: PeerList::new(alloc),
        app,
    })
}

/// A keeper without rows.
fn one_keeper(alloc: Global) -> Result<Vec<MemoryKeeper>, NoMemory> {
    let mut keepers = Vec::new(alloc);
    keepers.push(MemoryKeeper::new(alloc, LIMIT, Places::new(alloc), [7; 16]))?;
    Ok(keepers)
}

/// The objects of a sidecar of this configuration, and the pass over them.
fn started<K: Keeper>(
    alloc: Global,
    config: Config,
    keepers: Vec<K>,
) -> Option<(Shared<K>, Pass<K>)>
    ensures root { IfSome result (λ made. seats_of made.1 ≡ root_pass 0 (cells_of made.0.objects)) }
{
    if count_of_stores(&config.components) != keepers.len() {
        return None;
    }
    let start = Moment::at(0)?;
    match Shared::start(alloc, config, keepers, start) {
        Ok((shared, pass, _room)) => Some((shared, pass)),
        Err(_) => None,
    }
}

/// A generator for each of so many workers, of 64 at most; their words are always the same.
fn generators(alloc: Global, workers: u32) -> Result<Vec<Pcg64>, NoMemory> {
    let mut generators = Vec::new(alloc);
    for number in 0..workers.min(64) {
        generators.push(Pcg64::seed_from_u64(u64::from(number)))?;
    }
    Ok(generators)
}

/// Serves one store in memory by so many workers, of 64 at most, and answers how that ended; nothing where it could not be started.
pub(crate) fn served<O: Outside, G: Gate + Sync, W: Threads + Wait + Sync>(
    rt: &W,
    alloc: Global,
    port: u16,
    workers: u32,
    gate: &G,
    outside: &mut O,
) -> Option<End> {
    let keepers = one_keeper(alloc).ok()?;
    served_over(rt, alloc, RESOURCES, keepers, port, workers, gate, outside)
}

/// The same over the stores of a resource file, whose keepers these are.
pub(crate) fn served_over<K: Keeper + Send, O: Outside, G: Gate + Sync, W: Threads + Wait + Sync>(
    rt: &W,
    alloc: Global,
    resources: &[u8],
    keepers: Vec<K>,
    port: u16,
    workers: u32,
    gate: &G,
    outside: &mut O,
) -> Option<End> {
    let (shared, mut pass) = started(alloc, config(alloc, resources)?, keepers)?;
    let generators = generators(alloc, workers).ok()?;
    if generators.len() >= MOST_WORKERS {
        return None;
    }
    Some(serve(
        rt, alloc, &shared, &mut pass, port, generators, gate, outside,
    ))
}
