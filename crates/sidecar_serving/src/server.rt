ghost use Rattle.std.specs.Prelude.{◌≡◌, ◌<◌, ◌≤◌, [], length};
ghost use Rattle.std.specs.Vec.{vec_capacity};
ghost use Rattle.sidecar_workers.specs.StopSeat.{root_of};
ghost use Rattle.sidecar_objects.specs.Passes.{IsLone, IsPassOf};
ghost use Rattle.sidecar_objects.specs.Pass.{cells_of, seats_of};
ghost use Rattle.sidecar_serving.specs.Passes.{root_pass};
ghost use Rattle.sidecar_serving.specs.Served.{ServesBy};
ghost use Rattle.sidecar_serving.specs.Ending.{end_without};

use crate::End;
use crate::meeting::meet_all;
use crate::opening::{Unopened, open_all};
use crate::running::run;
use crate::serving::Serving;
use keeper_core::Keeper;
use rand_core::Rng;
use side_world::{Gate, Outside};
use sidecar_core::{ObjectKinds, Pass, Shared};
use sidecar_workers::{Slot, Stop, StopSeat};
use state_core::Store;
use std::alloc::Global;
use std::sync::Wait;
use std::thread::Threads;

/// Serves on a port of the outside, with one worker for each of these generators of random words, fewer than 65,535, until each worker has ended; `pass` is that of the
/// root seats of cells that have just begun, and is alone before and afterwards.
///
/// A worker ends where a shutdown was asked for, where its acceptor has failed, or where a cell is exhausted, and each of these stops all others too; and where
/// its acceptor is closed, which stops no other.
pub fn serve<
    K: Keeper + Send,
    O: Outside,
    R: Rng + Drop + Send,
    G: Gate + Sync,
    W: Threads + Wait + Sync,
>(
    rt: &W,
    alloc: Global,
    shared: &Shared<K>,
    pass: &mut Pass<K>,
    port: u16,
    rngs: Vec<R>,
    gate: &G,
    outside: &mut O,
) -> End
    requires few { length rngs.items < 65535 }
    requires root { seats_of pass.old ≡ root_pass 0 (cells_of shared.now.objects) }
    ensures served { ServesBy ⟦<Store<K> as ObjectKinds>⟧.kinds O.Outside R.stream shared.now port rngs.items pass.old pass.new outside.old outside.new result }
    ensures lone { IsLone (cells_of shared.now.objects) (seats_of pass.new) }
    ensures pass { IsPassOf (cells_of shared.now.objects) (seats_of pass.new) }
    ensures disks { O.disks outside.new ≡ O.disks outside.old }
    ensures numbers { O.numbers outside.new ≡ O.numbers outside.old }
{
    let Ok((stop, mut seat)) = Stop::start(alloc) else {
        return End::NoMemory;
    };
    let Ok(slots) = Vec::with_capacity(alloc, rngs.len()) else {
        return End::NoMemory;
    };
    serve_in(
        rt, alloc, shared, pass, port, rngs, gate, outside, &stop, &mut seat, slots,
    )
}

/// Serves by workers that are put into an empty list, whose room was taken before.
fn serve_in<
    'a,
    K: Keeper + Send,
    O: Outside,
    R: Rng + Drop + Send,
    G: Gate + Sync,
    W: Threads + Wait + Sync,
>(
    rt: &W,
    alloc: Global,
    shared: &'a Shared<K>,
    pass: &mut Pass<K>,
    port: u16,
    rngs: Vec<R>,
    gate: &G,
    outside: &mut O,
    stop: &Stop,
    seat: &mut StopSeat,
    mut slots: Vec<Slot<Serving<'a, K, O::Acceptor, O::Link, O::Clock, R>>>,
) -> End
    requires few { length rngs.items < 65535 }
    requires bare { slots.items ≡ [] }
    requires room { length rngs.items ≤ vec_capacity slots }
    requires root { seats_of pass.old ≡ root_pass 0 (cells_of shared.now.objects) }
    requires seat { seat.old ≡ root_of stop.now }
    ensures served { ServesBy ⟦<Store<K> as ObjectKinds>⟧.kinds O.Outside R.stream shared.now port rngs.items pass.old pass.new outside.old outside.new result }
    ensures lone { IsLone (cells_of shared.now.objects) (seats_of pass.new) }
    ensures disks { O.disks outside.new ≡ O.disks outside.old }
    ensures numbers { O.numbers outside.new ≡ O.numbers outside.old }
{
    match open_all(
        alloc, shared, pass, stop, seat, port, rngs, outside, &mut slots,
    ) {
        Ok(()) => {
            run(rt, shared, slots.as_mut_slice(), stop, gate);
            meet_all(shared, slots, pass, stop, seat, outside)
        }
        Err(unopened) => {
            meet_all(shared, slots, pass, stop, seat, outside);
            end_without(unopened)
        }
    }
}

/// How serving ends where a worker was not opened.
fn end_without(unopened: Unopened) -> End
    ensures { result ≡ end_without unopened }
{
    match unopened {
        Unopened::Failed => End::OutsideFailed,
        Unopened::NoMemory => End::NoMemory,
    }
}
