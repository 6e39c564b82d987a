ghost use Rattle.std.specs.Prelude.{◌≡◌, ◌≤◌, ◌<◌, ◌+◌, ◌∷◌, ℕ, true, [], length, map, IfOk, OnOk, OnErr, IsErrOf};
ghost use Rattle.std.specs.Vec.{vec_capacity};
ghost use Rattle.side_world.specs.declared.outside.OutsideCall.TheVariants as call;
ghost use Rattle.side_world.specs.Faults.{Rose};
ghost use Rattle.side_world.specs.Told.{Tells};
ghost use Rattle.sidecar_objects.specs.Pass.{cells_of, seats_of};
ghost use Rattle.sidecar_workers.specs.StopSeat.{parent_of, root_of};
ghost use Rattle.sidecar_serving.specs.Opened.{AreWorkers, IsAskedUpTo, worker_calls};
ghost use Rattle.sidecar_serving.specs.Passes.{root_pass, worker_pass};
ghost use Rattle.sidecar_serving.specs.Slots.{IsOpenedSlot};

use crate::due::Due;
use crate::serving::Serving;
use conn_serve::Buffers;
use keeper_core::Keeper;
use rand_core::Rng;
use side_base::NoMemory;
use side_world::{Failed, Outside, WorkerParts};
use sidecar_core::{Pass, Shared};
use sidecar_workers::{Slot, Stop, StopSeat};
use std::alloc::Global;

/// Why a worker was not opened.
#[derive(Clone, Copy, Debug, PartialEq, Eq)]
pub(crate) enum Unopened {
    /// The outside failed: its count of faults rose.
    Failed,
    NoMemory,
}

/// Opens a worker for each of these generators, in order, and puts them into an empty list whose room was taken before. Where one is refused, those that were
/// opened before it are there.
pub(crate) fn open_all<'a, K: Keeper, O: Outside, R: Rng + Drop>(
    alloc: Global,
    shared: &'a Shared<K>,
    pass: &mut Pass<K>,
    stop: &Stop,
    seat: &mut StopSeat,
    port: u16,
    rngs: Vec<R>,
    outside: &mut O,
    slots: &mut Vec<Slot<Serving<'a, K, O::Acceptor, O::Link, O::Clock, R>>>,
) -> Result<(), Unopened>
    requires few { length rngs.items < 65535 }
    requires bare { slots.old.items ≡ [] }
    requires room { length rngs.items ≤ vec_capacity slots.old }
    requires root { seats_of pass.old ≡ root_pass 0 (cells_of shared.now.objects) }
    requires seat { seat.old ≡ root_of stop.now }
    ensures opened { AreWorkers (IsOpenedSlot stop.now shared.now) 0 (map R.stream rngs.items) slots.new.items }
    ensures all { OnOk result (length slots.new.items ≡ length rngs.items) }
    ensures some { length slots.new.items ≤ length rngs.items }
    ensures root { seats_of pass.new ≡ root_pass (length slots.new.items) (cells_of shared.now.objects) }
    ensures seat { seat.new ≡ record (root_of stop.now) { out = length slots.new.items } }
    ensures calls { OnOk result (Tells (O.calls outside.old) (O.calls outside.new) (worker_calls port (length rngs.items))) }
    ensures asked { (asked : ℕ) × IsAskedUpTo (length rngs.items) (length slots.new.items) asked × Tells (O.calls outside.old) (O.calls outside.new) (worker_calls port asked) }
    ensures disks { O.disks outside.new ≡ O.disks outside.old }
    ensures numbers { O.numbers outside.new ≡ O.numbers outside.old }
    ensures backs { OnOk result (O.backs outside.new ≡ O.backs outside.old) }
    ensures no_fault { OnOk result (O.faults outside.new ≡ O.faults outside.old) }
    ensures failed { IsErrOf result Unopened.Failed → Rose (O.faults outside.old) (O.faults outside.new) }
    ensures no_fewer { O.faults outside.old ≤ O.faults outside.new }
{
    let mut number = 0;
    for rng in rngs {
        let slot = open(alloc, shared, pass, stop, seat, port, number, rng, outside)?;
        slots.push_reserved(slot);
        number += 1;
    }
    Ok(())
}

/// Opens the worker of a number.
fn open<'a, K: Keeper, O: Outside, R: Rng + Drop>(
    alloc: Global,
    shared: &'a Shared<K>,
    pass: &mut Pass<K>,
    stop: &Stop,
    seat: &mut StopSeat,
    port: u16,
    number: u32,
    rng: R,
    outside: &mut O,
) -> Result<Slot<Serving<'a, K, O::Acceptor, O::Link, O::Clock, R>>, Unopened>
    requires few { number < 65535 }
    requires root { seats_of pass.old ≡ root_pass number (cells_of shared.now.objects) }
    requires seat { (seat.old.table ≡ stop.now) × (seat.old.is_root ≡ true) }
    ensures opened { IfOk result (IsOpenedSlot stop.now shared.now number (R.stream rng)) }
    ensures root { OnOk result (seats_of pass.new ≡ root_pass (number + 1) (cells_of shared.now.objects)) }
    ensures seat { OnOk result (seat.new ≡ parent_of seat.old) }
    ensures root_left { OnErr result (pass.new ≡ pass.old) }
    ensures seat_left { OnErr result (seat.new ≡ seat.old) }
    ensures calls { Tells (O.calls outside.old) (O.calls outside.new) (call.Worker port number ∷ []) }
    ensures disks { O.disks outside.new ≡ O.disks outside.old }
    ensures numbers { O.numbers outside.new ≡ O.numbers outside.old }
    ensures backs { OnOk result (O.backs outside.new ≡ O.backs outside.old) }
    ensures no_fault { OnOk result (O.faults outside.new ≡ O.faults outside.old) }
    ensures failed { IsErrOf result Unopened.Failed → Rose (O.faults outside.old) (O.faults outside.new) }
    ensures no_fewer { O.faults outside.old ≤ O.faults outside.new }
{
    let parts = match outside.worker(port, number) {
        Ok(parts) => parts,
        Err(Failed) => return Err(Unopened::Failed),
    };
    match split_off(alloc, shared, pass, number) {
        Ok(own) => {
            let WorkerParts {
                acceptor,
                link,
                clock,
            } = parts;
            Ok(Slot {
                number,
                work: Serving {
                    shared,
                    pass: own,
                    buffers: Buffers::new(alloc),
                    acceptor,
                    link,
                    clock,
                    rng,
                    due: Due::Nothing,
                    exit: None,
                },
                seat: stop.split(seat),
                exit: None,
            })
        }
        Err(NoMemory) => {
            outside.give_worker(number, parts);
            Err(Unopened::NoMemory)
        }
    }
}

/// The pass of the worker of a number, split off that of the root seats.
fn split_off<K: Keeper>(
    alloc: Global,
    shared: &Shared<K>,
    pass: &mut Pass<K>,
    number: u32,
) -> Result<Pass<K>, NoMemory>
    requires few { number < 65535 }
    requires root { seats_of pass.old ≡ root_pass number (cells_of shared.now.objects) }
    ensures root { OnOk result (seats_of pass.new ≡ root_pass (number + 1) (cells_of shared.now.objects)) }
    ensures own { IfOk result (λ own. seats_of own ≡ worker_pass number (cells_of shared.now.objects)) }
    ensures left { OnErr result (pass.new ≡ pass.old) }
{
    let _ = number;
    shared.objects.split(alloc, pass)
}
