ghost use Rattle.std.specs.Prelude.{◌≡◌, ◌<◌, ◌≤◌, true, All, length, map};
ghost use Rattle.side_world.specs.Outside.{IsBack};
ghost use Rattle.side_world.specs.Faults.{RoseWith};
ghost use Rattle.sidecar_objects.specs.Passes.{IsSoundPass};
ghost use Rattle.sidecar_objects.specs.Pass.{cells_of, seats_of};
ghost use Rattle.sidecar_workers.specs.StopSeat.{HasMet, root_of};
ghost use Rattle.sidecar_serving.specs.Ending.{end_of};
ghost use Rattle.sidecar_serving.specs.Met.{AreMet, hub_at, failed_in, reason_in, spent_in, stopped_in, IsReturned};
ghost use Rattle.sidecar_objects.specs.Passes.{IsRootPass, IsSplitOffPass, MayMeet, MetPass};
ghost use Rattle.sidecar_serving.specs.Slots.{IsReadySlot, worker_at};

use crate::End;
use crate::due::let_go;
use crate::ending::{end_of, is_failed, spent_by};
use crate::serving::Serving;
use keeper_core::Keeper;
use rand_core::Rng;
use side_world::{Outside, WorkerParts};
use sidecar_core::{ObjectKinds, Pass, Shared};
use sidecar_workers::{Exit, Slot, Stop, StopSeat};
use state_core::Store;

/// Meets all workers, the last one first, gives their parts back, and says how serving ended. Takes no memory.
pub(crate) fn meet_all<'a, K: Keeper, O: Outside, R: Rng + Drop>(
    shared: &Shared<K>,
    mut slots: Vec<Slot<Serving<'a, K, O::Acceptor, O::Link, O::Clock, R>>>,
    pass: &mut Pass<K>,
    stop: &Stop,
    seat: &mut StopSeat,
    outside: &mut O,
) -> End
    requires ready { All (IsReadySlot stop.now shared.now) slots.items }
    requires root { IsRootPass (length slots.items) (cells_of shared.now.objects) (seats_of pass.old) }
    requires seat { seat.old ≡ record (root_of stop.now) { out = length slots.items } }
    ensures met { AreMet ⟦<Store<K> as ObjectKinds>⟧.kinds (cells_of shared.now.objects) (map worker_at slots.entry.items) (hub_at O.Outside pass.old outside.old) (hub_at O.Outside pass.new outside.new) }
    ensures lone { IsRootPass 0 (cells_of shared.now.objects) (seats_of pass.new) }
    ensures sound { 0 < length slots.entry.items → IsSoundPass ⟦<Store<K> as ObjectKinds>⟧.kinds (cells_of shared.now.objects) (seats_of pass.new) }
    ensures stopped { stopped_in (map worker_at slots.entry.items) ≡ true → reason_in (map worker_at slots.entry.items) ≡ true }
    ensures end { result ≡ end_of (spent_in (map worker_at slots.entry.items)) (failed_in (map worker_at slots.entry.items)) }
    ensures calls { O.calls outside.new ≡ O.calls outside.old }
    ensures disks { O.disks outside.new ≡ O.disks outside.old }
    ensures numbers { O.numbers outside.new ≡ O.numbers outside.old }
    ensures no_fewer { O.faults outside.old ≤ O.faults outside.new }
{
    let mut spent = None;
    let mut failed = false;
    while let Some(slot) = slots.pop() {
        let exit = meet(shared, slot, pass, stop, seat, outside);
        spent = spent_by(exit).or(spent);
        failed = is_failed(exit) | failed;
    }
    slots.destroy_empty();
    end_of(spent, failed)
}

/// Meets a worker, gives its parts back, and says how it ended.
fn meet<'a, K: Keeper, O: Outside, R: Rng + Drop>(
    shared: &Shared<K>,
    slot: Slot<Serving<'a, K, O::Acceptor, O::Link, O::Clock, R>>,
    pass: &mut Pass<K>,
    stop: &Stop,
    seat: &mut StopSeat,
    outside: &mut O,
) -> Option<Exit>
    requires ready { IsReadySlot stop.now shared.now slot }
    requires root { MayMeet (cells_of shared.now.objects) (seats_of pass.old) }
    requires seat { (seat.old.table ≡ stop.now) × (seat.old.is_root ≡ true) }
    ensures exit { result ≡ slot.entry.exit }
    ensures pass { MetPass ⟦<Store<K> as ObjectKinds>⟧.kinds (cells_of shared.now.objects) (seats_of pass.old) (seats_of slot.entry.work.pass) (seats_of pass.new) }
    ensures seat { HasMet seat.old slot.entry.seat seat.new }
    ensures back { IsReturned (worker_at slot.entry) (O.backs outside.old) (O.backs outside.new) }
    ensures faults { RoseWith (O.Acceptor.faults slot.entry.work.acceptor) (O.faults outside.old) (O.faults outside.new) }
    ensures calls { O.calls outside.new ≡ O.calls outside.old }
    ensures disks { O.disks outside.new ≡ O.disks outside.old }
    ensures numbers { O.numbers outside.new ≡ O.numbers outside.old }
    ensures no_fewer { O.faults outside.old ≤ O.faults outside.new }
{
    let Slot {
        number,
        work,
        seat: own,
        exit,
    } = slot;
    let Serving {
        shared: _,
        pass: other,
        buffers: _,
        acceptor,
        link,
        clock,
        rng: _,
        due,
        exit: _,
    } = work;
    let_go(due);
    meet_pass(shared, pass, other);
    stop.meet(seat, own);
    outside.give_worker(
        number,
        WorkerParts {
            acceptor,
            link,
            clock,
        },
    );
    exit
}

/// Takes a pass back into that of the root seats.
fn meet_pass<K: Keeper>(shared: &Shared<K>, pass: &mut Pass<K>, other: Pass<K>)
    requires root { MayMeet (cells_of shared.now.objects) (seats_of pass.old) }
    requires other { IsSplitOffPass (cells_of shared.now.objects) (seats_of other) }
    ensures { MetPass ⟦<Store<K> as ObjectKinds>⟧.kinds (cells_of shared.now.objects) (seats_of pass.old) (seats_of other) (seats_of pass.new) }
{
    shared.objects.meet(pass, other);
}
