ghost use Rattle.std.specs.Prelude.{◌≡◌, List, All, IsSome, length, map};
ghost use Rattle.rand_core.specs.Stream.{Stream};
ghost use Rattle.sidecar_objects.specs.Pass.{cells_of};
ghost use Rattle.sidecar_serving.specs.Opened.{AreWorkers, HaveWorked};
ghost use Rattle.sidecar_serving.specs.Slots.{IsOpenedSlot, IsReadySlot, worker_at};

use crate::serving::Serving;
use keeper_core::Keeper;
use rand_core::Rng;
use side_world::{Acceptor, Clock, Gate, Link};
use sidecar_core::{ObjectKinds, Shared};
use sidecar_workers::{Slot, Stop, run_workers};
use state_core::Store;
use std::sync::Wait;
use std::thread::Threads;

/// Runs workers that were just opened, until each has ended. Takes no memory.
pub(crate) fn run<
    K: Keeper + Send,
    A: Acceptor + Send,
    L: Link + Send,
    C: Clock + Send,
    R: Rng + Send,
    G: Gate + Sync,
    W: Threads + Wait + Sync,
>(rt: &W, shared: &Shared<K>, slots: &mut [Slot<Serving<'_, K, A, L, C, R>>], stop: &Stop, gate: &G)
    requires { (words : List Stream) × AreWorkers (IsOpenedSlot stop.now shared.now) 0 words slots.old }
    ensures worked { (words : List Stream) → AreWorkers (IsOpenedSlot stop.now shared.now) 0 words slots.old → HaveWorked shared.now.config ⟦<Store<K> as ObjectKinds>⟧.kinds (cells_of shared.now.objects) words (map worker_at slots.new) }
    ensures ready { All (IsReadySlot stop.now shared.now) slots.new }
    ensures ended { All (λ slot. IsSome slot.exit) slots.new }
    ensures wide { length slots.new ≡ length slots.old }
{
    let _ = shared;
    run_workers(rt, slots, stop, gate);
}
