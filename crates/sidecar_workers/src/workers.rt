ghost use Rattle.std.specs.Prelude.{◌≡◌, ◌<◌, ℕ, Some, length, All, slice_index_or};
ghost use Rattle.sidecar_workers.specs.Slots.{IsReady, RoundOf, HasRun};

use crate::exit::{after_serve, after_turn, reason_of};
use crate::{Exit, Got, Slot, Stop, Work};
use side_world::{Gate, Point};
use std::sync::Wait;
use std::thread::{Threads, for_each_mut};

/// Runs all workers side by side, on a thread for each where threads can be had, until each has ended. Takes no memory.
///
/// A worker looks at the stop word before each `accept`, and ends where it finds it set. It passes the gate before and after
/// each connection that it serves.
pub fn run_workers<W: Work + Send, G: Gate + Sync, R: Threads + Wait + Sync>(
    rt: &R,
    slots: &mut [Slot<W>],
    stop: &Stop,
    gate: &G,
)
    requires { All (λ slot. IsReady W.Work stop.now slot) slots.old }
    ensures { (i : ℕ) (d : _) → i < length slots.old → HasRun W.Work (slice_index_or slots.old i d) (slice_index_or slots.new i d) }
{
    let threads = slots.len();
    if threads > 0 {
        for_each_mut(
            rt,
            slots,
            threads,
            &|_, slot| run_worker(rt, slot, stop, gate),
        );
    }
}

fn run_worker<W: Work, G: Gate, R: Wait>(rt: &R, slot: &mut Slot<W>, stop: &Stop, gate: &G)
    requires { IsReady W.Work stop.now slot.old }
    ensures { HasRun W.Work slot.old slot.new }
{
    let exit = work_until_exit(rt, slot, stop, gate);
    if let Some(reason) = reason_of(exit) {
        stop.set(&mut slot.seat, reason);
    }
    slot.exit = Some(exit);
}

fn work_until_exit<W: Work, G: Gate, R: Wait>(
    rt: &R,
    slot: &mut Slot<W>,
    stop: &Stop,
    gate: &G,
) -> Exit
    requires { IsReady W.Work stop.now slot.old }
    ensures { RoundOf W.Work slot.old slot.new (Some result) }
{
    for _ in rt.forever() {
        if let Some(exit) = make_round(rt, slot, stop, gate) {
            return exit;
        }
    }
    unreachable!()
}

/// Looks at the stop word, and then accepts a connection and serves it, or takes a turn. Returns how the worker ends, or
/// `None` where it goes on.
fn make_round<W: Work, G: Gate, R: Wait>(
    rt: &R,
    slot: &mut Slot<W>,
    stop: &Stop,
    gate: &G,
) -> Option<Exit>
    requires { IsReady W.Work stop.now slot.old }
    ensures { RoundOf W.Work slot.old slot.new result }
{
    if stop.look(&mut slot.seat) {
        return Some(Exit::Stopped);
    }
    match slot.work.accept(rt) {
        Got::Conn => {
            gate.pass(rt, slot.number, Point::Accepted);
            let served = slot.work.serve(rt);
            gate.pass(rt, slot.number, Point::Ended);
            after_serve(served)
        }
        Got::Idle => after_turn(slot.work.turn(rt)),
        Got::Closed => Some(Exit::Closed),
        Got::Failed => Some(Exit::Failed),
    }
}
