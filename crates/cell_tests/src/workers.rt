ghost use Rattle.std.specs.Prelude.{◌≡◌, All, true, false, None, IfOk};
ghost use Rattle.sidecar_workers.specs.declared.work.Owed.TheVariants as owed;

use side_base::NoMemory;
use side_world::{FreeGate, Gate, Point};
use sidecar_workers::{
    Exit, Got, Owed, Reason, Served, Slot, Stop, StopSeat, Turned, Work, run_workers,
};
use std::alloc::Global;
use std::process::Abort;
use std::sync::Wait;
use std::sync::atomic::{AtomicBool, AtomicU64, Ordering};
use std::test::Fail;
use std::thread::{Threads, sleep};
use std::time::Duration;

/// What a work answers: each `accept` in turn, and `then` to all that follow.
#[derive(Clone, Copy)]
struct Script {
    gots: &'static [Got],
    then: Got,
    served: Served,
    turned: Turned,
}

/// A work that answers by a script, and counts its calls.
#[derive(Clone, Copy)]
struct Scripted {
    script: Script,
    accepts: usize,
    serves: usize,
    turns: usize,
    owed: Owed,
    over: bool,
}

impl Work for Scripted {
    ghost use Rattle.std.specs.Prelude.{None};

    ghost owes = { λ work. work.owed };

    ghost is_over = { λ work. work.over };

    ghost keeps = { λ _ _. Unit {0} };

    ghost exits = { λ _ _. Unit {0} };

    ghost calls = { λ _. None };

    fn accept<R: Wait>(&mut self, _rt: &R) -> Got {
        let got = match self.script.gots.get(self.accepts) {
            Some(got) => *got,
            None => self.script.then,
        };
        self.accepts = self.accepts.wrapping_add(1);
        self.owed = match got {
            Got::Conn => Owed::Serve,
            Got::Idle => Owed::Turn,
            Got::Closed | Got::Failed => Owed::Nothing,
        };
        got
    }

    fn serve<R: Wait>(&mut self, _rt: &R) -> Served {
        self.serves = self.serves.wrapping_add(1);
        self.owed = Owed::Nothing;
        self.over = matches!(self.script.served, Served::Asked | Served::Spent { .. });
        self.script.served
    }

    fn turn<R: Wait>(&mut self, _rt: &R) -> Turned {
        self.turns = self.turns.wrapping_add(1);
        self.owed = Owed::Nothing;
        self.over = matches!(self.script.turned, Turned::Spent { .. });
        self.script.turned
    }

    ghost stays = { λ _. tt };

    ghost chains = { λ _ _ _ _ _. tt };
}

fn slot(number: u32, seat: StopSeat, script: Script) -> Slot<Scripted>
    ensures { (result.seat ≡ seat) × (result.work.owed ≡ owed.Nothing) × (result.work.over ≡ false) }
{
    Slot {
        number,
        work: Scripted {
            script,
            accepts: 0,
            serves: 0,
            turns: 0,
            owed: Owed::Nothing,
            over: false,
        },
        seat,
        exit: None,
    }
}

/// Workers with these scripts, numbered from `first` on.
fn slots_of(
    alloc: Global,
    stop: &Stop,
    root: &mut StopSeat,
    first: u32,
    scripts: &[Script],
) -> Result<Vec<Slot<Scripted>>, NoMemory>
    requires { (root.old.table ≡ stop.now) × (root.old.is_root ≡ true) }
    ensures { IfOk result (λ slots. (root.new.table ≡ stop.now) × All (λ slot. (slot.seat.table ≡ stop.now) × (slot.seat.ended ≡ None) × (slot.work.owed ≡ owed.Nothing) × (slot.work.over ≡ false)) slots.items) }
{
    let mut number = first;
    let mut slots = Vec::new(alloc);
    for script in scripts {
        slots.push(slot(number, stop.split(root), *script))?;
        number = number.wrapping_add(1);
    }
    Ok(slots)
}

/// How a worker ended, and how often its work was called.
#[derive(Clone, Copy, Debug, PartialEq, Eq)]
struct Ended {
    exit: Option<Exit>,
    accepts: usize,
    serves: usize,
    turns: usize,
}

/// How each of these workers ended.
fn ends_of(alloc: Global, slots: &[Slot<Scripted>]) -> Result<Vec<Ended>, NoMemory> {
    let mut ends = Vec::new(alloc);
    for slot in slots {
        ends.push(Ended {
            exit: slot.exit,
            accepts: slot.work.accepts,
            serves: slot.work.serves,
            turns: slot.work.turns,
        })?;
    }
    Ok(ends)
}

/// Workers that have run: how each ended, and whether the word is set.
#[derive(Drop)]
struct Past {
    ends: Vec<Ended>,
    is_set: bool,
}

impl Past {
    /// How the worker at this place ended.
    fn exit(&self, place: usize) -> Option<Exit> {
        match self.ends.get(place) {
            Some(end) => end.exit,
            None => None,
        }
    }
}

/// Sets the word where there is a reason.
fn set_for(stop: &Stop, root: &mut StopSeat, reason: Option<Reason>)
    requires { (root.old.table ≡ stop.now) × (root.old.is_root ≡ true) }
    ensures { (root.new.table ≡ stop.now) × (root.new.is_root ≡ true) }
{
    if let Some(reason) = reason {
        stop.set(root, reason);
    }
}

/// Runs workers with these scripts, numbered from `first` on, on this word.
fn run_on<G: Gate + Sync, R: Threads + Wait + Sync>(
    rt: &R,
    alloc: Global,
    gate: &G,
    stop: &Stop,
    root: &mut StopSeat,
    first: u32,
    scripts: &[Script],
) -> Result<Past, NoMemory>
    requires { (root.old.table ≡ stop.now) × (root.old.is_root ≡ true) }
{
    let mut slots = slots_of(alloc, stop, root, first, scripts)?;
    run_workers(rt, slots.as_mut_slice(), stop, gate);
    let ends = ends_of(alloc, slots.as_slice())?;
    Ok(Past {
        ends,
        is_set: stop.look(root),
    })
}

/// The same on a word of their own, which is set before where there is a reason.
fn run_scripts<G: Gate + Sync, R: Threads + Wait + Sync>(
    rt: &R,
    alloc: Global,
    gate: &G,
    reason: Option<Reason>,
    first: u32,
    scripts: &[Script],
) -> Result<Past, NoMemory> {
    let (stop, mut root) = Stop::start(alloc)?;
    set_for(&stop, &mut root, reason);
    run_on(rt, alloc, gate, &stop, &mut root, first, scripts)
}

/// What running a script is to end in: the exit, the numbers of its calls, and whether the word is set.
#[derive(Clone, Copy)]
struct Run {
    script: Script,
    exit: Exit,
    accepts: usize,
    serves: usize,
    turns: usize,
    stops: bool,
}

const CLOSING: Script = Script {
    gots: &[],
    then: Got::Closed,
    served: Served::Next,
    turned: Turned::Went,
};

const RUNS: [Run; 8] = [
    Run {
        script: CLOSING,
        exit: Exit::Closed,
        accepts: 1,
        serves: 0,
        turns: 0,
        stops: false,
    },
    Run {
        script: Script {
            gots: &[Got::Conn, Got::Idle, Got::Conn],
            ..CLOSING
        },
        exit: Exit::Closed,
        accepts: 4,
        serves: 2,
        turns: 1,
        stops: false,
    },
    Run {
        script: Script {
            gots: &[Got::Idle],
            then: Got::Failed,
            ..CLOSING
        },
        exit: Exit::Failed,
        accepts: 2,
        serves: 0,
        turns: 1,
        stops: true,
    },
    Run {
        script: Script {
            gots: &[Got::Idle, Got::Conn],
            served: Served::Asked,
            ..CLOSING
        },
        exit: Exit::Asked,
        accepts: 2,
        serves: 1,
        turns: 1,
        stops: true,
    },
    Run {
        script: Script {
            gots: &[Got::Conn, Got::Conn],
            served: Served::Spent { count: 7 },
            ..CLOSING
        },
        exit: Exit::Spent { count: 7 },
        accepts: 1,
        serves: 1,
        turns: 0,
        stops: true,
    },
    Run {
        script: Script {
            gots: &[Got::Idle, Got::Idle],
            turned: Turned::Spent { count: 9 },
            ..CLOSING
        },
        exit: Exit::Spent { count: 9 },
        accepts: 1,
        serves: 0,
        turns: 1,
        stops: true,
    },
    // Want of memory ends the connection alone, and the turn alone.
    Run {
        script: Script {
            gots: &[Got::Conn, Got::Conn],
            served: Served::NoMemory,
            ..CLOSING
        },
        exit: Exit::Closed,
        accepts: 3,
        serves: 2,
        turns: 0,
        stops: false,
    },
    Run {
        script: Script {
            gots: &[Got::Idle, Got::Idle],
            turned: Turned::NoMemory,
            ..CLOSING
        },
        exit: Exit::Closed,
        accepts: 3,
        serves: 0,
        turns: 2,
        stops: false,
    },
];

/// These workers ended as this run is to end, and left the word as it is to be.
fn check_past(rt: &impl Abort, past: &Past, run: &Run) {
    let wanted = [Ended {
        exit: Some(run.exit),
        accepts: run.accepts,
        serves: run.serves,
        turns: run.turns,
    }];
    assert_eq!(rt; past.ends.as_slice(), wanted.as_slice());
    assert_eq!(rt; past.is_set, run.stops);
}

/// Each script ends as it is to end.
fn run_each<R: Threads + Wait + Sync + Abort>(
    rt: &R,
    alloc: Global,
    runs: &[Run],
) -> Result<(), NoMemory> {
    for run in runs {
        let past = run_scripts(rt, alloc, &FreeGate, None, 0, &[run.script])?;
        check_past(rt, &past, run);
    }
    Ok(())
}

#[test]
fn a_worker_ends_by_its_script(rt: HostRuntime) -> Result<(), Fail> {
    run_each(&rt, rt.alloc(), &RUNS)?;
    Ok(())
}

// The second worker is idle for ever, but for the word.
#[test]
fn an_idle_worker_is_stopped(rt: HostRuntime) -> Result<(), Fail> {
    let asking = Script {
        gots: &[Got::Conn],
        served: Served::Asked,
        ..CLOSING
    };
    let idle = Script {
        then: Got::Idle,
        ..CLOSING
    };
    let past = run_scripts(&rt, rt.alloc(), &FreeGate, None, 0, &[asking, idle])?;
    assert_eq!(rt;
        (past.exit(0), past.exit(1)),
        (Some(Exit::Asked), Some(Exit::Stopped))
    );
    Ok(())
}

#[test]
fn a_word_that_was_set_stops_a_worker_at_once(rt: HostRuntime) -> Result<(), Fail> {
    let reason = Some(Reason::Asked);
    let past = run_scripts(&rt, rt.alloc(), &FreeGate, reason, 0, &[CLOSING])?;
    let wanted = [Ended {
        exit: Some(Exit::Stopped),
        accepts: 0,
        serves: 0,
        turns: 0,
    }];
    assert_eq!(rt; past.ends.as_slice(), wanted.as_slice());
    Ok(())
}

#[test]
fn seats_are_met(rt: HostRuntime) -> Result<(), Fail> {
    let (stop, mut root) = Stop::start(rt.alloc())?;
    let mut one = stop.split(&mut root);
    let mut two = stop.split(&mut root);
    assert!(rt; !stop.look(&mut one));
    stop.set(&mut two, Reason::Failed);
    assert!(rt; stop.look(&mut one));
    stop.meet(&mut root, one);
    stop.meet(&mut root, two);
    assert!(rt; stop.look(&mut root));
    Ok(())
}

/// What one of two workers has done where they meet: it came, and found the other.
#[derive(Drop)]
struct Side {
    came: AtomicBool,
    found: AtomicBool,
}

impl Side {
    fn new() -> Side {
        Side {
            came: AtomicBool::new(false),
            found: AtomicBool::new(false),
        }
    }
}

/// Two workers that wait for each other where they have accepted a connection, for so many turns of a look and a pause.
#[derive(Drop)]
struct Meeting {
    clock: HostRuntime,
    turns: u32,
    even: Side,
    odd: Side,
}

impl Meeting {
    fn new(clock: HostRuntime, turns: u32) -> Meeting {
        Meeting {
            clock,
            turns,
            even: Side::new(),
            odd: Side::new(),
        }
    }

    /// Comes, and looks whether the other has come, again and again.
    fn look_for(&self, own: &Side, other: &Side) {
        own.came.store(true, Ordering::SeqCst);
        for _ in 0..self.turns {
            if other.came.load(Ordering::SeqCst) {
                own.found.store(true, Ordering::SeqCst);
                return;
            }
            sleep(&self.clock, Duration::from_millis(1));
        }
    }

    /// Whether each found the other.
    fn is_met(&self) -> bool {
        self.even.found.load(Ordering::SeqCst) && self.odd.found.load(Ordering::SeqCst)
    }
}

impl Gate for Meeting {
    fn pass<R: Wait>(&self, _rt: &R, worker: u32, point: Point) {
        if point != Point::Accepted {
            return;
        }
        if worker % 2 == 0 {
            self.look_for(&self.even, &self.odd);
        } else {
            self.look_for(&self.odd, &self.even);
        }
    }
}

const ONE_CONNECTION: Script = Script {
    gots: &[Got::Conn],
    ..CLOSING
};

#[test]
fn workers_run_side_by_side(rt: HostRuntime) -> Result<(), Fail> {
    let gate = Meeting::new(rt, 10_000);
    run_scripts(&rt, rt.alloc(), &gate, None, 0, &[ONE_CONNECTION; 2])?;
    assert!(rt; gate.is_met());
    Ok(())
}

// One after the other, in either order, they run out of turns.
#[test]
fn workers_one_by_one_would_not_meet(rt: HostRuntime) -> Result<(), Fail> {
    for first in 0..2u32 {
        let gate = Meeting::new(rt, 20);
        run_scripts(&rt, rt.alloc(), &gate, None, first, &[ONE_CONNECTION])?;
        run_scripts(&rt, rt.alloc(), &gate, None, 1 - first, &[ONE_CONNECTION])?;
        assert!(rt; !gate.is_met());
    }
    Ok(())
}

/// Keeps the passes of each worker, two bits for each: 1 for `Accepted`, 2 for `Ended`.
#[derive(Drop)]
struct Passes {
    words: Vec<AtomicU64>,
}

impl Gate for Passes {
    fn pass<R: Wait>(&self, _rt: &R, worker: u32, point: Point) {
        let code = match point {
            Point::Accepted => 1,
            Point::Ended => 2,
        };
        if let Some(word) = self.words.get(worker as usize) {
            word.store((word.load(Ordering::SeqCst) << 2) | code, Ordering::SeqCst);
        }
    }
}

fn no_passes(alloc: Global, count: u32) -> Result<Passes, NoMemory> {
    let mut words = Vec::new(alloc);
    for _ in 0..count {
        words.push(AtomicU64::new(0))?;
    }
    Ok(Passes { words })
}

/// Each of these workers served three connections, and passed the gate before and after each.
fn have_passed(rt: &impl Abort, ends: &[Ended], words: &[AtomicU64]) {
    for (end, word) in ends.iter().zip(words.iter()) {
        assert_eq!(rt;
            *end,
            Ended {
                exit: Some(Exit::Closed),
                accepts: 5,
                serves: 3,
                turns: 1,
            }
        );
        assert_eq!(rt; word.load(Ordering::SeqCst), 0b01_10_01_10_01_10);
    }
}

#[test]
fn sixty_four_workers_pass_the_gate(rt: HostRuntime) -> Result<(), Fail> {
    let script = Script {
        gots: &[Got::Conn, Got::Idle, Got::Conn, Got::Conn],
        ..CLOSING
    };
    let gate = no_passes(rt.alloc(), 64)?;
    let past = run_scripts(&rt, rt.alloc(), &gate, None, 0, &[script; 64])?;
    assert_eq!(rt; (past.ends.len(), gate.words.len()), (64, 64));
    have_passed(&rt, past.ends.as_slice(), gate.words.as_slice());
    Ok(())
}
