ghost use Rattle.std.specs.Prelude.{◌≡◌, ◌+◌, ◌<◌, true, false, length, All, vec_len, IfOk, OnOk};
ghost use Rattle.std.specs.List.{fold};
ghost use Rattle.std.proofs.Common.{rules};
ghost use Rattle.turn_cell.specs.Sitting.{IsSeatOf};
ghost use Rattle.turn_cell.specs.Growth.{Stays};

use std::alloc::{AllocError, Global};
use std::process::Abort;
use std::sync::Wait;
use std::test::Fail;
use std::thread::{Threads, for_each_mut, sleep};
use std::time::Duration;
use turn_cell::{ApiErr, Exhausted, Object, Seat, TurnCell};

/// How long the first step of a register with a clock takes, in milliseconds.
const HOLD_MS: u64 = 20;

/// How many threads call a cell at most.
const THREADS: usize = 8;

/// A register that keeps how long the last text written was, and counts its steps. One with a clock sleeps in its first step.
#[derive(Clone, Copy)]
struct Register {
    last: u64,
    steps: u64,
    clock: Option<HostRuntime>,
}

fn blank(clock: Option<HostRuntime>) -> Register
    ensures { (result.steps ≡ 0) × (result.last ≡ 0) }
{
    Register {
        last: 0,
        steps: 0,
        clock,
    }
}

#[derive(Drop)]
struct Write {
    text: Vec<u8>,
}

#[derive(Clone, Copy, Debug, PartialEq, Eq)]
struct Written {
    before: u64,
    number: u64,
}

impl Object for Register {
    type Cmd = Write;

    type Reply = Written;

    ghost takes = { λ _ _. Unit {0} };

    ghost steps = { λ first history entry. (entry.mark ≡ 0) × (entry.reply.number ≡ length history + 1) × (entry.reply.before ≡ fold (λ _ e. vec_len e.cmd.text) first.last history) };

    ghost stands = { λ first history register. (register.steps ≡ length history) × (register.last ≡ fold (λ _ e. vec_len e.cmd.text) first.last history) };

    ghost used = { λ register. register.steps };

    ghost mark = { λ _. 0 };

    fn apply(&mut self, cmd: &Write) -> Written {
        if self.steps == 0
            && let Some(clock) = &self.clock
        {
            sleep(clock, Duration::from_millis(HOLD_MS));
        }
        let before = self.last;
        self.last = cmd.text.len() as u64;
        self.steps += 1;
        Written {
            before,
            number: self.steps,
        }
    }

    fn used(&self) -> u64 {
        self.steps
    }

    ghost opens = { Prim.search rules };

    ghost counts = { Prim.search rules };
}

/// What two calls answer.
fn write_twice<R: Wait>(
    rt: &R,
    cell: &TurnCell<Register>,
    root: &mut Seat<Register>,
    cmd: &Write,
) -> Result<(Written, Written), Exhausted>
    requires { IsSeatOf cell.now root.old }
    ensures { Stays root.old root.new }
{
    let one = cell.call(rt, root, cmd)?;
    let two = cell.call(rt, root, cmd)?;
    Ok((one, two))
}

/// What two calls of a new cell answer, and how many steps it has made.
fn two_steps<R: Wait>(
    rt: &R,
    alloc: Global,
    first: Register,
    cmd: &Write,
) -> Result<(Written, Written, u64), ApiErr>
    requires { first.steps ≡ 0 }
{
    let (cell, mut root) = TurnCell::start(alloc, first)?;
    let made = write_twice(rt, &cell, &mut root, cmd);
    let steps = cell.close(root).used();
    let (one, two) = made?;
    Ok((one, two, steps))
}

#[test]
fn a_cell_makes_a_step(rt: HostRuntime) -> Result<(), Fail> {
    let cmd = Write {
        text: [1, 2, 3].to_vec(rt.alloc())?,
    };
    let first = Register {
        last: 7,
        steps: 0,
        clock: None,
    };
    let made = two_steps(&rt, rt.alloc(), first, &cmd);
    drop(cmd);
    let (one, two, steps) = made?;
    assert_eq!(rt;
        one,
        Written {
            before: 7,
            number: 1
        }
    );
    assert_eq!(rt;
        two,
        Written {
            before: 3,
            number: 2
        }
    );
    assert_eq!(rt; steps, 2);
    Ok(())
}

/// A seat that a thread calls by, and the numbers of the steps that it made.
#[derive(Drop)]
struct Worker {
    seat: Seat<Register>,
    numbers: Vec<u64>,
}

/// Calls the cell, and notes the number of the step; whether it was made and noted.
fn write_once<R: Wait>(rt: &R, cell: &TurnCell<Register>, worker: &mut Worker, cmd: &Write) -> bool
    requires { IsSeatOf cell.now worker.old.seat × (worker.old.seat.is_root ≡ false) }
    ensures { IsSeatOf cell.now worker.new.seat × (worker.new.seat.is_root ≡ false) }
{
    match cell.call(rt, &mut worker.seat, cmd) {
        Ok(written) => worker.numbers.push(written.number).is_ok(),
        Err(_) => false,
    }
}

/// Calls the cell so many times, or fewer where a step was not made.
fn write_often<R: Wait>(
    rt: &R,
    cell: &TurnCell<Register>,
    worker: &mut Worker,
    cmd: &Write,
    times: usize,
)
    requires { IsSeatOf cell.now worker.old.seat × (worker.old.seat.is_root ≡ false) }
    ensures { IsSeatOf cell.now worker.new.seat × (worker.new.seat.is_root ≡ false) }
{
    for _ in 0..times {
        if !write_once(rt, cell, worker, cmd) {
            return;
        }
    }
}

/// All workers call the cell so many times each, at once where there are no more of them than threads.
fn write_all<R: Threads + Wait + Sync>(
    rt: &R,
    cell: &TurnCell<Register>,
    workers: &mut [Worker],
    cmd: &Write,
    times: usize,
)
    requires { All (λ worker. IsSeatOf cell.now worker.seat × (worker.seat.is_root ≡ false)) workers.old }
    ensures { All (λ worker. IsSeatOf cell.now worker.seat × (worker.seat.is_root ≡ false)) workers.new }
{
    for_each_mut(
        rt,
        workers,
        THREADS,
        &|_, worker| write_often(rt, cell, worker, cmd, times),
    );
}

/// Whether each worker has made so many steps.
fn have_written(workers: &[Worker], times: usize) -> bool {
    workers.iter().all(|worker| worker.numbers.len() == times)
}

/// So many workers, whose seats are split off the root of a new cell.
fn split_workers(
    alloc: Global,
    cell: &TurnCell<Register>,
    root: &mut Seat<Register>,
    count: u32,
) -> Result<Vec<Worker>, AllocError>
    requires root { IsSeatOf cell.now root.old × (root.old.is_root ≡ true) × (root.old.made ≡ 1) × (root.old.out ≡ 0) }
    requires room { count < 65536 }
    ensures { IfOk result (λ workers. IsSeatOf cell.now root.new × (root.new.is_root ≡ true) × (root.new.out ≡ length workers.items) × All (λ worker. IsSeatOf cell.now worker.seat × (worker.seat.is_root ≡ false)) workers.items) }
{
    let mut workers = Vec::new(alloc);
    for _ in 0..count {
        workers.push(Worker {
            seat: cell.split(root),
            numbers: Vec::new(alloc),
        })?;
    }
    Ok(workers)
}

/// Notes the numbers of one worker. They rise, and no other worker has one of them.
fn note(rt: &impl Abort, seen: &mut [bool], numbers: &[u64]) {
    let mut before = 0;
    for number in numbers {
        assert!(rt; before < *number && *number <= seen.len() as u64);
        before = *number;
        let place = (*number - 1) as usize;
        assert!(rt; !seen[place]);
        seen[place] = true;
    }
}

/// Takes a worker's seat back, and notes the numbers of its steps.
fn take_back(
    rt: &impl Abort,
    cell: &TurnCell<Register>,
    root: &mut Seat<Register>,
    worker: Worker,
    seen: &mut [bool],
)
    requires { IsSeatOf cell.now root.old × (root.old.is_root ≡ true) × IsSeatOf cell.now worker.seat × (worker.seat.is_root ≡ false) }
    ensures { IsSeatOf cell.now root.new × (root.new.is_root ≡ true) × (root.new.out + 1 ≡ root.old.out) }
{
    let Worker { seat, numbers } = worker;
    note(rt, seen, numbers.as_slice());
    cell.meet(root, seat);
}

/// Takes every seat back, and notes the numbers of all steps.
fn take_all_back(
    rt: &impl Abort,
    cell: &TurnCell<Register>,
    root: &mut Seat<Register>,
    workers: &mut Vec<Worker>,
    seen: &mut [bool],
)
    requires { IsSeatOf cell.now root.old × (root.old.is_root ≡ true) × (root.old.out ≡ length workers.old.items) × All (λ worker. IsSeatOf cell.now worker.seat × (worker.seat.is_root ≡ false)) workers.old.items }
    ensures { IsSeatOf cell.now root.new × (root.new.is_root ≡ true) × (root.new.out ≡ 0) }
{
    while let Some(worker) = workers.pop() {
        take_back(rt, cell, root, worker, seen);
    }
}

/// So many seats are split off the root of a new cell, call it so many times each, and are taken back; the numbers of all steps are noted.
fn use_seats<R: Threads + Wait + Sync + Abort>(
    rt: &R,
    alloc: Global,
    cell: &TurnCell<Register>,
    root: &mut Seat<Register>,
    count: u32,
    times: usize,
    seen: &mut [bool],
) -> Result<(), AllocError>
    requires root { IsSeatOf cell.now root.old × (root.old.is_root ≡ true) × (root.old.made ≡ 1) × (root.old.out ≡ 0) }
    requires room { count < 65536 }
    ensures { OnOk result (IsSeatOf cell.now root.new × (root.new.is_root ≡ true) × (root.new.out ≡ 0)) }
{
    assert_eq!(rt; root.made(), 1);
    let mut workers = split_workers(alloc, cell, root, count)?;
    assert_eq!(rt;
        (root.made(), workers.len()),
        (u64::from(count) + 1, count as usize)
    );
    let cmd = Write {
        text: Vec::new(alloc),
    };
    write_all(rt, cell, workers.as_mut_slice(), &cmd, times);
    assert!(rt; have_written(workers.as_slice(), times));
    take_all_back(rt, cell, root, &mut workers, seen);
    assert_eq!(rt; root.made(), u64::from(count) + 1);
    Ok(())
}

/// The same, and the cell is closed. How many steps it has made.
fn steps_of<R: Threads + Wait + Sync + Abort>(
    rt: &R,
    alloc: Global,
    clock: Option<HostRuntime>,
    count: u32,
    times: usize,
    seen: &mut [bool],
) -> Result<u64, AllocError>
    requires { count < 65536 }
{
    let (cell, mut root) = TurnCell::start(alloc, blank(clock))?;
    use_seats(rt, alloc, &cell, &mut root, count, times, seen)?;
    Ok(cell.close(root).used())
}

/// So many seats beside the root of a new cell make one history, by so many calls each: all numbers up to that of its steps are numbers of
/// steps, each of one. Where there is a clock, the first to have its turn holds it while the others wait.
fn make_one_history<R: Threads + Wait + Sync + Abort>(
    rt: &R,
    alloc: Global,
    clock: Option<HostRuntime>,
    count: u32,
    times: usize,
    seen: &mut [bool],
) -> Result<(), AllocError>
    requires { count < 65536 }
{
    let steps = steps_of(rt, alloc, clock, count, times, seen)?;
    assert_eq!(rt; steps, seen.len() as u64);
    assert!(rt; seen.iter().all(|made| *made));
    Ok(())
}

#[test]
fn two_threads_make_one_history(rt: HostRuntime) -> Result<(), Fail> {
    make_one_history(&rt, rt.alloc(), None, 2, 1000, &mut [false; 2000])?;
    Ok(())
}

// Once as fast as they can, and once where the first to have its turn holds it while the other seven wait.
#[test]
fn eight_threads_make_one_history(rt: HostRuntime) -> Result<(), Fail> {
    make_one_history(&rt, rt.alloc(), None, 8, 1000, &mut [false; 8000])?;
    make_one_history(&rt, rt.alloc(), Some(rt), 8, 1000, &mut [false; 8000])?;
    Ok(())
}

#[test]
fn a_cell_has_65536_seats(rt: HostRuntime) -> Result<(), Fail> {
    make_one_history(&rt, rt.alloc(), None, 65535, 0, &mut [])?;
    Ok(())
}

/// An error of a call over a cell is told so.
fn check_told(rt: &impl Abort, alloc: Global, error: ApiErr, text: &str) -> Result<(), AllocError> {
    assert_eq!(rt; format!(in alloc; "{error}")?.as_str(), text);
    Ok(())
}

#[test]
fn errors_tell_their_count(rt: HostRuntime) -> Result<(), Fail> {
    let alloc = rt.alloc();
    let exhausted = Exhausted { count: 1 << 62 };
    let text = "exhausted at 4611686018427387904";
    check_told(&rt, alloc, ApiErr::from(exhausted), text)?;
    check_told(&rt, alloc, ApiErr::from(AllocError), "no memory")?;
    assert_eq!(rt; format!(in alloc; "{exhausted}")?.as_str(), text);
    Ok(())
}
