//! Who makes the steps of a counter, by a cell or by a mutex.
ghost use Rattle.std.specs.Prelude.{◌≡◌, IfOk, true};
ghost use Rattle.turn_cell.specs.Sitting.{IsSeatOf};

use crate::counter::{Counter, Step};
use side_base::NoMemory;
use std::alloc::{AllocError, Global};
use std::sync::{Mutex, Wait};
use turn_cell::{Seat, TurnCell};

/// Who makes steps.
pub(crate) trait Caller {
    /// Makes a step; whether it was made.
    fn step<R: Wait>(&mut self, rt: &R, step: Step) -> bool;
}

/// A cell, and a seat of it.
#[derive(Drop)]
pub(crate) struct Place<'a> {
    cell: &'a TurnCell<Counter>,
    seat: Seat<Counter>,
    ghost of_cell: { IsSeatOf cell.now seat },
}

impl Caller for Place<'_> {
    fn step<R: Wait>(&mut self, rt: &R, step: Step) -> bool {
        self.cell.call(rt, &mut self.seat, &step).is_ok()
    }
}

/// A cell with its seat.
#[derive(Drop)]
pub(crate) struct Own {
    pub(crate) cell: TurnCell<Counter>,
    pub(crate) seat: Seat<Counter>,
    ghost of_cell: { IsSeatOf cell seat },
}

impl Caller for Own {
    fn step<R: Wait>(&mut self, rt: &R, step: Step) -> bool {
        self.cell.call(rt, &mut self.seat, &step).is_ok()
    }
}

impl Caller for &Mutex<Counter> {
    fn step<R: Wait>(&mut self, rt: &R, step: Step) -> bool {
        self.lock(rt).make(step);
        true
    }
}

// A mutex of the thread's own.
impl Caller for Mutex<Counter> {
    fn step<R: Wait>(&mut self, rt: &R, step: Step) -> bool {
        self.lock(rt).make(step);
        true
    }
}

/// A place on the cell.
fn seated<'a>(cell: &'a TurnCell<Counter>, seat: Seat<Counter>) -> Place<'a>
    requires { IsSeatOf cell.now seat }
{
    Place { cell, seat }
}

/// So many places on the cell.
pub(crate) fn places<'a>(
    alloc: Global,
    cell: &'a TurnCell<Counter>,
    root: &mut Seat<Counter>,
    threads: u8,
) -> Result<Vec<Place<'a>>, AllocError>
    requires seat { IsSeatOf cell.now root.old }
    requires root { root.old.is_root ≡ true }
    requires made { root.old.made ≡ 1 }
{
    let mut places = Vec::new(alloc);
    for _ in 0..threads {
        places.push(seated(cell, cell.split(root)))?;
    }
    Ok(places)
}

/// A new cell with its seat, round this counter.
pub(crate) fn fresh(alloc: Global, counter: Counter) -> Result<Own, NoMemory>
    requires { counter.steps ≡ 0 }
    ensures root { IfOk result (λ own. own.seat.is_root ≡ true) }
    ensures made { IfOk result (λ own. own.seat.made ≡ 1) }
{
    match TurnCell::start(alloc, counter) {
        Ok((cell, seat)) => Ok(Own { cell, seat }),
        Err(failed) => Err(failed),
    }
}

/// So many new cells.
pub(crate) fn owns(alloc: Global, count: u8) -> Result<Vec<Own>, AllocError> {
    let mut owns = Vec::new(alloc);
    for _ in 0..count {
        owns.push(fresh(alloc, Counter::new(None))?)?;
    }
    Ok(owns)
}

/// So many new mutexes.
pub(crate) fn locks(alloc: Global, count: u8) -> Result<Vec<Mutex<Counter>>, AllocError> {
    let mut locks = Vec::new(alloc);
    for _ in 0..count {
        locks.push(Mutex::new(Counter::new(None)))?;
    }
    Ok(locks)
}
