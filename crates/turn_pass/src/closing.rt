ghost use Rattle.std.specs.Prelude.{◌≡◌, ◌≤◌, [], length};
ghost use Rattle.std.specs.Vec.{vec_capacity};
ghost use Rattle.turn_cell.specs.Passes.{EachAlone};
ghost use Rattle.turn_pass.specs.Pass.{AreClosed};

use turn_cell::{Object, Seat, TurnCell};

/// Ends each cell by its seat, which is alone, and gives the objects back in order: they are put into the empty list `objects`, whose
/// room was taken before.
///
/// Takes no memory.
pub fn close_each<O: Object>(
    mut cells: Vec<TurnCell<O>>,
    mut seats: Vec<Seat<O>>,
    objects: &mut Vec<O>,
)
    requires alone { EachAlone cells.items seats.items }
    requires bare { objects.old.items ≡ [] }
    requires room { length cells.items ≤ vec_capacity objects.old }
    ensures { AreClosed O.stands cells.items seats.items objects.new.items }
{
    while let Some(cell) = cells.pop() {
        match seats.pop() {
            Some(seat) => objects.push_reserved(cell.close(seat)),
            None => unreachable!(),
        }
    }
    objects.reverse();
}
