ghost use Rattle.turn_cell.specs.Passes.{EachSeat, EachSplitOff, EachMet};
ghost use Rattle.turn_pass.specs.Pass.{EachMayMeet};

use turn_cell::{Object, Seat, TurnCell};

/// Takes each seat of `pass` back into the root at its place. Takes no memory.
pub fn meet_each<O: Object>(cells: &[TurnCell<O>], roots: &mut [Seat<O>], pass: Vec<Seat<O>>)
    requires roots { EachMayMeet cells.now roots.old }
    requires pass { EachSplitOff cells.now pass.items }
    ensures { EachMet O.Object cells.now roots.old pass.items roots.new }
{
    let mut place = 0;
    for seat in pass {
        cells[place].meet(&mut roots[place], seat);
        place += 1;
    }
}
