ghost use Rattle.std.specs.Prelude.{◌≡◌, ◌<◌, ◌≤◌, [], length};
ghost use Rattle.std.specs.Vec.{vec_capacity};
ghost use Rattle.turn_cell.specs.Passes.{EachSplit};
ghost use Rattle.turn_pass.specs.Pass.{MayEachSplit};

use turn_cell::{Object, Seat, TurnCell};

/// A further seat of each cell, split off its root, in order: they are put into the empty list `pass`, whose room was taken before.
///
/// Takes no memory.
pub fn split_each<O: Object>(cells: &[TurnCell<O>], roots: &mut [Seat<O>], pass: &mut Vec<Seat<O>>)
    requires roots { MayEachSplit cells.now roots.old }
    requires bare { pass.old.items ≡ [] }
    requires room { length cells.now ≤ vec_capacity pass.old }
    ensures { EachSplit roots.old roots.new pass.new.items }
{
    for place in 0..cells.len() {
        pass.push_reserved(cells[place].split(&mut roots[place]));
    }
}
