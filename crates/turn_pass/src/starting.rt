ghost use Rattle.std.specs.Prelude.{◌≡◌, All, IfOk, map};
ghost use Rattle.turn_cell.specs.Sitting.{root_of};
ghost use Rattle.turn_cell.specs.Passes.{EachSound};

use side_base::NoMemory;
use std::alloc::Global;
use turn_cell::{Object, Seat, TurnCell};

/// A cell for each of these objects, which have made no step, and the root seat of each, in order.
///
/// Without memory the objects are dropped.
pub fn start_each<O: Object>(
    alloc: Global,
    firsts: Vec<O>,
) -> Result<(Vec<TurnCell<O>>, Vec<Seat<O>>), NoMemory>
    requires { All (λ first. O.used first ≡ 0) firsts.items }
    ensures firsts { IfOk result (λ made. map (λ cell. cell.first) made.0.items ≡ firsts.items) }
    ensures roots { IfOk result (λ made. made.1.items ≡ map root_of made.0.items) }
    ensures sound { IfOk result (λ made. EachSound O.Object made.0.items made.1.items) }
{
    let mut cells = Vec::with_capacity(alloc, firsts.len())?;
    let mut roots = Vec::with_capacity(alloc, firsts.len())?;
    for first in firsts {
        let (cell, root) = TurnCell::start(alloc, first)?;
        cells.push_reserved(cell);
        roots.push_reserved(root);
    }
    Ok((cells, roots))
}
