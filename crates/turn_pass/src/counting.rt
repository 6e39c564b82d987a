ghost use Rattle.std.specs.Prelude.{◌≡◌};
ghost use Rattle.turn_pass.specs.Pass.{count_shown};

use turn_cell::{Object, Seat};

/// The count that the first of these seats shows that shows one: its cell was found exhausted. Takes no memory.
pub fn count_shown<O: Object>(seats: &[Seat<O>]) -> Option<u64>
    ensures { result ≡ count_shown seats.now }
{
    for seat in seats {
        if let Some(count) = seat.count() {
            return Some(count);
        }
    }
    None
}
