ghost use Rattle.std.specs.Prelude.{◌≡◌, ◌≢◌, ℕ, Some, option_map};
ghost use Rattle.std.specs.Bool.{OnTrue, OnFalse};
ghost use Rattle.side_memory.specs.MemoryOutside.{parts_told, came_back};

use crate::worker_script::MemoryParts;

/// Keeps the parts of a worker that came back, and answers whether there is a worker of this number. Takes no memory.
pub(crate) fn keep_back(
    backs: &mut Vec<Option<MemoryParts>>,
    number: u32,
    parts: MemoryParts,
) -> bool
    ensures here { OnTrue result (came_back backs.new.items number ≡ Some (parts_told parts)) }
    ensures others { OnTrue result ((other : ℕ) → other ≢ number → came_back backs.new.items other ≡ came_back backs.old.items other) }
    ensures none { OnFalse result (backs.new.items ≡ backs.old.items) }
{
    let place = number as usize;
    if place < backs.len() {
        backs[place] = Some(parts);
        true
    } else {
        false
    }
}

/// The parts of the worker of this number, where they came back.
pub(crate) fn back_at(backs: &[Option<MemoryParts>], number: u32) -> Option<&MemoryParts>
    ensures { option_map (λ p. parts_told p.now) result ≡ came_back backs.now number }
{
    let place = number as usize;
    if place < backs.len() {
        backs[place].as_ref()
    } else {
        None
    }
}
