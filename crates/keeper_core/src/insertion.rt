ghost use Rattle.std.specs.Prelude.{◌≡◌, ◌<◌, length};
ghost use Rattle.std.specs.Ordering.{is_lt};
ghost use Rattle.keeper_core.specs.Rows.{byte_order};
ghost use Rattle.keeper_core.specs.Shapes.{left_at, right_at, key_at, IsTree, Inserted, PutsNode};

use crate::links::{Link, left_at, mark, right_at, set_left, set_right};
use crate::rotation::balanced;

/// Puts a node without children among those below `at`, by the order of the keys, and answers their new root.
pub(crate) fn insert(links: &mut [Link], keys: &[Vec<u8>], at: usize, slot: usize) -> usize
    requires tree { IsTree links.old at }
    requires keys { length keys.now ≡ length links.old }
    requires slot { slot < length links.old }
    ensures { PutsNode keys.now links.old at slot (λ shape list. Inserted links.old links.new shape list result) }
{
    if at >= links.len() {
        mark(links, slot);
        return slot;
    }
    if is_below(keys, slot, at) {
        let left = left_at(links, at);
        let left = insert(links, keys, left, slot);
        set_left(links, at, left);
    } else {
        let right = right_at(links, at);
        let right = insert(links, keys, right, slot);
        set_right(links, at, right);
    }
    balanced(links, at)
}

/// Whether the key at a place is below the one at another.
pub(crate) fn is_below(keys: &[Vec<u8>], slot: usize, other: usize) -> bool
    requires slot { slot < length keys.now }
    requires other { other < length keys.now }
    ensures { result ≡ is_lt (byte_order (key_at keys.now slot) (key_at keys.now other)) }
{
    keys[slot].as_slice().cmp(keys[other].as_slice()).is_lt()
}
