ghost use Rattle.std.specs.Prelude.{◌≡◌, ◌<◌, ℕ, length};
ghost use Rattle.keeper_core.specs.Shapes.{Shape, none, parent_at, slots, times, Proper, Holds, HasNode, Retimed};

use crate::links::{Link, least_at, least_by, parent_at, set_end, set_least};

/// Gives the row of a node another end, and marks those above it as far as that changes them.
pub(crate) fn set_until(links: &mut [Link], at: usize, until: u64)
    requires { HasNode links.old at }
    ensures { (root : ℕ) (shape : Shape) → Holds links.old shape root → Proper (length links.old) (slots shape) → parent_at links.old root ≡ none → 0 < times at (slots shape) → Retimed links.old links.new shape root at until }
{
    set_end(links, at, until);
    let mut node = at;
    while node < links.len() {
        let least = least_by(links, node);
        if least == least_at(links, node) {
            return;
        }
        set_least(links, node, least);
        node = parent_at(links, node);
    }
}
