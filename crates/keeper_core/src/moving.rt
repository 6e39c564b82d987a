ghost use Rattle.std.specs.Prelude.{◌≡◌, List};
ghost use Rattle.keeper_core.specs.Shapes.{Shape};
ghost use Rattle.keeper_core.specs.Fields.{Rewritten};
ghost use Rattle.keeper_core.specs.Removal.{moved, with_moved, MovesLast, Relinked};
ghost use Rattle.keeper_core.specs.declared.links.Link.{Link};

use crate::links::{Link, left_at, parent_at, right_at, set_left, set_parent, set_right};

/// Tells the neighbours of a node that stood behind all others, and moved to `slot`, where it stands now, and answers the root of the tree.
/// Where it was the last node itself that went, none moved.
pub(crate) fn relink(links: &mut [Link], root: usize, slot: usize) -> usize
    ensures { (before : List Link) (shape : Shape) → MovesLast before links.old shape root slot (Relinked before links.new shape slot result) }
{
    let last = links.len();
    if slot >= last {
        return root;
    }
    let parent = parent_at(links, slot);
    let left = left_at(links, slot);
    let right = right_at(links, slot);
    rename_children(links, parent, last, slot);
    set_parent(links, left, slot);
    set_parent(links, right, slot);
    moved(root, last, slot)
}

/// Gives a node whose child stood at `last` its place now, `slot`.
fn rename_children(links: &mut [Link], at: usize, last: usize, slot: usize)
    ensures { Rewritten (with_moved last slot) links.old links.new at }
{
    let left = moved(left_at(links, at), last, slot);
    let right = moved(right_at(links, at), last, slot);
    set_left(links, at, left);
    set_right(links, at, right);
}

/// Where a node stands once the one at `last` stands at `slot`.
fn moved(place: usize, last: usize, slot: usize) -> usize
    ensures { result ≡ moved last slot place }
{
    if place == last { slot } else { place }
}
