ghost use Rattle.std.specs.Prelude.{◌≡◌, ◌<◌, ◌++◌, length};
ghost use Rattle.keeper_core.specs.Shapes.{Shape, slots, left_at, right_at, Proper, Holds, IsTree, WithSides};
ghost use Rattle.keeper_core.specs.Shapes.Shape.{Fork};
ghost use Rattle.keeper_core.specs.Removal.{LeastTaken, Removed, TakesNode};

use crate::insertion::is_below;
use crate::links::{Link, left_at, right_at, set_left, set_right};
use crate::rotation::balanced;

/// Takes a node out of those below `at`, by the order of the keys, and answers their new root.
pub(crate) fn remove(links: &mut [Link], keys: &[Vec<u8>], at: usize, slot: usize) -> usize
    requires tree { IsTree links.old at }
    requires keys { length keys.now ≡ length links.old }
    requires slot { slot < length links.old }
    ensures { TakesNode keys.now links.old at slot (λ shape list. Removed links.old links.new shape list result) }
{
    if at >= links.len() {
        return at;
    }
    if at == slot {
        return joined(links, at);
    }
    if is_below(keys, slot, at) {
        let left = left_at(links, at);
        let left = remove(links, keys, left, slot);
        set_left(links, at, left);
    } else {
        let right = right_at(links, at);
        let right = remove(links, keys, right, slot);
        set_right(links, at, right);
    }
    balanced(links, at)
}

/// The root of a tree of the nodes on both sides of a node, without it: the least node on its right side takes its place.
fn joined(links: &mut [Link], at: usize) -> usize
    requires tree { IsTree links.old at }
    requires at { at < length links.old }
    ensures { (before behind : Shape) → WithSides links.old before at behind (Removed links.old links.new (Fork before at behind) (slots before ++ slots behind) result) }
{
    let left = left_at(links, at);
    let right = right_at(links, at);
    if right >= links.len() {
        return left;
    }
    let taken = take_least(links, right);
    set_left(links, taken.least, left);
    set_right(links, taken.least, taken.rest);
    balanced(links, taken.least)
}

/// The least node of a tree, and the root of the others.
#[derive(Clone, Copy)]
struct Taken {
    least: usize,
    rest: usize,
}

/// Takes the least node out of those below `at`.
fn take_least(links: &mut [Link], at: usize) -> Taken
    requires tree { IsTree links.old at }
    requires at { at < length links.old }
    ensures { (shape : Shape) → Holds links.old shape at → Proper (length links.old) (slots shape) → LeastTaken links.old links.new shape result.least result.rest }
{
    let left = left_at(links, at);
    if left >= links.len() {
        return Taken {
            least: at,
            rest: right_at(links, at),
        };
    }
    let taken = take_least(links, left);
    set_left(links, at, taken.rest);
    let rest = balanced(links, at);
    Taken {
        least: taken.least,
        rest,
    }
}
