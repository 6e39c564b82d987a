ghost use Rattle.std.specs.Prelude.{◌<◌, length};
ghost use Rattle.keeper_core.specs.Shapes.{Shape, left_at, right_at, slots, height_of, left_lifted, right_lifted, left_outward, right_outward, Proper, Holds, Built, Rebalanced, WithSides};

use crate::links::{Link, height_at, left_at, mark, right_at, set_left, set_right};

/// The root of a tree of the same nodes in the same order, where those below `at` may differ in height by two.
pub(crate) fn balanced(links: &mut [Link], at: usize) -> usize
    ensures { (before behind : Shape) → WithSides links.old before at behind (Rebalanced links.old links.new before at behind result) }
{
    let left = left_at(links, at);
    let right = right_at(links, at);
    let before = height_at(links, left);
    let behind = height_at(links, right);
    if before > behind && before - behind > 1 {
        let outward = outward_left(links, left);
        set_left(links, at, outward);
        return lifted_left(links, at);
    }
    if behind > before && behind - before > 1 {
        let outward = outward_right(links, right);
        set_right(links, at, outward);
        return lifted_right(links, at);
    }
    mark(links, at);
    at
}

/// The root of a tree of the same nodes in the same order, whose left side is not lower than its right side.
fn outward_left(links: &mut [Link], at: usize) -> usize
    ensures { (shape : Shape) → 0 < height_of shape → Proper (length links.old) (slots shape) → Holds links.old shape at → Built links.old links.new (left_outward shape) result }
{
    if height_at(links, left_at(links, at)) < height_at(links, right_at(links, at)) {
        lifted_right(links, at)
    } else {
        at
    }
}

/// The root of a tree of the same nodes in the same order, whose right side is not lower than its left side.
fn outward_right(links: &mut [Link], at: usize) -> usize
    ensures { (shape : Shape) → 0 < height_of shape → Proper (length links.old) (slots shape) → Holds links.old shape at → Built links.old links.new (right_outward shape) result }
{
    if height_at(links, right_at(links, at)) < height_at(links, left_at(links, at)) {
        lifted_left(links, at)
    } else {
        at
    }
}

/// The node's left child, in the node's place, with the node to its right.
fn lifted_left(links: &mut [Link], at: usize) -> usize
    ensures { (before behind : Shape) → 0 < height_of before → WithSides links.old before at behind (Built links.old links.new (left_lifted before at behind) result) }
{
    let top = left_at(links, at);
    let middle = right_at(links, top);
    set_left(links, at, middle);
    mark(links, at);
    set_right(links, top, at);
    mark(links, top);
    top
}

/// The node's right child, in the node's place, with the node to its left.
fn lifted_right(links: &mut [Link], at: usize) -> usize
    ensures { (before behind : Shape) → 0 < height_of behind → WithSides links.old before at behind (Built links.old links.new (right_lifted before at behind) result) }
{
    let top = right_at(links, at);
    let middle = left_at(links, top);
    set_right(links, at, middle);
    mark(links, at);
    set_left(links, top, at);
    mark(links, top);
    top
}
