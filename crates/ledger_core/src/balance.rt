ghost use Rattle.std.specs.Prelude.{◌≡◌, ◌∷◌, ◌++◌, ◌+◌, ◌*◌, ◌<◌, ◌≤◌, ◌^◌, false, true, length};
ghost use Rattle.ledger_core.specs.Tree.{entry_of, listed, AreAlike, AreNearlyAlike};

use crate::tree::{Node, Tree};

/// The node's row and its right subtree, behind another left subtree.
pub(crate) fn with_left(mut node: Box<Node>, left: Tree) -> Tree
    requires nearly { AreNearlyAlike (length left) (length node.value.right) }
    requires room { length left + length node.value.right + 1 ≤ 2 ^ 126 }
    ensures { result ≡ left ++ entry_of node.value ∷ node.value.right }
{
    node.left = left;
    balanced(node)
}

/// The node's left subtree and its row, before another right subtree.
pub(crate) fn with_right(mut node: Box<Node>, right: Tree) -> Tree
    requires nearly { AreNearlyAlike (length node.value.left) (length right) }
    requires room { length node.value.left + length right + 1 ≤ 2 ^ 126 }
    ensures { result ≡ node.value.left ++ entry_of node.value ∷ right }
{
    node.right = right;
    balanced(node)
}

/// A tree of what is listed by a node to whose one side a row came, or from whose one side a row went.
pub(crate) fn balanced(node: Box<Node>) -> Tree
    requires nearly { AreNearlyAlike (length node.value.left) (length node.value.right) }
    requires room { length node.value.left + length node.value.right + 1 ≤ 2 ^ 126 }
    ensures { result ≡ listed node.value }
{
    let left = node.left.len();
    let right = node.right.len();
    if is_heavy(left, right) {
        return lifted_left(node);
    }
    if is_heavy(right, left) {
        return lifted_right(node);
    }
    Tree::of(node)
}

/// Whether a side of so many rows has too many beside the other.
fn is_heavy(side: u128, other: u128) -> bool
    requires side { side ≤ 2 ^ 126 }
    requires other { other ≤ 2 ^ 126 }
    ensures heavy { result ≡ true → 3 * (other + 1) < side + 1 }
    ensures light { result ≡ false → side + 1 ≤ 3 * (other + 1) }
{
    side + 1 > 3 * (other + 1)
}

/// Whether the inner side of a child that is lifted is small enough to go to the other side whole.
fn goes_whole(inner: u128, outer: u128) -> bool
    requires inner { inner ≤ 2 ^ 126 }
    requires outer { outer ≤ 2 ^ 126 }
    ensures whole { result ≡ true → inner + 1 < 2 * (outer + 1) }
    ensures parted { result ≡ false → 2 * (outer + 1) ≤ inner + 1 }
{
    inner + 1 < 2 * (outer + 1)
}

/// The same rows, where the node's left side has too many: its left child comes into its place, or that child's right child.
fn lifted_left(mut node: Box<Node>) -> Tree
    requires nearly { length node.value.left + 1 ≤ 3 * (length node.value.right + 1) + 3 }
    requires heavy { 3 * (length node.value.right + 1) < length node.value.left + 1 }
    requires room { length node.value.left + length node.value.right + 1 ≤ 2 ^ 126 }
    ensures { result ≡ listed node.value }
{
    let left = node.take_left();
    let Some(mut high) = left.root else {
        unreachable!();
    };
    if goes_whole(high.right.len(), high.left.len()) {
        node.left = high.take_right();
        high.right = Tree::of(node);
        return Tree::of(high);
    }
    parted_left(node, high)
}

/// The same rows, where the node's right side has too many.
fn lifted_right(mut node: Box<Node>) -> Tree
    requires nearly { length node.value.right + 1 ≤ 3 * (length node.value.left + 1) + 3 }
    requires heavy { 3 * (length node.value.left + 1) < length node.value.right + 1 }
    requires room { length node.value.left + length node.value.right + 1 ≤ 2 ^ 126 }
    ensures { result ≡ listed node.value }
{
    let right = node.take_right();
    let Some(mut high) = right.root else {
        unreachable!();
    };
    if goes_whole(high.left.len(), high.right.len()) {
        node.right = high.take_left();
        high.left = Tree::of(node);
        return Tree::of(high);
    }
    parted_right(high, node)
}

/// The rows of a child and those of its parent on its right, between which the child's right child is parted.
fn parted_left(mut node: Box<Node>, mut high: Box<Node>) -> Tree
    requires alike { AreAlike (length high.value.left) (length high.value.right) }
    requires parted { 2 * (length high.value.left + 1) ≤ length high.value.right + 1 }
    requires nearly { length high.value.left + length high.value.right + 2 ≤ 3 * (length node.value.right + 1) + 3 }
    requires heavy { 3 * (length node.value.right + 1) < length high.value.left + length high.value.right + 2 }
    requires room { length high.value.left + length high.value.right + length node.value.right + 2 ≤ 2 ^ 126 }
    ensures { result ≡ listed high.value ++ entry_of node.value ∷ node.value.right }
{
    let inner = high.take_right();
    let Some(mut top) = inner.root else {
        unreachable!();
    };
    high.right = top.take_left();
    node.left = top.take_right();
    top.left = Tree::of(high);
    top.right = Tree::of(node);
    Tree::of(top)
}

/// The rows of a parent on a child's left and those of the child, between which the child's left child is parted.
fn parted_right(mut high: Box<Node>, mut node: Box<Node>) -> Tree
    requires alike { AreAlike (length high.value.left) (length high.value.right) }
    requires parted { 2 * (length high.value.right + 1) ≤ length high.value.left + 1 }
    requires nearly { length high.value.left + length high.value.right + 2 ≤ 3 * (length node.value.left + 1) + 3 }
    requires heavy { 3 * (length node.value.left + 1) < length high.value.left + length high.value.right + 2 }
    requires room { length high.value.left + length high.value.right + length node.value.left + 2 ≤ 2 ^ 126 }
    ensures { result ≡ node.value.left ++ entry_of node.value ∷ listed high.value }
{
    let inner = high.take_left();
    let Some(mut top) = inner.root else {
        unreachable!();
    };
    high.left = top.take_right();
    node.right = top.take_left();
    top.left = Tree::of(node);
    top.right = Tree::of(high);
    Tree::of(top)
}
