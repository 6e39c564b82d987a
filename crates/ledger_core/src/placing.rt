ghost use Rattle.std.specs.Prelude.{◌≡◌, ◌<◌, ◌≤◌, ◌+◌, ◌^◌, [], ◌∷◌, ◌++◌, length, IsTrue, IfSome, MatchOption, option_map, slice_get};
ghost use Rattle.std.specs.FinMap.{put, find, is_sorted};
ghost use Rattle.ledger_core.specs.Place.{place_order};
ghost use Rattle.ledger_core.specs.Tree.{entry_of, row_of, listed, without, AreAlike};

use crate::balance::{balanced, with_left, with_right};
use crate::place::Place;
use crate::tree::{Node, Tree};
use std::cmp::Ordering;
use std::mem;

/// Gives the node's place the node's row, whatever it had.
pub(crate) fn put(tree: Tree, mut node: Box<Node>) -> Tree
    requires sorted { IsTrue (is_sorted place_order tree) }
    requires room { length tree < 2 ^ 126 }
    ensures { result ≡ put place_order node.value.place (row_of node.value.row) tree }
{
    let Some(mut at) = tree.root else {
        return alone(node);
    };
    match node.place.compare(&at.place) {
        Ordering::Less => {
            let left = at.take_left();
            with_left(at, put(left, node))
        }
        Ordering::Greater => {
            let right = at.take_right();
            with_right(at, put(right, node))
        }
        Ordering::Equal => {
            mem::swap(&mut at.row, &mut node.row);
            Tree::of(at)
        }
    }
}

/// Takes the node of a place out, where it has one.
pub(crate) fn take_out(tree: Tree, place: &Place) -> (Option<Box<Node>>, Tree)
    requires { IsTrue (is_sorted place_order tree) }
    ensures found { option_map (λ node. row_of node.value.row) result.0 ≡ find place_order place.now tree }
    ensures placed { IfSome result.0 (λ node. node.value.place ≡ place.now) }
    ensures rest { result.1 ≡ without place.now tree }
{
    let Some(mut at) = tree.root else {
        return (None, Tree::new());
    };
    match place.compare(&at.place) {
        Ordering::Less => {
            let left = at.take_left();
            let (found, rest) = take_out(left, place);
            (found, with_left(at, rest))
        }
        Ordering::Greater => {
            let right = at.take_right();
            let (found, rest) = take_out(right, place);
            (found, with_right(at, rest))
        }
        Ordering::Equal => {
            let left = at.take_left();
            let right = at.take_right();
            (Some(at), joined(left, right))
        }
    }
}

/// The first row of a tree.
pub(crate) fn first(tree: &Tree) -> Option<&Node>
    ensures { option_map (λ node. entry_of node.now) result ≡ slice_get tree.now 0 }
{
    let Some(node) = &tree.root else {
        return None;
    };
    match first(&node.left) {
        Some(before) => Some(before),
        None => Some(node),
    }
}

/// Takes the first row of a tree out, where it has one.
pub(crate) fn take_first(tree: Tree) -> (Option<Box<Node>>, Tree)
    ensures { MatchOption result.0 (tree ≡ []) (λ node. tree ≡ entry_of node.value ∷ result.1) }
{
    match tree.root {
        None => (None, Tree::new()),
        Some(node) => {
            let (first, rest) = first_and_rest(node);
            (Some(first), rest)
        }
    }
}

/// A tree of the node's row alone.
fn alone(mut node: Box<Node>) -> Tree
    ensures { result ≡ entry_of node.value ∷ [] }
{
    node.left = Tree::new();
    node.right = Tree::new();
    Tree::of(node)
}

/// The rows of two trees, those of the first before those of the second.
fn joined(left: Tree, right: Tree) -> Tree
    requires alike { AreAlike (length left) (length right) }
    requires room { length left + length right ≤ 2 ^ 126 }
    ensures { result ≡ left ++ right }
{
    match right.root {
        None => left,
        Some(node) => {
            let (mut first, rest) = first_and_rest(node);
            first.left = left;
            first.right = rest;
            balanced(first)
        }
    }
}

/// The node of the lowest place, and the other rows.
fn first_and_rest(mut node: Box<Node>) -> (Box<Node>, Tree)
    requires alike { AreAlike (length node.value.left) (length node.value.right) }
    requires room { length node.value.left + length node.value.right + 1 ≤ 2 ^ 126 }
    ensures { entry_of result.0.value ∷ result.1 ≡ listed node.value }
{
    let left = node.take_left();
    match left.root {
        None => {
            let rest = node.take_right();
            (node, rest)
        }
        Some(child) => {
            let (first, rest) = first_and_rest(child);
            (first, with_left(node, rest))
        }
    }
}
