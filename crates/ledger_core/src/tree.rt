ghost use Rattle.std.specs.Prelude.{◌≡◌, ◌+◌, ◌≤◌, ◌^◌, [], length};
ghost use Rattle.ledger_core.specs.Tree.{listed, AreAlike};

use crate::place::Place;
use retry_core::RetryRun;
use side_base::{Blob, Text};
use std::alloc::Global;
use std::marker::Model;
use std::mem;
use std::sync::Arc;

/// What is known of a row beside its place.
#[derive(Drop)]
pub(crate) struct StoredRow {
    pub(crate) path: Text,
    /// Shared by all rows of one message, and by those of its dead letters.
    pub(crate) event: Arc<Blob, Global>,
    /// How many times the event has gone to a dead-letter topic.
    pub(crate) hops: u64,
    /// The number of the attempt that comes next, from 1.
    pub(crate) attempt: u64,
    /// The attempts under the policy of the subscription, where it has one.
    pub(crate) run: Option<RetryRun>,
    /// Whether the subscription has a dead-letter topic.
    pub(crate) dead: bool,
}

/// A row, between the rows of lower and of higher places.
#[cycle(tree)]
#[derive(Drop)]
pub(crate) struct Node {
    // What a search reads stands together.
    pub(crate) place: Place,
    pub(crate) left: Tree,
    pub(crate) right: Tree,
    pub(crate) row: StoredRow,
}

/// Rows by their places: a search tree, in which neither side of a node has more than three times as many places for a further row
/// as the other, so that no way down is long. Contracts see it as its entries in order.
///
/// Its nodes are made with their rows; a node that moves from one tree to another takes no memory.
#[cycle(tree)]
#[derive(Drop)]
pub(crate) struct Tree {
    pub(crate) root: Option<Box<Node>>,
    /// How many rows it has.
    pub(crate) len: u128,
}

impl Model for Tree {
    ghost use Rattle.std.specs.Prelude.{List, length};
    ghost use Rattle.ledger_core.specs.Row.{Entry};

    ghost Value = { List Entry };

    ghost use Rattle.ledger_core.specs.Tree.{listed_in};

    ghost view = { λ a. listed_in a.root };

    ghost use Rattle.ledger_core.specs.Tree.{IsBalanced};

    ghost invariant = { λ a. IsBalanced a.root a.len };

    ghost size = { length };

    ghost use Rattle.std.proofs.Common.{arith, length-append};

    ghost size_decreases = { λ a h. Prim.grind (arith, length-append) };
}

impl Node {
    /// Takes the left subtree out.
    pub(crate) fn take_left(&mut self) -> Tree
        ensures taken { result ≡ self.old.left }
        ensures rest { self.new ≡ record self.old { left = [] } }
    {
        mem::replace(&mut self.left, Tree::new())
    }

    /// Takes the right subtree out.
    pub(crate) fn take_right(&mut self) -> Tree
        ensures taken { result ≡ self.old.right }
        ensures rest { self.new ≡ record self.old { right = [] } }
    {
        mem::replace(&mut self.right, Tree::new())
    }
}

impl Tree {
    /// No rows.
    pub(crate) fn new() -> Tree
        ensures { result ≡ [] }
    {
        Tree { root: None, len: 0 }
    }

    /// A tree whose root is this node.
    pub(crate) fn of(node: Box<Node>) -> Tree
        requires alike { AreAlike (length node.value.left) (length node.value.right) }
        requires room { length node.value.left + length node.value.right + 1 ≤ 2 ^ 126 }
        ensures { result ≡ listed node.value }
    {
        let len = node.left.len() + node.right.len() + 1;
        Tree {
            root: Some(node),
            len,
        }
    }

    /// How many rows it has.
    pub(crate) fn len(&self) -> u128
        ensures len { result ≡ length self.now }
        ensures most { result ≤ 2 ^ 126 }
    {
        self.len
    }
}
