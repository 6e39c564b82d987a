ghost use Rattle.std.specs.Prelude.{◌≡◌, ◌+◌, ◌-◌, ◌<◌, ◌≤◌, ◌∷◌, ◌^◌, List, length, option_map, IfSome, IsTrue};
ghost use Rattle.std.specs.FinMap.{find, put, is_sorted};
ghost use Rattle.std.specs.Arc.{arc_value};
ghost use Rattle.ledger_core.specs.Place.{place_order};
ghost use Rattle.ledger_core.specs.Row.{Entry};
ghost use Rattle.ledger_core.specs.Rows.{entries_in};
ghost use Rattle.ledger_core.specs.Tree.{row_of, without};
ghost use Rattle.ledger_core.specs.Books.{AreSorted, empty_books, put_all, moved_to};

use crate::place::Place;
use crate::placing::{put, take_first, take_out};
use crate::rows::NewRows;
use crate::size::Size;
use crate::tree::{Node, Tree};
use side_base::Sequence;
use std::mem;

/// The rows of a ledger, and its counters.
#[derive(Drop)]
pub(crate) struct Books {
    /// The rows that are not held, each by the moment from which on it is due.
    pub(crate) waiting: Tree,
    /// The rows that are held, each by its claim.
    pub(crate) held: Tree,
    /// How many messages there were.
    pub(crate) made: u64,
    /// How many claims there were.
    pub(crate) claims: u64,
    pub(crate) owed: u128,
    pub(crate) done: u128,
    pub(crate) dropped: u128,
    pub(crate) dead: u128,
    /// What the events and paths of all rows have in bytes.
    pub(crate) bytes: u128,
}

impl Books {
    /// No rows, and nothing counted.
    pub(crate) fn new() -> Books
        ensures { result ≡ empty_books }
    {
        Books {
            waiting: Tree::new(),
            held: Tree::new(),
            made: 0,
            claims: 0,
            owed: 0,
            done: 0,
            dropped: 0,
            dead: 0,
            bytes: 0,
        }
    }

    /// What the rows take.
    pub(crate) fn size(&self) -> Size
        ensures rows { result.rows ≡ self.now.owed }
        ensures bytes { result.bytes ≡ self.now.bytes }
    {
        Size {
            rows: self.owed,
            bytes: self.bytes,
        }
    }

    /// What the other rows take.
    pub(crate) fn size_without(&self, node: &Node) -> Size
        ensures rows { result.rows ≡ self.now.owed - 1 }
        ensures bytes { result.bytes ≡ self.now.bytes - (length (arc_value node.now.row.event) + length node.now.row.path) }
    {
        let bytes = node.row.event.bytes().len() as u128 + node.row.path.bytes().len() as u128;
        Size {
            rows: self.owed.saturating_sub(1),
            bytes: self.bytes.saturating_sub(bytes),
        }
    }

    /// Lets a row wait until a moment.
    pub(crate) fn wait(&mut self, mut node: Box<Node>, due: u64)
        requires sorted { AreSorted self.old }
        requires room { length self.old.waiting < 2 ^ 126 }
        ensures { self.new ≡ record self.old { waiting = put place_order (moved_to due node.value.place) (row_of node.value.row) self.old.waiting } }
    {
        node.place.at = due;
        let waiting = mem::replace(&mut self.waiting, Tree::new());
        self.waiting = put(waiting, node);
    }

    /// Holds the first of the rows that wait, under the next claim.
    pub(crate) fn hold_first(&mut self)
        requires sorted { AreSorted self.old }
        requires room { length self.old.held < 2 ^ 126 }
        requires claims { self.old.claims < 2 ^ 63 }
        ensures { (x : Entry) (rest : List Entry) → self.old.waiting ≡ x ∷ rest
            → self.new ≡ record self.old { waiting = rest; held = put place_order (moved_to (self.old.claims + 1) x.0) x.1 self.old.held; claims = self.old.claims + 1 } }
    {
        let waiting = mem::replace(&mut self.waiting, Tree::new());
        let (found, rest) = take_first(waiting);
        self.waiting = rest;
        self.claims += 1;
        if let Some(node) = found {
            self.hold(node);
        }
    }

    /// Holds a row under the last claim.
    fn hold(&mut self, mut node: Box<Node>)
        requires sorted { IsTrue (is_sorted place_order self.old.held) }
        requires room { length self.old.held < 2 ^ 126 }
        ensures { self.new ≡ record self.old { held = put place_order (moved_to self.old.claims node.value.place) (row_of node.value.row) self.old.held } }
    {
        node.place.at = self.claims;
        let held = mem::replace(&mut self.held, Tree::new());
        self.held = put(held, node);
    }

    /// Takes out the row that is held at a place.
    pub(crate) fn take_held(&mut self, place: &Place) -> Option<Box<Node>>
        requires { AreSorted self.old }
        ensures found { option_map (λ node. row_of node.value.row) result ≡ find place_order place.now self.old.held }
        ensures placed { IfSome result (λ node. node.value.place ≡ place.now) }
        ensures rest { self.new ≡ record self.old { held = without place.now self.old.held } }
    {
        let held = mem::replace(&mut self.held, Tree::new());
        let (found, rest) = take_out(held, place);
        self.held = rest;
        found
    }

    /// Leaves a row that was taken out away.
    pub(crate) fn close(&mut self, node: &Node)
        ensures { self.new ≡ record self.old { owed = self.old.owed - 1; bytes = self.old.bytes - (length (arc_value node.now.row.event) + length node.now.row.path) } }
    {
        let size = self.size_without(node);
        self.owed = size.rows;
        self.bytes = size.bytes;
    }

    /// Adds the rows of a new message, with which the rows take this size.
    pub(crate) fn add(&mut self, rows: NewRows, size: Size)
        requires sorted { AreSorted self.old }
        requires room { length self.old.waiting + length rows.nodes ≤ 2 ^ 126 }
        requires made { self.old.made < 2 ^ 63 }
        requires dropped { self.old.dropped < 2 ^ 127 }
        requires few { rows.drops < 2 ^ 64 }
        ensures { self.new ≡ record self.old { waiting = put_all (entries_in rows.nodes) self.old.waiting; made = self.old.made + 1; owed = size.rows; bytes = size.bytes; dropped = self.old.dropped + rows.drops } }
    {
        let waiting = mem::replace(&mut self.waiting, Tree::new());
        self.waiting = put_all(waiting, rows.nodes);
        self.made += 1;
        self.owed = size.rows;
        self.bytes = size.bytes;
        self.dropped += rows.drops;
    }
}

/// The tree with these rows.
fn put_all(mut tree: Tree, mut nodes: Sequence<Box<Node>>) -> Tree
    requires sorted { IsTrue (is_sorted place_order tree) }
    requires room { length tree + length nodes ≤ 2 ^ 126 }
    ensures { result ≡ put_all (entries_in nodes) tree }
{
    while let Some(node) = nodes.take_first() {
        tree = put(tree, node);
    }
    tree
}
