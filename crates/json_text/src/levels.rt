// How deep the values of a document are nested.
ghost use Rattle.std.specs.Prelude.{◌≡◌, ◌≤◌, ◌<◌, ◌+◌, IfSome};
ghost use Rattle.json_text.specs.Shape.{is_holder, levels, nesting};
ghost use Rattle.json_text.specs.Levels.{levels_below, IsFirstHolder};
ghost use Rattle.json_text.specs.Forest.{grows};
ghost use Rattle.json_text.specs.Doc.{bytes_read, values_kept, IsNode, IsRoot, OfNode};
ghost use Rattle.json_text.specs.declared.doc.Node.{Node};

use crate::doc::{Doc, Node};
use crate::packed::Packed;
use json_lexemes::Kind;

impl<'a> Doc<'a> {
    /// How many lists and maps stand within one another in the value, itself counted: 0 for a word, 1 for an empty list. It
    /// is at most 64.
    pub fn nesting(&self, n: Node) -> usize
        requires { IsNode self.now n }
        ensures levels { OfNode self.now n (λ spot children later. result ≡ levels (is_holder spot.kind) (nesting children)) }
        ensures most { result ≤ 64 }
    {
        let own = self.entry(n);
        if !is_holder(own.spot.kind) {
            return 0;
        }
        levels_below(&self.nodes[n.number + 1..], own.depth).saturating_add(1)
    }

    /// The first list or map of the document that stands inside `depth` others; `None` exactly where there is none.
    pub fn first_inside(&self, depth: usize) -> Option<Node>
        ensures node { IfSome result (IsNode self.now) }
        ensures first { (root : Node) → IsRoot root → OfNode self.now root (λ spot children later. IsFirstHolder self.now depth (grows spot children later) result) }
    {
        for (number, entry) in self.nodes.iter().enumerate() {
            if entry.depth() == depth && is_holder(entry.kind()) {
                return Some(Node { number });
            }
        }
        None
    }
}

// Whether the value is a list or a map.
fn is_holder(kind: Kind) -> bool
    ensures { result ≡ is_holder kind }
{
    match kind {
        Kind::List | Kind::Map => true,
        _ => false,
    }
}

// How many lists and maps stand within one another among the values that begin the row and are deeper than `depth`.
fn levels_below(values: &[Packed], depth: usize) -> usize
    ensures { result ≡ levels_below depth values.now }
{
    let mut deepest = 0;
    for entry in values {
        if entry.depth() <= depth {
            return deepest;
        }
        if is_holder(entry.kind()) {
            deepest = deepest.max(entry.depth() - depth);
        }
    }
    deepest
}
