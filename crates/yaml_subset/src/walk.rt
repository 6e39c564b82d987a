// From a part that is kept to the parts in it, and to the next one.
ghost use Rattle.std.specs.Prelude.{◌≡◌, ◌≢◌, ◌+◌, ◌<◌, ◌≤◌, ◌==◌, nat_lt, ℕ, length, drop, count_by, slice_index_or, IfSome, IfNone, IsTrue, ◌↔◌};
ghost use Rattle.std.specs.List.{take_while};
ghost use Rattle.yaml_subset.specs.Docs.{IsAfter, count_of, rows_from};
ghost use Rattle.yaml_subset.specs.Preorder.{IsPart, IsDepthAt, AreDocuments, FirstOf, OfPart};
ghost use Rattle.yaml_subset.specs.Trees.{Trees};

use crate::node::Node;
use crate::preorder::{Part, Preorder};
use yaml_lines::PartKind;

fn is_deeper(node: &Node, depth: usize) -> bool
    ensures { result ≡ nat_lt depth node.now.depth }
{
    node.depth > depth
}

// How many parts from the first one on are deeper than that.
fn count_deeper(nodes: &[Node], depth: usize) -> usize
    ensures exact { result ≡ length (take_while (λ node. nat_lt depth node.depth) nodes.now) }
    ensures inside { result ≤ length nodes.now }
{
    nodes
        .iter()
        .take_while(|node| is_deeper(node, depth))
        .count()
}

// How many parts are documents.
fn count_documents(nodes: &[Node]) -> usize
    ensures { result ≡ count_by (λ node. node.depth == 0) nodes.now }
{
    nodes.iter().filter(|node| node.depth == 0).count()
}

impl Preorder {
    // The part's node.
    fn node(&self, p: Part) -> &Node
        requires { IsPart self.now p }
        ensures { result.now ≡ slice_index_or self.now.nodes.items p.number result.now }
    {
        &self.nodes[p.number]
    }

    // How many parts the part of this number stands in, if there is one.
    fn depth_at(&self, number: usize) -> Option<usize>
        ensures none { IfNone result (length self.now.nodes.items ≤ number) }
        ensures some { IfSome result (IsDepthAt self.now number) }
    {
        if number < self.nodes.len() {
            Some(self.nodes[number].depth)
        } else {
            None
        }
    }

    // The number of the first part behind this one that isn't in it.
    fn number_behind(&self, p: Part) -> usize
        requires { IsPart self.now p }
        ensures { (node : Node) → result ≡ p.number + 1 + length (take_while (λ other. nat_lt (slice_index_or self.now.nodes.items p.number node).depth other.depth) (drop (p.number + 1) self.now.nodes.items)) }
    {
        let depth = self.nodes[p.number].depth;
        let (_, others) = self.nodes.split_at(p.number + 1);
        p.number + 1 + count_deeper(others, depth)
    }

    /// How many documents there are; those of comments and blank lines don't count.
    pub(crate) fn count(&self) -> usize
        ensures { (documents : Trees) → AreDocuments self.now documents → result ≡ count_of documents }
    {
        count_documents(&self.nodes)
    }

    /// The document of number `doc`, from 0; `None` exactly where there is none.
    pub(crate) fn root(&self, doc: usize) -> Option<Part>
        ensures part { IfSome result (IsPart self.now) }
        ensures root { (documents : Trees) → AreDocuments self.now documents → FirstOf self.now (rows_from doc documents) result }
    {
        let mut here = self.first_document();
        let mut passed = 0;
        while passed < doc {
            match here {
                Some(p) => here = self.next(p),
                None => return None,
            }
            passed += 1;
        }
        here
    }

    fn first_document(&self) -> Option<Part>
        ensures part { IfSome result (IsPart self.now) }
        ensures first { (documents : Trees) → AreDocuments self.now documents → FirstOf self.now documents result }
    {
        match self.depth_at(0) {
            Some(_) => Some(Part { number: 0 }),
            None => None,
        }
    }

    /// What the part is.
    pub(crate) fn kind(&self, p: Part) -> PartKind
        requires { IsPart self.now p }
        ensures { OfPart self.now p (λ told inner later. result ≡ told.kind) }
    {
        self.node(p).kind
    }

    /// The name of a member; empty for another part.
    pub(crate) fn name(&self, p: Part) -> &[u8]
        requires { IsPart self.now p }
        ensures { OfPart self.now p (λ told inner later. result.now ≡ told.name) }
    {
        self.node(p).name.as_slice()
    }

    /// The text of a scalar; empty for another part.
    pub(crate) fn text(&self, p: Part) -> &[u8]
        requires { IsPart self.now p }
        ensures { OfPart self.now p (λ told inner later. result.now ≡ told.text) }
    {
        self.node(p).text.as_slice()
    }

    /// The line on which the part begins, counted from 1: that of its name or its dash, if it has one.
    pub(crate) fn line(&self, p: Part) -> usize
        requires { IsPart self.now p }
        ensures { OfPart self.now p (λ told inner later. result ≡ told.line) }
    {
        self.node(p).line
    }

    /// The first member of a mapping, or the first item of a sequence; `None` exactly where there is none.
    pub(crate) fn first(&self, p: Part) -> Option<Part>
        requires { IsPart self.now p }
        ensures part { IfSome result (IsPart self.now) }
        ensures after { IfSome result (IsAfter p) }
        ensures first { OfPart self.now p (λ told inner later. FirstOf self.now inner result) }
    {
        let own = self.node(p).depth;
        let number = p.number + 1;
        match self.depth_at(number) {
            Some(depth) => {
                if depth > own {
                    Some(Part { number })
                } else {
                    None
                }
            }
            None => None,
        }
    }

    /// The member, the item or the document that follows; `None` exactly where there is none.
    pub(crate) fn next(&self, p: Part) -> Option<Part>
        requires { IsPart self.now p }
        ensures part { IfSome result (IsPart self.now) }
        ensures after { IfSome result (IsAfter p) }
        ensures next { OfPart self.now p (λ told inner later. FirstOf self.now later result) }
    {
        let own = self.node(p).depth;
        let number = self.number_behind(p);
        match self.depth_at(number) {
            Some(depth) => {
                if depth == own {
                    Some(Part { number })
                } else {
                    None
                }
            }
            None => None,
        }
    }
}
