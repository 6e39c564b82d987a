// Documents as trees, and the walks over them.
ghost use Rattle.std.specs.Prelude.{◌≡◌, ◌+◌, ◌<◌, ◌≤◌, ◌^◌, ℕ, List, length, bytes_eq, map, IsUtf8, IfSome};
ghost use Rattle.yaml_lines.specs.Texts.{texts};
ghost use Rattle.yaml_subset.specs.Docs.{IsPart, IsAfter, row_of, told_of, inner_of, later_of, IsFirst, count_of, rows_from, named, members_of, member, walked, IsAt};
ghost use Rattle.yaml_subset.specs.Held.{node_shown};
ghost use Rattle.yaml_subset.specs.Lawful.{count_named, AreUnnamed, MayHold, MayTell, AreOfFile};
ghost use Rattle.yaml_subset.specs.Trees.{Trees, tree_entries};

use crate::node::Node;
use crate::path_end::At;
use crate::preorder::{Part, Preorder};
use std::marker::Model;
use yaml_lines::PartKind;

/// A file that has been read: its documents, each with the parts in it.
///
/// A part is a document, the value of a member of a mapping, or an item of a sequence. A part that a call takes is one of
/// these documents. Contracts see the documents as trees.
#[derive(Drop)]
pub struct Docs {
    pub(crate) kept: Preorder,
}

impl Model for Docs {
    ghost use Rattle.yaml_subset.specs.Trees.{Trees};
    ghost use Rattle.yaml_subset.specs.Built.{documents_of, IsWhole};
    ghost use Rattle.yaml_subset.specs.TreesCode.{trees_code};

    ghost Value = { Trees };

    ghost coded = { trees_code };

    ghost view = { λ d. documents_of d.kept };

    ghost invariant = { λ d. IsWhole d.kept };
}

/// The documents of nodes, each before those in it.
pub(crate) fn docs_of(nodes: Vec<Node>) -> Docs
    requires { (documents : Trees) × (map node_shown nodes.items ≡ tree_entries 0 documents) × AreOfFile documents }
    ensures { (documents : Trees) → map node_shown nodes.items ≡ tree_entries 0 documents → result ≡ documents }
{
    Docs {
        kept: Preorder { nodes },
    }
}

impl Docs {
    /// How many documents there are; those of comments and blank lines don't count.
    pub fn count(&self) -> usize
        ensures { result ≡ count_of self.now }
    {
        self.kept.count()
    }

    /// The document of number `doc`, from 0; `None` exactly where there is none. Documents have no names.
    pub fn root(&self, doc: usize) -> Option<Part>
        ensures root { IsFirst self.now (rows_from doc self.now) result }
        ensures unnamed { AreUnnamed self.now }
    {
        self.kept.root(doc)
    }

    /// What the part is.
    pub fn kind(&self, p: Part) -> PartKind
        requires { IsPart self.now p }
        ensures { result ≡ (told_of (row_of self.now p)).kind }
    {
        self.kept.kind(p)
    }

    /// The name of a member, in UTF-8; empty for another part.
    pub fn name(&self, p: Part) -> &[u8]
        requires { IsPart self.now p }
        ensures name { result.now ≡ (told_of (row_of self.now p)).name }
        ensures utf8 { IsUtf8 result.now }
    {
        self.kept.name(p)
    }

    /// The text of a scalar, in UTF-8; empty for another part.
    pub fn text(&self, p: Part) -> &[u8]
        requires { IsPart self.now p }
        ensures text { result.now ≡ (told_of (row_of self.now p)).text }
        ensures tells { MayTell (told_of (row_of self.now p)).kind result.now }
        ensures utf8 { IsUtf8 result.now }
    {
        self.kept.text(p)
    }

    /// The line on which the part begins, counted from 1: that of its name or its dash, if it has one.
    pub fn line(&self, p: Part) -> usize
        requires { IsPart self.now p }
        ensures { result ≡ (told_of (row_of self.now p)).line }
    {
        self.kept.line(p)
    }

    /// The first member of a mapping, or the first item of a sequence; `None` exactly where there is none.
    ///
    /// The members of a mapping have names of their own, items have none, and a scalar and an empty part hold nothing.
    pub fn first(&self, p: Part) -> Option<Part>
        requires { IsPart self.now p }
        ensures first { IsFirst self.now (inner_of (row_of self.now p)) result }
        ensures holds { MayHold (told_of (row_of self.now p)).kind (inner_of (row_of self.now p)) }
        ensures after { IfSome result (IsAfter p) }
    {
        self.kept.first(p)
    }

    /// The member, the item or the document that follows; `None` exactly where there is none.
    pub fn next(&self, p: Part) -> Option<Part>
        requires { IsPart self.now p }
        ensures next { IsFirst self.now (later_of (row_of self.now p)) result }
        ensures after { IfSome result (IsAfter p) }
    {
        self.kept.next(p)
    }

    // Whether the part has this name.
    fn is_named(&self, p: Part, name: &[u8]) -> bool
        requires { IsPart self.now p }
        ensures { result ≡ bytes_eq (told_of (row_of self.now p)).name name.now }
    {
        self.name(p) == name
    }

    /// The member of this name, of which there is one at most; `None` exactly where the part is no mapping with such a member.
    pub fn get(&self, p: Part, name: &[u8]) -> Option<Part>
        requires { IsPart self.now p }
        ensures get { IsFirst self.now (member name.now (row_of self.now p)) result }
        ensures only { count_named name.now (members_of (row_of self.now p)) ≤ 1 }
    {
        match self.kind(p) {
            PartKind::Mapping => self.named_from(self.first(p), name),
            PartKind::Scalar => None,
            PartKind::Sequence => None,
            PartKind::Empty => None,
        }
    }

    // The first part of this name, from one on.
    fn named_from(&self, from: Option<Part>, name: &[u8]) -> Option<Part>
        requires { IfSome from (IsPart self.now) }
        ensures { (row : Trees) → IsFirst self.now row from → IsFirst self.now (named name.now row) result }
    {
        let mut here = from;
        loop {
            match here {
                Some(p) => {
                    if self.is_named(p, name) {
                        return Some(p);
                    }
                    here = self.next(p);
                }
                None => return None,
            }
        }
    }

    /// What stands at the end of a path of names that begins at a part. An empty part counts as none.
    pub fn at(&self, p: Part, path: &[&str]) -> At
        requires { IsPart self.now p }
        ensures { IsAt self.now (walked 0 (row_of self.now p) (texts path.now)) result }
    {
        self.at_from(p, 0, path)
    }

    // The same after so many names.
    fn at_from(&self, p: Part, passed: usize, path: &[&str]) -> At
        requires part { IsPart self.now p }
        requires room { passed + length path.now < 2 ^ 63 }
        ensures { IsAt self.now (walked passed (row_of self.now p) (texts path.now)) result }
    {
        match path.split_first() {
            None => self.at_end(p),
            Some((name, names)) => match self.kind(p) {
                PartKind::Empty => At::Absent,
                PartKind::Scalar => At::Wrong(passed),
                PartKind::Sequence => At::Wrong(passed),
                PartKind::Mapping => match self.get(p, name.as_bytes()) {
                    Some(next) => self.at_from(next, passed + 1, names),
                    None => At::Absent,
                },
            },
        }
    }

    // The part itself, if it isn't empty.
    fn at_end(&self, p: Part) -> At
        requires { IsPart self.now p }
        ensures { (passed : ℕ) (names : List (List ℕ)) → length names ≡ 0 → IsAt self.now (walked passed (row_of self.now p) names) result }
    {
        match self.kind(p) {
            PartKind::Empty => At::Absent,
            PartKind::Scalar => At::Here(p),
            PartKind::Sequence => At::Here(p),
            PartKind::Mapping => At::Here(p),
        }
    }
}
