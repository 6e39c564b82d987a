// What values are, and members that are there.
ghost use Rattle.std.specs.Prelude.{◌≡◌, IfSome};
ghost use Rattle.json_text.specs.Doc.{IsNode, OfNode, IsAfter, IsLastThere, IsUnlessNull};
ghost use Rattle.json_text.specs.declared.doc.Node.{Node};
ghost use Rattle.json_text.specs.Shape.{is_list, is_map, is_null, is_text};

use crate::doc::{Doc, Node};
use json_lexemes::Kind;

impl<'a> Doc<'a> {
    /// Whether the value is null.
    pub fn is_null(&self, n: Node) -> bool
        requires { IsNode self.now n }
        ensures { OfNode self.now n (λ spot children later. result ≡ is_null spot.kind) }
    {
        is_null_kind(self.kind(n))
    }

    /// Whether the value is a text.
    pub fn is_text(&self, n: Node) -> bool
        requires { IsNode self.now n }
        ensures { OfNode self.now n (λ spot children later. result ≡ is_text spot.kind) }
    {
        is_text_kind(self.kind(n))
    }

    /// Whether the value is a list.
    pub fn is_list(&self, n: Node) -> bool
        requires { IsNode self.now n }
        ensures { OfNode self.now n (λ spot children later. result ≡ is_list spot.kind) }
    {
        is_list_kind(self.kind(n))
    }

    /// Whether the value is a map.
    pub fn is_map(&self, n: Node) -> bool
        requires { IsNode self.now n }
        ensures { OfNode self.now n (λ spot children later. result ≡ is_map spot.kind) }
    {
        is_map_kind(self.kind(n))
    }

    /// The value of the last member of this name, compared as texts; `None` exactly where the value is no map with such a
    /// member, or where that member is null.
    pub fn member_unless_null(&self, n: Node, name: &[u8]) -> Option<Node>
        requires { IsNode self.now n }
        ensures node { IfSome result (IsNode self.now) }
        ensures after { IfSome result (IsAfter n) }
        ensures last { OfNode self.now n (λ spot children later. IsLastThere self.now name.now children result) }
    {
        self.unless_null(self.member(n, name))
    }

    // The value, unless it is null.
    fn unless_null(&self, found: Option<Node>) -> Option<Node>
        requires { IfSome found (IsNode self.now) }
        ensures node { IfSome result (IsNode self.now) }
        ensures after { (n : Node) → IfSome found (IsAfter n) → IfSome result (IsAfter n) }
        ensures there { IsUnlessNull self.now found result }
    {
        match found {
            Some(n) => { if self.is_null(n) { None } else { Some(n) } }
            None => None,
        }
    }
}

fn is_null_kind(kind: Kind) -> bool
    ensures { result ≡ is_null kind }
{
    match kind {
        Kind::Null => true,
        Kind::Flag { .. } => false,
        Kind::Number => false,
        Kind::Text => false,
        Kind::List => false,
        Kind::Map => false,
    }
}

fn is_text_kind(kind: Kind) -> bool
    ensures { result ≡ is_text kind }
{
    match kind {
        Kind::Null => false,
        Kind::Flag { .. } => false,
        Kind::Number => false,
        Kind::Text => true,
        Kind::List => false,
        Kind::Map => false,
    }
}

fn is_list_kind(kind: Kind) -> bool
    ensures { result ≡ is_list kind }
{
    match kind {
        Kind::Null => false,
        Kind::Flag { .. } => false,
        Kind::Number => false,
        Kind::Text => false,
        Kind::List => true,
        Kind::Map => false,
    }
}

fn is_map_kind(kind: Kind) -> bool
    ensures { result ≡ is_map kind }
{
    match kind {
        Kind::Null => false,
        Kind::Flag { .. } => false,
        Kind::Number => false,
        Kind::Text => false,
        Kind::List => false,
        Kind::Map => true,
    }
}
