ghost use Rattle.std.specs.Prelude.{◌≡◌, ◌≢◌, ◌<◌, ◌≤◌, ◌++◌, length, slice_index_or, MatchOption, IfSome, IfNone, IfOk, OnOk, OnErr, IsTrue, ◌↔◌, slice_get, Some, if◌then◌else◌};
ghost use Rattle.json_text.specs.Forest.{empty};
ghost use Rattle.json_text.specs.Unescape.{HasText, HasName, text_shown, name_shown};
ghost use Rattle.json_text.specs.Readable.{TextsAreReadable, ValuesAreWithin};
ghost use Rattle.json_text.specs.Reading.{Holds};
ghost use Rattle.json_text.specs.Shape.{value_bytes};
ghost use Rattle.json_text.specs.Told.{TextsAreWhole};
ghost use Rattle.std.specs.Str.{IsUtf8};

use crate::packed::Packed;
use crate::shown::{has_name, has_text, push_name_of, push_text_of, text_byte_of, text_inside};
use crate::spot::Entry;
use crate::told::Told;
use json_lexemes::Kind;
use side_base::{Blob, NoMemory, Text};
use std::alloc::Global;

/// The number of a value of a document.
#[derive(Clone, Copy, Debug, PartialEq, Eq)]
pub struct Node {
    pub(crate) number: usize,
}

/// A JSON text that has been read: its bytes, its values as spans of them, and the texts that escapes spell.
#[derive(Drop)]
pub struct Doc<'a> {
    pub(crate) bytes: &'a [u8],
    pub(crate) nodes: Vec<Packed>,
    pub(crate) told: Told,
    ghost some: { 0 < length nodes.items },
    ghost readable: { TextsAreReadable bytes.now nodes.items },
    ghost whole: { TextsAreWhole bytes.now nodes.items told },
    ghost within: { ValuesAreWithin bytes.now nodes.items },
    ghost read: { ∥ Holds bytes.now nodes.items ∥₁ },
}

impl<'a> Doc<'a> {
    ghost use Rattle.json_text.specs.Doc.{bytes_read, values_kept, IsNode, IsRoot, IsDepthAt, IsAfter, StandsAt, OfNode, IsLastNamed, Shows};

    /// The value that the text is.
    pub fn root(&self) -> Node
        ensures first { IsRoot result }
        ensures node { IsNode self.now result }
        ensures read { ∥ Shows self.now (bytes_read self.now) ∥₁ }
    {
        Node { number: 0 }
    }

    /// The bytes that were read.
    pub fn bytes(&self) -> &'a [u8]
        ensures { result.now ≡ bytes_read self.now }
    {
        self.bytes
    }

    /// Whether the document has this value.
    pub fn is_node(&self, n: Node) -> bool
        ensures { IsTrue result ↔ IsNode self.now n }
    {
        n.number < self.nodes.len()
    }

    // The value's entry.
    pub(crate) fn entry(&self, n: Node) -> Entry
        requires { IsNode self.now n }
        ensures { result ≡ slice_index_or (values_kept self.now) n.number result }
    {
        self.nodes[n.number].unpacked()
    }

    // How many lists and maps the value of this number stands in, if there is one.
    fn depth_at(&self, number: usize) -> Option<usize>
        ensures none { IfNone result (length (values_kept self.now) ≤ number) }
        ensures some { IfSome result (IsDepthAt self.now number) }
    {
        if number < self.nodes.len() {
            Some(self.nodes[number].depth())
        } else {
            None
        }
    }

    /// What the value is.
    pub fn kind(&self, n: Node) -> Kind
        requires { IsNode self.now n }
        ensures { OfNode self.now n (λ spot children later. result ≡ spot.kind) }
    {
        self.entry(n).spot.kind
    }

    /// The place where the value begins, and the place after its end.
    pub fn span(&self, n: Node) -> (usize, usize)
        requires { IsNode self.now n }
        ensures start { OfNode self.now n (λ spot children later. result.0 ≡ spot.span.start) }
        ensures end { OfNode self.now n (λ spot children later. result.1 ≡ spot.span.end) }
        ensures some { result.0 < result.1 }
        ensures within { result.1 ≤ length (bytes_read self.now) }
    {
        let span = self.entry(n).spot.span;
        (span.start, span.end)
    }

    /// The bytes of the value, without white space round it; those of a text with its quotes.
    pub fn value_bytes(&self, n: Node) -> &'a [u8]
        requires { IsNode self.now n }
        ensures { OfNode self.now n (λ spot children later. result.now ≡ value_bytes (bytes_read self.now) spot) }
    {
        let (start, end) = self.span(n);
        &self.bytes[start..end]
    }

    /// The first item of a list, or the value of the first member of a map; `None` exactly where there is none.
    pub fn first(&self, n: Node) -> Option<Node>
        requires { IsNode self.now n }
        ensures node { IfSome result (IsNode self.now) }
        ensures after { IfSome result (IsAfter n) }
        ensures first { OfNode self.now n (λ spot children later. MatchOption result (children ≡ empty) (λ m. StandsAt self.now m children × (children ≢ empty))) }
    {
        let own = self.entry(n);
        let number = n.number + 1;
        match self.depth_at(number) {
            Some(depth) => {
                if depth > own.depth {
                    Some(Node { number })
                } else {
                    None
                }
            }
            None => None,
        }
    }

    /// The item or the member's value that follows in the same list or map; `None` exactly where there is none.
    pub fn next(&self, n: Node) -> Option<Node>
        requires { IsNode self.now n }
        ensures node { IfSome result (IsNode self.now) }
        ensures after { IfSome result (IsAfter n) }
        ensures next { OfNode self.now n (λ spot children later. MatchOption result (later ≡ empty) (λ m. StandsAt self.now m later × (later ≢ empty))) }
    {
        let own = self.entry(n);
        let number = n.number.saturating_add(own.size.max(1));
        match self.depth_at(number) {
            Some(depth) => {
                if depth == own.depth {
                    Some(Node { number })
                } else {
                    None
                }
            }
            None => None,
        }
    }

    /// The value of the last member of this name, compared as texts; `None` exactly where the value is no map with such
    /// a member.
    pub fn member(&self, n: Node, name: &[u8]) -> Option<Node>
        requires { IsNode self.now n }
        ensures node { IfSome result (IsNode self.now) }
        ensures after { IfSome result (IsAfter n) }
        ensures last { OfNode self.now n (λ spot children later. IsLastNamed self.now name.now children result) }
    {
        let mut found = None;
        let mut here = self.first(n);
        loop {
            match here {
                Some(node) => {
                    found = chosen(self.name_is(node, name), node, found);
                    here = self.next(node);
                }
                None => return found,
            }
        }
    }

    /// Whether the value is this text.
    pub fn text_is(&self, n: Node, text: &[u8]) -> bool
        requires { IsNode self.now n }
        ensures { OfNode self.now n (λ spot children later. IsTrue result ↔ HasText (bytes_read self.now) spot text.now) }
    {
        has_text(self.bytes, self.entry(n).spot, text)
    }

    /// Whether the value is a member of this name.
    pub fn name_is(&self, n: Node, name: &[u8]) -> bool
        requires { IsNode self.now n }
        ensures { OfNode self.now n (λ spot children later. IsTrue result ↔ HasName (bytes_read self.now) spot name.now) }
    {
        has_name(self.bytes, self.entry(n).spot, name)
    }

    /// The text that the value is, in one piece; no bytes for another value. Takes no memory, and no time that grows with the
    /// text.
    pub fn text(&self, n: Node) -> &[u8]
        requires { IsNode self.now n }
        ensures { OfNode self.now n (λ spot children later. result.now ≡ text_shown (bytes_read self.now) spot) }
    {
        self.told
            .text(n.number, text_inside(self.bytes, self.entry(n).spot))
    }

    /// The byte of number `i`, from 0, of the text that the value is; `None` exactly where it has no such byte.
    pub fn text_byte(&self, n: Node, i: usize) -> Option<u8>
        requires { IsNode self.now n }
        ensures { OfNode self.now n (λ spot children later. result ≡ slice_get (text_shown (bytes_read self.now) spot) i) }
    {
        text_byte_of(self.bytes, self.entry(n).spot, i)
    }

    /// A copy of the text that the value is; an empty one for another value.
    pub fn text_of(&self, alloc: Global, n: Node) -> Result<Text, NoMemory>
        requires { IsNode self.now n }
        ensures { OfNode self.now n (λ spot children later. IfOk result (λ text. text ≡ text_shown (bytes_read self.now) spot)) }
    {
        let mut out = Blob::new(alloc);
        match push_text_of(&mut out, self.bytes, self.entry(n).spot) {
            Ok(()) => text_from(out),
            Err(error) => Err(error),
        }
    }

    /// A copy of the name of a member; an empty one for another value.
    pub fn name_of(&self, alloc: Global, n: Node) -> Result<Text, NoMemory>
        requires { IsNode self.now n }
        ensures { OfNode self.now n (λ spot children later. IfOk result (λ text. text ≡ name_shown (bytes_read self.now) spot)) }
    {
        let mut out = Blob::new(alloc);
        match push_name_of(&mut out, self.bytes, self.entry(n).spot) {
            Ok(()) => text_from(out),
            Err(error) => Err(error),
        }
    }

    /// Appends the text that the value is; nothing for another value. Without memory `out` stays as it was.
    pub fn push_text(&self, n: Node, out: &mut Blob) -> Result<(), NoMemory>
        requires { IsNode self.now n }
        ensures ok { OfNode self.now n (λ spot children later. OnOk result (out.new ≡ out.old ++ text_shown (bytes_read self.now) spot)) }
        ensures err { OnErr result (out.new ≡ out.old) }
    {
        push_text_of(out, self.bytes, self.entry(n).spot)
    }

    /// Appends the name of a member; nothing for another value. Without memory `out` stays as it was.
    pub fn push_name(&self, n: Node, out: &mut Blob) -> Result<(), NoMemory>
        requires { IsNode self.now n }
        ensures ok { OfNode self.now n (λ spot children later. OnOk result (out.new ≡ out.old ++ name_shown (bytes_read self.now) spot)) }
        ensures err { OnErr result (out.new ≡ out.old) }
    {
        push_name_of(out, self.bytes, self.entry(n).spot)
    }
}

fn chosen(named: bool, node: Node, found: Option<Node>) -> Option<Node>
    ensures { result ≡ (if named then Some node else found) }
{
    if named { Some(node) } else { found }
}

// The bytes as a text.
fn text_from(bytes: Blob) -> Result<Text, NoMemory>
    requires { IsUtf8 bytes }
    ensures { IfOk result (λ text. text ≡ bytes) }
{
    match bytes.into_text() {
        Ok(text) => Ok(text),
        Err(_) => unreachable!(),
    }
}
