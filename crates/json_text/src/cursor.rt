// The bytes of the texts of a document, one after the other.
ghost use Rattle.std.specs.Prelude.{◌≡◌, length};
ghost use Rattle.json_text.specs.Unescape.{text_shown, name_shown};
ghost use Rattle.json_text.specs.Doc.{bytes_read, IsNode, OfNode};

use crate::doc::{Doc, Node};
use crate::shown::{name_inside, text_inside};
use json_lexemes::{TextBytes, unescaped_len};

impl<'a> Doc<'a> {
    /// The bytes of the text that the value is, one after the other; none for another value.
    pub fn text_bytes(&self, n: Node) -> TextBytes<'a>
        requires { IsNode self.now n }
        ensures { OfNode self.now n (λ spot children later. result ≡ text_shown (bytes_read self.now) spot) }
    {
        TextBytes::of_inside(text_inside(self.bytes, self.entry(n).spot))
    }

    /// The bytes of the name of a member, one after the other; none for another value.
    pub fn name_bytes(&self, n: Node) -> TextBytes<'a>
        requires { IsNode self.now n }
        ensures { OfNode self.now n (λ spot children later. result ≡ name_shown (bytes_read self.now) spot) }
    {
        TextBytes::of_inside(name_inside(self.bytes, self.entry(n).spot))
    }

    /// How many bytes the text has that the value is; 0 for another value.
    pub fn text_len(&self, n: Node) -> usize
        requires { IsNode self.now n }
        ensures { OfNode self.now n (λ spot children later. result ≡ length (text_shown (bytes_read self.now) spot)) }
    {
        unescaped_len(text_inside(self.bytes, self.entry(n).spot))
    }
}
