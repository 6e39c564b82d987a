ghost use Rattle.std.specs.Prelude.{◌≡◌, ℕ, List, [], ◌++◌, ◌↔◌, IfOk, OnOk, OnErr, IsErrOf, IsUtf8, IsTrue, length};
ghost use Rattle.std.specs.String.{string_bytes};
ghost use Rattle.side_base.specs.Text.{IsNotUtf8At};

use crate::shared::SharedBytes;
use crate::{Blob, NoMemory};
use std::alloc::Global;
use std::error::Error;
use std::fmt;
use std::marker::Model;

/// Why bytes were not taken as a text.
#[derive(Clone, Copy, Debug, PartialEq, Eq)]
pub enum TextErr {
    /// The bytes are not UTF-8; `at` is the place of the first byte of the first broken sequence.
    NotUtf8 { at: usize },
    /// There is no room for a copy.
    NoMemory,
}

impl fmt::Display for TextErr {
    fn fmt<W: fmt::Write>(&self, f: &mut fmt::Formatter<W>) -> fmt::Result {
        match self {
            TextErr::NotUtf8 { at } => write!(f, "not UTF-8 at {at}"),
            TextErr::NoMemory => f.write_str("no memory"),
        }
    }
}

impl Error for TextErr {}

/// Bytes that several values may hold, and that are a text.
#[derive(Debug, Drop)]
struct SharedText {
    bytes: SharedBytes,
    ghost utf8: { ∥ IsUtf8 bytes ∥₁ },
}

impl SharedText {
    fn as_str(&self) -> &str
        ensures { result.now ≡ self.now.bytes }
    {
        unsafe { str::from_utf8_unchecked(self.bytes.bytes()) }
    }
}

/// What a text holds: a text of the program itself, with the allocator that a change takes, one of its own, or one that others hold too.
#[derive(Debug, Drop)]
enum Held {
    Fixed(Global, &'static str),
    Owned(String),
    Shared(SharedText),
}

/// A text in UTF-8. Contracts see it as the list of its bytes.
#[derive(Debug, Drop)]
pub struct Text {
    held: Held,
}

impl Model for Text {
    ghost use Rattle.std.specs.Prelude.{ℕ, List};
    ghost use Rattle.side_base.specs.Held.{held_bytes};

    ghost Value = { List ℕ };

    ghost view = { λ t. held_bytes t.held };
}

impl Text {
    /// The empty text; takes no memory.
    pub fn new(alloc: Global) -> Text
        ensures { result ≡ [] }
    {
        Text::from_string(String::new(alloc))
    }

    /// A text of the program itself, such as a literal; takes no memory. A change of it takes a copy first.
    pub fn from_static(alloc: Global, text: &'static str) -> Text
        ensures { result ≡ text.now }
    {
        Text {
            held: Held::Fixed(alloc, text),
        }
    }

    /// The text of a `String`; takes no memory.
    pub fn from_string(string: String) -> Text
        ensures { result ≡ string_bytes string }
    {
        Text {
            held: Held::Owned(string),
        }
    }

    /// The text of bytes that others may hold too; takes no memory. A change of it takes a copy first.
    pub(crate) fn from_shared(bytes: SharedBytes) -> Text
        requires { IsUtf8 bytes }
        ensures { result ≡ bytes }
    {
        Text {
            held: Held::Shared(SharedText { bytes }),
        }
    }

    /// A copy of `bytes` as a text.
    pub fn from_bytes(alloc: Global, bytes: &[u8]) -> Result<Text, TextErr>
        ensures text { IfOk result (λ text. (text ≡ bytes.now) × IsUtf8 bytes.now) }
        ensures not_utf8 { (at : ℕ) → IsErrOf result (TextErr.NotUtf8 at) ↔ IsNotUtf8At bytes.now at }
    {
        match str::from_utf8(bytes) {
            Ok(text) => Text::from_str(alloc, text).map_err(|_| TextErr::NoMemory),
            Err(error) => Err(TextErr::NotUtf8 {
                at: error.valid_up_to(),
            }),
        }
    }

    /// A copy of `text`.
    pub fn from_str(alloc: Global, text: &str) -> Result<Text, NoMemory>
        ensures { IfOk result (λ copy. copy ≡ text.now) }
    {
        Ok(Text::from_string(String::from_str(alloc, text)?))
    }

    /// Appends `piece`; without memory the text stays as it was.
    pub fn push(&mut self, piece: &str) -> Result<(), NoMemory>
        ensures ok { OnOk result (self.new ≡ self.old ++ piece.now) }
        ensures err { OnErr result (self.new ≡ self.old) }
    {
        match &mut self.held {
            Held::Owned(string) => string.push_str(piece),
            Held::Fixed(alloc, text) => {
                let mut string = String::from_str(*alloc, *text)?;
                string.push_str(piece)?;
                self.held = Held::Owned(string);
                Ok(())
            }
            Held::Shared(shared) => {
                let mut string = String::from_str(shared.bytes.alloc(), shared.as_str())?;
                string.push_str(piece)?;
                self.held = Held::Owned(string);
                Ok(())
            }
        }
    }

    /// The bytes of the text, which are UTF-8.
    pub fn bytes(&self) -> &[u8]
        ensures value { result.now ≡ self.now }
        ensures utf8 { IsUtf8 self.now }
    {
        self.as_str().as_bytes()
    }

    /// The text as a `&str`.
    pub fn as_str(&self) -> &str
        ensures value { result.now ≡ self.now }
        ensures utf8 { IsUtf8 self.now }
    {
        match &self.held {
            Held::Fixed(_, text) => *text,
            Held::Owned(string) => string.as_str(),
            Held::Shared(shared) => shared.as_str(),
        }
    }

    /// The number of bytes.
    pub fn len(&self) -> usize
        ensures { result ≡ length self.now }
    {
        self.bytes().len()
    }

    /// Whether there is no byte.
    pub fn is_empty(&self) -> bool
        ensures { IsTrue result ↔ (self.now ≡ []) }
    {
        self.bytes().is_empty()
    }

    /// A second text with the same bytes.
    pub fn copy(&self) -> Result<Self, NoMemory>
        ensures { IfOk result (λ text. text ≡ self.now) }
    {
        match &self.held {
            Held::Fixed(alloc, text) => Ok(Text::from_static(*alloc, *text)),
            Held::Owned(string) => Ok(Text::from_string(string.clone()?)),
            Held::Shared(shared) => Ok(Text::from_shared(shared.bytes.copy()?)),
        }
    }

    /// The bytes of the text as a byte string. They are moved; only those of the program itself are copied, which takes
    /// memory.
    pub fn into_blob(self) -> Result<Blob, NoMemory>
        ensures { IfOk result (λ blob. blob ≡ self) }
    {
        match self.held {
            Held::Fixed(alloc, text) => Blob::from_bytes(alloc, text.as_bytes()),
            Held::Owned(string) => Ok(Blob::from_vec(string.into_bytes())),
            Held::Shared(shared) => Ok(Blob::from_shared(shared.bytes)),
        }
    }
}
