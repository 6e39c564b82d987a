ghost use Rattle.std.specs.Prelude.{◌≡◌, ◌≤◌, ℕ, List, [], ◌∷◌, ◌++◌, length, take, IfOk, IfErr, IsUtf8, IsTrue, OnOk, OnErr, ◌↔◌};
ghost use Rattle.side_base.specs.Text.{IsNotUtf8At};

use crate::shared::SharedBytes;
use crate::{NoMemory, Text};
use std::alloc::Global;
use std::marker::Model;

/// From how many bytes on copies share them.
const SHARED_FROM: usize = 4096;

/// What a blob holds: bytes of its own, or bytes that its copies hold too.
#[derive(Debug, Drop)]
enum Bytes {
    Own(Vec<u8>),
    Shared(SharedBytes),
}

/// A byte string that can grow. Contracts see it as the list of its bytes.
///
/// One of 4 KiB or more that `from_bytes`, `copy` or `shared` made shares its bytes with its copies, so that a copy costs the same
/// whatever its length; a change of one that is shared copies the bytes first. One that was written by pushes has its bytes alone, and
/// each copy of it is a copy of the bytes, up to `shared`.
#[derive(Debug, Drop)]
pub struct Blob {
    bytes: Bytes,
}

/// Bytes that are no text.
#[derive(Debug, Drop)]
pub struct NotText {
    /// The place of the first byte of the first sequence that is not UTF-8.
    pub at: usize,
    /// The bytes.
    pub blob: Blob,
}

impl Model for Blob {
    ghost use Rattle.std.specs.Prelude.{ℕ, List};
    ghost use Rattle.side_base.specs.Held.{bytes_of};

    ghost Value = { List ℕ };

    ghost view = { λ b. bytes_of b.bytes };
}

impl Blob {
    /// No bytes; takes no memory.
    pub fn new(alloc: Global) -> Self
        ensures { result ≡ [] }
    {
        Blob::from_vec(Vec::new(alloc))
    }

    /// A copy of `bytes`.
    pub fn from_bytes(alloc: Global, bytes: &[u8]) -> Result<Self, NoMemory>
        ensures { IfOk result (λ blob. blob ≡ bytes.now) }
    {
        let mut blob = Blob::new(alloc);
        blob.push(bytes)?;
        Ok(blob.shared())
    }

    /// The bytes of a `Vec`; takes no memory.
    pub fn from_vec(bytes: Vec<u8>) -> Self
        ensures { result ≡ bytes.items }
    {
        Blob {
            bytes: Bytes::Own(bytes),
        }
    }

    pub(crate) fn from_shared(shared: SharedBytes) -> Self
        ensures { result ≡ shared }
    {
        Blob {
            bytes: Bytes::Shared(shared),
        }
    }

    /// The same bytes, of which later copies are no copies of the bytes, where they are 4 KiB or more; below that, or where there is
    /// no memory for it, as they were.
    pub fn shared(self) -> Self
        ensures { result ≡ self }
    {
        match self.bytes {
            Bytes::Own(bytes) => shared_of(bytes),
            Bytes::Shared(shared) => Blob::from_shared(shared),
        }
    }

    /// The bytes as a text, if they are UTF-8; takes no memory.
    pub fn into_text(self) -> Result<Text, NotText>
        ensures text { IfOk result (λ text. (text ≡ self) × IsUtf8 self) }
        ensures not_text { IfErr result (λ error. IsNotUtf8At self error.at × (error.blob ≡ self)) }
    {
        match self.bytes {
            Bytes::Own(bytes) => text_of(bytes),
            Bytes::Shared(mut shared) => match shared.take() {
                Some(bytes) => text_of(bytes),
                None => shared_text_of(shared),
            },
        }
    }

    /// Appends `piece`; without memory the bytes stay as they were.
    pub fn push(&mut self, piece: &[u8]) -> Result<(), NoMemory>
        ensures ok { OnOk result (self.new ≡ self.old ++ piece.now) }
        ensures err { OnErr result (self.new ≡ self.old) }
    {
        match &mut self.bytes {
            Bytes::Own(bytes) => bytes.extend_from_slice(piece),
            Bytes::Shared(shared) => {
                let mut bytes = shared.take_or_copy()?;
                let pushed = bytes.extend_from_slice(piece);
                self.bytes = Bytes::Own(bytes);
                pushed
            }
        }
    }

    /// Appends one byte; without memory the bytes stay as they were.
    pub fn push_byte(&mut self, byte: u8) -> Result<(), NoMemory>
        ensures ok { OnOk result (self.new ≡ self.old ++ byte ∷ []) }
        ensures err { OnErr result (self.new ≡ self.old) }
    {
        match &mut self.bytes {
            Bytes::Own(bytes) => {
                bytes.push(byte)?;
                Ok(())
            }
            Bytes::Shared(_) => self.push(&[byte]),
        }
    }

    /// Makes room for `additional` further bytes, so that their pushes grow the buffer at most once.
    pub fn reserve(&mut self, additional: usize) -> Result<(), NoMemory>
        ensures { self.new ≡ self.old }
    {
        match &mut self.bytes {
            Bytes::Own(bytes) => bytes.reserve(additional),
            Bytes::Shared(shared) => {
                let mut bytes = shared.take_or_copy()?;
                let reserved = bytes.reserve(additional);
                self.bytes = Bytes::Own(bytes);
                reserved
            }
        }
    }

    /// Keeps the first `len` bytes, all where there are fewer; takes no memory.
    pub fn truncate(&mut self, len: usize)
        ensures { self.new ≡ take len self.old }
    {
        match &mut self.bytes {
            Bytes::Own(bytes) => bytes.truncate(len),
            Bytes::Shared(shared) => shared.truncate(len),
        }
    }

    /// Removes every byte and keeps the room, where it isn't shared; takes no memory.
    pub fn clear(&mut self)
        ensures { self.new ≡ [] }
    {
        match &mut self.bytes {
            Bytes::Own(bytes) => bytes.clear(),
            Bytes::Shared(shared) => shared.truncate(0),
        }
    }

    /// The number of bytes.
    pub fn len(&self) -> usize
        ensures { result ≡ length self.now }
    {
        self.bytes().len()
    }

    /// Whether there is no byte.
    pub fn is_empty(&self) -> bool
        ensures { IsTrue result ↔ (self.now ≡ []) }
    {
        self.bytes().is_empty()
    }

    /// The bytes.
    pub fn bytes(&self) -> &[u8]
        ensures { result.now ≡ self.now }
    {
        match &self.bytes {
            Bytes::Own(bytes) => bytes.as_slice(),
            Bytes::Shared(shared) => shared.bytes(),
        }
    }

    /// A second byte string with the same bytes.
    pub fn copy(&self) -> Result<Self, NoMemory>
        ensures { IfOk result (λ blob. blob ≡ self.now) }
    {
        match &self.bytes {
            Bytes::Own(bytes) => Ok(shared_of(bytes.clone()?)),
            Bytes::Shared(shared) => Ok(Blob::from_shared(shared.copy()?)),
        }
    }
}

/// A blob of these bytes, whose copies share them where they are 4 KiB or more and there is memory for it.
fn shared_of(bytes: Vec<u8>) -> Blob
    ensures { result ≡ bytes.items }
{
    if bytes.len() < SHARED_FROM {
        return Blob::from_vec(bytes);
    }
    match SharedBytes::new(bytes) {
        Ok(shared) => Blob::from_shared(shared),
        Err(bytes) => Blob::from_vec(bytes),
    }
}

/// Bytes as a text, if they are UTF-8; takes no memory.
fn text_of(bytes: Vec<u8>) -> Result<Text, NotText>
    ensures text { IfOk result (λ text. (text ≡ bytes.items) × IsUtf8 bytes.items) }
    ensures not_text { IfErr result (λ error. IsNotUtf8At bytes.items error.at × (error.blob ≡ bytes.items)) }
{
    match String::from_utf8(bytes) {
        Ok(string) => Ok(Text::from_string(string)),
        Err(error) => {
            let at = error.utf8_error().valid_up_to();
            Err(NotText {
                at,
                blob: Blob::from_vec(error.into_bytes()),
            })
        }
    }
}

/// Bytes that others hold too as a text, if they are UTF-8; takes no memory.
fn shared_text_of(bytes: SharedBytes) -> Result<Text, NotText>
    ensures text { IfOk result (λ text. (text ≡ bytes) × IsUtf8 bytes) }
    ensures not_text { IfErr result (λ error. IsNotUtf8At bytes error.at × (error.blob ≡ bytes)) }
{
    match str::from_utf8(bytes.bytes()) {
        Ok(_) => Ok(Text::from_shared(bytes)),
        Err(error) => {
            let at = error.valid_up_to();
            Err(NotText {
                at,
                blob: Blob::from_shared(bytes),
            })
        }
    }
}
