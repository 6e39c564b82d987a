//! The bytes of a reply, as they come.
ghost use Rattle.std.specs.Prelude.{◌≡◌, ◌+◌, ◌<◌, ◌≤◌, ◌++◌, [], ℕ, List, false, take, drop, length, IfOk, IfErr, OnOk, IsTrue};
ghost use Rattle.side_world.specs.Faults.{Rose};
ghost use Rattle.side_world.specs.Told.{Took, IsDrained};
ghost use Rattle.http_client.specs.declared.incoming.ReplyErr.TheVariants.{SourceFailed};
ghost use Rattle.http_client.specs.Replies.{ahead};

use side_base::{Blob, NoMemory};
use side_world::{Failed, Source};
use std::alloc::{AllocError, Global};
use std::marker::Model;

/// The most bytes that are read at once: where none are there yet, most replies have no more than the first, and a larger buffer costs
/// more to clear than such a reply does to read.
const FIRST_PIECE: usize = 2_048;

const PIECE: usize = 16_384;

/// The most bytes of a head.
pub(crate) const HEAD_LIMIT: usize = 16_384;

/// Why a reply was not read.
#[derive(Clone, Copy, Debug, PartialEq, Eq)]
pub enum ReplyErr {
    /// The bytes are no reply that may be answered, or the input has ended within it.
    Bad,
    /// A read failed.
    SourceFailed,
    /// There is no room.
    NoMemory,
}

impl From<AllocError> for ReplyErr {
    fn from(_error: AllocError) -> Self {
        ReplyErr::NoMemory
    }
}

/// Bytes that came and were not taken yet. Contracts see them as a list.
#[derive(Debug, Drop)]
pub(crate) struct Pending {
    bytes: Vec<u8>,
    at: usize,
}

impl Model for Pending {
    ghost use Rattle.std.specs.Prelude.{◌≤◌, ℕ, List, length, drop};

    ghost Value = { List ℕ };

    ghost view = { λ p. drop p.at p.bytes.items };

    ghost invariant = { λ p. p.at ≤ length p.bytes.items };
}

impl Pending {
    /// None came yet; takes no memory.
    pub(crate) fn new(alloc: Global) -> Self
        ensures { result ≡ [] }
    {
        Pending {
            bytes: Vec::new(alloc),
            at: 0,
        }
    }

    /// The bytes.
    pub(crate) fn bytes(&self) -> &[u8]
        ensures { result.now ≡ self.now }
    {
        &self.bytes[self.at..]
    }

    /// Takes the first bytes off.
    pub(crate) fn skip(&mut self, count: usize)
        requires { count ≤ length self.old }
        ensures { self.new ≡ drop count self.old }
    {
        self.at += count;
    }

    /// Adds bytes at the end.
    pub(crate) fn push(&mut self, piece: &[u8]) -> Result<(), NoMemory>
        ensures { OnOk result (self.new ≡ self.old ++ piece.now) }
    {
        remove_front(&mut self.bytes, self.at);
        self.at = 0;
        self.bytes.extend_from_slice(piece)
    }
}

/// Removes the first bytes.
fn remove_front(bytes: &mut Vec<u8>, count: usize)
    requires { count ≤ length bytes.old.items }
    ensures { bytes.new.items ≡ drop count bytes.old.items }
{
    if count > 0 {
        let len = bytes.len();
        bytes.copy_within(count..len, 0);
        bytes.truncate(len - count);
    }
}

/// A stream of bytes, of which some came and were not taken yet.
#[derive(Drop)]
pub(crate) struct Incoming<S> {
    pub(crate) source: S,
    pub(crate) pending: Pending,
}

impl<S: Source> Incoming<S> {
    /// Reads once, and answers whether bytes came; `false` is the end of the input.
    pub(crate) fn fill(&mut self) -> Result<bool, ReplyErr>
        ensures same { OnOk result (ahead self.new.pending (S.left self.new.source) ≡ ahead self.old.pending (S.left self.old.source)) }
        ensures more { IfOk result (λ came. IsTrue came → length self.old.pending < length self.new.pending) }
        ensures grown { IfOk result (λ came. IsTrue came → (piece : List ℕ) × (self.new.pending ≡ self.old.pending ++ piece)) }
        ensures kept { IfOk result (λ came. came ≡ false → self.new.pending ≡ self.old.pending) }
        ensures ended { IfOk result (λ came. came ≡ false → IsDrained (S.left self.new.source)) }
        ensures no_fault { OnOk result (S.faults self.new.source ≡ S.faults self.old.source) }
        ensures failed { IfErr result (λ why. why ≡ SourceFailed → Rose (S.faults self.old.source) (S.faults self.new.source)) }
    {
        if self.pending.bytes().is_empty() {
            let mut piece = [0; FIRST_PIECE];
            self.fill_by(&mut piece)
        } else {
            let mut piece = [0; PIECE];
            self.fill_by(&mut piece)
        }
    }

    /// The same, as many bytes as this buffer has at most.
    fn fill_by(&mut self, piece: &mut [u8]) -> Result<bool, ReplyErr>
        requires { 0 < length piece.old }
        ensures same { OnOk result (ahead self.new.pending (S.left self.new.source) ≡ ahead self.old.pending (S.left self.old.source)) }
        ensures more { IfOk result (λ came. IsTrue came → length self.old.pending < length self.new.pending) }
        ensures grown { IfOk result (λ came. IsTrue came → (piece : List ℕ) × (self.new.pending ≡ self.old.pending ++ piece)) }
        ensures kept { IfOk result (λ came. came ≡ false → self.new.pending ≡ self.old.pending) }
        ensures ended { IfOk result (λ came. came ≡ false → IsDrained (S.left self.new.source)) }
        ensures no_fault { OnOk result (S.faults self.new.source ≡ S.faults self.old.source) }
        ensures failed { IfErr result (λ why. why ≡ SourceFailed → Rose (S.faults self.old.source) (S.faults self.new.source)) }
    {
        match self.source.read(piece) {
            Ok(0) => Ok(false),
            Ok(n) => match self.pending.push(&piece[..n]) {
                Ok(()) => Ok(true),
                Err(_) => Err(ReplyErr::NoMemory),
            },
            Err(Failed) => Err(ReplyErr::SourceFailed),
        }
    }

    /// Reads once more of a part that is not whole yet, and has at most `HEAD_LIMIT` bytes.
    pub(crate) fn fill_more(&mut self) -> Result<(), ReplyErr>
        ensures same { OnOk result (ahead self.new.pending (S.left self.new.source) ≡ ahead self.old.pending (S.left self.old.source)) }
        ensures below { OnOk result (length self.old.pending < 16384) }
        ensures more { OnOk result (length self.old.pending < length self.new.pending) }
        ensures no_fault { OnOk result (S.faults self.new.source ≡ S.faults self.old.source) }
        ensures failed { IfErr result (λ why. why ≡ SourceFailed → Rose (S.faults self.old.source) (S.faults self.new.source)) }
    {
        if self.pending.bytes().len() >= HEAD_LIMIT {
            return Err(ReplyErr::Bad);
        }
        self.fill_on()
    }

    /// Reads once more, where the end of the input is no end of a reply.
    pub(crate) fn fill_on(&mut self) -> Result<(), ReplyErr>
        ensures same { OnOk result (ahead self.new.pending (S.left self.new.source) ≡ ahead self.old.pending (S.left self.old.source)) }
        ensures more { OnOk result (length self.old.pending < length self.new.pending) }
        ensures grown { OnOk result ((piece : List ℕ) × (self.new.pending ≡ self.old.pending ++ piece)) }
        ensures no_fault { OnOk result (S.faults self.new.source ≡ S.faults self.old.source) }
        ensures failed { IfErr result (λ why. why ≡ SourceFailed → Rose (S.faults self.old.source) (S.faults self.new.source)) }
    {
        if self.fill()? {
            Ok(())
        } else {
            Err(ReplyErr::Bad)
        }
    }

    /// Reads until so many bytes are there, and answers whether they are; `false` is the end of the input.
    pub(crate) fn fill_to(&mut self, wanted: usize) -> Result<bool, ReplyErr>
        ensures same { OnOk result (ahead self.new.pending (S.left self.new.source) ≡ ahead self.old.pending (S.left self.old.source)) }
        ensures there { IfOk result (λ is. IsTrue is → wanted ≤ length self.new.pending) }
        ensures short { IfOk result (λ is. is ≡ false → length self.new.pending < wanted) }
        ensures ended { IfOk result (λ is. is ≡ false → IsDrained (S.left self.new.source)) }
        ensures no_fault { OnOk result (S.faults self.new.source ≡ S.faults self.old.source) }
        ensures failed { IfErr result (λ why. why ≡ SourceFailed → Rose (S.faults self.old.source) (S.faults self.new.source)) }
    {
        while self.pending.bytes().len() < wanted {
            let came = self.fill()?;
            if !came {
                return Ok(false);
            }
        }
        Ok(true)
    }

    /// Takes so many bytes off, which are there.
    pub(crate) fn skip(&mut self, count: usize)
        requires { count ≤ length self.old.pending }
        ensures took { Took (ahead self.old.pending (S.left self.old.source)) (ahead self.new.pending (S.left self.new.source)) (take count self.old.pending) }
        ensures left { self.new.source ≡ self.old.source }
    {
        self.pending.skip(count);
    }
}
