ghost use Rattle.std.specs.Prelude.{◌≡◌, [], false, Some};

use crate::{Failed, Source};
use side_base::Blob;
use std::marker::Model;

/// A source whose bytes are in memory, and which never fails. It tells them.
///
/// Contracts see the bytes that were taken, those that all reads but the last took, those that are left, and whether it has ended.
#[derive(Debug, Drop)]
pub struct BytesSource {
    bytes: Blob,
    /// How many bytes were read.
    at: usize,
    /// How many had been before the last read.
    before: usize,
    ended: bool,
}

impl Model for BytesSource {
    ghost use Rattle.std.specs.Prelude.{◌≤◌, length, take, drop};
    ghost use Rattle.side_world.specs.BytesSource.{BytesState};

    ghost Value = { BytesState };

    ghost view = { λ s. record { taken = take s.at s.bytes; earlier = take s.before s.bytes; left = drop s.at s.bytes; ended = s.ended } };

    ghost invariant = { λ s. s.at ≤ length s.bytes };
}

impl BytesSource {
    /// A source of `bytes`, of which none was taken; takes no memory.
    pub fn new(bytes: Blob) -> Self
        ensures { result ≡ record { taken = []; earlier = []; left = bytes; ended = false } }
    {
        BytesSource {
            bytes,
            at: 0,
            before: 0,
            ended: false,
        }
    }
}

impl Source for BytesSource {
    ghost left = { λ s. Some s.left };

    ghost taken = { λ s. Some s.taken };

    ghost earlier = { λ s. Some s.earlier };

    ghost ended = { λ s. s.ended };

    ghost faults = { λ _. 0 };

    fn read(&mut self, into: &mut [u8]) -> Result<usize, Failed> {
        let rest = &self.bytes.bytes()[self.at..];
        let n = into.len().min(rest.len());
        if n == 0 {
            self.ended = true;
        }
        into[..n].copy_from_slice(&rest[..n]);
        self.before = self.at;
        self.at += n;
        Ok(n)
    }
}
