//! Bytes that several values hold.
ghost use Rattle.std.specs.Prelude.{◌≡◌, ◌≤◌, length, take, IfOk, IfErr, IfSome, IsNone, OnErr};
ghost use Rattle.std.specs.Arc.{arc_value};

use crate::NoMemory;
use std::alloc::Global;
use std::marker::Model;
use std::mem;
use std::sync::Arc;

/// Bytes that several values may hold, each up to a length of its own. Contracts see the bytes up to there.
#[derive(Debug, Drop)]
pub(crate) struct SharedBytes {
    all: Arc<Vec<u8>, Global>,
    len: usize,
    ghost within: { len ≤ length (arc_value all).items },
}

impl Model for SharedBytes {
    ghost use Rattle.std.specs.Prelude.{ℕ, List, take};
    ghost use Rattle.std.specs.Arc.{arc_value};

    ghost Value = { List ℕ };

    ghost view = { λ s. take s.len (arc_value s.all).items };
}

impl SharedBytes {
    /// The bytes of a `Vec`, which are given back where there is no memory for it.
    pub(crate) fn new(bytes: Vec<u8>) -> Result<SharedBytes, Vec<u8>>
        ensures ok { IfOk result (λ shared. shared ≡ bytes.items) }
        ensures err { IfErr result (λ given. given ≡ bytes) }
    {
        let len = bytes.len();
        let alloc = *bytes.allocator();
        match Arc::new(alloc, bytes) {
            Ok(all) => Ok(SharedBytes { all, len }),
            Err(failed) => Err(failed.value),
        }
    }

    /// The allocator of the bytes.
    pub(crate) fn alloc(&self) -> Global {
        *self.all.allocator()
    }

    /// The bytes.
    pub(crate) fn bytes(&self) -> &[u8]
        ensures { result.now ≡ self.now }
    {
        &self.all.as_slice()[..self.len]
    }

    /// One more holder of the same bytes.
    pub(crate) fn copy(&self) -> Result<SharedBytes, NoMemory>
        ensures { IfOk result (λ shared. shared ≡ self.now) }
    {
        Ok(SharedBytes {
            all: Arc::try_clone(&self.all)?,
            len: self.len,
        })
    }

    /// Holds the first `len` bytes, all where there are fewer.
    pub(crate) fn truncate(&mut self, len: usize)
        ensures { self.new ≡ take len self.old }
    {
        self.len = self.len.min(len);
    }

    /// The bytes, moved, where nobody else holds them.
    pub(crate) fn take(&mut self) -> Option<Vec<u8>>
        ensures taken { IfSome result (λ bytes. bytes.items ≡ self.old) }
        ensures others { IsNone result → self.new ≡ self.old }
    {
        let len = self.len;
        let empty = Vec::new(self.alloc());
        match Arc::get_mut(&mut self.all) {
            Some(all) => {
                self.len = 0;
                let mut bytes = mem::replace(all, empty);
                bytes.truncate(len);
                Some(bytes)
            }
            None => None,
        }
    }

    /// The bytes as a `Vec`: moved where nobody else holds them, and else copied. Without memory they stay.
    pub(crate) fn take_or_copy(&mut self) -> Result<Vec<u8>, NoMemory>
        ensures ok { IfOk result (λ bytes. bytes.items ≡ self.old) }
        ensures err { OnErr result (self.new ≡ self.old) }
    {
        match self.take() {
            Some(bytes) => Ok(bytes),
            None => self.bytes().to_vec(self.alloc()),
        }
    }
}
