ghost use Rattle.std.specs.Prelude.{◌≡◌, []};

use side_base::Blob;
use side_world::{Failed, Sink};
use std::alloc::Global;
use std::marker::Model;

/// A sink that keeps its bytes and tells them. A write fails only where it finds no memory.
#[derive(Debug, Drop)]
pub struct KeptSink {
    contents: Blob,
    faults: u64,
}

impl Model for KeptSink {
    ghost use Rattle.drill.specs.Devices.{Written};

    ghost Value = { Written };

    ghost view = { λ s. record { contents = s.contents; faults = s.faults } };
}

impl KeptSink {
    /// An empty one.
    pub fn new(alloc: Global) -> Self
        ensures { result ≡ record { contents = []; faults = 0 } }
    {
        KeptSink {
            contents: Blob::new(alloc),
            faults: 0,
        }
    }

    /// All bytes that were written.
    pub fn bytes(&self) -> &[u8]
        ensures { result.now ≡ self.now.contents }
    {
        self.contents.bytes()
    }
}

impl Sink for KeptSink {
    ghost use Rattle.std.specs.Prelude.{Some};

    ghost contents = { λ s. Some s.contents };

    ghost faults = { λ s. s.faults };

    fn write(&mut self, piece: &[u8]) -> Result<usize, Failed> {
        match self.contents.push(piece) {
            Ok(()) => Ok(piece.len()),
            Err(_) => {
                self.faults = self.faults.saturating_add(1);
                Err(Failed)
            }
        }
    }
}
