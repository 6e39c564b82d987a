ghost use Rattle.std.specs.Prelude.{◌≡◌, None};

use crate::fault_count::FaultCount;
use side_world::{Failed, Sink};
use std::io::Write;

/// A sink over a writer of std, such as standard output. Each error of the writer is a fault, and so is a write that takes nothing.
#[derive(Drop)]
pub struct StdSink<W> {
    writer: W,
    faults: FaultCount,
}

impl<W: Write> StdSink<W> {
    /// A sink into `writer`.
    pub fn new(writer: W) -> Self
        ensures { ⟦<StdSink<W> as Sink>⟧.faults result ≡ 0 }
    {
        StdSink {
            writer,
            faults: FaultCount::none(),
        }
    }
}

impl<W: Write> Sink for StdSink<W> {
    ghost contents = { λ _. None };

    ghost faults = { λ s. s.faults };

    fn write(&mut self, piece: &[u8]) -> Result<usize, Failed> {
        match self.writer.write(piece) {
            Ok(n) if n > 0 => Ok(n),
            _ => Err(self.faults.fail()),
        }
    }
}
