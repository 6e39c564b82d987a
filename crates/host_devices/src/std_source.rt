ghost use Rattle.std.specs.Prelude.{◌≡◌, None, false};

use crate::fault_count::FaultCount;
use side_world::{Failed, Source};
use std::io::Read;

/// A source over a reader of std, such as standard input. Each error of the reader is a fault.
#[derive(Drop)]
pub struct StdSource<R> {
    reader: R,
    ended: bool,
    faults: FaultCount,
}

impl<R: Read> StdSource<R> {
    /// A source of what `reader` gives.
    pub fn new(reader: R) -> Self
        ensures no_faults { ⟦<StdSource<R> as Source>⟧.faults result ≡ 0 }
        ensures not_ended { ⟦<StdSource<R> as Source>⟧.ended result ≡ false }
    {
        StdSource {
            reader,
            ended: false,
            faults: FaultCount::none(),
        }
    }
}

impl<R: Read> Source for StdSource<R> {
    ghost left = { λ _. None };

    ghost taken = { λ _. None };

    ghost earlier = { λ _. None };

    ghost ended = { λ s. s.ended };

    ghost faults = { λ s. s.faults };

    fn read(&mut self, into: &mut [u8]) -> Result<usize, Failed> {
        let n = self.faults.counted(self.reader.read(into))?;
        self.ended = self.ended || n == 0;
        Ok(n)
    }
}
