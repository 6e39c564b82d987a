//! How long a peer lets a worker wait.

/// How many bytes are worth a millisecond where others want the worker.
const BYTES_WHILE_PRESSED: u64 = 1_024;

/// How much of a worker's time a peer owes in one stretch: for how long it was waited for, less what the bytes are worth that came
/// then, or were taken. Bytes that came while nothing was owed earn nothing for later.
#[derive(Clone, Copy)]
pub(crate) struct Pace {
    /// In milliseconds, of which each byte is worth one.
    owed: u64,
    /// The same where others want the worker, in 1,024ths of a millisecond, of which each byte is worth one.
    owed_while_pressed: u64,
    /// For how many milliseconds it was waited for in all.
    waited: u64,
}

impl Pace {
    ghost use Rattle.std.specs.Prelude.{◌≡◌, ◌/◌};
    ghost use Rattle.net_edge.specs.Patience.{after_bytes, after_wait};

    /// Nothing is owed.
    pub(crate) fn new() -> Self
        ensures owed { result.owed ≡ 0 }
        ensures owed_while_pressed { result.owed_while_pressed ≡ 0 }
        ensures waited { result.waited ≡ 0 }
    {
        Pace {
            owed: 0,
            owed_while_pressed: 0,
            waited: 0,
        }
    }

    /// So many bytes came, or were taken.
    pub(crate) fn note(&mut self, n: usize)
        ensures { self.new ≡ after_bytes n self.old }
    {
        self.owed = self.owed.saturating_sub(n as u64);
        self.owed_while_pressed = self.owed_while_pressed.saturating_sub(n as u64);
    }

    /// It was waited for so many milliseconds.
    pub(crate) fn wait(&mut self, ms: u64)
        ensures { self.new ≡ after_wait ms self.old }
    {
        let parts = ms.saturating_mul(BYTES_WHILE_PRESSED);
        self.owed = self.owed.saturating_add(ms);
        self.owed_while_pressed = self.owed_while_pressed.saturating_add(parts);
        self.waited = self.waited.saturating_add(ms);
    }

    /// How many milliseconds are owed.
    pub(crate) fn owed(&self) -> u64
        ensures { result ≡ self.now.owed }
    {
        self.owed
    }

    /// The same where others want the worker.
    pub(crate) fn owed_while_pressed(&self) -> u64
        ensures { result ≡ self.now.owed_while_pressed / 1024 }
    {
        self.owed_while_pressed / BYTES_WHILE_PRESSED
    }

    /// For how many milliseconds it was waited for, whatever its bytes are worth.
    pub(crate) fn waited(&self) -> u64
        ensures { result ≡ self.now.waited }
    {
        self.waited
    }
}
