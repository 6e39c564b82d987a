ghost use Rattle.std.specs.Prelude.{◌≡◌};
ghost use Rattle.sidecar_words.specs.declared.given.WordsErr.TheVariants as errors;

use app_peers::PeerList;
use side_base::Text;
use std::alloc::AllocError;

/// What the program is to do.
#[derive(Clone, Copy, Debug, PartialEq, Eq)]
pub enum Mode {
    /// Answer one connection on standard input and output.
    Stdio,
    /// Read the resources and say how many there are.
    Check,
    /// Answer as many generated requests, which begin from a number, and say how many responses had which status.
    Drill {
        /// The number from which the requests are generated.
        start: u64,
        /// How many there are, at most 99,999.
        requests: u32,
    },
    /// Serve on a port.
    Serve,
}

/// What the words of the command line mean.
#[derive(Debug, Drop)]
pub struct Words {
    /// The name of the app: 1 to 64 ASCII letters, digits, `-` or `_`.
    pub app: Text,
    /// The folder of the resource files, not empty.
    pub resources: Option<Text>,
    /// The port to serve on, 1 to 65535.
    pub port: u16,
    /// The port where the app takes calls, 1 to 65535; without one it takes none.
    pub app_port: Option<u16>,
    /// How many workers serve, 1 to 64.
    pub workers: u32,
    /// The other apps that may be called by their ids, at most 256, none of them of the name of this app.
    pub peers: PeerList,
    /// What to do.
    pub mode: Mode,
}

/// Why the words were not read.
#[derive(Clone, Copy, Debug, PartialEq, Eq)]
pub enum WordsErr {
    /// They mean nothing.
    Usage,
    /// There is no memory.
    NoMemory,
}

impl From<AllocError> for WordsErr {
    ghost from_gives = { λ _ error. error ≡ errors.NoMemory };

    fn from(_error: AllocError) -> WordsErr {
        WordsErr::NoMemory
    }
}
