ghost use Rattle.std.specs.Prelude.{◌≡◌, ◌≤◌, ℕ, List, [], ◌∷◌, Option};
ghost use Rattle.side_world.specs.Told.{Tells};

use crate::{Sink, Source};
use side_base::Moment;

/// What an acceptor answers.
#[derive(Debug, Drop)]
pub enum Accepted<S, N> {
    /// A connection came: what its peer sends, and what is sent to it.
    Conn { source: S, sink: N },
    /// None came in the time of a short wait.
    Idle,
    /// No connection will come.
    Closed,
    /// The acceptor failed: its count of faults rose.
    Failed,
}

/// Where connections come from.
///
/// A connection goes back to its acceptor, which alone may let it go.
pub trait Acceptor {
    type From: Source + Send;

    type Into: Sink + Send;

    ghost use Rattle.side_world.specs.Answer.{Answer, answer_of, IfConn, CountsFault, IsNew, ComesBack, Returns};

    // The answers in order, each connection with what came back of it, where the acceptor tells them.
    ghost told: { Self → Option (List Answer) };

    // How often it has failed. The count stops at 2^64 - 1.
    ghost faults: { Self → ℕ };

    /// Waits a short while for a connection. Its counts of faults are 0, and its source hasn't ended.
    ///
    /// `Failed` comes only where the count of faults rose.
    fn accept(&mut self) -> Accepted<Self::From, Self::Into>
        ensures new { IfConn result (IsNew Self.From.Source Self.Into.Sink) }
        ensures told { Tells (told self.old) (told self.new) (answer_of result ∷ []) }
        ensures faults { CountsFault result (faults self.old) (faults self.new) }
        ensures no_fewer { faults self.old ≤ faults self.new };

    /// Takes a connection back after its session; takes no memory.
    fn end(&mut self, source: Self::From, sink: Self::Into)
        ensures told { Returns (told self.old) (told self.new) (ComesBack Self.From.Source Self.Into.Sink source sink) }
        ensures faults { faults self.new ≡ faults self.old };

    /// Says that there is other work to do, so that the `accept` of some worker should answer `Idle` soon. A hint: nothing
    /// that is told changes, and most acceptors do nothing.
    fn wake(&mut self)
        ensures told { told self.new ≡ told self.old }
        ensures faults { faults self.new ≡ faults self.old }
    {}

    /// Says when the work that its worker found idle falls due next, so that the `accept` of some worker should answer `Idle` at that moment at the latest.
    /// The least moment that any worker has told counts. A hint as `wake` is one.
    fn due(&mut self, moment: Moment)
        ensures told { told self.new ≡ told self.old }
        ensures faults { faults self.new ≡ faults self.old }
    {
        let _ = moment;
    }

    /// Says that its worker ends for a reason of its own, and that all others are to end too: their `accept` should answer soon, and what they wait for
    /// within a request should be waited for no longer than where others want them. A hint as `wake` is one.
    fn leave(&mut self)
        ensures told { told self.new ≡ told self.old }
        ensures faults { faults self.new ≡ faults self.old }
    {}
}
