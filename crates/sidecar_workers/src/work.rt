use std::sync::Wait;

/// What an `accept` answers.
#[derive(Clone, Copy, Debug, PartialEq, Eq)]
pub enum Got {
    /// A connection came, and is owed a `serve`.
    Conn,
    /// None came in time; a `turn` is owed.
    Idle,
    /// None will come.
    Closed,
    /// The acceptor failed.
    Failed,
}

/// What a `serve` answers.
#[derive(Clone, Copy, Debug, PartialEq, Eq)]
pub enum Served {
    /// The connection has ended.
    Next,
    /// The connection has ended, and a shutdown was asked for.
    Asked,
    /// The connection has ended, since a cell has no ticket left; `count` was read in it.
    Spent { count: u64 },
    /// The connection has ended for want of memory.
    NoMemory,
}

/// What a `turn` answers.
#[derive(Clone, Copy, Debug, PartialEq, Eq)]
pub enum Turned {
    /// It was made.
    Went,
    /// It ended for want of memory.
    NoMemory,
    /// A cell has no ticket left; `count` was read in it.
    Spent { count: u64 },
}

/// The call that a work owes. It stands in proofs alone.
#[derive(Clone, Copy, Debug, PartialEq, Eq)]
pub enum Owed {
    Nothing,
    Serve,
    Turn,
}

/// A call of a work with its answer. It stands in proofs alone.
#[derive(Clone, Copy, Debug, PartialEq, Eq)]
pub enum Call {
    Accept(Got),
    Serve(Served),
    Turn(Turned),
}

/// What one worker does: it accepts a connection and serves it, or takes a turn where none came.
pub trait Work {
    ghost use Rattle.std.specs.Prelude.{◌≡◌, Bool, false, List, Option, IfSome, is_some};
    ghost use Rattle.sidecar_workers.specs.declared.exit.Exit.{Exit};
    ghost use Rattle.sidecar_workers.specs.declared.work.Call.{Call};
    ghost use Rattle.sidecar_workers.specs.declared.work.Call.TheVariants as call;
    ghost use Rattle.sidecar_workers.specs.declared.work.Owed.{Owed};
    ghost use Rattle.sidecar_workers.specs.declared.work.Owed.TheVariants as owed;
    ghost use Rattle.sidecar_workers.specs.Works.{Tells, owed_after, exit_of_got, exit_of_served, exit_of_turned};

    // The call that must come next.
    ghost owes: { Self → Owed };

    // Whether a `serve` or a `turn` has ended the work.
    ghost is_over: { Self → Bool };

    // The fact that its calls keep, from one state of the work to a later one.
    ghost keeps: { Self → Self → Type 0 };

    // What holds where an answer of the work has ended its worker so.
    ghost exits: { Exit → Self → Type 0 };

    // Its calls in order with their answers, where the work tells them.
    ghost calls: { Self → Option (List Call) };

    /// Waits for a connection, for a while.
    fn accept<R: Wait>(&mut self, rt: &R) -> Got
        requires free { owes self.old ≡ owed.Nothing }
        requires on { is_over self.old ≡ false }
        ensures owes { owes self.new ≡ owed_after result }
        ensures on { is_over self.new ≡ false }
        ensures kept { keeps self.old self.new }
        ensures exit { IfSome (exit_of_got result) (λ e. exits e self.new) }
        ensures calls { Tells (calls self.old) (call.Accept result) (calls self.new) };

    /// Serves the connection to its end.
    fn serve<R: Wait>(&mut self, rt: &R) -> Served
        requires { owes self.old ≡ owed.Serve }
        ensures owes { owes self.new ≡ owed.Nothing }
        ensures on { is_over self.new ≡ is_some (exit_of_served result) }
        ensures kept { keeps self.old self.new }
        ensures exit { IfSome (exit_of_served result) (λ e. exits e self.new) }
        ensures calls { Tells (calls self.old) (call.Serve result) (calls self.new) };

    /// Takes one turn at what else is to be done.
    fn turn<R: Wait>(&mut self, rt: &R) -> Turned
        requires { owes self.old ≡ owed.Turn }
        ensures owes { owes self.new ≡ owed.Nothing }
        ensures on { is_over self.new ≡ is_some (exit_of_turned result) }
        ensures kept { keeps self.old self.new }
        ensures exit { IfSome (exit_of_turned result) (λ e. exits e self.new) }
        ensures calls { Tells (calls self.old) (call.Turn result) (calls self.new) };

    // The fact holds where nothing was called.
    ghost stays: { (x : Self) → keeps x x };

    // The fact of calls, and that of those behind them, give the fact of all.
    ghost chains: { (x y z : Self) → keeps x y → keeps y z → keeps x z };
}
