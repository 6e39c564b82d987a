use side_world::Clock;
use std::sync::Wait;

/// How one attempt ended.
#[derive(Debug, Drop)]
pub enum Attempt<G, B> {
    /// It did not fail: it is reported as good, and ends the call.
    Good(G),
    /// It failed: it is reported so, and may be made again.
    Bad(B),
    /// It ended for want of memory: it is reported as good, and ends the call.
    NoMemory,
}

/// What is attempted: one step of an object, or one call of another program.
///
/// An attempt is told apart from what it leaves: `makes` says what an attempt with a limit and an answer does, as a list of
/// events, and `did` how the operation's own state goes on through what it did. `makes` does not change through attempts.
pub trait Operation {
    ghost use Rattle.std.specs.Prelude.{◌≡◌, ℕ, List, [], ◌++◌};
    ghost use Rattle.policy_run.specs.declared.operation.Attempt.{Attempt};
    ghost use Rattle.policy_run.specs.Event.{Event};
    ghost use Rattle.policy_run.specs.Effects.{Effects, clocked};

    /// What a good attempt answers.
    type Good: Drop;

    /// What a failing attempt answers.
    type Bad: Drop;

    /// What attempts do of their own. No program makes a value of it.
    type Own;

    // An attempt may be made.
    ghost ready: { Self → Type 0 };

    // What an attempt with this limit and this answer does.
    ghost makes: { Self → ℕ → Attempt Self.Good Self.Bad → List (Event Self.Own) → Type 0 };

    // How the state goes on through what attempts did of their own.
    ghost did: { Self → List Self.Own → Self → Type 0 };

    // What a good attempt that answered so leaves to be seen, as the count that a seat shows.
    ghost shown: { Self → Self.Good → Type 0 };

    /// Makes one attempt, which may take `limit` milliseconds; 0 is no limit. It reads the clock, and does not pause it.
    fn attempt<W: Wait, C: Clock>(
        &mut self,
        rt: &W,
        limit: u64,
        clock: &mut C,
    ) -> Attempt<Self::Good, Self::Bad>
        requires ready { ready self.old }
        ensures made { (events : List (Event Self.Own)) × makes self.old limit result events × Effects events (λ xs. did self.old xs self.new) (λ xs. xs ≡ []) (clocked C.Clock clock.old) (clocked C.Clock clock.new) (λ xs. xs ≡ []) }
        ensures paused { C.paused clock.new ≡ C.paused clock.old }
        ensures shown { (good : Self.Good) → result ≡ Attempt.Good good → shown self.new good };

    ghost none: { (a : Self) → ready a → did a [] a };

    ghost more: { (a b c : Self) (xs ys : List Self.Own) → did a xs b → did b ys c → did a (xs ++ ys) c };

    ghost stays: { (a b : Self) (xs : List Self.Own) → ready a → did a xs b → ready b };

    ghost alike: { (a b : Self) (xs : List Self.Own) → did a xs b → (limit : ℕ) (answer : Attempt Self.Good Self.Bad) (events : List (Event Self.Own)) → makes b limit answer events → makes a limit answer events };
}
