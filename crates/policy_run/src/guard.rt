use breaker_core::{BreakerCmd, BreakerReply};
use std::sync::Wait;

/// What came of a step of a breaker.
#[derive(Clone, Copy, Debug, PartialEq, Eq)]
pub enum Stepped {
    /// There is no breaker.
    NoBreaker,
    /// The breaker's reply.
    Answered(BreakerReply),
    /// The breaker's cell has no ticket left; `count` was read in it, and its seat shows it.
    Exhausted { count: u64 },
}

/// What stands before each attempt: a circuit breaker, or none.
pub trait Guard {
    ghost use Rattle.std.specs.Prelude.{◌≡◌, ℕ, Bool, false, List, [], ◌∷◌, ◌++◌};
    ghost use Rattle.breaker_core.specs.declared.command.BreakerReply.{BreakerReply};
    ghost use Rattle.breaker_core.specs.Course.{Step};
    ghost use Rattle.policy_run.specs.Turn.{Answers};

    // Whether there is a breaker.
    ghost there: { Self → Bool };

    // The breaker may be asked.
    ghost ready: { Self → Type 0 };

    // How the guard goes on through steps of the breaker.
    ghost held: { Self → List Step → Self → Type 0 };

    // The guard's seat shows this count of an exhausted cell.
    ghost shows: { Self → ℕ → Type 0 };

    /// Whether there is a breaker.
    fn is_there(&self) -> bool
        ensures { result ≡ there self.now };

    /// One step of the breaker, if there is one.
    fn step<W: Wait>(&mut self, rt: &W, cmd: &BreakerCmd) -> Stepped
        requires { ready self.old }
        ensures there { there self.new ≡ there self.old }
        ensures none { result ≡ Stepped.NoBreaker → there self.old ≡ false }
        ensures answered { (reply : BreakerReply) → result ≡ Stepped.Answered reply → (step : Step) × Answers step cmd.now reply × held self.old (step ∷ []) self.new }
        ensures exhausted { (count : ℕ) → result ≡ Stepped.Exhausted count → held self.old [] self.new × shows self.new count };

    ghost none: { (a : Self) → ready a → held a [] a };

    ghost more: { (a b c : Self) (xs ys : List Step) → held a xs b → held b ys c → held a (xs ++ ys) c };

    ghost stays: { (a b : Self) (xs : List Step) → ready a → held a xs b → ready b };
}

/// No breaker: every attempt is let through.
#[derive(Clone, Copy, Debug, Drop)]
pub struct NoBreaker;

impl Guard for NoBreaker {
    ghost use Rattle.std.specs.Prelude.{◌≡◌, false, List, [], refl};
    ghost use Rattle.policy_run.specs.Guard.{nothing_more};

    ghost there = { λ _. false };

    ghost ready = { λ _. Unit {0} };

    ghost held = { λ _ steps _. steps ≡ [] };

    ghost shows = { λ _ _. ⊥ };

    fn is_there(&self) -> bool {
        false
    }

    fn step<W: Wait>(&mut self, _rt: &W, _cmd: &BreakerCmd) -> Stepped {
        Stepped::NoBreaker
    }

    ghost none = { λ _ _. refl };

    ghost more = { nothing_more };

    ghost stays = { λ _ _ _ _ _. tt };
}
