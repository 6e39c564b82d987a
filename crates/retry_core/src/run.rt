ghost use Rattle.std.specs.Prelude.{◌≡◌, ◌≤◌, ◌∷◌, [], ◌↔◌, ℕ, List};
ghost use Rattle.retry_core.specs.RetryPolicy.{IsWithinLimit, GivesUp, gives_up, next_wait, decided};
ghost use Rattle.retry_core.specs.RetryRun.{Run, run_after, decided_by, run_by};

use crate::{RetryKind, RetryPolicy};
use std::marker::Model;

/// The wait that is taken to come before the first one, in milliseconds.
pub const FIRST_WAIT_MS: u64 = 500;

/// The number of attempts after which every policy gives up.
pub const MOST_ATTEMPTS: u32 = 4_096;

/// What to do after a failing attempt.
#[derive(Clone, Copy, Debug, PartialEq, Eq)]
pub enum Next {
    /// Make no further attempt; `attempts` were made.
    GiveUp { attempts: u32 },
    /// Make the next attempt after this many milliseconds.
    Wait(u64),
}

/// The attempts of one call under a policy.
#[derive(Clone, Copy, Debug)]
pub struct RetryRun {
    policy: RetryPolicy,
    attempts: u32,
    wait: u64,
}

impl Model for RetryRun {
    ghost Value = { Run };

    ghost view = { λ r. record { policy = r.policy; attempts = r.attempts; wait = r.wait } };

    ghost invariant = { λ r. IsWithinLimit r.policy × (r.attempts ≤ 4096) × (r.wait ≤ 31536000000) };

    ghost inverse = { λ r. record { policy = r.policy; attempts = r.attempts; wait = r.wait } };
}

impl RetryRun {
    /// The first attempt under `policy`. Takes no memory.
    pub fn start(policy: &RetryPolicy) -> RetryRun
        requires { IsWithinLimit policy.now }
        ensures { result ≡ run_after policy.now [] }
    {
        RetryRun {
            policy: *policy,
            attempts: 1,
            wait: FIRST_WAIT_MS,
        }
    }

    /// How many attempts were begun.
    pub fn attempts(&self) -> u32
        ensures { result ≡ self.now.attempts }
    {
        self.attempts
    }

    /// What comes after a failing attempt, by a random word: a wait, after which the next attempt counts as begun, or the
    /// end, which changes nothing. Takes no memory.
    pub fn next(&mut self, word: u64) -> Next
        ensures decided { result ≡ decided_by self.old word }
        ensures run { self.new ≡ run_by self.old word }
        ensures gives_up { (result ≡ Next.GiveUp self.old.attempts) ↔ GivesUp self.old.policy self.old.attempts }
        ensures words { (words : List ℕ) → self.old ≡ run_after self.old.policy words → result ≡ decided self.old.policy (word ∷ words) }
        ensures again { (words : List ℕ) (ms : ℕ) → self.old ≡ run_after self.old.policy words → result ≡ Next.Wait ms → self.new ≡ run_after self.old.policy (word ∷ words) }
        ensures most { (ms : ℕ) → result ≡ Next.Wait ms → ms ≤ 31536000000 }
    {
        if gives_up(&self.policy, self.attempts) {
            return Next::GiveUp {
                attempts: self.attempts,
            };
        }
        self.wait = wait_by(self.policy.kind, self.wait, word);
        self.attempts += 1;
        Next::Wait(self.wait)
    }
}

/// Whether no attempt follows that many failing ones.
fn gives_up(policy: &RetryPolicy, attempts: u32) -> bool
    ensures { result ≡ gives_up policy.now attempts }
{
    policy.max_retries.is_some_and(|most| attempts > most) || attempts == MOST_ATTEMPTS
}

/// The wait in milliseconds after one of `previous`.
fn wait_by(kind: RetryKind, previous: u64, word: u64) -> u64
    requires { previous ≤ 31536000000 }
    ensures { result ≡ next_wait kind previous word }
{
    match kind {
        RetryKind::Constant { duration_ms } => duration_ms,
        RetryKind::Exponential { max_interval_ms } => {
            let low = u128::from(word % (1 << 32));
            let scaled = u128::from(previous) * ((1 << 31) + low) * 3 / (1 << 33);
            max_interval_ms.min((scaled as u64).max(1))
        }
    }
}
