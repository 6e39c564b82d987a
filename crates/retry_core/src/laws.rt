//! Laws about the waits of a policy, as functions whose contracts state them.

ghost use Rattle.std.specs.Prelude.{◌≡◌, ◌≤◌, ◌∷◌, ℕ, List, min};
ghost use Rattle.retry_core.specs.RetryPolicy.{wait_after};

use crate::RetryKind;

/// A constant wait is the constant. An exponential wait is at most `max_interval_ms`, and at least 1 unless that is 0.
pub fn waits_are_bounded()
    ensures constant { (duration : ℕ) (words : List ℕ) (word : ℕ) → wait_after (RetryKind.Constant duration) (word ∷ words) ≡ duration }
    ensures most { (most : ℕ) (words : List ℕ) (word : ℕ) → wait_after (RetryKind.Exponential most) (word ∷ words) ≤ most }
    ensures least { (most : ℕ) (words : List ℕ) (word : ℕ) → min 1 most ≤ wait_after (RetryKind.Exponential most) (word ∷ words) }
{}
