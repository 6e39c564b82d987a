//! What holds of every history of a breaker, as functions whose contract is the law.
ghost use Rattle.std.specs.Prelude.{List};
ghost use Rattle.turn_cell.specs.History.{IsLegal};
ghost use Rattle.breaker_core.specs.declared.breaker.Breaker.{Breaker};
ghost use Rattle.breaker_core.specs.Breaker.{policy_of};
ghost use Rattle.breaker_core.specs.Course.{Step};
ghost use Rattle.breaker_core.specs.Laws.{AreFitting, Rests, IsCarefulAlways, IsDivided};

use crate::Breaker;
use turn_cell::Object;

/// From an opening at a moment on, no call is let through at or before that moment and the timeout.
pub fn an_open_breaker_rests()
    ensures { (first : Breaker) (history : List Step) → IsLegal ⟦<Breaker as Object>⟧ first history → Rests (policy_of first) history }
{}

/// A half-open generation lets at most `max_requests` calls through.
pub fn a_half_open_breaker_is_careful()
    ensures { (first : Breaker) (history : List Step) → IsLegal ⟦<Breaker as Object>⟧ first history → IsCarefulAlways (policy_of first) history }
{}

/// Each reply fits its command: a call that asks is let through or not, a report counts or is stale; and an open breaker says a
/// moment that is at most the greatest of all and the longest duration after it.
pub fn replies_fit_their_commands()
    ensures { (first : Breaker) (history : List Step) → IsLegal ⟦<Breaker as Object>⟧ first history → AreFitting history }
{}

/// Each entry of a history is in exactly one generation, and they stand there in order.
pub fn generations_divide_the_history()
    ensures { (first : Breaker) (history : List Step) → IsDivided (policy_of first) history }
{}
