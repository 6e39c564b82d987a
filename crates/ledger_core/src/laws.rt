//! What holds of every history of a ledger, as functions whose contract is the law.
ghost use Rattle.std.specs.Prelude.{ℕ, suc, ◌+◌, ◌*◌, ◌^◌, ◌≤◌, List};
ghost use Rattle.turn_cell.specs.History.{IsLegal};
ghost use Rattle.ledger_core.specs.declared.ledger.Ledger.{Ledger};
ghost use Rattle.ledger_core.specs.Message.{Step};
ghost use Rattle.ledger_core.specs.Ledger.{Stands, plans_of, books_of};
ghost use Rattle.ledger_core.specs.Tree.{IsWayDown};
ghost use Rattle.ledger_core.specs.Laws.{AreCountedOnce, StaysSettled, IsSettledOnce, AreLetters, RowsAreOwed, AreFitting, ArePlanned, ClaimsRise, IsSettledBetween, IsLetGo, CountsAddUp};

use crate::Ledger;
use turn_cell::Object;

/// The rows of a ledger are the owed pairs, each once: it waits where nobody holds it, and is held under one claim else.
pub fn rows_are_the_owed_pairs()
    ensures { (first ledger : Ledger) (history : List Step) → Stands first history ledger → RowsAreOwed (plans_of first) history (books_of ledger) }
{}

/// A status other than owed never changes.
pub fn a_settled_pair_stays_so()
    ensures { (first : Ledger) (history : List Step) → IsLegal ⟦<Ledger as Object>⟧ first history → StaysSettled history }
{}

/// A settling that dead-letters a pair makes one message, with its event and one hop more; and what is settled for good is not
/// settled again.
pub fn a_dead_letter_is_one_message()
    ensures letters { (first : Ledger) (history : List Step) → IsLegal ⟦<Ledger as Object>⟧ first history → AreLetters history }
    ensures once { (first : Ledger) (history : List Step) → IsLegal ⟦<Ledger as Object>⟧ first history → IsSettledOnce history }
{}

/// The pairs of the four statuses are all pairs.
pub fn the_counts_are_all_pairs()
    ensures { (history : List Step) → AreCountedOnce history }
{}

/// The numbers that a `Counts` answers add up to the number of pairs.
pub fn counts_add_up()
    ensures { (first : Ledger) (history : List Step) → IsLegal ⟦<Ledger as Object>⟧ first history → CountsAddUp history }
{}

/// Each reply fits its command.
pub fn replies_fit_their_commands()
    ensures { (first : Ledger) (history : List Step) → IsLegal ⟦<Ledger as Object>⟧ first history → AreFitting history }
{}

/// A pair that is given out is of a subscription that has a plan.
pub fn what_is_taken_has_a_plan()
    ensures { (first : Ledger) (history : List Step) → IsLegal ⟦<Ledger as Object>⟧ first history → ArePlanned (plans_of first) history }
{}

/// Claims rise, and a pair is given out again only after it was settled. A settling under a claim that was given out ends it,
/// whatever its reply.
pub fn a_claim_is_one_holder()
    ensures rise { (first : Ledger) (history : List Step) → IsLegal ⟦<Ledger as Object>⟧ first history → ClaimsRise history }
    ensures between { (first : Ledger) (history : List Step) → IsLegal ⟦<Ledger as Object>⟧ first history → IsSettledBetween history }
    ensures ends { (first : Ledger) (history : List Step) → IsLegal ⟦<Ledger as Object>⟧ first history → IsLetGo history }
{}

/// No way down a tree of rows is long: each node more takes a quarter of the places at least. Of 65,536 rows it has at most 37 nodes.
pub fn ways_down_are_short()
    ensures each { (rows nodes : ℕ) → IsWayDown rows (suc nodes) → 2 * 4 ^ nodes ≤ 3 ^ nodes * (rows + 1) }
    ensures most { (rows nodes : ℕ) → IsWayDown rows nodes → rows ≤ 65536 → nodes ≤ 37 }
{}
