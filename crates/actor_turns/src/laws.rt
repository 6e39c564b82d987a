//! What holds of every history of turns, as functions whose contract is the law.
ghost use Rattle.std.specs.Prelude.{List};
ghost use Rattle.turn_cell.specs.History.{IsLegal};
ghost use Rattle.actor_turns.specs.declared.turns.Turns.{Turns};
ghost use Rattle.actor_turns.specs.Course.{Step};
ghost use Rattle.actor_turns.specs.Laws.{TurnsLast, TurnsFollow};

use crate::Turns;
use turn_cell::Object;

/// A ticket whose turn it was stays the least open ticket of its actor until it leaves, whatever else is asked meanwhile.
pub fn a_turn_lasts_until_its_ticket_leaves()
    ensures { (first : Turns) (history : List Step) → IsLegal ⟦<Turns as Object>⟧ first history → TurnsLast history }
{}

/// Where it was one ticket's turn and then another's of the same actor, the first has left in between, and was given before the other.
pub fn the_turns_of_an_actor_follow_each_other()
    ensures { (first : Turns) (history : List Step) → IsLegal ⟦<Turns as Object>⟧ first history → TurnsFollow history }
{}
