//! What holds of every history of ticks, as functions whose contract is the law.
ghost use Rattle.std.specs.Prelude.{List};
ghost use Rattle.turn_cell.specs.History.{IsLegal};
ghost use Rattle.cron_ticks.specs.declared.ticks.Ticks.{Ticks};
ghost use Rattle.cron_ticks.specs.Ticks.{schedule_of};
ghost use Rattle.cron_ticks.specs.Schedule.{Step};
ghost use Rattle.cron_ticks.specs.Laws.{AreInOrder, TakesAllThatAreDue};

use crate::Ticks;
use turn_cell::Object;

/// The ticks of each binding that were taken are those from 1 to some number, each once and in order.
pub fn ticks_come_in_order()
    ensures { (first : Ticks) (history : List Step) → IsLegal ⟦<Ticks as Object>⟧ first history → AreInOrder (schedule_of first) history }
{}

/// Where none is due at a moment, the ticks of each binding that were taken are as many as whole periods have passed since the start.
pub fn an_idle_answer_has_taken_all_that_are_due()
    ensures { (first : Ticks) (history : List Step) → IsLegal ⟦<Ticks as Object>⟧ first history → TakesAllThatAreDue (schedule_of first) history }
{}
