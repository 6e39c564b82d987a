//! A turn.
ghost use Rattle.std.specs.Prelude.{◌≡◌, ◌⊎◌, ℕ, Some, is_some, length};
ghost use Rattle.turn_cell.specs.Sitting.{IsSeatOf};
ghost use Rattle.retry_core.specs.Bound.{IsWithinLimit};
ghost use Rattle.ledger_core.specs.Ledger.{plans_of};
ghost use Rattle.policy_run.specs.Effects.{Draws, Runs, times};
ghost use Rattle.link_call.specs.LinkAt.{links};
ghost use Rattle.delivery_turn.specs.declared.ending.Turn.TheVariants as ended;
ghost use Rattle.delivery_turn.specs.Stepping.{DidBy};
ghost use Rattle.delivery_turn.specs.Turning.{DeliversBy, setting_of};

use crate::judging::settling_of;
use crate::posting::post;
use crate::settling::settle;
use crate::taking::{Taking, take};
use crate::{Deliveries, Turn};
use ledger_core::Ledger;
use policy_run::Guard;
use rand_core::Rng;
use side_world::{Clock, Link};
use std::sync::Wait;
use turn_cell::{Object, Seat, TurnCell};

/// One turn of delivery: takes the row that is due first, passes the breaker, posts the event to the app once, and settles the row by
/// what was heard (CloudEvents 1.0; Dapr's publish and subscribe API).
///
/// A row that was taken is settled, whatever happens but that the ledger's cell is exhausted. The guard has a breaker exactly where one
/// is bound.
pub fn turn<L: Link, G: Guard, C: Clock, R: Rng, W: Wait>(
    rt: &W,
    what: &Deliveries<'_>,
    cell: &TurnCell<Ledger>,
    seat: &mut Seat<Ledger>,
    guard: &mut G,
    link: &mut L,
    clock: &mut C,
    rng: &mut R,
) -> Turn
    requires seat { IsSeatOf cell.now seat.old }
    requires plans { length (plans_of cell.now.first) ≡ length what.now.subs.now }
    requires limits { IsWithinLimit what.now.bound.now }
    requires breaker { G.there guard.old ≡ is_some what.now.bound.now.breaker }
    requires guard { G.ready guard.old }
    ensures delivers { DeliversBy (setting_of what.now) result (DidBy ⟦<Ledger as Object>⟧ cell.now seat.old seat.new (links L.Link link.old link.new))
        (Runs G.held guard.old guard.new) (times C.Clock clock.old clock.new) (Draws R.stream rng.old rng.new) }
    ensures there { G.there guard.new ≡ G.there guard.old }
    ensures shows { (count : ℕ) → result ≡ ended.Exhausted count → G.shows guard.new count ⊎ (seat.new.count ≡ Some count) }
{
    match take(rt, cell, seat, clock) {
        Taking::Row(row) => {
            let outcome = post(rt, what, &row, guard, link, clock, rng);
            let settling = settling_of(what, &row, outcome, rng);
            settle(rt, what.alloc, cell, seat, clock, &row, settling)
        }
        Taking::Ended(turn) => turn,
    }
}
