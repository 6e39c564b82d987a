//! Of messages that are published.
ghost use Rattle.std.specs.Prelude.{◌≡◌, ℕ, List};
ghost use Rattle.turn_cell.specs.Sitting.{Begun};
ghost use Rattle.api_routes.specs.declared.route.Route.TheVariants.{Publish};
ghost use Rattle.ledger_core.specs.declared.ledger.Ledger.{Ledger};
ghost use Rattle.ledger_core.specs.declared.command.LedgerCmd.TheVariants.{Accept};
ghost use Rattle.ledger_core.specs.declared.plan.Aim.{Aim};
ghost use Rattle.ledger_core.specs.declared.reply.LedgerReply.TheVariants.{Full};
ghost use Rattle.ledger_core.specs.Message.{Step};
ghost use Rattle.sidecar_objects.specs.Kind.{CellsAt, ledgers};
ghost use Rattle.session_laws.specs.Served.{IsServed, Served};
ghost use Rattle.session_laws.specs.Histories.{IsStepIn};
ghost use Rattle.sidecar_turns.specs.Accounts.{OfEachLedger};
ghost use Rattle.session_laws.specs.Accounts.{AccountsForAll, IsTakenIntoAccount};
ghost use Rattle.session_laws.specs.Messages.{HasNoRoom, IsAnsweredWhereAllIsWell, IsMessageAnswered};

use keeper_core::Keeper;
use sidecar_objects::ObjectKinds;
use sidecar_turns::laws::{counts_are_all_deliveries, each_delivery_has_one_status};
use state_core::Store;

/// A request to publish has the answer of one of these causes: there is no pub/sub component of the name; its scopes don't let the app publish to the topic; the body
/// becomes no event; the ledger answered that it is full; it took the event, for the subscriptions that it matches; its cell is exhausted; or there was no memory.
pub fn each_answer_to_a_message_has_its_cause<K: Keeper>()
    ensures { (cells : CellsAt _) (pubsub topic : List ℕ) (served : Served _) → IsServed ⟦<Store<K> as ObjectKinds>⟧.kinds cells (Publish pubsub topic) served → IsMessageAnswered pubsub topic served }
{}

/// Where the component is there, its scopes allow the topic, the body becomes an event, the ledger is not full and no cell is exhausted, the ledger took the event and the
/// answer is 204, or there was no memory.
pub fn a_message_is_taken_where_all_is_well<K: Keeper>()
    ensures { (cells : CellsAt _) (pubsub topic : List ℕ) (served : Served _) → IsServed ⟦<Store<K> as ObjectKinds>⟧.kinds cells (Publish pubsub topic) served → IsAnsweredWhereAllIsWell pubsub topic served }
{}

/// A ledger answers to an event that it is full only where it has no room for it by its history, and so tells its size with it.
pub fn a_full_ledger_has_no_room<K: Keeper>()
    ensures { (first : Ledger) (seen : List Step) (step : Step) (event : List ℕ) (aims : List Aim) (now rows bytes : ℕ) → (there : IsStepIn (⟦<Store<K> as ObjectKinds>⟧.kinds ledgers) first seen step)
        → step.cmd ≡ Accept event aims now → step.reply ≡ Full rows bytes → HasNoRoom there.before step rows bytes }
{}

/// By the one history that a pass has seen of a ledger each message that the ledger took is accounted for, whatever other passes did between: to each subscription that it is
/// for there is one delivery, and it is exactly one of owed and waiting, owed and out at a worker, done, dropped, and dead-lettered. So is each message that was made of a
/// delivery that was dead-lettered. Where the ledger was counted, the four counts are those of its deliveries, and add up to all of them.
///
/// What a request published is accounted for so behind the request.
pub fn each_message_is_accounted_for<K: Keeper>()
    ensures ledgers { OfEachLedger ⟦<Store<K> as ObjectKinds>⟧.kinds AccountsForAll }
    ensures published { (cells : CellsAt _) (pubsub topic : List ℕ) (served : Served _) → IsServed ⟦<Store<K> as ObjectKinds>⟧.kinds cells (Publish pubsub topic) served → IsTakenIntoAccount ⟦<Store<K> as ObjectKinds>⟧.kinds cells pubsub topic served }
{
    each_delivery_has_one_status::<K>();
    counts_are_all_deliveries::<K>();
}
