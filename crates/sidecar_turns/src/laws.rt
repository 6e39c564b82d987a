//! What follows of the definitions, as functions whose contract is the law: of turns and drains, and of the histories that a pass has seen
//! of its ledgers.
ghost use Rattle.std.specs.Prelude.{◌≡◌, ◌≢◌, ◌≤◌, ◌<◌, ◌+◌, ◌-◌, ◌∷◌, ◌++◌, [], ℕ, List, Some, None, flat_map, unwrap_or};
ghost use Rattle.retry_core.specs.declared.policy.Bound.{Bound};
ghost use Rattle.ledger_core.specs.declared.reply.LedgerReply.{LedgerReply};
ghost use Rattle.topic_spec.specs.declared.sub.Sub.{Sub};
ghost use Rattle.policy_run.specs.Event.{Event, own_of, step_of};
ghost use Rattle.delivery_turn.specs.declared.ending.Turn.{Turn};
ghost use Rattle.delivery_turn.specs.declared.ending.Turn.TheVariants as ended;
ghost use Rattle.delivery_turn.specs.Settling.{Own};
ghost use Rattle.delivery_turn.specs.Stepping.{asked_in as calls_in, entered_in};
ghost use Rattle.delivery_turn.specs.Delivery.{Delivery, Setting};
ghost use Rattle.sidecar_objects.specs.declared.doing.Doing.{Doing};
ghost use Rattle.sidecar_objects.specs.declared.doing.Doing.TheVariants.{Timed, Waited};
ghost use Rattle.sidecar_objects.specs.Doing.{asked_in, steps_at};
ghost use Rattle.sidecar_objects.specs.Kind.{breakers, ledgers, stores};
ghost use Rattle.sidecar_turns.specs.Accounts.{AcceptedHaveOne, CountsAreAll, MessagesHaveOne, OfEachLedger};
ghost use Rattle.sidecar_turns.specs.declared.draining.Drained.{Drained as End};
ghost use Rattle.sidecar_turns.specs.Brokers.{Sites};
ghost use Rattle.sidecar_turns.specs.Delivering.{Delivers, DeliversFrom, GoesPast, IsIdle, TellsEarlier, turn_events};
ghost use Rattle.sidecar_turns.specs.Draining.{Drains, GoesOn, Pauses, Stops};

use crate::Drained;
use keeper_core::Keeper;
use ledger_core::laws::the_counts_are_all_pairs;
use sidecar_objects::ObjectKinds;
use state_core::Store;

/// Of each event that a ledger accepted there is, for each subscription that it was for, one delivery, and it is exactly one of owed, done,
/// dropped and dead-lettered; and so it is of each message that was made of a delivery that was dead-lettered.
pub fn each_delivery_has_one_status<K: Keeper>()
    ensures accepted { OfEachLedger ⟦<Store<K> as ObjectKinds>⟧.kinds AcceptedHaveOne }
    ensures messages { OfEachLedger ⟦<Store<K> as ObjectKinds>⟧.kinds MessagesHaveOne }
{}

/// What a ledger answers that is counted is how many of its deliveries are owed, done, dropped and dead-lettered, and each delivery is
/// counted once.
pub fn counts_are_all_deliveries<K: Keeper>()
    ensures { OfEachLedger ⟦<Store<K> as ObjectKinds>⟧.kinds CountsAreAll }
{
    the_counts_are_all_pairs();
}

/// A turn of delivery makes its steps at its own ledger and at no other, and none at a store; the calls of the link are its own, and the
/// breaker's steps are those of the breaker that is bound.
pub fn a_turn_keeps_to_its_ledger()
    ensures here { (place : ℕ) (bound : Bound) (did : List (Event Own)) → flat_map (steps_at ledgers place) (turn_events place bound did) ≡ flat_map entered_in (flat_map own_of did) }
    ensures elsewhere { (place k : ℕ) (bound : Bound) (did : List (Event Own)) → k ≢ place → flat_map (steps_at ledgers k) (turn_events place bound did) ≡ [] }
    ensures stores { (place k : ℕ) (bound : Bound) (did : List (Event Own)) → flat_map (steps_at stores k) (turn_events place bound did) ≡ [] }
    ensures calls { (place : ℕ) (bound : Bound) (did : List (Event Own)) → flat_map asked_in (turn_events place bound did) ≡ flat_map calls_in (flat_map own_of did) }
    ensures breaker { (place : ℕ) (bound : Bound) (did : List (Event Own)) → flat_map (steps_at breakers (unwrap_or bound.breaker 0)) (turn_events place bound did) ≡ flat_map step_of did }
{}

/// A turn is taken on the first ledger that isn't idle, after one on each before it; of idle ledgers the earliest moment is told. Without an
/// app port nothing is done.
pub fn ledgers_are_asked_in_order()
    ensures first { (setting : Setting) (settings : List Setting) (did : List (Event Own)) (turn : Turn) → Delivery setting did turn → ¬ IsIdle turn → DeliversFrom 0 (setting ∷ settings) (turn_events 0 setting.bound did) turn }
    ensures second { (one two : Setting) (settings : List Setting) → GoesPast one two settings }
    ensures earlier { (one two : Setting) → TellsEarlier one two }
    ensures nowhere { (inbound : List Bound) (subs : List Sub) → Delivers (record { port = None; inbound = inbound }) subs [] (ended.Idle None) }
    ensures quiet { (inbound : List Bound) (subs : List Sub) (event : Doing) (events : List Doing) (turn : Turn) → ¬ Delivers (record { port = None; inbound = inbound }) subs (event ∷ events) turn }
{}

/// A drain takes turns until nothing is due: without an app port the first is the last; behind a delivery a further one follows; and so it does
/// where a delivery will be due soon, after a pause up to then.
pub fn what_is_due_is_delivered()
    ensures alone { (inbound : List Bound) (subs : List Sub) (began : ℕ) → Drains (record { port = None; inbound = inbound }) subs began [] Drained.Done }
    ensures delivered { (sites : Sites) (subs : List Sub) (began number sub : ℕ) (settled : LedgerReply) (first second : List Doing)
        → Delivers sites subs first (ended.Delivered number sub settled) → Delivers sites subs second (ended.Idle None) → Drains sites subs began (first ++ second) Drained.Done }
    ensures later { (sites : Sites) (subs : List Sub) (began next last : ℕ) (first second : List Doing)
        → Delivers sites subs first (ended.Idle (Some next)) → next ≤ began + 60000 → Delivers sites subs second (ended.Idle None)
        → Drains sites subs began ((first ++ Timed last ∷ Waited (next - last) ∷ []) ++ second) Drained.Done }
{}

/// Without an app port a drain does nothing. None waits for what is due after more than 60,000 ms, or ends before what is due within them; and
/// a pause is counted from the moment that the clock told, and from no other.
pub fn wrong_drains_are_refused()
    ensures busy { (inbound : List Bound) (subs : List Sub) (began : ℕ) (event : Doing) (events : List Doing) (how : End) → ¬ Drains (record { port = None; inbound = inbound }) subs began (event ∷ events) how }
    ensures late { (began : ℕ) (between : List Doing) → ¬ GoesOn began (ended.Idle (Some (began + 60001))) between }
    ensures soon { (began : ℕ) (how : End) → ¬ Stops began (ended.Idle (Some (began + 60000))) how }
    ensures long { (last due : ℕ) → 0 < last → 0 < due → ¬ Pauses due (Timed last ∷ Waited due ∷ []) }
{}
