//! What follows of the definition of a turn, as functions whose contract is the law.
ghost use Rattle.std.specs.Prelude.{◌≡◌, ◌≤◌, ◌+◌, ℕ, true, List, []};
ghost use Rattle.side_base.specs.declared.message.Response.{Response};
ghost use Rattle.side_base.specs.declared.message.Field.{Field};
ghost use Rattle.json_text.specs.Forest.{Forest};
ghost use Rattle.breaker_core.specs.declared.command.BreakerReply.TheVariants.{Opened, TooMany};
ghost use Rattle.ledger_core.specs.declared.reply.LedgerReply.TheVariants.{Done, Again, Dead};
ghost use Rattle.cloud_events.specs.declared.outcome.Verdict.{Verdict};
ghost use Rattle.cloud_events.specs.declared.outcome.Verdict.TheVariants.{Success, Retry, Drop};
ghost use Rattle.cloud_events.specs.Wrapped.{IsRead};
ghost use Rattle.topic_spec.specs.declared.sub.Rule.{Rule};
ghost use Rattle.policy_run.specs.Event.{Event};
ghost use Rattle.delivery_turn.specs.declared.ending.Turn.{Turn};
ghost use Rattle.delivery_turn.specs.declared.ending.Turn.TheVariants.{Delivered};
ghost use Rattle.delivery_turn.specs.Settling.{Own};
ghost use Rattle.delivery_turn.specs.Posting.{IsJudged};
ghost use Rattle.delivery_turn.specs.Delivery.{Setting, guarded, Delivery};
ghost use Rattle.delivery_turn.specs.Kinds.{AllFit, BeginsByTaking, IsUnspent, kinds_of, so_many, is_settling, is_retry, is_call, is_refusal, is_report, is_draw};
ghost use Rattle.delivery_turn.specs.Samples.{attempt_at, called_first, called_idly, failed_so, guarded_shop, hurried_shop, late_so, letter_at, misanswered, order_event, overdrawn, refused_so, settled_twice, shop, undrawn, unreported, wants_again};

/// A turn settles its row once at most.
pub fn a_row_is_settled_once()
    ensures { (setting : Setting) (events : List (Event Own)) (turn : Turn) → Delivery setting events turn → so_many is_settling (kinds_of events) ≤ 1 }
{}

/// All that a turn does comes after it took a row: no call of the app, no settling and no word stands before, or where none was
/// taken.
pub fn a_row_is_taken_first()
    ensures { (setting : Setting) (events : List (Event Own)) (turn : Turn) → Delivery setting events turn → BeginsByTaking (kinds_of events) }
{}

/// Where a breaker guards the deliveries, each call of the app is reported to it, unless a cell was exhausted.
pub fn a_call_is_reported()
    ensures { (setting : Setting) (events : List (Event Own)) (turn : Turn) → guarded setting ≡ true → Delivery setting events turn → IsUnspent turn → so_many is_report (kinds_of events) ≡ so_many is_call (kinds_of events) }
{}

/// A random word is drawn for a settling with `Retry` and for no other, unless a cell was exhausted.
pub fn a_word_is_drawn_for_retry_alone()
    ensures { (setting : Setting) (events : List (Event Own)) (turn : Turn) → Delivery setting events turn → IsUnspent turn → so_many is_draw (kinds_of events) ≡ so_many is_retry (kinds_of events) }
{}

/// The app is called once at most, and not at all where the breaker refuses the delivery.
pub fn a_refused_delivery_is_not_tried()
    ensures { (setting : Setting) (events : List (Event Own)) (turn : Turn) → Delivery setting events turn → so_many is_call (kinds_of events) + so_many is_refusal (kinds_of events) ≤ 1 }
{}

/// A reply has one verdict at most.
pub fn a_reply_has_one_verdict()
    ensures { (response : Response) (one other : Verdict) → IsJudged response one → IsJudged response other → one ≡ other }
{}

/// Whatever the body of a reply is, 404 drops the message and 500 has it delivered again; a good reply without a body is a success.
pub fn some_replies_are_judged_by_status()
    ensures absent { (response : Response) (verdict : Verdict) → response.status ≡ 404 → IsJudged response verdict → verdict ≡ Drop }
    ensures failing { (response : Response) (verdict : Verdict) → response.status ≡ 500 → IsJudged response verdict → verdict ≡ Retry }
    ensures empty { (fields : List Field) → IsJudged (record { status = 204; fields = fields; body = [] }) Success }
{}

/// A reply of 200 with the body `{"status":"RETRY"}` has the message delivered again.
pub fn a_reply_may_ask_for_another_attempt()
    ensures { IsJudged wants_again Retry }
{}

/// An event of 159 bytes, as it is published, is a JSON text.
pub fn the_event_is_a_text()
    ensures { (values : Forest) × IsRead order_event values }
{}

/// A message, whatever JSON text its event is, that the app wants again three times, at 0, 100 and 200 ms, goes to the second
/// subscription as message 2, which the app accepts.
pub fn a_letter_is_delivered()
    ensures first { (rules : List Rule) (event : List ℕ) (values : Forest) (drawn : ℕ) → IsRead event values → Delivery (shop rules) (attempt_at 0 1 drawn event (Again 100)) (Delivered 1 0 (Again 100)) }
    ensures second { (rules : List Rule) (event : List ℕ) (values : Forest) (drawn : ℕ) → IsRead event values → Delivery (shop rules) (attempt_at 100 2 drawn event (Again 200)) (Delivered 1 0 (Again 200)) }
    ensures third { (rules : List Rule) (event : List ℕ) (values : Forest) (drawn : ℕ) → IsRead event values → Delivery (shop rules) (attempt_at 200 3 drawn event (Dead 2)) (Delivered 1 0 (Dead 2)) }
    ensures letter { (rules : List Rule) (event : List ℕ) → Delivery (shop rules) (letter_at 200 4 event) (Delivered 2 1 Done) }
{}

/// A delivery that an open breaker refuses is due again one past the moment that the breaker says; where too many are out, 1,000 ms
/// past the moment of the settling.
pub fn a_refused_delivery_is_postponed()
    ensures opened { (rules : List Rule) (event : List ℕ) → Delivery (guarded_shop rules) (refused_so (Opened 45000) 45001 event) (Delivered 1 0 (Again 45001)) }
    ensures too_many { (rules : List Rule) (event : List ℕ) → Delivery (guarded_shop rules) (refused_so (TooMany 1) 1007 event) (Delivered 1 0 (Again 1007)) }
{}

/// A delivery whose call fails is reported to the breaker as failing, and made again; a reply that comes after the time limit, whatever
/// it is, counts as none.
pub fn a_delivery_without_a_reply_is_made_again()
    ensures failed { (rules : List Rule) (event : List ℕ) (drawn : ℕ) → Delivery (guarded_shop rules) (failed_so drawn event) (Delivered 2 1 (Again 1009)) }
    ensures late { (rules : List Rule) (event : List ℕ) (drawn : ℕ) (response : Response) → Delivery (hurried_shop rules) (late_so drawn event response) (Delivered 2 1 (Again 1056)) }
{}

/// Each answer of the ledger is one that fits the command: no settling with `Success` is answered as one with `Retry`.
pub fn each_answer_fits()
    ensures fits { (setting : Setting) (events : List (Event Own)) (turn : Turn) → Delivery setting events turn → AllFit events }
    ensures wrong { (setting : Setting) (event : List ℕ) (turn : Turn) → ¬ Delivery setting (misanswered event) turn }
{}

/// Some turns are none, whatever the setting is: one that settles twice, one that does not report a call to the breaker that guards
/// it, one that calls the app before it took a row or where it took none, and one that draws no word for a settling with `Retry`, or
/// one for another.
pub fn wrong_turns_are_refused()
    ensures twice { (setting : Setting) (drawn : ℕ) (event : List ℕ) (turn : Turn) → ¬ Delivery setting (settled_twice drawn event) turn }
    ensures unreported { (setting : Setting) (drawn : ℕ) (event : List ℕ) → guarded setting ≡ true → ¬ Delivery setting (unreported drawn event) (Delivered 2 1 (Again 1009)) }
    ensures first { (setting : Setting) (event : List ℕ) (turn : Turn) → ¬ Delivery setting (called_first event) turn }
    ensures idle { (setting : Setting) (event : List ℕ) (turn : Turn) → ¬ Delivery setting (called_idly event) turn }
    ensures undrawn { (setting : Setting) (event : List ℕ) → ¬ Delivery setting (undrawn event) (Delivered 2 1 (Again 1009)) }
    ensures overdrawn { (setting : Setting) (drawn : ℕ) (event : List ℕ) → ¬ Delivery setting (overdrawn drawn event) (Delivered 2 1 Done) }
{}
