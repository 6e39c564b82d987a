//! What holds of the definitions that the contracts cite, as functions whose contract is the law.
ghost use Rattle.std.specs.Prelude.{◌≡◌, ℕ, List};
ghost use Rattle.cloud_events.specs.declared.sent.Sent.{Sent};
ghost use Rattle.cloud_events.specs.declared.sent.EventErr.{EventErr};
ghost use Rattle.cloud_events.specs.declared.sent.EventErr.TheVariants.{NoMemory as no_memory};
ghost use Rattle.cloud_events.specs.Laws.{AreTexts, IsReadAs, IsSentAgain, KeepsMembersAgain, StaysAgain};
ghost use Rattle.cloud_events.specs.Wrapped.{IsRefused, IsWrapped};

/// A body that becomes an event has no cause of refusal, so that `wrap` refuses exactly what it has to.
pub fn an_event_has_no_cause_of_refusal()
    ensures { (sent : Sent) (id event : List ℕ) (now : ℕ) (error : EventErr) → IsWrapped sent id now event → IsRefused sent error → error ≡ no_memory }
{}

/// An event is a JSON text of one map, with which nothing is wrong, so that `json_text::read` takes it unless memory runs out; its
/// members are those that were written.
pub fn an_event_is_read_again()
    ensures { (sent : Sent) (id event : List ℕ) (now : ℕ) (wrapped : IsWrapped sent id now event) → AreTexts sent id → IsReadAs wrapped.event_is.members event }
{}

/// A body with an id and a moment becomes one event at most.
pub fn a_body_becomes_one_event()
    ensures { (sent : Sent) (id one other : List ℕ) (now : ℕ) → IsWrapped sent id now one → IsWrapped sent id now other → one ≡ other }
{}

/// An event that is sent again, as an event, has no cause of refusal: `wrap` takes it unless memory runs out. What it becomes has
/// each member that it had, to the byte, but for the topic and the pub/sub component, which are set anew, and for null, which counts
/// as absent; beside those it has only the trace fields that it lacked.
pub fn an_event_is_accepted_again()
    ensures accepted { (sent again : Sent) (id event : List ℕ) (now : ℕ) (error : EventErr) → IsSentAgain sent again id now event → IsRefused again error → error ≡ no_memory }
    ensures kept { (sent again : Sent) (id next event other : List ℕ) (now later : ℕ) → KeepsMembersAgain sent again id next event other now later }
{}

/// An event that is sent again to the same topic, with no trace field that was not there, becomes the same bytes, unless a member
/// is null.
pub fn an_event_sent_again_stays()
    ensures { (sent again : Sent) (id next event other : List ℕ) (now later : ℕ) → StaysAgain sent again id next event other now later }
{}
