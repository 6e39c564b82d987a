//! How a delivery is settled, by what was heard of the app.
ghost use Rattle.std.specs.Prelude.{◌≡◌, ◌≢◌, ◌<◌, [], true, length, IfErr, IfOk};
ghost use Rattle.cloud_events.specs.Verdict.{is_good};
ghost use Rattle.ledger_core.specs.Aims.{AreAims};
ghost use Rattle.policy_run.specs.Effects.{AreNone, Clocked, Draws as DrawsWords, Made};
ghost use Rattle.delivery_turn.specs.Posting.{AimsAt, DeadAims, HasLetter, IsJudged};
ghost use Rattle.delivery_turn.specs.Turning.{AreSettlingAims, Judges, Retries, Settled};

use crate::Deliveries;
use crate::row::Row;
use crate::settling::{Early, Settling};
use cloud_events::{Verdict, verdict};
use json_text::laws::the_root_is_the_value_of_the_text;
use json_text::{JsonErr, read};
use ledger_core::{Aims, Finish};
use link_call::Miss;
use policy_run::Outcome;
use rand_core::Rng;
use side_base::{NoMemory, Response, Sequence, Text};
use std::alloc::Global;
use topic_spec::aims;

/// How a row is settled, by what its post came to.
pub(crate) fn settling_of<R: Rng>(
    what: &Deliveries<'_>,
    row: &Row,
    outcome: Outcome<Response, Miss>,
    rng: &mut R,
) -> Settling
    requires { row.now.sub < length what.now.subs.now }
    ensures settled { (clock : Clocked) → Made (Settled what.now.subs.now row.now outcome result) AreNone AreNone (record { before = clock; after = clock }) (DrawsWords R.stream rng.old rng.new) }
    ensures given { AreSettlingAims (length what.now.subs.now) result }
{
    match outcome {
        Outcome::Good(response) => by_reply(what, row, &response, rng),
        Outcome::Bad(miss) => by_miss(what, row, miss, rng),
        Outcome::Refused(refusal) => Settling::Postponed(refusal),
        Outcome::Exhausted { count } => Settling::LetGo(Early::Exhausted { count }),
        Outcome::NoMemory => Settling::LetGo(Early::Held),
    }
}

/// By a failing attempt.
fn by_miss<R: Rng>(what: &Deliveries<'_>, row: &Row, miss: Miss, rng: &mut R) -> Settling
    requires { row.now.sub < length what.now.subs.now }
    ensures settled { (clock : Clocked) → Made (Settled what.now.subs.now row.now (Outcome.Bad miss) result) AreNone AreNone (record { before = clock; after = clock }) (DrawsWords R.stream rng.old rng.new) }
    ensures given { AreSettlingAims (length what.now.subs.now) result }
{
    match miss {
        Miss::Replied(response) => by_reply(what, row, &response, rng),
        Miss::Failed => retried(what, row, rng),
        Miss::Expired => retried(what, row, rng),
    }
}

/// By a reply.
fn by_reply<R: Rng>(what: &Deliveries<'_>, row: &Row, response: &Response, rng: &mut R) -> Settling
    requires { row.now.sub < length what.now.subs.now }
    ensures settled { (clock : Clocked) → Made (Judges what.now.subs.now row.now response.now result) AreNone AreNone (record { before = clock; after = clock }) (DrawsWords R.stream rng.old rng.new) }
    ensures given { AreSettlingAims (length what.now.subs.now) result }
{
    match judged(what.alloc, response) {
        Ok(Verdict::Success) => finished(what.alloc, Finish::Success),
        Ok(Verdict::Drop) => finished(what.alloc, Finish::Drop),
        Ok(Verdict::Retry) => retried(what, row, rng),
        Err(_) => Settling::LetGo(Early::Held),
    }
}

/// The verdict on a reply. Outside 200 to 299, and where it is empty, its body isn't read.
fn judged(alloc: Global, response: &Response) -> Result<Verdict, NoMemory>
    ensures judged { IfOk result (IsJudged response.now) }
    ensures lacks { IfErr result (λ e. (is_good response.now.status ≡ true) × (response.now.body ≢ [])) }
{
    if !is_good(response.status) {
        return Ok(verdict(response.status, None));
    }
    if response.body.is_empty() {
        return Ok(verdict(response.status, None));
    }
    judged_by_body(alloc, response)
}

/// Whether the status is from 200 to 299.
fn is_good(status: u16) -> bool
    ensures { result ≡ is_good status }
{
    200 <= status && status <= 299
}

/// The verdict on a reply whose body counts.
fn judged_by_body(alloc: Global, response: &Response) -> Result<Verdict, NoMemory>
    requires good { is_good response.now.status ≡ true }
    requires some { response.now.body ≢ [] }
    ensures { IfOk result (IsJudged response.now) }
{
    the_root_is_the_value_of_the_text();
    match read(alloc, response.body.bytes()) {
        Ok(doc) => Ok(verdict(response.status, Some(&doc))),
        Err(JsonErr::NoMemory) => Err(NoMemory),
        Err(JsonErr::Bad { .. }) => Ok(verdict(response.status, None)),
        Err(JsonErr::Deep { .. }) => Ok(verdict(response.status, None)),
    }
}

/// A settling that draws no word and names no dead letter. Takes no memory.
fn finished(alloc: Global, finish: Finish) -> Settling
    ensures { result ≡ Settling.Concluded finish 0 [] }
{
    Settling::Concluded {
        finish,
        word: 0,
        dead_aims: Sequence::new(alloc),
    }
}

/// A settling with `Retry`: the aims of the dead letter are made first, and then a word is drawn.
fn retried<R: Rng>(what: &Deliveries<'_>, row: &Row, rng: &mut R) -> Settling
    requires { row.now.sub < length what.now.subs.now }
    ensures retries { (clock : Clocked) → Made (Retries what.now.subs.now row.now result) AreNone AreNone (record { before = clock; after = clock }) (DrawsWords R.stream rng.old rng.new) }
    ensures given { AreSettlingAims (length what.now.subs.now) result }
{
    match dead_aims(what, row) {
        Ok(dead_aims) => Settling::Concluded {
            finish: Finish::Retry,
            word: rng.next_u64(),
            dead_aims,
        },
        Err(_) => Settling::LetGo(Early::Held),
    }
}

/// Where the event goes if it is given up.
fn dead_aims(what: &Deliveries<'_>, row: &Row) -> Result<Aims, NoMemory>
    requires { row.now.sub < length what.now.subs.now }
    ensures aims { IfOk result (DeadAims what.now.subs.now row.now) }
    ensures given { IfOk result (AreAims (length what.now.subs.now)) }
    ensures lacks { IfErr result (λ e. HasLetter what.now.subs.now row.now) }
{
    let sub = what.subs.at(row.sub as usize);
    match &sub.dead {
        Some(topic) => aims_at(what, row, &sub.pubsub, topic),
        None => Ok(Sequence::new(what.alloc)),
    }
}

/// The subscriptions to a topic that the event matches, where it is a JSON text.
fn aims_at(what: &Deliveries<'_>, row: &Row, pubsub: &Text, topic: &Text) -> Result<Aims, NoMemory>
    ensures aims { IfOk result (AimsAt what.now.subs.now row.now.event pubsub.now topic.now) }
    ensures given { IfOk result (AreAims (length what.now.subs.now)) }
{
    the_root_is_the_value_of_the_text();
    match read(what.alloc, row.event.bytes()) {
        Ok(doc) => aims(what.alloc, what.subs, pubsub, topic, &doc),
        Err(JsonErr::NoMemory) => Err(NoMemory),
        Err(JsonErr::Bad { .. }) => Ok(Sequence::new(what.alloc)),
        Err(JsonErr::Deep { .. }) => Ok(Sequence::new(what.alloc)),
    }
}
