//! From what is published to the command of its ledger.
ghost use Rattle.std.specs.Prelude.{length, ◌≡◌, IfOk};
ghost use Rattle.json_text.specs.Forest.{Forest};
ghost use Rattle.ledger_core.specs.Aims.{AreAims, IsGiven};
ghost use Rattle.cloud_events.specs.Wrapped.{IsRead, IsWrapped};
ghost use Rattle.topic_spec.specs.Aiming.{aims_of};
ghost use Rattle.policy_run.specs.Effects.{AreNone, Draws, Made, times};
ghost use Rattle.pubsub_api.specs.declared.stamp.Stamp.{Stamp as StampRecord};
ghost use Rattle.pubsub_api.specs.Publishing.{Commands, Prepares, id_of, sent_of, unmade};

use crate::naming::{sent_of, texts_are_utf8};
use crate::stamp::{Stamp, id_of, stamped};
use crate::{PubErr, Publication};
use cloud_events::laws::an_event_is_read_again;
use cloud_events::{EventErr, Sent, wrap};
use json_text::laws::the_root_is_the_value_of_the_text;
use json_text::{Doc, JsonErr, read};
use ledger_core::{Aims, LedgerCmd};
use rand_core::Rng;
use side_base::{Blob, Moment, NoMemory, Text};
use side_world::Clock;
use std::alloc::Global;
use topic_spec::{Subs, aims, default_aims, may_publish};

/// The command that gives what is published to the ledger of its component: an event, for the subscriptions that it matches.
///
/// The scopes are asked first. Where they allow it, two random words are drawn, of which the event's id is made, and a moment is
/// read; and then the body is judged.
pub fn prepare<C: Clock, R: Rng>(
    alloc: Global,
    what: &Publication<'_>,
    clock: &mut C,
    rng: &mut R,
) -> Result<LedgerCmd, PubErr>
    ensures prepares { Made (λ events. Prepares what.now events result) AreNone AreNone (times C.Clock clock.old clock.new) (Draws R.stream rng.old rng.new) }
    ensures given { IfOk result (IsGiven (length what.now.subs.now)) }
{
    if !may_publish(what.component, what.app, what.topic) {
        return Err(PubErr::Forbidden);
    }
    let stamp = stamped(clock, rng);
    command_of(alloc, what, &stamp)
}

/// The command of a publication that is stamped.
fn command_of(alloc: Global, what: &Publication<'_>, stamp: &Stamp) -> Result<LedgerCmd, PubErr>
    ensures commands { Commands what.now.subs.now (sent_of what.now) stamp.now result }
    ensures given { IfOk result (IsGiven (length what.now.subs.now)) }
{
    match sent_of(alloc, what) {
        Ok(sent) => match id_of(alloc, stamp) {
            Ok(id) => message_of(alloc, what.subs, &sent, &id, stamp.at),
            Err(_) => Err(PubErr::NoMemory),
        },
        Err(_) => Err(PubErr::NoMemory),
    }
}

/// The command of a body that is sent, with this id and at this moment.
fn message_of(
    alloc: Global,
    subs: &Subs,
    sent: &Sent,
    id: &Text,
    now: Moment,
) -> Result<LedgerCmd, PubErr>
    ensures commands { (stamp : StampRecord) → id.now ≡ id_of stamp → now ≡ stamp.at → Commands subs.now sent.now stamp result }
    ensures given { IfOk result (IsGiven (length subs.now)) }
{
    match wrap(alloc, sent, id, now) {
        Ok(event) => accepting(alloc, subs, sent, id, event, now),
        Err(why) => Err(unmade(why)),
    }
}

/// Why a body becomes no command.
fn unmade(why: EventErr) -> PubErr
    ensures { result ≡ unmade why }
{
    match why {
        EventErr::NoMemory => PubErr::NoMemory,
        other => PubErr::Event(other),
    }
}

/// The command of an event.
fn accepting(
    alloc: Global,
    subs: &Subs,
    sent: &Sent,
    id: &Text,
    event: Blob,
    now: Moment,
) -> Result<LedgerCmd, PubErr>
    requires { IsWrapped sent.now id.now now event }
    ensures commands { (stamp : StampRecord) → id.now ≡ id_of stamp → now ≡ stamp.at → Commands subs.now sent.now stamp result }
    ensures given { IfOk result (IsGiven (length subs.now)) }
{
    texts_are_utf8(sent, id);
    an_event_is_read_again();
    match aims_of_event(alloc, subs, &sent.pubsub, &sent.topic, event.bytes()) {
        Ok(aims) => Ok(LedgerCmd::Accept {
            event: event.shared(),
            aims,
            now,
        }),
        Err(_) => Err(PubErr::NoMemory),
    }
}

/// The subscriptions that an event of this topic matches. It is read only where one of them has rules.
fn aims_of_event(
    alloc: Global,
    subs: &Subs,
    pubsub: &Text,
    topic: &Text,
    event: &[u8],
) -> Result<Aims, NoMemory>
    requires { (values : Forest) × IsRead event.now values }
    ensures aims { (values : Forest) → IsRead event.now values → IfOk result (λ aims. aims ≡ aims_of (record { bytes = event.now; values = values }) pubsub.now topic.now subs.now) }
    ensures given { IfOk result (AreAims (length subs.now)) }
{
    match default_aims(alloc, subs, pubsub, topic) {
        Ok(found) => match found {
            Some(aims) => Ok(aims),
            None => aims_read(alloc, subs, pubsub, topic, event),
        },
        Err(error) => Err(error),
    }
}

/// The subscriptions that an event of this topic matches, by the values of its text.
fn aims_read(
    alloc: Global,
    subs: &Subs,
    pubsub: &Text,
    topic: &Text,
    event: &[u8],
) -> Result<Aims, NoMemory>
    requires { (values : Forest) × IsRead event.now values }
    ensures aims { (values : Forest) → IsRead event.now values → IfOk result (λ aims. aims ≡ aims_of (record { bytes = event.now; values = values }) pubsub.now topic.now subs.now) }
    ensures given { IfOk result (AreAims (length subs.now)) }
{
    the_root_is_the_value_of_the_text();
    match read(alloc, event) {
        Ok(doc) => aims(alloc, subs, pubsub, topic, &doc),
        Err(JsonErr::NoMemory) => Err(NoMemory),
        Err(JsonErr::Bad { .. }) => unreachable!(),
        Err(JsonErr::Deep { .. }) => unreachable!(),
    }
}
