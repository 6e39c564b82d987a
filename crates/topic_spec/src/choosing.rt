//! Subscriptions behind others, and those that are kept.
ghost use Rattle.std.specs.Prelude.{◌≡◌, option_map, length, ◌+◌};
ghost use Rattle.topic_spec.specs.Aiming.{is_pubsub, lets, is_kept, kept};
ghost use Rattle.topic_spec.specs.Joining.{joined, IsChange};

use crate::scopes::may_subscribe;
use crate::sub::{Sub, Subs};
use crate::sub_err::SubErr;
use resource_spec::{Component, ComponentKind, Components};
use side_base::Text;

/// Adds subscriptions behind others, in their order. Where there would be more than 256 it is refused, with their number; on a
/// refusal those are unchanged.
pub fn join(one: &mut Subs, more: Subs) -> Result<(), SubErr>
    ensures { IsChange result one.old one.new (joined one.old more) }
{
    let count = one.len() + more.len();
    if count > 256 {
        return Err(SubErr::TooMany {
            count: count as u64,
        });
    }
    match one.append(more) {
        Ok(()) => Ok(()),
        Err(_) => Err(SubErr::NoMemory),
    }
}

fn is_pubsub(kind: ComponentKind) -> bool
    ensures { result ≡ is_pubsub kind }
{
    match kind {
        ComponentKind::PubsubMemory => true,
        ComponentKind::StateMemory => false,
        ComponentKind::StateJournal => false,
        ComponentKind::BindingHttp => false,
        ComponentKind::BindingCron => false,
    }
}

fn lets(app: &Text, topic: &Text, component: Option<&Component>) -> bool
    ensures { result ≡ lets app.now topic.now (option_map (λ c. c.now) component.entry) }
{
    match component {
        Some(component) => is_pubsub(component.kind()) && may_subscribe(component, app, topic),
        None => false,
    }
}

// Whether its component is loaded, and lets the app subscribe to the topic.
#[tactic(auto, unfolding(crate::specs::Aiming::is_kept))]
fn is_kept(components: &Components, app: &Text, sub: &Sub) -> bool
    ensures { result ≡ is_kept components.now app.now sub.now }
{
    lets(app, &sub.topic, components.find(sub.pubsub.bytes()))
}

// Drops those that aren't kept.
fn keep_allowed(subs: &mut Subs, components: &Components, app: &Text)
    ensures { subs.new ≡ kept components.now app.now subs.old }
{
    subs.list.retain(|sub| is_kept(components, app, sub));
}

/// The subscriptions, in their order, whose pub/sub component is loaded and lets the app subscribe to their topic. Takes no
/// memory.
pub fn allowed(mut subs: Subs, components: &Components, app: &Text) -> Subs
    ensures { result ≡ kept components.now app.now subs }
{
    keep_allowed(&mut subs, components, app);
    subs
}
