//! To which paths an event is delivered.
ghost use Rattle.std.specs.Prelude.{◌≡◌, ◌++◌, ℕ, false, List, length, Option, option_map, is_none, OnOk, IfOk, IfSome};
ghost use Rattle.ledger_core.specs.Aims.{AreAims};
ghost use Rattle.rule_value.specs.Standing.{IsEvent};
ghost use Rattle.rule_value.specs.Values.{Event};
ghost use Rattle.std.specs.Option.{option_or};
ghost use Rattle.topic_spec.specs.declared.draft.Draft.{Draft};
ghost use Rattle.topic_spec.specs.declared.draft.RuleText.{RuleText};
ghost use Rattle.topic_spec.specs.Aiming.{is_yes, first_yes, path_of, is_to, has_rules, is_ruled, are_ruled, aim_at, aims_of, IsAimed, IsPath, AreSubs, AddsBy, AimsBy};
ghost use Rattle.topic_spec.specs.Reading.{AreRules, IsSub};

use crate::sub::{Rules, Sub, Subs};
use json_text::Doc;
use ledger_core::{Aim, Aims};
use rule_expr::{Truth, matches};
use side_base::{NoMemory, Sequence, Text};
use std::alloc::Global;

fn is_yes(truth: Truth) -> bool
    ensures { result ≡ is_yes truth }
{
    match truth {
        Truth::Yes => true,
        Truth::No => false,
        Truth::Error => false,
    }
}

// The path of the first rule that answers yes.
#[tactic(auto, unfolding(crate::specs::Aiming::first_yes))]
fn first_yes<'a>(rules: &'a Rules, event: &Doc<'_>) -> Option<&'a Text>
    ensures first { (shown : Event) → IsEvent event.now shown → option_map (λ t. t.now) result ≡ first_yes shown rules.now }
    ensures values { (shown : Event) (texts : List RuleText) (default : Option (List ℕ)) → IsEvent event.now shown → AreRules texts rules.now → IsPath shown texts default (option_or (option_map (λ t. t.now) result) default) }
{
    for i in 0..rules.len() {
        let rule = rules.at(i);
        if is_yes(matches(&rule.expr, event)) {
            return Some(&rule.path);
        }
    }
    None
}

// The path of the first rule that answers yes, or else the default.
#[tactic(auto, unfolding(crate::specs::Aiming::path_of))]
fn path_of<'a>(sub: &'a Sub, event: &Doc<'_>) -> Option<&'a Text>
    ensures path { (shown : Event) → IsEvent event.now shown → option_map (λ t. t.now) result ≡ path_of shown sub.now }
    ensures values { (shown : Event) (draft : Draft) → IsEvent event.now shown → IsSub draft sub.now → IsPath shown draft.rules draft.default (option_map (λ t. t.now) result) }
{
    match first_yes(&sub.rules, event) {
        Some(path) => Some(path),
        None => sub.default.as_ref(),
    }
}

fn copied(path: Option<&Text>) -> Result<Option<Text>, NoMemory>
    ensures { IfOk result (λ copy. copy ≡ option_map (λ t. t.now) path.entry) }
{
    match path {
        Some(path) => match path.copy() {
            Ok(path) => Ok(Some(path)),
            Err(error) => Err(error),
        },
        None => Ok(None),
    }
}

#[tactic(auto, unfolding(crate::specs::Aiming::is_to))]
fn is_to(sub: &Sub, pubsub: &Text, topic: &Text) -> bool
    ensures { result ≡ is_to pubsub.now topic.now sub.now }
{
    sub.pubsub.bytes() == pubsub.bytes() && sub.topic.bytes() == topic.bytes()
}

// Adds the aim of the subscription at this place, if it is to the topic.
#[tactic(auto, unfolding(crate::specs::Aiming::aim_at))]
fn add_aim(
    place: u32,
    sub: &Sub,
    pubsub: &Text,
    topic: &Text,
    event: &Doc<'_>,
    aims: &mut Aims,
) -> Result<(), NoMemory>
    ensures aims { (shown : Event) → IsEvent event.now shown → OnOk result (aims.new ≡ aims.old ++ aim_at place shown pubsub.now topic.now sub.now) }
    ensures place { OnOk result (IsAimed place aims.old aims.new) }
    ensures values { (shown : Event) (draft : Draft) → IsEvent event.now shown → IsSub draft sub.now → OnOk result (AddsBy shown pubsub.now topic.now place draft aims.old aims.new) }
{
    if !is_to(sub, pubsub, topic) {
        return Ok(());
    }
    match copied(path_of(sub, event)) {
        Ok(path) => aims.push(Aim { sub: place, path }),
        Err(error) => Err(error),
    }
}

/// The subscriptions to a topic of a component, by their places and in their order, each with the path to which it delivers an
/// event: the one of its first rule that answers yes, or else its default, or none.
pub fn aims(
    alloc: Global,
    subs: &Subs,
    pubsub: &Text,
    topic: &Text,
    event: &Doc<'_>,
) -> Result<Aims, NoMemory>
    ensures aims { (shown : Event) → IsEvent event.now shown → IfOk result (λ aims. aims ≡ aims_of shown pubsub.now topic.now subs.now) }
    ensures values { (shown : Event) (drafts : List Draft) → IsEvent event.now shown → AreSubs drafts subs.now → IfOk result (AimsBy shown pubsub.now topic.now 0 drafts) }
    ensures given { IfOk result (AreAims (length subs.now)) }
{
    let mut aims = Sequence::new(alloc);
    for i in 0..subs.len() {
        match add_aim(i as u32, subs.at(i), pubsub, topic, event, &mut aims) {
            Ok(()) => {}
            Err(error) => return Err(error),
        }
    }
    Ok(aims)
}

// Whether the subscription is to the topic and has rules.
#[tactic(auto, unfolding(crate::specs::Aiming::is_ruled))]
fn is_ruled(sub: &Sub, pubsub: &Text, topic: &Text) -> bool
    ensures { result ≡ is_ruled pubsub.now topic.now sub.now }
{
    is_to(sub, pubsub, topic) && has_rules(&sub.rules)
}

fn has_rules(rules: &Rules) -> bool
    ensures { result ≡ has_rules rules.now }
{
    !rules.is_empty()
}

// Adds the aim of the subscription at this place, if it is to the topic: its default.
#[tactic(auto, unfolding(crate::specs::Aiming::aim_at))]
fn add_default(
    place: u32,
    sub: &Sub,
    pubsub: &Text,
    topic: &Text,
    aims: &mut Aims,
) -> Result<(), NoMemory>
    requires { is_ruled pubsub.now topic.now sub.now ≡ false }
    ensures aims { (event : Event) → OnOk result (aims.new ≡ aims.old ++ aim_at place event pubsub.now topic.now sub.now) }
    ensures place { OnOk result (IsAimed place aims.old aims.new) }
{
    if !is_to(sub, pubsub, topic) {
        return Ok(());
    }
    match copied(sub.default.as_ref()) {
        Ok(path) => aims.push(Aim { sub: place, path }),
        Err(error) => Err(error),
    }
}

/// What `aims` gives for whatever event, where no subscription to the topic has rules: each with its default, or none. `None`
/// exactly where one of them has rules, so that the event has to be read.
pub fn default_aims(
    alloc: Global,
    subs: &Subs,
    pubsub: &Text,
    topic: &Text,
) -> Result<Option<Aims>, NoMemory>
    ensures aims { (event : Event) → IfOk result (λ found. IfSome found (λ aims. aims ≡ aims_of event pubsub.now topic.now subs.now)) }
    ensures ruled { IfOk result (λ found. is_none found ≡ are_ruled pubsub.now topic.now subs.now) }
    ensures given { IfOk result (λ found. IfSome found (AreAims (length subs.now))) }
{
    let mut aims = Aims::new(alloc);
    for i in 0..subs.len() {
        let sub = subs.at(i);
        if is_ruled(sub, pubsub, topic) {
            return Ok(None);
        }
        match add_default(i as u32, sub, pubsub, topic, &mut aims) {
            Ok(()) => {}
            Err(error) => return Err(error),
        }
    }
    Ok(Some(aims))
}
