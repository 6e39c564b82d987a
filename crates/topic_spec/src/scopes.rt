//! Which apps a pub/sub component lets publish to a topic, and which it lets subscribe to it.
ghost use Rattle.std.specs.Prelude.{◌≡◌, ℕ, List, ◌==◌, not, reverse, take_while, length, ◌≤◌, option_map};
ghost use Rattle.topic_spec.specs.Scopes.{without_front_spaces, without_spaces, is_some_name, is_name, has_some_topic, has_topic, lets_topic, before_sign, behind_sign, is_of_app, is_of_topic, has_app, has_app_topic, lets_app, may_publish, may_subscribe};

use resource_spec::Component;
use side_base::Text;

const SPACE: u8 = b' ';

const COMMA: u8 = b',';

const SEMICOLON: u8 = b';';

const SIGN: u8 = b'=';

fn without_front_spaces(bytes: &[u8]) -> &[u8]
    ensures { result.now ≡ without_front_spaces bytes.now }
{
    let mut rest = bytes;
    while let [first, after @ ..] = rest {
        if *first != SPACE {
            return rest;
        }
        rest = after;
    }
    rest
}

fn without_back_spaces(bytes: &[u8]) -> &[u8]
    ensures { result.now ≡ reverse (without_front_spaces (reverse bytes.now)) }
{
    let mut rest = bytes;
    while let [before @ .., last] = rest {
        if *last != SPACE {
            return rest;
        }
        rest = before;
    }
    rest
}

#[tactic(auto, unfolding(crate::specs::Scopes::without_spaces))]
fn without_spaces(bytes: &[u8]) -> &[u8]
    ensures { result.now ≡ without_spaces bytes.now }
{
    without_back_spaces(without_front_spaces(bytes))
}

#[tactic(auto, unfolding(crate::specs::Scopes::is_some_name))]
fn is_some_name(piece: &[u8]) -> bool
    ensures { result ≡ is_some_name piece.now }
{
    !without_spaces(piece).is_empty()
}

#[tactic(auto, unfolding(crate::specs::Scopes::is_name))]
fn is_name(name: &[u8], piece: &[u8]) -> bool
    ensures { result ≡ is_name name.now piece.now }
{
    is_some_name(piece) && without_spaces(piece) == name
}

// Whether there is a topic among those that are joined by commas.
fn has_some_topic(text: &[u8]) -> bool
    ensures { result ≡ has_some_topic text.now }
{
    text.split(|byte| *byte == COMMA)
        .any(|piece| is_some_name(piece))
}

// Whether the topic is among those that are joined by commas.
fn has_topic(topic: &[u8], text: &[u8]) -> bool
    ensures { result ≡ has_topic topic.now text.now }
{
    text.split(|byte| *byte == COMMA)
        .any(|piece| is_name(topic, piece))
}

fn lets_topic(text: Option<&Text>, topic: &Text) -> bool
    ensures { result ≡ lets_topic (option_map (λ t. t.now) text.entry) topic.now }
{
    match text {
        Some(text) => !has_some_topic(text.bytes()) || has_topic(topic.bytes(), text.bytes()),
        None => true,
    }
}

#[tactic(auto, unfolding(crate::specs::Scopes::before_sign))]
fn sign_at(item: &[u8]) -> usize
    ensures exact { result ≡ length (before_sign item.now) }
    ensures inside { result ≤ length item.now }
{
    item.iter().take_while(|byte| **byte != SIGN).count()
}

#[tactic(auto, unfolding(crate::specs::Scopes::before_sign))]
fn before_sign(item: &[u8]) -> &[u8]
    ensures { result.now ≡ before_sign item.now }
{
    &item[..sign_at(item)]
}

#[tactic(auto, unfolding(crate::specs::Scopes::behind_sign))]
fn behind_sign(item: &[u8]) -> &[u8]
    ensures { result.now ≡ behind_sign item.now }
{
    let mut rest = item;
    while let [first, after @ ..] = rest {
        if *first == SIGN {
            return after;
        }
        rest = after;
    }
    rest
}

#[tactic(auto, unfolding(crate::specs::Scopes::is_of_app))]
fn is_of_app(app: &[u8], item: &[u8]) -> bool
    ensures { result ≡ is_of_app app.now item.now }
{
    is_name(app, before_sign(item))
}

#[tactic(auto, unfolding(crate::specs::Scopes::is_of_topic))]
fn is_of_topic(app: &[u8], topic: &[u8], item: &[u8]) -> bool
    ensures { result ≡ is_of_topic app.now topic.now item.now }
{
    is_of_app(app, item) && has_topic(topic, behind_sign(item))
}

// Whether the app is listed.
fn has_app(app: &[u8], scopes: &[u8]) -> bool
    ensures { result ≡ has_app app.now scopes.now }
{
    scopes
        .split(|byte| *byte == SEMICOLON)
        .any(|item| is_of_app(app, item))
}

// Whether the app is listed with the topic.
fn has_app_topic(app: &[u8], topic: &[u8], scopes: &[u8]) -> bool
    ensures { result ≡ has_app_topic app.now topic.now scopes.now }
{
    scopes
        .split(|byte| *byte == SEMICOLON)
        .any(|item| is_of_topic(app, topic, item))
}

fn lets_app(scopes: Option<&Text>, app: &Text, topic: &Text) -> bool
    ensures { result ≡ lets_app (option_map (λ t. t.now) scopes.entry) app.now topic.now }
{
    match scopes {
        Some(scopes) => !has_app(app.bytes(), scopes.bytes())
            || has_app_topic(app.bytes(), topic.bytes(), scopes.bytes()),
        None => true,
    }
}

/// Whether a pub/sub component lets an app publish to a topic: where its setting `allowedTopics` lists topics, the topic must be
/// one of them, and where `publishingScopes` lists the app, one of the app's. Takes no memory.
pub fn may_publish(component: &Component, app: &Text, topic: &Text) -> bool
    ensures { result ≡ may_publish component.now app.now topic.now }
{
    let settings = component.settings();
    lets_topic(settings.find(b"allowedTopics"), topic)
        && lets_app(settings.find(b"publishingScopes"), app, topic)
}

/// Whether a pub/sub component lets an app subscribe to a topic: where its setting `allowedTopics` lists topics, the topic must
/// be one of them, and where `subscriptionScopes` lists the app, one of the app's. Takes no memory.
pub fn may_subscribe(component: &Component, app: &Text, topic: &Text) -> bool
    ensures { result ≡ may_subscribe component.now app.now topic.now }
{
    let settings = component.settings();
    lets_topic(settings.find(b"allowedTopics"), topic)
        && lets_app(settings.find(b"subscriptionScopes"), app, topic)
}
