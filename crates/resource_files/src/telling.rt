// How a refusal is told, and which are told at all.
ghost use Rattle.std.specs.Prelude.{◌≡◌, ◌++◌, IfOk, decimal};
ghost use Rattle.resource_files.specs.Refusals.{yaml_wants_memory, components_want_memory, subscriptions_want_memory, policies_want_memory, wants_memory, components_text, subscriptions_text, policies_text, told_as};

use crate::resources::Refusal;
use itoa::Buffer;
use policy_spec::PolicyErr;
use resource_spec::SpecErr;
use side_base::{NoMemory, Text};
use std::alloc::Global;
use topic_spec::SubErr;
use yaml_subset::YamlErr;

fn is_yaml_memory(error: &YamlErr) -> bool
    ensures { result ≡ yaml_wants_memory error.now }
{
    match error {
        YamlErr::NoMemory => true,
        YamlErr::Tab { .. } => false,
        YamlErr::Indent { .. } => false,
        YamlErr::LeftOut { .. } => false,
        YamlErr::Repeated { .. } => false,
        YamlErr::Scalar { .. } => false,
        YamlErr::NotUtf8 { .. } => false,
    }
}

fn is_components_memory(error: &SpecErr) -> bool
    ensures { result ≡ components_want_memory error.now }
{
    match error {
        SpecErr::NoMemory => true,
        SpecErr::Missing { .. } => false,
        SpecErr::Wrong { .. } => false,
        SpecErr::Repeated { .. } => false,
        SpecErr::SecretRef { .. } => false,
        SpecErr::UnknownType { .. } => false,
        SpecErr::TooMany { .. } => false,
    }
}

fn is_subscriptions_memory(error: &SubErr) -> bool
    ensures { result ≡ subscriptions_want_memory error.now }
{
    match error {
        SubErr::NoMemory => true,
        SubErr::Missing { .. } => false,
        SubErr::Wrong { .. } => false,
        SubErr::SelfDead { .. } => false,
        SubErr::TooMany { .. } => false,
        SubErr::Rule { .. } => false,
    }
}

fn is_policies_memory(error: &PolicyErr) -> bool
    ensures { result ≡ policies_want_memory error.now }
{
    match error {
        PolicyErr::NoMemory => true,
        PolicyErr::Missing { .. } => false,
        PolicyErr::Wrong { .. } => false,
        PolicyErr::NoSuchPolicy { .. } => false,
        PolicyErr::Repeated { .. } => false,
    }
}

/// Whether a refusal says that there is no memory, and nothing of the file.
pub(crate) fn is_memory(refusal: &Refusal) -> bool
    ensures { result ≡ wants_memory refusal.now }
{
    match refusal {
        Refusal::TooLong { .. } => false,
        Refusal::Yaml(error) => is_yaml_memory(error),
        Refusal::Components(error) => is_components_memory(error),
        Refusal::Subscriptions(error) => is_subscriptions_memory(error),
        Refusal::Policies(error) => is_policies_memory(error),
    }
}

// These words and a number behind them.
fn with_number(alloc: Global, words: &str, number: u128) -> Result<Text, NoMemory>
    ensures { IfOk result (λ text. text ≡ words.now ++ decimal number) }
{
    let mut buffer = Buffer::new();
    let mut text = Text::from_str(alloc, words)?;
    text.push(buffer.format(number))?;
    Ok(text)
}

// These words and a text behind them.
fn with_text(alloc: Global, words: &str, behind: &Text) -> Result<Text, NoMemory>
    ensures { IfOk result (λ text. text ≡ words.now ++ behind.now) }
{
    let mut text = Text::from_str(alloc, words)?;
    text.push(behind.as_str())?;
    Ok(text)
}

fn text_of_components(alloc: Global, error: &SpecErr) -> Result<Text, NoMemory>
    ensures { IfOk result (λ text. text ≡ components_text error.now) }
{
    match error {
        SpecErr::Missing { field, .. } => with_text(alloc, "Missing ", field),
        SpecErr::Wrong { field, .. } => with_text(alloc, "Wrong ", field),
        SpecErr::Repeated { name } => with_text(alloc, "Repeated ", name),
        SpecErr::SecretRef { name } => with_text(alloc, "SecretRef ", name),
        SpecErr::UnknownType { name } => with_text(alloc, "UnknownType ", name),
        SpecErr::NoMemory => Ok(Text::from_static(alloc, "NoMemory")),
        SpecErr::TooMany { count } => with_number(alloc, "TooMany at ", *count as u128),
    }
}

fn text_of_subscriptions(alloc: Global, error: &SubErr) -> Result<Text, NoMemory>
    ensures { IfOk result (λ text. text ≡ subscriptions_text error.now) }
{
    match error {
        SubErr::Missing { field, .. } => with_text(alloc, "Missing ", field),
        SubErr::Wrong { field, .. } => with_text(alloc, "Wrong ", field),
        SubErr::NoMemory => Ok(Text::from_static(alloc, "NoMemory")),
        SubErr::SelfDead { name } => with_text(alloc, "SelfDead ", name),
        SubErr::TooMany { count } => with_number(alloc, "TooMany at ", *count as u128),
        SubErr::Rule { at, .. } => with_number(alloc, "Rule at ", *at as u128),
    }
}

fn text_of_policies(alloc: Global, error: &PolicyErr) -> Result<Text, NoMemory>
    ensures { IfOk result (λ text. text ≡ policies_text error.now) }
{
    match error {
        PolicyErr::Missing { field, .. } => with_text(alloc, "Missing ", field),
        PolicyErr::Wrong { field, .. } => with_text(alloc, "Wrong ", field),
        PolicyErr::NoSuchPolicy { name } => with_text(alloc, "NoSuchPolicy ", name),
        PolicyErr::Repeated { name } => with_text(alloc, "Repeated ", name),
        PolicyErr::NoMemory => Ok(Text::from_static(alloc, "NoMemory")),
    }
}

/// The text by which a refusal is told: its name, and behind a space its line, its place, its field or its name, where it has
/// one. A length or a number of components or subscriptions counts as a place. The number of a document is left out. Fields and names are as
/// the file has them, and may hold any character.
pub fn refusal_text(alloc: Global, refusal: &Refusal) -> Result<Text, NoMemory>
    ensures { IfOk result (λ text. text ≡ told_as refusal.now) }
{
    match refusal {
        Refusal::TooLong { len } => with_number(alloc, "TooLong at ", *len),
        Refusal::Yaml(error) => error.text(alloc),
        Refusal::Components(error) => text_of_components(alloc, error),
        Refusal::Subscriptions(error) => text_of_subscriptions(alloc, error),
        Refusal::Policies(error) => text_of_policies(alloc, error),
    }
}
