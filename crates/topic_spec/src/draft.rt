//! A subscription as it is written down, before its rules are read.
ghost use Rattle.std.specs.Prelude.{◌≡◌, Option, Some, None, option_map, Ok, IfOk, List};
ghost use Rattle.resource_spec.specs.Document.{IsRead};
ghost use Rattle.topic_spec.specs.Draft.{with_slash, some_route, one_route, unless_self, is_same, err_in, IsSaid};

use crate::sub_err::SubErr;
use resource_spec::FieldErr;
use side_base::{NoMemory, Sequence, Text};
use std::alloc::Global;

/// A rule as it is written down: its text, and its path, which begins with a slash.
#[derive(Drop)]
pub struct RuleText {
    pub condition: Text,
    pub path: Text,
}

/// Rules as they are written down, in their order.
pub(crate) type RuleTexts = Sequence<RuleText>;

/// Where a subscription delivers to.
#[derive(Drop)]
pub struct Routes {
    pub rules: Sequence<RuleText>,
    pub default: Option<Text>,
}

/// A subscription whose rules aren't read yet.
#[derive(Drop)]
pub struct Draft {
    pub pubsub: Text,
    pub topic: Text,
    pub rules: Sequence<RuleText>,
    pub default: Option<Text>,
    pub dead: Option<Text>,
}

/// The refusal of a field that isn't there.
pub(crate) fn missing(alloc: Global, field: &'static str) -> FieldErr
    ensures { result ≡ FieldErr.Missing field.now }
{
    FieldErr::Missing {
        field: Text::from_static(alloc, field),
    }
}

/// The refusal of a field that is no such value as is asked for.
pub(crate) fn wrong(alloc: Global, field: &'static str) -> FieldErr
    ensures { result ≡ FieldErr.Wrong field.now }
{
    FieldErr::Wrong {
        field: Text::from_static(alloc, field),
    }
}

/// A refusal of a field, in the document of this number.
pub(crate) fn in_document(doc: usize, error: FieldErr) -> SubErr
    ensures { result ≡ err_in doc error }
{
    match error {
        FieldErr::Missing { field } => SubErr::Missing { doc, field },
        FieldErr::Wrong { field } => SubErr::Wrong { doc, field },
        FieldErr::NoMemory => SubErr::NoMemory,
    }
}

/// The path, with a slash before it where it has none.
#[tactic(auto, unfolding(crate::specs::Draft::with_slash))]
pub(crate) fn with_slash(alloc: Global, path: Text) -> Result<Text, NoMemory>
    ensures { IfOk result (λ text. text ≡ with_slash path) }
{
    match path.bytes().split_first() {
        Some((first, _)) => {
            if *first == b'/' {
                return Ok(path);
            }
        }
        None => {}
    }
    let mut text = Text::from_str(alloc, "/")?;
    text.push(path.as_str())?;
    Ok(text)
}

/// The path that is said, if one is.
pub(crate) fn path_said(alloc: Global, path: Option<Text>) -> Result<Option<Text>, FieldErr>
    ensures { IsRead result (Ok (option_map with_slash path)) }
{
    match path {
        Some(path) => match with_slash(alloc, path) {
            Ok(path) => Ok(Some(path)),
            Err(_) => Err(FieldErr::NoMemory),
        },
        None => Ok(None),
    }
}

/// Routes with a rule or a default; without either this field is missing.
pub(crate) fn some_route(
    alloc: Global,
    field: &'static str,
    rules: RuleTexts,
    default: Option<Text>,
) -> Result<Routes, FieldErr>
    ensures { IsRead result (some_route field.now rules default) }
{
    if rules.is_empty() && default.is_none() {
        return Err(missing(alloc, field));
    }
    Ok(Routes { rules, default })
}

/// The one route of a subscription without rules; without it this field is missing.
pub(crate) fn one_route(
    alloc: Global,
    field: &'static str,
    path: Option<Text>,
) -> Result<Routes, FieldErr>
    ensures { IsRead result (one_route field.now path) }
{
    match path_said(alloc, path) {
        Ok(path) => some_route(alloc, field, Sequence::new(alloc), path),
        Err(error) => Err(error),
    }
}

fn is_same(topic: &Text, dead: &Option<Text>) -> bool
    ensures { result ≡ is_same topic.now dead.now }
{
    match dead {
        Some(dead) => dead.bytes() == topic.bytes(),
        None => false,
    }
}

/// The draft, unless its dead-letter topic is its own topic, which is told by this name.
pub(crate) fn unless_self(alloc: Global, name: &str, draft: Draft) -> Result<Draft, SubErr>
    ensures { IsSaid result (unless_self name.now draft) }
{
    if is_same(&draft.topic, &draft.dead) {
        return match Text::from_str(alloc, name) {
            Ok(name) => Err(SubErr::SelfDead { name }),
            Err(_) => Err(SubErr::NoMemory),
        };
    }
    Ok(draft)
}
