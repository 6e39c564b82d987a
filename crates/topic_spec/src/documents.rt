//! What a document of a file says of a subscription, before its rules are read.
ghost use Rattle.std.specs.Prelude.{◌≡◌, ℕ, List, [], ◌∷◌, Ok, Some, None, codes, option_map, IfSome};
ghost use Rattle.yaml_subset.specs.Docs.{IsPart, row_of, IsFirst};
ghost use Rattle.yaml_subset.specs.Texts.{texts};
ghost use Rattle.yaml_subset.specs.Trees.{Trees};
ghost use Rattle.resource_spec.specs.Document.{IsRead};
ghost use Rattle.resource_spec.specs.Field.{asked_at, text_at, field_at};
ghost use Rattle.topic_spec.specs.Draft.{IsSaid, unless_self};
ghost use Rattle.topic_spec.specs.Documents.{rule_err, in_rules, rule_in, rules_from, rules_listed, rules_in, routes_of_rules, routes_of_one, routes_in, draft_in, is_text, is_earlier, version_of, draft_named, document_said};

use crate::draft::{
    Draft, Routes, RuleText, RuleTexts, in_document, one_route, path_said, some_route, unless_self,
    with_slash, wrong,
};
use crate::sub_err::SubErr;
use resource_spec::{FieldErr, asked, field_of, head, part_text, said};
use side_base::{Sequence, Text};
use std::alloc::Global;
use yaml_subset::{At, Docs, Part, PartKind};

// Whatever is wrong with a rule, the field is that of all rules.
fn rule_err(alloc: Global, error: FieldErr) -> FieldErr
    ensures { result ≡ rule_err error }
{
    match error {
        FieldErr::Missing { .. } => FieldErr::Missing {
            field: Text::from_static(alloc, "spec.routes.rules"),
        },
        FieldErr::Wrong { .. } => FieldErr::Wrong {
            field: Text::from_static(alloc, "spec.routes.rules"),
        },
        FieldErr::NoMemory => FieldErr::NoMemory,
    }
}

// A text of a rule.
fn rule_text(alloc: Global, docs: &Docs, p: Part, name: &str) -> Result<Text, FieldErr>
    requires { IsPart docs.now p }
    ensures { IsRead result (in_rules (asked_at [] (name.now ∷ []) (row_of docs.now p))) }
{
    match asked(alloc, docs, p, "", &[name]) {
        Ok(text) => copied(alloc, text),
        Err(error) => Err(rule_err(alloc, error)),
    }
}

fn copied(alloc: Global, text: &str) -> Result<Text, FieldErr>
    ensures { IsRead result (Ok text.now) }
{
    match Text::from_str(alloc, text) {
        Ok(text) => Ok(text),
        Err(_) => Err(FieldErr::NoMemory),
    }
}

// A text that must be there.
fn needed(alloc: Global, docs: &Docs, p: Part, path: &[&str]) -> Result<Text, FieldErr>
    requires { IsPart docs.now p }
    ensures { IsRead result (asked_at [] (texts path.now) (row_of docs.now p)) }
{
    match asked(alloc, docs, p, "", path) {
        Ok(text) => copied(alloc, text),
        Err(error) => Err(error),
    }
}

// A text that may be absent.
fn optional(alloc: Global, docs: &Docs, p: Part, path: &[&str]) -> Result<Option<Text>, FieldErr>
    requires { IsPart docs.now p }
    ensures { IsRead result (text_at [] (texts path.now) (row_of docs.now p)) }
{
    match said(alloc, docs, p, "", path) {
        Ok(Some(text)) => match Text::from_str(alloc, text) {
            Ok(text) => Ok(Some(text)),
            Err(_) => Err(FieldErr::NoMemory),
        },
        Ok(None) => Ok(None),
        Err(error) => Err(error),
    }
}

// The rule that an item is.
fn rule_at(alloc: Global, docs: &Docs, p: Part) -> Result<RuleText, FieldErr>
    requires { IsPart docs.now p }
    ensures { IsRead result (rule_in (row_of docs.now p)) }
{
    let condition = match rule_text(alloc, docs, p, "match") {
        Ok(condition) => condition,
        Err(error) => return Err(error),
    };
    match rule_text(alloc, docs, p, "path") {
        Ok(path) => match with_slash(alloc, path) {
            Ok(path) => Ok(RuleText { condition, path }),
            Err(_) => Err(FieldErr::NoMemory),
        },
        Err(error) => Err(error),
    }
}

// The rules that the items are, from the first on.
fn rules_of(alloc: Global, docs: &Docs, items: Option<Part>) -> Result<RuleTexts, FieldErr>
    requires { IfSome items (IsPart docs.now) }
    ensures { (row : Trees) → IsFirst docs.now row items → IsRead result (rules_from [] row) }
{
    let mut here = items;
    let mut rules = Sequence::new(alloc);
    loop {
        match here {
            Some(p) => match rule_at(alloc, docs, p) {
                Ok(rule) => match rules.push(rule) {
                    Ok(()) => here = docs.next(p),
                    Err(_) => return Err(FieldErr::NoMemory),
                },
                Err(error) => return Err(error),
            },
            None => return Ok(rules),
        }
    }
}

// The rules that a part lists.
fn rules_of_part(alloc: Global, docs: &Docs, p: Part) -> Result<RuleTexts, FieldErr>
    requires { IsPart docs.now p }
    ensures { IsRead result (rules_listed (row_of docs.now p)) }
{
    match docs.kind(p) {
        PartKind::Sequence => rules_of(alloc, docs, docs.first(p)),
        PartKind::Scalar => Err(wrong(alloc, "spec.routes.rules")),
        PartKind::Mapping => Err(wrong(alloc, "spec.routes.rules")),
        PartKind::Empty => Err(wrong(alloc, "spec.routes.rules")),
    }
}

// The rules of a document.
fn rules_at(alloc: Global, docs: &Docs, p: Part) -> Result<RuleTexts, FieldErr>
    requires { IsPart docs.now p }
    ensures { IsRead result (rules_in (row_of docs.now p)) }
{
    match docs.at(p, &["spec", "routes", "rules"]) {
        At::Absent => Ok(Sequence::new(alloc)),
        At::Wrong(passed) => match field_of(alloc, "", &["spec", "routes", "rules"], passed) {
            Ok(field) => Err(FieldErr::Wrong { field }),
            Err(_) => Err(FieldErr::NoMemory),
        },
        At::Here(list) => rules_of_part(alloc, docs, list),
    }
}

// Rules, and the path where none of them answers yes.
fn routes_of_rules(alloc: Global, docs: &Docs, p: Part) -> Result<Routes, FieldErr>
    requires { IsPart docs.now p }
    ensures { IsRead result (routes_of_rules (row_of docs.now p)) }
{
    let rules = match rules_at(alloc, docs, p) {
        Ok(rules) => rules,
        Err(error) => return Err(error),
    };
    let default = match optional(alloc, docs, p, &["spec", "routes", "default"]) {
        Ok(default) => default,
        Err(error) => return Err(error),
    };
    match path_said(alloc, default) {
        Ok(path) => some_route(alloc, "spec.routes", rules, path),
        Err(error) => Err(error),
    }
}

// The one route of the earlier version.
fn routes_of_one(alloc: Global, docs: &Docs, p: Part) -> Result<Routes, FieldErr>
    requires { IsPart docs.now p }
    ensures { IsRead result (routes_of_one (row_of docs.now p)) }
{
    match optional(alloc, docs, p, &["spec", "route"]) {
        Ok(path) => one_route(alloc, "spec.route", path),
        Err(error) => Err(error),
    }
}

fn routes_at(alloc: Global, docs: &Docs, p: Part, earlier: bool) -> Result<Routes, FieldErr>
    requires { IsPart docs.now p }
    ensures { IsRead result (routes_in earlier (row_of docs.now p)) }
{
    if earlier {
        routes_of_one(alloc, docs, p)
    } else {
        routes_of_rules(alloc, docs, p)
    }
}

// A subscription of the earlier version, or of the later one.
fn draft_at(alloc: Global, docs: &Docs, p: Part, earlier: bool) -> Result<Draft, FieldErr>
    requires { IsPart docs.now p }
    ensures { IsRead result (draft_in earlier (row_of docs.now p)) }
{
    let pubsub = match needed(alloc, docs, p, &["spec", "pubsubname"]) {
        Ok(pubsub) => pubsub,
        Err(error) => return Err(error),
    };
    let topic = match needed(alloc, docs, p, &["spec", "topic"]) {
        Ok(topic) => topic,
        Err(error) => return Err(error),
    };
    let routes = match routes_at(alloc, docs, p, earlier) {
        Ok(routes) => routes,
        Err(error) => return Err(error),
    };
    match optional(alloc, docs, p, &["spec", "deadLetterTopic"]) {
        Ok(dead) => Ok(Draft {
            pubsub,
            topic,
            rules: routes.rules,
            default: routes.default,
            dead,
        }),
        Err(error) => Err(error),
    }
}

fn is_text(text: Option<&str>, wanted: &str) -> bool
    ensures { result ≡ is_text wanted.now (option_map (λ t. t.now) text.entry) }
{
    match text {
        Some(text) => text == wanted,
        None => false,
    }
}

// Whether the document says the earlier version.
fn is_earlier(docs: &Docs, p: Part) -> bool
    requires { IsPart docs.now p }
    ensures { result ≡ is_earlier (row_of docs.now p) }
{
    match docs.at(p, &["apiVersion"]) {
        At::Absent => false,
        At::Wrong(_) => false,
        At::Here(version) => is_text(part_text(docs, version), "dapr.io/v1alpha1"),
    }
}

fn version_of(earlier: bool) -> &'static str
    ensures { result.now ≡ version_of earlier }
{
    if earlier {
        "dapr.io/v1alpha1"
    } else {
        "dapr.io/v2alpha1"
    }
}

// The subscription of a document, if it has a name.
fn draft_named(
    alloc: Global,
    docs: &Docs,
    doc: usize,
    p: Part,
    earlier: bool,
    name: Option<&str>,
) -> Result<Option<Draft>, SubErr>
    requires { IsPart docs.now p }
    ensures { IsSaid result (draft_named doc earlier (row_of docs.now p) (option_map (λ t. t.now) name.entry)) }
{
    match name {
        Some(name) => match draft_at(alloc, docs, p, earlier) {
            Ok(draft) => match unless_self(alloc, name, draft) {
                Ok(draft) => Ok(Some(draft)),
                Err(error) => Err(error),
            },
            Err(error) => Err(in_document(doc, error)),
        },
        None => Ok(None),
    }
}

/// The subscription that a document is, if it is one and for the app.
#[tactic(auto, unfolding(crate::specs::Documents::document_said))]
pub(crate) fn document_at(
    alloc: Global,
    docs: &Docs,
    doc: usize,
    p: Part,
    app: &Text,
) -> Result<Option<Draft>, SubErr>
    requires { IsPart docs.now p }
    ensures { IsSaid result (document_said app.now doc (row_of docs.now p)) }
{
    let earlier = is_earlier(docs, p);
    match head(alloc, docs, p, "Subscription", version_of(earlier), app) {
        Ok(name) => draft_named(alloc, docs, doc, p, earlier, name),
        Err(error) => Err(in_document(doc, error)),
    }
}
