//! What an item of an app's list says of a subscription, before its rules are read.
ghost use Rattle.std.specs.Prelude.{◌≡◌, Option, Ok, Some, None, [], codes, IfSome};
ghost use Rattle.json_text.specs.Doc.{bytes_read, IsNode};
ghost use Rattle.json_text.specs.Forest.{Forest};
ghost use Rattle.resource_spec.specs.Document.{IsRead};
ghost use Rattle.rule_value.specs.Standing.{IsAt, IsFound};
ghost use Rattle.rule_value.specs.Values.{held};
ghost use Rattle.topic_spec.specs.Draft.{IsSaid, unless_self};
ghost use Rattle.topic_spec.specs.Listed.{kind_of, is_list, is_map, is_text, member_of, as_text, text_or_none, text_in, or_missing, needed_in, rule_members, rule_of, rules_from, rules_of, routes_members, routes_or_route, routes_of, draft_members, draft_of, item_draft};

use crate::draft::{
    Draft, Routes, RuleText, RuleTexts, in_document, missing, one_route, path_said, some_route,
    unless_self, with_slash, wrong,
};
use crate::sub_err::SubErr;
use json_text::{Doc, Node};
use resource_spec::FieldErr;
use side_base::{Sequence, Text};
use std::alloc::Global;

/// Whether the value is a list.
pub(crate) fn is_list(doc: &Doc<'_>, n: Node) -> bool
    requires { IsNode doc.now n }
    ensures { (values : Forest) → IsAt doc.now n values → result ≡ is_list (kind_of values) }
{
    doc.is_list(n)
}

// Whether the value is a map.
fn is_map(doc: &Doc<'_>, n: Node) -> bool
    requires { IsNode doc.now n }
    ensures { (values : Forest) → IsAt doc.now n values → result ≡ is_map (kind_of values) }
{
    doc.is_map(n)
}

// Whether the value is a text.
fn is_text(doc: &Doc<'_>, n: Node) -> bool
    requires { IsNode doc.now n }
    ensures { (values : Forest) → IsAt doc.now n values → result ≡ is_text (kind_of values) }
{
    doc.is_text(n)
}

// The member of this name, if it is there.
#[tactic(auto, unfolding(crate::specs::Listed::member_of))]
fn member_of(doc: &Doc<'_>, n: Node, name: &[u8]) -> Option<Node>
    requires { IsNode doc.now n }
    ensures node { IfSome result (IsNode doc.now) }
    ensures found { (values : Forest) → IsAt doc.now n values → IsFound doc.now result (member_of (bytes_read doc.now) name.now values) }
{
    doc.member_unless_null(n, name)
}

// The text that a value is.
fn as_text(alloc: Global, doc: &Doc<'_>, n: Node, field: &'static str) -> Result<Text, FieldErr>
    requires { IsNode doc.now n }
    ensures { (values : Forest) → IsAt doc.now n values → IsRead result (as_text (bytes_read doc.now) field.now values) }
{
    if !is_text(doc, n) {
        return Err(wrong(alloc, field));
    }
    match doc.text_of(alloc, n) {
        Ok(text) => Ok(text),
        Err(_) => Err(FieldErr::NoMemory),
    }
}

fn text_or_none(
    alloc: Global,
    doc: &Doc<'_>,
    found: Option<Node>,
    field: &'static str,
) -> Result<Option<Text>, FieldErr>
    requires { IfSome found (IsNode doc.now) }
    ensures { (values : Option Forest) → IsFound doc.now found values → IsRead result (text_or_none (bytes_read doc.now) field.now values) }
{
    match found {
        Some(n) => match as_text(alloc, doc, n, field) {
            Ok(text) => Ok(Some(text)),
            Err(error) => Err(error),
        },
        None => Ok(None),
    }
}

// The text of a member, which may be absent.
#[tactic(auto, unfolding(crate::specs::Listed::text_in))]
fn text_in(
    alloc: Global,
    doc: &Doc<'_>,
    n: Node,
    field: &'static str,
    name: &[u8],
) -> Result<Option<Text>, FieldErr>
    requires { IsNode doc.now n }
    ensures { (values : Forest) → IsAt doc.now n values → IsRead result (text_in (bytes_read doc.now) field.now name.now values) }
{
    text_or_none(alloc, doc, member_of(doc, n, name), field)
}

fn or_missing(alloc: Global, field: &'static str, text: Option<Text>) -> Result<Text, FieldErr>
    ensures { IsRead result (or_missing field.now text) }
{
    match text {
        Some(text) => Ok(text),
        None => Err(missing(alloc, field)),
    }
}

// The text of a member, which must be there.
fn needed_in(
    alloc: Global,
    doc: &Doc<'_>,
    n: Node,
    field: &'static str,
    name: &[u8],
) -> Result<Text, FieldErr>
    requires { IsNode doc.now n }
    ensures { (values : Forest) → IsAt doc.now n values → IsRead result (needed_in (bytes_read doc.now) field.now name.now values) }
{
    match text_in(alloc, doc, n, field, name) {
        Ok(text) => or_missing(alloc, field, text),
        Err(error) => Err(error),
    }
}

// A rule's members.
fn rule_members(alloc: Global, doc: &Doc<'_>, n: Node) -> Result<RuleText, FieldErr>
    requires { IsNode doc.now n }
    ensures { (values : Forest) → IsAt doc.now n values → IsRead result (rule_members (bytes_read doc.now) values) }
{
    let condition = match needed_in(alloc, doc, n, "routes.rules", b"match") {
        Ok(condition) => condition,
        Err(error) => return Err(error),
    };
    match needed_in(alloc, doc, n, "routes.rules", b"path") {
        Ok(path) => match with_slash(alloc, path) {
            Ok(path) => Ok(RuleText { condition, path }),
            Err(_) => Err(FieldErr::NoMemory),
        },
        Err(error) => Err(error),
    }
}

// The rule that an item is.
fn rule_of(alloc: Global, doc: &Doc<'_>, n: Node) -> Result<RuleText, FieldErr>
    requires { IsNode doc.now n }
    ensures { (values : Forest) → IsAt doc.now n values → IsRead result (rule_of (bytes_read doc.now) values) }
{
    if is_map(doc, n) {
        rule_members(alloc, doc, n)
    } else {
        Err(wrong(alloc, "routes.rules"))
    }
}

// The rules that the items of a list are.
fn rules_of_list(alloc: Global, doc: &Doc<'_>, n: Node) -> Result<RuleTexts, FieldErr>
    requires { IsNode doc.now n }
    ensures { (values : Forest) → IsAt doc.now n values → IsRead result (rules_from (bytes_read doc.now) [] (held values)) }
{
    let mut here = doc.first(n);
    let mut rules = Sequence::new(alloc);
    loop {
        match here {
            Some(item) => match rule_of(alloc, doc, item) {
                Ok(rule) => match rules.push(rule) {
                    Ok(()) => here = doc.next(item),
                    Err(_) => return Err(FieldErr::NoMemory),
                },
                Err(error) => return Err(error),
            },
            None => return Ok(rules),
        }
    }
}

fn rules_of(alloc: Global, doc: &Doc<'_>, found: Option<Node>) -> Result<RuleTexts, FieldErr>
    requires { IfSome found (IsNode doc.now) }
    ensures { (values : Option Forest) → IsFound doc.now found values → IsRead result (rules_of (bytes_read doc.now) values) }
{
    match found {
        Some(n) => {
            if is_list(doc, n) {
                rules_of_list(alloc, doc, n)
            } else {
                Err(wrong(alloc, "routes.rules"))
            }
        }
        None => Ok(Sequence::new(alloc)),
    }
}

// Rules, and the path where none of them answers yes.
fn routes_members(alloc: Global, doc: &Doc<'_>, n: Node) -> Result<Routes, FieldErr>
    requires { IsNode doc.now n }
    ensures { (values : Forest) → IsAt doc.now n values → IsRead result (routes_members (bytes_read doc.now) values) }
{
    let rules = match rules_of(alloc, doc, member_of(doc, n, b"rules")) {
        Ok(rules) => rules,
        Err(error) => return Err(error),
    };
    let default = match text_in(alloc, doc, n, "routes.default", b"default") {
        Ok(default) => default,
        Err(error) => return Err(error),
    };
    match path_said(alloc, default) {
        Ok(path) => some_route(alloc, "routes", rules, path),
        Err(error) => Err(error),
    }
}

// The one route of an item.
fn route_of(alloc: Global, doc: &Doc<'_>, n: Node) -> Result<Routes, FieldErr>
    requires { IsNode doc.now n }
    ensures { (item : Forest) → IsAt doc.now n item → IsRead result (routes_or_route (bytes_read doc.now) item None) }
{
    match text_in(alloc, doc, n, "route", b"route") {
        Ok(path) => one_route(alloc, "routes", path),
        Err(error) => Err(error),
    }
}

// The routes that a value is.
fn routes_of_value(alloc: Global, doc: &Doc<'_>, n: Node) -> Result<Routes, FieldErr>
    requires { IsNode doc.now n }
    ensures { (item values : Forest) → IsAt doc.now n values → IsRead result (routes_or_route (bytes_read doc.now) item (Some values)) }
{
    if is_map(doc, n) {
        routes_members(alloc, doc, n)
    } else {
        Err(wrong(alloc, "routes"))
    }
}

// The routes of an item: `routes`, or else the one `route`.
fn routes_of(alloc: Global, doc: &Doc<'_>, n: Node) -> Result<Routes, FieldErr>
    requires { IsNode doc.now n }
    ensures { (item : Forest) → IsAt doc.now n item → IsRead result (routes_of (bytes_read doc.now) item) }
{
    match member_of(doc, n, b"routes") {
        Some(routes) => routes_of_value(alloc, doc, routes),
        None => route_of(alloc, doc, n),
    }
}

// An item's members.
fn draft_members(alloc: Global, doc: &Doc<'_>, n: Node) -> Result<Draft, FieldErr>
    requires { IsNode doc.now n }
    ensures { (item : Forest) → IsAt doc.now n item → IsRead result (draft_members (bytes_read doc.now) item) }
{
    let pubsub = match needed_in(alloc, doc, n, "pubsubname", b"pubsubname") {
        Ok(pubsub) => pubsub,
        Err(error) => return Err(error),
    };
    let topic = match needed_in(alloc, doc, n, "topic", b"topic") {
        Ok(topic) => topic,
        Err(error) => return Err(error),
    };
    let routes = match routes_of(alloc, doc, n) {
        Ok(routes) => routes,
        Err(error) => return Err(error),
    };
    match text_in(alloc, doc, n, "deadLetterTopic", b"deadLetterTopic") {
        Ok(dead) => Ok(Draft {
            pubsub,
            topic,
            rules: routes.rules,
            default: routes.default,
            dead,
        }),
        Err(error) => Err(error),
    }
}

// The subscription that an item is.
fn draft_of(alloc: Global, doc: &Doc<'_>, n: Node) -> Result<Draft, FieldErr>
    requires { IsNode doc.now n }
    ensures { (item : Forest) → IsAt doc.now n item → IsRead result (draft_of (bytes_read doc.now) item) }
{
    if is_map(doc, n) {
        draft_members(alloc, doc, n)
    } else {
        Err(wrong(alloc, "list"))
    }
}

// The draft, unless its topic is its own dead-letter topic.
fn unless_own(alloc: Global, draft: Draft) -> Result<Draft, SubErr>
    ensures { IsSaid result (unless_self draft.topic draft) }
{
    match draft.topic.copy() {
        Ok(name) => unless_self(alloc, name.as_str(), draft),
        Err(_) => Err(SubErr::NoMemory),
    }
}

/// The subscription that the item at this place is.
pub(crate) fn item_at(alloc: Global, doc: &Doc<'_>, place: usize, n: Node) -> Result<Draft, SubErr>
    requires { IsNode doc.now n }
    ensures { (item : Forest) → IsAt doc.now n item → IsSaid result (item_draft (bytes_read doc.now) place item) }
{
    match draft_of(alloc, doc, n) {
        Ok(draft) => unless_own(alloc, draft),
        Err(error) => Err(in_document(place, error)),
    }
}
