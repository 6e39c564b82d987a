// The policies of a document.
ghost use Rattle.std.specs.Prelude.{◌≡◌, ◌≤◌, ℕ, List, [], ◌∷◌, Some, None, Ok, Err, codes, option_map, unwrap_or, bytes_eq, IfSome, length};
ghost use Rattle.yaml_subset.specs.Docs.{IsPart, row_of, told_of, IsFirst};
ghost use Rattle.yaml_subset.specs.Texts.{texts};
ghost use Rattle.yaml_subset.specs.Trees.{Trees};
ghost use Rattle.resource_spec.specs.Document.{IsRead};
ghost use Rattle.resource_spec.specs.Field.{with_name, text_of, IsFieldErr, IsAsked};
ghost use Rattle.policy_spec.specs.Policy.{known, text_with_default, member_says, whole, retries_said, requests_said, is_exponential, timeout_said, without_matching, retry_said, breaker_said, policy_said, mapping_of, mapping_at};
ghost use Rattle.policy_spec.specs.Readers.{Readers, AreReaders};

use crate::millis::Millis;
use crate::policy::{Policy, Section};
use resource_spec::{FieldErr, field_of, part_text, said};
use retry_core::{Trip, trip_of};
use side_base::{Text, duration_ms, number_of, split_digits};
use std::alloc::Global;
use yaml_subset::{At, Docs, Part, PartKind};

fn duration(text: &str) -> Option<Millis>
    ensures { (readers : Readers) → AreReaders readers → result ≡ readers.duration text.now }
{
    match duration_ms(text.as_bytes()) {
        Ok(ms) => Some(Millis::new(ms)),
        Err(_) => None,
    }
}

fn trip(text: &str) -> Option<Trip>
    ensures { (readers : Readers) → AreReaders readers → result ≡ readers.trip text.now }
{
    match trip_of(text.as_bytes()) {
        Ok(trip) => Some(trip),
        Err(_) => None,
    }
}

fn whole_number(text: &str) -> Option<u32>
    ensures { result ≡ whole text.now }
{
    let (digits, rest) = split_digits(text.as_bytes());
    let number = number_of(digits);
    if !text.is_empty() && rest.is_empty() && number <= 4294967295 {
        Some(number as u32)
    } else {
        None
    }
}

fn retries(text: &str) -> Option<Option<u32>>
    ensures { result ≡ retries_said text.now }
{
    if text == "-1" {
        return Some(None);
    }
    match whole_number(text) {
        Some(number) => Some(Some(number)),
        None => None,
    }
}

fn requests(text: &str) -> Option<u32>
    ensures { result ≡ requests_said text.now }
{
    match whole_number(text) {
        Some(number) => { if number == 0 { None } else { Some(number) } }
        None => None,
    }
}

fn exponential(text: &str) -> Option<bool>
    ensures { result ≡ is_exponential text.now }
{
    match text {
        "constant" => Some(false),
        "exponential" => Some(true),
        _ => None,
    }
}

// The refusal of a member of a part that is this field.
fn wrong_member(alloc: Global, field: &str, name: &str) -> FieldErr
    ensures { IsFieldErr {T = Unit {0}} result (Err (FieldErr.Wrong (with_name field.now name.now))) }
{
    match field_of(alloc, field, &[name], 1) {
        Ok(field) => FieldErr::Wrong { field },
        Err(_) => FieldErr::NoMemory,
    }
}

/// The refusal of a field.
pub(crate) fn wrong_field(alloc: Global, field: &str) -> FieldErr
    ensures { IsFieldErr {T = Unit {0}} result (Err (FieldErr.Wrong field.now)) }
{
    match Text::from_str(alloc, field) {
        Ok(field) => FieldErr::Wrong { field },
        Err(_) => FieldErr::NoMemory,
    }
}

// The text of a member, or this one where it is absent.
fn text_or<'a>(
    alloc: Global,
    docs: &'a Docs,
    p: Part,
    field: &str,
    name: &str,
    default: &'static str,
) -> Result<&'a str, FieldErr>
    requires { IsPart docs.now p }
    ensures { IsAsked result (text_with_default field.now name.now default.now (row_of docs.now p)) }
{
    match said(alloc, docs, p, field, &[name]) {
        Ok(Some(text)) => Ok(text),
        Ok(None) => Ok(default),
        Err(error) => Err(error),
    }
}

fn duration_at(
    alloc: Global,
    docs: &Docs,
    p: Part,
    field: &str,
    name: &str,
    default: &'static str,
) -> Result<Millis, FieldErr>
    requires { IsPart docs.now p }
    ensures { (readers : Readers) → AreReaders readers → IsRead result (member_says readers.duration field.now name.now default.now (row_of docs.now p)) }
{
    match text_or(alloc, docs, p, field, name, default) {
        Ok(text) => match duration(text) {
            Some(ms) => Ok(ms),
            None => Err(wrong_member(alloc, field, name)),
        },
        Err(error) => Err(error),
    }
}

fn trip_at(
    alloc: Global,
    docs: &Docs,
    p: Part,
    field: &str,
    name: &str,
    default: &'static str,
) -> Result<Trip, FieldErr>
    requires { IsPart docs.now p }
    ensures { (readers : Readers) → AreReaders readers → IsRead result (member_says readers.trip field.now name.now default.now (row_of docs.now p)) }
{
    match text_or(alloc, docs, p, field, name, default) {
        Ok(text) => match trip(text) {
            Some(trip) => Ok(trip),
            None => Err(wrong_member(alloc, field, name)),
        },
        Err(error) => Err(error),
    }
}

fn retries_at(
    alloc: Global,
    docs: &Docs,
    p: Part,
    field: &str,
    name: &str,
    default: &'static str,
) -> Result<Option<u32>, FieldErr>
    requires { IsPart docs.now p }
    ensures { IsRead result (member_says retries_said field.now name.now default.now (row_of docs.now p)) }
{
    match text_or(alloc, docs, p, field, name, default) {
        Ok(text) => match retries(text) {
            Some(number) => Ok(number),
            None => Err(wrong_member(alloc, field, name)),
        },
        Err(error) => Err(error),
    }
}

fn requests_at(
    alloc: Global,
    docs: &Docs,
    p: Part,
    field: &str,
    name: &str,
    default: &'static str,
) -> Result<u32, FieldErr>
    requires { IsPart docs.now p }
    ensures { IsRead result (member_says requests_said field.now name.now default.now (row_of docs.now p)) }
{
    match text_or(alloc, docs, p, field, name, default) {
        Ok(text) => match requests(text) {
            Some(number) => Ok(number),
            None => Err(wrong_member(alloc, field, name)),
        },
        Err(error) => Err(error),
    }
}

fn exponential_at(
    alloc: Global,
    docs: &Docs,
    p: Part,
    field: &str,
    name: &str,
    default: &'static str,
) -> Result<bool, FieldErr>
    requires { IsPart docs.now p }
    ensures { IsRead result (member_says is_exponential field.now name.now default.now (row_of docs.now p)) }
{
    match text_or(alloc, docs, p, field, name, default) {
        Ok(text) => match exponential(text) {
            Some(is) => Ok(is),
            None => Err(wrong_member(alloc, field, name)),
        },
        Err(error) => Err(error),
    }
}

// The timeout that a part is.
fn timeout_of(alloc: Global, docs: &Docs, p: Part, field: &str) -> Result<Policy, FieldErr>
    requires { IsPart docs.now p }
    ensures { (readers : Readers) → AreReaders readers → IsRead result (timeout_said readers field.now (text_of (told_of (row_of docs.now p)))) }
{
    match part_text(docs, p) {
        Some(text) => match duration(text) {
            Some(ms) => Ok(Policy::Timeout(ms)),
            None => Err(wrong_field(alloc, field)),
        },
        None => Err(wrong_field(alloc, field)),
    }
}

// This policy, if the part has no member `matching`.
fn unless_matching(
    alloc: Global,
    docs: &Docs,
    p: Part,
    field: &str,
    policy: Policy,
) -> Result<Policy, FieldErr>
    requires { IsPart docs.now p }
    ensures { IsRead result (without_matching field.now (row_of docs.now p) policy) }
{
    match docs.get(p, b"matching") {
        Some(_) => Err(wrong_member(alloc, field, "matching")),
        None => Ok(policy),
    }
}

// The retry policy that a part is.
fn retry_of(alloc: Global, docs: &Docs, p: Part, field: &str) -> Result<Policy, FieldErr>
    requires { IsPart docs.now p }
    ensures { (readers : Readers) → AreReaders readers → IsRead result (retry_said readers field.now (row_of docs.now p)) }
{
    let exponential = match exponential_at(alloc, docs, p, field, "policy", "constant") {
        Ok(exponential) => exponential,
        Err(error) => return Err(error),
    };
    let wait = match duration_at(alloc, docs, p, field, "duration", "5s") {
        Ok(wait) => wait,
        Err(error) => return Err(error),
    };
    let most = match duration_at(alloc, docs, p, field, "maxInterval", "60s") {
        Ok(most) => most,
        Err(error) => return Err(error),
    };
    let max_retries = match retries_at(alloc, docs, p, field, "maxRetries", "-1") {
        Ok(max_retries) => max_retries,
        Err(error) => return Err(error),
    };
    let policy = Policy::Retry {
        exponential,
        wait,
        most,
        max_retries,
    };
    unless_matching(alloc, docs, p, field, policy)
}

// The breaker that a part is.
fn breaker_of(alloc: Global, docs: &Docs, p: Part, field: &str) -> Result<Policy, FieldErr>
    requires { IsPart docs.now p }
    ensures { (readers : Readers) → AreReaders readers → IsRead result (breaker_said readers field.now (row_of docs.now p)) }
{
    let max_requests = match requests_at(alloc, docs, p, field, "maxRequests", "1") {
        Ok(max_requests) => max_requests,
        Err(error) => return Err(error),
    };
    let interval = match duration_at(alloc, docs, p, field, "interval", "0s") {
        Ok(interval) => interval,
        Err(error) => return Err(error),
    };
    let timeout = match duration_at(alloc, docs, p, field, "timeout", "60s") {
        Ok(timeout) => timeout,
        Err(error) => return Err(error),
    };
    match trip_at(alloc, docs, p, field, "trip", "consecutiveFailures > 5") {
        Ok(trip) => Ok(Policy::Breaker {
            max_requests,
            interval,
            timeout,
            trip,
        }),
        Err(error) => Err(error),
    }
}

/// The policy that a member of a section is.
pub(crate) fn policy_of(
    alloc: Global,
    docs: &Docs,
    p: Part,
    section: Section,
    field: &str,
) -> Result<Policy, FieldErr>
    requires { IsPart docs.now p }
    ensures { (readers : Readers) → AreReaders readers → IsRead result (policy_said readers section field.now (row_of docs.now p)) }
{
    match section {
        Section::Timeouts => timeout_of(alloc, docs, p, field),
        Section::Retries => retry_of(alloc, docs, p, field),
        Section::Breakers => breaker_of(alloc, docs, p, field),
    }
}
