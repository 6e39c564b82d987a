// The policies of a section of a document.
ghost use Rattle.std.specs.Prelude.{◌≡◌, ℕ, List, [], Ok, Err, IfSome, OnOk, length};
ghost use Rattle.yaml_subset.specs.Docs.{IsPart, row_of, IsFirst};
ghost use Rattle.yaml_subset.specs.Texts.{texts};
ghost use Rattle.yaml_subset.specs.Trees.{Trees};
ghost use Rattle.resource_spec.specs.Document.{IsRead};
ghost use Rattle.resource_spec.specs.Field.{field_at, IsFieldErr};
ghost use Rattle.policy_spec.specs.Named.{put_under};
ghost use Rattle.policy_spec.specs.Policy.{IsMembers, IsOwnField, IsPut, member_field, policy_put, policies_from, section_said, section_name, section_field, mapping_of, mapping_at};
ghost use Rattle.policy_spec.specs.Readers.{Readers, AreReaders};

use crate::named::Named;
use crate::policy::{Policy, Section};
use crate::read::policy_of;
use resource_spec::{FieldErr, field_of};
use side_base::{NoMemory, Text};
use std::alloc::Global;
use yaml_subset::{At, Docs, Part, PartKind};

/// The policies of one section, by their names.
pub(crate) type Table = Named<Policy>;

fn wrong_path(alloc: Global, path: &[&str], passed: usize) -> FieldErr
    ensures { IsFieldErr {T = Unit {0}} result (Err (FieldErr.Wrong (field_at [] (texts path.now) passed))) }
{
    match field_of(alloc, "", path, passed) {
        Ok(field) => FieldErr::Wrong { field },
        Err(_) => FieldErr::NoMemory,
    }
}

// The first member of a part, if it is a mapping.
fn members_of(alloc: Global, docs: &Docs, path: &[&str], p: Part) -> Result<Option<Part>, FieldErr>
    requires { IsPart docs.now p }
    ensures { IsMembers docs.now result (mapping_of (field_at [] (texts path.now) (length path.now)) (row_of docs.now p)) }
{
    match docs.kind(p) {
        PartKind::Mapping => Ok(docs.first(p)),
        PartKind::Scalar => Err(wrong_path(alloc, path, path.len())),
        PartKind::Sequence => Err(wrong_path(alloc, path, path.len())),
        PartKind::Empty => Ok(None),
    }
}

/// The first member of the mapping at a path, if one is there.
pub(crate) fn first_at(
    alloc: Global,
    docs: &Docs,
    p: Part,
    path: &[&str],
) -> Result<Option<Part>, FieldErr>
    requires { IsPart docs.now p }
    ensures { IsMembers docs.now result (mapping_at (texts path.now) (row_of docs.now p)) }
{
    match docs.at(p, path) {
        At::Absent => Ok(None),
        At::Wrong(passed) => Err(wrong_path(alloc, path, passed)),
        At::Here(here) => members_of(alloc, docs, path, here),
    }
}

/// The field of a member of this name, and the name.
pub(crate) fn own_field<'a>(
    alloc: Global,
    field: &str,
    name: &'a [u8],
) -> Result<(&'a str, Text), FieldErr>
    ensures { IsOwnField name.now result (member_field field.now name.now) }
{
    match str::from_utf8(name) {
        Ok(name) => match field_of(alloc, field, &[name], 1) {
            Ok(own) => Ok((name, own)),
            Err(_) => Err(FieldErr::NoMemory),
        },
        Err(_) => match Text::from_str(alloc, field) {
            Ok(field) => Err(FieldErr::Wrong { field }),
            Err(_) => Err(FieldErr::NoMemory),
        },
    }
}

// Puts the policy of a member under its name.
fn put_policy(
    alloc: Global,
    docs: &Docs,
    p: Part,
    section: Section,
    field: &str,
    table: &mut Table,
) -> Result<(), FieldErr>
    requires { IsPart docs.now p }
    ensures { (readers : Readers) → AreReaders readers → IsPut result table.new (policy_put readers section field.now table.old (row_of docs.now p)) }
{
    match own_field(alloc, field, docs.name(p)) {
        Ok((name, own)) => match policy_of(alloc, docs, p, section, own.as_str()) {
            Ok(policy) => match put_named(alloc, table, name, policy) {
                Ok(()) => Ok(()),
                Err(_) => Err(FieldErr::NoMemory),
            },
            Err(error) => Err(error),
        },
        Err(error) => Err(error),
    }
}

fn put_named(alloc: Global, table: &mut Table, name: &str, policy: Policy) -> Result<(), NoMemory>
    ensures { OnOk result (table.new ≡ put_under table.old name.now policy) }
{
    let name = String::from_str(alloc, name)?;
    table.put(name, policy)
}

// The policies of a section's members, from the first on.
fn policies_of(
    alloc: Global,
    docs: &Docs,
    members: Option<Part>,
    section: Section,
    field: &str,
) -> Result<Table, FieldErr>
    requires { IfSome members (IsPart docs.now) }
    ensures { (readers : Readers) (row : Trees) → AreReaders readers → IsFirst docs.now row members → IsRead result (policies_from readers section field.now [] row) }
{
    let mut here = members;
    let mut table = Named::new(alloc);
    loop {
        match here {
            Some(p) => {
                match put_policy(alloc, docs, p, section, field, &mut table) {
                    Ok(()) => here = docs.next(p),
                    Err(error) => return Err(error),
                }
            }
            None => return Ok(table),
        }
    }
}

/// The policies of a section of a document.
pub(crate) fn section_of(
    alloc: Global,
    docs: &Docs,
    p: Part,
    section: Section,
) -> Result<Table, FieldErr>
    requires { IsPart docs.now p }
    ensures { (readers : Readers) → AreReaders readers → IsRead result (section_said readers section (row_of docs.now p)) }
{
    match first_at(alloc, docs, p, &["spec", "policies", name_of(section)]) {
        Ok(members) => policies_of(alloc, docs, members, section, field_of_section(section)),
        Err(error) => Err(error),
    }
}

fn name_of(section: Section) -> &'static str
    ensures { result.now ≡ section_name section }
{
    match section {
        Section::Timeouts => "timeouts",
        Section::Retries => "retries",
        Section::Breakers => "circuitBreakers",
    }
}

fn field_of_section(section: Section) -> &'static str
    ensures { result.now ≡ section_field section }
{
    match section {
        Section::Timeouts => "spec.policies.timeouts",
        Section::Retries => "spec.policies.retries",
        Section::Breakers => "spec.policies.circuitBreakers",
    }
}
