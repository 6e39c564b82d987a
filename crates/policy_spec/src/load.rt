// The policies of a file.
ghost use Rattle.std.specs.Prelude.{◌≡◌, ◌++◌, ℕ, List, [], ◌∷◌, length, codes, Some, None, Ok, Err, option_map, is_some, IfSome};
ghost use Rattle.yaml_subset.specs.Docs.{IsPart, row_of, told_of, member, IsFirst};
ghost use Rattle.yaml_subset.specs.Trees.{Trees};
ghost use Rattle.resource_spec.specs.Document.{IsRead};
ghost use Rattle.resource_spec.specs.Field.{with_name};
ghost use Rattle.policy_spec.specs.Readers.{Readers, AreReaders};
ghost use Rattle.policy_spec.specs.Shown.{tables_shown, IsTables};
ghost use Rattle.policy_spec.specs.Resiliency.{err_in, named_in, chosen, choice_said, target_put, app_put, apps_from, direction_put, is_mapping_or_empty, component_put, directions_put, tested_put, components_from, app_targets_put, component_targets_put, targets_put, tables_said, named_document, document_loaded, loaded, nothing_bound, IsPolicyErr, IsLoad, IsChange};

use crate::choice::{Choice, Side};
use crate::policy::{Policy, Section};
use crate::policy_err::PolicyErr;
use crate::policy_list::Policies;
use crate::read::wrong_field;
use crate::section::{Table, first_at, own_field, section_of};
use resource_spec::{FieldErr, field_of, head, said};
use side_base::Text;
use std::alloc::Global;
use yaml_subset::{Docs, Part, PartKind};

// The policies of a document, by their names.
#[derive(Drop)]
struct Tables {
    timeouts: Table,
    retries: Table,
    breakers: Table,
}

fn in_document(doc: usize, error: FieldErr) -> PolicyErr
    ensures { result ≡ err_in doc error }
{
    match error {
        FieldErr::Missing { field } => PolicyErr::Missing { doc, field },
        FieldErr::Wrong { field } => PolicyErr::Wrong { doc, field },
        FieldErr::NoMemory => PolicyErr::NoMemory,
    }
}

// The policy of this name, if there is a name.
fn policy_named(
    alloc: Global,
    table: &Table,
    name: Option<&str>,
) -> Result<Option<Policy>, PolicyErr>
    ensures { IsLoad result (named_in table.now (option_map (λ t. t.now) name.entry)) }
{
    match name {
        Some(name) => match table.find(name) {
            Some(policy) => Ok(Some(policy)),
            None => match Text::from_str(alloc, name) {
                Ok(name) => Err(PolicyErr::NoSuchPolicy { name }),
                Err(_) => Err(PolicyErr::NoMemory),
            },
        },
        None => Ok(None),
    }
}

// The policy that a member of a target names.
fn chosen_at(
    alloc: Global,
    docs: &Docs,
    doc: usize,
    p: Part,
    field: &str,
    name: &str,
    table: &Table,
) -> Result<Option<Policy>, PolicyErr>
    requires { IsPart docs.now p }
    ensures { IsLoad result (chosen doc field.now name.now table.now (row_of docs.now p)) }
{
    match said(alloc, docs, p, field, &[name]) {
        Ok(name) => policy_named(alloc, table, name),
        Err(error) => Err(in_document(doc, error)),
    }
}

// What a target names.
fn choice_at(
    alloc: Global,
    docs: &Docs,
    doc: usize,
    p: Part,
    field: &str,
    tables: &Tables,
) -> Result<Choice, PolicyErr>
    requires { IsPart docs.now p }
    ensures { IsLoad result (choice_said doc (tables_shown tables.now) field.now (row_of docs.now p)) }
{
    let timeout = match chosen_at(alloc, docs, doc, p, field, "timeout", &tables.timeouts) {
        Ok(timeout) => timeout,
        Err(error) => return Err(error),
    };
    let retry = match chosen_at(alloc, docs, doc, p, field, "retry", &tables.retries) {
        Ok(retry) => retry,
        Err(error) => return Err(error),
    };
    match chosen_at(
        alloc,
        docs,
        doc,
        p,
        field,
        "circuitBreaker",
        &tables.breakers,
    ) {
        Ok(breaker) => Ok(Choice {
            timeout,
            retry,
            breaker,
        }),
        Err(error) => Err(error),
    }
}

// Binds a target of this field and name.
fn put_target(
    alloc: Global,
    docs: &Docs,
    doc: usize,
    p: Part,
    field: &str,
    tables: &Tables,
    side: Side,
    name: &str,
    all: &mut Policies,
) -> Result<(), PolicyErr>
    requires { IsPart docs.now p }
    ensures { IsChange result all.new (target_put doc (tables_shown tables.now) field.now side name.now all.old (row_of docs.now p)) }
{
    match choice_at(alloc, docs, doc, p, field, tables) {
        Ok(choice) => all.put(alloc, side, name, choice),
        Err(error) => Err(error),
    }
}

// Binds an app's target.
fn put_app(
    alloc: Global,
    docs: &Docs,
    doc: usize,
    p: Part,
    tables: &Tables,
    all: &mut Policies,
) -> Result<(), PolicyErr>
    requires { IsPart docs.now p }
    ensures { IsChange result all.new (app_put doc (tables_shown tables.now) all.old (row_of docs.now p)) }
{
    match own_field(alloc, "spec.targets.apps", docs.name(p)) {
        Ok((name, own)) => put_target(
            alloc,
            docs,
            doc,
            p,
            own.as_str(),
            tables,
            Side::App,
            name,
            all,
        ),
        Err(error) => Err(in_document(doc, error)),
    }
}

// Binds the targets of all apps, from the first on.
fn put_apps(
    alloc: Global,
    docs: &Docs,
    doc: usize,
    members: Option<Part>,
    tables: &Tables,
    all: &mut Policies,
) -> Result<(), PolicyErr>
    requires { IfSome members (IsPart docs.now) }
    ensures { (row : Trees) → IsFirst docs.now row members → IsChange result all.new (apps_from doc (tables_shown tables.now) all.old row) }
{
    let mut here = members;
    loop {
        match here {
            Some(p) => {
                match put_app(alloc, docs, doc, p, tables, all) {
                    Ok(()) => here = docs.next(p),
                    Err(error) => return Err(error),
                }
            }
            None => return Ok(()),
        }
    }
}

// Binds one direction of a component, if it is there.
fn put_direction(
    alloc: Global,
    docs: &Docs,
    doc: usize,
    p: Part,
    field: &str,
    direction: &'static str,
    tables: &Tables,
    side: Side,
    name: &str,
    all: &mut Policies,
) -> Result<(), PolicyErr>
    requires { IsPart docs.now p }
    ensures { IsChange result all.new (direction_put doc (tables_shown tables.now) (with_name field.now direction.now) side name.now all.old (member direction.now (row_of docs.now p))) }
{
    match docs.get(p, direction.as_bytes()) {
        Some(part) => match field_of(alloc, field, &[direction], 1) {
            Ok(own) => put_target(
                alloc,
                docs,
                doc,
                part,
                own.as_str(),
                tables,
                side,
                name,
                all,
            ),
            Err(_) => Err(PolicyErr::NoMemory),
        },
        None => Ok(()),
    }
}

// Tests that a part can have members.
fn test_mapping(alloc: Global, field: &str, kind: PartKind) -> Result<(), FieldErr>
    ensures { IsRead result (is_mapping_or_empty field.now kind) }
{
    match kind {
        PartKind::Mapping => Ok(()),
        PartKind::Empty => Ok(()),
        PartKind::Scalar => Err(wrong_field(alloc, field)),
        PartKind::Sequence => Err(wrong_field(alloc, field)),
    }
}

// Binds both directions of a component of this field and name.
fn put_directions(
    alloc: Global,
    docs: &Docs,
    doc: usize,
    p: Part,
    field: &str,
    tables: &Tables,
    name: &str,
    all: &mut Policies,
) -> Result<(), PolicyErr>
    requires { IsPart docs.now p }
    ensures { IsChange result all.new (directions_put doc (tables_shown tables.now) field.now name.now all.old (row_of docs.now p)) }
{
    match put_direction(
        alloc,
        docs,
        doc,
        p,
        field,
        "outbound",
        tables,
        Side::Outbound,
        name,
        all,
    ) {
        Ok(()) => put_direction(
            alloc,
            docs,
            doc,
            p,
            field,
            "inbound",
            tables,
            Side::Inbound,
            name,
            all,
        ),
        Err(error) => Err(error),
    }
}

// Binds both directions of a component that can have them.
fn put_tested(
    alloc: Global,
    docs: &Docs,
    doc: usize,
    p: Part,
    field: &str,
    tables: &Tables,
    name: &str,
    all: &mut Policies,
) -> Result<(), PolicyErr>
    requires { IsPart docs.now p }
    ensures { IsChange result all.new (tested_put doc (tables_shown tables.now) field.now name.now all.old (row_of docs.now p)) }
{
    match test_mapping(alloc, field, docs.kind(p)) {
        Ok(()) => put_directions(alloc, docs, doc, p, field, tables, name, all),
        Err(error) => Err(in_document(doc, error)),
    }
}

// Binds a component's targets.
fn put_component(
    alloc: Global,
    docs: &Docs,
    doc: usize,
    p: Part,
    tables: &Tables,
    all: &mut Policies,
) -> Result<(), PolicyErr>
    requires { IsPart docs.now p }
    ensures { IsChange result all.new (component_put doc (tables_shown tables.now) all.old (row_of docs.now p)) }
{
    match own_field(alloc, "spec.targets.components", docs.name(p)) {
        Ok((name, own)) => put_tested(alloc, docs, doc, p, own.as_str(), tables, name, all),
        Err(error) => Err(in_document(doc, error)),
    }
}

// Binds the targets of all components, from the first on.
fn put_components(
    alloc: Global,
    docs: &Docs,
    doc: usize,
    members: Option<Part>,
    tables: &Tables,
    all: &mut Policies,
) -> Result<(), PolicyErr>
    requires { IfSome members (IsPart docs.now) }
    ensures { (row : Trees) → IsFirst docs.now row members → IsChange result all.new (components_from doc (tables_shown tables.now) all.old row) }
{
    let mut here = members;
    loop {
        match here {
            Some(p) => {
                match put_component(alloc, docs, doc, p, tables, all) {
                    Ok(()) => here = docs.next(p),
                    Err(error) => return Err(error),
                }
            }
            None => return Ok(()),
        }
    }
}

// The policies of a document.
fn tables_of(alloc: Global, docs: &Docs, p: Part) -> Result<Tables, FieldErr>
    requires { IsPart docs.now p }
    ensures { (readers : Readers) → AreReaders readers → IsTables result (tables_said readers (row_of docs.now p)) }
{
    let timeouts = match section_of(alloc, docs, p, Section::Timeouts) {
        Ok(timeouts) => timeouts,
        Err(error) => return Err(error),
    };
    let retries = match section_of(alloc, docs, p, Section::Retries) {
        Ok(retries) => retries,
        Err(error) => return Err(error),
    };
    match section_of(alloc, docs, p, Section::Breakers) {
        Ok(breakers) => Ok(Tables {
            timeouts,
            retries,
            breakers,
        }),
        Err(error) => Err(error),
    }
}

// Binds the targets that are apps.
fn put_app_targets(
    alloc: Global,
    docs: &Docs,
    doc: usize,
    p: Part,
    tables: &Tables,
    all: &mut Policies,
) -> Result<(), PolicyErr>
    requires { IsPart docs.now p }
    ensures { IsChange result all.new (app_targets_put doc (tables_shown tables.now) all.old (row_of docs.now p)) }
{
    match first_at(alloc, docs, p, &["spec", "targets", "apps"]) {
        Ok(members) => put_apps(alloc, docs, doc, members, tables, all),
        Err(error) => Err(in_document(doc, error)),
    }
}

// Binds the targets that are components.
fn put_component_targets(
    alloc: Global,
    docs: &Docs,
    doc: usize,
    p: Part,
    tables: &Tables,
    all: &mut Policies,
) -> Result<(), PolicyErr>
    requires { IsPart docs.now p }
    ensures { IsChange result all.new (component_targets_put doc (tables_shown tables.now) all.old (row_of docs.now p)) }
{
    match first_at(alloc, docs, p, &["spec", "targets", "components"]) {
        Ok(members) => put_components(alloc, docs, doc, members, tables, all),
        Err(error) => Err(in_document(doc, error)),
    }
}

// Binds all targets of a document.
fn put_targets(
    alloc: Global,
    docs: &Docs,
    doc: usize,
    p: Part,
    tables: &Tables,
    all: &mut Policies,
) -> Result<(), PolicyErr>
    requires { IsPart docs.now p }
    ensures { IsChange result all.new (targets_put doc (tables_shown tables.now) all.old (row_of docs.now p)) }
{
    match put_app_targets(alloc, docs, doc, p, tables, all) {
        Ok(()) => put_component_targets(alloc, docs, doc, p, tables, all),
        Err(error) => Err(error),
    }
}

// Binds the targets of a document that has a name.
fn put_named(
    alloc: Global,
    docs: &Docs,
    doc: usize,
    p: Part,
    name: Option<&str>,
    all: &mut Policies,
) -> Result<(), PolicyErr>
    requires { IsPart docs.now p }
    ensures { (readers : Readers) → AreReaders readers → IsChange result all.new (named_document readers doc all.old (row_of docs.now p) (option_map (λ t. t.now) name.entry)) }
{
    match name {
        Some(_) => match tables_of(alloc, docs, p) {
            Ok(tables) => put_targets(alloc, docs, doc, p, &tables, all),
            Err(error) => Err(in_document(doc, error)),
        },
        None => Ok(()),
    }
}

// Binds the targets of a document, if it is one of resiliency.
fn put_document(
    alloc: Global,
    docs: &Docs,
    doc: usize,
    p: Part,
    app: &Text,
    all: &mut Policies,
) -> Result<(), PolicyErr>
    requires { IsPart docs.now p }
    ensures { (readers : Readers) → AreReaders readers → IsChange result all.new (document_loaded readers app.now doc all.old (row_of docs.now p)) }
{
    match head(alloc, docs, p, "Resiliency", "dapr.io/v1alpha1", app) {
        Ok(name) => put_named(alloc, docs, doc, p, name, all),
        Err(error) => Err(in_document(doc, error)),
    }
}

/// What the resiliency documents of a file bind to targets, for this app. Documents of other kinds, and those that are for
/// other apps alone, are passed over. Of all documents the first that is refused counts; `docs/RESOURCES.md` has the order of
/// the tests of one.
pub fn policies(alloc: Global, docs: &Docs, app: &Text) -> Result<Policies, PolicyErr>
    ensures { (readers : Readers) → AreReaders readers → IsLoad result (loaded readers app.now 0 nothing_bound docs.now) }
{
    let count = docs.count();
    let mut here = docs.root(0);
    let mut all = Policies::new(alloc);
    for doc in 0..count {
        match here {
            Some(p) => {
                match put_document(alloc, docs, doc, p, app, &mut all) {
                    Ok(()) => here = docs.next(p),
                    Err(error) => return Err(error),
                }
            }
            None => return Ok(all),
        }
    }
    Ok(all)
}
