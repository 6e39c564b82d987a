// One component of a document.
ghost use Rattle.std.specs.Prelude.{◌≡◌, ◌↔◌, ℕ, List, [], ◌∷◌, Ok, Err, Some, codes, option_map, bytes_eq, if◌then◌else◌, IfOk, IfSome, unwrap_or};
ghost use Rattle.yaml_subset.specs.Docs.{IsPart, row_of, IsFirst};
ghost use Rattle.yaml_subset.specs.Trees.{Trees};
ghost use Rattle.resource_spec.specs.Component.{Loaded, HasNeeds, kind_name};
ghost use Rattle.resource_spec.specs.declared.component.ComponentKind.{ComponentKind};
ghost use Rattle.resource_spec.specs.Document.{IsRead};
ghost use Rattle.resource_spec.specs.Field.{field_at, text_at};
ghost use Rattle.resource_spec.specs.Follow.{follow};
ghost use Rattle.resource_spec.specs.Setting.{setting_named};
ghost use Rattle.resource_spec.specs.Load.{err_in, in_doc, type_named, needs_of, schedule_need, url_need, prefix_need, setting_in, settings_from, settings_listed, settings_in, component_by, component_in, IsSpecErr, IsLoad};

use crate::component::{Component, ComponentKind};
use crate::field::{asked, field_of, said};
use crate::field_err::FieldErr;
use crate::schedule::period_of;
use crate::setting::{Setting, Settings};
use crate::spec_err::SpecErr;
use crate::url::url_of;
use side_base::{NoMemory, Text};
use std::alloc::Global;
use yaml_subset::{At, Docs, Part, PartKind};

/// A refusal of a field, in the document of this number.
pub(crate) fn in_document(doc: usize, error: FieldErr) -> SpecErr
    ensures { result ≡ err_in doc error }
{
    match error {
        FieldErr::Missing { field } => SpecErr::Missing { doc, field },
        FieldErr::Wrong { field } => SpecErr::Wrong { doc, field },
        FieldErr::NoMemory => SpecErr::NoMemory,
    }
}

// The kind of component that has this type.
fn kind_of_type(name: &str) -> Option<ComponentKind>
    ensures kind { result ≡ type_named name.now }
    ensures exact { (kind : ComponentKind) → (result ≡ Some kind) ↔ (name.now ≡ kind_name kind) }
{
    match name {
        "state.in-memory" => Some(ComponentKind::StateMemory),
        "state.journal" => Some(ComponentKind::StateJournal),
        "pubsub.in-memory" => Some(ComponentKind::PubsubMemory),
        "bindings.http" => Some(ComponentKind::BindingHttp),
        "bindings.cron" => Some(ComponentKind::BindingCron),
        _ => None,
    }
}

fn fixed(alloc: Global, field: &'static str) -> Text
    ensures { result ≡ field.now }
{
    Text::from_static(alloc, field)
}

fn test_prefix(alloc: Global, settings: &Settings) -> Result<(), FieldErr>
    ensures { IsRead result (prefix_need (setting_named (codes "keyPrefix") settings.now)) }
{
    match settings.find(b"keyPrefix") {
        Some(prefix) => {
            if prefix.bytes() == b"namespace".as_slice() {
                Err(FieldErr::Wrong {
                    field: fixed(alloc, "spec.metadata.keyPrefix"),
                })
            } else {
                Ok(())
            }
        }
        None => Ok(()),
    }
}

fn test_url(alloc: Global, settings: &Settings) -> Result<(), FieldErr>
    ensures { IsRead result (url_need (setting_named (codes "url") settings.now)) }
{
    match settings.find(b"url") {
        Some(url) => match url_of(url.bytes()) {
            Some(_) => Ok(()),
            None => Err(FieldErr::Wrong {
                field: fixed(alloc, "spec.metadata.url"),
            }),
        },
        None => Err(FieldErr::Missing {
            field: fixed(alloc, "spec.metadata.url"),
        }),
    }
}

fn test_schedule(alloc: Global, settings: &Settings) -> Result<(), FieldErr>
    ensures { IsRead result (schedule_need (setting_named (codes "schedule") settings.now)) }
{
    match settings.find(b"schedule") {
        Some(schedule) => match period_of(schedule.bytes()) {
            Some(_) => Ok(()),
            None => Err(FieldErr::Wrong {
                field: fixed(alloc, "spec.metadata.schedule"),
            }),
        },
        None => Err(FieldErr::Missing {
            field: fixed(alloc, "spec.metadata.schedule"),
        }),
    }
}

fn test_journal(alloc: Global, settings: &Settings) -> Result<(), FieldErr>
    ensures { IsRead result (needs_of ComponentKind.StateJournal settings.now) }
{
    match settings.find(b"path") {
        Some(_) => test_prefix(alloc, settings),
        None => Err(FieldErr::Missing {
            field: fixed(alloc, "spec.metadata.path"),
        }),
    }
}

fn test_needs(alloc: Global, kind: ComponentKind, settings: &Settings) -> Result<(), FieldErr>
    ensures { IsRead result (needs_of kind settings.now) }
{
    match kind {
        ComponentKind::StateMemory => test_prefix(alloc, settings),
        ComponentKind::StateJournal => test_journal(alloc, settings),
        ComponentKind::PubsubMemory => Ok(()),
        ComponentKind::BindingHttp => test_url(alloc, settings),
        ComponentKind::BindingCron => test_schedule(alloc, settings),
    }
}

// The refusal of a setting that is kept elsewhere.
fn secret_err(alloc: Global, component: &str) -> SpecErr
    ensures { IsSpecErr {T = Setting} result (Err (SpecErr.SecretRef component.now)) }
{
    match Text::from_str(alloc, component) {
        Ok(name) => SpecErr::SecretRef { name },
        Err(_) => SpecErr::NoMemory,
    }
}

fn setting_of(alloc: Global, name: &str, value: Option<&str>) -> Result<Setting, NoMemory>
    ensures { IfOk result (λ s. s ≡ record { name = name.now; value = unwrap_or (option_map (λ t. t.now) value.entry) [] }) }
{
    let value = match value {
        Some(value) => Text::from_str(alloc, value)?,
        None => Text::new(alloc),
    };
    let name = Text::from_str(alloc, name)?;
    Ok(Setting { name, value })
}

// The setting of this name that an item is.
fn setting_with_name(
    alloc: Global,
    docs: &Docs,
    doc: usize,
    p: Part,
    name: &str,
) -> Result<Setting, SpecErr>
    requires { IsPart docs.now p }
    ensures { IsLoad result (follow (in_doc doc (text_at (codes "spec.metadata") (codes "value" ∷ []) (row_of docs.now p))) (λ value. Ok (record { name = name.now; value = unwrap_or value [] }))) }
{
    match said(alloc, docs, p, "spec.metadata", &["value"]) {
        Ok(value) => match setting_of(alloc, name, value) {
            Ok(setting) => Ok(setting),
            Err(_) => Err(SpecErr::NoMemory),
        },
        Err(error) => Err(in_document(doc, error)),
    }
}

// The setting that an item is, of the component of this name.
fn setting_at(
    alloc: Global,
    docs: &Docs,
    doc: usize,
    component: &str,
    p: Part,
) -> Result<Setting, SpecErr>
    requires { IsPart docs.now p }
    ensures { IsLoad result (setting_in doc component.now (row_of docs.now p)) }
{
    match asked(alloc, docs, p, "spec.metadata", &["name"]) {
        Ok(name) => match docs.get(p, b"secretKeyRef") {
            Some(_) => Err(secret_err(alloc, component)),
            None => setting_with_name(alloc, docs, doc, p, name),
        },
        Err(error) => Err(in_document(doc, error)),
    }
}

// The settings that the items are, from the first on.
fn settings_of(
    alloc: Global,
    docs: &Docs,
    doc: usize,
    component: &str,
    items: Option<Part>,
) -> Result<Settings, SpecErr>
    requires { IfSome items (IsPart docs.now) }
    ensures { (row : Trees) → IsFirst docs.now row items → IsLoad result (settings_from doc component.now [] row) }
{
    let mut here = items;
    let mut settings = Settings::new(alloc);
    loop {
        match here {
            Some(p) => {
                match setting_at(alloc, docs, doc, component, p) {
                    Ok(setting) => match settings.push(setting) {
                        Ok(()) => here = docs.next(p),
                        Err(_) => return Err(SpecErr::NoMemory),
                    },
                    Err(error) => return Err(error),
                }
            }
            None => return Ok(settings),
        }
    }
}

fn wrong_settings(alloc: Global, doc: usize) -> SpecErr
    ensures { result ≡ SpecErr.Wrong doc (codes "spec.metadata") }
{
    SpecErr::Wrong {
        doc,
        field: fixed(alloc, "spec.metadata"),
    }
}

// The settings that a part lists.
fn settings_of_part(
    alloc: Global,
    docs: &Docs,
    doc: usize,
    component: &str,
    p: Part,
) -> Result<Settings, SpecErr>
    requires { IsPart docs.now p }
    ensures { IsLoad result (settings_listed doc component.now (row_of docs.now p)) }
{
    match docs.kind(p) {
        PartKind::Sequence => settings_of(alloc, docs, doc, component, docs.first(p)),
        PartKind::Scalar => Err(wrong_settings(alloc, doc)),
        PartKind::Mapping => Err(wrong_settings(alloc, doc)),
        PartKind::Empty => Err(wrong_settings(alloc, doc)),
    }
}

// The settings of a document's component.
fn settings_at(
    alloc: Global,
    docs: &Docs,
    doc: usize,
    component: &str,
    p: Part,
) -> Result<Settings, SpecErr>
    requires { IsPart docs.now p }
    ensures { IsLoad result (settings_in doc component.now (row_of docs.now p)) }
{
    match docs.at(p, &["spec", "metadata"]) {
        At::Absent => Ok(Settings::new(alloc)),
        At::Wrong(passed) => match field_of(alloc, "", &["spec", "metadata"], passed) {
            Ok(field) => Err(SpecErr::Wrong { doc, field }),
            Err(_) => Err(SpecErr::NoMemory),
        },
        At::Here(list) => settings_of_part(alloc, docs, doc, component, list),
    }
}

// A component of this kind, which has what it needs.
fn component_of_kind(
    alloc: Global,
    name: &str,
    version: Option<&str>,
    settings: Settings,
    kind: ComponentKind,
) -> Result<Component, NoMemory>
    requires { needs_of kind settings ≡ Ok tt }
    ensures { IfOk result (λ c. c ≡ record { name = name.now; kind = kind; version = unwrap_or (option_map (λ t. t.now) version.entry) (codes "v1"); settings = settings }) }
{
    let version = match version {
        Some(version) => Text::from_str(alloc, version)?,
        None => Text::from_static(alloc, "v1"),
    };
    let name = Text::from_str(alloc, name)?;
    Ok(Component::new(name, kind, version, settings))
}

// A component of a type that is known, or of none.
fn component_of(
    alloc: Global,
    doc: usize,
    name: &str,
    version: Option<&str>,
    settings: Settings,
    kind: Option<ComponentKind>,
) -> Result<Component, SpecErr>
    ensures { IsLoad result (component_by doc name.now (option_map (λ t. t.now) version.entry) settings kind) }
{
    match kind {
        Some(kind) => match test_needs(alloc, kind, &settings) {
            Ok(()) => match component_of_kind(alloc, name, version, settings, kind) {
                Ok(component) => Ok(component),
                Err(_) => Err(SpecErr::NoMemory),
            },
            Err(error) => Err(in_document(doc, error)),
        },
        None => match Text::from_str(alloc, name) {
            Ok(name) => Err(SpecErr::UnknownType { name }),
            Err(_) => Err(SpecErr::NoMemory),
        },
    }
}

/// The component of a document that has this name.
pub(crate) fn component_at(
    alloc: Global,
    docs: &Docs,
    doc: usize,
    name: &str,
    p: Part,
) -> Result<Component, SpecErr>
    requires { IsPart docs.now p }
    ensures { IsLoad result (component_in doc name.now (row_of docs.now p)) }
{
    let kind = match asked(alloc, docs, p, "", &["spec", "type"]) {
        Ok(text) => kind_of_type(text),
        Err(error) => return Err(in_document(doc, error)),
    };
    let version = match said(alloc, docs, p, "", &["spec", "version"]) {
        Ok(version) => version,
        Err(error) => return Err(in_document(doc, error)),
    };
    match settings_at(alloc, docs, doc, name, p) {
        Ok(settings) => component_of(alloc, doc, name, version, settings, kind),
        Err(error) => Err(error),
    }
}
