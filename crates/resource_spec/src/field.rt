// The texts of a document's fields.
ghost use Rattle.std.specs.Prelude.{◌≡◌, ℕ, List, length, take, option_map, Err, IfOk, OnOk};
ghost use Rattle.yaml_subset.specs.Docs.{IsPart, row_of, told_of};
ghost use Rattle.yaml_subset.specs.Texts.{texts};
ghost use Rattle.resource_spec.specs.Field.{with_name, with_names, at_least, field_at, text_of, text_at, asked_at, IsAsked, IsSaid, IsFieldErr};

use crate::field_err::FieldErr;
use side_base::{NoMemory, Text};
use std::alloc::Global;
use yaml_subset::{At, Docs, Part, PartKind};

// Adds a name, behind a dot if another stands before it.
fn push_name(field: &mut Text, name: &str) -> Result<(), NoMemory>
    ensures { OnOk result (field.new ≡ with_name field.old name.now) }
{
    if !field.is_empty() {
        field.push(".")?;
    }
    field.push(name)
}

// Adds the first names, with dots between them.
fn push_names(field: &mut Text, names: &[&str], most: usize) -> Result<(), NoMemory>
    ensures { OnOk result (field.new ≡ with_names field.old (take most (texts names.now))) }
{
    match names.split_first() {
        Some((name, others)) => {
            if most == 0 {
                return Ok(());
            }
            push_name(field, *name)?;
            push_names(field, others, most - 1)
        }
        None => Ok(()),
    }
}

fn names_at_least(field: &str, passed: usize) -> usize
    ensures { result ≡ at_least field.now passed }
{
    if field.is_empty() && passed == 0 {
        1
    } else {
        passed
    }
}

/// The field that so many names of a path lead to, which begins at a part that is this field.
pub fn field_of(alloc: Global, field: &str, path: &[&str], passed: usize) -> Result<Text, NoMemory>
    ensures { IfOk result (λ text. text ≡ field_at field.now (texts path.now) passed) }
{
    let mut text = Text::from_str(alloc, field)?;
    push_names(&mut text, path, names_at_least(field, passed))?;
    Ok(text)
}

// The refusal of the field that so many names lead to.
fn wrong_field(alloc: Global, field: &str, path: &[&str], passed: usize) -> FieldErr
    ensures { IsFieldErr {T = Unit {0}} result (Err (FieldErr.Wrong (field_at field.now (texts path.now) passed))) }
{
    match field_of(alloc, field, path, passed) {
        Ok(field) => FieldErr::Wrong { field },
        Err(_) => FieldErr::NoMemory,
    }
}

/// The text that a part is, if it is a scalar.
pub fn part_text<'a>(docs: &'a Docs, p: Part) -> Option<&'a str>
    requires { IsPart docs.now p }
    ensures { option_map (λ text. text.now) result ≡ text_of (told_of (row_of docs.now p)) }
{
    match docs.kind(p) {
        PartKind::Scalar => match str::from_utf8(docs.text(p)) {
            Ok(text) => Some(text),
            Err(_) => None,
        },
        PartKind::Sequence => None,
        PartKind::Mapping => None,
        PartKind::Empty => None,
    }
}

/// The text of a field, which may be absent or empty. The path begins at a part that is this field.
pub fn said<'a>(
    alloc: Global,
    docs: &'a Docs,
    p: Part,
    field: &str,
    path: &[&str],
) -> Result<Option<&'a str>, FieldErr>
    requires { IsPart docs.now p }
    ensures { IsSaid result (text_at field.now (texts path.now) (row_of docs.now p)) }
{
    match docs.at(p, path) {
        At::Absent => Ok(None),
        At::Wrong(passed) => Err(wrong_field(alloc, field, path, passed)),
        At::Here(here) => match part_text(docs, here) {
            Some(text) => Ok(Some(text)),
            None => Err(wrong_field(alloc, field, path, path.len())),
        },
    }
}

/// The text of a field, which must be there.
pub fn asked<'a>(
    alloc: Global,
    docs: &'a Docs,
    p: Part,
    field: &str,
    path: &[&str],
) -> Result<&'a str, FieldErr>
    requires { IsPart docs.now p }
    ensures { IsAsked result (asked_at field.now (texts path.now) (row_of docs.now p)) }
{
    match said(alloc, docs, p, field, path) {
        Ok(Some(text)) => Ok(text),
        Ok(None) => match field_of(alloc, field, path, path.len()) {
            Ok(field) => Err(FieldErr::Missing { field }),
            Err(_) => Err(FieldErr::NoMemory),
        },
        Err(error) => Err(error),
    }
}
