// What documents of all kinds begin with.
ghost use Rattle.std.specs.Prelude.{◌≡◌, ℕ, List, Ok, Err, codes, IfSome};
ghost use Rattle.yaml_subset.specs.Docs.{IsPart, row_of, told_of, IsFirst};
ghost use Rattle.yaml_subset.specs.Trees.{Trees};
ghost use Rattle.resource_spec.specs.Field.{IsSaid};
ghost use Rattle.resource_spec.specs.Document.{is_scalar, names_app, scopes_named, is_for, has_version, name_for, head_of, IsRead};

use crate::field::asked;
use crate::field_err::FieldErr;
use side_base::Text;
use std::alloc::Global;
use yaml_subset::{At, Docs, Part, PartKind};

fn wrong_scopes(alloc: Global) -> FieldErr
    ensures { result ≡ FieldErr.Wrong (codes "scopes") }
{
    FieldErr::Wrong {
        field: Text::from_static(alloc, "scopes"),
    }
}

fn is_scalar_part(docs: &Docs, p: Part) -> bool
    requires { IsPart docs.now p }
    ensures { result ≡ is_scalar (told_of (row_of docs.now p)).kind }
{
    match docs.kind(p) {
        PartKind::Scalar => true,
        PartKind::Sequence => false,
        PartKind::Mapping => false,
        PartKind::Empty => false,
    }
}

// Whether an item names the app; all must be texts.
fn lists_app(alloc: Global, docs: &Docs, items: Option<Part>, app: &[u8]) -> Result<bool, FieldErr>
    requires { IfSome items (IsPart docs.now) }
    ensures { (row : Trees) → IsFirst docs.now row items → names_app app.now row ≡ result }
{
    let mut here = items;
    let mut found = false;
    loop {
        match here {
            Some(p) => {
                if !is_scalar_part(docs, p) {
                    return Err(wrong_scopes(alloc));
                }
                if docs.text(p) == app {
                    found = true;
                }
                here = docs.next(p);
            }
            None => return Ok(found),
        }
    }
}

// Whether the document is for the app.
fn is_for_app(alloc: Global, docs: &Docs, p: Part, app: &Text) -> Result<bool, FieldErr>
    requires { IsPart docs.now p }
    ensures { IsRead result (is_for app.now (row_of docs.now p)) }
{
    match docs.at(p, &["scopes"]) {
        At::Absent => Ok(true),
        At::Wrong(_) => Err(wrong_scopes(alloc)),
        At::Here(list) => scopes_list(alloc, docs, list, app),
    }
}

// Whether these scopes name the app.
fn scopes_list(alloc: Global, docs: &Docs, list: Part, app: &Text) -> Result<bool, FieldErr>
    requires { IsPart docs.now list }
    ensures { IsRead result (scopes_named app.now (row_of docs.now list)) }
{
    match docs.kind(list) {
        PartKind::Sequence => lists_app(alloc, docs, docs.first(list), app.bytes()),
        PartKind::Scalar => Err(wrong_scopes(alloc)),
        PartKind::Mapping => Err(wrong_scopes(alloc)),
        PartKind::Empty => Err(wrong_scopes(alloc)),
    }
}

fn test_version(alloc: Global, docs: &Docs, p: Part, version: &str) -> Result<(), FieldErr>
    requires { IsPart docs.now p }
    ensures { IsRead result (has_version version.now (row_of docs.now p)) }
{
    match asked(alloc, docs, p, "", &["apiVersion"]) {
        Ok(said) => {
            if said == version {
                Ok(())
            } else {
                Err(FieldErr::Wrong {
                    field: Text::from_static(alloc, "apiVersion"),
                })
            }
        }
        Err(error) => Err(error),
    }
}

fn name_if_for<'a>(
    alloc: Global,
    docs: &'a Docs,
    p: Part,
    app: &Text,
) -> Result<Option<&'a str>, FieldErr>
    requires { IsPart docs.now p }
    ensures { IsSaid result (name_for app.now (row_of docs.now p)) }
{
    match asked(alloc, docs, p, "", &["metadata", "name"]) {
        Ok(name) => match is_for_app(alloc, docs, p, app) {
            Ok(true) => Ok(Some(name)),
            Ok(false) => Ok(None),
            Err(error) => Err(error),
        },
        Err(error) => Err(error),
    }
}

/// The name of a document, if it is of this kind and for this app; `None` where it is passed over. In this order its kind,
/// its version, its name and its scopes are tested: the version must be this one, and scopes are texts. A document of
/// another kind is passed over untested.
pub fn head<'a>(
    alloc: Global,
    docs: &'a Docs,
    p: Part,
    kind: &str,
    version: &str,
    app: &Text,
) -> Result<Option<&'a str>, FieldErr>
    requires { IsPart docs.now p }
    ensures { IsSaid result (head_of kind.now version.now app.now (row_of docs.now p)) }
{
    match asked(alloc, docs, p, "", &["kind"]) {
        Ok(said) => {
            if said != kind {
                return Ok(None);
            }
            match test_version(alloc, docs, p, version) {
                Ok(()) => name_if_for(alloc, docs, p, app),
                Err(error) => Err(error),
            }
        }
        Err(error) => Err(error),
    }
}
