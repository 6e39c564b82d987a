// The components of a file.
ghost use Rattle.std.specs.Prelude.{[], option_map, length, ◌+◌};
ghost use Rattle.yaml_subset.specs.Docs.{IsPart, row_of};
ghost use Rattle.resource_spec.specs.Load.{with_document, document_loaded, loaded, IsLoad, IsChange, joined};

use crate::component_list::Components;
use crate::document::head;
use crate::parse::{component_at, in_document};
use crate::spec_err::SpecErr;
use side_base::Text;
use std::alloc::Global;
use yaml_subset::{Docs, Part};

// Adds the component of a document, if it has a name.
fn add_document(
    alloc: Global,
    docs: &Docs,
    doc: usize,
    p: Part,
    name: Option<&str>,
    all: &mut Components,
) -> Result<(), SpecErr>
    requires { IsPart docs.now p }
    ensures { IsChange result all.old all.new (with_document doc all.old (row_of docs.now p) (option_map (λ t. t.now) name.entry)) }
{
    match name {
        Some(name) => match component_at(alloc, docs, doc, name, p) {
            Ok(component) => all.add(component, 257),
            Err(error) => Err(error),
        },
        None => Ok(()),
    }
}

// Adds the component of a document, if it is one.
fn read_document(
    alloc: Global,
    docs: &Docs,
    doc: usize,
    p: Part,
    app: &Text,
    all: &mut Components,
) -> Result<(), SpecErr>
    requires { IsPart docs.now p }
    ensures { IsChange result all.old all.new (document_loaded app.now doc all.old (row_of docs.now p)) }
{
    match head(alloc, docs, p, "Component", "dapr.io/v1alpha1", app) {
        Ok(name) => add_document(alloc, docs, doc, p, name, all),
        Err(error) => Err(in_document(doc, error)),
    }
}

/// The components that the documents of a file say, for this app, in their order. Documents of other kinds, and those that are
/// for other apps alone, are passed over. Of all documents the first that is refused counts; `docs/RESOURCES.md` has the order
/// of the tests of one.
pub fn components(alloc: Global, docs: &Docs, app: &Text) -> Result<Components, SpecErr>
    ensures { IsLoad result (loaded app.now 0 [] docs.now) }
{
    let count = docs.count();
    let mut here = docs.root(0);
    let mut all = Components::new(alloc);
    for doc in 0..count {
        match here {
            Some(p) => {
                match read_document(alloc, docs, doc, p, app, &mut all) {
                    Ok(()) => here = docs.next(p),
                    Err(error) => return Err(error),
                }
            }
            None => return Ok(all),
        }
    }
    Ok(all)
}

/// Adds components behind others, in their order; those are unchanged where one is refused.
pub fn join(one: &mut Components, more: Components) -> Result<(), SpecErr>
    ensures { IsChange result one.old one.new (joined (length one.old + length more) one.old more) }
{
    one.add_all(more)
}
