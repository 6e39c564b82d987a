//! Subscriptions of files and of an app's own list.
ghost use Rattle.std.specs.Prelude.{◌≡◌, ◌+◌, [], length, Ok, Some, OnOk};
ghost use Rattle.json_text.specs.Doc.{bytes_read, IsNode};
ghost use Rattle.json_text.specs.Forest.{Forest};
ghost use Rattle.rule_value.specs.Standing.{IsAt, IsEvent};
ghost use Rattle.rule_value.specs.Values.{Event, held};
ghost use Rattle.yaml_subset.specs.Docs.{IsPart, row_of};
ghost use Rattle.topic_spec.specs.Documents.{document_said, all_said};
ghost use Rattle.topic_spec.specs.Listed.{item_said, items_said, ListLoads};
ghost use Rattle.topic_spec.specs.Loading.{Loads, IsAdded, IsLoad, IsStep};

use crate::documents::document_at;
use crate::draft::Draft;
use crate::listed::{is_list, item_at};
use crate::reading::sub_of;
use crate::sub::{Sub, Subs};
use crate::sub_err::SubErr;
use json_text::{Doc, Node};
use side_base::Text;
use std::alloc::Global;
use yaml_subset::{Docs, Part};

// Adds a subscription whose rules are read.
fn add_sub(sub: Sub, all: &mut Subs) -> Result<(), SubErr>
    ensures added { IsAdded result sub all.old all.new }
    ensures longer { OnOk result (length all.new ≡ length all.old + 1) }
{
    if all.len() >= 256 {
        return Err(SubErr::TooMany { count: 257 });
    }
    match all.push(sub) {
        Ok(()) => Ok(()),
        Err(_) => Err(SubErr::NoMemory),
    }
}

// Reads the rules of a draft, and adds it.
fn add_draft(alloc: Global, doc: usize, draft: Draft, all: &mut Subs) -> Result<(), SubErr>
    ensures step { IsStep result doc all.old all.new (Ok (Some draft)) }
    ensures longer { OnOk result (length all.new ≡ length all.old + 1) }
{
    match sub_of(alloc, doc, draft) {
        Ok(sub) => add_sub(sub, all),
        Err(error) => Err(error),
    }
}

// Adds what is said, if a subscription is.
fn add_said(alloc: Global, doc: usize, said: Option<Draft>, all: &mut Subs) -> Result<(), SubErr>
    ensures { IsStep result doc all.old all.new (Ok said) }
{
    match said {
        Some(draft) => add_draft(alloc, doc, draft, all),
        None => Ok(()),
    }
}

// Adds the subscription of a document, if it is one.
fn add_document(
    alloc: Global,
    docs: &Docs,
    doc: usize,
    p: Part,
    app: &Text,
    all: &mut Subs,
) -> Result<(), SubErr>
    requires { IsPart docs.now p }
    ensures { IsStep result doc all.old all.new (document_said app.now doc (row_of docs.now p)) }
{
    match document_at(alloc, docs, doc, p, app) {
        Ok(said) => add_said(alloc, doc, said, all),
        Err(error) => Err(error),
    }
}

/// The subscriptions that the documents of a file say, for this app, in their order. Documents of other kinds, and those that are
/// for other apps alone, are passed over. Of all documents the first that is refused counts. Of one are tested, in this order, its
/// head, `spec.pubsubname`, `spec.topic`, its rules, its default or its route, that there is either, its dead-letter topic, that
/// this is another topic, that each rule is read, and that there are at most 256.
pub fn subscriptions(alloc: Global, docs: &Docs, app: &Text) -> Result<Subs, SubErr>
    ensures { IsLoad (Loads 0 [] (all_said app.now 0 docs.now)) result }
{
    let count = docs.count();
    let mut here = docs.root(0);
    let mut all = Subs::new(alloc);
    for doc in 0..count {
        match here {
            Some(p) => match add_document(alloc, docs, doc, p, app, &mut all) {
                Ok(()) => here = docs.next(p),
                Err(error) => return Err(error),
            },
            None => return Ok(all),
        }
    }
    Ok(all)
}

// Adds the subscription of the item at this place.
fn add_item(
    alloc: Global,
    doc: &Doc<'_>,
    place: usize,
    n: Node,
    all: &mut Subs,
) -> Result<(), SubErr>
    requires { IsNode doc.now n }
    ensures step { (item : Forest) → IsAt doc.now n item → IsStep result place all.old all.new (item_said (bytes_read doc.now) place item) }
    ensures longer { OnOk result (length all.new ≡ length all.old + 1) }
{
    match item_at(alloc, doc, place, n) {
        Ok(draft) => add_draft(alloc, place, draft, all),
        Err(error) => Err(error),
    }
}

// The subscriptions that the items of a list say: each that is taken adds one, so that their number is the place of the next.
fn subs_of_list(alloc: Global, doc: &Doc<'_>, n: Node) -> Result<Subs, SubErr>
    requires { IsNode doc.now n }
    ensures { (values : Forest) → IsAt doc.now n values → IsLoad (Loads 0 [] (items_said (bytes_read doc.now) 0 (held values))) result }
{
    let mut here = doc.first(n);
    let mut all = Subs::new(alloc);
    loop {
        match here {
            Some(item) => match add_item(alloc, doc, all.len(), item, &mut all) {
                Ok(()) => here = doc.next(item),
                Err(error) => return Err(error),
            },
            None => return Ok(all),
        }
    }
}

fn subs_of(alloc: Global, doc: &Doc<'_>, n: Node) -> Result<Subs, SubErr>
    requires { IsNode doc.now n }
    ensures { (values : Forest) → IsAt doc.now n values → IsLoad (ListLoads (bytes_read doc.now) values) result }
{
    if is_list(doc, n) {
        subs_of_list(alloc, doc, n)
    } else {
        Err(SubErr::Wrong {
            doc: 0,
            field: Text::from_static(alloc, "list"),
        })
    }
}

/// The subscriptions that an app lists in a JSON text, in their order: a list of maps with `pubsubname`, `topic`, `route` or
/// `routes` with `rules` and `default`, and `deadLetterTopic`. In refusals `doc` is the place in the list, from 0; they come in
/// the order of those of a file's document. A text that is no list, and an item that is no map, are `Wrong` with the field
/// `list`. Other members are passed over; of repeated ones the last counts, and null counts as absent.
pub fn app_list(alloc: Global, doc: &Doc<'_>) -> Result<Subs, SubErr>
    ensures { (shown : Event) → IsEvent doc.now shown → IsLoad (ListLoads shown.bytes shown.values) result }
{
    subs_of(alloc, doc, doc.root())
}
