// What a case gives: documents, lists, and for which app they are read.

use crate::refusal_text::refusal_text;
use case_text::{Section, name_in, number_in, push_numbered, text_of};
use json_text::JsonErr;
use resource_spec::{Components, components};
use side_base::{Blob, NoMemory, Text};
use std::alloc::Global;
use topic_spec::{SubErr, Subs, app_list, join, subscriptions};
use yaml_subset::{Docs, YamlErr, read_docs};

/// The app of a case that names none.
const APP: &str = "shop";

/// What a case gives: the components and the subscriptions so far, and why reading ended, if it did.
#[derive(Drop)]
pub(crate) struct World {
    pub(crate) components: Components,
    pub(crate) subs: Subs,
    pub(crate) refused: Option<Text>,
}

/// Whether a section of this word gives something, and asks nothing.
pub(crate) fn is_given(word: &str) -> bool {
    match word {
        "file" | "numbered" | "list" | "event" | "for" => true,
        _ => false,
    }
}

/// The app for which a case is read.
pub(crate) fn app_of(alloc: Global, sections: &[Section<'_>]) -> Result<Text, NoMemory> {
    Text::from_str(alloc, name_in(sections, "for").unwrap_or(APP))
}

fn refuse(world: &mut World, text: Text) {
    world.refused = Some(text);
}

// Joins subscriptions, or keeps why it can't.
fn take_up(alloc: Global, world: &mut World, read: Result<Subs, SubErr>) -> Result<(), NoMemory> {
    match read {
        Ok(subs) => match join(&mut world.subs, subs) {
            Ok(()) => Ok(()),
            Err(error) => keep_refusal(alloc, world, &error),
        },
        Err(error) => keep_refusal(alloc, world, &error),
    }
}

fn keep_refusal(alloc: Global, world: &mut World, error: &SubErr) -> Result<(), NoMemory> {
    let text = refusal_text(alloc, error)?;
    refuse(world, text);
    Ok(())
}

// The components of documents; none where one of them is refused.
fn components_of(alloc: Global, docs: &Docs, app: &Text) -> Components {
    match components(alloc, docs, app) {
        Ok(components) => components,
        Err(_) => Components::new(alloc),
    }
}

fn take_components(
    alloc: Global,
    world: &mut World,
    docs: &Docs,
    app: &Text,
) -> Result<(), NoMemory> {
    match resource_spec::join(&mut world.components, components_of(alloc, docs, app)) {
        Ok(()) => Ok(()),
        Err(_) => Err(NoMemory),
    }
}

fn take_docs(alloc: Global, world: &mut World, docs: &Docs, app: &Text) -> Result<(), NoMemory> {
    take_components(alloc, world, docs, app)?;
    take_up(alloc, world, subscriptions(alloc, docs, app))
}

// Reads a file.
fn take_file(alloc: Global, world: &mut World, text: &[u8], app: &Text) -> Result<(), NoMemory> {
    match read_docs(alloc, text) {
        Ok(docs) => take_docs(alloc, world, &docs, app),
        Err(YamlErr::NoMemory) => Err(NoMemory),
        Err(_) => {
            refuse(world, Text::from_static(alloc, "no YAML\n"));
            Ok(())
        }
    }
}

// Reads an app's list.
fn take_list(alloc: Global, world: &mut World, text: &[u8]) -> Result<(), NoMemory> {
    match json_text::read(alloc, text) {
        Ok(doc) => take_up(alloc, world, app_list(alloc, &doc)),
        Err(JsonErr::NoMemory) => Err(NoMemory),
        Err(_) => {
            refuse(world, Text::from_static(alloc, "no JSON\n"));
            Ok(())
        }
    }
}

fn take_section(
    alloc: Global,
    world: &mut World,
    section: &Section<'_>,
    app: &Text,
) -> Result<(), NoMemory> {
    let text = text_of(alloc, section);
    match section.word {
        "file" => take_file(alloc, world, text.bytes(), app),
        "numbered" => take_numbered(alloc, world, section.name, text.bytes(), app),
        "list" => take_list(alloc, world, text.bytes()),
        _ => Ok(()),
    }
}

fn take_numbered(
    alloc: Global,
    world: &mut World,
    times: &str,
    text: &[u8],
    app: &Text,
) -> Result<(), NoMemory> {
    let mut all = Blob::new(alloc);
    push_numbered(&mut all, text, u64::from(number_in(times)))?;
    take_file(alloc, world, all.bytes(), app)
}

/// Reads what a case gives, for this app, up to the first refusal.
pub(crate) fn read(alloc: Global, sections: &[Section<'_>], app: &Text) -> Result<World, NoMemory> {
    let mut world = World {
        components: Components::new(alloc),
        subs: Subs::new(alloc),
        refused: None,
    };
    for section in sections {
        if world.refused.is_none() {
            take_section(alloc, &mut world, section, app)?;
        }
    }
    Ok(world)
}
