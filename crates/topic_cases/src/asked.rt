// What a case asks, and what is answered.

use crate::given::World;
use crate::subs_text::{aims_text, names_text, subs_text};
use case_text::{Lines, Section, first_word, text_of};
use json_text::{Doc, JsonErr};
use resource_spec::Component;
use side_base::{NoMemory, Text};
use std::alloc::Global;
use topic_spec::{Subs, aims, may_publish, may_subscribe};

fn line(alloc: Global, words: &'static str) -> Text {
    Text::from_static(alloc, words)
}

fn count_text(alloc: Global, count: usize) -> Result<Text, NoMemory> {
    let mut lines = Lines::new(alloc);
    lines.add_number_line("", count as u64);
    lines.done()
}

fn refused_text(alloc: Global, refused: &Option<Text>) -> Result<Text, NoMemory> {
    match refused {
        Some(text) => text.copy(),
        None => Ok(line(alloc, "it is read\n")),
    }
}

fn yes_or_no(alloc: Global, yes: bool) -> Text {
    if yes {
        line(alloc, "yes\n")
    } else {
        line(alloc, "no\n")
    }
}

fn may(publishes: bool, component: &Component, app: &Text, topic: &Text) -> bool {
    if publishes {
        may_publish(component, app, topic)
    } else {
        may_subscribe(component, app, topic)
    }
}

// Whether the app may publish or subscribe to the topic of the component that are named.
fn may_text(
    alloc: Global,
    publishes: bool,
    world: &World,
    app: &Text,
    names: &str,
) -> Result<Text, NoMemory> {
    let (name, topic) = first_word(names);
    let topic = Text::from_str(alloc, topic)?;
    match world.components.find(name.as_bytes()) {
        Some(component) => Ok(yes_or_no(alloc, may(publishes, component, app, &topic))),
        None => Ok(line(alloc, "no such component\n")),
    }
}

// Where an event goes that was published to the topic of the component that are named.
fn aims_of(alloc: Global, subs: &Subs, names: &str, event: &Doc<'_>) -> Result<Text, NoMemory> {
    let (pubsub, topic) = first_word(names);
    let pubsub = Text::from_str(alloc, pubsub)?;
    let topic = Text::from_str(alloc, topic)?;
    let aims = aims(alloc, subs, &pubsub, &topic, event)?;
    aims_text(alloc, &aims)
}

fn aims_of_event(alloc: Global, subs: &Subs, names: &str, event: &[u8]) -> Result<Text, NoMemory> {
    match json_text::read(alloc, event) {
        Ok(doc) => aims_of(alloc, subs, names, &doc),
        Err(JsonErr::NoMemory) => Err(NoMemory),
        Err(_) => Ok(line(alloc, "no event\n")),
    }
}

// Where the event of a case goes.
fn aims_of_case(
    alloc: Global,
    world: &World,
    sections: &[Section<'_>],
    names: &str,
) -> Result<Text, NoMemory> {
    match sections.iter().find(|section| section.word == "event") {
        Some(section) => {
            let event = text_of(alloc, section);
            aims_of_event(alloc, &world.subs, names, event.bytes())
        }
        None => Ok(line(alloc, "no event\n")),
    }
}

/// The answer to a section; `kept` are the subscriptions of the case that the app may have.
pub(crate) fn answer(
    alloc: Global,
    world: &World,
    kept: &Text,
    sections: &[Section<'_>],
    app: &Text,
    section: &Section<'_>,
) -> Result<Text, NoMemory> {
    match section.word {
        "refused" => refused_text(alloc, &world.refused),
        "subs" => subs_text(alloc, &world.subs),
        "names" => names_text(alloc, &world.subs),
        "kept" => kept.copy(),
        "count" => count_text(alloc, world.subs.len()),
        "publish" => may_text(alloc, true, world, app, section.name),
        "subscribe" => may_text(alloc, false, world, app, section.name),
        "aims" => aims_of_case(alloc, world, sections, section.name),
        _ => Ok(line(alloc, "no such section\n")),
    }
}
