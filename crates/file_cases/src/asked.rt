// What a case asks, and what is answered.

use crate::bound_text::bound_text;
use crate::component_text::components_text;
use crate::given::{Outcome, Reason};
use crate::subscription_text::subscriptions_text;
use crate::trip_text::breakers_text;
use case_text::{Lines, Section};
use policy_spec::{Target, breakers};
use resource_files::Resources;
use resource_spec::Components;
use side_base::{NoMemory, Text};
use std::alloc::Global;

fn count_text(alloc: Global, count: usize) -> Result<Text, NoMemory> {
    let mut lines = Lines::new(alloc);
    lines.add_number_line("", count as u64);
    lines.done()
}

// The target of this name that a word asks for.
fn target_of<'a>(word: &str, name: &'a Text) -> Option<Target<'a>> {
    match word {
        "app" => Some(Target::App { id: name }),
        "outbound" => Some(Target::Outbound { name }),
        "inbound" => Some(Target::Inbound { name }),
        _ => None,
    }
}

// Where the component of this name stands, and which version it has.
fn place_text(alloc: Global, components: &Components, name: &str) -> Result<Text, NoMemory> {
    let mut lines = Lines::new(alloc);
    match components.place_of(name.as_bytes()) {
        Some(place) => lines.add_number("", place as u64),
        None => lines.add("none"),
    }
    match components.find(name.as_bytes()) {
        Some(component) => lines.add_line(" ", component.version().as_str()),
        None => lines.add_line("", ""),
    }
    lines.done()
}

// The answer of resources that were read, to a section that asks for no target.
fn of_resources(
    alloc: Global,
    resources: &Resources,
    app: &Text,
    section: &Section<'_>,
) -> Result<Text, NoMemory> {
    match section.word {
        "components" => components_text(alloc, &resources.components, app),
        "count" => count_text(alloc, resources.components.len()),
        "subscriptions" => subscriptions_text(alloc, &resources.subscriptions),
        "place" => place_text(alloc, &resources.components, section.name),
        "breakers" => breakers_text(alloc, breakers(&resources.policies)),
        _ => Ok(Text::from_static(alloc, "no such section\n")),
    }
}

// The answer of resources that were read.
fn of_section(
    alloc: Global,
    resources: &Resources,
    app: &Text,
    section: &Section<'_>,
) -> Result<Text, NoMemory> {
    let name = Text::from_str(alloc, section.name)?;
    match target_of(section.word, &name) {
        Some(target) => bound_text(alloc, &resources.policies, &target),
        None => of_resources(alloc, resources, app, section),
    }
}

// The number of the document for which nothing was read.
fn doc_text(alloc: Global, doc: Option<usize>) -> Result<Text, NoMemory> {
    match doc {
        Some(doc) => count_text(alloc, doc),
        None => Ok(Text::from_static(alloc, "none\n")),
    }
}

// The answer where nothing was read, to whatever is asked.
fn of_reason(alloc: Global, reason: &Reason, word: &str) -> Result<Text, NoMemory> {
    let mut lines = Lines::new(alloc);
    match word {
        "doc" => return doc_text(alloc, reason.doc),
        "refused" => {}
        _ => lines.add("it is refused: "),
    }
    lines.add_line("", reason.text.as_str());
    lines.done()
}

// The answer where files were read.
fn of_read(
    alloc: Global,
    resources: &Resources,
    told: &Text,
    app: &Text,
    section: &Section<'_>,
) -> Result<Text, NoMemory> {
    match section.word {
        "refused" => told.copy(),
        _ => of_section(alloc, resources, app, section),
    }
}

/// The answer to a section.
pub(crate) fn answer(
    alloc: Global,
    outcome: &Outcome,
    app: &Text,
    section: &Section<'_>,
) -> Result<Text, NoMemory> {
    match outcome {
        Outcome::Read { resources, told } => of_read(alloc, resources, told, app, section),
        Outcome::Refused(reason) => of_reason(alloc, reason, section.word),
    }
}
