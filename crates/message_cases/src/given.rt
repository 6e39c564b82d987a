// What a case gives: the brokers and the subscriptions of a folder and of the app's list, and what is bound to deliveries.
ghost use Rattle.std.specs.Prelude.{◌≡◌};
ghost use Rattle.retry_core.specs.Bound.{IsWithinLimit};

use case_text::{Lines, Section, first_word, joined_text, name_in, text_of};
use case_world::{bound_in, number, text};
use pubsub_api::app_subscriptions;
use resource_spec::{Components, components};
use retry_core::Bound;
use side_base::{Fields, Response, Text};
use std::alloc::Global;
use topic_spec::{SubErr, Subs, allowed, join, subscriptions};
use yaml_subset::{Docs, read_docs};

/// The own app of a case that names none.
const APP: &str = "shop";

/// What all brokers of a case have in common.
#[derive(Drop)]
pub(crate) struct Common {
    pub(crate) alloc: Global,
    pub(crate) app: Text,
    pub(crate) components: Components,
    pub(crate) subs: Subs,
    pub(crate) bound: Bound,
}

// The brokers of a folder.
fn components_of(alloc: Global, docs: &Docs, app: &Text) -> Components {
    match components(alloc, docs, app) {
        Ok(components) => components,
        Err(_) => Components::new(alloc),
    }
}

// The subscriptions that were read, or a line that says why none were.
fn read_or_told(alloc: Global, read: Result<Subs, SubErr>, lines: &mut Lines) -> Subs {
    match read {
        Ok(subs) => subs,
        Err(error) => {
            add_refusal(lines, &error);
            Subs::new(alloc)
        }
    }
}

fn add_refusal(lines: &mut Lines, error: &SubErr) {
    match error {
        SubErr::Wrong { doc, field } => {
            lines.add_number("wrong ", *doc as u64);
            lines.add_line(" ", field.as_str());
        }
        SubErr::NoMemory => lines.lack(),
        _ => lines.add("refused\n"),
    }
}

// What the app replies to the question for its subscriptions.
fn listed(alloc: Global, section: &Section<'_>, lines: &mut Lines) -> Subs {
    let reply = Response {
        status: u16::try_from(number(section.name)).unwrap_or(0),
        fields: Fields::new(alloc),
        body: text_of(alloc, section),
    };
    read_or_told(alloc, app_subscriptions(alloc, &reply), lines)
}

fn add_listed(alloc: Global, subs: &mut Subs, sections: &[Section<'_>], lines: &mut Lines) {
    for section in sections {
        if section.word == "list" && join(subs, listed(alloc, section, lines)).is_err() {
            lines.lack();
        }
    }
}

/// What a case gives, with this breaker; why a list of subscriptions isn't read is told.
pub(crate) fn common_to(
    alloc: Global,
    sections: &[Section<'_>],
    breaker: Option<u32>,
    lines: &mut Lines,
) -> Common
    ensures limits { IsWithinLimit result.bound }
    ensures breaker { result.bound.breaker ≡ breaker }
{
    let bound = bound_in(sections, breaker);
    let app = text(alloc, name_in(sections, "app").unwrap_or(APP));
    let folder = joined_text(alloc, sections, "file");
    let (components, mut subs) = folder_of(alloc, folder.bytes(), &app, lines);
    add_listed(alloc, &mut subs, sections, lines);
    let subs = allowed(subs, &components, &app);
    Common {
        alloc,
        app,
        components,
        subs,
        bound,
    }
}

// The brokers and the subscriptions of a folder whose files are one text.
fn folder_of(alloc: Global, folder: &[u8], app: &Text, lines: &mut Lines) -> (Components, Subs) {
    match read_docs(alloc, folder) {
        Ok(docs) => {
            let subs = read_or_told(alloc, subscriptions(alloc, &docs, app), lines);
            (components_of(alloc, &docs, app), subs)
        }
        Err(_) => {
            lines.lack();
            (Components::new(alloc), Subs::new(alloc))
        }
    }
}
