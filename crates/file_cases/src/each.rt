// Files that are read one by one: what each says is joined to what those before it say, and one that is refused is passed over.

use crate::given::Outcome;
use case_text::{Lines, Section, text_of};
use policy_spec::{Policies, PolicyErr, policies};
use resource_files::{Refusal, Resources, refusal_text};
use resource_spec::{Components, SpecErr, components};
use side_base::{NoMemory, Text};
use std::alloc::Global;
use topic_spec::{SubErr, Subs, subscriptions};
use yaml_subset::{Docs, read_docs};

fn join_components(all: &mut Components, more: Result<Components, SpecErr>) -> Result<(), SpecErr> {
    match more {
        Ok(more) => resource_spec::join(all, more),
        Err(error) => Err(error),
    }
}

fn join_subscriptions(all: &mut Subs, more: Result<Subs, SubErr>) -> Result<(), SubErr> {
    match more {
        Ok(more) => topic_spec::join(all, more),
        Err(error) => Err(error),
    }
}

fn join_policies(all: &mut Policies, more: Result<Policies, PolicyErr>) -> Result<(), PolicyErr> {
    match more {
        Ok(more) => policy_spec::join(all, more),
        Err(error) => Err(error),
    }
}

// Joins what documents bind, and the subscriptions that they say.
fn join_others(alloc: Global, docs: &Docs, app: &Text, all: &mut Resources) -> Result<(), Refusal> {
    match join_policies(&mut all.policies, policies(alloc, docs, app)) {
        Ok(()) => match join_subscriptions(
            &mut all.subscriptions,
            subscriptions(alloc, docs, app),
        ) {
            Ok(()) => Ok(()),
            Err(error) => Err(Refusal::Subscriptions(error)),
        },
        Err(error) => Err(Refusal::Policies(error)),
    }
}

// Joins what documents say.
fn join_docs(alloc: Global, docs: &Docs, app: &Text, all: &mut Resources) -> Result<(), Refusal> {
    match join_components(&mut all.components, components(alloc, docs, app)) {
        Ok(()) => join_others(alloc, docs, app, all),
        Err(error) => Err(Refusal::Components(error)),
    }
}

// Joins what a file says.
fn join_file(alloc: Global, file: &[u8], app: &Text, all: &mut Resources) -> Result<(), Refusal> {
    match read_docs(alloc, file) {
        Ok(docs) => join_docs(alloc, &docs, app, all),
        Err(error) => Err(Refusal::Yaml(error)),
    }
}

// How a file is refused.
fn tell(alloc: Global, name: &str, refusal: &Refusal, told: &mut Lines) -> Result<(), NoMemory> {
    let text = refusal_text(alloc, refusal)?;
    told.add(name);
    told.add_line(": ", text.as_str());
    Ok(())
}

fn add_file(
    alloc: Global,
    section: &Section<'_>,
    app: &Text,
    all: &mut Resources,
    told: &mut Lines,
) -> Result<(), NoMemory> {
    let file = text_of(alloc, section);
    match join_file(alloc, file.bytes(), app, all) {
        Ok(()) => Ok(()),
        Err(refusal) => tell(alloc, section.name, &refusal, told),
    }
}

/// Reads the files of a case one by one.
pub(crate) fn read_each(
    alloc: Global,
    sections: &[Section<'_>],
    app: &Text,
) -> Result<Outcome, NoMemory> {
    let mut resources = Resources {
        components: Components::new(alloc),
        subscriptions: Subs::new(alloc),
        policies: Policies::new(alloc),
    };
    let mut told = Lines::new(alloc);
    for section in sections {
        if section.word == "file" {
            add_file(alloc, section, app, &mut resources, &mut told)?;
        }
    }
    let told = told.done()?;
    Ok(Outcome::Read { resources, told })
}
