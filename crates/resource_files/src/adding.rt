// What one file adds to those before it.
ghost use Rattle.std.specs.Prelude.{◌≤◌, ℕ, true, List, length};
ghost use Rattle.yaml_subset.specs.Docs.{Shows};
ghost use Rattle.resource_files.specs.Added.{reading_for};
ghost use Rattle.resource_files.specs.Steps.{AddsComponents, AddsSubscriptions, AddsPolicies, AddsFile};

use crate::resources::{Refusal, Resources};
use policy_spec::{Policies, PolicyErr, join as join_policies, policies};
use resource_spec::{Components, SpecErr, components, join as join_components};
use side_base::Text;
use std::alloc::Global;
use topic_spec::{SubErr, Subs, join as join_subscriptions, subscriptions};
use yaml_subset::{Docs, read_docs};

fn add_components(
    alloc: Global,
    docs: &Docs,
    app: &Text,
    all: &mut Components,
) -> Result<(), SpecErr>
    ensures { AddsComponents app.now docs.now all.old all.new result }
{
    match components(alloc, docs, app) {
        Ok(more) => join_components(all, more),
        Err(error) => Err(error),
    }
}

fn add_policies(alloc: Global, docs: &Docs, app: &Text, all: &mut Policies) -> Result<(), PolicyErr>
    ensures { AddsPolicies app.now docs.now all.old all.new result }
{
    match policies(alloc, docs, app) {
        Ok(more) => join_policies(all, more),
        Err(error) => Err(error),
    }
}

fn add_subscriptions(alloc: Global, docs: &Docs, app: &Text, all: &mut Subs) -> Result<(), SubErr>
    ensures { AddsSubscriptions (reading_for app.now true) docs.now all.old all.new result }
{
    match subscriptions(alloc, docs, app) {
        Ok(more) => join_subscriptions(all, more),
        Err(error) => Err(error),
    }
}

// Adds the subscriptions of documents, or passes them over.
fn add_or_pass(
    alloc: Global,
    docs: &Docs,
    app: &Text,
    subscribing: bool,
    all: &mut Subs,
) -> Result<(), SubErr>
    ensures { AddsSubscriptions (reading_for app.now subscribing) docs.now all.old all.new result }
{
    match subscribing {
        true => add_subscriptions(alloc, docs, app, all),
        false => Ok(()),
    }
}

// Adds what documents say: their components, what they bind, and then their subscriptions.
fn add_documents(
    alloc: Global,
    docs: &Docs,
    app: &Text,
    subscribing: bool,
    all: &mut Resources,
) -> Result<(), Refusal>
    ensures { (bytes : List ℕ) → Shows docs.now bytes → length bytes ≤ 1048576 → AddsFile (reading_for app.now subscribing) bytes all.old all.new result }
{
    match add_components(alloc, docs, app, &mut all.components) {
        Ok(()) => match add_policies(alloc, docs, app, &mut all.policies) {
            Ok(()) => match add_or_pass(alloc, docs, app, subscribing, &mut all.subscriptions) {
                Ok(()) => Ok(()),
                Err(error) => Err(Refusal::Subscriptions(error)),
            },
            Err(error) => Err(Refusal::Policies(error)),
        },
        Err(error) => Err(Refusal::Components(error)),
    }
}

/// Adds what a file of these bytes says, its subscriptions only where they are read. On a refusal a part of it may have been added.
pub(crate) fn add_file(
    alloc: Global,
    bytes: &[u8],
    app: &Text,
    subscribing: bool,
    all: &mut Resources,
) -> Result<(), Refusal>
    requires { length bytes.now ≤ 1048576 }
    ensures { AddsFile (reading_for app.now subscribing) bytes.now all.old all.new result }
{
    match read_docs(alloc, bytes) {
        Ok(docs) => add_documents(alloc, &docs, app, subscribing, all),
        Err(error) => Err(Refusal::Yaml(error)),
    }
}
