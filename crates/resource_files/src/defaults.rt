// The resources of a run without a folder.
ghost use Rattle.std.specs.Prelude.{◌≡◌, true, IfOk};
ghost use Rattle.resource_files.specs.Refusals.{wants_memory};
ghost use Rattle.resource_files.specs.Usual.{usual, usual_components};

use crate::resources::{Refusal, Resources};
use policy_spec::Policies;
use resource_spec::{Components, components};
use side_base::{NoMemory, Text};
use std::alloc::Global;
use topic_spec::Subs;
use yaml_subset::read_docs;

/// The file that is as if read where no folder is named.
const USUAL: &str = "\
apiVersion: dapr.io/v1alpha1
kind: Component
metadata:
  name: statestore
spec:
  type: state.in-memory
  version: v1
---
apiVersion: dapr.io/v1alpha1
kind: Component
metadata:
  name: pubsub
spec:
  type: pubsub.in-memory
  version: v1
";

// There is no memory, as this refusal says.
fn no_memory(_refusal: Refusal) -> NoMemory
    requires { wants_memory _refusal ≡ true }
{
    NoMemory
}

// The components of that file, for any app.
fn usual_components(alloc: Global, app: &Text) -> Result<Components, NoMemory>
    ensures { IfOk result (λ components. components ≡ usual_components) }
{
    match read_docs(alloc, USUAL.as_bytes()) {
        Ok(docs) => match components(alloc, &docs, app) {
            Ok(components) => Ok(components),
            Err(error) => Err(no_memory(Refusal::Components(error))),
        },
        Err(error) => Err(no_memory(Refusal::Yaml(error))),
    }
}

/// The resources of a run that names no folder: a store `statestore` of the type `state.in-memory` and a broker `pubsub` of the
/// type `pubsub.in-memory`, both of version `v1` and without settings, no subscription, and nothing is bound.
pub fn usual_resources(alloc: Global, app: &Text) -> Result<Resources, NoMemory>
    ensures { IfOk result (λ resources. resources ≡ usual) }
{
    match usual_components(alloc, app) {
        Ok(components) => Ok(Resources {
            components,
            subscriptions: Subs::new(alloc),
            policies: Policies::new(alloc),
        }),
        Err(error) => Err(error),
    }
}
