ghost use Rattle.std.specs.Prelude.{◌≡◌};
ghost use Rattle.resource_files.specs.Added.{nothing_said};

use policy_spec::{Policies, PolicyErr};
use resource_spec::{Components, SpecErr};
use side_base::Text;
use std::alloc::Global;
use topic_spec::{SubErr, Subs};
use yaml_subset::YamlErr;

/// What resource files say together.
#[derive(Drop)]
pub struct Resources {
    /// The components, in the order of the files and of their documents.
    pub components: Components,
    /// The subscriptions, in the order of the files and of their documents.
    pub subscriptions: Subs,
    /// What is bound to which target.
    pub policies: Policies,
}

/// Why a file is refused.
#[derive(Debug, Drop)]
pub enum Refusal {
    /// It has `len` bytes, which is more than 1,048,576.
    TooLong { len: u128 },
    /// It isn't read as YAML.
    Yaml(YamlErr),
    /// Its components aren't read, or not joined to those of the files before it.
    Components(SpecErr),
    /// Its subscriptions aren't read, or not joined to those of the files before it.
    Subscriptions(SubErr),
    /// Its policies aren't read, or not joined to those of the files before it.
    Policies(PolicyErr),
}

/// Why the files of a folder were not read.
#[derive(Debug, Drop)]
pub enum ResourcesErr {
    /// The file of this name is refused, and those before it are not.
    Refused { file: Text, refusal: Refusal },
    /// The folder can't be listed, or a file of it not read: the count of faults rose.
    Failed,
    /// There is no memory.
    NoMemory,
}

/// What no file says: no component, no subscription, and nothing is bound. Takes no memory.
pub(crate) fn nothing(alloc: Global) -> Resources
    ensures { result ≡ nothing_said }
{
    Resources {
        components: Components::new(alloc),
        subscriptions: Subs::new(alloc),
        policies: Policies::new(alloc),
    }
}
