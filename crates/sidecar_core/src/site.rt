ghost use Rattle.std.specs.Prelude.{◌≡◌};
ghost use Rattle.retry_core.specs.Bound.{IsWithinLimit};

use retry_core::Bound;
use side_base::Text;
use state_core::Prefix;
use std::marker::Model;

/// A store as requests find it: the stores stand in the order of their components, and so do their cells. Contracts see it as the record of
/// its parts.
#[derive(Drop)]
pub struct StoreSite {
    name: Text,
    prefix: Prefix,
    bound: Bound,
}

impl Model for StoreSite {
    ghost use Rattle.retry_core.specs.Bound.{IsWithinLimit};
    ghost use Rattle.sidecar_core.specs.Site.{Site};

    ghost Value = { Site };

    ghost view = { λ s. record { name = s.name; prefix = s.prefix; bound = s.bound } };

    ghost invariant = { λ s. IsWithinLimit s.bound };
}

impl StoreSite {
    /// A store of these parts. Takes no memory.
    pub fn new(name: Text, prefix: Prefix, bound: Bound) -> StoreSite
        requires { IsWithinLimit bound }
        ensures { result ≡ record { name = name; prefix = prefix; bound = bound } }
    {
        StoreSite {
            name,
            prefix,
            bound,
        }
    }

    /// The name of its component.
    pub fn name(&self) -> &Text
        ensures { result.now ≡ self.now.name }
    {
        &self.name
    }

    /// What stands before its keys.
    pub fn prefix(&self) -> &Prefix
        ensures { result.now ≡ self.now.prefix }
    {
        &self.prefix
    }

    /// What is bound to the calls that are sent to it.
    pub fn bound(&self) -> &Bound
        ensures value { result.now ≡ self.now.bound }
        ensures within { IsWithinLimit result.now }
    {
        &self.bound
    }
}
