ghost use Rattle.std.specs.Prelude.{◌≡◌, ◌<◌, ◌≤◌, [], length, slice_index_or, option_map, position, bytes_eq, take, ◌+◌, Ok, OnOk, IfErr};
ghost use Rattle.std.specs.List.{list_any};
ghost use Rattle.resource_spec.specs.Load.{clashes, added, joined, IsSpecErr, IsChange};
ghost use Rattle.resource_spec.specs.Components.{component_named};

use crate::clash::is_clash;
use crate::component::Component;
use crate::spec_err::SpecErr;
use side_base::Sequence;
use std::alloc::Global;
use std::marker::Model;

/// Components, in the order of their documents: at most 256, of which no two have one name. Contracts see them as a list.
#[derive(Debug, Drop)]
pub struct Components {
    list: Vec<Component>,
}

impl Model for Components {
    ghost use Rattle.std.specs.Prelude.{◌≤◌, List, length};
    ghost use Rattle.resource_spec.specs.Component.{Loaded};

    ghost Value = { List Loaded };

    ghost view = { λ c. c.list.items };

    ghost invariant = { λ c. length c.list.items ≤ 256 };
}

impl Components {
    /// No components; takes no memory.
    pub fn new(alloc: Global) -> Components
        ensures { result ≡ [] }
    {
        Components {
            list: Vec::new(alloc),
        }
    }

    // Whether an earlier component has the name or the file of this one.
    fn has_clash(&self, c: &Component) -> bool
        ensures { result ≡ list_any (clashes c.now) self.now }
    {
        self.list.iter().any(|other| is_clash(c, other))
    }

    /// Adds a component at the end; `count` is told where there are 256 already. On a refusal nothing changes.
    pub(crate) fn add(&mut self, c: Component, count: u64) -> Result<(), SpecErr>
        ensures { IsChange result self.old self.new (added count c self.old) }
    {
        if self.has_clash(&c) {
            return match c.name().copy() {
                Ok(name) => Err(SpecErr::Repeated { name }),
                Err(_) => Err(SpecErr::NoMemory),
            };
        }
        if self.list.len() >= 256 {
            return Err(SpecErr::TooMany { count });
        }
        match self.list.push(c) {
            Ok(()) => Ok(()),
            Err(_) => Err(SpecErr::NoMemory),
        }
    }

    // Adds components, up to the first that is refused.
    fn add_each(&mut self, mut more: Sequence<Component>, count: u64) -> Result<(), SpecErr>
        ensures ok { OnOk result (joined count self.old more ≡ Ok self.new) }
        ensures err { IfErr result (λ e. IsSpecErr e (joined count self.old more)) }
        ensures behind { take (length self.old) self.new ≡ self.old }
    {
        while let Some(c) = more.take_first() {
            match self.add(c, count) {
                Ok(()) => {}
                Err(error) => return Err(error),
            }
        }
        Ok(())
    }

    /// Adds components behind these, in their order; these are unchanged where one is refused.
    pub(crate) fn add_all(&mut self, more: Components) -> Result<(), SpecErr>
        ensures { IsChange result self.old self.new (joined (length self.old + length more) self.old more) }
    {
        let len = self.len();
        let count = len + more.len();
        match self.add_each(Sequence::from_vec(more.list), count as u64) {
            Ok(()) => Ok(()),
            Err(error) => {
                self.truncate(len);
                Err(error)
            }
        }
    }

    // Takes off all but the first components.
    fn truncate(&mut self, len: usize)
        ensures { self.new ≡ take len self.old }
    {
        self.list.truncate(len)
    }

    /// The number of components.
    pub fn len(&self) -> usize
        ensures exact { result ≡ length self.now }
        ensures within { result ≤ 256 }
    {
        self.list.len()
    }

    /// The component at this place, counted from 0.
    pub fn at(&self, place: usize) -> &Component
        requires { place < length self.now }
        ensures { result.now ≡ slice_index_or self.now place result.now }
    {
        &self.list[place]
    }

    /// The component of this name; `None` exactly where there is none.
    pub fn find(&self, name: &[u8]) -> Option<&Component>
        ensures { option_map (λ c. c.now) result ≡ component_named name.now self.now }
    {
        self.list.iter().find(|c| c.name().bytes() == name)
    }

    /// The place of the component of this name; `None` exactly where there is none.
    pub fn place_of(&self, name: &[u8]) -> Option<usize>
        ensures { result ≡ position (λ c. bytes_eq c.name name.now) self.now }
    {
        self.list.iter().position(|c| c.name().bytes() == name)
    }
}
