ghost use Rattle.std.specs.String.{string_bytes};
ghost use Rattle.std.specs.Prelude.{◌≡◌, [], ◌∷◌, OnOk, OnErr, IfOk, IfSome, IfNone, Some, None, ℕ, List, if◌then◌else◌, bytes_eq};
ghost use Rattle.policy_spec.specs.Named.{under, put_under, AreNames};

use retry_core::Bound;
use side_base::NoMemory;
use std::alloc::Global;
use std::collections::BTreeMap;
use std::marker::Model;

/// What stands under names. Contracts see it as the list of the names, in byte order, each with what stands under it.
#[derive(Drop)]
pub struct Named<V> {
    tree: BTreeMap<String, V>,
}

impl<V> Model for Named<V> {
    ghost use Rattle.std.specs.Prelude.{ℕ, List, map};
    ghost use Rattle.std.specs.BTreeMap.{IsOrdered};
    ghost use Rattle.std.specs.String.{string_bytes, string_cmp};

    ghost Value = { List (List ℕ × V) };

    ghost view = { λ n. map (λ e. (string_bytes e.0, e.1)) n.tree.entries };

    ghost invariant = { λ n. IsOrdered string_cmp n.tree };
}

impl<V: Copy + Drop> Named<V> {
    /// Nothing stands under any name. Takes no memory.
    pub fn new(alloc: Global) -> Self
        ensures { result ≡ [] }
    {
        Named {
            tree: BTreeMap::new(alloc),
        }
    }

    /// What stands under this name.
    pub fn find(&self, name: &str) -> Option<V>
        ensures { result ≡ under name.now self.now }
    {
        match self.tree.get(name) {
            Some(value) => Some(*value),
            None => None,
        }
    }

    /// Takes off the first name, with what stands under it. Takes no memory.
    pub fn take_first(&mut self) -> Option<(String, V)>
        ensures first { IfSome result (λ e. self.old ≡ (string_bytes e.0, e.1) ∷ self.new) }
        ensures apart { IfSome result (λ e. under (string_bytes e.0) self.new ≡ None) }
        ensures none { IfNone result (self.old ≡ []) }
    {
        self.tree.pop_first()
    }

    /// Puts something under a name, in place of what stood there; without memory all stays as it was.
    pub fn put(&mut self, name: String, value: V) -> Result<(), NoMemory>
        ensures ok { OnOk result (self.new ≡ put_under self.old (string_bytes name) value) }
        ensures found { OnOk result ((other : List ℕ) → under other self.new ≡ (if bytes_eq (string_bytes name) other then Some value else under other self.old)) }
        ensures names { AreNames self.new }
        ensures err { OnErr result (self.new ≡ self.old) }
    {
        self.tree.insert(name, value)?;
        Ok(())
    }
}

impl Named<Bound> {
    /// A copy of what is bound to names.
    pub fn copy(&self) -> Result<Self, NoMemory>
        ensures same { IfOk result (λ copy. copy ≡ self.now) }
        ensures names { AreNames self.now }
    {
        Ok(Named {
            tree: self.tree.clone()?,
        })
    }
}
