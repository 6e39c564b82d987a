// The names that stand in a row, kept in order, so that a row of n names takes time as sorting them.
ghost use Rattle.std.specs.Prelude.{◌≡◌, ◌||◌, ◌∷◌, [], ℕ, List, bytes_eq, IfOk, OnOk};
ghost use Rattle.yaml_subset.specs.Names.{has_name};

use std::alloc::{AllocError, Global};
use std::collections::BTreeSet;
use std::marker::Model;

/// Names. Contracts see them as a list.
#[derive(Drop)]
pub struct Names {
    kept: BTreeSet<Vec<u8>>,
}

impl Model for Names {
    ghost use Rattle.std.specs.Prelude.{ℕ, List, map};

    ghost Value = { List (List ℕ) };

    ghost view = { λ n. map (λ k. k.items) n.kept.keys };
}

impl Names {
    /// None.
    fn new(alloc: Global) -> Names
        ensures { result ≡ [] }
    {
        Names {
            kept: BTreeSet::new(alloc),
        }
    }

    /// One name.
    pub(crate) fn of(alloc: Global, name: &[u8]) -> Result<Names, AllocError>
        ensures { IfOk result (λ names. (other : List ℕ) → has_name names other ≡ bytes_eq other name.now) }
    {
        let mut names = Names::new(alloc);
        names.add(alloc, name)?;
        Ok(names)
    }

    /// One name more. Tells whether it was there.
    pub(crate) fn add(&mut self, alloc: Global, name: &[u8]) -> Result<bool, AllocError>
        ensures told { IfOk result (λ was_there. was_there ≡ has_name self.old name.now) }
        ensures added { OnOk result ((other : List ℕ) → has_name self.new other ≡ (bytes_eq other name.now || has_name self.old other)) }
    {
        let is_new = self.kept.insert(Vec::from_slice(alloc, name)?)?;
        Ok(!is_new)
    }
}
