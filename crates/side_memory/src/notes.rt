ghost use Rattle.std.specs.Prelude.{◌≡◌, List, [], ◌∷◌, ◌++◌, Some, None, IfSome, option_map};
ghost use Rattle.side_world.specs.Told.{Tells};

use std::alloc::Global;
use std::marker::Model;

/// A list of what was called or answered, which is told until there is no room for a further item.
#[derive(Debug, Drop)]
pub(crate) struct Notes<T> {
    kept: Option<Vec<T>>,
}

impl<T> Model for Notes<T> {
    ghost use Rattle.std.specs.Prelude.{Option, List, option_map};

    ghost Value = { Option (List T) };

    ghost view = { λ n. option_map (λ v. v.items) n.kept };
}

impl<T: Drop> Notes<T> {
    /// An empty list, which is told; takes no memory.
    pub(crate) fn new(alloc: Global) -> Self
        ensures { result ≡ Some [] }
    {
        Notes {
            kept: Some(Vec::new(alloc)),
        }
    }

    /// Adds an item; without memory the list is told no more.
    pub(crate) fn add(&mut self, item: T)
        ensures { Tells self.old self.new (item ∷ []) }
    {
        if let Some(kept) = &mut self.kept {
            if kept.push(item).is_err() {
                self.kept = None;
            }
        }
    }

    /// Takes off the last item, where the list is told and has one.
    pub(crate) fn take_last(&mut self) -> Option<T>
        ensures { IfSome result (λ last. (items : List T) × (self.old ≡ Some (items ++ last ∷ [])) × (self.new ≡ Some items)) }
    {
        match &mut self.kept {
            Some(kept) => kept.pop(),
            None => None,
        }
    }

    /// Tells the list no more.
    pub(crate) fn stop(&mut self)
        ensures { self.new ≡ None }
    {
        self.kept = None;
    }

    /// The items, where they are told.
    pub(crate) fn items(&self) -> Option<&[T]>
        ensures { option_map (λ s. s.now) result ≡ self.now }
    {
        match &self.kept {
            Some(kept) => Some(kept),
            None => None,
        }
    }
}
