ghost use Rattle.std.specs.Prelude.{◌≡◌, ◌<◌, List, [], ◌∷◌, ◌++◌, length, slice_index_or, IsNone, IsTrue, OnOk, OnErr, IfSome, IfNone, ◌↔◌};

use crate::NoMemory;
use std::alloc::Global;
use std::collections::VecDeque;
use std::marker::Model;

/// A list of places, each counted from 0.
pub type Places = Sequence<u32>;

/// An ordered list of items, which contracts see as a list.
///
/// Both ends are cheap: an item is added at the back, and taken off at the front, in constant time.
#[derive(Debug, Drop)]
pub struct Sequence<T> {
    items: VecDeque<T>,
}

impl<T> Model for Sequence<T> {
    ghost Value = { List T };

    ghost view = { λ s. s.items.items };
}

impl<T: Drop> Sequence<T> {
    /// No items; takes no memory.
    pub fn new(alloc: Global) -> Self
        ensures { result ≡ [] }
    {
        Sequence {
            items: VecDeque::new(alloc),
        }
    }

    /// The items of a `Vec`, in order; takes no memory.
    pub fn from_vec(items: Vec<T>) -> Self
        ensures { result ≡ items.items }
    {
        Sequence {
            items: VecDeque::from_vec(items),
        }
    }

    /// The items as a `Vec`, in order; takes no memory.
    pub fn into_vec(self) -> Vec<T>
        ensures { result.items ≡ self }
    {
        self.items.into_vec()
    }

    /// Adds `item` at the end; without memory the list stays as it was, and the item is dropped.
    pub fn push(&mut self, item: T) -> Result<(), NoMemory>
        ensures ok { OnOk result (self.new ≡ self.old ++ item ∷ []) }
        ensures err { OnErr result (self.new ≡ self.old) }
    {
        self.items.push_back(item)?;
        Ok(())
    }

    /// The number of items.
    pub fn len(&self) -> usize
        ensures { result ≡ length self.now }
    {
        self.items.len()
    }

    /// Whether there is no item.
    pub fn is_empty(&self) -> bool
        ensures { IsTrue result ↔ (self.now ≡ []) }
    {
        self.items.is_empty()
    }

    /// The item at place `i`, counted from 0.
    pub fn at(&self, i: usize) -> &T
        requires { i < length self.now }
        ensures { result.now ≡ slice_index_or self.now i result.now }
    {
        &self.items[i]
    }

    /// Takes off the first item; `None` exactly where there is none. Takes no memory.
    pub fn take_first(&mut self) -> Option<T>
        ensures none { IsNone result ↔ (self.old ≡ []) }
        ensures first { IfSome result (λ item. self.old ≡ item ∷ self.new) }
        ensures unchanged { IfNone result (self.new ≡ self.old) }
    {
        self.items.pop_front()
    }
}
