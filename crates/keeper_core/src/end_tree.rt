ghost use Rattle.std.specs.Prelude.{◌≡◌, ◌≢◌, ◌≤◌, ◌<◌, ◌+◌, ◌-◌, [], ℕ, Some, None, length, filter, option_map, slice_get, IfOk, IsTrue};
ghost use Rattle.std.specs.Vec.{vec_capacity};
ghost use Rattle.std.specs.FinMap.{find, put};
ghost use Rattle.keeper_core.specs.Rows.{byte_order, lapsed_in, is_behind};
ghost use Rattle.keeper_core.specs.Ends.{end_alone};
ghost use Rattle.keeper_core.specs.Tree.{without};
ghost use Rattle.keeper_core.specs.Shapes.{Shape, slots, key_at, entries_at, Holds, Proper, IsTree, Finds, PutsNode};
ghost use Rattle.keeper_core.specs.Removal.{TakesNode};
ghost use Rattle.keeper_core.specs.EndTable.{slots_in, ends_in, IsTop, IsPlaced, IsWhole};

use crate::insertion::insert;
use crate::links::{Link, NONE, last_moment, set_parent};
use crate::moving::relink;
use crate::removal::remove;
use crate::retiming::set_until;
use crate::seeking::{first_lapsed, next_lapsed, slot_of};
use side_base::NoMemory;
use std::alloc::Global;
use std::marker::Model;

/// Keys with the moments at which their rows end: a search tree, whose subtrees differ in height by at most one. Contracts see its ends
/// in the order of their keys, and for how many further keys there is room.
///
/// A key is found at the place that its row remembers, and only where that is another's by a search. A key whose row has no end any more
/// is taken out at once, and the last key of the list moves to its place.
#[derive(Drop)]
pub(crate) struct EndTree {
    links: Vec<Link>,
    keys: Vec<Vec<u8>>,
    root: usize,
}

impl Model for EndTree {
    ghost use Rattle.std.specs.Prelude.{◌-◌, min, length};
    ghost use Rattle.std.specs.Vec.{vec_capacity};
    ghost use Rattle.keeper_core.specs.EndTable.{EndTable, end_table_code, ends_in, IsWhole};

    ghost Value = { EndTable };

    ghost coded = { end_table_code };

    ghost view = { λ a. record { ends = ends_in a.keys.items a.links.items a.root; room = min (vec_capacity a.links - length a.links.items) (vec_capacity a.keys - length a.keys.items) } };

    ghost invariant = { λ a. IsWhole a.keys.items a.links.items a.root };
}

impl EndTree {
    /// No keys; takes no memory.
    pub(crate) fn new(alloc: Global) -> EndTree
        ensures { result.ends ≡ [] }
    {
        EndTree {
            links: Vec::new(alloc),
            keys: Vec::new(alloc),
            root: NONE,
        }
    }

    /// Whether no key has an end.
    pub(crate) fn is_empty(&self) -> bool
        ensures { IsTrue result → self.now.ends ≡ [] }
    {
        self.links.is_empty()
    }

    /// Takes memory for further keys.
    pub(crate) fn reserve(&mut self, alloc: Global, additional: usize) -> Result<(), NoMemory>
        ensures ends { self.new.ends ≡ self.old.ends }
        ensures room { IfOk result (λ _. additional ≤ self.new.room) }
    {
        self.links.reserve(additional)?;
        self.keys.reserve(additional)?;
        Ok(())
    }

    /// Gives a key an end, whatever it had, and answers its place; `hint` is the place that it may have. Takes no memory.
    pub(crate) fn give(&mut self, hint: usize, key: Vec<u8>, until: u64) -> usize
        requires until { until ≢ 0 }
        requires room { 0 < self.old.room }
        ensures ends { self.new.ends ≡ put byte_order key.items (end_alone until) self.old.ends }
        ensures room { self.old.room ≤ self.new.room + 1 }
    {
        match find_slot(&self.links, &self.keys, self.root, hint, &key) {
            Some(slot) => {
                set_until(&mut self.links, slot, until);
                slot
            }
            None => {
                let slot = self.links.len();
                self.root = add(&mut self.links, &mut self.keys, self.root, key, until);
                slot
            }
        }
    }

    /// Takes the end of a key away, where it has one; `hint` is the place that it may have.
    pub(crate) fn take(&mut self, hint: usize, key: &[u8])
        ensures ends { self.new.ends ≡ without key.now self.old.ends }
        ensures room { self.old.room ≤ self.new.room }
    {
        if let Some(slot) = find_slot(&self.links, &self.keys, self.root, hint, key) {
            self.root = take_out(&mut self.links, &mut self.keys, self.root, slot);
        }
    }

    /// The first key, of those behind `after` where it is given, whose row is not live at `moment`.
    pub(crate) fn next_lapsed(&self, after: Option<&[u8]>, moment: u64) -> Option<&[u8]>
        ensures { option_map (λ key. key.now) result ≡ slice_get (filter (is_behind (option_map (λ key. key.now) after.entry)) (lapsed_in moment self.now.ends)) 0 }
    {
        let slot = next_slot(&self.links, &self.keys, self.root, after, moment)?;
        Some(self.keys[slot].as_slice())
    }
}

/// The place of the first key, of those behind `after` where it is given, whose row is not live at `moment`.
fn next_slot(
    links: &[Link],
    keys: &[Vec<u8>],
    root: usize,
    after: Option<&[u8]>,
    moment: u64,
) -> Option<usize>
    requires { IsWhole keys.now links.now root }
    ensures lapsed { option_map (key_at keys.now) result ≡ slice_get (filter (is_behind (option_map (λ key. key.now) after.entry)) (lapsed_in moment (ends_in keys.now links.now root))) 0 }
    ensures within { (slot : ℕ) → result ≡ Some slot → slot < length links.now }
{
    match after {
        Some(after) => next_lapsed(links, keys, root, after, moment),
        None => first_lapsed(links, root, moment),
    }
}

/// Adds a key that a tree lacks, and answers its root.
fn add(
    links: &mut Vec<Link>,
    keys: &mut Vec<Vec<u8>>,
    root: usize,
    key: Vec<u8>,
    until: u64,
) -> usize
    requires whole { IsWhole keys.old.items links.old.items root }
    requires room { (length links.old.items < vec_capacity links.old) × (length keys.old.items < vec_capacity keys.old) }
    requires lacks { find byte_order key.items (entries_at keys.old.items links.old.items (slots_in links.old.items root)) ≡ None }
    ensures whole { IsWhole keys.new.items links.new.items result }
    ensures ends { ends_in keys.new.items links.new.items result ≡ put byte_order key.items (end_alone until) (ends_in keys.old.items links.old.items root) }
    ensures room { (vec_capacity links.new - length links.new.items + 1 ≡ vec_capacity links.old - length links.old.items) × (vec_capacity keys.new - length keys.new.items + 1 ≡ vec_capacity keys.old - length keys.old.items) }
{
    let slot = links.len();
    links.push_reserved(Link {
        left: NONE,
        right: NONE,
        parent: NONE,
        until,
        least: last_moment(until),
        height: 1,
    });
    keys.push_reserved(key);
    place(links, keys, root, slot)
}

/// Takes a node out of a tree, and answers its root; the last node of the list moves to its place.
fn take_out(links: &mut Vec<Link>, keys: &mut Vec<Vec<u8>>, root: usize, slot: usize) -> usize
    requires whole { IsWhole keys.old.items links.old.items root }
    requires slot { slot < length links.old.items }
    ensures whole { IsWhole keys.new.items links.new.items result }
    ensures ends { ends_in keys.new.items links.new.items result ≡ without (key_at keys.old.items slot) (ends_in keys.old.items links.old.items root) }
    ensures room { (vec_capacity links.old - length links.old.items ≤ vec_capacity links.new - length links.new.items) × (vec_capacity keys.old - length keys.old.items ≤ vec_capacity keys.new - length keys.new.items) }
{
    let root = lift_out(links, keys, root, slot);
    links.swap_remove(slot);
    keys.swap_remove(slot);
    relink(links, root, slot)
}

/// Takes a node out of a tree, and answers its root; the node stays in the list.
fn lift_out(links: &mut [Link], keys: &[Vec<u8>], root: usize, slot: usize) -> usize
    requires tree { IsTree links.old root }
    requires keys { length keys.now ≡ length links.old }
    requires slot { slot < length links.old }
    ensures { TakesNode keys.now links.old root slot (λ shape list. IsPlaced links.old links.new shape list result) }
{
    let root = remove(links, keys, root, slot);
    set_top(links, root);
    root
}

/// Puts a node without children among those of a tree, and answers their root.
fn place(links: &mut [Link], keys: &[Vec<u8>], root: usize, slot: usize) -> usize
    requires tree { IsTree links.old root }
    requires keys { length keys.now ≡ length links.old }
    requires slot { slot < length links.old }
    ensures { PutsNode keys.now links.old root slot (λ shape list. IsPlaced links.old links.new shape list result) }
{
    let root = insert(links, keys, root, slot);
    set_top(links, root);
    root
}

/// Makes a node the root: it has no parent.
fn set_top(links: &mut [Link], root: usize)
    ensures { (shape : Shape) → Holds links.old shape root → Proper (length links.old) (slots shape) → IsTop links.old links.new shape root }
{
    set_parent(links, root, NONE);
}

/// The place of a key; `hint` is the one that it may have.
fn find_slot(
    links: &[Link],
    keys: &[Vec<u8>],
    root: usize,
    hint: usize,
    key: &[u8],
) -> Option<usize>
    requires { IsWhole keys.now links.now root }
    ensures { Finds keys.now links.now (slots_in links.now root) key.now result }
{
    match keys.get(hint) {
        Some(other) if other.as_slice() == key => Some(hint),
        _ => slot_of(links, keys, root, key),
    }
}
