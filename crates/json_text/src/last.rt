// The last member of each name, in order of the names.
ghost use Rattle.std.specs.Prelude.{◌≡◌, ℕ, List, IfOk, OnOk, Some, if◌then◌else◌};
ghost use Rattle.std.specs.Str.{bytes_eq};
ghost use Rattle.std.specs.BTreeMap.{IsOrdered, get_by_text};
ghost use Rattle.std.specs.String.{string_cmp, string_bytes};
ghost use Rattle.json_text.specs.Unescape.{name_shown};
ghost use Rattle.json_text.specs.Doc.{bytes_read, IsNode, OfNode, IsLastNamed};
ghost use Rattle.json_text.specs.LastMembers.{AreLastMembers, Noted, members_of};

use crate::doc::{Doc, Node};
use side_base::{NoMemory, Sequence, Text};
use std::alloc::Global;
use std::collections::BTreeMap;

/// A list of members.
pub type Members = Sequence<Member>;

/// A member of a map: its name, and the node of its value.
#[derive(Drop)]
pub struct Member {
    pub name: Text,
    pub node: Node,
}

impl<'a> Doc<'a> {
    /// The last member of each name, in byte order of the names; none for a value that is no map. It takes memory for the
    /// names, and time for k members as sorting k names.
    pub fn last_members(&self, alloc: Global, n: Node) -> Result<Members, NoMemory>
        requires { IsNode self.now n }
        ensures { OfNode self.now n (λ spot children later. IfOk result (AreLastMembers self.now children)) }
    {
        match last_by_name(self, alloc, n) {
            Ok(map) => in_order(alloc, map),
            Err(error) => Err(error),
        }
    }
}

// The last member of each name.
fn last_by_name(doc: &Doc<'_>, alloc: Global, n: Node) -> Result<BTreeMap<String, Node>, NoMemory>
    requires { IsNode doc.now n }
    ensures last { OfNode doc.now n (λ spot children later. IfOk result (λ map. (name : List ℕ) → IsLastNamed doc.now name children (get_by_text map name))) }
    ensures ordered { IfOk result (IsOrdered string_cmp) }
{
    let mut map = BTreeMap::new(alloc);
    let mut here = doc.first(n);
    loop {
        match here {
            Some(node) => {
                match note(doc, alloc, &mut map, node) {
                    Ok(()) => here = doc.next(node),
                    Err(error) => return Err(error),
                }
            }
            None => return Ok(map),
        }
    }
}

// Puts a member in place of an earlier one of its name; passes over a value that is no member.
fn note(
    doc: &Doc<'_>,
    alloc: Global,
    map: &mut BTreeMap<String, Node>,
    node: Node,
) -> Result<(), NoMemory>
    requires node { IsNode doc.now node }
    requires ordered { IsOrdered string_cmp map.old }
    ensures noted { OfNode doc.now node (λ spot children later. OnOk result ((name : List ℕ) → Noted (bytes_read doc.now) spot name node (get_by_text map.old name) (get_by_text map.new name))) }
    ensures ordered { IsOrdered string_cmp map.new }
{
    match doc.entry(node).spot.name {
        Some(_) => match name_string(doc, alloc, node) {
            Ok(name) => put(map, name, node),
            Err(error) => Err(error),
        },
        None => Ok(()),
    }
}

// Gives a name its node.
fn put(map: &mut BTreeMap<String, Node>, name: String, node: Node) -> Result<(), NoMemory>
    requires { IsOrdered string_cmp map.old }
    ensures put { OnOk result ((other : List ℕ) → get_by_text map.new other ≡ (if bytes_eq (string_bytes name) other then Some node else get_by_text map.old other)) }
    ensures ordered { IsOrdered string_cmp map.new }
{
    map.insert(name, node)?;
    Ok(())
}

fn name_string(doc: &Doc<'_>, alloc: Global, node: Node) -> Result<String, NoMemory>
    requires { IsNode doc.now node }
    ensures { OfNode doc.now node (λ spot children later. IfOk result (λ name. string_bytes name ≡ name_shown (bytes_read doc.now) spot)) }
{
    match doc.name_of(alloc, node) {
        Ok(text) => String::from_str(alloc, text.as_str()),
        Err(error) => Err(error),
    }
}

// The entries of a map, in order.
fn in_order(alloc: Global, mut map: BTreeMap<String, Node>) -> Result<Members, NoMemory>
    ensures { IfOk result (λ members. members ≡ members_of map.entries) }
{
    let mut members = Sequence::new(alloc);
    while let Some((name, node)) = map.pop_first() {
        let name = Text::from_string(name);
        match members.push(Member { name, node }) {
            Ok(()) => {}
            Err(error) => return Err(error),
        }
    }
    Ok(members)
}
