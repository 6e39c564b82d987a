//! Lists of parts of a body: read in order, and then judged in order.
ghost use Rattle.std.specs.Prelude.{◌≡◌, ◌++◌, ◌∷◌, [], List, Result, Ok, ℕ, IfOk, IfErr, All};
ghost use Rattle.json_text.specs.Doc.{IsNode, bytes_read};
ghost use Rattle.state_core.specs.declared.command.Prefix.{Prefix as PrefixRecord};
ghost use Rattle.state_api.specs.declared.what.What.{What as WhatData};
ghost use Rattle.state_api.specs.declared.what.StateErr.TheVariants.{NoMemory};
ghost use Rattle.state_api.specs.Given.{Gives, each};
ghost use Rattle.state_api.specs.Values.{IsAt, Value};
ghost use Rattle.state_api.specs.Raw.{few_of, list_in, listed_in};
ghost use Rattle.state_api.specs.Kept.{Kept};

use crate::values::{SHAPE, is_list, is_map, member};
use crate::{StateErr, What};
use json_text::{Doc, Node};
use side_base::Sequence;
use state_core::Prefix;
use std::alloc::Global;

/// The most items, keys or operations of a request.
const MOST: usize = 1_024;

/// A part of a body.
pub(crate) trait Part: Drop {
    /// What its words ask for.
    type Asked: Drop;

    /// What a value says.
    ghost says: { List ℕ → Value → Result Self WhatData };

    /// What its words mean.
    ghost means: { PrefixRecord → Self → Result Self.Asked WhatData };

    /// What holds of each that is asked.
    ghost fine: { PrefixRecord → Self.Asked → Type 0 };

    /// Reads a value.
    fn read(alloc: Global, doc: &Doc<'_>, n: Node) -> Result<Self, StateErr>
        requires { IsNode doc.now n }
        ensures { (value : Value) → IsAt doc.now n value → Gives result (says (bytes_read doc.now) value) };

    /// Judges its words.
    fn ask(self, alloc: Global, prefix: &Prefix) -> Result<Self::Asked, StateErr>
        ensures gives { Gives result (means prefix.now self) }
        ensures fine { IfOk result (fine prefix.now) };
}

/// Reads the items of a list, of which there may be 1,024. Behind these the others are read, and not kept.
pub(crate) fn read_list<P: Part>(
    alloc: Global,
    doc: &Doc<'_>,
    n: Node,
) -> Result<Sequence<P>, StateErr>
    requires { IsNode doc.now n }
    ensures { (value : Value) → IsAt doc.now n value → Gives result (few_of (list_in (P.says (bytes_read doc.now)) value)) }
{
    if !is_list(doc, n) {
        return Err(SHAPE);
    }
    let mut parts = Sequence::new(alloc);
    let mut many = false;
    let mut here = doc.first(n);
    loop {
        match here {
            Some(node) => match P::read(alloc, doc, node) {
                Ok(part) => match keep(&mut parts, many, part) {
                    Ok(more) => {
                        many = more;
                        here = doc.next(node);
                    }
                    Err(error) => return Err(error),
                },
                Err(error) => return Err(error),
            },
            None => return all_kept(parts, many),
        }
    }
}

/// Keeps one more part, if fewer than 1,024 are kept; answers whether there were more. `many`: whether there were before.
fn keep<P: Drop>(parts: &mut Sequence<P>, many: bool, part: P) -> Result<bool, StateErr>
    ensures kept { IfOk result (λ more. (read : List P) → Kept many parts.old read → Kept more parts.new (read ++ part ∷ [])) }
    ensures refused { IfErr result (λ error. error ≡ NoMemory) }
{
    if parts.len() >= MOST {
        return Ok(true);
    }
    match parts.push(part) {
        Ok(()) => Ok(many),
        Err(_) => Err(StateErr::NoMemory),
    }
}

/// The parts, if there were no more than were kept.
fn all_kept<P: Drop>(parts: Sequence<P>, many: bool) -> Result<Sequence<P>, StateErr>
    ensures { (read : List P) → Kept many parts read → Gives result (few_of (Ok read)) }
{
    if many {
        Err(StateErr::Malformed {
            what: What::TooMany,
        })
    } else {
        Ok(parts)
    }
}

/// Judges the words of parts, in order.
pub(crate) fn ask_all<P: Part>(
    alloc: Global,
    prefix: &Prefix,
    mut parts: Sequence<P>,
) -> Result<Sequence<P::Asked>, StateErr>
    ensures gives { Gives result (each (P.means prefix.now) parts) }
    ensures fine { IfOk result (All (P.fine prefix.now)) }
{
    let mut asked = Sequence::new(alloc);
    while let Some(part) = parts.take_first() {
        match part.ask(alloc, prefix) {
            Ok(one) => match asked.push(one) {
                Ok(()) => {}
                Err(_) => return Err(StateErr::NoMemory),
            },
            Err(error) => return Err(error),
        }
    }
    Ok(asked)
}

/// Reads the items of the list that a map has under a name, of which there may be 1,024.
pub(crate) fn read_listed<P: Part>(
    alloc: Global,
    doc: &Doc<'_>,
    n: Node,
    name: &[u8],
) -> Result<Sequence<P>, StateErr>
    requires { IsNode doc.now n }
    ensures { (value : Value) → IsAt doc.now n value → Gives result (few_of (listed_in (P.says (bytes_read doc.now)) (bytes_read doc.now) name.now value)) }
{
    if !is_map(doc, n) {
        return Err(SHAPE);
    }
    match member(doc, n, name) {
        Some(list) => read_list(alloc, doc, list),
        None => Err(SHAPE),
    }
}
