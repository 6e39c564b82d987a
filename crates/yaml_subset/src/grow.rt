// What a line adds to what has been read.
ghost use Rattle.std.specs.Prelude.{◌≡◌, ◌&&◌, ◌++◌, ◌∷◌, [], ℕ, List, Some, true, false, IfOk, OnOk, map, if◌then◌else◌};
ghost use Rattle.yaml_lines.specs.LineShown.{value_shown};
ghost use Rattle.yaml_lines.specs.Shown.{leaf_shown, spelled_shown, item_shown};
ghost use Rattle.yaml_subset.specs.Front.{Front};
ghost use Rattle.yaml_subset.specs.Grown.{Begins, Turns, may_open, IsLed, Sets, SetsSpelled};
ghost use Rattle.yaml_subset.specs.Held.{Stands, node_shown, last_with, Placed, OpensNames, AddsName};
ghost use Rattle.yaml_subset.specs.Refusal.{is_holder, is_deep, misplaced, misplaced_in, counts_as_level, with_leaf};
ghost use Rattle.yaml_subset.specs.Tree.{holder_kind, item_entries};

use crate::error::YamlErr;
use crate::names::Names;
use crate::node::Node;
use crate::open::{Holder, Open, Tip};
use crate::reader::Reader;
use std::alloc::{AllocError, Global};
use yaml_lines::{Item, Leaf, PartKind, Spelled, Value};

/// A row that begins: what holds it, its column, its line and its name.
#[derive(Drop)]
pub struct Row {
    pub holder: Holder,
    pub column: usize,
    pub line: usize,
    pub name: Vec<u8>,
}

fn kind_of_holder(holder: Holder) -> PartKind
    ensures { result ≡ holder_kind holder }
{
    match holder {
        Holder::File => PartKind::Sequence,
        Holder::Mapping => PartKind::Mapping,
        Holder::Sequence => PartKind::Sequence,
    }
}

fn node_of(alloc: Global, depth: usize, line: usize, name: Vec<u8>) -> Node
    ensures { node_shown result ≡ record { depth = depth; line = line; kind = PartKind.Empty; name = name.items; text = [] } }
{
    Node {
        depth,
        line,
        kind: PartKind::Empty,
        name,
        text: Vec::new(alloc),
    }
}

// Only members may not have the name of an earlier row.
fn is_repeated_in(holder: Holder, was_there: bool) -> bool
    ensures { result ≡ (is_holder holder Holder.Mapping && was_there) }
{
    match holder {
        Holder::File => false,
        Holder::Mapping => was_there,
        Holder::Sequence => false,
    }
}

// A part is opened, whose first row has this name.
fn open_names(alloc: Global, names: &mut Vec<Names>, name: &[u8]) -> Result<(), AllocError>
    ensures { OnOk result (OpensNames names.old.items names.new.items name.now) }
{
    let first = Names::of(alloc, name)?;
    names.push(first)?;
    Ok(())
}

// The innermost part that is open gets a row of this name. Tells whether an earlier one has it.
fn add_name(alloc: Global, names: &mut Vec<Names>, name: &[u8]) -> Result<bool, AllocError>
    ensures { IfOk result (λ was_there. (outer : List (List (List ℕ))) (last : List (List ℕ)) → names.old.items ≡ outer ++ last ∷ [] → AddsName outer last names.new.items name.now was_there) }
{
    match names.pop() {
        Some(mut last) => {
            let was_there = last.add(alloc, name)?;
            names.push(last)?;
            Ok(was_there)
        }
        None => Ok(false),
    }
}

fn tip_for(plain: bool) -> Tip
    ensures { result ≡ (if plain then Tip.Plain else Tip.Other) }
{
    if plain { Tip::Plain } else { Tip::Other }
}

// Gives the last node a kind and a text.
fn set_last(nodes: &mut Vec<Node>, kind: PartKind, text: Vec<u8>) -> Result<(), AllocError>
    ensures { OnOk result (map node_shown nodes.new.items ≡ last_with kind text.items (map node_shown nodes.old.items)) }
{
    match nodes.pop() {
        Some(mut node) => {
            node.kind = kind;
            node.text = text;
            nodes.push(node)?;
            Ok(())
        }
        None => Ok(()),
    }
}

fn push_items(
    alloc: Global,
    nodes: &mut Vec<Node>,
    depth: usize,
    line: usize,
    items: Vec<Item>,
) -> Result<(), AllocError>
    ensures { OnOk result (map node_shown nodes.new.items ≡ map node_shown nodes.old.items ++ item_entries depth line (map item_shown items.items)) }
{
    for item in items {
        nodes.push(Node {
            depth,
            line,
            kind: item.kind,
            name: Vec::new(alloc),
            text: item.text,
        })?;
    }
    Ok(())
}

fn nests_deeper(leaf: &Spelled<Leaf>) -> bool
    ensures { result ≡ counts_as_level (spelled_shown leaf_shown leaf.now) }
{
    match leaf {
        Spelled::Good(leaf) => match leaf.kind {
            PartKind::Scalar => false,
            PartKind::Empty => false,
            PartKind::Sequence => true,
            PartKind::Mapping => true,
        },
        Spelled::LeftOut(_) => false,
        Spelled::Wrong(counts) => *counts,
    }
}

impl Reader {
    // Rows begin in what the last row has.
    fn begin(&mut self, alloc: Global, row: Row) -> Result<(), AllocError>
        ensures { OnOk result (Begins self.old self.new row) }
    {
        set_last(&mut self.nodes, kind_of_holder(row.holder), Vec::new(alloc))?;
        open_names(alloc, &mut self.names, &row.name)?;
        let part = Open {
            holder: row.holder,
            column: row.column,
        };
        let node = node_of(alloc, self.opened.len(), row.line, row.name);
        self.opened.push(part)?;
        self.nodes.push(node)?;
        self.tip = Tip::Absent;
        Ok(())
    }

    // The rows of which so many parts are kept take one more. Tells whether its name is taken.
    fn turn(&mut self, alloc: Global, count: usize, row: Row) -> Result<bool, AllocError>
        ensures { IfOk result (Turns self.old self.new count row) }
    {
        self.opened.truncate(count);
        self.names.truncate(count);
        let was_there = add_name(alloc, &mut self.names, &row.name)?;
        let repeated = is_repeated_in(row.holder, was_there);
        let node = node_of(alloc, count.saturating_sub(1), row.line, row.name);
        self.nodes.push(node)?;
        self.tip = Tip::Absent;
        Ok(repeated)
    }

    // Rows begin with the lead of one.
    fn lead_in(&mut self, alloc: Global, row: Row) -> Result<bool, YamlErr>
        ensures { (front : Front) (first : ℕ) → Stands self.old front → may_open front row ≡ true → is_deep front.frames ≡ false → IsLed self.new result row first front }
    {
        match self.begin(alloc, row) {
            Ok(()) => Ok(false),
            Err(_) => Err(YamlErr::NoMemory),
        }
    }

    // Rows that are open go on with the lead of one.
    fn lead_on(&mut self, alloc: Global, row: Row) -> Result<bool, YamlErr>
        ensures { (front : Front) (first : ℕ) → Stands self.old front → may_open front row ≡ false → IsLed self.new result row first front }
    {
        match self.kept(row.holder, row.column) {
            Some(count) => match self.turn(alloc, count, row) {
                Ok(repeated) => Ok(repeated),
                Err(_) => Err(YamlErr::NoMemory),
            },
            None => Err(misplaced_error(row.line, self.has_column_at(row.column))),
        }
    }

    /// Takes the lead of a row, which `first` begins. Tells whether its name is taken.
    pub(crate) fn lead(&mut self, alloc: Global, row: Row, first: u8) -> Result<bool, YamlErr>
        ensures { (front : Front) → Stands self.old front → IsLed self.new result row first front }
    {
        if self.begins_at(row.holder, row.column) {
            if self.is_full() {
                return Err(YamlErr::LeftOut {
                    line: row.line,
                    what: first,
                });
            }
            return self.lead_in(alloc, row);
        }
        self.lead_on(alloc, row)
    }

    // The last row has this value.
    fn set(&mut self, alloc: Global, line: usize, value: Leaf) -> Result<(), AllocError>
        ensures { OnOk result (Sets self.old self.new line value) }
    {
        set_last(&mut self.nodes, value.kind, value.text)?;
        push_items(alloc, &mut self.nodes, self.opened.len(), line, value.items)?;
        self.tip = tip_for(value.plain);
        Ok(())
    }

    // The last row has what this spells, where it spells something.
    fn set_spelled(
        &mut self,
        alloc: Global,
        line: usize,
        leaf: Spelled<Leaf>,
    ) -> Result<(), YamlErr>
        ensures { SetsSpelled self.old self.new result line leaf }
    {
        match leaf {
            Spelled::Good(leaf) => match self.set(alloc, line, leaf) {
                Ok(()) => Ok(()),
                Err(_) => Err(YamlErr::NoMemory),
            },
            Spelled::LeftOut(_) => Ok(()),
            Spelled::Wrong(_) => Ok(()),
        }
    }

    // Whether what this spells would be one level too deep.
    fn is_too_deep(&self, leaf: &Spelled<Leaf>) -> bool
        ensures { (front : Front) → Stands self.now front → result ≡ (counts_as_level (spelled_shown leaf_shown leaf.now) && is_deep front.frames) }
    {
        let nests = nests_deeper(leaf);
        let full = self.is_full();
        nests && full
    }

    /// Takes a value.
    pub(crate) fn value(&mut self, alloc: Global, line: usize, value: Value) -> Result<(), YamlErr>
        ensures { (front : Front) → Stands self.old front → Placed self.new result (with_leaf line (Some (value_shown value)) front) }
    {
        let column = value.column;
        if !self.has_at(column) {
            return Err(misplaced_error(line, self.has_column_at(column)));
        }
        if self.is_too_deep(&value.leaf) {
            return Err(YamlErr::LeftOut {
                line,
                what: value.first,
            });
        }
        self.set_spelled(alloc, line, value.leaf)
    }
}

// Something stands in a column of an open part, but is of another kind, or stands in no such column.
fn misplaced_error(line: usize, has_column: bool) -> YamlErr
    ensures { result ≡ misplaced line 0 (misplaced_in has_column) }
{
    if has_column {
        YamlErr::Scalar { line }
    } else {
        YamlErr::Indent { line }
    }
}
