//! The rule of a cell's table, and what each step on it tells. These types are for proofs alone.

use crate::Object;
use crate::entry::Entry;
use crate::view::View;
use atomic_table::{Join, Play, Seat, Shared, Split, Table, TableRule};
use std::alloc::Global;
use std::marker::{Brand, PhantomData};
use std::snapshot::Snapshot;

// The word with the next ticket, the word with the ticket that is served, and the slot with the object. Both words are looked at together, so they stand beside each other; the words before and after
// them keep other memory off their cache line, wherever the block begins.
pub(crate) const TICKET: usize = 6;

pub(crate) const SERVING: usize = 7;

pub(crate) const OBJECT: usize = 0;

/// What a seat knows of a cell of `O`.
pub(crate) type Knowledge<O> = View<O, <O as Object>::Cmd, <O as Object>::Reply>;

/// A seat of the table, of no bytes.
pub(crate) type Token<O> = Seat<Option<O>, Knowledge<O>>;

/// The words and the slot of a cell.
pub(crate) type Words<O> = Shared<Option<O>, Knowledge<O>, Snapshot<O>, Turns>;

/// The words and the slot with their memory.
pub(crate) type Store<O> = Table<Option<O>, Knowledge<O>, Snapshot<O>, Turns, Global>;

pub(crate) struct Turns;

impl<O: Object> TableRule<Option<O>, View<O, O::Cmd, O::Reply>, Snapshot<O>> for Turns {
    ghost use Rattle.turn_cell.specs.Rule.{Rule};
    ghost use Rattle.turn_cell.specs.Play.{opening_view};

    ghost holds = { λ key. Rule O.Object key.value };

    ghost first = { λ key. opening_view key.value };
}

/// The entry that a step decides, for the proof alone: the call picks it.
pub(crate) trait Decision<C, R> {
    ghost use Rattle.std.specs.Prelude.{Option};
    ghost use Rattle.turn_cell.specs.declared.entry.Entry.{Entry};

    ghost entry: { Option (Entry C R) };
}

impl<C, R> Decision<C, R> for Brand {
    ghost use Rattle.std.specs.Prelude.{None};

    ghost entry = { None };
}

pub(crate) struct Glance;

impl<O: Object> Play<Option<O>, View<O, O::Cmd, O::Reply>> for Glance {
    ghost use Rattle.turn_cell.specs.Play.{glanced};

    ghost then = { λ _. glanced O.Object };
}

pub(crate) struct Draw;

impl<O: Object> Play<Option<O>, View<O, O::Cmd, O::Reply>> for Draw {
    ghost use Rattle.turn_cell.specs.Play.{drew};

    ghost then = { λ _. drew };
}

pub(crate) struct Look;

impl<O: Object> Play<Option<O>, View<O, O::Cmd, O::Reply>> for Look {
    ghost use Rattle.turn_cell.specs.Play.{looked};

    ghost then = { λ _. looked O.Object };
}

pub(crate) struct Decide<W> {
    decision: PhantomData<W>,
}

impl<O: Object, W: Decision<O::Cmd, O::Reply>> Play<Option<O>, View<O, O::Cmd, O::Reply>>
    for Decide<W> {
    ghost use Rattle.turn_cell.specs.Play.{decided};

    ghost then = { λ _. decided W.entry };
}

pub(crate) struct Leave;

impl<O: Object> Play<Option<O>, View<O, O::Cmd, O::Reply>> for Leave {
    ghost use Rattle.turn_cell.specs.Play.{left};

    ghost then = { λ _. left O.Object };
}

pub(crate) struct Pass;

impl<O: Object> Play<Option<O>, View<O, O::Cmd, O::Reply>> for Pass {
    ghost use Rattle.turn_cell.specs.Play.{passed};

    ghost then = { λ _. passed O.Object };
}

pub(crate) struct Meet;

impl<O: Object> Play<Option<O>, View<O, O::Cmd, O::Reply>> for Meet {
    ghost use Rattle.turn_cell.specs.Play.{met};

    ghost then = { λ _. met O.Object };
}

pub(crate) struct Grow;

impl<O, C, R> Split<View<O, C, R>> for Grow {
    ghost use Rattle.turn_cell.specs.Play.{parent_view, child_view};

    ghost left = { parent_view };

    ghost right = { child_view };
}

pub(crate) struct Gather;

impl<O, C, R> Join<View<O, C, R>> for Gather {
    ghost use Rattle.turn_cell.specs.Play.{joined_view, spent_view};

    ghost both = { joined_view };

    ghost spent = { spent_view };
}
