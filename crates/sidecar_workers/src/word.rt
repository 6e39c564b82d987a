//! The rule of a stop word, and what each step on it tells. These types are for proofs alone.

use crate::view::View;
use atomic_table::{Join, Play, Seat, Split, Table, TableRule};
use std::alloc::Global;
use std::marker::{Brand, PhantomData};

/// The place of the word: 0 where it is not set.
pub(crate) const WORD: usize = 0;

/// A seat of the word, of no bytes.
pub(crate) type Token = Seat<(), View>;

/// The word with its memory.
pub(crate) type Words = Table<(), View, (), Stopping, Global>;

pub(crate) struct Stopping;

impl TableRule<(), View, ()> for Stopping {
    ghost use Rattle.sidecar_workers.specs.StopRule.{StopRule, opening_view};

    ghost holds = { λ _. StopRule };

    ghost first = { λ _. opening_view };
}

/// Why a seat sets the word, for the proof alone: the call picks it.
pub(crate) trait Why {
    ghost use Rattle.std.specs.Prelude.{Option};
    ghost use Rattle.sidecar_workers.specs.declared.reason.Reason.{Reason};

    ghost reason: { Option Reason };
}

impl Why for Brand {
    ghost use Rattle.std.specs.Prelude.{None};

    ghost reason = { None };
}

pub(crate) struct Look;

impl Play<(), View> for Look {
    ghost use Rattle.sidecar_workers.specs.StopPlay.{looked};

    ghost then = { λ _. looked };
}

pub(crate) struct Halt<W> {
    why: PhantomData<W>,
}

impl<W: Why> Play<(), View> for Halt<W> {
    ghost use Rattle.sidecar_workers.specs.StopPlay.{halted};

    ghost then = { λ _. halted W.reason };
}

pub(crate) struct Grow;

impl Split<View> for Grow {
    ghost use Rattle.sidecar_workers.specs.StopPlay.{parent_view, child_view};

    ghost left = { parent_view };

    ghost right = { λ _. child_view };
}

pub(crate) struct Gather;

impl Join<View> for Gather {
    ghost use Rattle.sidecar_workers.specs.StopPlay.{joined_view, spent_view};

    ghost both = { joined_view };

    ghost spent = { spent_view };
}
