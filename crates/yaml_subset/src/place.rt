// Where something may stand behind what has been read.
ghost use Rattle.std.specs.Prelude.{◌≡◌, ◌==◌, ◌&&◌, List};
ghost use Rattle.std.specs.List.{list_any};
ghost use Rattle.yaml_subset.specs.Front.{Frame, Front};
ghost use Rattle.yaml_subset.specs.Held.{Stands, openings, tip_of};
ghost use Rattle.yaml_subset.specs.Kept.{kept_count};
ghost use Rattle.yaml_subset.specs.Layout.{may_hold};
ghost use Rattle.yaml_subset.specs.Refusal.{is_holder, is_absent, is_plain, may_begin, may_have, is_deep, has_column};

use crate::open::{Holder, Open, Tip};
use crate::reader::Reader;

/// How many mappings and sequences may stand within one another.
pub const MAX_LEVELS: usize = 32;

fn is_same_holder(holder: Holder, other: Holder) -> bool
    ensures { result ≡ is_holder holder other }
{
    match (holder, other) {
        (Holder::File, Holder::File) => true,
        (Holder::Mapping, Holder::Mapping) => true,
        (Holder::Sequence, Holder::Sequence) => true,
        _ => false,
    }
}

fn may_hold_rows(part: Open, holder: Holder, column: usize) -> bool
    ensures { result ≡ may_hold part.holder part.column holder column }
{
    match (part.holder, holder) {
        (_, Holder::File) => false,
        (_, Holder::Mapping) => part.column < column,
        (Holder::Mapping, Holder::Sequence) => part.column <= column,
        (_, Holder::Sequence) => part.column < column,
    }
}

// How many open parts are kept where the rows of this kind in this column take one more.
fn kept_of(opened: &[Open], holder: Holder, column: usize) -> Option<usize>
    ensures { (frames : List Frame) → opened.now ≡ openings frames → result ≡ kept_count holder column frames }
{
    let mut left = opened;
    while let Some((last, outer)) = left.split_last() {
        if is_row_of(*last, holder, column) {
            return Some(left.len());
        }
        if last.column < column {
            return None;
        }
        left = outer;
    }
    None
}

fn any_column(opened: &[Open], column: usize) -> bool
    ensures { result ≡ list_any (λ part. part.column == column) opened.now }
{
    opened.iter().any(|part| part.column == column)
}

fn has_column_in(opened: &[Open], column: usize) -> bool
    ensures { (frames : List Frame) → opened.now ≡ openings frames → result ≡ has_column column frames }
{
    any_column(opened, column)
}

fn begins_in(opened: &[Open], holder: Holder, column: usize) -> bool
    ensures { (frames : List Frame) → opened.now ≡ openings frames → result ≡ may_begin frames holder column }
{
    match opened.split_last() {
        Some((last, _)) => may_hold_rows(*last, holder, column),
        None => is_same_holder(holder, Holder::File),
    }
}

fn has_in(opened: &[Open], column: usize) -> bool
    ensures { (frames : List Frame) → opened.now ≡ openings frames → result ≡ may_have frames column }
{
    match opened.split_last() {
        Some((last, _)) => last.column < column,
        None => false,
    }
}

fn is_full_with(opened: &[Open]) -> bool
    ensures { (frames : List Frame) → opened.now ≡ openings frames → result ≡ is_deep frames }
{
    opened.len() > MAX_LEVELS
}

fn is_row_of(part: Open, holder: Holder, column: usize) -> bool
    ensures { result ≡ (is_holder part.holder holder && part.column == column) }
{
    is_same_holder(part.holder, holder) && part.column == column
}

impl Reader {
    /// Whether the last row has nothing so far.
    pub(crate) fn waits(&self) -> bool
        ensures { (front : Front) → Stands self.now front → result ≡ is_absent front.tip }
    {
        match self.tip {
            Tip::Absent => true,
            Tip::Plain => false,
            Tip::Other => false,
        }
    }

    /// Whether it has a plain scalar.
    pub(crate) fn is_plain_now(&self) -> bool
        ensures { (front : Front) → Stands self.now front → result ≡ is_plain front.tip }
    {
        match self.tip {
            Tip::Absent => false,
            Tip::Plain => true,
            Tip::Other => false,
        }
    }

    /// Whether rows of this kind may begin in this column.
    pub(crate) fn may_begin_at(&self, holder: Holder, column: usize) -> bool
        ensures { (front : Front) → Stands self.now front → result ≡ may_begin front.frames holder column }
    {
        begins_in(&self.opened, holder, column)
    }

    /// Whether a value may begin in this column.
    pub(crate) fn may_have_at(&self, column: usize) -> bool
        ensures { (front : Front) → Stands self.now front → result ≡ may_have front.frames column }
    {
        has_in(&self.opened, column)
    }

    /// Whether rows of this kind begin in this column, in what the last row has.
    pub(crate) fn begins_at(&self, holder: Holder, column: usize) -> bool
        ensures { (front : Front) → Stands self.now front → result ≡ (is_absent front.tip && may_begin front.frames holder column) }
    {
        let waits = self.waits();
        let begins = self.may_begin_at(holder, column);
        waits && begins
    }

    /// Whether a value begins in this column, as what the last row has.
    pub(crate) fn has_at(&self, column: usize) -> bool
        ensures { (front : Front) → Stands self.now front → result ≡ (is_absent front.tip && may_have front.frames column) }
    {
        let waits = self.waits();
        let begins = self.may_have_at(column);
        waits && begins
    }

    /// Whether a plain scalar would go on in this column.
    pub(crate) fn goes_on_at(&self, column: usize) -> bool
        ensures { (front : Front) → Stands self.now front → result ≡ (is_plain front.tip && may_have front.frames column) }
    {
        let plain = self.is_plain_now();
        let deeper = self.may_have_at(column);
        plain && deeper
    }

    /// Whether one level more would be too deep.
    pub(crate) fn is_full(&self) -> bool
        ensures { (front : Front) → Stands self.now front → result ≡ is_deep front.frames }
    {
        is_full_with(&self.opened)
    }

    /// Whether an open part has this column.
    pub(crate) fn has_column_at(&self, column: usize) -> bool
        ensures { (front : Front) → Stands self.now front → result ≡ has_column column front.frames }
    {
        has_column_in(&self.opened, column)
    }

    /// How many open parts are kept where the rows of this kind in this column take one more.
    pub(crate) fn kept(&self, holder: Holder, column: usize) -> Option<usize>
        ensures { (front : Front) → Stands self.now front → result ≡ kept_count holder column front.frames }
    {
        kept_of(&self.opened, holder, column)
    }
}
