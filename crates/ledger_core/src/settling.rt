//! Settling a row.
ghost use Rattle.std.specs.Prelude.{◌≡◌, ◌<◌, ◌+◌, ◌-◌, ◌^◌, length, IfOk};
ghost use Rattle.std.specs.List.{All};
ghost use Rattle.std.specs.FinMap.{put};
ghost use Rattle.std.specs.Arc.{arc_value};
ghost use Rattle.side_base.specs.declared.moment.TheConstants.{MOMENT_LIMIT};
ghost use Rattle.ledger_core.specs.Place.{place_order};
ghost use Rattle.ledger_core.specs.Plan.{plan_at};
ghost use Rattle.ledger_core.specs.declared.command.LedgerCmd.{LedgerCmd};
ghost use Rattle.ledger_core.specs.declared.command.Finish.{Finish};
ghost use Rattle.ledger_core.specs.Rows.{entries_in, IsOutcome};
ghost use Rattle.ledger_core.specs.Size.{new_drops};
ghost use Rattle.ledger_core.specs.Aims.{AreAims};
ghost use Rattle.ledger_core.specs.Standing.{Standing};
ghost use Rattle.ledger_core.specs.Tree.{row_of};
ghost use Rattle.ledger_core.specs.Course.{Course};
ghost use Rattle.ledger_core.specs.Reply.{IsBuried, IsRetried};
ghost use Rattle.ledger_core.specs.declared.settling.TheConstants.{MOST_HOPS};
ghost use Rattle.ledger_core.specs.Books.{AreSorted, HasRoom, Shows, moved_to};
ghost use Rattle.ledger_core.specs.After.{Answers, Grows, InHand, IsBook, course_after, entries_for, fresh};

use crate::books::Books;
use crate::place::Place;
use crate::plan::PlanTable;
use crate::rows::{NewRows, Origin, new_rows};
use crate::tree::{Node, StoredRow};
use crate::{Aims, Finish, LedgerReply, Reason};
use retry_core::Next;
use side_base::NoMemory;
use std::alloc::Global;
use std::sync::Arc;

/// How many times an event goes to a dead-letter topic at most.
pub(crate) const MOST_HOPS: u64 = 8;

/// How long a row waits that no policy speaks of, and one for whose dead letter there is no room, in milliseconds.
pub(crate) const WAIT_MS: u64 = 1_000;

/// What comes after an attempt that failed.
#[derive(Clone, Copy)]
pub(crate) enum Outcome {
    /// A further attempt after this many milliseconds.
    Wait(u64),
    /// The policy gives up.
    UsedUp,
    /// There is no policy.
    Unplanned,
}

/// What a delivery that failed may need.
#[derive(Clone, Copy)]
pub(crate) struct Failure<'a> {
    /// The moment of the settling, in milliseconds since 1970.
    pub(crate) moment: u64,
    pub(crate) word: u64,
    pub(crate) dead_aims: &'a Aims,
}

/// The reply to a `Settle` of the row that is held at a place.
pub(crate) fn settle(
    alloc: Global,
    plans: &PlanTable,
    books: &mut Books,
    place: &Place,
    finish: Finish,
    failure: &Failure<'_>,
) -> LedgerReply
    requires room { HasRoom books.old }
    requires sorted { AreSorted books.old }
    requires moment { failure.now.moment < MOMENT_LIMIT }
    requires aims { AreAims (length plans.now) failure.now.dead_aims.now }
    ensures grown { Grows books.old books.new }
    ensures step { Answers plans.now books.old books.new (LedgerCmd.Settle place.now.no place.now.sub place.now.at finish failure.now.moment failure.now.word failure.now.dead_aims.now) result }
{
    let Some(node) = books.take_held(place) else {
        return LedgerReply::NotTaken;
    };
    match finish {
        Finish::Success => {
            books.close(&node);
            books.done += 1;
            LedgerReply::Done
        }
        Finish::Drop => drop_row(books, &node, Reason::Asked),
        Finish::Later { at } => again(books, node, at),
        Finish::Retry => retry(alloc, plans, books, node, failure),
    }
}

/// Lets a row be due again at a moment.
fn again(books: &mut Books, node: Box<Node>, at: u64) -> LedgerReply
    requires sorted { AreSorted books.old }
    requires room { length books.old.waiting < 2 ^ 126 }
    ensures reply { result ≡ LedgerReply.Again at }
    ensures books { books.new ≡ record books.old { waiting = put place_order (moved_to at node.value.place) (row_of node.value.row) books.old.waiting } }
{
    books.wait(node, at);
    LedgerReply::Again { at }
}

/// Drops a row.
fn drop_row(books: &mut Books, node: &Node, reason: Reason) -> LedgerReply
    requires { books.old.dropped < 2 ^ 127 }
    ensures reply { result ≡ LedgerReply.Dropped reason }
    ensures books { books.new ≡ record books.old { owed = books.old.owed - 1; bytes = books.old.bytes - (length (arc_value node.now.row.event) + length node.now.row.path); dropped = books.old.dropped + 1 } }
{
    books.close(node);
    books.dropped += 1;
    LedgerReply::Dropped(reason)
}

/// The reply to a `Settle` after an attempt that failed.
fn retry(
    alloc: Global,
    plans: &PlanTable,
    books: &mut Books,
    mut node: Box<Node>,
    failure: &Failure<'_>,
) -> LedgerReply
    requires room { HasRoom books.old }
    requires sorted { AreSorted books.old }
    requires moment { failure.now.moment < MOMENT_LIMIT }
    requires aims { AreAims (length plans.now) failure.now.dead_aims.now }
    ensures grown { Grows books.old books.new }
    ensures reply { (course : Course) (s : Standing) → IsBook course → InHand plans.now course node.value.place (row_of node.value.row) s books.old
        → IsRetried course (plan_at plans.now s.pair.sub) s failure.now.moment failure.now.word failure.now.dead_aims.now result }
    ensures shows { (course : Course) (s : Standing) → IsBook course → InHand plans.now course node.value.place (row_of node.value.row) s books.old
        → Shows plans.now (course_after course (LedgerCmd.Settle node.value.place.no node.value.place.sub node.value.place.at Finish.Retry failure.now.moment failure.now.word failure.now.dead_aims.now) result) books.new }
{
    match retried(&mut node.row, failure.word) {
        Outcome::Wait(ms) => again(books, node, failure.moment + ms),
        Outcome::UsedUp if node.row.dead => bury(alloc, plans, books, node, failure),
        Outcome::UsedUp => drop_row(books, &node, Reason::UsedUp),
        Outcome::Unplanned if node.row.dead => bury(alloc, plans, books, node, failure),
        Outcome::Unplanned => {
            node.row.attempt = node.row.attempt.saturating_add(1);
            again(books, node, failure.moment + WAIT_MS)
        }
    }
}

/// Asks the row's policy for a further attempt; one with a wait counts as begun.
fn retried(row: &mut StoredRow, word: u64) -> Outcome
    ensures { IsOutcome row.old row.new word result }
{
    let Some(mut run) = row.run else {
        return Outcome::Unplanned;
    };
    match run.next(word) {
        Next::Wait(ms) => {
            row.run = Some(run);
            row.attempt = row.attempt.saturating_add(1);
            Outcome::Wait(ms)
        }
        Next::GiveUp { .. } => Outcome::UsedUp,
    }
}

/// Sends a row's event to its dead-letter topic.
fn bury(
    alloc: Global,
    plans: &PlanTable,
    books: &mut Books,
    node: Box<Node>,
    failure: &Failure<'_>,
) -> LedgerReply
    requires room { HasRoom books.old }
    requires sorted { AreSorted books.old }
    requires moment { failure.now.moment < MOMENT_LIMIT }
    requires aims { AreAims (length plans.now) failure.now.dead_aims.now }
    ensures grown { Grows books.old books.new }
    ensures reply { (course : Course) (s : Standing) → IsBook course → InHand plans.now course node.value.place (row_of node.value.row) s books.old
        → IsBuried course s failure.now.dead_aims.now result }
    ensures shows { (course : Course) (s : Standing) → IsBook course → InHand plans.now course node.value.place (row_of node.value.row) s books.old
        → Shows plans.now (course_after course (LedgerCmd.Settle node.value.place.no node.value.place.sub node.value.place.at Finish.Retry failure.now.moment failure.now.word failure.now.dead_aims.now) result) books.new }
{
    if node.row.hops >= MOST_HOPS {
        return drop_row(books, &node, Reason::Hops);
    }
    let size = books
        .size_without(&node)
        .with(node.row.event.bytes().len(), failure.dead_aims);
    if size.is_over() {
        books.wait(node, failure.moment + WAIT_MS);
        return LedgerReply::Full {
            rows: size.rows,
            bytes: size.bytes,
        };
    }
    match letter_rows(alloc, plans, books.made + 1, &node.row, failure) {
        Ok(rows) => {
            books.add(rows, size);
            books.dead += 1;
            LedgerReply::Dead { no: books.made }
        }
        Err(_) => {
            books.wait(node, failure.moment);
            LedgerReply::NoMemory
        }
    }
}

/// The rows of a row's dead letter.
fn letter_rows(
    alloc: Global,
    plans: &PlanTable,
    no: u64,
    row: &StoredRow,
    failure: &Failure<'_>,
) -> Result<NewRows, NoMemory>
    requires hops { row.now.hops < MOST_HOPS }
    requires aims { All (λ aim. aim.sub < length plans.now) failure.now.dead_aims.now }
    ensures rows { IfOk result (λ rows. entries_in rows.nodes ≡ entries_for plans.now (fresh no (arc_value row.now.event) (row.now.hops + 1) failure.now.moment failure.now.dead_aims.now)) }
    ensures drops { IfOk result (λ rows. rows.drops ≡ new_drops failure.now.dead_aims.now) }
    ensures few { IfOk result (λ rows. rows.drops < 2 ^ 64) }
    ensures short { IfOk result (λ rows. length rows.nodes < 2 ^ 64) }
{
    let origin = Origin {
        no,
        event: Arc::try_clone(&row.event)?,
        hops: row.hops + 1,
        due: failure.moment,
    };
    new_rows(alloc, plans, &origin, failure.dead_aims)
}
