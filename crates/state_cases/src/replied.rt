// Replies as a case names them, and the responses to them.
ghost use Rattle.std.specs.Prelude.{◌≡◌, ◌≢◌, ℕ, List, length, map, IfSome, IfOk};
ghost use Rattle.std.specs.Bool.{OnTrue};
ghost use Rattle.state_core.specs.declared.command.Cmd.{Cmd as CmdData};
ghost use Rattle.state_core.specs.declared.command.Cmd.TheVariants as cmds;
ghost use Rattle.state_core.specs.declared.command.Item.{Item as ItemRecord};
ghost use Rattle.state_core.specs.declared.command.Op.{Op as OpData};
ghost use Rattle.state_core.specs.declared.reply.Reply.TheVariants.{NoMemory as no_memory};
ghost use Rattle.state_core.specs.Fits.{Fits, MayWrite, ArePlaces, IsDelete, key_of};
ghost use Rattle.state_api.specs.Ran.{IsAnswer};
ghost use Rattle.state_api.specs.Response.{IsCut};

use crate::given::number;
use crate::response_text::told;
use case_text::{Section, first_word, number_in, text_of};
use policy_run::Refusal;
use side_base::{NoMemory, Sequence, Text};
use state_api::{Ran, response};
use state_core::{BulkRow, Cmd, Found, Keys, Reply, Rows};
use std::alloc::Global;

// What a section finds: a value with its version, or nothing.
fn found_in(alloc: Global, section: &Section<'_>) -> Option<Found> {
    match section.word {
        "found" => Some(Found {
            value: text_of(alloc, section),
            version: number(section.name),
        }),
        _ => None,
    }
}

fn finds(section: &Section<'_>) -> bool {
    match section.word {
        "found" | "absent" => true,
        _ => false,
    }
}

// What the section at a place among those that find something finds.
fn found_at(alloc: Global, sections: &[Section<'_>], place: usize) -> Option<Found> {
    match sections.iter().filter(|section| finds(section)).nth(place) {
        Some(section) => found_in(alloc, section),
        None => None,
    }
}

// The value that is found, or else none.
fn value_reply(found: Option<Found>) -> Reply
    ensures { (key : List ℕ) (now : ℕ) → Fits (cmds.Get key now) result × (result ≢ no_memory) }
{
    match found {
        Some(found) => Reply::Value {
            value: found.value,
            version: found.version,
        },
        None => Reply::Absent,
    }
}

fn of_get(alloc: Global, word: &str, sections: &[Section<'_>]) -> Option<Reply>
    ensures { (key : List ℕ) (now : ℕ) → IfSome result (λ reply. Fits (cmds.Get key now) reply × (reply ≢ no_memory)) }
{
    match word {
        "value" => Some(value_reply(found_at(alloc, sections, 0))),
        _ => None,
    }
}

// A reply to what may write.
fn of_write(word: &str, words: &str) -> Option<Reply>
    ensures { (cmd : CmdData) → MayWrite cmd → IfSome result (λ reply. Fits cmd reply × (reply ≢ no_memory)) }
{
    match word {
        "failed" => Some(Reply::Failed),
        "full" => Some(Reply::Full {
            len: u128::from(number(words)),
        }),
        "spent" => Some(Reply::Spent {
            next: number(words),
        }),
        _ => None,
    }
}

// The numbers of some words.
fn numbers(alloc: Global, words: &str) -> Vec<u32> {
    let mut numbers = Vec::new(alloc);
    for word in words.split(' ') {
        let _ = numbers.push(number_in(word));
    }
    numbers
}

// Whether places rise, and each is below a number.
fn are_places(places: &[u32], high: u64) -> bool
    ensures { OnTrue result (ArePlaces 0 high places.now) }
{
    let mut low: u64 = 0;
    let mut rest = places;
    while let [place, after @ ..] = rest {
        let place = u64::from(*place);
        if place < low || high <= place {
            return false;
        }
        low = place + 1;
        rest = after;
    }
    true
}

// A refusal of the items at these places, of so many.
fn refused(places: Vec<u32>, count: usize) -> Option<Reply>
    ensures { (items : List ItemRecord) (now : ℕ) → count ≡ length items → IfSome result (λ reply. Fits (cmds.Save items now) reply × (reply ≢ no_memory)) }
{
    if !places.is_empty() && are_places(places.as_slice(), count as u64) {
        Some(Reply::SomeRefused {
            places: Sequence::from_vec(places),
        })
    } else {
        None
    }
}

fn of_save(alloc: Global, word: &str, words: &str, count: usize) -> Option<Reply>
    ensures { (items : List ItemRecord) (now : ℕ) → count ≡ length items → IfSome result (λ reply. Fits (cmds.Save items now) reply × (reply ≢ no_memory)) }
{
    match word {
        "saved" => Some(Reply::Saved),
        "refused" => refused(numbers(alloc, words), count),
        _ => of_write(word, words),
    }
}

fn of_delete(word: &str, words: &str) -> Option<Reply>
    ensures { (cmd : CmdData) → IsDelete cmd → IfSome result (λ reply. Fits cmd reply × (reply ≢ no_memory)) }
{
    match word {
        "deleted" => Some(Reply::Deleted),
        "mismatch" => Some(Reply::Mismatch { place: 0 }),
        _ => of_write(word, words),
    }
}

// A mismatch at a place, of so many operations.
fn mismatch(place: u64, count: usize) -> Option<Reply>
    ensures { (ops : List OpData) (now : ℕ) → count ≡ length ops → IfSome result (λ reply. Fits (cmds.Transact ops now) reply × (reply ≢ no_memory)) }
{
    if place < count as u64 && place <= 0xFFFF_FFFF {
        Some(Reply::Mismatch {
            place: place as u32,
        })
    } else {
        None
    }
}

fn of_transact(word: &str, words: &str, count: usize) -> Option<Reply>
    ensures { (ops : List OpData) (now : ℕ) → count ≡ length ops → IfSome result (λ reply. Fits (cmds.Transact ops now) reply × (reply ≢ no_memory)) }
{
    match word {
        "committed" => Some(Reply::Committed),
        "mismatch" => mismatch(number(words), count),
        _ => of_write(word, words),
    }
}

fn row_of(key: &Text, found: Option<Found>) -> Result<BulkRow, NoMemory>
    ensures { IfOk result (λ row. row.key ≡ key.now) }
{
    Ok(BulkRow {
        key: key.copy()?,
        found,
    })
}

// What the keys of a bulk get have.
fn rows_of(alloc: Global, keys: &Keys, sections: &[Section<'_>]) -> Result<Rows, NoMemory>
    ensures { IfOk result (λ rows. map key_of rows ≡ keys.now) }
{
    let mut rows = Rows::new(alloc);
    for place in 0..keys.len() {
        rows.push(row_of(keys.at(place), found_at(alloc, sections, place))?)?;
    }
    Ok(rows)
}

fn rows_reply(rows: Result<Rows, NoMemory>) -> Option<Reply>
    ensures { (keys : List (List ℕ)) (skip now : ℕ) → IfOk rows (λ rows. map key_of rows ≡ keys) → IfSome result (λ reply. Fits (cmds.Bulk keys skip now) reply × (reply ≢ no_memory)) }
{
    match rows {
        Ok(rows) => Some(Reply::Rows { rows }),
        Err(_) => None,
    }
}

fn too_long(len: u64) -> Option<Reply>
    ensures { (keys : List (List ℕ)) (skip now : ℕ) → IfSome result (λ reply. Fits (cmds.Bulk keys skip now) reply × (reply ≢ no_memory)) }
{
    if len > 67_108_864 {
        Some(Reply::TooLong {
            len: u128::from(len),
        })
    } else {
        None
    }
}

fn of_bulk(
    alloc: Global,
    keys: &Keys,
    word: &str,
    words: &str,
    sections: &[Section<'_>],
) -> Option<Reply>
    ensures { (skip now : ℕ) → IfSome result (λ reply. Fits (cmds.Bulk keys.now skip now) reply × (reply ≢ no_memory)) }
{
    match word {
        "rows" => rows_reply(rows_of(alloc, keys, sections)),
        "long" => too_long(number(words)),
        _ => None,
    }
}

// The reply of these words, if the command may have it.
fn reply_of(
    alloc: Global,
    cmd: &Cmd,
    word: &str,
    words: &str,
    sections: &[Section<'_>],
) -> Option<Reply>
    ensures { IfSome result (λ reply. Fits cmd.now reply × (reply ≢ no_memory)) }
{
    match cmd {
        Cmd::Get { .. } => of_get(alloc, word, sections),
        Cmd::Save { items, .. } => of_save(alloc, word, words, items.len()),
        Cmd::Delete { .. } => of_delete(word, words),
        Cmd::Bulk { keys, .. } => of_bulk(alloc, keys, word, words, sections),
        Cmd::Transact { ops, .. } => of_transact(word, words, ops.len()),
    }
}

// The refusal of a breaker that is named so.
fn refusal_of(word: &str, words: &str) -> Option<Refusal> {
    match word {
        "opened" => Some(Refusal::Opened {
            until: number(words),
        }),
        "half-open" => Some(Refusal::TooMany {
            out: number_in(words),
        }),
        _ => None,
    }
}

// What a command came to, as a case says it.
fn ran_of(alloc: Global, cmd: &Cmd, words: &str, sections: &[Section<'_>]) -> Option<Ran>
    ensures { IfSome result (IsAnswer cmd.now) }
{
    let (word, words) = first_word(words);
    match refusal_of(word, words) {
        Some(refusal) => Some(Ran::Refused(refusal)),
        None => match reply_of(alloc, cmd, word, words, sections) {
            Some(reply) => Some(Ran::Replied(reply)),
            None => None,
        },
    }
}

/// The response to what a command came to, as a text.
pub(crate) fn replied(alloc: Global, cmd: &Cmd, words: &str, sections: &[Section<'_>]) -> Text
    requires { IsCut cmd.now }
{
    match ran_of(alloc, cmd, words, sections) {
        Some(ran) => told(alloc, response(alloc, cmd, ran)),
        None => Text::from_static(alloc, "no such reply\n"),
    }
}
