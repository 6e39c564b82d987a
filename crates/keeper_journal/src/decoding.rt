ghost use Rattle.std.specs.Prelude.{◌≡◌, List, length, Some, IfOk};
ghost use Rattle.std.specs.Int.{w32, w64};
ghost use Rattle.keeper_core.specs.declared.changes.Changes.{Changes};
ghost use Rattle.keeper_journal.specs.Body.{IsBodyOf};
ghost use Rattle.keeper_journal.specs.Reading.{Gives, number_at, sized_at, put_at, remove_at, change_at, changes_at, body_at};
ghost use Rattle.keeper_journal.specs.declared.decoding.BodyErr.TheVariants.{NoMemory};

use crate::encoding::{PUT, REMOVE};
use keeper_core::{Change, ChangeList, Changes};
use side_base::{Blob, Sequence};
use std::alloc::{AllocError, Global};

/// Why bytes were not read as the body of a commit.
#[derive(Clone, Copy, Debug, PartialEq, Eq)]
pub enum BodyErr {
    /// They are not the body of any changes.
    NotABody,
    /// There is no memory for the changes.
    NoMemory,
}

impl From<AllocError> for BodyErr {
    ghost from_gives = { λ _ e. e ≡ NoMemory };

    fn from(_error: AllocError) -> BodyErr {
        BodyErr::NoMemory
    }
}

/// The changes whose body these bytes are, all of the bytes.
pub fn decode(alloc: Global, bytes: &[u8]) -> Result<Changes, BodyErr>
    // What is read is spelled so, and what is spelled so is read.
    ensures found { IfOk result (λ changes. IsBodyOf bytes.now changes) }
    ensures only { (changes : Changes) → IsBodyOf bytes.now changes → Gives (λ read. read) result (Some changes) }
{
    read_body(alloc, bytes)
}

#[tactic(auto, unfolding(crate::specs::Reading::body_at))]
fn read_body(alloc: Global, bytes: &[u8]) -> Result<Changes, BodyErr>
    ensures { Gives (λ changes. changes) result (body_at bytes.now) }
{
    let (next, rest) = read_u64(bytes)?;
    let (count, rest) = read_u32(rest)?;
    let (list, rest) = read_changes(alloc, count, rest)?;
    if !rest.is_empty() {
        return Err(BodyErr::NotABody);
    }
    Ok(Changes { list, next })
}

fn read_changes(alloc: Global, count: u32, bytes: &[u8]) -> Result<(ChangeList, &[u8]), BodyErr>
    ensures { Gives (λ read. (read.0, read.1.now)) result (changes_at count bytes.now) }
{
    let mut list = Sequence::new(alloc);
    let mut rest = bytes;
    for _ in 0..count {
        let (change, after) = read_change(alloc, rest)?;
        list.push(change)?;
        rest = after;
    }
    Ok((list, rest))
}

#[tactic(auto, unfolding(crate::specs::Reading::change_at))]
fn read_change(alloc: Global, bytes: &[u8]) -> Result<(Change, &[u8]), BodyErr>
    ensures { Gives (λ read. (read.0, read.1.now)) result (change_at bytes.now) }
{
    match bytes {
        [PUT, rest @ ..] => read_put(alloc, rest),
        [REMOVE, rest @ ..] => read_remove(alloc, rest),
        _ => Err(BodyErr::NotABody),
    }
}

#[tactic(auto, unfolding(crate::specs::Reading::put_at))]
fn read_put(alloc: Global, bytes: &[u8]) -> Result<(Change, &[u8]), BodyErr>
    ensures { Gives (λ read. (read.0, read.1.now)) result (put_at bytes.now) }
{
    let (key, rest) = read_sized(bytes)?;
    let (version, rest) = read_u64(rest)?;
    let (until, rest) = read_u64(rest)?;
    let (value, rest) = read_sized(rest)?;
    let change = Change::Put {
        key: Blob::from_bytes(alloc, key)?,
        value: Blob::from_bytes(alloc, value)?,
        version,
        until,
    };
    Ok((change, rest))
}

#[tactic(auto, unfolding(crate::specs::Reading::remove_at))]
fn read_remove(alloc: Global, bytes: &[u8]) -> Result<(Change, &[u8]), BodyErr>
    ensures { Gives (λ read. (read.0, read.1.now)) result (remove_at bytes.now) }
{
    let (key, rest) = read_sized(bytes)?;
    let key = Blob::from_bytes(alloc, key)?;
    Ok((Change::Remove { key }, rest))
}

/// A length in four bytes, and that many bytes.
#[tactic(auto, unfolding(crate::specs::Reading::sized_at))]
fn read_sized(bytes: &[u8]) -> Result<(&[u8], &[u8]), BodyErr>
    ensures { Gives (λ read. (read.0.now, read.1.now)) result (sized_at bytes.now) }
{
    let (len, rest) = read_u32(bytes)?;
    let len = len as usize;
    if rest.len() < len {
        return Err(BodyErr::NotABody);
    }
    Ok(rest.split_at(len))
}

fn read_u32(bytes: &[u8]) -> Result<(u32, &[u8]), BodyErr>
    ensures { Gives (λ read. (read.0, read.1.now)) result (number_at w32 bytes.now) }
{
    if bytes.len() < 4 {
        return Err(BodyErr::NotABody);
    }
    let (front, rest) = bytes.split_at(4);
    let number = u32::from_le_bytes([front[0], front[1], front[2], front[3]]);
    Ok((number, rest))
}

fn read_u64(bytes: &[u8]) -> Result<(u64, &[u8]), BodyErr>
    ensures { Gives (λ read. (read.0, read.1.now)) result (number_at w64 bytes.now) }
{
    if bytes.len() < 8 {
        return Err(BodyErr::NotABody);
    }
    let (front, rest) = bytes.split_at(8);
    let number = u64::from_le_bytes([
        front[0], front[1], front[2], front[3], front[4], front[5], front[6], front[7],
    ]);
    Ok((number, rest))
}
