ghost use Rattle.std.specs.Prelude.{◌≡◌, ◌+◌, ◌<◌, ◌^◌, ◌++◌, ℕ, length, IfOk, OnOk};
ghost use Rattle.keeper_core.specs.declared.changes.Change.TheVariants.{Put};
ghost use Rattle.keeper_journal.specs.Body.{sized, spelled, body_len, HasSpelling, IsBodyOf};

use keeper_core::Change;
use side_base::{Blob, NoMemory};
use std::alloc::Global;

/// The first byte of a put.
pub(crate) const PUT: u8 = 1;
/// The first byte of a removal.
pub(crate) const REMOVE: u8 = 2;

/// What a body has beside its changes: the next version, and their number.
const BODY_BYTES: u128 = 12;
/// What a put has beside its key and its value.
const PUT_BYTES: u128 = 25;
/// What a removal has beside its key.
const REMOVE_BYTES: u128 = 5;

/// How many bytes the body of these changes has, whatever its `next` is.
pub fn body_len(list: &[Change]) -> u128
    ensures exact { result ≡ body_len list.now }
    ensures limit { result < 2 ^ 127 + 2 ^ 70 }
{
    let mut len = BODY_BYTES;
    for change in list {
        len += change_len(change);
    }
    len
}

fn change_len(change: &Change) -> u128
    ensures exact { result ≡ length (spelled change.now) }
    ensures limit { result < 2 ^ 64 + 25 }
{
    match change {
        Change::Put { key, value, .. } => put_len(key.bytes(), value.bytes()),
        Change::Remove { key } => remove_len(key.bytes()),
    }
}

fn put_len(key: &[u8], value: &[u8]) -> u128
    ensures exact { result ≡ length key.now + length value.now + 25 }
    ensures limit { result < 2 ^ 64 + 25 }
{
    key.len() as u128 + value.len() as u128 + PUT_BYTES
}

fn remove_len(key: &[u8]) -> u128
    ensures exact { result ≡ length key.now + 5 }
    ensures limit { result < 2 ^ 64 + 25 }
{
    key.len() as u128 + REMOVE_BYTES
}

/// The body of a commit of these changes and this `next`. It has fewer than 2^32 bytes.
pub fn encode(alloc: Global, list: &[Change], next: u64) -> Result<Blob, NoMemory>
    requires { body_len list.now < 2 ^ 32 }
    ensures { IfOk result (λ body. IsBodyOf body (record { list = list.now; next = next })) }
{
    let mut body = Blob::new(alloc);
    body.reserve(body_len(list) as usize)?;
    body.push(&next.to_le_bytes())?;
    body.push(&(list.len() as u32).to_le_bytes())?;
    for change in list {
        push_change(&mut body, change)?;
    }
    Ok(body)
}

fn push_change(body: &mut Blob, change: &Change) -> Result<(), NoMemory>
    requires { length (spelled change.now) < 2 ^ 32 }
    ensures pushed { OnOk result (body.new ≡ body.old ++ spelled change.now) }
    ensures fits { HasSpelling change.now }
{
    match change {
        Change::Put {
            key,
            value,
            version,
            until,
        } => push_put(body, key.bytes(), value.bytes(), *version, *until),
        Change::Remove { key } => {
            body.push_byte(REMOVE)?;
            push_sized(body, key.bytes())
        }
    }
}

fn push_put(
    body: &mut Blob,
    key: &[u8],
    value: &[u8],
    version: u64,
    until: u64,
) -> Result<(), NoMemory>
    requires { length key.now + length value.now < 2 ^ 32 }
    ensures pushed { OnOk result (body.new ≡ body.old ++ spelled (Put key.now value.now version until)) }
    ensures fits { HasSpelling (Put key.now value.now version until) }
{
    body.push_byte(PUT)?;
    push_sized(body, key)?;
    body.push(&version.to_le_bytes())?;
    body.push(&until.to_le_bytes())?;
    push_sized(body, value)?;
    Ok(())
}

/// Appends the length of `piece` in four bytes, and `piece`.
fn push_sized(body: &mut Blob, piece: &[u8]) -> Result<(), NoMemory>
    requires { length piece.now < 2 ^ 32 }
    ensures { OnOk result (body.new ≡ body.old ++ sized piece.now) }
{
    body.push(&(piece.len() as u32).to_le_bytes())?;
    body.push(piece)
}
