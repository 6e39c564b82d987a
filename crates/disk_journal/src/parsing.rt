//! Where the bytes of a file have their records, and where they are no journal.
ghost use Rattle.std.specs.Prelude.{◌≡◌, ◌≢◌, ◌⊎◌, ◌<◌, ◌≤◌, length, take, slice_index, IfSome, IfNone};
ghost use Rattle.disk_journal.specs.Image.{header};
ghost use Rattle.disk_journal.specs.Parsing.{IsFound, IsClosed, Suffices};
ghost use Rattle.disk_journal.specs.Refusal.{IsTooShort, HasOtherHeader};

use crate::formatting::{EMPTY, HEADER_BYTES, RECORD_BYTES};

/// What stands at the place of a gate.
#[derive(Clone, Copy)]
pub(crate) enum Found<'b> {
    /// A gate that is not open.
    Closed,
    /// The end of the file, or an open record that runs past it.
    Cut,
    /// An open record of this body, and what stands behind it.
    Record { body: &'b [u8], rest: &'b [u8] },
}

/// The place at which bytes begin with no header: the first that differs, or their length where that is below 16.
pub(crate) fn header_fault(bytes: &[u8]) -> Option<usize>
    ensures none { IfNone result (take 16 bytes.now ≡ header) }
    ensures long { IfNone result (16 ≤ length bytes.now) }
    ensures some { IfSome result (λ at. IsTooShort bytes.now at ⊎ HasOtherHeader bytes.now at) }
{
    if bytes.len() < HEADER_BYTES {
        return Some(bytes.len());
    }
    first_difference(bytes, &EMPTY[..HEADER_BYTES])
}

/// The first place at which `bytes` and `wanted` differ, within the length of `wanted`.
fn first_difference(bytes: &[u8], wanted: &[u8]) -> Option<usize>
    requires { length wanted.now ≤ length bytes.now }
    ensures within { IfSome result (λ at. at < length wanted.now) }
    ensures same { IfSome result (λ at. take at bytes.now ≡ take at wanted.now) }
    ensures differs { IfSome result (λ at. slice_index bytes.now at ≢ slice_index wanted.now at) }
    ensures equal { IfNone result (take (length wanted.now) bytes.now ≡ wanted.now) }
{
    for i in 0..wanted.len() {
        if bytes[i] != wanted[i] {
            return Some(i);
        }
    }
    None
}

/// What stands at the front of `bytes`, where a gate should.
pub(crate) fn found_in(bytes: &[u8]) -> Found<'_>
    ensures { IsFound bytes.now result }
{
    let [gate, behind @ ..] = bytes else {
        return Found::Cut;
    };
    if *gate != 1 {
        return Found::Closed;
    }
    let Some((len, content)) = behind.split_first_chunk::<8>() else {
        return Found::Cut;
    };
    let len = u64::from_le_bytes(*len);
    if len > content.len() as u64 {
        return Found::Cut;
    }
    let (body, rest) = content.split_at(len as usize);
    Found::Record { body, rest }
}

/// How many bytes show whether the record at the front of `bytes` is whole: all of it, where its length stands there. Behind a closed gate
/// there is no record, and none are wanted.
pub(crate) fn wanted_of(bytes: &[u8]) -> u64
    ensures suffices { Suffices bytes.now result }
    ensures closed { IsClosed bytes.now → result ≡ 0 }
{
    let [open, behind @ ..] = bytes else {
        return 0;
    };
    if *open != 1 {
        return 0;
    }
    let Some((len, _)) = behind.split_first_chunk::<8>() else {
        return 0;
    };
    u64::from_le_bytes(*len).saturating_add(RECORD_BYTES as u64)
}
