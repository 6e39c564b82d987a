ghost use Rattle.std.specs.Prelude.{◌≡◌, ◌*◌, ◌≤◌, length};
ghost use Rattle.byte_lanes.specs.Spelling.{spelled, spelled_byte};

use crate::lanes::{BACKSLASH, BLOCK, ByteTest, FIRST_PRINTABLE, QUOTE, Special};
use std::simd::prelude::*;

/// The bytes of a short escape, as `\n`, and of a numbered one, as `\u001f`.
const SHORT: u8 = 2;

const NUMBERED: u8 = 6;

/// The number of bytes that `bytes` take as the inside of a JSON string, without its quotes: a quote, a backslash and
/// the controls that have a short escape take two, other controls six, all else one.
pub fn escaped_len(bytes: &[u8]) -> u128
    ensures { result ≡ length (spelled bytes.now) }
{
    let (blocks, rest) = bytes.as_chunks::<BLOCK>();
    let mut total: u128 = 0;
    for block in blocks {
        total += block_len(block);
    }
    total + escaped_len_by_bytes(rest)
}

// A block without a special byte is spelled as it is.
#[inline(always)]
fn block_len(block: &[u8; BLOCK]) -> u128
    ensures exact { result ≡ length (spelled block.now) }
    ensures bound { result ≤ 192 }
{
    if Special::passing_lanes(u8x32::from_array(*block)) == 0 {
        BLOCK as u128
    } else {
        escaped_len_by_bytes(block)
    }
}

fn escaped_len_by_bytes(bytes: &[u8]) -> u128
    ensures exact { result ≡ length (spelled bytes.now) }
    ensures bound { result ≤ 6 * length bytes.now }
{
    let mut total: u128 = 0;
    for byte in bytes {
        total += byte_len(*byte) as u128;
    }
    total
}

#[tactic(auto, unfolding(crate::specs::Spelling::spelled_byte))]
fn byte_len(byte: u8) -> u8
    ensures exact { result ≡ length (spelled_byte byte) }
    ensures bound { result ≤ 6 }
{
    match byte {
        QUOTE | BACKSLASH | b'\n' | b'\r' | b'\t' | 0x08 | 0x0c => SHORT,
        _ if byte < FIRST_PRINTABLE => NUMBERED,
        _ => 1,
    }
}
