ghost use Rattle.std.specs.Prelude.{◌≡◌, ◌≤◌, ◌-◌, ◌/◌, length, drop, not};
ghost use Rattle.std.specs.List.{prefix_len};
ghost use Rattle.std.specs.Simd.{first_chunks};
ghost use Rattle.byte_lanes.specs.Bytes.{is_special, is_above};
ghost use Rattle.byte_lanes.specs.Places.{IsFirstPlace};

use crate::lanes::{Above, BLOCK, ByteTest, Special};
use std::simd::prelude::*;

/// The least place from `from` on that holds a byte which can't stand for itself inside a JSON string (RFC 8259,
/// section 7): a quote, a backslash, or a byte below 0x20. `None` exactly where there is none.
#[inline]
pub fn first_special(bytes: &[u8], from: usize) -> Option<usize>
    requires { from ≤ length bytes.now }
    ensures { IsFirstPlace is_special bytes.now from result }
{
    first_place::<Special>(bytes, from)
}

/// The least place from `from` on that holds a byte above ASCII, which is 0x80 or more. `None` exactly where there is
/// none.
#[inline]
pub fn first_above(bytes: &[u8], from: usize) -> Option<usize>
    requires { from ≤ length bytes.now }
    ensures { IsFirstPlace is_above bytes.now from result }
{
    first_place::<Above>(bytes, from)
}

// A block at a time, and then what is left byte by byte.
#[inline(always)]
fn first_place<T: ByteTest>(bytes: &[u8], from: usize) -> Option<usize>
    requires { from ≤ length bytes.now }
    ensures { IsFirstPlace T.passes bytes.now from result }
{
    let mut at = from;
    for block in blocks_from(bytes, from) {
        let before = lanes_before::<T>(u8x32::from_array(*block));
        if before < BLOCK {
            return Some(at + before);
        }
        at += BLOCK;
    }
    first_place_by_bytes::<T>(bytes, at)
}

// The whole blocks of the bytes from place `from` on.
#[inline(always)]
fn blocks_from(bytes: &[u8], from: usize) -> &[[u8; BLOCK]]
    requires { from ≤ length bytes.now }
    ensures blocks { result.now ≡ first_chunks BLOCK ((length bytes.now - from) / BLOCK) (drop from bytes.now) }
    ensures count { length result.now ≡ (length bytes.now - from) / BLOCK }
{
    let (blocks, _) = bytes[from..].as_chunks::<BLOCK>();
    blocks
}

// How many lanes stand before the first that passes: all 32 where none does.
#[inline(always)]
fn lanes_before<T: ByteTest>(block: u8x32) -> usize
    requires { length block ≡ 32 }
    ensures { result ≡ prefix_len (λ byte. not (T.passes byte)) block }
{
    let passing = T::passing_lanes(block);
    if passing == 0 {
        BLOCK
    } else {
        passing.trailing_zeros() as usize
    }
}

#[inline(always)]
fn first_place_by_bytes<T: ByteTest>(bytes: &[u8], from: usize) -> Option<usize>
    requires { from ≤ length bytes.now }
    ensures { IsFirstPlace T.passes bytes.now from result }
{
    let mut at = from;
    while at < bytes.len() {
        if T::passes_byte(bytes[at]) {
            return Some(at);
        }
        at += 1;
    }
    None
}
