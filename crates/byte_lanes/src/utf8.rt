ghost use Rattle.std.specs.Prelude.{◌≡◌, ◌<◌, ◌≤◌, ◌+◌, ◌-◌, ℕ, true, length, take, drop, slice_index};
ghost use Rattle.std.specs.Str.{IsUtf8};
ghost use Rattle.byte_lanes.specs.Bytes.{is_above};
ghost use Rattle.byte_lanes.specs.Places.{NonePasses};
ghost use Rattle.byte_lanes.specs.Utf8.{AreInOrder, Follows};

use crate::lanes::{BLOCK, FIRST_ABOVE_ASCII};
use crate::places::first_above;
use std::simd::prelude::*;
use std::str::from_utf8;

/// The least byte that begins a character of two bytes or more, of three or more, and of four.
const TWO: u8 = 0xc0;

const THREE: u8 = 0xe0;

const FOUR: u8 = 0xf0;

/// How many bytes before one tell whether it may stand there.
const BEFORE: usize = 3;

/// The length of the longest front that is UTF-8 (RFC 3629, section 4).
pub fn utf8_len(bytes: &[u8]) -> usize
    ensures within { result ≤ length bytes.now }
    ensures utf8 { IsUtf8 (take result bytes.now) }
    ensures all { IsUtf8 bytes.now → result ≡ length bytes.now }
    ensures most { (k : ℕ) → k ≤ length bytes.now → IsUtf8 (take k bytes.now) → k ≤ result }
{
    match first_above(bytes, 0) {
        Some(place) => {
            let whole = utf8_by_blocks(bytes, place);
            whole + utf8_by_chars(&bytes[whole..])
        }
        None => bytes.len(),
    }
}

// Some bytes in front that are UTF-8, the first above ASCII standing at place `above`.
fn utf8_by_blocks(bytes: &[u8], above: usize) -> usize
    requires inside { above ≤ length bytes.now }
    requires ascii { NonePasses is_above bytes.now 0 above }
    ensures within { result ≤ length bytes.now }
    ensures utf8 { IsUtf8 (take result bytes.now) }
{
    let start = start_of_blocks(bytes, above);
    if start < BEFORE {
        return start;
    }
    let begin = start - BEFORE;
    let rest = &bytes[begin..];
    if rest[0] >= FOUR || rest[1] >= THREE || rest[2] >= TWO {
        return start;
    }
    begin + whole_end(rest, ordered_end(rest))
}

// Bytes in front that are UTF-8, at least three where there are as many: those that are ASCII, or else some by characters.
fn start_of_blocks(bytes: &[u8], above: usize) -> usize
    requires inside { above ≤ length bytes.now }
    requires ascii { NonePasses is_above bytes.now 0 above }
    ensures within { result ≤ length bytes.now }
    ensures utf8 { IsUtf8 (take result bytes.now) }
{
    if above < BEFORE {
        utf8_by_chars(&bytes[..bytes.len().min(BLOCK)])
    } else {
        above
    }
}

// A place up to which each byte behind the first three may stand where it does.
fn ordered_end(bytes: &[u8]) -> usize
    requires { 3 ≤ length bytes.now }
    ensures low { 3 ≤ result }
    ensures inside { result ≤ length bytes.now }
    ensures ordered { AreInOrder bytes.now result }
{
    let mut at = BEFORE;
    while bytes.len() - at >= BLOCK {
        if !is_block_in_order(bytes, at) {
            return at;
        }
        at += BLOCK;
    }
    at
}

#[inline(always)]
fn is_block_in_order(bytes: &[u8], at: usize) -> bool
    requires low { 3 ≤ at }
    requires inside { at + 32 ≤ length bytes.now }
    ensures { result ≡ true → AreInOrder bytes.now at → AreInOrder bytes.now (at + 32) }
{
    all_follow(
        u8x32::from_slice(&bytes[at - 3..]),
        u8x32::from_slice(&bytes[at - 2..]),
        u8x32::from_slice(&bytes[at - 1..]),
        u8x32::from_slice(&bytes[at..]),
    )
}

// Whether in each lane the byte may stand behind the three others.
#[inline(always)]
fn all_follow(third: u8x32, second: u8x32, first: u8x32, byte: u8x32) -> bool
    requires third { length third ≡ 32 }
    requires second { length second ≡ 32 }
    requires first { length first ≡ 32 }
    requires byte { length byte ≡ 32 }
    ensures { result ≡ true → (k : ℕ) → k < 32 → Follows (slice_index third k) (slice_index second k) (slice_index first k) (slice_index byte k) }
{
    let lead = byte.simd_ge(u8x32::splat(TWO));
    let far = byte.simd_ge(u8x32::splat(0xa0));
    let near = byte.simd_ge(u8x32::splat(0x90));
    let least = first.simd_eq(u8x32::splat(0xe0));
    let least_of_four = first.simd_eq(u8x32::splat(0xf0));
    let wanted = third.simd_ge(u8x32::splat(FOUR))
        | second.simd_ge(u8x32::splat(THREE))
        | first.simd_ge(u8x32::splat(TWO));
    let within = byte.simd_ge(u8x32::splat(FIRST_ABOVE_ASCII)) ^ lead;
    let never = (byte.simd_ge(u8x32::splat(0xc2)) ^ lead) | byte.simd_ge(u8x32::splat(0xf5));
    let low = (least & far ^ least) | (least_of_four & near ^ least_of_four);
    let high = (first.simd_eq(u8x32::splat(0xed)) & far)
        | (first.simd_eq(u8x32::splat(0xf4)) & near);
    ((wanted ^ within) | never | low | high).to_bitmask() == 0
}

// The end of the last whole character before place `end`, where one begins behind the first three bytes.
fn whole_end(bytes: &[u8], end: usize) -> usize
    requires low { 3 ≤ end }
    requires inside { end ≤ length bytes.now }
    requires begins { (slice_index bytes.now 0 < 0xf0) × (slice_index bytes.now 1 < 0xe0) × (slice_index bytes.now 2 < 0xc0) }
    requires ordered { AreInOrder bytes.now end }
    ensures low { 3 ≤ result }
    ensures within { result ≤ length bytes.now }
    ensures utf8 { IsUtf8 (take (result - 3) (drop 3 bytes.now)) }
{
    if bytes[end - 1] >= TWO {
        return end - 1;
    }
    if bytes[end - 2] >= THREE {
        return end - 2;
    }
    if bytes[end - 3] >= FOUR {
        return end - 3;
    }
    end
}

// A character at a time.
fn utf8_by_chars(bytes: &[u8]) -> usize
    ensures within { result ≤ length bytes.now }
    ensures utf8 { IsUtf8 (take result bytes.now) }
    ensures all { IsUtf8 bytes.now → result ≡ length bytes.now }
    ensures most { (k : ℕ) → k ≤ length bytes.now → IsUtf8 (take k bytes.now) → k ≤ result }
{
    match from_utf8(bytes) {
        Ok(_) => bytes.len(),
        Err(error) => error.valid_up_to(),
    }
}
