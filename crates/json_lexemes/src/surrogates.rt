// Numbered escapes, and those of them that are a surrogate without its other half.
ghost use Rattle.std.specs.Prelude.{◌≡◌, ◌+◌, ◌≤◌, length, slice_index, IsTrue};
ghost use Rattle.json_lexemes.specs.Surrogates.{is_numbered, unit_of, is_lone, is_low_escape, is_high_escape};

use crate::hex::{is_hex, is_high, is_low, value_of};
use byte_lanes::BACKSLASH;

/// The bytes of a numbered escape.
const NUMBERED: usize = 6;

// Whether a numbered escape stands at place `at`.
#[tactic(auto, using(crate::proofs::Escapes::short_not_numbered), unfolding(crate::specs::Surrogates::is_numbered))]
fn is_numbered_at(bytes: &[u8], at: usize) -> bool
    requires { at ≤ length bytes.now }
    ensures exact { result ≡ is_numbered bytes.now at }
    ensures within { IsTrue result → at + 6 ≤ length bytes.now }
{
    if bytes.len() - at < NUMBERED {
        return false;
    }
    bytes[at] == BACKSLASH
        && bytes[at + 1] == b'u'
        && is_hex(bytes[at + 2])
        && is_hex(bytes[at + 3])
        && is_hex(bytes[at + 4])
        && is_hex(bytes[at + 5])
}

// The number of the numbered escape that stands at place `at`.
#[tactic(auto, unfolding(crate::specs::Surrogates::unit_of))]
fn unit_at(bytes: &[u8], at: usize) -> u32
    requires { at + 6 ≤ length bytes.now }
    ensures { result ≡ unit_of bytes.now at }
{
    4096 * value_of(bytes[at + 2])
        + 256 * value_of(bytes[at + 3])
        + 16 * value_of(bytes[at + 4])
        + value_of(bytes[at + 5])
}

fn is_high_at(bytes: &[u8], at: usize) -> bool
    requires { at ≤ length bytes.now }
    ensures exact { result ≡ is_high_escape bytes.now at }
    ensures within { IsTrue result → at + 6 ≤ length bytes.now }
{
    if !is_numbered_at(bytes, at) {
        return false;
    }
    is_high(unit_at(bytes, at))
}

fn is_low_at(bytes: &[u8], at: usize) -> bool
    requires { at ≤ length bytes.now }
    ensures { result ≡ is_low_escape bytes.now at }
{
    if !is_numbered_at(bytes, at) {
        return false;
    }
    is_low(unit_at(bytes, at))
}

/// Whether the escape of a lone surrogate begins at place `at` of a string; `high` says whether the escape of a high
/// surrogate stands right before.
#[tactic(auto, using(crate::proofs::Escapes::lone_high))]
pub(crate) fn is_lone_at(bytes: &[u8], at: usize, high: bool) -> bool
    requires { at ≤ length bytes.now }
    ensures { result ≡ is_lone high bytes.now at }
{
    if is_high_at(bytes, at) {
        return !is_low_at(bytes, at + NUMBERED);
    }
    is_low_at(bytes, at) && !high
}
