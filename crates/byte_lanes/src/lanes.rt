// The tests of a byte, one byte and one block of bytes at a time.
ghost use Rattle.std.specs.Prelude.{◌≡◌, ℕ, Bool, map, length};
ghost use Rattle.std.specs.Simd.Lanes.{mask_l};
ghost use Rattle.byte_lanes.specs.Bytes.{is_special, is_above};

use std::simd::prelude::*;

/// The byte that begins and ends a JSON string.
pub const QUOTE: u8 = b'"';
/// The byte that begins an escape.
pub const BACKSLASH: u8 = b'\\';
/// The least byte that is no control: a space.
pub const FIRST_PRINTABLE: u8 = 0x20;
/// The least byte that isn't ASCII.
pub const FIRST_ABOVE_ASCII: u8 = 0x80;

/// The bytes of a block.
pub(crate) const BLOCK: usize = 32;

// A test of bytes, which a block's lanes pass or fail together.
pub(crate) trait ByteTest {
    ghost passes: { ℕ → Bool };

    fn passes_byte(byte: u8) -> bool
        ensures { result ≡ passes byte };

    // Bit k is set exactly where lane k passes.
    fn passing_lanes(block: u8x32) -> u64
        requires { length block ≡ 32 }
        ensures { result ≡ mask_l (map passes block) };
}

// A quote, a backslash or a control.
pub(crate) struct Special;

impl ByteTest for Special {
    ghost passes = { is_special };

    #[inline(always)]
    fn passes_byte(byte: u8) -> bool {
        byte < FIRST_PRINTABLE || byte == QUOTE || byte == BACKSLASH
    }

    #[inline(always)]
    fn passing_lanes(block: u8x32) -> u64 {
        let controls = block.simd_lt(u8x32::splat(FIRST_PRINTABLE)).to_bitmask();
        let quotes = block.simd_eq(u8x32::splat(QUOTE)).to_bitmask();
        let backslashes = block.simd_eq(u8x32::splat(BACKSLASH)).to_bitmask();
        controls | quotes | backslashes
    }
}

// A byte above ASCII.
pub(crate) struct Above;

impl ByteTest for Above {
    ghost passes = { is_above };

    #[inline(always)]
    fn passes_byte(byte: u8) -> bool {
        byte >= FIRST_ABOVE_ASCII
    }

    #[inline(always)]
    fn passing_lanes(block: u8x32) -> u64 {
        block.simd_ge(u8x32::splat(FIRST_ABOVE_ASCII)).to_bitmask()
    }
}
