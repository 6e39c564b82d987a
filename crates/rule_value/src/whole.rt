//! Whole numbers.
ghost use Rattle.std.specs.Prelude.{◌≡◌, List};
ghost use Rattle.rule_value.specs.Wholes.{whole, is_within, is_less};

use crate::part::Whole;

/// The number of this sign and size.
pub fn whole(below: bool, size: u64) -> Whole
    ensures { result ≡ whole below size }
{
    Whole {
        below: below && size != 0,
        size,
    }
}

/// Whether a number of this sign and size is within 64 bits.
pub fn is_within(below: bool, size: u64) -> bool
    ensures { result ≡ is_within below size }
{
    if below {
        size <= 0x8000_0000_0000_0000
    } else {
        size < 0x8000_0000_0000_0000
    }
}

/// Whether the one is less than the other.
pub(crate) fn is_less(one: Whole, other: Whole) -> bool
    ensures { result ≡ is_less one other }
{
    if one.below {
        if other.below {
            other.size < one.size
        } else {
            true
        }
    } else if other.below {
        false
    } else {
        one.size < other.size
    }
}
